//! Each row, with a stop at each call of either file.

use crate::disks::Stops;
use crate::over_files::{Crashes, OverLog, over_stopping_files};
use crate::rows::act::meets_stop;
use crate::rows::recovery::{count_of, end_as_the_log_says};
use crate::rows::table::{
    ABANDONED, ACKNOWLEDGED_LATER, CLAIM_ENDS_WITH_CRASH, CLAIMED_IS_KEPT, DECIDED_BEFORE_CRASH,
    HEURISTIC, OPEN_ROLLED_BACK, RESOURCE_MANAGER_CRASH, RETRIES, Row, TWO_PHASE_COMMIT,
};
use crate::systems::{new_system, taken_log, takes_log};
use std::alloc::Global;
use std::process::Abort;
use std::test::Fail;
use xa_base::{Fate, How, Reply, Side, Step};
use xa_log::DecisionLog;
use xa_rm::MemRm;
use xa_system::{NewFault, System};

/// How a run ended.
#[derive(Clone, Copy)]
enum Ended {
    /// There was no system, and no step.
    NotBegun,
    /// A step met the stop.
    Stopped,
    /// None did.
    Whole,
}

/// A row that met no stop ends as it says.
fn ends_whole<L: DecisionLog + Drop>(rt: &impl Abort, system: &System<MemRm, L>, row: &Row) {
    let end = if row.is_committed {
        Fate::Committed
    } else {
        Fate::RolledBack
    };
    let alone = count_of(system, row.rms, Fate::Heuristic(How::Rb));
    let ended = count_of(system, row.rms, end);
    assert!(rt; ended.saturating_add(alone) == row.rms as usize && ended > 0);
}

/// The incarnation of the last start, and whether the step after all others was to start the
/// manager again.
fn starts_of<L: DecisionLog + Drop>(system: &System<MemRm, L>) -> (u64, bool) {
    let mut incarnation = 1u64;
    let mut is_start = false;
    for event in system.trace() {
        is_start = matches!(event.step, Step::Restart(Side::Manager));
        if matches!(event.reply, Reply::Restarted { .. }) {
            incarnation = incarnation.saturating_add(1);
        }
    }
    (incarnation, is_start)
}

/// A manager takes its log again, and all ends as the log says. The incarnation is the next, and if
/// the start of a manager met the stop, that or the one after it.
fn goes_on<L: DecisionLog + Drop>(
    rt: &impl Abort,
    system: &mut System<MemRm, L>,
    log: L,
    rms: u32,
    starts: (u64, bool),
) {
    assert!(rt; takes_log(system, log));
    let found = end_as_the_log_says(rt, system, rms);
    let (last, is_start) = starts;
    let passed = found.incarnation.saturating_sub(last);
    assert!(rt; passed == 1 || (passed == 2 && is_start));
}

/// A manager that has met a stop goes on over its log as a crash leaves it.
fn outlives_stop<L: Crashes>(
    rt: &impl Abort,
    alloc: Global,
    system: &mut System<MemRm, L>,
    rms: u32,
) -> Result<(), Fail> {
    let starts = starts_of(system);
    let Some(log) = taken_log(system) else {
        return Err(Fail::from("the manager holds its log"));
    };
    let Some(log) = log.reopened(alloc, u64::MAX) else {
        return Err(Fail::from("the files don't open again"));
    };
    goes_on(rt, system, log, rms, starts);
    Ok(())
}

/// A row in a system.
fn run_in<L: Crashes>(
    rt: &impl Abort,
    alloc: Global,
    system: &mut System<MemRm, L>,
    row: &Row,
) -> Result<Ended, Fail> {
    if !meets_stop(system, row.parts) {
        ends_whole(rt, system, row);
        return Ok(Ended::Whole);
    }
    outlives_stop(rt, alloc, system, row.rms)?;
    Ok(Ended::Stopped)
}

/// A row in a system on one thread over a log, if the log doesn't fail at its start.
fn run_over<L: Crashes>(rt: &impl Abort, alloc: Global, log: L, row: &Row) -> Result<Ended, Fail> {
    match new_system(alloc, 1, row.rms, log) {
        Ok(mut system) => run_in(rt, alloc, &mut system, row),
        Err(NewFault::Log) => Ok(Ended::NotBegun),
        Err(fault) => Err(Fail::from(fault)),
    }
}

/// A row, and how a run of it ended.
#[derive(Drop)]
struct Playing<'a> {
    row: &'a Row,
    ended: Ended,
}

impl OverLog for Playing<'_> {
    fn over<L: Crashes>(&mut self, rt: &impl Abort, alloc: Global, log: L) -> Result<(), Fail> {
        self.ended = run_over(rt, alloc, log, self.row)?;
        Ok(())
    }
}

/// A row over a log in files of which the one stops after so many calls.
fn run(rt: &impl Abort, alloc: Global, which: Stops, calls: u64, row: &Row) -> Result<Ended, Fail> {
    let mut playing = Playing {
        row,
        ended: Ended::NotBegun,
    };
    let _is_open = over_stopping_files(rt, alloc, which, calls, &mut playing)?;
    Ok(playing.ended)
}

/// A row with a stop at each call of the one file, up to a run that meets none. Answers how many
/// runs met a stop before the first step, and how many in a step.
fn stop_at_each_call(
    rt: &impl Abort,
    alloc: Global,
    which: Stops,
    row: &Row,
) -> Result<(usize, usize), Fail> {
    let (mut before, mut stopped) = (0usize, 0usize);
    for calls in 0..2000u64 {
        match run(rt, alloc, which, calls, row)? {
            Ended::NotBegun => before = before.saturating_add(1),
            Ended::Stopped => stopped = stopped.saturating_add(1),
            Ended::Whole => {
                assert!(rt; before as u64 == calls.saturating_sub(stopped as u64));
                return Ok((before, stopped));
            }
        }
    }
    Err(Fail::from("each run met a stop"))
}

/// Tells on standard error how many runs met a stop, by the file that stopped.
fn tell(
    rt: &impl Eprint,
    (database, in_steps): (usize, usize),
    (journal, stopped): (usize, usize),
) {
    let _ = eprintln!(rt;
        "{database} and {journal} before a step, {in_steps} and {stopped} in one"
    );
}

/// The same for both files. A step that changes the log meets stops of the journal, in which its
/// changes are.
fn stops(rt: &(impl Abort + Eprint), alloc: Global, row: &Row) -> Result<(), Fail> {
    let database = stop_at_each_call(rt, alloc, Stops::Database, row)?;
    let journal = stop_at_each_call(rt, alloc, Stops::Journal, row)?;
    tell(rt, database, journal);
    assert!(rt; database.0 > 0 && journal.0 > 0);
    assert!(rt; (journal.1 > 0) == row.is_logged);
    Ok(())
}

#[test]
fn two_phase_commit(rt: HostRuntime) -> Result<(), Fail> {
    stops(&rt, rt.alloc(), &TWO_PHASE_COMMIT)
}

#[test]
fn decided_before_crash(rt: HostRuntime) -> Result<(), Fail> {
    stops(&rt, rt.alloc(), &DECIDED_BEFORE_CRASH)
}

#[test]
fn acknowledged_later(rt: HostRuntime) -> Result<(), Fail> {
    stops(&rt, rt.alloc(), &ACKNOWLEDGED_LATER)
}

#[test]
fn resource_manager_crash(rt: HostRuntime) -> Result<(), Fail> {
    stops(&rt, rt.alloc(), &RESOURCE_MANAGER_CRASH)
}

#[test]
fn heuristic(rt: HostRuntime) -> Result<(), Fail> {
    stops(&rt, rt.alloc(), &HEURISTIC)
}

#[test]
fn retries(rt: HostRuntime) -> Result<(), Fail> {
    stops(&rt, rt.alloc(), &RETRIES)
}

#[test]
fn open_rolled_back(rt: HostRuntime) -> Result<(), Fail> {
    stops(&rt, rt.alloc(), &OPEN_ROLLED_BACK)
}

#[test]
fn claimed_is_kept(rt: HostRuntime) -> Result<(), Fail> {
    stops(&rt, rt.alloc(), &CLAIMED_IS_KEPT)
}

#[test]
fn claim_ends_with_crash(rt: HostRuntime) -> Result<(), Fail> {
    stops(&rt, rt.alloc(), &CLAIM_ENDS_WITH_CRASH)
}

#[test]
fn abandoned(rt: HostRuntime) -> Result<(), Fail> {
    stops(&rt, rt.alloc(), &ABANDONED)
}
