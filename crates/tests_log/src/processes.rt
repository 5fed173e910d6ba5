//! Ten processes of the manager, one after another, over the same resource managers and the same
//! log, with steps by chance. Whatever they do, each branch of each of them ends as the rows say
//! that the log ever had.

mod chance;
mod moves;
mod told;

use crate::disks::Stops;
use crate::over_files::{Crashes, OverLog, over_stopping_files};
use crate::processes::chance::Chance;
use crate::processes::moves::{Notes, Player};
use crate::processes::told::{Ends, RMS, THREADS, Told};
use crate::systems::{new_system, resumed_system, taken_log, takes_log};
use std::alloc::Global;
use std::process::Abort;
use std::test::Fail;
use xa_base::{Side, Step};
use xa_log::MemLog;
use xa_rm::MemRm;
use xa_system::{Remains, System};

const PROCESSES: u32 = 10;

/// How often a process does something.
const MOVES: u32 = 40;

/// After how many calls of its journal a log stops: once it has been opened, and a process has
/// begun.
fn calls_by(chance: &mut Chance) -> u64 {
    70u64.saturating_add(u64::from(chance.below(150)))
}

/// A log as a crash leaves it, opened again and read.
fn found_again<L: Crashes>(alloc: Global, log: L, notes: &mut Notes) -> Result<L, Fail> {
    let Some(mut log) = log.reopened(alloc, calls_by(&mut notes.chance)) else {
        return Err(Fail::from("the log stops before it is there"));
    };
    notes.told.read(&mut log)?;
    Ok(log)
}

/// What a system leaves, which has its log.
fn remains_of<L: Crashes>(system: System<MemRm, L>) -> Result<(Vec<MemRm>, L), Fail> {
    let Ok(Remains { rms, log }) = system.into_parts() else {
        return Err(Fail::from("out of memory"));
    };
    match log {
        Some(log) => Ok((rms, log)),
        None => Err(Fail::from("the log is out")),
    }
}

/// The system of the next process, over what that of another leaves.
fn next_system<L: Crashes>(
    alloc: Global,
    system: System<MemRm, L>,
    notes: &mut Notes,
) -> Result<System<MemRm, L>, Fail> {
    let (rms, log) = remains_of(system)?;
    let log = found_again(alloc, log, notes)?;
    Ok(resumed_system(alloc, THREADS, rms, log)?)
}

impl<L: Crashes> Player<L> {
    /// The first process.
    fn new(alloc: Global, log: L, seed: u32) -> Result<Player<L>, Fail> {
        Ok(Player {
            system: new_system(alloc, THREADS, RMS, log)?,
            notes: Notes {
                told: Told::new(alloc),
                chance: Chance::of(seed),
                stops: 0,
            },
        })
    }

    /// If the log has stopped it is taken out, found again, read, and given back.
    fn mend(&mut self, rt: &impl Abort, alloc: Global) -> Result<(), Fail> {
        let Some(log) = taken_log(&mut self.system) else {
            return Ok(());
        };
        self.notes.stops = self.notes.stops.saturating_add(1);
        let log = found_again(alloc, log, &mut self.notes)?;
        assert!(rt; takes_log(&mut self.system, log));
        self.step(Step::Restart(Side::Manager));
        Ok(())
    }

    /// A process plays.
    fn run(&mut self, rt: &impl Abort, alloc: Global) -> Result<(), Fail> {
        for _ in 0..MOVES {
            self.play();
            self.mend(rt, alloc)?;
        }
        let _ends = self.notes.told.look(rt, &self.system);
        Ok(())
    }

    /// The next process, over what this one leaves.
    fn next(self, alloc: Global) -> Result<Player<L>, Fail> {
        let Player { system, mut notes } = self;
        match next_system(alloc, system, &mut notes) {
            Ok(system) => Ok(Player { system, notes }),
            Err(fail) => Err(fail),
        }
    }

    /// A process plays, and the next one begins.
    fn passed_on(mut self, rt: &impl Abort, alloc: Global) -> Result<Player<L>, Fail> {
        self.run(rt, alloc)?;
        self.next(alloc)
    }

    /// All that is in doubt is ended. Tells how the branches ended.
    fn end_all(&mut self, rt: &impl Abort) -> Ends {
        for rm in 0..RMS {
            // A resource manager may be busy, and a branch that it ended alone is to be forgotten.
            for _ in 0..40u32 {
                self.recover(rm, true);
            }
        }
        self.notes.told.look(rt, &self.system)
    }
}

/// Ten processes over a log. Tells how the branches ended, and how often the log had stopped.
fn ten_processes<L: Crashes>(
    rt: &impl Abort,
    alloc: Global,
    log: L,
    seed: u32,
) -> Result<(Ends, u32), Fail> {
    let mut player = Player::new(alloc, log, seed)?;
    for _ in 0..PROCESSES {
        player = player.passed_on(rt, alloc)?;
    }
    let ends = player.end_all(rt);
    Ok((ends, player.notes.stops))
}

/// Nothing is left in doubt, and there were ends of both kinds.
fn have_ended(rt: &impl Abort, ends: Ends) {
    assert!(rt; ends.prepared == 0);
    assert!(rt; ends.committed > 20 && ends.rolled_back > 20);
}

/// Ten processes with the steps of a seed, and how often their log has stopped.
#[derive(Drop)]
struct Ten {
    seed: u32,
    stops: u32,
}

impl OverLog for Ten {
    fn over<L: Crashes>(&mut self, rt: &impl Abort, alloc: Global, log: L) -> Result<(), Fail> {
        let (ends, stops) = ten_processes(rt, alloc, log, self.seed)?;
        have_ended(rt, ends);
        self.stops = stops;
        Ok(())
    }
}

/// The same over a log in files whose journal stops. Tells how often it has.
fn ten_in_files(rt: &impl Abort, alloc: Global, seed: u32) -> Result<u32, Fail> {
    let mut ten = Ten { seed, stops: 0 };
    if !over_stopping_files(rt, alloc, Stops::Journal, 200, &mut ten)? {
        return Err(Fail::from("the log stops before it is there"));
    }
    Ok(ten.stops)
}

#[test]
fn over_a_log_in_memory(rt: HostRuntime) -> Result<(), Fail> {
    for seed in 1..9u32 {
        let (ends, _) = ten_processes(&rt, rt.alloc(), MemLog::new(rt.alloc()), seed)?;
        have_ended(&rt, ends);
    }
    Ok(())
}

#[test]
fn over_files_that_stop(rt: HostRuntime) -> Result<(), Fail> {
    let mut stopped = 0u32;
    for seed in 1..3u32 {
        stopped = stopped.saturating_add(ten_in_files(&rt, rt.alloc(), seed)?);
    }
    assert!(rt; stopped > 0);
    Ok(())
}
