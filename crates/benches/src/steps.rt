//! How many steps a second a system takes beside few transactions, and beside many.
//!
//! In a system of one thread and two resource managers, all in memory, 10, 100 or 900 transactions
//! are begun and have a started branch at each resource manager. Beside them 100 more are begun,
//! committed in two phases and done.

use anyhow::anyhow;
use std::alloc::Global;
use std::time::Instant;
use xa_base::{Branch, Call, Fate, Gtrid, Outcome, Reply, Step, Xid};
use xa_log::MemLog;
use xa_rm::MemRm;
use xa_system::System;

/// How many transactions are measured.
const MEASURED: u32 = 100;

/// How many systems do the same if they are timed.
const ROUNDS: u32 = 30;

/// How many resource managers there are.
const RMS: u32 = 2;

type MemSystem = System<MemRm, MemLog>;

/// Prints how many events there are in the end, and how many branches are committed. If they are
/// timed it also prints how many steps a second the 100 took, over many such systems, which should
/// not fall with the number of those beside them.
pub(crate) fn show(rt: &HostRuntime, timed: bool) -> anyhow::Result<()> {
    let rounds = if timed { ROUNDS } else { 1 };
    for beside in [10, 100, 900] {
        let run = measured_in_rounds(rt, beside, rounds)?;
        println!(rt;
            "{} events and {} committed branches beside {beside} transactions",
            run.events, run.committed
        )?;
        if timed {
            let steps = (run.steps as u128).saturating_mul(1_000_000) / run.micros.max(1);
            println!(rt; "{steps} steps a second")?;
        }
    }
    Ok(())
}

/// What a run gave: all events and committed branches in the end, and the steps that were measured.
#[derive(Clone, Copy)]
struct Run {
    events: usize,
    committed: usize,
    steps: usize,
    micros: u128,
}

/// A run that is made so often, with the steps and the time of all of them.
fn measured_in_rounds(rt: &HostRuntime, beside: u32, rounds: u32) -> anyhow::Result<Run> {
    let mut all = measured(rt, beside)?;
    for _ in 1..rounds {
        let round = measured(rt, beside)?;
        all.steps = all.steps.saturating_add(round.steps);
        all.micros = all.micros.saturating_add(round.micros);
    }
    Ok(all)
}

/// A new system with so many transactions that are started.
fn started(alloc: Global, count: u32) -> anyhow::Result<MemSystem> {
    let mut system = opened(alloc)?;
    for _ in 0..count {
        let _gtrid = start(&mut system)?;
    }
    Ok(system)
}

/// Commits as many transactions as are measured.
fn commit_measured(system: &mut MemSystem) -> anyhow::Result<()> {
    for _ in 0..MEASURED {
        let gtrid = start(system)?;
        commit(system, gtrid);
    }
    Ok(())
}

fn events_of(system: &MemSystem) -> usize {
    system.trace().len()
}

/// How many branches are committed.
fn committed_of(alloc: Global, system: &MemSystem) -> anyhow::Result<usize> {
    let mut count = 0usize;
    for (_, fate) in &system.report(alloc)? {
        if *fate == Fate::Committed {
            count = count.saturating_add(1);
        }
    }
    Ok(count)
}

/// Commits transactions in a new system, beside so many that are started.
fn measured(rt: &HostRuntime, beside: u32) -> anyhow::Result<Run> {
    let mut system = started(rt.alloc(), beside)?;
    let before = events_of(&system);
    let begun = Instant::now(rt)?;
    commit_measured(&mut system)?;
    let micros = begun.elapsed(rt)?.as_micros();
    let events = events_of(&system);
    Ok(Run {
        events,
        committed: committed_of(rt.alloc(), &system)?,
        steps: events.saturating_sub(before),
        micros,
    })
}

/// A system of one thread and two resource managers, with its lines opened.
fn opened(alloc: Global) -> anyhow::Result<MemSystem> {
    let mut rms = Vec::new(alloc);
    for _ in 0..RMS {
        rms.push(MemRm::new(alloc))?;
    }
    let mut system = System::new(alloc, 1, rms, MemLog::new(alloc))?;
    for rm in 0..RMS {
        call(&mut system, rm, Call::OpenRm);
    }
    Ok(system)
}

/// Has a call issued, taken and heard.
fn call(system: &mut MemSystem, rm: u32, call: Call) {
    let _issued = system.step(Step::Issue {
        thread: 0,
        rm,
        call,
    });
    let _taken = system.step(Step::Take { thread: 0, rm });
    let _heard = system.step(Step::Hear { thread: 0, rm });
}

/// The branch of a transaction at a resource manager.
fn branch(gtrid: Gtrid, rm: u32) -> Xid {
    Branch {
        gtrid,
        thread: 0,
        rm,
    }
    .xid()
}

/// Begins a transaction, and starts its branch at each resource manager.
fn start(system: &mut MemSystem) -> anyhow::Result<Gtrid> {
    let Reply::Begun(gtrid) = system.step(Step::Begin { thread: 0 }) else {
        return Err(anyhow!("no transaction was begun"));
    };
    for rm in 0..RMS {
        let xid = branch(gtrid, rm);
        call(system, rm, Call::start(xid));
    }
    Ok(gtrid)
}

/// Commits a started transaction in two phases.
fn commit(system: &mut MemSystem, gtrid: Gtrid) {
    for rm in 0..RMS {
        let xid = branch(gtrid, rm);
        call(system, rm, Call::end(xid));
        let xid = branch(gtrid, rm);
        call(system, rm, Call::Prepare { xid });
    }
    let _decided = system.step(Step::Decide {
        gtrid,
        outcome: Outcome::Commit,
    });
    for rm in 0..RMS {
        let xid = branch(gtrid, rm);
        call(system, rm, Call::commit(xid));
    }
    let _done = system.step(Step::Done { gtrid });
}
