//! What follows a stop: the log is given back, the manager is started again, and what is in doubt
//! is ended.

use crate::rows::act::{Act, branch, perform};
use std::process::Abort;
use xa_base::{Fate, How, Reply};
use xa_log::DecisionLog;
use xa_rm::MemRm;
use xa_system::System;

/// What a start of the manager found.
#[derive(Clone, Copy)]
pub(crate) struct Found {
    pub incarnation: u64,
    pub decisions: usize,
    pub heuristics: usize,
}

/// Starts the manager, which is down.
fn restart<L: DecisionLog + Drop>(rt: &impl Abort, system: &mut System<MemRm, L>) -> Found {
    let reply = perform(system, Act::RestartManager);
    let Reply::Restarted {
        incarnation,
        decisions,
        heuristics,
    } = reply
    else {
        assert!(rt; false);
        return Found {
            incarnation: 0,
            decisions: 0,
            heuristics: 0,
        };
    };
    Found {
        incarnation,
        decisions,
        heuristics,
    }
}

/// How many branches have this fate.
pub(crate) fn count_of<L: DecisionLog + Drop>(
    system: &System<MemRm, L>,
    rms: u32,
    fate: Fate,
) -> usize {
    let mut count = 0usize;
    for rm in 0..rms {
        if system.fate(&branch(rm)) == fate {
            count = count.saturating_add(1);
        }
    }
    count
}

/// Does these acts, whatever they are told.
fn perform_all<L: DecisionLog + Drop>(system: &mut System<MemRm, L>, acts: &[Act]) {
    for act in acts {
        perform(system, *act);
    }
}

/// Opens the line to each resource manager, has what is in doubt there listed, and ends it: again
/// and again, since a branch that ended heuristically is to be forgotten, and a resource manager
/// may put its xa_commit off.
fn recover<L: DecisionLog + Drop>(system: &mut System<MemRm, L>, rms: u32) {
    for rm in 0..rms {
        perform_all(system, &[Act::RestartRm(rm), Act::Open(rm)]);
        let round = [
            Act::Recover(rm),
            Act::Answer(rm),
            Act::Resolve(rm),
            Act::Answer(rm),
        ];
        for _ in 0..6u32 {
            perform_all(system, &round);
        }
    }
}

/// Asks each branch once more for its xa_commit, since what was heard before a crash counts no
/// more, and has the row leave. Answers how many rows left.
fn settle<L: DecisionLog + Drop>(system: &mut System<MemRm, L>, rms: u32) -> usize {
    for rm in 0..rms {
        perform(system, Act::Commit(rm));
    }
    match perform(system, Act::Done) {
        Reply::Noted => 1,
        _ => 0,
    }
}

/// What is in doubt is ended, and all branches have this end, except for those that ended
/// heuristically. Answers how many those are.
fn ends_alike<L: DecisionLog + Drop>(
    rt: &impl Abort,
    system: &mut System<MemRm, L>,
    rms: u32,
    end: Fate,
) -> usize {
    recover(system, rms);
    let alone = count_of(system, rms, Fate::Heuristic(How::Rb));
    let ended = count_of(system, rms, end).saturating_add(alone);
    assert!(rt; ended == rms as usize);
    alone
}

/// The rows leave, and the next start is of a later incarnation: it finds no decision, and so many
/// heuristic ends.
fn rows_leave<L: DecisionLog + Drop>(
    rt: &impl Abort,
    system: &mut System<MemRm, L>,
    rms: u32,
    found: Found,
    alone: usize,
) {
    assert!(rt; settle(system, rms) == found.decisions);
    assert!(rt; matches!(perform(system, Act::CrashManager), Reply::Crashed));
    let after = restart(rt, system);
    let is_later = after.incarnation > found.incarnation;
    assert!(rt; is_later && after.decisions == 0 && after.heuristics == alone);
}

/// The manager is started over the log that was given back, and all branches end alike, as the log
/// says; except for those that ended heuristically, of which the log tells. Answers what the start
/// found.
pub(crate) fn end_as_the_log_says<L: DecisionLog + Drop>(
    rt: &impl Abort,
    system: &mut System<MemRm, L>,
    rms: u32,
) -> Found {
    let were_committed = count_of(system, rms, Fate::Committed);
    let found = restart(rt, system);
    let end = if found.decisions == 1 || were_committed > 0 {
        Fate::Committed
    } else {
        Fate::RolledBack
    };
    let alone = ends_alike(rt, system, rms, end);
    rows_leave(rt, system, rms, found, alone);
    found
}
