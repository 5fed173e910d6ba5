//! What a row does: each act is one step or more.

use crate::systems::do_step;
use xa_base::{Branch, Call, Gtrid, How, Outcome, Part, Refusal, Reply, Side, Step, Xid};
use xa_log::DecisionLog;
use xa_rm::MemRm;
use xa_system::System;

/// The one transaction of a row, in the first incarnation.
pub(crate) const FIRST: Gtrid = Gtrid {
    incarnation: 1,
    sequence: 1,
};

/// The identifier of its branch at a resource manager.
pub(crate) fn branch(rm: u32) -> Xid {
    Branch {
        gtrid: FIRST,
        thread: 0,
        rm,
    }
    .xid()
}

/// What a row does. A number is that of a resource manager. A call is issued, taken and heard.
#[derive(Clone, Copy)]
pub(crate) enum Act {
    Begin,
    Open(u32),
    Start(u32),
    End(u32),
    Prepare(u32),
    Commit(u32),
    Rollback(u32),
    Forget(u32),
    /// A call for all that is in doubt.
    Recover(u32),
    /// The oldest call that waits is taken and heard.
    Answer(u32),
    Resolve(u32),
    ResolveOpen(u32),
    /// Three times xa_commit is to be put off.
    Busy(u32),
    /// The branch is rolled back heuristically.
    RollBackAlone(u32),
    Decide,
    Claim,
    Settle,
    Abandon,
    Done,
    CrashManager,
    RestartManager,
    CrashRm(u32),
    RestartRm(u32),
}

/// The call of an act, with its resource manager, if it is one.
fn call_of(act: Act) -> Option<(u32, Call)> {
    match act {
        Act::Open(rm) => Some((rm, Call::OpenRm)),
        Act::Start(rm) => Some((rm, Call::start(branch(rm)))),
        Act::End(rm) => Some((rm, Call::end(branch(rm)))),
        Act::Prepare(rm) => Some((rm, Call::Prepare { xid: branch(rm) })),
        Act::Commit(rm) => Some((rm, Call::commit(branch(rm)))),
        Act::Rollback(rm) => Some((rm, Call::Rollback { xid: branch(rm) })),
        Act::Forget(rm) => Some((rm, Call::Forget { xid: branch(rm) })),
        _ => None,
    }
}

/// The step of any other act.
fn step_of(act: Act) -> Step {
    let gtrid = FIRST;
    match act {
        Act::Recover(rm) => Step::Recover {
            rm,
            count: 8,
            start_scan: true,
            end_scan: true,
        },
        Act::Resolve(rm) => Step::Resolve { rm },
        Act::ResolveOpen(rm) => Step::ResolveOpen { rm },
        Act::Busy(rm) => {
            let xid = branch(rm);
            Step::Busy { rm, xid, times: 3 }
        }
        Act::RollBackAlone(rm) => {
            let (xid, how) = (branch(rm), How::Rb);
            Step::Heuristic { rm, xid, how }
        }
        Act::Decide => {
            let outcome = Outcome::Commit;
            Step::Decide { gtrid, outcome }
        }
        Act::Claim => Step::Claim { gtrid },
        Act::Settle => Step::Settle { gtrid },
        Act::Abandon => Step::Abandon { gtrid },
        Act::Done => Step::Done { gtrid },
        Act::CrashManager => Step::Crash(Part::Manager),
        Act::RestartManager => Step::Restart(Side::Manager),
        Act::CrashRm(rm) => Step::Crash(Part::Rm { rm }),
        Act::RestartRm(rm) => Step::Restart(Side::Rm { rm }),
        _ => Step::Begin { thread: 0 },
    }
}

/// Has the oldest call on a line taken and heard, and tells the last reply.
fn answer<L: DecisionLog + Drop>(system: &mut System<MemRm, L>, rm: u32) -> Reply {
    let thread = 0;
    do_step(system, Step::Take { thread, rm });
    do_step(system, Step::Hear { thread, rm })
}

/// Does what is asked for, and tells the last reply.
pub(crate) fn perform<L: DecisionLog + Drop>(system: &mut System<MemRm, L>, act: Act) -> Reply {
    if let Act::Answer(rm) = act {
        return answer(system, rm);
    }
    let Some((rm, call)) = call_of(act) else {
        return do_step(system, step_of(act));
    };
    let thread = 0;
    match do_step(system, Step::Issue { thread, rm, call }) {
        Reply::Issued => answer(system, rm),
        refused => refused,
    }
}

/// Does all of a row up to a step in which the log fails, and tells whether there was one.
pub(crate) fn meets_stop<L: DecisionLog + Drop>(
    system: &mut System<MemRm, L>,
    parts: &[&[Act]],
) -> bool {
    for part in parts {
        for one in *part {
            if matches!(perform(system, *one), Reply::Refused(Refusal::LogFault)) {
                return true;
            }
        }
    }
    false
}
