//! A system with a branch, made also if a request for memory is refused, or two in a row: a step
//! that is refused for that is made again, and a start that is refused is begun anew.
//! `tests/refusals` refuses them; a test says on standard error what it met. If memory is ample
//! a test that meets anything fails.

use crate::systems::{do_step, new_system, one_rm};
use std::alloc::Global;
use std::env::Env;
use std::process::Abort;
use xa_base::{Branch, Call, Gtrid, Refusal, Reply, Step};
use xa_log::MemLog;
use xa_rm::MemRm;
use xa_system::{NewFault, System};

/// How many requests for memory a run may be refused.
pub(crate) const REFUSALS: u32 = 2;

/// The branch of the first transaction over a new log.
pub(crate) const BRANCH: Branch = Branch {
    gtrid: Gtrid {
        incarnation: 1,
        sequence: 1,
    },
    thread: 0,
    rm: 0,
};

/// Tells what a test met. Only if `tests/refusals` refuses memory may it meet anything.
pub(crate) fn met(rt: &(impl Abort + Eprint + Env), what: &str) {
    let _ = rt.eprintln(what);
    assert!(rt;
        rt.var("REFUSE_AT", &mut [0; 32]).is_ok(),
        "{what}, where memory is ample"
    );
}

/// The steps that start the branch, at a new system.
pub(crate) fn start_of_branch() -> [Step; 6] {
    let (thread, rm) = (0, 0);
    let call = Call::start(BRANCH.xid());
    [
        Step::Begin { thread },
        Step::Issue {
            thread,
            rm,
            call: Call::OpenRm,
        },
        Step::Take { thread, rm },
        Step::Hear { thread, rm },
        Step::Issue { thread, rm, call },
        Step::Take { thread, rm },
    ]
}

/// A new system. None if memory is refused.
fn made(alloc: Global) -> Option<System<MemRm, MemLog>> {
    let Ok(rms) = one_rm(alloc) else {
        return None;
    };
    match new_system(alloc, rms, MemLog::new(alloc)) {
        Err(NewFault::Memory | NewFault::Log) => None,
        made => made.ok(),
    }
}

/// Does a step, again if it is refused for want of memory.
fn step_at_last(
    rt: &(impl Abort + Eprint + Env),
    system: &mut System<MemRm, MemLog>,
    step: &Step,
) -> Reply {
    for _ in 0..REFUSALS {
        let reply = do_step(system, step.copy());
        if !matches!(reply, Reply::Refused(Refusal::Memory)) {
            return reply;
        }
        met(rt, "refused 16");
    }
    do_step(system, step.copy())
}

/// A system whose resource manager has taken the branch. None if no system is made.
pub(crate) fn started(
    rt: &(impl Abort + Eprint + Env),
    alloc: Global,
) -> Option<System<MemRm, MemLog>> {
    let mut system = made(alloc);
    for _ in 0..REFUSALS {
        if system.is_none() {
            met(rt, "refused start");
            system = made(alloc);
        }
    }
    let mut system = system?;
    for step in &start_of_branch() {
        let reply = step_at_last(rt, &mut system, step);
        assert!(rt; !matches!(reply, Reply::Refused(_)));
    }
    Some(system)
}
