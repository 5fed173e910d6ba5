//! What the names of a scenario stand for, and the steps that its entries make with them.

ghost use Rattle.std.specs.Prelude.{◌≡◌};
ghost use Rattle.xa_base.specs.Call.{map_call};
ghost use Rattle.xa_scenario.specs.Plays.{begins_one, ending_step, gtrid_at, gtrid_answered, issue_of, script_step, step_of_entry, xid_at};

use xa_base::{Branch, Call, Gtrid, Reply, Step, Xid};
use xa_scenario_file::{BranchEntry, Ending, Entry, Script};

/// No transaction has these numbers.
const NO_GTRID: Gtrid = Gtrid {
    incarnation: 0,
    sequence: 0,
};

/// The transaction that a begin is answered with; none, if it is refused.
pub fn gtrid_in(reply: Reply) -> Gtrid
    ensures { result ≡ gtrid_answered reply }
{
    match reply {
        Reply::Begun(gtrid) => gtrid,
        _ => NO_GTRID,
    }
}

/// Whether the step begins a transaction.
pub fn begins(step: &Step) -> bool
    ensures { result ≡ begins_one step.now }
{
    matches!(step, Step::Begin { .. })
}

/// The transaction of the begin at a place, from 0.
fn gtrid_at(gtrids: &[Gtrid], begin: usize) -> Gtrid
    ensures { result ≡ gtrid_at gtrids.now begin }
{
    gtrids.get(begin).copied().unwrap_or(NO_GTRID)
}

/// The identifier of a branch at a resource manager.
fn xid_at(gtrids: &[Gtrid], rm: u32, branch: BranchEntry) -> Xid
    ensures { result ≡ xid_at gtrids.now rm branch }
{
    let branch = Branch {
        gtrid: gtrid_at(gtrids, branch.begin),
        thread: branch.thread,
        rm,
    };
    branch.xid()
}

/// The call on the identifier of its branch at a resource manager.
fn call_at(gtrids: &[Gtrid], rm: u32, call: &Call<BranchEntry>) -> Call
    ensures { result ≡ map_call (xid_at gtrids.now rm) call.now }
{
    match *call {
        Call::OpenRm => Call::OpenRm,
        Call::CloseRm => Call::CloseRm,
        Call::Start { xid, join } => Call::Start {
            xid: xid_at(gtrids, rm, xid),
            join,
        },
        Call::End { xid, fail } => Call::End {
            xid: xid_at(gtrids, rm, xid),
            fail,
        },
        Call::Prepare { xid } => Call::Prepare {
            xid: xid_at(gtrids, rm, xid),
        },
        Call::Commit { xid, one_phase } => Call::Commit {
            xid: xid_at(gtrids, rm, xid),
            one_phase,
        },
        Call::Rollback { xid } => Call::Rollback {
            xid: xid_at(gtrids, rm, xid),
        },
        Call::Forget { xid } => Call::Forget {
            xid: xid_at(gtrids, rm, xid),
        },
        Call::Recover {
            count,
            start_scan,
            end_scan,
        } => Call::Recover {
            count,
            start_scan,
            end_scan,
        },
    }
}

/// The step by which a thread issues a call.
pub fn issue_of(gtrids: &[Gtrid], thread: u32, rm: u32, call: &Call<BranchEntry>) -> Step
    ensures { result ≡ issue_of gtrids.now thread rm call.now }
{
    Step::Issue {
        thread,
        rm,
        call: call_at(gtrids, rm, call),
    }
}

/// The step by which a resource manager is told what to do with a branch.
fn script_step(rm: u32, xid: Xid, script: Script) -> Step
    ensures { result ≡ script_step rm xid script }
{
    match script {
        Script::Vote(vote) => Step::Vote { rm, xid, vote },
        Script::Busy(times) => Step::Busy { rm, xid, times },
        Script::Heuristic(how) => Step::Heuristic { rm, xid, how },
    }
}

/// The step by which a transaction is decided, claimed or ended.
fn ending_step(gtrid: Gtrid, ending: Ending) -> Step
    ensures { result ≡ ending_step gtrid ending }
{
    match ending {
        Ending::Decide(outcome) => Step::Decide { gtrid, outcome },
        Ending::Done => Step::Done { gtrid },
        Ending::Claim => Step::Claim { gtrid },
        Ending::Settle => Step::Settle { gtrid },
        Ending::Abandon => Step::Abandon { gtrid },
    }
}

/// The one step of an entry; none of a `call` and of a `drain`, which make several.
pub fn step_of(gtrids: &[Gtrid], entry: &Entry) -> Option<Step>
    ensures { result ≡ step_of_entry gtrids.now entry.now }
{
    Some(match *entry {
        Entry::Begin { thread } => Step::Begin { thread },
        Entry::Issue {
            thread,
            rm,
            ref call,
        } => issue_of(gtrids, thread, rm, call),
        Entry::Take { thread, rm } => Step::Take { thread, rm },
        Entry::Hear { thread, rm } => Step::Hear { thread, rm },
        Entry::Script { rm, branch, script } => {
            script_step(rm, xid_at(gtrids, rm, branch), script)
        }
        Entry::End { begin, ending } => ending_step(gtrid_at(gtrids, begin), ending),
        Entry::Recover {
            rm,
            count,
            start_scan,
            end_scan,
        } => Step::Recover {
            rm,
            count,
            start_scan,
            end_scan,
        },
        Entry::Resolve { rm } => Step::Resolve { rm },
        Entry::ResolveOpen { rm } => Step::ResolveOpen { rm },
        Entry::Crash(part) => Step::Crash(part),
        Entry::Restart(side) => Step::Restart(side),
        Entry::Call { .. } | Entry::Drain { .. } => return None,
    })
}
