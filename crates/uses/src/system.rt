//! `xa_system`: two-phase commit of one transaction.

ghost use Rattle.xa_model.specs.Promises.Agreement.{AreAlike};
ghost use Rattle.xa_model.specs.Promises.Processes.{Resumes, joined};
ghost use Rattle.xa_model.specs.Protocol.{AllRight, RightOrigin};
ghost use Rattle.xa_model.specs.Trace.{Trace};
ghost use Rattle.xa_system.specs.SystemView.{origin_in, trace_in};

use xa_base::{Branch, Call, Gtrid, Outcome, Refusal, Step};
use xa_log::DecisionLog;
use xa_rm::ResourceManager;
use xa_system::System;

/// The first transaction of a system that starts over a new log.
const FIRST: Gtrid = Gtrid {
    incarnation: 1,
    sequence: 1,
};

/// Runs steps. However they go, no branch of a transaction is committed then beside one that is
/// rolled back or lost: of all that happened since a right start, as that of a new system is, and
/// of what earlier processes did and this one.
pub fn run_alike<R: ResourceManager + Drop, L: DecisionLog + Drop>(
    system: &mut System<R, L>,
    steps: &[Step],
) -> Result<(), Refusal>
    ensures alike { RightOrigin (origin_in R.look system.new) →
        AreAlike (trace_in R.look system.new) }
    ensures resumed { (past : Trace) → AllRight past → Resumes past (origin_in R.look system.new) →
        AreAlike (joined past (origin_in R.look system.new) system.new.events) }
{
    system.run(steps)
}

/// Does a step. With no clause: a proof that carries those of several calls takes many times as
/// long.
fn step<R: ResourceManager + Drop, L: DecisionLog + Drop>(system: &mut System<R, L>, step: Step) {
    let _reply = system.step(step);
}

/// Has a call issued, taken and heard.
fn call<R: ResourceManager + Drop, L: DecisionLog + Drop>(system: &mut System<R, L>, call: Call) {
    let steps = [
        Step::Issue {
            thread: 0,
            rm: 0,
            call,
        },
        Step::Take { thread: 0, rm: 0 },
        Step::Hear { thread: 0, rm: 0 },
    ];
    let _run = run_alike(system, &steps);
}

/// Commits a new system's first transaction in two phases, at one resource manager.
pub fn commit<R: ResourceManager + Drop, L: DecisionLog + Drop>(system: &mut System<R, L>) {
    let branch = Branch {
        gtrid: FIRST,
        thread: 0,
        rm: 0,
    };
    call(system, Call::OpenRm);
    step(system, Step::Begin { thread: 0 });
    call(system, Call::start(branch.xid()));
    call(system, Call::end(branch.xid()));
    call(system, Call::Prepare { xid: branch.xid() });
    let decide = Step::Decide {
        gtrid: FIRST,
        outcome: Outcome::Commit,
    };
    step(system, decide);
    call(system, Call::commit(branch.xid()));
    step(system, Step::Done { gtrid: FIRST });
}
