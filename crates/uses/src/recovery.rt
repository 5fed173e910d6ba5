//! `xa_system`: a recovery at a resource manager.

ghost use Rattle.std.specs.Prelude.{◌≡◌, ◌≤◌, ◌⊎◌, ◌++◌, ℕ, List, length, map};
ghost use Rattle.xa_model.specs.Facts.{issued, taken};
ghost use Rattle.xa_model.specs.Facts.InDoubt.{in_doubt};
ghost use Rattle.xa_model.specs.Promises.Processes.{Resumes};
ghost use Rattle.xa_model.specs.Promises.Recovery.{IsRecovered, NonePutOff, recovery};
ghost use Rattle.xa_model.specs.Protocol.{AllRight, RightOrigin};
ghost use Rattle.xa_model.specs.Replies.History.{read};
ghost use Rattle.xa_model.specs.Trace.{Answer as KnownAnswer, Call as KnownCall, Name, Trace, line};
ghost use Rattle.xa_system.specs.SystemView.{origin_in, trace_in};

use xa_base::{Refusal, Step};
use xa_log::DecisionLog;
use xa_rm::ResourceManager;
use xa_system::System;

/// Runs steps. If their events are a whole recovery at a resource manager, all that is then
/// still prepared there is of live transactions: if no call waited on its line before, the page had
/// room for all that was in doubt, and no call was put off. So it is of a system that had a right
/// start, as a new one has, and of one whose start resumed a right history: what earlier processes
/// left prepared there is ended too.
pub fn recover<R: ResourceManager + Drop, L: DecisionLog + Drop>(
    system: &mut System<R, L>,
    steps: &[Step],
) -> Result<(), Refusal>
    ensures { (r count : ℕ) (names : List Name) (answers : List (KnownCall × KnownAnswer)) →
        RightOrigin (origin_in R.look system.old)
        ⊎ ((past : Trace) × AllRight past × Resumes past (origin_in R.look system.old)) →
        map read system.new.events ≡ map read system.old.events ++ recovery r count names answers →
        length (taken (trace_in R.look system.old) (line 0 r)) ≡
        length (issued (trace_in R.look system.old) (line 0 r)) →
        length (in_doubt (trace_in R.look system.old) r) ≤ count → NonePutOff answers →
        IsRecovered (trace_in R.look system.new) r }
{
    system.agree();
    let ran = system.run(steps);
    xa_model::replies_are_allowed();
    xa_model::recovery_completes();
    xa_model::across_processes();
    ran
}
