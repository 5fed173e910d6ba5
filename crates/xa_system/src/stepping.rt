//! Steps are done, one after the other.
ghost use Rattle.std.specs.Prelude.{◌≡◌, ◌≢◌, Bool, ◌<◌, ◌≤◌, ◌+◌, ◌++◌, ◌∷◌, [], length, Err, IsOk, OnErr, OnOk};
ghost use Rattle.xa_base.specs.declared.refusal.Refusal.{Refusal};
ghost use Rattle.xa_base.specs.declared.refusal.Refusal.TheVariants as Refusals;
ghost use Rattle.xa_base.specs.declared.reply.Reply.TheVariants as Replies;
ghost use Rattle.xa_base.specs.declared.step.Side.TheVariants as Sides;
ghost use Rattle.xa_base.specs.declared.step.Step.TheVariants as Steps;
ghost use Rattle.xa_model.specs.Facts.{up};
ghost use Rattle.xa_model.specs.Promises.Headline.{Headline, HeadlineSince};
ghost use Rattle.xa_model.specs.Promises.Processes.{Resumes, resumed};
ghost use Rattle.xa_model.specs.Protocol.{AllRight, RightOrigin};
ghost use Rattle.xa_model.specs.Replies.Allowed.{Allowed};
ghost use Rattle.xa_model.specs.Replies.History.{reply_of, step_of};
ghost use Rattle.xa_model.specs.Replies.ReadBack.{StepHasXids};
ghost use Rattle.xa_model.specs.Replies.Steps.{happened};
ghost use Rattle.xa_model.specs.Trace.{Happening.Nothing, Trace};
ghost use Rattle.xa_system.specs.KeptLog.{HasFailedInStep, HasNoLogToRestart, KeepsItsLog};
ghost use Rattle.xa_system.specs.SystemView.{AddsSteps, HoldsItsTrace, IsAsBefore, IsFailed, observes, origin_in, trace_in};

use crate::system::{EVENT_LIMIT, System};
use xa_base::{Event, Refusal, Reply, Step};
use xa_log::DecisionLog;
use xa_rm::ResourceManager;

/// Only for the proof: each identifier in a step keeps the bounds of an `Xid`.
fn has_xids(step: &Step)
    ensures { StepHasXids step.now }
{
    match step {
        Step::Issue { call, .. } => {
            if let Some(xid) = call.xid() {
                let _ = xid.format();
            }
        }
        Step::Vote { xid, .. } | Step::Busy { xid, .. } | Step::Heuristic { xid, .. } => {
            let _ = xid.format();
        }
        _ => {}
    }
}

impl<R: ResourceManager + Drop, L: DecisionLog + Drop> System<R, L> {
    ghost use Rattle.xa_system.specs.declared.system.TheConstants.{EVENT_LIMIT};

    /// Adds one event, if there is room, and leaves all parts where the history with it leaves
    /// them.
    ///
    /// A refused step leaves them as they were. One in which the log failed leaves the manager
    /// down, all lines broken, and the log as it was or with the step's one change. A restart of
    /// the manager is refused in the same way while its log is out, and over a log of another
    /// incarnation than one that it may follow.
    pub fn step(&mut self, step: Step) -> Reply
        // The event, and its reply.
        ensures full { EVENT_LIMIT ≤ length self.old.events →
            (result ≡ Replies.Refused Refusals.Limit) × (self.new ≡ self.old) }
        ensures adds { length self.old.events < EVENT_LIMIT →
            self.new.events ≡ self.old.events ++ record { step = step; reply = result } ∷ [] }
        ensures allowed { length self.old.events < EVENT_LIMIT →
            Allowed (trace_in R.look self.old) (step_of step) (reply_of result) }
        // What all events then say, and where the parts are.
        ensures headline { RightOrigin (origin_in R.look self.new) →
            Headline (origin_in R.look self.new) self.new.events }
        ensures resumed { (past : Trace) → AllRight past →
            Resumes past (origin_in R.look self.new) →
            HeadlineSince (resumed past (origin_in R.look self.new)) self.new.events }
        ensures parts { HoldsItsTrace (observes R.look L.moment) self.new }
        ensures start { origin_in R.look self.new ≡ origin_in R.look self.old }
        // A step that is refused, but not by the log, is nothing.
        ensures refused { (n : Refusal) → result ≡ Replies.Refused n → n ≢ Refusals.LogFault →
            IsAsBefore (observes R.look L.moment) self.old self.new }
        ensures nothing { (n : Refusal) → result ≡ Replies.Refused n → n ≢ Refusals.LogFault →
            happened (step_of step) (reply_of result) ≡ Nothing }
        // One in which the log failed.
        ensures failed { result ≡ Replies.Refused Refusals.LogFault →
            HasFailedInStep (observes R.look L.moment) step self.old self.new }
        // The log, and whether a restart may follow over it.
        ensures log { KeepsItsLog (observes R.look L.moment) self.old self.new }
        // A restart that can't be.
        ensures no_restart { step ≡ Steps.Restart Sides.Manager →
            length self.old.events < EVENT_LIMIT → up (trace_in R.look self.old) ≡ Bool.false →
            HasNoLogToRestart (observes R.look L.moment) self.old self.new → IsFailed result }
    {
        if self.events.len() >= EVENT_LIMIT {
            self.agree();
            return Reply::Refused(Refusal::Limit);
        }
        has_xids(&step);
        let (reply, copy) = self.parts.step(&step).split();
        self.events.push_reserved(Event { step, reply: copy });
        self.agree();
        reply
    }

    /// Does all steps in order, or none if the trace lacks room for them.
    pub fn run(&mut self, steps: &[Step]) -> Result<(), Refusal>
        // The events.
        ensures limit { EVENT_LIMIT < length self.old.events + length steps.now →
            result ≡ Err Refusals.Limit }
        ensures room { length self.old.events + length steps.now ≤ EVENT_LIMIT → IsOk result }
        ensures err { OnErr result (self.new ≡ self.old) }
        ensures adds { OnOk result (AddsSteps steps.now self.old.events self.new.events) }
        // What they then say, and where the parts are.
        ensures headline { RightOrigin (origin_in R.look self.new) →
            Headline (origin_in R.look self.new) self.new.events }
        ensures resumed { (past : Trace) → AllRight past →
            Resumes past (origin_in R.look self.new) →
            HeadlineSince (resumed past (origin_in R.look self.new)) self.new.events }
        ensures parts { HoldsItsTrace (observes R.look L.moment) self.new }
        ensures start { origin_in R.look self.new ≡ origin_in R.look self.old }
        // The log, and whether a restart may follow over it.
        ensures log { KeepsItsLog (observes R.look L.moment) self.old self.new }
    {
        if self.room() < steps.len() {
            self.agree();
            return Err(Refusal::Limit);
        }
        for step in steps {
            let _reply = self.step(step.copy());
        }
        self.agree();
        Ok(())
    }
}
