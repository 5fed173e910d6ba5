//! Several rows at once.

ghost use Rattle.std.specs.Prelude.{◌≡◌, ◌≤◌, IfOk, IfErr, OnOk, OnErr, length, vec_len};
ghost use Rattle.xa_log.specs.KeySet.{from_list};
ghost use Rattle.xa_log.specs.Content.{Content, logged_as, logged_each, with_commit, with_commits, without_decisions};
ghost use Rattle.xa_log.specs.Memory.{MadeUpTo, content_held};
ghost use Rattle.xa_log.specs.declared.log_fault.LogFault.TheVariants.{Memory};

use super::MemLog;
use crate::{Decision, LogFault, Logged};
use std::alloc::Global;
use xa_base::Gtrid;

impl MemLog {
    /// Takes back what a decision's row has changed. `logged` says whether it was new.
    fn take_row_back(&mut self, decision: &Decision, logged: Logged)
        ensures undone { (before : Content)
            → content_held self.old ≡ with_commit decision.now.gtrid
            (from_list decision.now.participants.items) before
            → logged ≡ logged_as before decision.now.gtrid → content_held self.new ≡ before }
        ensures faults { self.new.faults ≡ self.old.faults }
    {
        match logged {
            Logged::New => {
                self.remove_decision(decision.gtrid);
            }
            Logged::Already => {}
        }
    }

    /// Takes back what the rows of the first of these decisions have changed, the last first. `answers` says of each
    /// whether it was new.
    fn take_back(&mut self, decisions: &[Decision], mut answers: Vec<Logged>)
        requires within { vec_len answers ≤ length decisions.now }
        ensures undone { (before : Content)
            → MadeUpTo decisions.now (vec_len answers) answers.items before (content_held self.old)
            → content_held self.new ≡ before }
        ensures faults { self.new.faults ≡ self.old.faults }
    {
        while let Some(logged) = answers.pop() {
            self.take_row_back(&decisions[answers.len()], logged);
        }
    }

    /// Puts the rows of these decisions, where their transactions have none, or none of them.
    pub(super) fn put_all(
        &mut self,
        alloc: Global,
        decisions: &[Decision],
    ) -> Result<Vec<Logged>, LogFault>
        ensures answer { IfOk result (λ list.
            list.items ≡ logged_each decisions.now (content_held self.old)) }
        ensures ok { OnOk result
            (content_held self.new ≡ with_commits decisions.now (content_held self.old)) }
        ensures err { OnErr result (content_held self.new ≡ content_held self.old) }
        ensures memory { IfErr result (λ e. e ≡ Memory) }
        ensures faults { self.new.faults ≡ self.old.faults }
    {
        let mut answers = Vec::with_capacity(alloc, decisions.len())?;
        for decision in decisions {
            match self.put_decision(decision.gtrid, decision.participants.as_slice()) {
                Ok(logged) => answers.push_reserved(logged),
                Err(fault) => {
                    self.take_back(decisions, answers);
                    return Err(fault);
                }
            }
        }
        Ok(answers)
    }

    /// Takes the rows of these transactions away.
    pub(super) fn remove_all(&mut self, gtrids: &[Gtrid])
        ensures removed { content_held self.new
            ≡ without_decisions gtrids.now (content_held self.old) }
        ensures faults { self.new.faults ≡ self.old.faults }
    {
        for g in gtrids {
            self.remove_decision(*g);
        }
    }
}
