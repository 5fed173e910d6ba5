//! A branch of a transaction, and what follows from the report of its call.

ghost use Rattle.std.specs.List.{list_any};
ghost use Rattle.std.specs.Prelude.{◌≡◌, ◌≢◌, ◌<◌, ◌≤◌, [], true, IfOk};
ghost use Rattle.xa_conduct.specs.Backing.{IsToldSo, KeepsBacked, asks_forget, was_asked};
ghost use Rattle.xa_conduct.specs.Debts.{OwesNoLess, is_owed_to};
ghost use Rattle.xa_conduct.specs.Decided.{AsksNoLess, CommitIsAsked, is_rollback_of};
ghost use Rattle.xa_conduct.specs.Meaning.{step_at};
ghost use Rattle.xa_conduct.specs.Places.{is_asked, is_left, is_working, steps_at};
ghost use Rattle.xa_conduct.specs.declared.place.Place.TheVariants as Places;

use crate::debt::Debt;
use crate::meaning::{Heard, Step};
use crate::place::Place;
use crate::plan::Plan;
use crate::report::Report;
use std::alloc::AllocError;
use xa_base::{Branch, Code, How};

/// A branch of the transaction.
#[derive(Clone, Copy, Debug)]
pub(crate) struct Part {
    pub rm: u32,
    pub place: Place,
    /// How it ended by itself, if it did.
    pub alone: Option<How>,
}

impl Part {
    /// A branch begins.
    pub fn new(rm: u32) -> Part
        ensures rm { result.rm ≡ rm }
        ensures place { result.place ≡ Places.Working }
    {
        Part {
            rm,
            place: Place::Working,
            alone: None,
        }
    }

    /// Whether its end is left to the recovery.
    pub fn is_owed(&self) -> bool
        ensures { result ≡ is_left self.now.place }
    {
        matches!(self.place, Place::Owed)
    }

    /// Whether work goes on at it.
    pub fn is_working(&self) -> bool
        ensures { result ≡ is_working self.now.place }
    {
        matches!(self.place, Place::Working)
    }

    /// Its work is to end, and it is to be prepared, unless it is already.
    pub fn prepare(&mut self, branch: Branch, plan: &mut Plan) -> Result<(), AllocError>
        ensures same { self.new.rm ≡ self.old.rm }
        ensures closer { IfOk result (λ _. steps_at self.old.place ≤ steps_at self.new.place) }
        ensures more { IfOk result (λ _.
            AsksNoLess plan.old.requests.items plan.new.requests.items) }
        ensures backed { IfOk result (λ _. KeepsBacked plan.old.requests.items
            plan.new.requests.items branch self.old.place self.new.place) }
    {
        if let Place::Working = self.place {
            plan.issue_end(branch)?;
            plan.issue_prepare(branch)?;
            self.place = Place::Preparing;
        }
        Ok(())
    }

    /// Its work is to end, and it is to be committed in one phase.
    pub fn commit_at_once(&mut self, branch: Branch, plan: &mut Plan) -> Result<(), AllocError>
        ensures same { self.new.rm ≡ self.old.rm }
        ensures started { is_working self.old.place ≡ true →
            IfOk result (λ _. steps_at self.old.place < steps_at self.new.place) }
        ensures closer { IfOk result (λ _. steps_at self.old.place ≤ steps_at self.new.place) }
        ensures more { IfOk result (λ _.
            AsksNoLess plan.old.requests.items plan.new.requests.items) }
        ensures backed { IfOk result (λ _. KeepsBacked plan.old.requests.items
            plan.new.requests.items branch self.old.place self.new.place) }
    {
        if let Place::Working = self.place {
            plan.issue_end(branch)?;
            plan.issue_commit_at_once(branch)?;
            self.place = Place::AtOnce;
        }
        Ok(())
    }

    /// It is to be committed, if it is prepared. Whether it is.
    pub fn commit(&mut self, branch: Branch, plan: &mut Plan) -> Result<bool, AllocError>
        requires { CommitIsAsked plan.old.requests.items branch.gtrid }
        ensures same { self.new.rm ≡ self.old.rm }
        ensures closer { IfOk result (λ _. steps_at self.old.place ≤ steps_at self.new.place) }
        ensures more { IfOk result (λ _.
            AsksNoLess plan.old.requests.items plan.new.requests.items) }
        ensures backed { IfOk result (λ _. KeepsBacked plan.old.requests.items
            plan.new.requests.items branch self.old.place self.new.place) }
    {
        match self.place {
            Place::Prepared => {
                plan.issue_commit(branch)?;
                self.place = Place::Committing;
                Ok(true)
            }
            _ => Ok(false),
        }
    }

    /// It is to be rolled back, unless it is over: the call that waits for that, or waits already.
    pub fn undo(&mut self, branch: Branch, plan: &mut Plan) -> Result<(), AllocError>
        requires { list_any (is_rollback_of branch.gtrid) plan.old.requests.items ≡ true }
        ensures same { self.new.rm ≡ self.old.rm }
        ensures closer { IfOk result (λ _. steps_at self.old.place ≤ steps_at self.new.place) }
        ensures more { IfOk result (λ _.
            AsksNoLess plan.old.requests.items plan.new.requests.items) }
        ensures backed { IfOk result (λ _. KeepsBacked plan.old.requests.items
            plan.new.requests.items branch self.old.place self.new.place) }
    {
        match self.place {
            Place::Working => {
                plan.issue_end(branch)?;
                plan.issue_rollback(branch)?;
                self.place = Place::Undoing;
            }
            Place::Preparing => self.place = Place::Refusing,
            Place::Prepared => {
                plan.issue_rollback(branch)?;
                self.place = Place::RollingBack;
            }
            _ => {}
        }
        Ok(())
    }

    /// The call that was told was answered so.
    pub fn hear(
        &mut self,
        report: Report,
        branch: Branch,
        plan: &mut Plan,
        debts: &mut Vec<Debt>,
    ) -> Result<Heard, AllocError>
        ensures same { self.new.rm ≡ self.old.rm }
        ensures closer { is_asked self.old.place ≡ true →
            IfOk result (λ _. steps_at self.old.place < steps_at self.new.place) }
        ensures more { IfOk result (λ _.
            AsksNoLess plan.old.requests.items plan.new.requests.items) }
        ensures place { IfOk result (λ _.
            self.new.place ≡ (step_at self.old.place report).place) }
        ensures heard { IfOk result (λ heard.
            heard ≡ (step_at self.old.place report).heard) }
        ensures backed { IfOk result (λ _. KeepsBacked plan.old.requests.items
            plan.new.requests.items branch self.old.place self.new.place) }
        // The answer is of the call that was told, or its line is lost.
        ensures tells { is_asked self.old.place ≡ true → IfOk result (λ _.
            IsToldSo (was_asked [] plan.new.requests.items) branch self.old.place
            (step_at self.old.place report).code) }
        // What is left to the recovery is owed, and nothing that was owed is forgotten.
        ensures owed { IfOk result (λ _. self.new.place ≡ Places.Owed →
            self.old.place ≢ Places.Owed → list_any (is_owed_to branch) debts.new.items ≡ true) }
        ensures owes { IfOk result (λ _. OwesNoLess debts.old.items debts.new.items) }
    {
        if !self.place.is_asked() {
            return Ok(Heard::Nothing);
        }
        let step = self.place.step_of(report);
        self.tell(step, branch, plan)?;
        if let Place::Owed = step.place {
            debts.push(Debt {
                branch,
                due: self.place.due(),
            })?;
        }
        self.place = step.place;
        Ok(step.heard)
    }

    /// The answer that a step tells, or the loss of the line; and what is asked for then.
    fn tell(&mut self, step: Step, branch: Branch, plan: &mut Plan) -> Result<(), AllocError>
        ensures rm { self.new.rm ≡ self.old.rm }
        ensures place { self.new.place ≡ self.old.place }
        ensures more { IfOk result (λ _.
            AsksNoLess plan.old.requests.items plan.new.requests.items) }
        ensures told { IfOk result (λ _. IsToldSo (was_asked [] plan.new.requests.items) branch
            self.old.place step.code) }
        ensures forgets { IfOk result (λ _. step.place ≡ Places.Forgetting →
            list_any (asks_forget branch) plan.new.requests.items ≡ true) }
    {
        if self.place.has_end() {
            plan.ended(branch)?;
        }
        self.report(step.code, branch, plan)?;
        if let Place::Forgetting = step.place {
            plan.issue_forget(branch)?;
            return Ok(());
        }
        Ok(())
    }

    /// The call that waited was answered by this code; or if there is none, its line is lost.
    fn report(
        &mut self,
        code: Option<Code>,
        branch: Branch,
        plan: &mut Plan,
    ) -> Result<(), AllocError>
        ensures rm { self.new.rm ≡ self.old.rm }
        ensures place { self.new.place ≡ self.old.place }
        ensures more { IfOk result (λ _.
            AsksNoLess plan.old.requests.items plan.new.requests.items) }
        ensures told { IfOk result (λ _. IsToldSo (was_asked [] plan.new.requests.items) branch
            self.old.place code) }
    {
        let kind = self.place.kind();
        match code {
            Some(code) => {
                self.alone = how_of(code, self.alone);
                plan.answer(branch, kind, code)?;
                Ok(())
            }
            None => {
                plan.lose(branch)?;
                Ok(())
            }
        }
    }
}

/// How a branch ended by itself that was answered so, if it did.
fn how_of(code: Code, before: Option<How>) -> Option<How> {
    match code {
        Code::Heuristic(how) => Some(how),
        _ => before,
    }
}
