//! What decisions make of the manager's book whose rows are written together.

ghost use Rattle.std.specs.Result.{result_err};
ghost use Rattle.std.specs.Prelude.{◌≡◌, ◌<◌, ◌-◌, ◌^◌, ◌+◌, ◌++◌, [], ◌∷◌, length, map, IfOk, OnOk};
ghost use Rattle.std.specs.List.{AllByRecursion};
ghost use Rattle.xa_base.specs.declared.step.Step.TheVariants as Steps;
ghost use Rattle.xa_model.specs.Facts.Distinct.{EachOnce};
ghost use Rattle.xa_model.specs.Trace.{Happening.Decided};
ghost use Rattle.xa_tm.specs.Book.{after_all, rows_for};
ghost use Rattle.xa_tm.specs.Calls.{IsOpenIn, written_by};
ghost use Rattle.xa_tm.specs.LedgerBook.{HasRoomForDecisions, HasKept, HaveRoom, MakesRoomForDecisions, NamesOwn, as_book};
ghost use Rattle.xa_tm.specs.LedgerBook.{decided_by, decided_rows};
ghost use Rattle.xa_tm.specs.Refusing.{refusal_in_turn};

use crate::ledger::Ledger;
use crate::ledger::compare::is_named;
use crate::ledger::room::{put_rows, reserve_row};
use std::alloc::{AllocError, Global};
use xa_base::{Gtrid, Outcome, Refusal};
use xa_log::Decision;

impl Ledger {
    /// The refusal of the first of these decisions that is refused, each after the ones before it.
    pub(crate) fn check_decide_all(&self, gtrids: &[Gtrid], outcome: Outcome) -> Result<(), Refusal>
        ensures { result_err result
            ≡ refusal_in_turn (λ g. Steps.Decide g outcome) (λ g. Decided g outcome)
            (as_book self.now) gtrids.now }
    {
        for (i, g) in gtrids.iter().enumerate() {
            if is_named(&gtrids[..i], *g) {
                return Err(Refusal::Decided);
            }
            self.check_decide(*g, outcome)?;
        }
        Ok(())
    }

    /// Makes room for a decision and for its row, and adds the decision to the others if it writes
    /// one.
    fn prepare_decision(
        &mut self,
        g: Gtrid,
        outcome: Outcome,
        decisions: &mut Vec<Decision>,
    ) -> Result<(), AllocError>
        requires { g.sequence < 2 ^ 64 - 1 }
        ensures book { as_book self.new ≡ as_book self.old }
        ensures room { OnOk result (MakesRoomForDecisions (g ∷ [])
            (written_by outcome (as_book self.old) (g ∷ [])) self.old self.new) }
        ensures all { OnOk result (decided_rows decisions.new.items ≡
            decided_rows decisions.old.items
            ++ rows_for (as_book self.old) (written_by outcome (as_book self.old) (g ∷ []))) }
        ensures own { OnOk result (AllByRecursion NamesOwn decisions.old.items →
            AllByRecursion NamesOwn decisions.new.items) }
    {
        self.reserve_transaction(g)?;
        if self.transaction(g).adds_row(outcome) {
            self.prepare_row(g, decisions)
        } else {
            Ok(())
        }
    }

    /// Makes room for the row of a commit, and adds its decision to the others, with the branches
    /// that the row names.
    fn prepare_row(&mut self, g: Gtrid, decisions: &mut Vec<Decision>) -> Result<(), AllocError>
        requires { g.sequence < 2 ^ 64 - 1 }
        ensures others { self.new ≡ record self.old { rows = self.new.rows } }
        ensures book { as_book self.new ≡ as_book self.old }
        ensures room { OnOk result (HaveRoom self.new.rows (g ∷ [])) }
        ensures kept { HasKept self.old.rows self.new.rows }
        ensures all { OnOk result (decided_rows decisions.new.items ≡
            decided_rows decisions.old.items ++ rows_for (as_book self.old) (g ∷ [])) }
        ensures own { OnOk result (AllByRecursion NamesOwn decisions.old.items →
            AllByRecursion NamesOwn decisions.new.items) }
    {
        let participants = self.voters(g)?;
        reserve_row(&mut self.rows, g)?;
        decisions.push(Decision {
            gtrid: g,
            participants,
        })?;
        Ok(())
    }

    /// Makes room for these decisions and for their rows, and gives those that write one, with the
    /// branches that their rows name.
    pub(crate) fn prepare_decisions(
        &mut self,
        alloc: Global,
        gtrids: &[Gtrid],
        outcome: Outcome,
    ) -> Result<Vec<Decision>, AllocError>
        requires { AllByRecursion (λ g. g.sequence < 2 ^ 64 - 1) gtrids.now }
        ensures book { as_book self.new ≡ as_book self.old }
        ensures room { OnOk result (HasRoomForDecisions gtrids.now
            (written_by outcome (as_book self.old) gtrids.now) self.new) }
        ensures all { IfOk result (λ decisions. decided_rows decisions.items ≡
            rows_for (as_book self.old) (written_by outcome (as_book self.old) gtrids.now)) }
        ensures own { IfOk result (λ decisions. AllByRecursion NamesOwn decisions.items) }
    {
        let mut decisions = Vec::new(alloc);
        for g in gtrids {
            self.prepare_decision(*g, outcome, &mut decisions)?;
        }
        Ok(decisions)
    }

    /// Notes these decisions, except for the rows that they write.
    fn decided_all(&mut self, gtrids: &[Gtrid], outcome: Outcome)
        requires room { HaveRoom self.old.transactions gtrids.now }
        requires open { EachOnce (IsOpenIn (as_book self.old)) gtrids.now }
        ensures others { self.new ≡ record self.old { transactions = self.new.transactions } }
        ensures transactions { as_book self.new ≡ record (as_book self.old) {
          transaction = λ q. decided_by (as_book self.old) outcome gtrids.now q
              ((as_book self.old).transaction q);
        } }
    {
        for g in gtrids {
            self.decided(*g, outcome);
        }
    }

    /// Notes these decisions, whose rows are written.
    pub(crate) fn note_decisions(
        &mut self,
        gtrids: &[Gtrid],
        outcome: Outcome,
        decisions: Vec<Decision>,
    )
        requires room { HasRoomForDecisions gtrids.now
            (written_by outcome (as_book self.old) gtrids.now) self.old }
        requires open { EachOnce (IsOpenIn (as_book self.old)) gtrids.now }
        requires all { decided_rows decisions.items ≡
            rows_for (as_book self.old) (written_by outcome (as_book self.old) gtrids.now) }
        requires number { self.old.row_count + length gtrids.now < 2 ^ 64 }
        ensures { as_book self.new ≡
            after_all (as_book self.old) (map (λ g. Decided g outcome) gtrids.now) }
    {
        self.decided_all(gtrids, outcome);
        self.row_count += decisions.len() as u64;
        put_rows(&mut self.rows, decisions);
    }
}
