//! What decisions, recoveries and scripts do.

ghost use Rattle.std.specs.Prelude.{◌≡◌};
ghost use Rattle.xa_story.specs.Rows.{decision_of};

use crate::asked::rms_text;
use crate::effect::{Effect, moves_of, plain_effect, push_item};
use crate::ledger::Settlement;
use crate::line::LogChange;
use crate::scene::Scene;
use crate::standings::Move;
use xa_base::{Branch, Gtrid, How, Memory, Outcome, Standing, Step, Xid};

/// The transaction that a step decides, and how.
fn decision_of(step: &Step) -> Option<(Gtrid, Outcome)>
    ensures { result ≡ decision_of step.now }
{
    match *step {
        Step::Decide { gtrid, outcome } => Some((gtrid, outcome)),
        Step::Settle { gtrid } => Some((gtrid, Outcome::Commit)),
        Step::Abandon { gtrid } => Some((gtrid, Outcome::Rollback)),
        _ => None,
    }
}

impl<'a> Scene<'a> {
    /// A script was given, or a transaction is over.
    pub(crate) fn note(&mut self, step: &Step) -> Result<Effect, Memory>
        ensures { self.new.names ≡ self.old.names }
    {
        match *step {
            Step::Heuristic { ref xid, how, .. } => self.complete(xid, how),
            Step::Done { gtrid } => {
                self.ledger.forget(self.alloc, gtrid)?;
                let mut effect = plain_effect(self.alloc, "the row leaves the log")?;
                effect.log = Some(LogChange::RowGone(gtrid));
                Ok(effect)
            }
            _ => plain_effect(self.alloc, ""),
        }
    }

    /// A resource manager ends a branch by itself.
    pub(crate) fn complete(&mut self, xid: &Xid, how: How) -> Result<Effect, Memory>
        ensures { self.new.names ≡ self.old.names }
    {
        let moves = match xid.branch() {
            Some(branch) => self.complete_branch(branch, how)?,
            None => Vec::new(self.alloc),
        };
        let mut effect = plain_effect(self.alloc, "a heuristic completion: nobody told it to")?;
        effect.moves = moves;
        Ok(effect)
    }

    /// A branch is completed, which is its one move.
    fn complete_branch(&mut self, branch: Branch, how: How) -> Result<Vec<Move>, Memory>
        ensures { self.new.names ≡ self.old.names }
    {
        let standing = Standing::Completed(how);
        self.standings.set(branch, standing)?;
        moves_of(self.alloc, Some(Move { branch, standing }))
    }

    /// A transaction is claimed.
    pub(crate) fn claim(&mut self, step: &Step) -> Result<Effect, Memory>
        ensures { self.new.names ≡ self.old.names }
    {
        if let Step::Claim { gtrid } = *step {
            self.ledger.claim(gtrid)?;
        }
        plain_effect(
            self.alloc,
            "all votes are in: no recovery rolls it back now",
        )
    }

    /// A transaction is decided.
    pub(crate) fn decide(&mut self, number: usize, step: &Step) -> Result<Effect, Memory>
        ensures { self.new.names ≡ self.old.names }
    {
        let Some((gtrid, outcome)) = decision_of(step) else {
            return plain_effect(self.alloc, "");
        };
        if outcome == Outcome::Rollback {
            self.ledger.settle(gtrid, number, Settlement::Rollback)?;
            return plain_effect(self.alloc, "no row is written: no row means rollback");
        }
        self.ledger.commit(gtrid)?;
        let change = self.row_text(gtrid)?;
        let has_row = self.ledger.has_row(gtrid);
        let settlement = if has_row {
            Settlement::Row
        } else {
            Settlement::NoRow
        };
        self.ledger.settle(gtrid, number, settlement)?;
        let mut effect = plain_effect(self.alloc, change.as_str())?;
        if has_row {
            effect.log = Some(LogChange::RowAdded(gtrid));
        }
        Ok(effect)
    }

    /// What a decision to commit writes.
    pub(crate) fn row_text(&self, gtrid: Gtrid) -> Result<String, Memory> {
        if !self.ledger.has_row(gtrid) {
            let plain = "no row is needed: every branch has only read";
            return Ok(String::from_str(self.alloc, plain)?);
        }
        let participants = self.ledger.waits_for(self.alloc, gtrid)?;
        let rms = rms_text(self.alloc, &participants)?;
        Ok(format!(in self.alloc; "row added to the log, waits for {rms}")?)
    }

    /// A recovery issues calls. One that may decide rolls back what is open of what is listed.
    pub(crate) fn resolve(
        &mut self,
        number: usize,
        step: &Step,
        count: usize,
    ) -> Result<Effect, Memory>
        ensures { self.new.names ≡ self.old.names }
    {
        self.add_calls(number, step, count)?;
        if count == 0 {
            return plain_effect(self.alloc, "");
        }
        let decided = match *step {
            Step::ResolveOpen { rm } => self.ledger.roll_back_open(self.alloc, number, rm)?,
            _ => Vec::new(self.alloc),
        };
        let change = self.resolved_text(&decided)?;
        plain_effect(self.alloc, change.as_str())
    }

    /// What a recovery does, and what it decides before that.
    fn resolved_text(&self, decided: &[Gtrid]) -> Result<String, Memory> {
        let rule = "each listed branch: commit with a row, rollback without";
        let mut names = String::new(self.alloc);
        for gtrid in decided {
            push_item(&mut names, self.names.name_of(*gtrid))?;
        }
        if names.is_empty() {
            return Ok(String::from_str(self.alloc, rule)?);
        }
        Ok(format!(in self.alloc; "{names} decided to roll back; {rule}")?)
    }
}
