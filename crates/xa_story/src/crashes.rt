//! What crashes, restarts and refusals do.

ghost use Rattle.std.specs.Prelude.{◌≡◌, filter, length, not};

use crate::asked::rms_text;
use crate::effect::{Effect, plain_effect, push_count, push_item};
use crate::refusals::refusal_text;
use crate::scene::Scene;
use crate::standings::Move;
use crate::waits::Waiting;
use xa_base::{Branch, Memory, Part, Refusal, Step};

/// How many of these are calls.
fn call_count(lost: &[Waiting]) -> usize
    ensures { result ≡ length (filter (λ item. not item.is_answer) lost.now) }
{
    lost.iter().filter(|item| !item.is_answer).count()
}

/// How many of these are answers.
fn answer_count(lost: &[Waiting]) -> usize
    ensures { result ≡ length (filter (λ item. item.is_answer) lost.now) }
{
    lost.iter().filter(|item| item.is_answer).count()
}

impl<'a> Scene<'a> {
    /// A part crashes.
    pub(crate) fn crash(&mut self, step: &Step) -> Result<Effect, Memory>
        ensures { self.new.names ≡ self.old.names }
    {
        match *step {
            Step::Crash(part) => self.lose(part),
            _ => plain_effect(self.alloc, ""),
        }
    }

    /// What waits on broken lines is lost, and so are their branches that aren't prepared.
    pub(crate) fn lose(&mut self, part: Part) -> Result<Effect, Memory>
        ensures { self.new.names ≡ self.old.names }
    {
        self.ledger.lose(self.alloc, part)?;
        let lost = self.waits.lose(self.alloc, part)?;
        let moves = self.standings.lose(self.alloc, part)?;
        let change = self.lost_text(part, &lost, &moves)?;
        let mut effect = plain_effect(self.alloc, change.as_str())?;
        effect.lost = lost;
        effect.moves = moves;
        Ok(effect)
    }

    /// What a crash loses, in words, and of the manager what it leaves.
    pub(crate) fn lost_text(
        &self,
        part: Part,
        lost: &[Waiting],
        moves: &[Move],
    ) -> Result<String, Memory> {
        let mut text = String::new(self.alloc);
        push_count(&mut text, self.alloc, call_count(lost), "waiting call")?;
        push_count(&mut text, self.alloc, answer_count(lost), "waiting answer")?;
        for change in moves {
            let name = self.names.branch_text(self.alloc, change.branch)?;
            let rm = change.branch.rm;
            let item = format!(in self.alloc; "{name} at rm {rm}")?;
            push_item(&mut text, item.as_str())?;
        }
        let text = if text.is_empty() {
            String::from_str(self.alloc, "nothing was lost")?
        } else {
            format!(in self.alloc; "lost: {text}")?
        };
        if part != Part::Manager {
            return Ok(text);
        }
        let rows = self.rows_text()?;
        Ok(format!(in self.alloc; "{text}; {rows}")?)
    }

    /// Which transactions have rows in the log.
    pub(crate) fn rows_text(&self) -> Result<String, Memory> {
        let mut text = String::new(self.alloc);
        for gtrid in self.ledger.rows() {
            push_item(&mut text, self.names.name_of(*gtrid))?;
        }
        if text.is_empty() {
            return Ok(String::from_str(self.alloc, "the log has no row")?);
        }
        Ok(format!(in self.alloc; "the log keeps the row of {text}")?)
    }

    /// The manager is up again.
    pub(crate) fn restart(
        &self,
        incarnation: u64,
        decisions: usize,
        heuristics: usize,
    ) -> Result<Effect, Memory> {
        let mut found = String::new(self.alloc);
        push_count(&mut found, self.alloc, decisions, "row")?;
        push_count(&mut found, self.alloc, heuristics, "record")?;
        let change = if found.is_empty() {
            format!(in self.alloc; "incarnation {incarnation}: its log is empty")?
        } else {
            format!(in self.alloc; "incarnation {incarnation}: it finds {found} in its log")?
        };
        plain_effect(self.alloc, change.as_str())
    }

    /// A step is refused.
    pub(crate) fn refuse(&mut self, step: &Step, refusal: Refusal) -> Result<Effect, Memory>
        ensures { self.new.names ≡ self.old.names }
    {
        match (refusal, step) {
            (Refusal::LogFault, _) => self.fail(refusal_text(step, refusal)),
            (Refusal::Busy, Step::Done { gtrid }) => {
                let left = self.ledger.waits_for(self.alloc, *gtrid)?;
                let change = self.unsettled_text(&left, refusal_text(step, refusal))?;
                plain_effect(self.alloc, change.as_str())
            }
            _ => plain_effect(self.alloc, refusal_text(step, refusal)),
        }
    }

    /// The log fails, and the manager is down.
    fn fail(&mut self, change: &str) -> Result<Effect, Memory>
        ensures { self.new.names ≡ self.old.names }
    {
        self.ledger.lose(self.alloc, Part::Manager)?;
        let lost = self.waits.lose(self.alloc, Part::Manager)?;
        let moves = self.standings.lose(self.alloc, Part::Manager)?;
        let mut effect = plain_effect(self.alloc, change)?;
        effect.lost = lost;
        effect.moves = moves;
        Ok(effect)
    }

    /// A sentence, and the branches that it is about.
    pub(crate) fn unsettled_text(&self, left: &[Branch], sentence: &str) -> Result<String, Memory> {
        if left.is_empty() {
            return Ok(String::from_str(self.alloc, sentence)?);
        }
        let rms = rms_text(self.alloc, left)?;
        Ok(format!(in self.alloc; "{sentence} ({rms})")?)
    }
}
