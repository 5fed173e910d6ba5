//! What calls and answers do.

ghost use Rattle.std.specs.Prelude.{◌≡◌};

use crate::asked::{rms_text, xids_text};
use crate::effect::{Effect, moves_of, plain_effect};
use crate::ledger::{Meaning, Settlement, meaning_of};
use crate::line::LogChange;
use crate::party::Party;
use crate::scene::Scene;
use crate::standings::Move;
use crate::waits::Waiting;
use crate::words::standing_text;
use xa_base::{Answer, Call, Code, Gtrid, Memory, Step, Xid};

/// The line of a step: its thread and its resource manager. A recovery has that of thread 0.
fn line_of(step: &Step) -> (u32, u32) {
    match *step {
        Step::Issue { thread, rm, .. } | Step::Take { thread, rm } | Step::Hear { thread, rm } => {
            (thread, rm)
        }
        Step::Recover { rm, .. } | Step::Resolve { rm } | Step::ResolveOpen { rm } => (0, rm),
        _ => (0, 0),
    }
}

/// Who asks by a step: the thread, or in a recovery the manager.
fn asker_of(step: &Step) -> Party {
    match *step {
        Step::Issue { thread, .. } => Party::Thread(thread),
        _ => Party::Manager,
    }
}

impl<'a> Scene<'a> {
    /// A transaction is begun.
    pub(crate) fn begin(&mut self, gtrid: Gtrid) -> Result<Effect, Memory>
        ensures { self.new.names ≡ self.old.names }
    {
        self.ledger.begin(gtrid)?;
        plain_effect(self.alloc, "")
    }

    /// A call waits now.
    pub(crate) fn issue(&mut self, number: usize, step: &Step) -> Result<Effect, Memory>
        ensures { self.new.names ≡ self.old.names }
    {
        if let Step::Issue {
            call: Call::Commit {
                xid,
                one_phase: true,
            },
            ..
        } = step
        {
            self.hand_over(number, xid)?;
        }
        let (thread, rm) = line_of(step);
        let count = self.waits.call_count(thread, rm);
        self.add_calls(number, step, 1)?;
        if count == 0 {
            return plain_effect(self.alloc, "");
        }
        let change = format!(in self.alloc; "behind {count} on the line")?;
        plain_effect(self.alloc, change.as_str())
    }

    /// The transaction of a branch is handed over.
    pub(crate) fn hand_over(&mut self, number: usize, xid: &Xid) -> Result<(), Memory>
        ensures { self.new.names ≡ self.old.names }
    {
        match xid.branch() {
            Some(branch) => self
                .ledger
                .settle(branch.gtrid, number, Settlement::HandedOver),
            None => Ok(()),
        }
    }

    /// So many calls of a step wait now.
    pub(crate) fn add_calls(
        &mut self,
        number: usize,
        step: &Step,
        count: usize,
    ) -> Result<(), Memory>
        ensures { self.new.names ≡ self.old.names }
    {
        let (thread, rm) = line_of(step);
        let asker = asker_of(step);
        let item = Waiting {
            since: number,
            thread,
            rm,
            asker,
            is_answer: false,
        };
        self.waits.add_all(item, count)
    }

    /// A call is taken, and its answer waits now.
    pub(crate) fn take(
        &mut self,
        number: usize,
        step: &Step,
        call: &Call,
        answer: &Answer,
    ) -> Result<Effect, Memory>
        ensures { self.new.names ≡ self.old.names }
    {
        let (thread, rm) = line_of(step);
        let came = self.waits.take(thread, rm, false);
        let asker = match came {
            Some(call) => call.asker,
            None => Party::Thread(thread),
        };
        self.waits.add(Waiting {
            since: number,
            thread,
            rm,
            asker,
            is_answer: true,
        })?;
        let change = self.standings.answer(call, answer)?;
        let told = self.answered_text(call, answer, change, asker)?;
        let moves = moves_of(self.alloc, change)?;
        let mut effect = plain_effect(self.alloc, told.as_str())?;
        effect.came = came;
        effect.moves = moves;
        Ok(effect)
    }

    /// What an answer changes, with the reason if the manager asked in a recovery.
    pub(crate) fn answered_text(
        &self,
        call: &Call,
        answer: &Answer,
        change: Option<Move>,
        asker: Party,
    ) -> Result<String, Memory> {
        if let Answer::Page(page) = answer {
            return self.page_text(page.xids());
        }
        let Some(change) = change else {
            return Ok(String::from_str(self.alloc, unchanged_text(answer))?);
        };
        let standing = standing_text(change.standing);
        let reason = match asker {
            Party::Manager => recovery_reason(call),
            _ => "",
        };
        Ok(format!(in self.alloc; "{standing}{reason}")?)
    }

    /// Which branches a page lists.
    pub(crate) fn page_text(&self, xids: &[Xid]) -> Result<String, Memory> {
        if xids.is_empty() {
            return Ok(String::from_str(self.alloc, "nothing is in doubt here")?);
        }
        let branches = xids_text(self.alloc, &self.names, xids)?;
        Ok(format!(in self.alloc; "in doubt here: {branches}")?)
    }

    /// The manager hears an answer.
    pub(crate) fn hear(
        &mut self,
        step: &Step,
        call: &Call,
        answer: &Answer,
    ) -> Result<Effect, Memory>
        ensures { self.new.names ≡ self.old.names }
    {
        let (thread, rm) = line_of(step);
        let came = self.waits.take(thread, rm, true);
        let meaning = meaning_of(call, answer);
        self.ledger.hear(meaning)?;
        if let (Answer::Page(page), 0) = (answer, thread) {
            self.ledger.hear_page(self.alloc, rm, page.xids())?;
        }
        let change = self.meaning_text(meaning)?;
        let mut effect = plain_effect(self.alloc, change.as_str())?;
        effect.came = came;
        if let Meaning::Records(branch) = meaning {
            effect.log = Some(LogChange::Recorded(branch));
        }
        Ok(effect)
    }

    /// What hearing an answer means, in words.
    pub(crate) fn meaning_text(&self, meaning: Meaning) -> Result<String, Memory> {
        let plain = match meaning {
            Meaning::Yes(_) => "votes yes",
            Meaning::ReadOnly(_) => "votes read-only, and needs no second phase",
            Meaning::No(_) => "votes no",
            Meaning::Records(_) => "recorded in the log",
            Meaning::Acknowledges(branch) => return self.left_text(branch.gtrid),
            Meaning::Nothing => "",
        };
        Ok(String::from_str(self.alloc, plain)?)
    }

    /// What the row of a transaction still waits for.
    pub(crate) fn left_text(&self, gtrid: Gtrid) -> Result<String, Memory> {
        let left = self.ledger.waits_for(self.alloc, gtrid)?;
        if left.is_empty() {
            return Ok(String::from_str(self.alloc, "acknowledged: the row waits for no more")?);
        }
        let rms = rms_text(self.alloc, &left)?;
        Ok(format!(in self.alloc; "acknowledged: the row still waits for {rms}")?)
    }
}

/// What an answer says that moves no branch.
fn unchanged_text(answer: &Answer) -> &'static str {
    match answer {
        Answer::Ret(Code::Retry) => "put off: it stays prepared",
        Answer::Ret(Code::Heuristic(_)) => "it has ended the branch by itself",
        Answer::Ret(Code::NotAnXid) => "no such branch is there any more",
        _ => "",
    }
}

/// Why a recovery ends a branch so.
fn recovery_reason(call: &Call) -> &'static str {
    match call {
        Call::Commit { .. } => ": its transaction has a row in the log",
        Call::Rollback { .. } => ": its transaction has no row in the log",
        Call::Forget { .. } => ": its end is recorded in the log",
        _ => "",
    }
}
