//! What is known while a story is told, and what each event does to it.

ghost use Rattle.std.specs.Prelude.{◌≡◌, [], IfOk, OnOk, map};
ghost use Rattle.std.specs.String.{string_bytes};
ghost use Rattle.xa_story.specs.Naming.{unbegun, with_step};
ghost use Rattle.xa_story.specs.Stories.{IsToldOf};

use crate::asked::asked_text;
use crate::effect::{Effect, plain_effect};
use crate::ledger::Ledger;
use crate::line::StoryLine;
use crate::names::Names;
use crate::party::sides_of;
use crate::replies::reply_text;
use crate::standings::Standings;
use crate::waits::{Waiting, Waits};
use std::alloc::Global;
use xa_base::{Event, Memory, Reply, Step};

/// What is known after some events of a run that has begun over an empty log.
#[derive(Drop)]
pub struct Scene<'a> {
    pub(crate) alloc: Global,
    pub(crate) names: Names<'a>,
    pub(crate) waits: Waits,
    pub(crate) standings: Standings,
    pub(crate) ledger: Ledger,
}

impl<'a> Scene<'a> {
    /// Nothing has happened, and the log is empty. The names are those that the scenario file
    /// begins, in turn.
    pub fn new(alloc: Global, names: &'a [String]) -> Scene<'a>
        ensures names { result.names ≡ unbegun (map string_bytes names.now) }
        ensures waits { result.waits.items.items ≡ [] }
    {
        Scene {
            alloc,
            names: Names::new(alloc, names),
            waits: Waits::new(alloc),
            standings: Standings::new(alloc),
            ledger: Ledger::new(alloc),
        }
    }

    /// The names of transactions.
    pub fn names(&self) -> &Names<'a>
        ensures { result.now ≡ self.now.names }
    {
        &self.names
    }

    /// What the manager knows, and the rows of its log.
    pub(crate) fn ledger(&self) -> &Ledger {
        &self.ledger
    }

    /// What still waits.
    pub fn waiting(&self) -> &[Waiting]
        ensures { result.now ≡ self.now.waits.items.items }
    {
        self.waits.items()
    }

    /// The line of the next event.
    pub fn tell(&mut self, number: usize, event: &Event) -> Result<StoryLine, Memory>
        ensures told { IfOk result (IsToldOf self.old.names number event.now) }
        ensures names { OnOk result (self.new.names ≡
            with_step self.old.names event.now.step event.now.reply) }
    {
        let sides = sides_of(&event.step);
        let asked = asked_text(self.alloc, &self.names, event)?;
        let reply = reply_text(self.alloc, event)?;
        self.note_begin(event)?;
        let Effect {
            change,
            moves,
            came,
            lost,
            log,
        } = self.follow(number, event)?;
        Ok(StoryLine {
            number,
            sides,
            asked,
            reply,
            change,
            moves,
            came,
            lost,
            log,
        })
    }

    /// A begin gives its name to what it is answered.
    fn note_begin(&mut self, event: &Event) -> Result<(), Memory>
        ensures { OnOk result (self.new ≡ record self.old {
          names =
              with_step self.old.names event.now.step event.now.reply;
        }) }
    {
        match event.step {
            Step::Begin { .. } => self.names.add(&event.reply),
            _ => Ok(()),
        }
    }

    /// What an event does.
    fn follow(&mut self, number: usize, event: &Event) -> Result<Effect, Memory>
        ensures { self.new.names ≡ self.old.names }
    {
        match &event.reply {
            Reply::Begun(gtrid) => self.begin(*gtrid),
            Reply::Issued => self.issue(number, &event.step),
            Reply::Took(call, answer) => self.take(number, &event.step, call, answer),
            Reply::Heard(call, answer) => self.hear(&event.step, call, answer),
            Reply::Nothing => plain_effect(self.alloc, "nothing waits there"),
            Reply::Noted => self.note(&event.step),
            Reply::Claimed => self.claim(&event.step),
            Reply::Decided => self.decide(number, &event.step),
            Reply::Resolved(count) => self.resolve(number, &event.step, *count),
            Reply::Crashed => self.crash(&event.step),
            Reply::RmRestarted => plain_effect(self.alloc, ""),
            Reply::Restarted {
                incarnation,
                decisions,
                heuristics,
            } => self.restart(*incarnation, *decisions, *heuristics),
            Reply::Refused(refusal) => self.refuse(&event.step, *refusal),
        }
    }
}
