//! What waits on the lines.

ghost use Rattle.std.specs.Prelude.{◌≡◌, ◌++◌, [], ◌∷◌, IfOk, OnOk, filter, length, not};
ghost use Rattle.xa_story.specs.Waits.{breaks_line, is_call_on, is_lost_with};

use crate::party::Party;
use std::alloc::{AllocError, Global};
use xa_base::{Memory, Part};

/// A call or an answer that waits on a line.
#[derive(Clone, Copy, Debug, PartialEq, Eq)]
pub struct Waiting {
    /// The number of the event since which it waits.
    pub since: usize,
    /// The thread of the line.
    pub thread: u32,
    /// The resource manager of the line.
    pub rm: u32,
    /// Who asked: the thread, or the manager in a recovery.
    pub asker: Party,
    /// Whether it is an answer.
    pub is_answer: bool,
}

/// Whether a line is broken by the crash of a part.
pub fn breaks(part: Part, thread: u32, rm: u32) -> bool
    ensures { result ≡ breaks_line part thread rm }
{
    match part {
        Part::Line {
            thread: own,
            rm: other,
        } => own == thread && other == rm,
        Part::Rm { rm: other } => other == rm,
        Part::Manager => true,
    }
}

/// Those that the crash of a part loses.
fn lost_with(alloc: Global, part: Part, items: &[Waiting]) -> Result<Vec<Waiting>, AllocError>
    ensures { IfOk result (λ lost. lost.items ≡ filter (is_lost_with part) items.now) }
{
    items
        .iter()
        .copied()
        .filter(|item| breaks(part, item.thread, item.rm))
        .collect(alloc)
}

/// Those that it leaves.
fn left_by(alloc: Global, part: Part, items: &[Waiting]) -> Result<Vec<Waiting>, AllocError>
    ensures { IfOk result (λ left.
        left.items ≡ filter (λ item. not (is_lost_with part item)) items.now) }
{
    items
        .iter()
        .copied()
        .filter(|item| !breaks(part, item.thread, item.rm))
        .collect(alloc)
}

/// What waits on all lines, the oldest first.
#[derive(Drop)]
pub struct Waits {
    items: Vec<Waiting>,
}

impl Waits {
    /// Nothing waits.
    pub fn new(alloc: Global) -> Waits
        ensures { result.items.items ≡ [] }
    {
        Waits {
            items: Vec::new(alloc),
        }
    }

    /// One more waits.
    pub fn add(&mut self, item: Waiting) -> Result<(), Memory>
        ensures { OnOk result (self.new.items.items ≡ self.old.items.items ++ item ∷ []) }
    {
        Ok(self.items.push(item)?)
    }

    /// So many like this wait.
    pub fn add_all(&mut self, item: Waiting, count: usize) -> Result<(), Memory> {
        for _ in 0..count {
            self.items.push(item)?;
        }
        Ok(())
    }

    /// Takes the oldest call, or the oldest answer, that waits on a line.
    pub fn take(&mut self, thread: u32, rm: u32, is_answer: bool) -> Option<Waiting> {
        let place = self.items.iter().position(|item| {
            item.thread == thread && item.rm == rm && item.is_answer == is_answer
        })?;
        if place < self.items.len() {
            Some(self.items.remove(place))
        } else {
            None
        }
    }

    /// How many calls wait on a line.
    pub fn call_count(&self, thread: u32, rm: u32) -> usize
        ensures { result ≡ length (filter (is_call_on thread rm) self.now.items.items) }
    {
        self.items
            .iter()
            .filter(|item| item.thread == thread && item.rm == rm && !item.is_answer)
            .count()
    }

    /// Takes all that a crash of a part loses.
    pub fn lose(&mut self, alloc: Global, part: Part) -> Result<Vec<Waiting>, Memory>
        ensures lost { IfOk result (λ lost.
            lost.items ≡ filter (is_lost_with part) self.old.items.items) }
        ensures left { OnOk result (self.new.items.items
            ≡ filter (λ item. not (is_lost_with part item)) self.old.items.items) }
    {
        let lost = lost_with(alloc, part, &self.items)?;
        self.items = left_by(alloc, part, &self.items)?;
        Ok(lost)
    }

    /// All that waits.
    pub fn items(&self) -> &[Waiting]
        ensures { result.now ≡ self.now.items.items }
    {
        self.items.as_slice()
    }
}
