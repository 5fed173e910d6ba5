//! One line of a story.

ghost use Rattle.std.specs.Prelude.{◌≡◌, IfOk};
ghost use Rattle.std.specs.String.{string_bytes};
ghost use Rattle.xa_story.specs.Lines.{line_text, rest_text, told_sides};

use crate::party::{Party, Sides, sides_text};
use crate::standings::Move;
use crate::waits::Waiting;
use std::alloc::Global;
use xa_base::{Branch, Gtrid, Memory};

/// What an event changes in the log.
#[derive(Clone, Copy, Debug, PartialEq, Eq)]
pub enum LogChange {
    /// The transaction has a row now.
    RowAdded(Gtrid),
    /// It has none any more.
    RowGone(Gtrid),
    /// The end of the branch is recorded.
    Recorded(Branch),
}

/// What is told of an event.
#[derive(Drop)]
pub struct StoryLine {
    /// The number of the event, from 1.
    pub number: usize,
    /// Who takes part.
    pub sides: Sides,
    /// What was asked, as in `xa_prepare a`.
    pub asked: String,
    /// What was answered, as in `XA_OK`. It may be empty.
    pub reply: String,
    /// What that has changed, or why it was refused. It may be empty.
    pub change: String,
    /// The branches that stand elsewhere now.
    pub moves: Vec<Move>,
    /// The call that was taken, or the answer that was heard, as it waited.
    pub came: Option<Waiting>,
    /// What was lost with lines that broke.
    pub lost: Vec<Waiting>,
    /// What the log holds now or no more.
    pub log: Option<LogChange>,
}

/// Who takes part, as it is told: the answers of a recovery, which wait on the lines of thread 0,
/// go to the manager.
fn told_sides(line: &StoryLine) -> Sides
    ensures { result ≡ told_sides line.now }
{
    match (line.sides, line.came) {
        (Sides::Sends(Party::Rm(rm), _), Some(item)) => Sides::Sends(Party::Rm(rm), item.asker),
        (Sides::Hears(_, rm), Some(item)) => Sides::Hears(item.asker, rm),
        (sides, _) => sides,
    }
}

/// What was asked, what that was answered, and what has changed, without spaces at the end.
fn rest_text(alloc: Global, line: &StoryLine) -> Result<String, Memory>
    ensures { IfOk result (λ text. string_bytes text ≡ rest_text line.now) }
{
    let asked = line.asked.as_str();
    let reply = line.reply.as_str();
    let change = line.change.as_str();
    if !change.is_empty() {
        Ok(format!(in alloc; "{asked:<22} {reply:<13} {change}")?)
    } else if !reply.is_empty() {
        Ok(format!(in alloc; "{asked:<22} {reply}")?)
    } else {
        Ok(String::from_str(alloc, asked)?)
    }
}

/// The line as text.
pub fn line_text(alloc: Global, line: &StoryLine) -> Result<String, Memory>
    ensures { IfOk result (λ text. string_bytes text ≡ line_text line.now) }
{
    let number = line.number;
    let sides = sides_text(alloc, told_sides(line))?;
    let rest = rest_text(alloc, line)?;
    Ok(format!(in alloc; "{number:>3}  {sides:<18} {rest}\n")?)
}
