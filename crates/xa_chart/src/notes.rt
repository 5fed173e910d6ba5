//! What is told at the right edge of an event that neither a bar nor a row shows.

use crate::font::broken;
use crate::run::Run;
use xa_base::{Event, Memory, Reply, Step};
use xa_story::{Party, StoryLine};

/// How wide a note is, in pixels, unless a word is wider.
const WIDTH: usize = 420;

/// How large its letters are.
const SIZE: usize = 11;

/// What is told of an event, in lines. There may be none.
#[derive(Drop)]
pub struct Note {
    pub number: usize,
    pub lines: Vec<String>,
}

/// Whether what an event changes is told in words.
fn is_told(line: &StoryLine, event: &Event) -> bool {
    match (&event.step, line.came) {
        (Step::Issue { .. }, _) | (Step::Hear { .. }, Some(_)) => false,
        (Step::Crash(_), _) => true,
        (Step::Take { .. }, Some(item)) if item.asker == Party::Manager => true,
        _ => line.moves.is_empty() && line.log.is_none(),
    }
}

/// What is told of an event.
fn note_text(run: &Run, line: &StoryLine, event: &Event) -> Result<String, Memory> {
    let change = line.change.as_str();
    if let Reply::Refused(_) = event.reply {
        let reply = line.reply.as_str();
        return Ok(format!(in run.alloc; "{reply} {change}")?);
    }
    let text = if is_told(line, event) { change } else { "" };
    Ok(String::from_str(run.alloc, text)?)
}

/// The note of each event.
pub fn notes_of(run: &Run) -> Result<Vec<Note>, Memory> {
    let mut notes = Vec::new(run.alloc);
    for (line, event) in run.lines.iter().zip(run.events) {
        let text = note_text(run, line, event)?;
        let lines = if text.is_empty() {
            Vec::new(run.alloc)
        } else {
            broken(run.alloc, text.as_str(), SIZE, WIDTH)?
        };
        notes.push(Note {
            number: line.number,
            lines,
        })?;
    }
    Ok(notes)
}
