//! What an event does, while a story is told.

use crate::line::LogChange;
use crate::standings::Move;
use crate::waits::Waiting;
use std::alloc::Global;
use xa_base::Memory;

/// What an event does.
#[derive(Drop)]
pub(crate) struct Effect {
    pub(crate) change: String,
    pub(crate) moves: Vec<Move>,
    pub(crate) came: Option<Waiting>,
    pub(crate) lost: Vec<Waiting>,
    pub(crate) log: Option<LogChange>,
}

/// What an event changes, in words, if no branch goes anywhere and nothing comes or is lost.
pub(crate) fn plain_effect(alloc: Global, change: &str) -> Result<Effect, Memory> {
    Ok(Effect {
        change: String::from_str(alloc, change)?,
        moves: Vec::new(alloc),
        came: None,
        lost: Vec::new(alloc),
        log: None,
    })
}

/// Where one branch goes, if it goes anywhere.
pub(crate) fn moves_of(alloc: Global, change: Option<Move>) -> Result<Vec<Move>, Memory> {
    let mut moves = Vec::new(alloc);
    if let Some(change) = change {
        moves.push(change)?;
    }
    Ok(moves)
}

/// Adds an item to a list with commas.
pub(crate) fn push_item(text: &mut String, item: &str) -> Result<(), Memory> {
    if !text.is_empty() {
        text.push_str(", ")?;
    }
    Ok(text.push_str(item)?)
}

/// Adds how many there are of something, unless there is none.
pub(crate) fn push_count(
    text: &mut String,
    alloc: Global,
    count: usize,
    what: &str,
) -> Result<(), Memory> {
    let item = match count {
        0 => return Ok(()),
        1 => format!(in alloc; "1 {what}")?,
        _ => format!(in alloc; "{count} {what}s")?,
    };
    push_item(text, item.as_str())
}
