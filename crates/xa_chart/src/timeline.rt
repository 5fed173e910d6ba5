//! Where the events lie, from the top down.

use crate::notes::Note;
use std::alloc::Global;
use xa_base::Memory;

/// Where the names of the lifelines are.
pub const HEAD: usize = 34;

/// Where the lifelines begin.
pub const TOP: usize = 44;

/// How far an event is from the next.
const ROW: usize = 20;

/// How far a line of a note is from the next.
pub const LINE: usize = 14;

/// After how many events the names of the lifelines are repeated.
const PAGE: usize = 50;

/// How much room that takes.
const HEADS: usize = 36;

/// Where each event lies.
#[derive(Drop)]
pub struct Timeline {
    heights: Vec<usize>,
    heads: Vec<usize>,
    foot: usize,
}

impl Timeline {
    /// That of events which have these notes.
    pub fn new(alloc: Global, notes: &[Note]) -> Result<Timeline, Memory> {
        let mut heights = Vec::new(alloc);
        let mut heads = Vec::new(alloc);
        let mut y = TOP.saturating_add(ROW);
        for (i, note) in notes.iter().enumerate() {
            if i > 0 && i % PAGE == 0 {
                heads.push(y)?;
                y = y.saturating_add(HEADS);
            }
            heights.push(y)?;
            let lines = note.lines.len().saturating_sub(1);
            y = y
                .saturating_add(ROW)
                .saturating_add(lines.saturating_mul(LINE));
        }
        Ok(Timeline {
            heights,
            heads,
            foot: y,
        })
    }

    /// Where the event of a number lies, from 1. After the last one that is where the lifelines
    /// end.
    pub fn y(&self, number: usize) -> usize {
        match self.heights.get(number.saturating_sub(1)) {
            Some(y) => *y,
            None => self.foot,
        }
    }

    /// Where the names of the lifelines are repeated.
    pub fn heads(&self) -> &[usize] {
        self.heads.as_slice()
    }

    /// Where the lifelines end.
    pub fn foot(&self) -> usize {
        self.foot
    }
}
