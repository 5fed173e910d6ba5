//! Where the lifelines lie, from left to right, so that no text lies on another.

use crate::classes::Lettering;
use std::alloc::Global;
use xa_base::Memory;
use xa_story::{Party, party_text};

/// How far a text is from its lifeline, or from the bars beside that.
pub const MARGIN: usize = 10;

/// How far two bars are apart.
pub const BAR_STEP: usize = 13;

/// How far the room of a lifeline is from that of the next.
const GAP: usize = 14;

/// Where the room of the first lifeline begins: left of it are the numbers of the events.
const LEFT: usize = 40;

/// What has a lifeline: a part of the system, or the log.
#[derive(Clone, Copy, PartialEq, Eq)]
pub enum Lifeline {
    Part(Party),
    Log,
}

/// On which side of a lifeline a text stands.
#[derive(Clone, Copy, PartialEq, Eq)]
pub enum Side {
    Left,
    Right,
}

/// A lifeline, and the room that it has on both sides.
#[derive(Clone, Copy)]
pub struct Column {
    pub lifeline: Lifeline,
    /// Where it is.
    pub x: usize,
    /// How wide the room left of it is.
    pub left: usize,
    /// How wide the room right of it is that its bars take.
    pub bars: usize,
    /// How wide the room right of these is.
    pub right: usize,
}

/// The name of a lifeline.
pub fn head_text(alloc: Global, lifeline: Lifeline) -> Result<String, Memory> {
    match lifeline {
        Lifeline::Part(party) => party_text(alloc, party),
        Lifeline::Log => Ok(String::from_str(alloc, "log")?),
    }
}

/// The columns of a picture, from left to right.
#[derive(Drop)]
pub struct Columns {
    columns: Vec<Column>,
}

impl Columns {
    /// Those of the threads, the manager, the log and the resource managers, each with room for its
    /// name.
    pub fn new(alloc: Global, threads: u32, rms: u32) -> Result<Columns, Memory> {
        let mut columns = Columns {
            columns: Vec::new(alloc),
        };
        for thread in 0..threads {
            columns.add(alloc, Lifeline::Part(Party::Thread(thread)))?;
        }
        columns.add(alloc, Lifeline::Part(Party::Manager))?;
        columns.add(alloc, Lifeline::Log)?;
        for rm in 0..rms {
            columns.add(alloc, Lifeline::Part(Party::Rm(rm)))?;
        }
        Ok(columns)
    }

    /// Adds a column at the right.
    fn add(&mut self, alloc: Global, lifeline: Lifeline) -> Result<(), Memory> {
        let head = head_text(alloc, lifeline)?;
        let half = Lettering::Head.width(head.as_str()) / 2;
        Ok(
            self.columns.push(Column {
                lifeline,
                x: 0,
                left: half,
                bars: 0,
                right: half,
            })?,
        )
    }

    /// The columns, from left to right.
    pub fn as_slice(&self) -> &[Column] {
        self.columns.as_slice()
    }

    /// The column of a lifeline. What the system doesn't have is shown at the manager's, which
    /// refuses it.
    fn column(&self, lifeline: Lifeline) -> Option<Column> {
        let own = self.columns.iter().find(|it| it.lifeline == lifeline);
        match own {
            Some(column) => Some(*column),
            None => self
                .columns
                .iter()
                .find(|it| it.lifeline == Lifeline::Part(Party::Manager))
                .copied(),
        }
    }

    /// Makes room for a text beside a lifeline.
    pub fn widen(&mut self, lifeline: Lifeline, side: Side, width: usize) {
        let width = width.saturating_add(MARGIN);
        for column in self.columns.iter_mut() {
            if column.lifeline == lifeline {
                match side {
                    Side::Left => column.left = column.left.max(width),
                    Side::Right => column.right = column.right.max(width),
                }
            }
        }
    }

    /// Makes room for so many bars beside a lifeline.
    pub fn hold(&mut self, lifeline: Lifeline, bars: usize) {
        for column in self.columns.iter_mut() {
            if column.lifeline == lifeline {
                column.bars = bars.saturating_mul(BAR_STEP);
            }
        }
    }

    /// Gives each column its place, right of the room of the one before it.
    pub fn place(&mut self) {
        let mut end = LEFT;
        for column in self.columns.iter_mut() {
            column.x = end.saturating_add(GAP).saturating_add(column.left);
            end = column
                .x
                .saturating_add(column.bars)
                .saturating_add(column.right);
        }
    }

    /// Where the room of the last one ends.
    pub fn end(&self) -> usize {
        match self.columns.last() {
            Some(column) => column
                .x
                .saturating_add(column.bars)
                .saturating_add(column.right)
                .saturating_add(GAP),
            None => LEFT,
        }
    }

    /// Where a lifeline is.
    pub fn x(&self, lifeline: Lifeline) -> usize {
        match self.column(lifeline) {
            Some(column) => column.x,
            None => LEFT,
        }
    }

    /// Where a text beside a lifeline begins at its right, or ends at its left.
    pub fn text_x(&self, lifeline: Lifeline, side: Side) -> usize {
        match (self.column(lifeline), side) {
            (Some(column), Side::Left) => column.x.saturating_sub(MARGIN),
            (Some(column), Side::Right) => column
                .x
                .saturating_add(column.bars)
                .saturating_add(MARGIN),
            (None, _) => LEFT,
        }
    }
}
