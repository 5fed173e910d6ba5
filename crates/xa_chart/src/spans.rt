//! The bars beside lifelines: the branches of a resource manager, coloured by where they stand, and
//! the rows of the log.

use crate::classes::Fill;
use crate::columns::Lifeline;
use crate::run::Run;
use std::alloc::Global;
use xa_base::{Branch, Gtrid, Memory, Standing};
use xa_story::{LogChange, Move, Party};

/// A bar beside a lifeline, from one event to another.
#[derive(Clone, Copy)]
pub struct Span {
    pub lifeline: Lifeline,
    /// Which one it is beside the lifeline, from 0.
    pub place: usize,
    pub fill: Fill,
    pub since: usize,
    pub until: usize,
}

/// A branch, where it is drawn, and since when it stands where it does.
#[derive(Clone, Copy)]
struct Shown {
    branch: Branch,
    standing: Standing,
    place: usize,
    since: usize,
}

impl Shown {
    /// Its bar up to an event.
    fn span(self, until: usize) -> Span {
        Span {
            lifeline: Lifeline::Part(Party::Rm(self.branch.rm)),
            place: self.place,
            fill: Fill::Branch(self.standing),
            since: self.since,
            until,
        }
    }
}

/// The row of a transaction that is in the log.
#[derive(Clone, Copy)]
struct Row {
    gtrid: Gtrid,
    place: usize,
    since: usize,
}

impl Row {
    /// Its bar up to an event.
    fn span(self, until: usize) -> Span {
        Span {
            lifeline: Lifeline::Log,
            place: self.place,
            fill: Fill::Row,
            since: self.since,
            until,
        }
    }
}

/// All bars up to some event.
#[derive(Drop)]
struct Spans {
    spans: Vec<Span>,
    branches: Vec<Shown>,
    rows: Vec<Row>,
}

impl Spans {
    /// There is none yet.
    fn new(alloc: Global) -> Spans {
        Spans {
            spans: Vec::new(alloc),
            branches: Vec::new(alloc),
            rows: Vec::new(alloc),
        }
    }

    /// A branch stands elsewhere since an event.
    fn go(&mut self, change: &Move, number: usize) -> Result<(), Memory> {
        let Move { branch, standing } = *change;
        for shown in self.branches.iter_mut() {
            if shown.branch == branch {
                self.spans.push(shown.span(number))?;
                shown.standing = standing;
                shown.since = number;
                return Ok(());
            }
        }
        let place = self
            .branches
            .iter()
            .filter(|it| it.branch.rm == branch.rm)
            .count();
        Ok(
            self.branches.push(Shown {
                branch,
                standing,
                place,
                since: number,
            })?,
        )
    }

    /// The first place at which no row is drawn.
    fn free_place(&self) -> usize {
        let count = self.rows.len();
        for place in 0..count {
            if !self.rows.iter().any(|row| row.place == place) {
                return place;
            }
        }
        count
    }

    /// The row of a transaction leaves the log at an event.
    fn end_row(&mut self, alloc: Global, gtrid: Gtrid, number: usize) -> Result<(), Memory> {
        let mut rows = Vec::new(alloc);
        for row in self.rows.iter() {
            if row.gtrid == gtrid {
                self.spans.push(row.span(number))?;
            } else {
                rows.push(*row)?;
            }
        }
        self.rows = rows;
        Ok(())
    }

    /// The log changes at an event.
    fn change(&mut self, alloc: Global, change: LogChange, number: usize) -> Result<(), Memory> {
        match change {
            LogChange::RowAdded(gtrid) => {
                let place = self.free_place();
                Ok(
                    self.rows.push(Row {
                        gtrid,
                        place,
                        since: number,
                    })?,
                )
            }
            LogChange::RowGone(gtrid) => self.end_row(alloc, gtrid, number),
            LogChange::Recorded(_) => Ok(()),
        }
    }

    /// All bars, if the run ends before an event.
    fn close(mut self, end: usize) -> Result<Vec<Span>, Memory> {
        for shown in self.branches.iter() {
            self.spans.push(shown.span(end))?;
        }
        for row in self.rows.iter() {
            self.spans.push(row.span(end))?;
        }
        Ok(self.spans)
    }
}

/// The bars of a run.
pub fn spans_of(run: &Run) -> Result<Vec<Span>, Memory> {
    let mut spans = Spans::new(run.alloc);
    for line in run.lines {
        for change in line.moves.iter() {
            spans.go(change, line.number)?;
        }
        if let Some(change) = line.log {
            spans.change(run.alloc, change, line.number)?;
        }
    }
    spans.close(run.events.len().saturating_add(1))
}
