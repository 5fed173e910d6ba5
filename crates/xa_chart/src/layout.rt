//! What lies where in a picture.

use crate::canvas::Point;
use crate::classes::Lettering;
use crate::columns::{Columns, Lifeline, MARGIN, Side};
use crate::labels::Label;
use crate::notes::Note;
use crate::run::Run;
use crate::spans::Span;
use crate::timeline::Timeline;
use xa_base::Memory;
use xa_story::Party;

/// The least width of a picture, for its legend.
const LEAST: usize = 480;

/// How far a note is from the number of its event.
const NOTE_STEP: usize = 36;

/// Where the lifelines, the events and the notes lie.
#[derive(Drop)]
pub struct Layout {
    pub columns: Columns,
    pub timeline: Timeline,
    /// How wide the picture is.
    pub width: usize,
}

impl Layout {
    /// That of a run with these texts and bars: each has the room that it takes.
    pub fn new(
        run: &Run,
        labels: &[Label],
        spans: &[Span],
        notes: &[Note],
    ) -> Result<Layout, Memory> {
        let mut columns = Columns::new(run.alloc, run.threads, run.rms)?;
        for label in labels {
            let width = label.lettering.width(label.text.as_str());
            columns.widen(label.lifeline, label.side, width);
        }
        for span in spans {
            columns.hold(span.lifeline, span.place.saturating_add(1));
        }
        columns.place();
        let width = columns.end().saturating_add(notes_width(notes)).max(LEAST);
        let timeline = Timeline::new(run.alloc, notes)?;
        Ok(Layout {
            columns,
            timeline,
            width,
        })
    }

    /// Where the lifeline of a part lies at an event.
    pub fn at(&self, party: Party, number: usize) -> Point {
        self.on(Lifeline::Part(party), number)
    }

    /// Where a lifeline lies at an event.
    pub fn on(&self, lifeline: Lifeline, number: usize) -> Point {
        Point {
            x: self.columns.x(lifeline),
            y: self.timeline.y(number),
        }
    }

    /// Where a label stands: above an arrow that ends or begins there, and level with the bars if
    /// there are such.
    pub fn label_at(&self, label: &Label) -> Point {
        let y = self.timeline.y(label.number);
        let y = match (label.lifeline, label.side) {
            (Lifeline::Log | Lifeline::Part(Party::Rm(_)), Side::Right) => y.saturating_add(4),
            _ => y.saturating_sub(5),
        };
        Point {
            x: self.columns.text_x(label.lifeline, label.side),
            y,
        }
    }

    /// Where the number of a note ends.
    pub fn note_number_x(&self) -> usize {
        self.columns
            .end()
            .saturating_add(NOTE_STEP)
            .saturating_sub(MARGIN)
    }

    /// Where a note begins.
    pub fn note_x(&self) -> usize {
        self.columns.end().saturating_add(NOTE_STEP)
    }
}

/// How much room the notes take.
fn notes_width(notes: &[Note]) -> usize {
    let mut widest: usize = 0;
    for note in notes {
        for line in note.lines.iter() {
            widest = widest.max(
                Lettering::Plain
                    .width(line.as_str())
                    .saturating_add(NOTE_STEP),
            );
        }
    }
    widest
}
