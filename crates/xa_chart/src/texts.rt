//! The texts of the events.

use crate::canvas::{Canvas, Point};
use crate::classes::Lettering;
use crate::labels::Label;
use crate::layout::Layout;
use crate::notes::Note;
use crate::timeline::LINE;
use std::alloc::Global;
use xa_base::Memory;

/// Where the numbers of the events end.
const NUMBERS: usize = 36;

/// How far the base line of a text lies under the middle of its letters.
const DROP: usize = 4;

/// Writes the labels beside the lifelines.
pub fn write_labels(canvas: &mut Canvas, layout: &Layout, labels: &[Label]) -> Result<(), Memory> {
    for label in labels {
        canvas.write(label.lettering, layout.label_at(label), label.text.as_str())?;
    }
    Ok(())
}

/// Writes the number of an event, so that it ends at a place.
fn write_number(
    canvas: &mut Canvas,
    alloc: Global,
    x: usize,
    y: usize,
    number: usize,
) -> Result<(), Memory> {
    let text = format!(in alloc; "{number}")?;
    canvas.write(Lettering::Number, Point { x, y }, text.as_str())
}

/// Writes the number of an event at the left, and its note at the right, with the number again.
fn write_note(
    canvas: &mut Canvas,
    alloc: Global,
    layout: &Layout,
    note: &Note,
) -> Result<(), Memory> {
    let y = layout.timeline.y(note.number).saturating_add(DROP);
    write_number(canvas, alloc, NUMBERS, y, note.number)?;
    for (i, line) in note.lines.iter().enumerate() {
        if i == 0 {
            write_number(canvas, alloc, layout.note_number_x(), y, note.number)?;
        }
        let at = Point {
            x: layout.note_x(),
            y: y.saturating_add(i.saturating_mul(LINE)),
        };
        canvas.write(Lettering::Plain, at, line.as_str())?;
    }
    Ok(())
}

/// Writes the numbers of the events, and the notes.
pub fn write_notes(
    canvas: &mut Canvas,
    alloc: Global,
    layout: &Layout,
    notes: &[Note],
) -> Result<(), Memory> {
    for note in notes {
        write_note(canvas, alloc, layout, note)?;
    }
    Ok(())
}
