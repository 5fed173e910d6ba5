//! The legend: what the lines, the crosses and the bars are.

use crate::canvas::{Canvas, Point, Size};
use crate::classes::{Fill, Lettering, Stroke};
use xa_base::{How, Memory, Standing};

/// What stands before a word of the legend.
#[derive(Clone, Copy)]
enum Sample {
    /// Nothing: the word begins a line.
    Nothing,
    Arrow(Stroke),
    Line(Stroke),
    Cross,
    Bar(Fill),
}

/// Where the legend begins at the left.
const LEFT: usize = 20;

/// How much room a line or a bar of the legend takes.
const SAMPLE: usize = 32;

/// How far a line of the legend is from the next.
const LINE: usize = 20;

/// How far an item is from the next.
const GAP: usize = 18;

/// What the samples are.
const ITEMS: [(Sample, &str); 17] = [
    (Sample::Arrow(Stroke::Call), "call"),
    (Sample::Arrow(Stroke::Answer), "answer"),
    (Sample::Line(Stroke::Stray), "lost, or still waits"),
    (Sample::Cross, "loss, crash or refusal"),
    (Sample::Bar(Fill::Down), "part that is down"),
    (Sample::Bar(Fill::Row), "row of the log"),
    (Sample::Bar(Fill::Record), "record of the log"),
    (Sample::Nothing, "branches:"),
    (Sample::Bar(Fill::Branch(Standing::Active)), "active"),
    (Sample::Bar(Fill::Branch(Standing::Idle)), "idle"),
    (Sample::Bar(Fill::Branch(Standing::Prepared)), "prepared"),
    (
        Sample::Bar(Fill::Branch(Standing::RollbackOnly)),
        "rollback-only",
    ),
    (Sample::Bar(Fill::Branch(Standing::Committed)), "committed"),
    (
        Sample::Bar(Fill::Branch(Standing::RolledBack)),
        "rolled back",
    ),
    (
        Sample::Bar(Fill::Branch(Standing::Completed(How::Mix))),
        "ended by the rm itself",
    ),
    (Sample::Bar(Fill::Branch(Standing::ReadOnly)), "read only"),
    (Sample::Bar(Fill::Branch(Standing::Lost)), "lost"),
];

/// How much room a sample takes, with what is left free after it.
fn sample_width(sample: Sample) -> usize {
    match sample {
        Sample::Nothing => 0,
        _ => SAMPLE,
    }
}

/// Draws a sample, whose middle is at this height.
fn draw_sample(canvas: &mut Canvas, sample: Sample, at: Point) -> Result<(), Memory> {
    let end = Point {
        x: at.x.saturating_add(SAMPLE.saturating_sub(6)),
        y: at.y,
    };
    match sample {
        Sample::Nothing => Ok(()),
        Sample::Arrow(stroke) => canvas.arrow(stroke, at, end),
        Sample::Line(stroke) => canvas.line(stroke, at, end),
        Sample::Cross => canvas.cross(Point {
            x: at.x.saturating_add(18),
            y: at.y,
        }),
        Sample::Bar(fill) => {
            let corner = Point {
                x: at.x.saturating_add(4),
                y: at.y.saturating_sub(6),
            };
            let size = Size {
                width: 22,
                height: 12,
            };
            canvas.bar(fill, corner, size)
        }
    }
}

/// Draws the legend below a height, and returns the height at which it ends.
pub fn draw_legend(canvas: &mut Canvas, width: usize, top: usize) -> Result<usize, Memory> {
    let mut at = Point {
        x: LEFT,
        y: top.saturating_add(LINE),
    };
    for (sample, text) in ITEMS {
        let wide = sample_width(sample).saturating_add(Lettering::Plain.width(text));
        let is_new = matches!(sample, Sample::Nothing) || at.x.saturating_add(wide) > width;
        if is_new && at.x > LEFT {
            at.x = LEFT;
            at.y = at.y.saturating_add(LINE);
        }
        draw_sample(canvas, sample, at)?;
        let start = Point {
            x: at.x.saturating_add(sample_width(sample)),
            y: at.y.saturating_add(4),
        };
        canvas.write(Lettering::Plain, start, text)?;
        at.x = at.x.saturating_add(wide).saturating_add(GAP);
    }
    Ok(at.y.saturating_add(LINE))
}
