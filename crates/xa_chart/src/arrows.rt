//! The calls and answers between the lifelines, and what the manager does to its log.

use crate::canvas::{Canvas, Point};
use crate::classes::Stroke;
use crate::columns::Lifeline;
use crate::labels::first_of;
use crate::layout::Layout;
use crate::run::Run;
use xa_base::{Event, Memory, Part, Reply, Step};
use xa_story::{LogChange, Party, StoryLine, Waiting};

/// Where something that waits begins, and where it is to arrive.
pub fn ends_of(item: &Waiting) -> (Party, Party) {
    if item.is_answer {
        (Party::Rm(item.rm), item.asker)
    } else {
        (item.asker, Party::Rm(item.rm))
    }
}

/// Draws a call or an answer that arrives at an event.
fn draw_arrival(
    canvas: &mut Canvas,
    layout: &Layout,
    item: &Waiting,
    number: usize,
) -> Result<(), Memory> {
    let (from, to) = ends_of(item);
    let stroke = if item.is_answer {
        Stroke::Answer
    } else {
        Stroke::Call
    };
    canvas.arrow(stroke, layout.at(from, item.since), layout.at(to, number))
}

/// Draws that the manager writes to its log, or takes a row from it.
fn draw_log_change(
    canvas: &mut Canvas,
    layout: &Layout,
    change: LogChange,
    number: usize,
) -> Result<(), Memory> {
    let log = layout.on(Lifeline::Log, number);
    let before = match change {
        LogChange::Recorded(_) => 18,
        LogChange::RowAdded(_) | LogChange::RowGone(_) => 5,
    };
    let end = Point {
        x: log.x.saturating_sub(before),
        y: log.y,
    };
    canvas.arrow(Stroke::Call, layout.at(Party::Manager, number), end)
}

/// Draws that the line between two parts breaks.
fn draw_break(
    canvas: &mut Canvas,
    layout: &Layout,
    thread: u32,
    rm: u32,
    number: usize,
) -> Result<(), Memory> {
    let start = layout.at(Party::Thread(thread), number);
    let end = layout.at(Party::Rm(rm), number);
    canvas.line(Stroke::Stray, start, end)?;
    canvas.cross(Point {
        x: start.x.saturating_add(end.x) / 2,
        y: start.y,
    })
}

/// Draws what an event does itself.
fn draw_own(
    canvas: &mut Canvas,
    layout: &Layout,
    line: &StoryLine,
    event: &Event,
) -> Result<(), Memory> {
    let number = line.number;
    match (&event.step, &event.reply) {
        (_, Reply::Refused(_)) => canvas.cross(layout.at(first_of(line.sides), number)),
        (Step::Begin { thread }, _) => canvas.arrow(
            Stroke::Call,
            layout.at(Party::Thread(*thread), number),
            layout.at(Party::Manager, number),
        ),
        (Step::Crash(Part::Line { thread, rm }), _) => {
            draw_break(canvas, layout, *thread, *rm, number)
        }
        (Step::Crash(_), _) => canvas.cross(layout.at(first_of(line.sides), number)),
        _ => Ok(()),
    }
}

/// Draws the arrows that end at each event.
pub fn draw_arrows(canvas: &mut Canvas, layout: &Layout, run: &Run) -> Result<(), Memory> {
    for (line, event) in run.lines.iter().zip(run.events) {
        if let Some(item) = line.came {
            draw_arrival(canvas, layout, &item, line.number)?;
        }
        if let Some(change) = line.log {
            draw_log_change(canvas, layout, change, line.number)?;
        }
        draw_own(canvas, layout, line, event)?;
    }
    Ok(())
}
