//! The bars beside the lifelines, the records of the log, and the times when a part is down.

use crate::canvas::{Canvas, Point, Size};
use crate::classes::Fill;
use crate::columns::{BAR_STEP, Lifeline};
use crate::layout::Layout;
use crate::run::Run;
use crate::spans::Span;
use xa_base::{Event, Memory, Part, Refusal, Reply, Side, Step};
use xa_story::{LogChange, Party};

/// How wide a bar is.
const WIDTH: usize = 10;

/// How wide the sign is that a part is down.
const DOWN_WIDTH: usize = 6;

/// How large a record is.
const RECORD: Size = Size {
    width: 9,
    height: 9,
};

/// Where the first bar beside a lifeline begins: one of the log lies on its lifeline.
fn first_x(lifeline: Lifeline, x: usize) -> usize {
    match lifeline {
        Lifeline::Log => x.saturating_sub(4),
        Lifeline::Part(_) => x.saturating_add(4),
    }
}

/// Draws a bar.
fn draw_span(canvas: &mut Canvas, layout: &Layout, span: &Span) -> Result<(), Memory> {
    let start = layout.on(span.lifeline, span.since);
    let at = Point {
        x: first_x(span.lifeline, start.x).saturating_add(span.place.saturating_mul(BAR_STEP)),
        y: start.y,
    };
    let height = layout.timeline.y(span.until).saturating_sub(at.y);
    let size = Size {
        width: WIDTH,
        height,
    };
    canvas.bar(span.fill, at, size)
}

/// Draws all bars, and the records.
pub fn draw_bars(
    canvas: &mut Canvas,
    layout: &Layout,
    run: &Run,
    spans: &[Span],
) -> Result<(), Memory> {
    for span in spans {
        draw_span(canvas, layout, span)?;
    }
    for line in run.lines {
        if let Some(LogChange::Recorded(_)) = line.log {
            let log = layout.on(Lifeline::Log, line.number);
            let at = Point {
                x: log.x.saturating_sub(16),
                y: log.y.saturating_sub(4),
            };
            canvas.bar(Fill::Record, at, RECORD)?;
        }
    }
    Ok(())
}

/// Whether the event brings a part down.
fn falls(event: &Event, party: Party) -> bool {
    match (&event.step, &event.reply) {
        (_, Reply::Refused(Refusal::LogFault)) => party == Party::Manager,
        (Step::Crash(Part::Manager), Reply::Crashed) => party == Party::Manager,
        (Step::Crash(Part::Rm { rm }), Reply::Crashed) => party == Party::Rm(*rm),
        _ => false,
    }
}

/// Whether the event brings a part up.
fn rises(event: &Event, party: Party) -> bool {
    let is_restart = match event.step {
        Step::Restart(Side::Manager) => party == Party::Manager,
        Step::Restart(Side::Rm { rm }) => party == Party::Rm(rm),
        _ => false,
    };
    is_restart && matches!(event.reply, Reply::RmRestarted | Reply::Restarted { .. })
}

/// Draws that a part is down since an event, if it is.
fn draw_down(
    canvas: &mut Canvas,
    layout: &Layout,
    party: Party,
    since: Option<usize>,
    until: usize,
) -> Result<(), Memory> {
    let Some(since) = since else {
        return Ok(());
    };
    let start = layout.at(party, since);
    let at = Point {
        x: start.x.saturating_sub(DOWN_WIDTH / 2),
        y: start.y,
    };
    let height = layout.timeline.y(until).saturating_sub(at.y);
    let size = Size {
        width: DOWN_WIDTH,
        height,
    };
    canvas.bar(Fill::Down, at, size)
}

/// Draws when a part is down.
pub fn draw_downs(
    canvas: &mut Canvas,
    layout: &Layout,
    events: &[Event],
    party: Party,
) -> Result<(), Memory> {
    let mut since = None;
    for (i, event) in events.iter().enumerate() {
        if falls(event, party) && since.is_none() {
            since = Some(i.saturating_add(1));
        }
        if rises(event, party) {
            draw_down(canvas, layout, party, since, i.saturating_add(1))?;
            since = None;
        }
    }
    draw_down(canvas, layout, party, since, events.len().saturating_add(1))
}
