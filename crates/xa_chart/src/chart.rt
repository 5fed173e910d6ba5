//! The picture of a run as a sequence diagram.

ghost use Rattle.std.specs.Prelude.{◌≡◌, IfOk, length};
ghost use Rattle.std.specs.String.{string_bytes};
ghost use Rattle.xa_chart.specs.Pictures.{HasTitle, IsPicture, title_text};

use crate::arrows::draw_arrows;
use crate::bars::{draw_bars, draw_downs};
use crate::canvas::{Canvas, Size};
use crate::columns::Lifeline;
use crate::fans::draw_strays;
use crate::heads::{draw_heads, draw_lifelines};
use crate::labels::{Label, add_labels};
use crate::layout::Layout;
use crate::legend::draw_legend;
use crate::notes::{Note, notes_of};
use crate::run::Run;
use crate::spans::{Span, spans_of};
use crate::style::STYLE;
use crate::texts::{write_labels, write_notes};
use std::alloc::Global;
use xa_base::{Event, Memory};
use xa_story::{Party, StoryLine};

/// Adds what is written beside the lifelines at an event.
fn add_all_labels(
    labels: &mut Vec<Label>,
    run: &Run,
    line: &StoryLine,
    event: &Event,
) -> Result<(), Memory> {
    for thread in 0..run.threads {
        let thread = Lifeline::Part(Party::Thread(thread));
        add_labels(labels, run, line, event, thread)?;
    }
    add_labels(labels, run, line, event, Lifeline::Part(Party::Manager))?;
    add_labels(labels, run, line, event, Lifeline::Log)?;
    for rm in 0..run.rms {
        let rm = Lifeline::Part(Party::Rm(rm));
        add_labels(labels, run, line, event, rm)?;
    }
    Ok(())
}

/// What is written beside the lifelines at all events.
fn labels_of(run: &Run) -> Result<Vec<Label>, Memory> {
    let mut labels = Vec::new(run.alloc);
    for (line, event) in run.lines.iter().zip(run.events) {
        add_all_labels(&mut labels, run, line, event)?;
    }
    Ok(labels)
}

/// Draws the times when parts are down.
fn draw_all_downs(canvas: &mut Canvas, layout: &Layout, run: &Run) -> Result<(), Memory> {
    draw_downs(canvas, layout, run.events, Party::Manager)?;
    for rm in 0..run.rms {
        draw_downs(canvas, layout, run.events, Party::Rm(rm))?;
    }
    Ok(())
}

/// The title of a picture: how large the run is.
fn title_text(alloc: Global, threads: u32, rms: u32, events: usize) -> Result<String, Memory>
    ensures { IfOk result (λ text. string_bytes text ≡ title_text threads rms events) }
{
    Ok(format!(in alloc;
        "Sequence diagram of a run: threads {threads}, resource managers {rms}, events {events}"
    )?)
}

/// The document of SVG that has this title and these elements.
fn document(alloc: Global, size: Size, title: &str, elements: &str) -> Result<String, Memory>
    ensures { IfOk result (λ text. HasTitle title.now (string_bytes text)) }
{
    let Size { width, height } = size;
    let head = format!(in alloc;
        "<svg xmlns=\"http://www.w3.org/2000/svg\" role=\"img\" width=\"{width}\" \
        height=\"{height}\" viewBox=\"0 0 {width} {height}\">\n<title>"
    )?;
    let body = format!(in alloc;
        "</title>\n{STYLE}\
        <rect class=\"paper\" x=\"0\" y=\"0\" width=\"{width}\" height=\"{height}\"/>\n\
        {elements}</svg>\n"
    )?;
    Ok(format!(in alloc; "{head}{title}{body}")?)
}

/// What is drawn and written at the events.
#[derive(Drop)]
struct Marks {
    labels: Vec<Label>,
    spans: Vec<Span>,
    notes: Vec<Note>,
}

/// What is drawn and written at the events of a run.
fn marks_of(run: &Run) -> Result<Marks, Memory> {
    let labels = labels_of(run)?;
    let spans = spans_of(run)?;
    let notes = notes_of(run)?;
    Ok(Marks {
        labels,
        spans,
        notes,
    })
}

/// Draws the parts with their lifelines, and what happens at them.
fn draw_events(
    canvas: &mut Canvas,
    layout: &Layout,
    run: &Run,
    marks: &Marks,
) -> Result<(), Memory> {
    draw_lifelines(canvas, layout)?;
    draw_all_downs(canvas, layout, run)?;
    draw_bars(canvas, layout, run, &marks.spans)?;
    draw_strays(canvas, layout, run)?;
    draw_arrows(canvas, layout, run)?;
    draw_heads(canvas, run.alloc, layout)?;
    write_labels(canvas, layout, &marks.labels)?;
    write_notes(canvas, run.alloc, layout, &marks.notes)
}

/// Draws a run with the legend below it, and says how large that is.
fn draw_run(canvas: &mut Canvas, run: &Run) -> Result<Size, Memory> {
    let marks = marks_of(run)?;
    let layout = Layout::new(run, &marks.labels, &marks.spans, &marks.notes)?;
    draw_events(canvas, &layout, run, &marks)?;
    let width = layout.width;
    let height = draw_legend(canvas, width, layout.timeline.foot())?;
    Ok(Size { width, height })
}

/// The picture of a run, as a document of SVG.
pub fn chart_text(run: &Run) -> Result<String, Memory>
    ensures { IfOk result (λ text.
        IsPicture run.now.threads run.now.rms (length run.now.events.now) (string_bytes text)) }
{
    let mut canvas = Canvas::new(run.alloc);
    let size = draw_run(&mut canvas, run)?;
    let title = title_text(run.alloc, run.threads, run.rms, run.events.len())?;
    let picture = document(run.alloc, size, title.as_str(), canvas.text())?;
    Ok(picture)
}
