//! The ways of calls and answers that don't arrive. Those of one line are a fan, of which the
//! oldest and the newest are drawn.

use crate::arrows::ends_of;
use crate::canvas::{Canvas, Point};
use crate::classes::Stroke;
use crate::layout::Layout;
use crate::run::Run;
use xa_base::Memory;
use xa_story::Waiting;

/// Whether two are of one fan: they go from the same part to the same part.
fn are_together(one: &Waiting, other: &Waiting) -> bool {
    ends_of(one) == ends_of(other) && one.thread == other.thread
}

/// Where the way of what doesn't arrive ends: a call goes less than half of it, and an answer a
/// quarter, so that both can be seen.
fn part_way(from: usize, to: usize, is_answer: bool) -> usize {
    let eighths: usize = if is_answer { 2 } else { 3 };
    let left = from.saturating_mul(8_usize.saturating_sub(eighths));
    left.saturating_add(to.saturating_mul(eighths)) / 8
}

/// Where what is sent by an item ends, if that is at this height.
fn end_of(layout: &Layout, item: &Waiting, y: usize) -> Point {
    let (from, to) = ends_of(item);
    let start = layout.at(from, item.since);
    Point {
        x: part_way(start.x, layout.at(to, item.since).x, item.is_answer),
        y: y.max(start.y),
    }
}

/// Draws the ways of some that don't arrive down to a height, with a cross where they are lost.
fn draw_fans(
    canvas: &mut Canvas,
    layout: &Layout,
    items: &[Waiting],
    y: usize,
    is_lost: bool,
) -> Result<(), Memory> {
    for (i, item) in items.iter().enumerate() {
        let is_oldest = !items.iter().take(i).any(|it| are_together(it, item));
        let is_newest = !items
            .iter()
            .skip(i.saturating_add(1))
            .any(|it| are_together(it, item));
        if is_oldest || is_newest {
            let end = end_of(layout, item, y);
            let (from, _) = ends_of(item);
            canvas.line(Stroke::Stray, layout.at(from, item.since), end)?;
            if is_lost && is_oldest {
                canvas.cross(end)?;
            }
        }
    }
    Ok(())
}

/// Draws all that is lost, or still waits at the end.
pub fn draw_strays(canvas: &mut Canvas, layout: &Layout, run: &Run) -> Result<(), Memory> {
    for line in run.lines {
        // It is lost before the event at which that is told.
        let y = layout.timeline.y(line.number).saturating_sub(6);
        draw_fans(canvas, layout, line.lost.as_slice(), y, true)?;
    }
    let foot = layout.timeline.foot();
    draw_fans(canvas, layout, run.scene.waiting(), foot, false)
}
