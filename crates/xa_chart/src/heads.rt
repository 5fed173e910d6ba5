//! The lifelines and their names.

use crate::canvas::{Canvas, Point, Size};
use crate::classes::{Fill, Lettering, Stroke};
use crate::columns::head_text;
use crate::layout::Layout;
use crate::timeline::{HEAD, TOP};
use std::alloc::Global;
use xa_base::Memory;

/// How high the strip is on which the names are repeated.
const STRIP: usize = 24;

/// Draws the lifelines.
pub fn draw_lifelines(canvas: &mut Canvas, layout: &Layout) -> Result<(), Memory> {
    let foot = layout.timeline.foot();
    for column in layout.columns.as_slice() {
        let x = column.x;
        canvas.line(Stroke::Lifeline, Point { x, y: TOP }, Point { x, y: foot })?;
    }
    Ok(())
}

/// Writes the names of the lifelines at a height.
fn write_heads(
    canvas: &mut Canvas,
    alloc: Global,
    layout: &Layout,
    y: usize,
) -> Result<(), Memory> {
    for column in layout.columns.as_slice() {
        let name = head_text(alloc, column.lifeline)?;
        canvas.write(Lettering::Head, Point { x: column.x, y }, name.as_str())?;
    }
    Ok(())
}

/// Writes the names of the lifelines at the top, and again where many events lie between.
pub fn draw_heads(canvas: &mut Canvas, alloc: Global, layout: &Layout) -> Result<(), Memory> {
    write_heads(canvas, alloc, layout, HEAD)?;
    for y in layout.timeline.heads() {
        let at = Point {
            x: 0,
            y: y.saturating_sub(10),
        };
        let strip = Size {
            width: layout.width,
            height: STRIP,
        };
        canvas.bar(Fill::Heads, at, strip)?;
        write_heads(canvas, alloc, layout, y.saturating_add(7))?;
    }
    Ok(())
}
