//! The elements of a picture.

use crate::classes::{Fill, Lettering, Stroke};
use std::alloc::Global;
use xa_base::Memory;

/// A place on the picture, in pixels from its upper left corner.
#[derive(Clone, Copy)]
pub struct Point {
    pub x: usize,
    pub y: usize,
}

/// How large something is, in pixels.
#[derive(Clone, Copy)]
pub struct Size {
    pub width: usize,
    pub height: usize,
}

/// A picture that is being drawn: what is drawn later lies above.
#[derive(Drop)]
pub struct Canvas {
    alloc: Global,
    text: String,
}

impl Canvas {
    /// An empty picture.
    pub fn new(alloc: Global) -> Canvas {
        Canvas {
            alloc,
            text: String::new(alloc),
        }
    }

    /// Its elements so far, as SVG.
    pub fn text(&self) -> &str {
        self.text.as_str()
    }

    /// A line.
    pub fn line(&mut self, stroke: Stroke, from: Point, to: Point) -> Result<(), Memory> {
        let (x1, y1, x2, y2) = (from.x, from.y, to.x, to.y);
        let class = stroke.name();
        let line = format!(in self.alloc;
            "<line class=\"{class}\" x1=\"{x1}\" y1=\"{y1}\" x2=\"{x2}\" y2=\"{y2}\"/>\n"
        )?;
        Ok(self.text.push_str(line.as_str())?)
    }

    /// A line that ends with the head of an arrow.
    pub fn arrow(&mut self, stroke: Stroke, from: Point, to: Point) -> Result<(), Memory> {
        let (x1, y1, x2, y2) = (from.x, from.y, to.x, to.y);
        let class = stroke.name();
        let line = format!(in self.alloc;
            "<line class=\"{class}\" marker-end=\"url(#head)\" x1=\"{x1}\" y1=\"{y1}\" \
            x2=\"{x2}\" y2=\"{y2}\"/>\n"
        )?;
        Ok(self.text.push_str(line.as_str())?)
    }

    /// A bar with its upper left corner at a place.
    pub fn bar(&mut self, fill: Fill, at: Point, size: Size) -> Result<(), Memory> {
        let (x, y) = (at.x, at.y);
        let Size { width, height } = size;
        let class = fill.name();
        let bar = format!(in self.alloc;
            "<rect class=\"{class}\" x=\"{x}\" y=\"{y}\" width=\"{width}\" \
            height=\"{height}\"/>\n"
        )?;
        Ok(self.text.push_str(bar.as_str())?)
    }

    /// A text whose base line begins at a place, or ends there or has it in its middle, as its
    /// class says.
    pub fn write(&mut self, lettering: Lettering, at: Point, content: &str) -> Result<(), Memory> {
        let (x, y) = (at.x, at.y);
        let class = lettering.name();
        let text = format!(in self.alloc;
            "<text class=\"{class}\" x=\"{x}\" y=\"{y}\">{content}</text>\n"
        )?;
        Ok(self.text.push_str(text.as_str())?)
    }

    /// A cross.
    pub fn cross(&mut self, at: Point) -> Result<(), Memory> {
        let left = at.x.saturating_sub(5);
        let right = at.x.saturating_add(5);
        let top = at.y.saturating_sub(5);
        let foot = at.y.saturating_add(5);
        self.line(
            Stroke::Cross,
            Point { x: left, y: top },
            Point { x: right, y: foot },
        )?;
        self.line(
            Stroke::Cross,
            Point { x: left, y: foot },
            Point { x: right, y: top },
        )
    }
}
