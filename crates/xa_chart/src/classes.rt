//! The classes of what is drawn, by which the style tells them apart.

use crate::font::text_width;
use xa_base::Standing;

/// What a line is.
#[derive(Clone, Copy)]
pub enum Stroke {
    Lifeline,
    Call,
    Answer,
    /// The way of what doesn't arrive.
    Stray,
    Cross,
}

impl Stroke {
    /// The name of the class.
    pub fn name(self) -> &'static str {
        match self {
            Stroke::Lifeline => "life",
            Stroke::Call => "call",
            Stroke::Answer => "answer",
            Stroke::Stray => "stray",
            Stroke::Cross => "cross",
        }
    }
}

/// What a bar is.
#[derive(Clone, Copy)]
pub enum Fill {
    Paper,
    /// What lies under the names of the lifelines where they are repeated.
    Heads,
    /// A part is down.
    Down,
    Branch(Standing),
    Row,
    Record,
}

impl Fill {
    /// The name of the class.
    pub fn name(self) -> &'static str {
        match self {
            Fill::Paper => "paper",
            Fill::Heads => "heads",
            Fill::Down => "down",
            Fill::Row => "row",
            Fill::Record => "record",
            Fill::Branch(Standing::Unstarted | Standing::Forgotten(_)) => "none",
            Fill::Branch(Standing::Active) => "active",
            Fill::Branch(Standing::Idle) => "idle",
            Fill::Branch(Standing::Prepared) => "prepared",
            Fill::Branch(Standing::RollbackOnly) => "rollback-only",
            Fill::Branch(Standing::Completed(_)) => "heuristic",
            Fill::Branch(Standing::Committed) => "committed",
            Fill::Branch(Standing::RolledBack) => "rolled-back",
            Fill::Branch(Standing::Lost) => "lost",
            Fill::Branch(Standing::ReadOnly) => "read-only",
        }
    }
}

/// What a text is.
#[derive(Clone, Copy)]
pub enum Lettering {
    /// The number of an event. It ends at its place.
    Number,
    /// The name of a lifeline, round its place.
    Head,
    /// What is asked, before the head of its arrow. It ends at its place.
    Asked,
    Plain,
    /// Where a branch stands, or what happens to the log.
    Standing,
    /// A refusal or a crash.
    Fault,
}

impl Lettering {
    /// The name of the class.
    pub fn name(self) -> &'static str {
        match self {
            Lettering::Number => "number",
            Lettering::Head => "head",
            Lettering::Asked => "asked",
            Lettering::Plain => "plain",
            Lettering::Standing => "standing",
            Lettering::Fault => "fault",
        }
    }

    /// How wide a text is at most, in pixels.
    pub fn width(self, text: &str) -> usize {
        match self {
            Lettering::Head => text_width(text, 13),
            _ => text_width(text, 11),
        }
    }
}
