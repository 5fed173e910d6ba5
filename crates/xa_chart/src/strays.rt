//! The calls and answers that don't arrive.

use crate::run::Run;
use std::alloc::Global;
use xa_base::Memory;
use xa_story::Waiting;

/// How many of the calls, or of the answers, that an event sends never arrive.
#[derive(Clone, Copy)]
pub struct Strays {
    /// How many are lost with their line.
    lost: usize,
    /// How many still wait at the end.
    waiting: usize,
}

/// How many calls or answers are from an event.
fn count_of(items: &[Waiting], number: usize, is_answer: bool) -> usize {
    items
        .iter()
        .filter(|it| it.since == number && it.is_answer == is_answer)
        .count()
}

impl Strays {
    /// Those of an event.
    pub fn of(run: &Run, number: usize, is_answer: bool) -> Strays {
        let mut lost: usize = 0;
        for line in run.lines {
            lost = lost.saturating_add(count_of(line.lost.as_slice(), number, is_answer));
        }
        Strays {
            lost,
            waiting: count_of(run.scene.waiting(), number, is_answer),
        }
    }

    /// Whether all arrive.
    pub fn is_none(self) -> bool {
        self.lost == 0 && self.waiting == 0
    }

    /// What becomes of them, in words.
    pub fn text(self, alloc: Global) -> Result<String, Memory> {
        let Strays { lost, waiting } = self;
        Ok(match (lost, waiting) {
            (0, 0) => String::new(alloc),
            (1, 0) => String::from_str(alloc, "lost")?,
            (0, 1) => String::from_str(alloc, "waits")?,
            (_, 0) => format!(in alloc; "{lost} lost")?,
            (0, _) => format!(in alloc; "{waiting} wait")?,
            _ => format!(in alloc; "{lost} lost, {waiting} wait")?,
        })
    }
}
