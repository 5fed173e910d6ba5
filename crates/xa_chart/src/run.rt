//! What a picture is made of.

ghost use Rattle.std.specs.Prelude.{◌≡◌};
ghost use Rattle.xa_chart.specs.Pictures.{shown_party};

use std::alloc::Global;
use xa_base::Event;
use xa_story::{Party, Scene, StoryLine};

/// A run that is drawn: its events, the line that the story has of each, and the scene after them.
#[derive(Clone, Copy)]
pub struct Run<'a, 'b> {
    pub alloc: Global,
    pub threads: u32,
    pub rms: u32,
    pub scene: &'a Scene<'b>,
    pub lines: &'a [StoryLine],
    pub events: &'a [Event],
}

impl<'a, 'b> Run<'a, 'b> {
    /// Where a part is drawn. A step that names a part which the system doesn't have is drawn at
    /// the manager, which refuses it.
    pub fn shown(&self, party: Party) -> Party
        ensures { result ≡ shown_party self.now.threads self.now.rms party }
    {
        match party {
            Party::Thread(thread) if thread < self.threads => party,
            Party::Rm(rm) if rm < self.rms => party,
            _ => Party::Manager,
        }
    }
}
