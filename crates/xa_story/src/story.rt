//! The story of a run: a line for each event, and then what became of the branches.

ghost use Rattle.std.specs.Prelude.{◌≡◌, IfOk, OnOk};
ghost use Rattle.std.specs.List.{flat_map};
ghost use Rattle.std.specs.String.{string_bytes};
ghost use Rattle.xa_story.specs.Lines.{line_text};
ghost use Rattle.xa_story.specs.Naming.{with_events};
ghost use Rattle.xa_story.specs.Stories.{IsSpelled, TellEvents};

use crate::ends::{fates_text, reasons_text};
use crate::line::{StoryLine, line_text};
use crate::scene::Scene;
use std::alloc::Global;
use xa_base::{Event, Fate, Memory, Xid};

/// A line for each event, in turn. The scene is that before the first of them.
pub fn lines_of(
    alloc: Global,
    scene: &mut Scene,
    events: &[Event],
) -> Result<Vec<StoryLine>, Memory>
    ensures told { IfOk result (λ lines. TellEvents scene.old.names 1 events.now lines.items) }
    ensures names { OnOk result (scene.new.names ≡ with_events scene.old.names events.now) }
{
    let mut lines = Vec::new(alloc);
    for (i, event) in events.iter().enumerate() {
        let line = scene.tell(i + 1, event)?;
        lines.push(line)?;
    }
    Ok(lines)
}

/// The text of some lines.
fn lines_text(alloc: Global, lines: &[StoryLine]) -> Result<String, Memory>
    ensures { IfOk result (λ text. string_bytes text ≡ flat_map line_text lines.now) }
{
    let mut text = String::new(alloc);
    for line in lines {
        let line = line_text(alloc, line)?;
        text.push_str(line.as_str())?;
    }
    Ok(text)
}

/// The text of some lines, and of the ends that follow, at the scene after them.
pub fn story_text(
    alloc: Global,
    lines: &[StoryLine],
    scene: &Scene,
    fates: &[(Xid, Fate)],
) -> Result<String, Memory>
    ensures { IfOk result (λ text.
        IsSpelled scene.now.names lines.now fates.now (string_bytes text)) }
{
    let lines = lines_text(alloc, lines)?;
    let ends = fates_text(alloc, scene.names(), fates)?;
    let reasons = reasons_text(alloc, scene, fates)?;
    Ok(format!(in alloc; "{lines}\n{ends}{reasons}")?)
}
