//! What is written beside the lifelines.

use crate::classes::Lettering;
use crate::columns::{Lifeline, Side};
use crate::run::Run;
use crate::strays::Strays;
use std::alloc::Global;
use xa_base::{Event, Memory, Part, Reply, Step};
use xa_story::{LogChange, Party, Sides, StoryLine, standing_text};

/// A text beside a lifeline at an event. There is one at most on each side.
#[derive(Drop)]
pub struct Label {
    pub lifeline: Lifeline,
    pub side: Side,
    pub number: usize,
    pub lettering: Lettering,
    pub text: String,
}

/// The first of those who take part.
pub fn first_of(sides: Sides) -> Party {
    match sides {
        Sides::Alone(party)
        | Sides::Sends(party, _)
        | Sides::Hears(party, _)
        | Sides::Between(party, _) => party,
    }
}

/// A text that several things at one event make together.
#[derive(Drop)]
struct Words {
    lettering: Lettering,
    text: String,
}

impl Words {
    /// No text yet.
    fn new(alloc: Global) -> Words {
        Words {
            lettering: Lettering::Plain,
            text: String::new(alloc),
        }
    }

    /// Adds a text. The first one's kind is that of all.
    fn add(&mut self, lettering: Lettering, text: &str) -> Result<(), Memory> {
        if text.is_empty() {
            return Ok(());
        }
        if self.text.is_empty() {
            self.lettering = lettering;
        } else {
            self.text.push_str("; ")?;
        }
        Ok(self.text.push_str(text)?)
    }
}

/// What is sent at an event and doesn't all arrive, in words: what arrives is told where it does.
fn sent_text(run: &Run, line: &StoryLine, is_told: bool) -> Result<String, Memory> {
    let asked = line.asked.as_str();
    let strays = Strays::of(run, line.number, false);
    if strays.is_none() {
        let text = if is_told { asked } else { "" };
        return Ok(String::from_str(run.alloc, text)?);
    }
    let strays = strays.text(run.alloc)?;
    Ok(format!(in run.alloc; "{asked}, {strays}")?)
}

/// What the first that takes part does or is told.
fn own_text(run: &Run, line: &StoryLine, event: &Event) -> Result<String, Memory> {
    let asked = line.asked.as_str();
    if let Reply::Refused(_) = event.reply {
        return Ok(format!(in run.alloc; "{asked}: refused")?);
    }
    match event.step {
        Step::Issue { .. } | Step::Recover { .. } => sent_text(run, line, false),
        Step::Resolve { .. } | Step::ResolveOpen { .. } => sent_text(run, line, true),
        Step::Crash(Part::Line { rm, .. }) => Ok(format!(in run.alloc; "line to rm {rm} breaks")?),
        Step::Take { .. } | Step::Hear { .. } if line.came.is_some() => Ok(String::new(run.alloc)),
        Step::Heuristic { .. } => Ok(String::new(run.alloc)),
        _ => Ok(String::from_str(run.alloc, asked)?),
    }
}

/// How the text of the first that takes part is written.
fn own_lettering(event: &Event) -> Lettering {
    match (&event.step, &event.reply) {
        (Step::Crash(_), _) | (_, Reply::Refused(_)) => Lettering::Fault,
        _ => Lettering::Plain,
    }
}

/// Which branches of a resource manager go where: by name, if they are few.
fn moves_text(run: &Run, line: &StoryLine, rm: u32) -> Result<String, Memory> {
    let mut names = String::new(run.alloc);
    let mut count: usize = 0;
    let mut standing = "";
    for change in line.moves.iter() {
        if change.branch.rm == rm {
            let name = run.scene.names().branch_text(run.alloc, change.branch)?;
            if !names.is_empty() {
                names.push_str(", ")?;
            }
            names.push_str(name.as_str())?;
            count = count.saturating_add(1);
            standing = standing_text(change.standing);
        }
    }
    Ok(match count {
        0 => names,
        1 | 2 => format!(in run.alloc; "{names} {standing}")?,
        _ => format!(in run.alloc; "{count} branches {standing}")?,
    })
}

/// What becomes of the answer that a resource manager gives.
fn answer_text(run: &Run, line: &StoryLine, event: &Event, rm: u32) -> Result<String, Memory> {
    match event.step {
        Step::Take { rm: own, .. } if own == rm => {
            let strays = Strays::of(run, line.number, true);
            if strays.is_none() {
                return Ok(String::new(run.alloc));
            }
            let reply = line.reply.as_str();
            let strays = strays.text(run.alloc)?;
            Ok(format!(in run.alloc; "{reply} {strays}")?)
        }
        _ => Ok(String::new(run.alloc)),
    }
}

/// What happens to the log.
fn log_text(run: &Run, line: &StoryLine) -> Result<String, Memory> {
    let names = run.scene.names();
    Ok(match line.log {
        Some(LogChange::RowAdded(gtrid)) => {
            let name = names.name_of(gtrid);
            format!(in run.alloc; "row of {name} written")?
        }
        Some(LogChange::RowGone(gtrid)) => {
            let name = names.name_of(gtrid);
            format!(in run.alloc; "row of {name} gone")?
        }
        Some(LogChange::Recorded(branch)) => {
            let name = names.branch_text(run.alloc, branch)?;
            let rm = branch.rm;
            format!(in run.alloc; "record: rm {rm} ended {name} by itself")?
        }
        None => String::new(run.alloc),
    })
}

/// What is written right of a lifeline at an event.
fn right_words(
    run: &Run,
    line: &StoryLine,
    event: &Event,
    lifeline: Lifeline,
) -> Result<Words, Memory> {
    let mut words = Words::new(run.alloc);
    if lifeline == Lifeline::Part(run.shown(first_of(line.sides))) {
        let own = own_text(run, line, event)?;
        words.add(own_lettering(event), own.as_str())?;
    }
    match lifeline {
        Lifeline::Part(Party::Rm(rm)) => {
            let moves = moves_text(run, line, rm)?;
            words.add(Lettering::Standing, moves.as_str())?;
            let answer = answer_text(run, line, event, rm)?;
            words.add(Lettering::Plain, answer.as_str())?;
        }
        Lifeline::Log => {
            let log = log_text(run, line)?;
            words.add(Lettering::Standing, log.as_str())?;
        }
        _ => {}
    }
    match (&event.step, line.came) {
        (Step::Hear { .. }, Some(item)) if lifeline == Lifeline::Part(item.asker) => {
            words.add(Lettering::Plain, line.reply.as_str())?;
        }
        _ => {}
    }
    Ok(words)
}

/// What is written left of a lifeline at an event: the call that is taken there.
fn left_text<'a>(line: &'a StoryLine, event: &Event, lifeline: Lifeline) -> &'a str {
    match event.step {
        Step::Take { rm, .. } if line.came.is_some() && lifeline == Lifeline::Part(Party::Rm(rm)) =>
            line.asked.as_str(),
        _ => "",
    }
}

/// Adds what is written beside a lifeline at an event.
pub fn add_labels(
    labels: &mut Vec<Label>,
    run: &Run,
    line: &StoryLine,
    event: &Event,
    lifeline: Lifeline,
) -> Result<(), Memory> {
    let Words { lettering, text } = right_words(run, line, event, lifeline)?;
    if !text.is_empty() {
        labels.push(Label {
            lifeline,
            side: Side::Right,
            number: line.number,
            lettering,
            text,
        })?;
    }
    let text = left_text(line, event, lifeline);
    if !text.is_empty() {
        labels.push(Label {
            lifeline,
            side: Side::Left,
            number: line.number,
            lettering: Lettering::Asked,
            text: String::from_str(run.alloc, text)?,
        })?;
    }
    Ok(())
}
