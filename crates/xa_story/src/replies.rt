//! What an event was replied, in words.

ghost use Rattle.std.specs.Prelude.{◌≡◌, IfOk};
ghost use Rattle.std.specs.String.{string_bytes};
ghost use Rattle.xa_story.specs.Replied.{begun_numbers_text, count_text, crashed_text, noted_text, told_refusal_text, told_reply_text};

use crate::asked::plain_text;
use crate::words::answer_text;
use std::alloc::Global;
use xa_base::{Event, Gtrid, Memory, Part, Refusal, Reply, Step};
use xa_files::refused_text;

/// A script, or the end of a row.
fn noted_text(step: &Step) -> &'static str
    ensures { result.now ≡ noted_text step.now }
{
    match step {
        Step::Done { .. } => "done",
        _ => "",
    }
}

/// A crash: a part is down, and a line isn't.
fn crashed_text(step: &Step) -> &'static str
    ensures { result.now ≡ crashed_text step.now }
{
    match step {
        Step::Crash(Part::Line { .. }) => "",
        Step::Crash(_) => "down",
        _ => "",
    }
}

/// How many calls a recovery makes.
fn count_text(alloc: Global, count: usize) -> Result<String, Memory>
    ensures { IfOk result (λ text. string_bytes text ≡ count_text count) }
{
    match count {
        1 => plain_text(alloc, "1 call"),
        _ => Ok(format!(in alloc; "{count} calls")?),
    }
}

/// A refusal, by its number and its name; its reason follows.
fn told_refusal_text(alloc: Global, refusal: Refusal) -> Result<String, Memory>
    ensures { IfOk result (λ text. string_bytes text ≡ told_refusal_text refusal) }
{
    let text = refused_text(alloc, refusal)?;
    Ok(format!(in alloc; "{text}:")?)
}

/// A transaction by its numbers.
fn begun_text(alloc: Global, gtrid: Gtrid) -> Result<String, Memory>
    ensures { IfOk result (λ text. string_bytes text ≡ begun_numbers_text gtrid) }
{
    let sequence = gtrid.sequence;
    let incarnation = gtrid.incarnation;
    Ok(format!(in alloc; "transaction {sequence} of incarnation {incarnation}")?)
}

/// What an event was replied.
pub fn reply_text(alloc: Global, event: &Event) -> Result<String, Memory>
    ensures { IfOk result (λ text. string_bytes text ≡ told_reply_text event.now) }
{
    match event.reply {
        Reply::Begun(gtrid) => begun_text(alloc, gtrid),
        Reply::Issued => plain_text(alloc, "waits"),
        Reply::Took(_, ref answer) | Reply::Heard(_, ref answer) => answer_text(alloc, answer),
        Reply::Nothing => Ok(String::new(alloc)),
        Reply::Noted => plain_text(alloc, noted_text(&event.step)),
        Reply::Claimed => plain_text(alloc, "claimed"),
        Reply::Decided => plain_text(alloc, "decided"),
        Reply::Resolved(count) => count_text(alloc, count),
        Reply::Crashed => plain_text(alloc, crashed_text(&event.step)),
        Reply::RmRestarted | Reply::Restarted { .. } => plain_text(alloc, "up"),
        Reply::Refused(refusal) => told_refusal_text(alloc, refusal),
    }
}
