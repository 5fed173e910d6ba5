//! The lines of a trace: what each event was replied.

ghost use Rattle.std.specs.Prelude.{◌≡◌, IfErr, IfOk};
ghost use Rattle.std.specs.String.{string_bytes};
ghost use Rattle.xa_files.specs.declared.fault.RunFault.TheVariants.{Memory};
ghost use Rattle.xa_scenario.specs.Replies.{answer_text, reply_text, trace_line, trace_lines};

use std::alloc::Global;
use xa_base::{Answer, Event, Reply};
use xa_files::{RunFault, begun_text, push_xids, refused_text, restarted_text};

/// The number of an answer and, for a page, the identifiers that it lists.
fn answer_text(alloc: Global, answer: &Answer) -> Result<String, RunFault>
    ensures text { IfOk result (λ text. string_bytes text ≡ answer_text answer.now) }
    ensures fault { IfErr result (λ e. e ≡ Memory) }
{
    let mut text = format!(in alloc; "{}", answer.number())?;
    if let Answer::Page(page) = answer {
        push_xids(&mut text, alloc, page.xids())?;
    }
    Ok(text)
}

/// A text of one word.
fn word_text(alloc: Global, word: &str) -> Result<String, RunFault>
    ensures text { IfOk result (λ text. string_bytes text ≡ word.now) }
    ensures fault { IfErr result (λ e. e ≡ Memory) }
{
    Ok(String::from_str(alloc, word)?)
}

/// A reply in words.
fn reply_text(alloc: Global, reply: &Reply) -> Result<String, RunFault>
    ensures text { IfOk result (λ text. string_bytes text ≡ reply_text reply.now) }
    ensures fault { IfErr result (λ e. e ≡ Memory) }
{
    match reply {
        Reply::Begun(gtrid) => Ok(begun_text(alloc, *gtrid)?),
        Reply::Issued => word_text(alloc, "issued"),
        Reply::Took(call, answer) => {
            let answer = answer_text(alloc, answer)?;
            Ok(format!(in alloc; "took {} {answer}", call.kind().name())?)
        }
        Reply::Heard(call, answer) => {
            let answer = answer_text(alloc, answer)?;
            Ok(format!(in alloc; "heard {} {answer}", call.kind().name())?)
        }
        Reply::Nothing => word_text(alloc, "nothing"),
        Reply::Noted => word_text(alloc, "noted"),
        Reply::Claimed => word_text(alloc, "claimed"),
        Reply::Decided => word_text(alloc, "decided"),
        Reply::Resolved(calls) => Ok(format!(in alloc; "resolved {calls}")?),
        Reply::Crashed => word_text(alloc, "crashed"),
        Reply::RmRestarted => word_text(alloc, "restarted"),
        Reply::Restarted {
            incarnation,
            decisions,
            heuristics,
        } => Ok(restarted_text(alloc, *incarnation, *decisions, *heuristics)?),
        Reply::Refused(refusal) => Ok(refused_text(alloc, *refusal)?),
    }
}

/// The line of the event of a number.
fn trace_line(alloc: Global, number: usize, event: &Event) -> Result<String, RunFault>
    ensures text { IfOk result (λ text. string_bytes text ≡ trace_line number event.now) }
    ensures fault { IfErr result (λ e. e ≡ Memory) }
{
    let reply = reply_text(alloc, &event.reply)?;
    Ok(format!(in alloc; "{number} {reply}\n")?)
}

/// A line for each event, numbered from 1.
pub fn trace_lines(alloc: Global, events: &[Event]) -> Result<String, RunFault>
    ensures text { IfOk result (λ text. string_bytes text ≡ trace_lines 1 events.now) }
    ensures fault { IfErr result (λ e. e ≡ Memory) }
{
    let mut lines = String::new(alloc);
    for (i, event) in events.iter().enumerate() {
        let line = trace_line(alloc, i + 1, event)?;
        lines.push_str(line.as_str())?;
    }
    Ok(lines)
}
