//! What an event was asked to do, in words.

ghost use Rattle.std.specs.Prelude.{◌≡◌, IfOk};
ghost use Rattle.std.specs.String.{string_bytes};
ghost use Rattle.xa_story.specs.Asked.{alone_text, asked_text, decide_text, moved_text, named_call_text, of_transaction, outcome_name, puts_off_text, votes_text};
ghost use Rattle.xa_story.specs.Naming.{xid_text};

use crate::names::Names;
use crate::words::{call_name, vote_text};
use std::alloc::Global;
use xa_base::{
    Branch, Call, CallKind, Event, Gtrid, How, Memory, Outcome, Part, Reply, Step, Vote, Xid,
};

/// A call, by its name and the name of its branch.
pub fn call_text(alloc: Global, names: &Names, call: &Call) -> Result<String, Memory>
    ensures { IfOk result (λ text. string_bytes text ≡ named_call_text names.now call.now) }
{
    let name = call_name(call);
    match call.xid() {
        Some(xid) => {
            let branch = names.xid_text(alloc, xid)?;
            Ok(format!(in alloc; "{name} {branch}")?)
        }
        None => Ok(String::from_str(alloc, name)?),
    }
}

/// A word, and the transaction that it is about.
fn of_transaction(alloc: Global, names: &Names, word: &str, gtrid: Gtrid) -> Result<String, Memory>
    ensures { IfOk result (λ text. string_bytes text ≡ of_transaction names.now word.now gtrid) }
{
    let name = names.name_of(gtrid);
    Ok(format!(in alloc; "{word} {name}")?)
}

/// What a resource manager does with a prepared branch by itself.
fn alone_text(alloc: Global, names: &Names, xid: &Xid, how: How) -> Result<String, Memory>
    ensures { IfOk result (λ text.
        string_bytes text ≡ alone_text how (xid_text names.now xid.now)) }
{
    let branch = names.xid_text(alloc, xid)?;
    match how {
        How::Com => Ok(format!(in alloc; "commits {branch} itself")?),
        How::Rb => Ok(format!(in alloc; "rolls {branch} back itself")?),
        How::Mix => Ok(format!(in alloc; "commits a part of {branch} itself")?),
        How::Haz => Ok(format!(in alloc; "may have ended {branch}")?),
    }
}

/// How a resource manager is to vote on a branch.
fn votes_text(alloc: Global, names: &Names, xid: &Xid, vote: Vote) -> Result<String, Memory>
    ensures { IfOk result (λ text. string_bytes text ≡ votes_text names.now xid.now vote) }
{
    let branch = names.xid_text(alloc, xid)?;
    let vote = vote_text(vote);
    Ok(format!(in alloc; "will vote {vote} on {branch}")?)
}

/// How often a resource manager is to put an xa_commit off.
fn puts_off_text(alloc: Global, names: &Names, xid: &Xid, times: u32) -> Result<String, Memory>
    ensures { IfOk result (λ text. string_bytes text ≡ puts_off_text names.now xid.now times) }
{
    let branch = names.xid_text(alloc, xid)?;
    Ok(format!(in alloc; "will put xa_commit {branch} off {times} times")?)
}

/// What was taken or heard: the call, or else what was looked for.
fn moved_text(
    alloc: Global,
    names: &Names,
    reply: &Reply,
    otherwise: &str,
) -> Result<String, Memory>
    ensures { IfOk result (λ text.
        string_bytes text ≡ moved_text names.now reply.now otherwise.now) }
{
    match reply {
        Reply::Took(call, _) | Reply::Heard(call, _) => call_text(alloc, names, call),
        _ => Ok(String::from_str(alloc, otherwise)?),
    }
}

/// The name of an outcome.
fn outcome_name(outcome: Outcome) -> &'static str
    ensures { result.now ≡ outcome_name outcome }
{
    match outcome {
        Outcome::Commit => "commit",
        Outcome::Rollback => "rollback",
    }
}

/// How a transaction is to end.
fn decide_text(
    alloc: Global,
    names: &Names,
    gtrid: Gtrid,
    outcome: Outcome,
) -> Result<String, Memory>
    ensures { IfOk result (λ text. string_bytes text ≡ decide_text names.now gtrid outcome) }
{
    let name = names.name_of(gtrid);
    let outcome = outcome_name(outcome);
    Ok(format!(in alloc; "decide {name} {outcome}")?)
}

/// A word.
pub fn plain_text(alloc: Global, word: &str) -> Result<String, Memory>
    ensures { IfOk result (λ text. string_bytes text ≡ word.now) }
{
    Ok(String::from_str(alloc, word)?)
}

/// What an event was asked to do.
pub fn asked_text(alloc: Global, names: &Names, event: &Event) -> Result<String, Memory>
    ensures { IfOk result (λ text. string_bytes text ≡ asked_text names.now event.now) }
{
    let reply = &event.reply;
    match event.step {
        Step::Begin { .. } => Ok(format!(in alloc; "begin {}", names.next())?),
        Step::Issue { ref call, .. } => call_text(alloc, names, call),
        Step::Take { .. } => moved_text(alloc, names, reply, "take a call"),
        Step::Hear { .. } => moved_text(alloc, names, reply, "hear an answer"),
        Step::Vote { ref xid, vote, .. } => votes_text(alloc, names, xid, vote),
        Step::Busy { ref xid, times, .. } => puts_off_text(alloc, names, xid, times),
        Step::Heuristic { ref xid, how, .. } => alone_text(alloc, names, xid, how),
        Step::Decide { gtrid, outcome } => decide_text(alloc, names, gtrid, outcome),
        Step::Claim { gtrid } => of_transaction(alloc, names, "claim", gtrid),
        Step::Settle { gtrid } => of_transaction(alloc, names, "settle", gtrid),
        Step::Abandon { gtrid } => of_transaction(alloc, names, "abandon", gtrid),
        Step::Done { gtrid } => of_transaction(alloc, names, "done", gtrid),
        Step::Recover { .. } => plain_text(alloc, CallKind::Recover.name()),
        Step::Resolve { .. } => plain_text(alloc, "resolve"),
        Step::ResolveOpen { .. } => plain_text(alloc, "resolve-open"),
        Step::Crash(Part::Line { .. }) => plain_text(alloc, "breaks"),
        Step::Crash(_) => plain_text(alloc, "crashes"),
        Step::Restart(_) => plain_text(alloc, "restarts"),
    }
}

/// Some branches by their resource managers, as in `rm 0, rm 1`.
pub fn rms_text(alloc: Global, branches: &[Branch]) -> Result<String, Memory> {
    let mut text = String::new(alloc);
    for branch in branches {
        if !text.is_empty() {
            text.push_str(", ")?;
        }
        let rm = branch.rm;
        let item = format!(in alloc; "rm {rm}")?;
        text.push_str(item.as_str())?;
        if branch.thread != 0 {
            let thread = branch.thread;
            let own = format!(in alloc; " (thread {thread})")?;
            text.push_str(own.as_str())?;
        }
    }
    Ok(text)
}

/// The branches of identifiers, as in `a, b`.
pub fn xids_text(alloc: Global, names: &Names, xids: &[Xid]) -> Result<String, Memory> {
    let mut text = String::new(alloc);
    for xid in xids {
        if !text.is_empty() {
            text.push_str(", ")?;
        }
        let item = names.xid_text(alloc, xid)?;
        text.push_str(item.as_str())?;
    }
    Ok(text)
}
