//! The text of replies.

ghost use Rattle.std.specs.Prelude.{◌≡◌, ◌++◌, [], if◌then◌else◌, IfOk};
ghost use Rattle.std.specs.String.{string_bytes};
ghost use Rattle.xa_requests.specs.Responses.{branch_text, call_text, error_text, heard_text, owed_text, recover_text, response_text, scan_text, status_text};

use crate::response::{RequestFault, Response};
use std::alloc::Global;
use xa_base::{Call, CallKind, Memory, Xid};
use xa_files::{begun_text, push_xids, refused_text, restarted_text};

/// A flag, if it is set.
fn flag_if(is_set: bool, flag: &'static str) -> &'static str
    ensures { result.now ≡ (if is_set then flag.now else []) }
{
    if is_set { flag } else { "" }
}

/// A call on a branch: its name, the branch's identifier, and the flag if it has one, after a
/// space.
#[tactic(auto, using(xa_files::proofs::Pieces::four_pieces))]
fn branch_text(alloc: Global, kind: CallKind, xid: &Xid, flag: &str) -> Result<String, Memory>
    ensures { IfOk result (λ text. string_bytes text ≡ branch_text kind xid.now flag.now) }
{
    let name = kind.name();
    let xid = xid.text(alloc)?;
    Ok(format!(in alloc; "{name} {xid}{flag}")?)
}

/// The flags of an xa_recover, each after a space.
fn scan_text(start_scan: bool, end_scan: bool) -> &'static str
    ensures { result.now ≡ scan_text start_scan end_scan }
{
    match (start_scan, end_scan) {
        (false, false) => "",
        (false, true) => " TMENDRSCAN",
        (true, false) => " TMSTARTRSCAN",
        (true, true) => " TMSTARTRSCAN TMENDRSCAN",
    }
}

/// An xa_recover: its name, its count and its flags.
#[tactic(auto, using(xa_files::proofs::Pieces::four_pieces))]
fn recover_text(
    alloc: Global,
    count: i64,
    start_scan: bool,
    end_scan: bool,
) -> Result<String, Memory>
    ensures { IfOk result (λ text. string_bytes text ≡ recover_text count start_scan end_scan) }
{
    let name = CallKind::Recover.name();
    let flags = scan_text(start_scan, end_scan);
    Ok(format!(in alloc; "{name} {count}{flags}")?)
}

/// A call in words: its name, the branch's identifier or the count, and its flags.
pub fn call_text(alloc: Global, call: &Call) -> Result<String, Memory>
    ensures { IfOk result (λ text. string_bytes text ≡ call_text call.now) }
{
    match call {
        Call::OpenRm => Ok(String::from_str(alloc, CallKind::OpenRm.name())?),
        Call::CloseRm => Ok(String::from_str(alloc, CallKind::CloseRm.name())?),
        Call::Start { xid, join } => {
            branch_text(alloc, CallKind::Start, xid, flag_if(*join, " TMJOIN"))
        }
        Call::End { xid, fail } => {
            let flag = if *fail { " TMFAIL" } else { " TMSUCCESS" };
            branch_text(alloc, CallKind::End, xid, flag)
        }
        Call::Prepare { xid } => branch_text(alloc, CallKind::Prepare, xid, ""),
        Call::Commit { xid, one_phase } => {
            let flag = flag_if(*one_phase, " TMONEPHASE");
            branch_text(alloc, CallKind::Commit, xid, flag)
        }
        Call::Rollback { xid } => branch_text(alloc, CallKind::Rollback, xid, ""),
        Call::Forget { xid } => branch_text(alloc, CallKind::Forget, xid, ""),
        Call::Recover {
            count,
            start_scan,
            end_scan,
        } => recover_text(alloc, *count, *start_scan, *end_scan),
    }
}

/// How many branches there are, and their identifiers.
fn owed_text(alloc: Global, xids: &[Xid]) -> Result<String, Memory>
    ensures { IfOk result (λ text. string_bytes text ≡ owed_text xids.now) }
{
    let count = xids.len();
    let mut text = format!(in alloc; "owed {count}")?;
    push_xids(&mut text, alloc, xids)?;
    Ok(text)
}

/// A call that was answered, by its name, and the number of the answer.
#[tactic(auto, using(xa_files::proofs::Pieces::four_pieces))]
fn heard_text(alloc: Global, kind: CallKind, number: i128) -> Result<String, Memory>
    ensures { IfOk result (λ text. string_bytes text ≡ heard_text kind number) }
{
    let name = kind.name();
    Ok(format!(in alloc; "heard {name} {number}")?)
}

/// How the session stands.
#[tactic(auto, using(xa_files::proofs::Pieces::four_pieces))]
fn status_text(alloc: Global, up: bool, happened: usize) -> Result<String, Memory>
    ensures { IfOk result (λ text. string_bytes text ≡ status_text up happened) }
{
    let standing = if up { "up" } else { "down" };
    Ok(format!(in alloc; "status {standing} {happened}")?)
}

/// A fault in words.
fn fault_text(fault: RequestFault) -> &'static str
    ensures { result.now ≡ error_text fault }
{
    match fault {
        RequestFault::NoRequest => "error not a request",
        RequestFault::NothingWaits => "error nothing waits",
        RequestFault::OtherCall => "error another call waits first",
        RequestFault::NoSuchAnswer => "error no such answer",
        RequestFault::NoSuchState => "error the branch is in no such state",
    }
}

/// A word, or two, and a call.
fn with_call(alloc: Global, word: &str, call: &Call) -> Result<String, Memory>
    ensures { IfOk result (λ text. string_bytes text ≡ word.now ++ call_text call.now) }
{
    let call = call_text(alloc, call)?;
    Ok(format!(in alloc; "{word}{call}")?)
}

/// The line of a reply, without its line feed.
pub fn response_text(alloc: Global, response: &Response) -> Result<String, Memory>
    ensures { IfOk result (λ text. string_bytes text ≡ response_text response.now) }
{
    match response {
        Response::Restarted {
            incarnation,
            decisions,
            heuristics,
        } => restarted_text(alloc, *incarnation, *decisions, *heuristics),
        Response::Begun(gtrid) => begun_text(alloc, *gtrid),
        Response::Issued(call) => with_call(alloc, "issued ", call),
        Response::Heard { kind, number } => heard_text(alloc, *kind, *number),
        Response::Waits(call) => with_call(alloc, "waits ", call),
        Response::Nothing => Ok(String::from_str(alloc, "nothing")?),
        Response::Decided => Ok(String::from_str(alloc, "decided")?),
        Response::Claimed => Ok(String::from_str(alloc, "claimed")?),
        Response::Noted => Ok(String::from_str(alloc, "noted")?),
        Response::Resolved(calls) => Ok(format!(in alloc; "resolved {calls}")?),
        Response::Owed(xids) => owed_text(alloc, xids.as_slice()),
        Response::Crashed => Ok(String::from_str(alloc, "crashed")?),
        Response::Status { up, happened } => status_text(alloc, *up, *happened),
        Response::Bye => Ok(String::from_str(alloc, "bye")?),
        Response::Refused(refusal) => refused_text(alloc, *refusal),
        Response::Fault(fault) => Ok(String::from_str(alloc, fault_text(*fault))?),
    }
}
