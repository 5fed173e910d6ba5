//! The requests to make calls.

ghost use Rattle.std.specs.Prelude.{◌≡◌, map};
ghost use Rattle.xa_requests.specs.Calls.{bare_call, branch_call, call_behind, call_in, flags_in, issue_request, recover_call, scan_flags};

use crate::names::branch_named;
use crate::request::Request;
use xa_base::{Call, CallKind, TMENDRSCAN, TMNOFLAGS, TMSTARTRSCAN};
use xa_files::{call_named, flag_named, index_of, integer_of};

/// The flags of a whole scan, if these are they.
fn scan_flags(start: &str, end: &str) -> Option<u32>
    ensures { result ≡ scan_flags start.now end.now }
{
    if start == "TMSTARTRSCAN" && end == "TMENDRSCAN" {
        Some(TMSTARTRSCAN + TMENDRSCAN)
    } else {
        None
    }
}

/// The flags that the words name: none, one, or the two of a whole scan.
fn flags_in(words: &[&str]) -> Option<u32>
    ensures { result ≡ flags_in (map (λ word. word.now) words.now) }
{
    match words {
        [] => Some(TMNOFLAGS),
        [flag] => flag_named(flag),
        [start, end] => scan_flags(start, end),
        _ => None,
    }
}

/// A call on no branch: its flags.
fn bare_call(kind: CallKind, words: &[&str]) -> Option<Call>
    ensures { result ≡ bare_call kind (map (λ word. word.now) words.now) }
{
    let flags = flags_in(words)?;
    Call::of(kind, None, flags, None).ok()
}

/// A call on a branch: the branch and the flags.
#[tactic(auto, unfolding(crate::specs::Calls::branch_call))]
fn branch_call(kind: CallKind, thread: u32, rm: u32, words: &[&str]) -> Option<Call>
    ensures { result ≡ branch_call kind thread rm (map (λ word. word.now) words.now) }
{
    let [branch, flags @ ..] = words else {
        return None;
    };
    let xid = branch_named(thread, rm, branch)?;
    let flags = flags_in(flags)?;
    Call::of(kind, Some(xid), flags, None).ok()
}

/// An xa_recover: its count and its flags.
#[tactic(auto, unfolding(crate::specs::Calls::recover_call))]
fn recover_call(words: &[&str]) -> Option<Call>
    ensures { result ≡ recover_call (map (λ word. word.now) words.now) }
{
    let [count, flags @ ..] = words else {
        return None;
    };
    let count = integer_of(count)?;
    let flags = flags_in(flags)?;
    Call::of(CallKind::Recover, None, flags, Some(count)).ok()
}

/// The call of a kind, by the words after its name.
fn call_behind(kind: CallKind, thread: u32, rm: u32, words: &[&str]) -> Option<Call>
    ensures { result ≡ call_behind kind thread rm (map (λ word. word.now) words.now) }
{
    match kind {
        CallKind::OpenRm | CallKind::CloseRm => bare_call(kind, words),
        CallKind::Recover => recover_call(words),
        CallKind::Start
        | CallKind::End
        | CallKind::Prepare
        | CallKind::Commit
        | CallKind::Rollback
        | CallKind::Forget => branch_call(kind, thread, rm, words),
    }
}

/// The call that the words name on the line of a thread to a resource manager.
#[tactic(auto, unfolding(crate::specs::Calls::call_in))]
fn call_in(thread: u32, rm: u32, words: &[&str]) -> Option<Call>
    ensures { result ≡ call_in thread rm (map (λ word. word.now) words.now) }
{
    let [name, words @ ..] = words else {
        return None;
    };
    let kind = call_named(name)?;
    call_behind(kind, thread, rm, words)
}

/// What `issue` asks for.
#[tactic(auto, unfolding(crate::specs::Calls::issue_request))]
pub(crate) fn issue_request(words: &[&str]) -> Option<Request>
    ensures { result ≡ issue_request (map (λ word. word.now) words.now) }
{
    let [thread, rm, words @ ..] = words else {
        return None;
    };
    let thread = index_of(thread)?;
    let rm = index_of(rm)?;
    let call = call_in(thread, rm, words)?;
    Some(Request::Issue { thread, rm, call })
}
