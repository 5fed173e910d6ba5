//! The requests that tell what was answered.

ghost use Rattle.std.specs.Prelude.{◌≡◌, map, IfOk};
ghost use Rattle.xa_requests.specs.Answers.{answer_behind, answer_request, bare_answer, branch_answer, page_answered, recover_answer};

use crate::names::{branch_named, xids_named};
use crate::request::{CallName, Request};
use std::alloc::{AllocError, Global};
use xa_base::{Answer, CallKind};
use xa_files::{call_named, code_named, index_of};

/// An answer to a call on no branch: a code.
#[tactic(auto, unfolding(crate::specs::Answers::bare_answer))]
fn bare_answer(kind: CallKind, words: &[&str]) -> Option<(CallName, Answer)>
    ensures { result ≡ bare_answer kind (map (λ word. word.now) words.now) }
{
    let [number] = words else {
        return None;
    };
    let code = code_named(number)?;
    Some((CallName { kind, xid: None }, Answer::Ret(code)))
}

/// An answer to a call on a branch: the branch and a code.
#[tactic(auto, unfolding(crate::specs::Answers::branch_answer))]
fn branch_answer(kind: CallKind, thread: u32, rm: u32, words: &[&str]) -> Option<(CallName, Answer)>
    ensures { result ≡ branch_answer kind thread rm (map (λ word. word.now) words.now) }
{
    let [branch, number] = words else {
        return None;
    };
    let xid = branch_named(thread, rm, branch)?;
    let code = code_named(number)?;
    Some((
        CallName {
            kind,
            xid: Some(xid),
        },
        Answer::Ret(code),
    ))
}

/// A page that lists the identifiers that the words spell.
fn page_answer(alloc: Global, words: &[&str]) -> Result<Option<(CallName, Answer)>, AllocError>
    ensures { IfOk result (λ answer. answer ≡ page_answered (map (λ word. word.now) words.now)) }
{
    Ok(match xids_named(alloc, words)? {
        Some(page) => {
            let name = CallName {
                kind: CallKind::Recover,
                xid: None,
            };
            Some((name, Answer::Page(page)))
        }
        None => None,
    })
}

/// An answer to an xa_recover: how many identifiers the page lists, and these; or a code below 0.
#[tactic(auto, unfolding(crate::specs::Answers::recover_answer))]
fn recover_answer(alloc: Global, words: &[&str]) -> Result<Option<(CallName, Answer)>, AllocError>
    ensures { IfOk result (λ answer. answer
        ≡ recover_answer (map (λ word. word.now) words.now)) }
{
    let [number, xids @ ..] = words else {
        return Ok(None);
    };
    match index_of(number) {
        None => Ok(bare_answer(CallKind::Recover, words)),
        Some(count) if count as usize == xids.len() => page_answer(alloc, xids),
        Some(_) => Ok(None),
    }
}

/// The answer to a call of a kind, by the words after its name.
fn answer_behind(
    alloc: Global,
    kind: CallKind,
    thread: u32,
    rm: u32,
    words: &[&str],
) -> Result<Option<(CallName, Answer)>, AllocError>
    ensures { IfOk result (λ answer. answer
        ≡ answer_behind kind thread rm (map (λ word. word.now) words.now)) }
{
    match kind {
        CallKind::OpenRm | CallKind::CloseRm => Ok(bare_answer(kind, words)),
        CallKind::Recover => recover_answer(alloc, words),
        CallKind::Start
        | CallKind::End
        | CallKind::Prepare
        | CallKind::Commit
        | CallKind::Rollback
        | CallKind::Forget => Ok(branch_answer(kind, thread, rm, words)),
    }
}

/// What `answer` asks for.
#[tactic(auto, unfolding(crate::specs::Answers::answer_request))]
pub(crate) fn answer_request(alloc: Global, words: &[&str]) -> Result<Option<Request>, AllocError>
    ensures { IfOk result (λ request. request
        ≡ answer_request (map (λ word. word.now) words.now)) }
{
    let [thread, rm, name, words @ ..] = words else {
        return Ok(None);
    };
    let (Some(thread), Some(rm), Some(kind)) = (index_of(thread), index_of(rm), call_named(name))
    else {
        return Ok(None);
    };
    Ok(match answer_behind(alloc, kind, thread, rm, words)? {
        Some((name, answer)) => Some(Request::Answer {
            thread,
            rm,
            name,
            answer,
        }),
        None => None,
    })
}
