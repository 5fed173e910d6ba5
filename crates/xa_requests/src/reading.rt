//! How a line of the driver is read.

ghost use Rattle.std.specs.Prelude.{◌≡◌, map, IfOk};
ghost use Rattle.xa_requests.specs.Requests.{request_in, request_of, request_with};

use crate::answers::answer_request;
use crate::calls::issue_request;
use crate::decisions::{
    abandon_request, begin_request, claim_request, decide_request, done_request, settle_request,
};
use crate::recoveries::{
    bare_request, crash_request, owed_request, resolve_open_request, resolve_request,
    waiting_request,
};
use crate::request::Request;
use crate::verbs::{Verb, verb_named};
use crate::words::words_of;
use std::alloc::{AllocError, Global};
use xa_base::Memory;

/// What a request of a kind asks for, by the words after the first.
fn request_with(alloc: Global, verb: Verb, words: &[&str]) -> Result<Option<Request>, AllocError>
    ensures { IfOk result (λ request. request
        ≡ request_with verb (map (λ word. word.now) words.now)) }
{
    match verb {
        Verb::Begin => Ok(begin_request(words)),
        Verb::Issue => Ok(issue_request(words)),
        Verb::Answer => answer_request(alloc, words),
        Verb::Decide => decide_request(alloc, words),
        Verb::Claim => Ok(claim_request(words)),
        Verb::Settle => Ok(settle_request(words)),
        Verb::Abandon => Ok(abandon_request(words)),
        Verb::Done => done_request(alloc, words),
        Verb::Resolve => Ok(resolve_request(words)),
        Verb::ResolveOpen => Ok(resolve_open_request(words)),
        Verb::Waiting => Ok(waiting_request(words)),
        Verb::Owed => Ok(owed_request(words)),
        Verb::Crash => Ok(crash_request(words)),
        Verb::Status => Ok(bare_request(Request::Status, words)),
        Verb::Quit => Ok(bare_request(Request::Quit, words)),
    }
}

/// What the words of a line ask for.
#[tactic(auto, unfolding(crate::specs::Requests::request_in))]
fn request_in(alloc: Global, words: &[&str]) -> Result<Option<Request>, AllocError>
    ensures { IfOk result (λ request. request ≡ request_in (map (λ word. word.now) words.now)) }
{
    let [verb, words @ ..] = words else {
        return Ok(None);
    };
    match verb_named(verb) {
        Some(verb) => request_with(alloc, verb, words),
        None => Ok(None),
    }
}

/// What a line of the driver, without its line feed, asks for; none, if it is no request.
///
/// A line is words with one space between any two. Each request has one spelling, but that a
/// transaction may stand for its branch of the line's thread and resource manager, and TMNOFLAGS if
/// no flag has to stand.
pub fn read_request(alloc: Global, line: &str) -> Result<Option<Request>, Memory>
    ensures { IfOk result (λ request. request ≡ request_of line.now) }
{
    let words = words_of(alloc, line)?;
    Ok(request_in(alloc, words.as_slice())?)
}
