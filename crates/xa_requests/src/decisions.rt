//! The requests that begin and end transactions.

ghost use Rattle.std.specs.Prelude.{◌≡◌, map, IfOk};
ghost use Rattle.xa_requests.specs.Decisions.{abandon_request, begin_request, claim_request, decide_request, done_request, only_gtrid, settle_request, some_gtrids};

use crate::names::{gtrid_named, gtrids_named};
use crate::request::{Gtrids, Request};
use std::alloc::{AllocError, Global};
use xa_base::Gtrid;
use xa_files::{index_of, outcome_named};

/// What `begin` asks for.
pub(crate) fn begin_request(words: &[&str]) -> Option<Request>
    ensures { result ≡ begin_request (map (λ word. word.now) words.now) }
{
    let [thread] = words else {
        return None;
    };
    let thread = index_of(thread)?;
    Some(Request::Begin { thread })
}

/// The transactions that the words name, one or more.
fn some_gtrids(alloc: Global, words: &[&str]) -> Result<Option<Gtrids>, AllocError>
    ensures { IfOk result (λ gtrids. gtrids
        ≡ some_gtrids (map (λ word. word.now) words.now)) }
{
    if words.is_empty() {
        return Ok(None);
    }
    gtrids_named(alloc, words)
}

/// What `decide` asks for: one transaction or more, and after them how they end.
#[tactic(auto, unfolding(crate::specs::Decisions::decide_request))]
pub(crate) fn decide_request(alloc: Global, words: &[&str]) -> Result<Option<Request>, AllocError>
    ensures { IfOk result (λ request. request
        ≡ decide_request (map (λ word. word.now) words.now)) }
{
    let [gtrids @ .., outcome] = words else {
        return Ok(None);
    };
    let Some(outcome) = outcome_named(outcome) else {
        return Ok(None);
    };
    let Some(gtrids) = some_gtrids(alloc, gtrids)? else {
        return Ok(None);
    };
    Ok(Some(Request::Decide { gtrids, outcome }))
}

/// The transaction that the only word names.
fn only_gtrid(words: &[&str]) -> Option<Gtrid>
    ensures { result ≡ only_gtrid (map (λ word. word.now) words.now) }
{
    let [gtrid] = words else {
        return None;
    };
    gtrid_named(gtrid)
}

/// What `claim` asks for.
pub(crate) fn claim_request(words: &[&str]) -> Option<Request>
    ensures { result ≡ claim_request (map (λ word. word.now) words.now) }
{
    let gtrid = only_gtrid(words)?;
    Some(Request::Claim { gtrid })
}

/// What `settle` asks for.
pub(crate) fn settle_request(words: &[&str]) -> Option<Request>
    ensures { result ≡ settle_request (map (λ word. word.now) words.now) }
{
    let gtrid = only_gtrid(words)?;
    Some(Request::Settle { gtrid })
}

/// What `abandon` asks for.
pub(crate) fn abandon_request(words: &[&str]) -> Option<Request>
    ensures { result ≡ abandon_request (map (λ word. word.now) words.now) }
{
    let gtrid = only_gtrid(words)?;
    Some(Request::Abandon { gtrid })
}

/// What `done` asks for: one transaction or more.
pub(crate) fn done_request(alloc: Global, words: &[&str]) -> Result<Option<Request>, AllocError>
    ensures { IfOk result (λ request. request
        ≡ done_request (map (λ word. word.now) words.now)) }
{
    Ok(match some_gtrids(alloc, words)? {
        Some(gtrids) => Some(Request::Done { gtrids }),
        None => None,
    })
}
