//! The requests of recovery, of crashes, and about the session.

ghost use Rattle.std.specs.Prelude.{◌≡◌, map};
ghost use Rattle.xa_requests.specs.Recoveries.{bare_request, crash_request, line_in_words, only_index, owed_request, resolve_open_request, resolve_request, waiting_request};

use crate::request::Request;
use xa_files::index_of;

/// The number that is the only word.
fn only_index(words: &[&str]) -> Option<u32>
    ensures { result ≡ only_index (map (λ word. word.now) words.now) }
{
    let [number] = words else {
        return None;
    };
    index_of(number)
}

/// The line of a thread to a resource manager, which are the only two words.
#[tactic(auto, unfolding(crate::specs::Recoveries::line_in_words))]
fn only_line(words: &[&str]) -> Option<(u32, u32)>
    ensures { result ≡ line_in_words (map (λ word. word.now) words.now) }
{
    let [thread, rm] = words else {
        return None;
    };
    let thread = index_of(thread)?;
    let rm = index_of(rm)?;
    Some((thread, rm))
}

/// What `resolve` asks for.
pub(crate) fn resolve_request(words: &[&str]) -> Option<Request>
    ensures { result ≡ resolve_request (map (λ word. word.now) words.now) }
{
    let rm = only_index(words)?;
    Some(Request::Resolve { rm })
}

/// What `resolve-open` asks for.
pub(crate) fn resolve_open_request(words: &[&str]) -> Option<Request>
    ensures { result ≡ resolve_open_request (map (λ word. word.now) words.now) }
{
    let rm = only_index(words)?;
    Some(Request::ResolveOpen { rm })
}

/// What `owed` asks for.
pub(crate) fn owed_request(words: &[&str]) -> Option<Request>
    ensures { result ≡ owed_request (map (λ word. word.now) words.now) }
{
    let rm = only_index(words)?;
    Some(Request::Owed { rm })
}

/// What `waiting` asks for.
pub(crate) fn waiting_request(words: &[&str]) -> Option<Request>
    ensures { result ≡ waiting_request (map (λ word. word.now) words.now) }
{
    let (thread, rm) = only_line(words)?;
    Some(Request::Waiting { thread, rm })
}

/// What `crash` asks for.
pub(crate) fn crash_request(words: &[&str]) -> Option<Request>
    ensures { result ≡ crash_request (map (λ word. word.now) words.now) }
{
    let [part, words @ ..] = words else {
        return None;
    };
    match *part {
        "line" => {
            let (thread, rm) = only_line(words)?;
            Some(Request::CrashLine { thread, rm })
        }
        "rm" => {
            let rm = only_index(words)?;
            Some(Request::CrashRm { rm })
        }
        _ => None,
    }
}

/// What a request of one word asks for.
pub(crate) fn bare_request(request: Request, words: &[&str]) -> Option<Request>
    ensures { result ≡ bare_request request (map (λ word. word.now) words.now) }
{
    if words.is_empty() {
        Some(request)
    } else {
        None
    }
}
