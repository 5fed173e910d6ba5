//! The first words of requests.

ghost use Rattle.std.specs.Prelude.{◌≡◌};
ghost use Rattle.xa_requests.specs.Verbs.{verb_named};

/// The kinds of requests.
#[derive(Clone, Copy, Debug, PartialEq, Eq)]
pub(crate) enum Verb {
    Begin,
    Issue,
    Answer,
    Decide,
    Claim,
    Settle,
    Abandon,
    Done,
    Resolve,
    ResolveOpen,
    Waiting,
    Owed,
    Crash,
    Status,
    Quit,
}

/// The kind of a request, by its first word.
pub(crate) fn verb_named(word: &str) -> Option<Verb>
    ensures { result ≡ verb_named word.now }
{
    match word {
        "begin" => Some(Verb::Begin),
        "issue" => Some(Verb::Issue),
        "answer" => Some(Verb::Answer),
        "decide" => Some(Verb::Decide),
        "claim" => Some(Verb::Claim),
        "settle" => Some(Verb::Settle),
        "abandon" => Some(Verb::Abandon),
        "done" => Some(Verb::Done),
        "resolve" => Some(Verb::Resolve),
        "resolve-open" => Some(Verb::ResolveOpen),
        "waiting" => Some(Verb::Waiting),
        "owed" => Some(Verb::Owed),
        "crash" => Some(Verb::Crash),
        "status" => Some(Verb::Status),
        "quit" => Some(Verb::Quit),
        _ => None,
    }
}
