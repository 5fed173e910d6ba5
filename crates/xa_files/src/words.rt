//! The words for calls, codes, outcomes, votes and flags.

ghost use Rattle.std.specs.Prelude.{◌≡◌};
ghost use Rattle.xa_files.specs.Words.{call_named, code_named, flag_named, outcome_named, vote_named};

use crate::numbers::integer_of;
use xa_base::{
    CallKind, Code, Outcome, TMENDRSCAN, TMFAIL, TMJOIN, TMNOFLAGS, TMONEPHASE, TMSTARTRSCAN,
    TMSUCCESS, Vote,
};

/// The kinds of calls.
pub const CALL_KINDS: [CallKind; 9] = [
    CallKind::OpenRm,
    CallKind::CloseRm,
    CallKind::Start,
    CallKind::End,
    CallKind::Prepare,
    CallKind::Commit,
    CallKind::Rollback,
    CallKind::Forget,
    CallKind::Recover,
];

/// The kind of a call, by its `xa`: the name that it has in XA, chapter 5.
pub fn call_named(word: &str) -> Option<CallKind>
    ensures { result ≡ call_named word.now }
{
    CALL_KINDS.iter().copied().find(|kind| kind.name() == word)
}

/// How a transaction ends.
pub fn outcome_named(word: &str) -> Option<Outcome>
    ensures { result ≡ outcome_named word.now }
{
    match word {
        "commit" => Some(Outcome::Commit),
        "rollback" => Some(Outcome::Rollback),
        _ => None,
    }
}

/// The code of a number, as it is written in decimal (XA, section 4.5, Return Codes).
#[tactic(auto, using(crate::proofs::WordLemmas::code_unread, crate::proofs::WordLemmas::code_unfit))]
pub fn code_named(word: &str) -> Option<Code>
    ensures { result ≡ code_named word.now }
{
    let number = integer_of(word)?;
    Code::from_number(i32::try_from(number).ok()?)
}

/// A vote: `ok`, `ro`, or the number of a code that tells of a rollback.
pub fn vote_named(word: &str) -> Option<Vote>
    ensures { result ≡ vote_named word.now }
{
    match word {
        "ok" => Some(Vote::Yes),
        "ro" => Some(Vote::ReadOnly),
        _ => match code_named(word)? {
            Code::RolledBack(code) => Some(Vote::No(code)),
            _ => None,
        },
    }
}

/// The value of a flag that some call takes (XA, section 4.4, Flag Definitions).
pub fn flag_named(word: &str) -> Option<u32>
    ensures { result ≡ flag_named word.now }
{
    match word {
        "TMNOFLAGS" => Some(TMNOFLAGS),
        "TMJOIN" => Some(TMJOIN),
        "TMENDRSCAN" => Some(TMENDRSCAN),
        "TMSTARTRSCAN" => Some(TMSTARTRSCAN),
        "TMSUCCESS" => Some(TMSUCCESS),
        "TMFAIL" => Some(TMFAIL),
        "TMONEPHASE" => Some(TMONEPHASE),
        _ => None,
    }
}
