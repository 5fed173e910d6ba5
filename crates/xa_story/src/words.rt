//! The names that XA and the protocol give to calls, codes and states.

ghost use Rattle.std.specs.Prelude.{◌≡◌, IfOk};
ghost use Rattle.std.specs.String.{string_bytes};
ghost use Rattle.xa_story.specs.Words.{answer_name, call_name_with_flags, code_name, how_name, rb_name, standing_text, vote_text};

use std::alloc::Global;
use xa_base::{Answer, Call, Code, How, Memory, RbCode, Standing, Vote};

/// The name of a call, with those flags of it that change what it does (XA, chapter 5).
pub fn call_name(call: &Call) -> &'static str
    ensures { result.now ≡ call_name_with_flags call.now }
{
    match *call {
        Call::Start { join: true, .. } => "xa_start(TMJOIN)",
        Call::End { fail: true, .. } => "xa_end(TMFAIL)",
        Call::Commit {
            one_phase: true,
            ..
        } => "xa_commit(TMONEPHASE)",
        _ => call.kind().name(),
    }
}

/// The name of a code that tells of a rollback (XA, section 4.5, Return Codes).
pub fn rb_name(code: RbCode) -> &'static str
    ensures { result.now ≡ rb_name code }
{
    match code {
        RbCode::Rollback => "XA_RBROLLBACK",
        RbCode::CommFail => "XA_RBCOMMFAIL",
        RbCode::Deadlock => "XA_RBDEADLOCK",
        RbCode::Integrity => "XA_RBINTEGRITY",
        RbCode::Other => "XA_RBOTHER",
        RbCode::Proto => "XA_RBPROTO",
        RbCode::Timeout => "XA_RBTIMEOUT",
        RbCode::Transient => "XA_RBTRANSIENT",
    }
}

/// The name of a code that tells of a heuristic end (XA, section 4.5, Return Codes).
pub fn how_name(how: How) -> &'static str
    ensures { result.now ≡ how_name how }
{
    match how {
        How::Com => "XA_HEURCOM",
        How::Rb => "XA_HEURRB",
        How::Mix => "XA_HEURMIX",
        How::Haz => "XA_HEURHAZ",
    }
}

/// The name of a code (XA, section 4.5, Return Codes).
pub fn code_name(code: Code) -> &'static str
    ensures { result.now ≡ code_name code }
{
    match code {
        Code::RolledBack(code) => rb_name(code),
        Code::Heuristic(how) => how_name(how),
        Code::Retry => "XA_RETRY",
        Code::ReadOnly => "XA_RDONLY",
        Code::Success => "XA_OK",
        Code::RmError => "XAER_RMERR",
        Code::NotAnXid => "XAER_NOTA",
        Code::Invalid => "XAER_INVAL",
        Code::Protocol => "XAER_PROTO",
        Code::RmFailed => "XAER_RMFAIL",
        Code::DuplicateXid => "XAER_DUPID",
    }
}

/// An answer, as XA's calls return it: a code by its name, and what an xa_recover lists by its
/// count (XA, chapter 5).
pub fn answer_text(alloc: Global, answer: &Answer) -> Result<String, Memory>
    ensures { IfOk result (λ text. string_bytes text ≡ answer_name answer.now) }
{
    match answer {
        Answer::Ret(code) => Ok(String::from_str(alloc, code_name(*code))?),
        Answer::Page(page) => {
            let count = page.xids().len();
            Ok(format!(in alloc; "{count}")?)
        }
    }
}

/// Where a branch stands, in words.
pub fn standing_text(standing: Standing) -> &'static str
    ensures { result.now ≡ standing_text standing }
{
    match standing {
        Standing::Unstarted => "not started",
        Standing::Active => "active",
        Standing::Idle => "idle",
        Standing::Prepared => "prepared",
        Standing::RollbackOnly => "rollback-only",
        Standing::Completed(How::Com) => "committed by the rm itself",
        Standing::Completed(How::Rb) => "rolled back by the rm itself",
        Standing::Completed(How::Mix) => "ended in part by the rm itself",
        Standing::Completed(How::Haz) => "perhaps ended by the rm itself",
        Standing::Committed => "committed",
        Standing::RolledBack => "rolled back",
        Standing::Lost => "lost",
        Standing::ReadOnly => "over, read only",
        Standing::Forgotten(_) => "forgotten",
    }
}

/// How a resource manager is to vote.
pub fn vote_text(vote: Vote) -> &'static str
    ensures { result.now ≡ vote_text vote }
{
    match vote {
        Vote::Yes => "yes (XA_OK)",
        Vote::ReadOnly => "read-only (XA_RDONLY)",
        Vote::No(code) => rb_name(code),
    }
}
