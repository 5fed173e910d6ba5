//! Which answers a session hears.

ghost use Rattle.std.specs.Prelude.{◌≡◌};
ghost use Rattle.xa_base.specs.Answer.{map_answer};
ghost use Rattle.xa_base.specs.Call.{map_call};
ghost use Rattle.xa_model.specs.Replies.History.{name_of};
ghost use Rattle.xa_session.specs.Hearing.{can_hear, fits_row, is_at_most, is_code_on, is_ok, is_ours, is_scan_of};

use xa_base::{Answer, Call, Code, Gtrid, LAST_NUMBER, Xid};

/// Whether a transaction's numbers fit a row.
fn fits_row(g: Gtrid) -> bool
    ensures { result ≡ fits_row g }
{
    g.incarnation <= LAST_NUMBER && g.sequence <= LAST_NUMBER
}

/// Whether an identifier is one of this manager's, whose numbers fit a row.
fn is_ours(xid: &Xid) -> bool
    ensures { result ≡ is_ours (name_of xid.now) }
{
    match xid.branch() {
        Some(branch) => fits_row(branch.gtrid),
        None => false,
    }
}

/// Whether an answer is XA_OK.
fn is_ok(answer: &Answer) -> bool
    ensures { result ≡ is_ok (map_answer name_of answer.now) }
{
    matches!(answer, Answer::Ret(Code::Success))
}

/// Whether an xa_recover of so many may be answered so.
fn is_scan_of(count: i64, answer: &Answer) -> bool
    ensures { result ≡ is_scan_of count (map_answer name_of answer.now) }
{
    match answer {
        Answer::Page(page) => is_at_most(count, page.len()),
        Answer::Ret(code) => matches!(code, Code::Invalid),
    }
}

/// Whether so many are no more than were asked for.
fn is_at_most(count: i64, len: usize) -> bool
    ensures { result ≡ is_at_most count len }
{
    match usize::try_from(count) {
        Ok(most) => len <= most,
        Err(_) => false,
    }
}

/// Whether a call on a branch may be answered so.
fn is_code_on(xid: &Xid, answer: &Answer) -> bool
    ensures { result ≡ is_code_on (name_of xid.now) (map_answer name_of answer.now) }
{
    matches!(answer, Answer::Ret(_)) && is_ours(xid)
}

/// Whether such an answer may be heard to such a call.
pub(crate) fn can_hear(call: &Call, answer: &Answer) -> bool
    ensures { result ≡ can_hear (map_call name_of call.now) (map_answer name_of answer.now) }
{
    match call {
        Call::OpenRm | Call::CloseRm => is_ok(answer),
        Call::Recover { count, .. } => is_scan_of(*count, answer),
        Call::Start { xid, .. }
        | Call::End { xid, .. }
        | Call::Prepare { xid }
        | Call::Commit { xid, .. }
        | Call::Rollback { xid }
        | Call::Forget { xid } => is_code_on(xid, answer),
    }
}
