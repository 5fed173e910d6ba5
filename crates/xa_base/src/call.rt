//! Calls to a resource manager (XA, chapter 5, Reference Manual Pages).
ghost use Rattle.std.specs.Prelude.{◌≡◌, false, IfErr};
ghost use Rattle.std.specs.Option.{option_copied};
ghost use Rattle.std.specs.Result.{result_ok};
ghost use Rattle.xa_base.specs.Call.{flags_of};
ghost use Rattle.xa_base.specs.declared.code.Code.TheVariants.{Invalid};

use crate::flags::WHOLE_SCAN;
use crate::{
    Code, TMENDRSCAN, TMFAIL, TMJOIN, TMNOFLAGS, TMONEPHASE, TMSTARTRSCAN, TMSUCCESS, Xid,
};

/// A call to a resource manager, with its flags and all that it is given (XA, chapter 5).
/// It names branches by X.
#[derive(PartialEq, Eq, Drop)]
pub enum Call<X = Xid> {
    /// xa_open.
    OpenRm,
    /// xa_close.
    CloseRm,
    /// xa_start, with TMJOIN if `join`.
    Start {
        xid: X,
        join: bool,
    },
    /// xa_end, with TMFAIL if `fail`, else with TMSUCCESS.
    End {
        xid: X,
        fail: bool,
    },
    /// xa_prepare.
    Prepare {
        xid: X,
    },
    /// xa_commit, with TMONEPHASE if `one_phase`.
    Commit {
        xid: X,
        one_phase: bool,
    },
    /// xa_rollback.
    Rollback {
        xid: X,
    },
    /// xa_forget.
    Forget {
        xid: X,
    },
    /// xa_recover of at most `count` branches, with TMSTARTRSCAN if `start_scan` and TMENDRSCAN if
    /// `end_scan`. A negative count makes a call too, to which the resource manager answers
    /// XAER_INVAL.
    Recover {
        count: i64,
        start_scan: bool,
        end_scan: bool,
    },
}

/// The name of a call, without its flags.
#[derive(Clone, Copy, Debug, PartialEq, Eq)]
pub enum CallKind {
    OpenRm,
    CloseRm,
    Start,
    End,
    Prepare,
    Commit,
    Rollback,
    Forget,
    Recover,
}

impl CallKind {
    ghost use Rattle.xa_base.specs.Call.{kind_name};

    /// The name of the call in XA (chapter 5).
    pub fn name(self) -> &'static str
        ensures { result.now ≡ kind_name self }
    {
        match self {
            CallKind::OpenRm => "xa_open",
            CallKind::CloseRm => "xa_close",
            CallKind::Start => "xa_start",
            CallKind::End => "xa_end",
            CallKind::Prepare => "xa_prepare",
            CallKind::Commit => "xa_commit",
            CallKind::Rollback => "xa_rollback",
            CallKind::Forget => "xa_forget",
            CallKind::Recover => "xa_recover",
        }
    }
}

impl Call {
    ghost use Rattle.xa_base.specs.Call.{call_with, xid_in};

    /// The call of these parts. No memory is taken.
    ///
    /// XAER_INVAL if this kind of call doesn't take these flags (XA, section 4.4), needs an
    /// identifier and has none, or takes none and has one; likewise with the count. A negative
    /// count is no fault here: it makes a call, and the resource manager answers XAER_INVAL to it.
    pub fn of(
        kind: CallKind,
        xid: Option<Xid>,
        flags: u32,
        count: Option<i64>,
    ) -> Result<Call, Code>
        ensures made { result_ok result ≡ call_with kind xid flags count }
        ensures refused { IfErr result (λ code. code ≡ Invalid) }
    {
        Call::with(kind, xid, flags, count)
    }

    /// The call's flags, as one word (XA, section 4.4).
    pub fn flags(&self) -> u32
        ensures { result ≡ flags_of self.now }
    {
        flags_of(self)
    }

    /// The identifier of the branch that the call names, if it names one.
    pub fn xid(&self) -> Option<&Xid>
        ensures { option_copied result ≡ xid_in self.now }
    {
        match self {
            Call::Start { xid, .. }
            | Call::End { xid, .. }
            | Call::Prepare { xid }
            | Call::Commit { xid, .. }
            | Call::Rollback { xid }
            | Call::Forget { xid } => Some(xid),
            Call::OpenRm | Call::CloseRm | Call::Recover { .. } => None,
        }
    }

    /// The same call. No memory is taken.
    pub fn copy(&self) -> Call
        ensures { result ≡ self.now }
    {
        match self {
            Call::OpenRm => Call::OpenRm,
            Call::CloseRm => Call::CloseRm,
            Call::Start { xid, join } => Call::Start {
                xid: xid.copy(),
                join: *join,
            },
            Call::End { xid, fail } => Call::End {
                xid: xid.copy(),
                fail: *fail,
            },
            Call::Prepare { xid } => Call::Prepare { xid: xid.copy() },
            Call::Commit { xid, one_phase } => Call::Commit {
                xid: xid.copy(),
                one_phase: *one_phase,
            },
            Call::Rollback { xid } => Call::Rollback { xid: xid.copy() },
            Call::Forget { xid } => Call::Forget { xid: xid.copy() },
            Call::Recover {
                count,
                start_scan,
                end_scan,
            } => Call::Recover {
                count: *count,
                start_scan: *start_scan,
                end_scan: *end_scan,
            },
        }
    }
}

impl<X> Call<X> {
    ghost use Rattle.xa_base.specs.Call.{are_alike, kind_of};
    ghost use Rattle.xa_base.specs.declared.call.Call.TheVariants as Calls;

    /// xa_start of a new branch, without TMJOIN.
    pub fn start(xid: X) -> Call<X>
        ensures { result ≡ Calls.Start xid false }
    {
        Call::Start { xid, join: false }
    }

    /// xa_end with TMSUCCESS.
    pub fn end(xid: X) -> Call<X>
        ensures { result ≡ Calls.End xid false }
    {
        Call::End { xid, fail: false }
    }

    /// xa_commit of a prepared branch, without TMONEPHASE.
    pub fn commit(xid: X) -> Call<X>
        ensures { result ≡ Calls.Commit xid false }
    {
        Call::Commit {
            xid,
            one_phase: false,
        }
    }

    /// The name of the call, without its flags.
    pub fn kind(&self) -> CallKind
        ensures { result ≡ kind_of self.now }
    {
        match self {
            Call::OpenRm => CallKind::OpenRm,
            Call::CloseRm => CallKind::CloseRm,
            Call::Start { .. } => CallKind::Start,
            Call::End { .. } => CallKind::End,
            Call::Prepare { .. } => CallKind::Prepare,
            Call::Commit { .. } => CallKind::Commit,
            Call::Rollback { .. } => CallKind::Rollback,
            Call::Forget { .. } => CallKind::Forget,
            Call::Recover { .. } => CallKind::Recover,
        }
    }

    /// Whether the call has this name.
    pub fn is_of_kind(&self, kind: CallKind) -> bool
        ensures { result ≡ are_alike (kind_of self.now) kind }
    {
        self.kind() == kind
    }
}

impl<X: Drop> Call<X> {
    ghost use Rattle.xa_base.specs.Call.{call_with};

    /// The same, if X names the branch.
    pub fn with(
        kind: CallKind,
        xid: Option<X>,
        flags: u32,
        count: Option<i64>,
    ) -> Result<Call<X>, Code>
        ensures made { result_ok result ≡ call_with kind xid flags count }
        ensures refused { IfErr result (λ code. code ≡ Invalid) }
    {
        let call = match (kind, xid, count) {
            (CallKind::OpenRm, None, None) => Call::OpenRm,
            (CallKind::CloseRm, None, None) => Call::CloseRm,
            (CallKind::Start, Some(xid), None) => Call::Start {
                xid,
                join: flags == TMJOIN,
            },
            (CallKind::End, Some(xid), None) => Call::End {
                xid,
                fail: flags == TMFAIL,
            },
            (CallKind::Prepare, Some(xid), None) => Call::Prepare { xid },
            (CallKind::Commit, Some(xid), None) => Call::Commit {
                xid,
                one_phase: flags == TMONEPHASE,
            },
            (CallKind::Rollback, Some(xid), None) => Call::Rollback { xid },
            (CallKind::Forget, Some(xid), None) => Call::Forget { xid },
            (CallKind::Recover, None, Some(count)) => Call::Recover {
                count,
                start_scan: flags == TMSTARTRSCAN || flags == WHOLE_SCAN,
                end_scan: flags == TMENDRSCAN || flags == WHOLE_SCAN,
            },
            _ => return Err(Code::Invalid),
        };
        if flags_of(&call) == flags {
            Ok(call)
        } else {
            Err(Code::Invalid)
        }
    }
}

/// The flags of a call, as one word.
pub(crate) fn flags_of<X>(call: &Call<X>) -> u32
    ensures { result ≡ flags_of call.now }
{
    match call {
        Call::Start { join: true, .. } => TMJOIN,
        Call::End { fail: false, .. } => TMSUCCESS,
        Call::End { fail: true, .. } => TMFAIL,
        Call::Commit {
            one_phase: true,
            ..
        } => TMONEPHASE,
        Call::Recover {
            start_scan,
            end_scan,
            ..
        } => match (start_scan, end_scan) {
            (false, false) => TMNOFLAGS,
            (false, true) => TMENDRSCAN,
            (true, false) => TMSTARTRSCAN,
            (true, true) => WHOLE_SCAN,
        },
        _ => TMNOFLAGS,
    }
}
