//! The flags of calls (XA, section 4.4, Flag Definitions).
//!
//! TMSUSPEND, TMRESUME, TMMIGRATE, TMMULTIPLE, TMNOWAIT and TMASYNC are taken by no call of this
//! manager.

/// No flag.
pub const TMNOFLAGS: u32 = 0;

/// xa_start: the caller joins a branch that exists.
pub const TMJOIN: u32 = 0x0020_0000;

/// xa_recover: the scan ends after the call.
pub const TMENDRSCAN: u32 = 0x0080_0000;

/// xa_recover: the scan starts at the first branch.
pub const TMSTARTRSCAN: u32 = 0x0100_0000;

/// xa_end: the caller's work on the branch is done.
pub const TMSUCCESS: u32 = 0x0400_0000;

/// xa_end: the caller's work on the branch failed, so that it can only be rolled back.
pub const TMFAIL: u32 = 0x2000_0000;

/// xa_commit: the branch is the only one of its transaction and is committed without being
/// prepared.
pub const TMONEPHASE: u32 = 0x4000_0000;

/// xa_recover: the scan is this one call.
pub(crate) const WHOLE_SCAN: u32 = TMSTARTRSCAN + TMENDRSCAN;
