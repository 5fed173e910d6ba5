//! The rows: what is done, and how it ends if nothing stops.

use crate::rows::act::Act;
use crate::rows::act::Act::{
    Abandon, Answer, Begin, Busy, Claim, Commit, CrashManager, CrashRm, Decide, Done, End, Forget,
    Open, Prepare, Recover, Resolve, ResolveOpen, RestartManager, RestartRm, RollBackAlone,
    Rollback, Settle, Start,
};

/// A row, in parts, on one thread.
#[derive(Clone, Copy)]
pub(crate) struct Row {
    pub rms: u32,
    pub parts: &'static [&'static [Act]],
    /// Whether its transaction is committed if nothing stops.
    pub is_committed: bool,
    /// Whether a step changes the log.
    pub is_logged: bool,
}

/// One branch votes for commit.
const PREPARED_1: &[Act] = &[Begin, Open(0), Start(0), End(0), Prepare(0)];

/// Two do.
const PREPARED_2: &[Act] = &[
    Begin,
    Open(0),
    Start(0),
    End(0),
    Open(1),
    Start(1),
    End(1),
    Prepare(0),
    Prepare(1),
];

/// What is in doubt at a resource manager is listed, and ended.
const RECOVERED_AT_0: &[Act] = &[Open(0), Recover(0), Answer(0), Resolve(0), Answer(0)];

const RECOVERED_AT_1: &[Act] = &[Open(1), Recover(1), Answer(1), Resolve(1), Answer(1)];

/// The same of one branch whose line is open, and whatever isn't decided.
const OPEN_RECOVERED: &[Act] = &[Recover(0), Answer(0), ResolveOpen(0), Answer(0)];

const RESTARTED: &[Act] = &[CrashManager, RestartManager];

pub(crate) const TWO_PHASE_COMMIT: Row = Row {
    rms: 2,
    parts: &[PREPARED_2, &[Decide, Commit(0), Commit(1), Done]],
    is_committed: true,
    is_logged: true,
};

pub(crate) const DECIDED_BEFORE_CRASH: Row = Row {
    rms: 2,
    parts: &[
        PREPARED_2,
        &[Decide],
        RESTARTED,
        RECOVERED_AT_0,
        RECOVERED_AT_1,
        &[Done],
    ],
    is_committed: true,
    is_logged: true,
};

/// One answer isn't enough.
pub(crate) const ACKNOWLEDGED_LATER: Row = Row {
    rms: 2,
    parts: &[
        PREPARED_2,
        &[Decide],
        RESTARTED,
        RECOVERED_AT_0,
        &[Done],
        RECOVERED_AT_1,
        &[Done],
    ],
    is_committed: true,
    is_logged: true,
};

pub(crate) const RESOURCE_MANAGER_CRASH: Row = Row {
    rms: 2,
    parts: &[
        PREPARED_2,
        &[Decide, Commit(0), CrashRm(1), Done, RestartRm(1)],
        RECOVERED_AT_1,
        &[Done],
    ],
    is_committed: true,
    is_logged: true,
};

pub(crate) const HEURISTIC: Row = Row {
    rms: 2,
    parts: &[
        PREPARED_2,
        &[RollBackAlone(1), Decide, Commit(0), Forget(1)],
        &[Commit(1), Forget(1), Done],
    ],
    is_committed: true,
    is_logged: true,
};

pub(crate) const RETRIES: Row = Row {
    rms: 1,
    parts: &[
        PREPARED_1,
        &[Decide, Busy(0), Commit(0), Commit(0), Commit(0), Done],
        &[Commit(0), Done],
    ],
    is_committed: true,
    is_logged: true,
};

pub(crate) const OPEN_ROLLED_BACK: Row = Row {
    rms: 1,
    parts: &[PREPARED_1, OPEN_RECOVERED],
    is_committed: false,
    is_logged: false,
};

pub(crate) const CLAIMED_IS_KEPT: Row = Row {
    rms: 1,
    parts: &[
        PREPARED_1,
        &[Claim],
        OPEN_RECOVERED,
        &[Settle, Settle, Commit(0), Done],
    ],
    is_committed: true,
    is_logged: true,
};

pub(crate) const CLAIM_ENDS_WITH_CRASH: Row = Row {
    rms: 1,
    parts: &[PREPARED_1, &[Claim], RESTARTED, &[Settle], RECOVERED_AT_0],
    is_committed: false,
    is_logged: true,
};

pub(crate) const ABANDONED: Row = Row {
    rms: 1,
    parts: &[PREPARED_1, &[Claim, Abandon, Rollback(0), Settle]],
    is_committed: false,
    is_logged: false,
};
