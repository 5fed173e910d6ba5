//! Replies to steps, and the events that steps and replies make.

use crate::{Answer, Call, Gtrid, Refusal, Step, Xid};

/// What the system replies to a step.
#[derive(Drop)]
pub enum Reply<X = Xid> {
    /// A transaction was begun.
    Begun(Gtrid),
    /// The call waits on its line.
    Issued,
    /// The resource manager took this call and gave this answer.
    Took(Call<X>, Answer<X>),
    /// The manager heard this answer to this call.
    Heard(Call<X>, Answer<X>),
    /// Nothing waits on the line.
    Nothing,
    /// It is done.
    Noted,
    /// The transaction is claimed.
    Claimed,
    /// The transaction is decided.
    Decided,
    /// So many calls were issued.
    Resolved(usize),
    /// The part has crashed.
    Crashed,
    /// The resource manager is up.
    RmRestarted,
    /// The manager is up in this incarnation, with so many rows of either kind in its log.
    Restarted {
        incarnation: u64,
        decisions: usize,
        heuristics: usize,
    },
    /// The step was refused.
    Refused(Refusal),
}

/// A step and its reply.
#[derive(Drop)]
pub struct Event {
    pub step: Step,
    pub reply: Reply,
}
