//! Why a step is refused, in a sentence of the protocol's words.

use xa_base::{Call, Refusal, Step};

/// Why a step is refused.
pub fn refusal_text(step: &Step, refusal: Refusal) -> &'static str {
    match refusal {
        Refusal::ManagerDown => "the manager is down",
        Refusal::RmDown => "the resource manager is down",
        Refusal::NotOpen => "no xa_open was issued on this line since it was new",
        Refusal::Closed => "xa_close was issued on this line",
        Refusal::UnknownTransaction => "no such transaction was begun since the manager came up",
        Refusal::WrongThread => "the branch is that of another thread or resource manager",
        Refusal::AlreadyStarted => "an xa_start of the branch was accepted before",
        Refusal::Decided => "how it ends is settled already: decided, claimed or handed over",
        Refusal::NotDecided => not_decided_text(step),
        Refusal::Votes => votes_text(step),
        Refusal::Busy => busy_text(step),
        Refusal::Full => "64 calls or answers wait on the line, and it takes no more",
        Refusal::Script => "the branch isn't in a state in which this could be",
        Refusal::Limit => "there is no such thread or resource manager, or no room for more",
        Refusal::LogFault => "the log failed, and the manager is down until it is restarted",
        Refusal::Memory => "a request for memory was refused",
    }
}

/// What isn't decided yet.
fn not_decided_text(step: &Step) -> &'static str {
    match step {
        Step::Issue { call, .. } => match call {
            Call::Commit { .. } => {
                "its transaction has no row in the log, and none may be committed before it has"
            }
            Call::Rollback { .. } => "it isn't decided to roll its transaction back",
            Call::Forget { .. } => "the log has no record that the rm ended this branch by itself",
            _ => "it isn't decided",
        },
        Step::Settle { .. } | Step::Abandon { .. } => "the transaction isn't claimed",
        Step::Done { .. } => "the transaction has no row in the log",
        _ => "it isn't decided",
    }
}

/// Which vote is lacking.
fn votes_text(step: &Step) -> &'static str {
    match step {
        Step::Issue { .. } => {
            "the transaction has another branch too, and one phase is for the only branch"
        }
        _ => "not every branch has voted for commit",
    }
}

/// What isn't over yet.
fn busy_text(step: &Step) -> &'static str {
    match step {
        Step::Issue { call, .. } => match call {
            Call::CloseRm => "a branch on this line isn't finished",
            _ => "the answer to the branch's xa_start isn't heard yet",
        },
        Step::Done { .. } => "a branch of the transaction hasn't acknowledged yet",
        _ => "the manager is up",
    }
}
