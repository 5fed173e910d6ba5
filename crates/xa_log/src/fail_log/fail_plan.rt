//! Which calls of a log fail by plan.

ghost use Rattle.std.specs.Prelude.{◌≡◌};

use crate::decision_log::LogCall;

/// Which calls of a log fail.
#[derive(Clone, Copy, Debug, PartialEq, Eq)]
pub enum FailPlan {
    /// The call of this kind with this number, counted from 1, fails. Its change is made where `made` is true.
    Once { kind: LogCall, at: u64, made: bool },
    /// Each call of this kind fails, and none makes its change.
    Every { kind: LogCall },
}

/// What a call does by a plan.
#[derive(Clone, Copy, Debug, PartialEq, Eq)]
pub(crate) enum Turn {
    /// It runs.
    Runs,
    /// It runs, and answers a failure nonetheless.
    FailsAfter,
    /// It fails, and does nothing.
    FailsBefore,
}

impl FailPlan {
    ghost use Rattle.xa_log.specs.FailPlan.{calls_after, turn_of};

    /// Counts a call where the plan counts its kind, and answers what it does. `calls` is how many were counted
    /// before.
    pub(crate) fn next_turn(self, call: LogCall, calls: &mut u64) -> Turn
        ensures turn { result ≡ turn_of self call calls.old }
        ensures calls { calls.new ≡ calls_after self call calls.old }
    {
        match self {
            FailPlan::Every { kind } if kind == call => Turn::FailsBefore,
            FailPlan::Once { kind, at, made } if kind == call => {
                *calls = calls.saturating_add(1);
                if *calls != at {
                    Turn::Runs
                } else if made {
                    Turn::FailsAfter
                } else {
                    Turn::FailsBefore
                }
            }
            _ => Turn::Runs,
        }
    }
}
