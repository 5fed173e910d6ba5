//! The ends of branches that are left to the recovery of their resource manager.

ghost use Rattle.std.specs.Prelude.{◌≡◌, true};
ghost use Rattle.xa_conduct.specs.Plain.{is_plain_call};

use crate::plan::name_of;
use xa_base::{Branch, Call};

/// The call by which a branch is to be ended, later.
#[derive(Clone, Copy, Debug, PartialEq, Eq)]
pub(crate) enum Due {
    Commit,
    Rollback,
    Forget,
}

/// The end of a branch that is left to the recovery of its resource manager.
#[derive(Clone, Copy, Debug)]
pub(crate) struct Debt {
    pub branch: Branch,
    pub due: Due,
}

/// The call that pays a debt.
pub(crate) fn call_for(debt: &Debt) -> Call
    ensures { is_plain_call result ≡ true }
{
    let xid = name_of(debt.branch);
    match debt.due {
        Due::Commit => Call::Commit {
            xid,
            one_phase: false,
        },
        Due::Rollback => Call::Rollback { xid },
        Due::Forget => Call::Forget { xid },
    }
}
