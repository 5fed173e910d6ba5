//! `xa_log`: a decision is logged, and found again after a restart.

ghost use Rattle.std.specs.Prelude.{◌≡◌, true, IfOk};
ghost use Rattle.std.specs.List.{AllByRecursion};
ghost use Rattle.xa_log.specs.Contract.{FitsRow, Honestly};

use xa_base::{Branch, Gtrid};
use xa_log::{DecisionLog, LogFault};

/// Logs that a transaction commits, starts anew in the next incarnation, and looks: the decision is
/// there.
pub fn found_again<L: DecisionLog>(
    log: &mut L,
    g: Gtrid,
    participants: &[Branch],
) -> Result<bool, LogFault>
    requires fits { FitsRow g }
    requires own { AllByRecursion (λ b. b.gtrid ≡ g) participants.now }
    ensures { Honestly (L.moment log.old) (L.moment log.new) (IfOk result (λ found. found ≡ true)) }
{
    let _logged = log.commit(g, participants)?;
    let _incarnation = log.bump()?;
    log.contains(g)
}
