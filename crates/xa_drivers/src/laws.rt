//! That the rules of a driver suffice. These functions do nothing: each contract is a theorem.

ghost use Rattle.xa_drivers.specs.Deeds.{StandByOwnDeeds};
ghost use Rattle.xa_drivers.specs.Faithful.{DriversSuffice};
ghost use Rattle.xa_drivers.specs.Sessions.{DrivenAreServed, DrivenAreServedFor, DrivenSessionsAgree};
ghost use Rattle.xa_drivers.specs.Sessions.{DrivenSessionsGoOn, DrivenTransactionsAgree};
ghost use Rattle.xa_drivers.specs.Sessions.{DriversSufficeFor};
ghost use Rattle.xa_drivers.specs.Worked.{CoordinatorsAreMisled, FaithfulDriversAreThere};
ghost use Rattle.xa_drivers.specs.Worked.{RulesRefuseOthers};

use xa_log::DecisionLog;
use xa_server::laws::{served_sessions_agree, served_transactions_agree, sessions_go_on};

/// Where a branch stands depends on its own deeds alone (`own`). So how the deeds of one branch
/// stand in a list to those of another is nothing to where they are left.
pub fn branches_stand_by_own_deeds()
    ensures { StandByOwnDeeds }
{}

/// If a driver is faithful in a session (`IsFaithful`) and its databases obey the branch state
/// table (`ObeyTable`), the branches stand where the theorem of sessions supposes that they do.
///
/// - `all`: all of them do;
/// - `each`: those of one transaction do, if the databases obey the table as far as these go.
pub fn drivers_suffice()
    ensures all { DriversSuffice }
    ensures each { DriversSufficeFor }
{}

/// So databases agree through sessions of faithful drivers, one after another over one log
/// (`AreDriven`). Nothing is supposed of where branches stand: only what drivers and databases do.
///
/// - `served`: such sessions are of those that
///   [`served_sessions_agree`](xa_server::laws::served_sessions_agree) speaks of, and all that it
///   says holds of them;
/// - `agree`: no branch of any transaction is committed beside one that is rolled back or lost.
pub fn driven_sessions_agree<L: DecisionLog + Drop>()
    ensures served { DrivenAreServed L.moment }
    ensures agree { DrivenSessionsAgree L.moment }
{
    drivers_suffice();
    served_sessions_agree::<L>();
}

/// The same of sessions of which each has a log of a type of its own, as the processes have that
/// open the files at one path: a session of a faithful driver goes on from what was left
/// (`HaveLeft`).
pub fn driven_sessions_go_on<L: DecisionLog + Drop>()
    ensures { DrivenSessionsGoOn L.moment }
{
    drivers_suffice();
    sessions_go_on::<L>();
}

/// And each transaction agrees for itself (`AreDrivenFor`): the databases are supposed to obey the
/// table only as far as its branches go.
///
/// - `served`: such sessions are of those that
///   [`served_transactions_agree`](xa_server::laws::served_transactions_agree) speaks of;
/// - `agree`: none of its branches is committed beside one that is rolled back or lost, and the log
///   that is left decides of what is prepared still.
pub fn driven_transactions_agree<L: DecisionLog + Drop>()
    ensures served { DrivenAreServedFor L.moment }
    ensures agree { DrivenTransactionsAgree L.moment }
{
    drivers_suffice();
    served_transactions_agree::<L>();
}

/// What is supposed of drivers can be met, and isn't met by others.
///
/// - `there`: a driver that is faithful over databases that obey the table, worked out: one branch
///   is committed, which isn't told yet, and the other is prepared still, its connection lost;
/// - `refused`: drivers that break one rule each aren't faithful.
pub fn faithful_drivers_are_there()
    ensures there { FaithfulDriversAreThere }
    ensures refused { RulesRefuseOthers }
{}

/// And the rules are there for a reason: drivers that break them, one for each, over databases that
/// obey the branch state table, leave branches where the theorem of sessions doesn't suppose them.
pub fn broken_rules_mislead()
    ensures { CoordinatorsAreMisled }
{}
