//! What a log asks of an operator, over any log and any writer.

ghost use Rattle.std.specs.Prelude.{◌≡◌, ◌≢◌, IfErr, OnOk};
ghost use Rattle.std.specs.Io.KnownBytes.{Keeps};
ghost use Rattle.xa_files.specs.declared.fault.RunFault.TheVariants.{Output};
ghost use Rattle.xa_listing.specs.Asks.{BeginsAsks, PrintsAsks};
ghost use Rattle.xa_listing.specs.Faults.{IsListFault};
ghost use Rattle.xa_listing.specs.Looks.{OnlyLooks};
ghost use Rattle.xa_log.specs.Contract.{Honestly};

use crate::asks::asks_text;
use crate::faults::run_fault;
use std::io::Write;
use xa_files::{RunFault, write_text};
use xa_log::DecisionLog;

/// Prints what the rows of a log ask of an operator: for each transaction that is decided to commit, the branches that
/// its row waits for; and for each branch that is recorded as heuristic, whether that contradicts a decision, and what to
/// look at (XA, section 2.3.3, Heuristic Branch Completion). The statements that commit a branch by hand name it as the manager
/// of this name does, which is empty of one without a name.
///
/// What it asks of the log changes nothing. The faults are those of `list_log`.
pub fn explain_log<L: DecisionLog, W: Write>(
    log: &mut L,
    manager: &[u8],
    out: &mut W,
) -> Result<(), RunFault>
    ensures prints { Honestly (L.moment log.old) (L.moment log.new)
        (OnOk result (PrintsAsks manager.now (L.moment log.old).content (W.contents out.old)
        (W.contents out.new))) }
    ensures begun { Honestly (L.moment log.old) (L.moment log.new)
        (IfErr result (λ e. e ≡ Output → BeginsAsks manager.now (L.moment log.old).content
        (W.contents out.old) (W.contents out.new))) }
    ensures unwritten { IfErr result (λ e. e ≢ Output →
        Keeps (W.contents out.old) (W.contents out.new)) }
    ensures fault { IfErr result IsListFault }
    ensures looks { OnlyLooks L.DecisionLog log.old log.new result }
{
    let rows = log.rows().map_err(run_fault)?;
    let text = asks_text(manager, &rows)?;
    write_text(text.as_bytes(), out)
}
