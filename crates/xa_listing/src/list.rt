//! The list of a log, over any log and any writer.

ghost use Rattle.std.specs.Prelude.{◌≡◌, ◌≢◌, IfErr, OnOk};
ghost use Rattle.std.specs.Io.KnownBytes.{Keeps};
ghost use Rattle.xa_files.specs.declared.fault.RunFault.TheVariants.{Output};
ghost use Rattle.xa_listing.specs.Faults.{IsListFault};
ghost use Rattle.xa_listing.specs.Looks.{OnlyLooks};
ghost use Rattle.xa_listing.specs.Texts.{BeginsLog, PrintsLog};
ghost use Rattle.xa_log.specs.Contract.{Honestly};

use crate::faults::run_fault;
use crate::lines::rows_text;
use std::io::Write;
use xa_files::{RunFault, write_text};
use xa_log::DecisionLog;

/// Prints a line for each transaction that is decided to commit, with how many branches it waits for,
/// as in `00000000000000010000000000000001 2`; and then one for each branch that is recorded as
/// heuristic, with its fate (XA, section 2.3.3, Heuristic Branch Completion). Both are in the order of
/// the identifiers.
///
/// What it asks of the log changes nothing. Log comes where the log fails, and Memory where a request
/// was refused; nothing is written in either case. Output comes where a write failed: what was written
/// before it is left, and is a beginning of what is printed otherwise.
pub fn list_log<L: DecisionLog, W: Write>(log: &mut L, out: &mut W) -> Result<(), RunFault>
    ensures prints { Honestly (L.moment log.old) (L.moment log.new)
        (OnOk result (PrintsLog (L.moment log.old).content (W.contents out.old)
        (W.contents out.new))) }
    ensures begun { Honestly (L.moment log.old) (L.moment log.new)
        (IfErr result (λ e. e ≡ Output → BeginsLog (L.moment log.old).content (W.contents out.old)
        (W.contents out.new))) }
    ensures unwritten { IfErr result (λ e. e ≢ Output →
        Keeps (W.contents out.old) (W.contents out.new)) }
    ensures fault { IfErr result IsListFault }
    ensures looks { OnlyLooks L.DecisionLog log.old log.new result }
{
    let rows = log.rows().map_err(run_fault)?;
    let text = rows_text(&rows)?;
    write_text(text.as_bytes(), out)
}
