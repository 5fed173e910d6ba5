//! The lines that tell what became of the branches.

ghost use Rattle.std.specs.Prelude.{◌≡◌, ◌++◌, IfErr, IfOk, OnOk};
ghost use Rattle.std.specs.String.{string_bytes};
ghost use Rattle.xa_files.specs.declared.fault.RunFault.TheVariants.{Memory};
ghost use Rattle.xa_files.specs.Fates.{fate_line, fate_lines, fate_text};

use crate::fault::RunFault;
use std::alloc::Global;
use xa_base::{Fate, How, Xid};

/// A fate in words.
pub fn fate_text(fate: Fate) -> &'static str
    ensures { result.now ≡ fate_text fate }
{
    match fate {
        Fate::Unstarted => "unstarted",
        Fate::Active => "active",
        Fate::Idle => "idle",
        Fate::Prepared => "prepared",
        Fate::RollbackOnly => "rollback-only",
        Fate::Committed => "committed",
        Fate::RolledBack => "rolled-back",
        Fate::Lost => "lost",
        Fate::ReadOnly => "read-only",
        Fate::Heuristic(How::Com) => "heuristic-com",
        Fate::Heuristic(How::Rb) => "heuristic-rb",
        Fate::Heuristic(How::Mix) => "heuristic-mix",
        Fate::Heuristic(How::Haz) => "heuristic-haz",
    }
}

/// The line of a branch: its identifier and its fate.
pub fn fate_line(alloc: Global, line: &(Xid, Fate)) -> Result<String, RunFault>
    ensures text { IfOk result (λ text. string_bytes text ≡ fate_line line.now) }
    ensures fault { IfErr result (λ e. e ≡ Memory) }
{
    let (xid, fate) = line;
    let text = xid.text(alloc)?;
    Ok(format!(in alloc; "{text} {}\n", fate_text(*fate))?)
}

/// Adds a line for each branch.
pub fn push_fates(text: &mut String, alloc: Global, fates: &[(Xid, Fate)]) -> Result<(), RunFault>
    ensures text { OnOk result (string_bytes text.new ≡ string_bytes text.old
        ++ fate_lines fates.now) }
    ensures fault { IfErr result (λ e. e ≡ Memory) }
{
    for line in fates {
        let line = fate_line(alloc, line)?;
        text.push_str(line.as_str())?;
    }
    Ok(())
}
