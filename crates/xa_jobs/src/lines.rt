//! What a run prints.

ghost use Rattle.std.specs.Prelude.{◌≡◌, ◌⊎◌, IfErr, IfOk, OnOk};
ghost use Rattle.std.specs.Io.KnownBytes.{Appends, Keeps};
ghost use Rattle.xa_files.specs.Outputs.{AppendsBeginning};
ghost use Rattle.xa_files.specs.declared.fault.RunFault.TheVariants.{Memory, Output};
ghost use Rattle.xa_jobs.specs.Lines.{end_lines, end_text};

use std::alloc::Global;
use std::io::Write;
use xa_base::Outcome;
use xa_files::{RunFault, write_text};

/// How a job ended, in words.
fn end_text(end: Outcome) -> &'static str
    ensures { result.now ≡ end_text end }
{
    match end {
        Outcome::Commit => "committed",
        Outcome::Rollback => "rolled-back",
    }
}

/// A line for each job: its number, from 1, and how it ended.
fn end_lines(alloc: Global, ends: &[Outcome]) -> Result<Vec<u8>, RunFault>
    ensures lines { IfOk result (λ lines. lines.items ≡ end_lines ends.now) }
    ensures fault { IfErr result (λ e. e ≡ Memory) }
{
    let mut lines = Vec::new(alloc);
    for (i, end) in ends.iter().enumerate() {
        writeln!(lines, "job {} {}", i + 1, end_text(*end)).map_err(|_| RunFault::Memory)?;
    }
    Ok(lines)
}

/// Prints a line for each job: its number, from 1, and how it ended.
pub(crate) fn print_ends<W: Write>(
    alloc: Global,
    ends: &[Outcome],
    out: &mut W,
) -> Result<(), RunFault>
    ensures lines { OnOk result (Appends (W.contents out.old) (W.contents out.new)
        (end_lines ends.now)) }
    ensures begun { IfErr result (λ e. e ≡ Output →
        AppendsBeginning (W.contents out.old) (W.contents out.new) (end_lines ends.now)) }
    ensures memory { IfErr result (λ e. e ≡ Memory
        → Keeps (W.contents out.old) (W.contents out.new)) }
    ensures fault { IfErr result (λ e. (e ≡ Memory) ⊎ (e ≡ Output)) }
{
    let lines = end_lines(alloc, ends)?;
    write_text(&lines, out)
}
