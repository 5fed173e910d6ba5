//! What is told of a file that is refused.

ghost use Rattle.std.specs.Prelude.{IfOk};
ghost use Rattle.std.specs.String.{string_bytes};
ghost use Rattle.xa_diagnostics.specs.Explanations.{ReportsFirst};

use crate::diagnostic::Diagnostic;
use crate::document::FileKind;
use crate::faults::faults_of;
use crate::told::fault_line;
use std::alloc::Global;
use xa_base::Memory;
use xa_files::RunFault;

/// How many faults of a file are told, if not all are asked for.
const FEW: usize = 10;

/// What is said of a fault of which no reader tells a reason: the sizes of a file that are not
/// those of the first one.
const OTHER_SIZES: &str = "threads and rms have to be those of the first file";

/// The place and the reason of a fault, if one of these is it.
fn of_fault(
    alloc: Global,
    found: &[Diagnostic],
    fault: RunFault,
) -> Result<(Option<usize>, Option<usize>, String), Memory> {
    match found.first() {
        Some(first) if first.fault == fault => {
            Ok((
                first.line,
                first.column,
                String::from_str(alloc, first.reason.as_str())?,
            ))
        }
        _ => Ok((None, None, String::from_str(alloc, OTHER_SIZES)?)),
    }
}

/// The lines of the faults after the first one.
fn later_lines(
    alloc: Global,
    path: &str,
    found: &[Diagnostic],
    is_whole: bool,
) -> Result<String, Memory> {
    let mut text = String::from_str(alloc, "\n")?;
    let most = if is_whole { found.len() } else { FEW };
    for diagnostic in found.iter().take(most).skip(1) {
        text.push_str(diagnostic.told(alloc, path)?.as_str())?;
    }
    let left = found.len().saturating_sub(most);
    if left > 0 {
        let line = format!(in alloc; "{path}: and {left} more: xatm check --explain tells all\n")?;
        text.push_str(line.as_str())?;
    }
    Ok(text)
}

/// What is wrong with the file at a path, which was refused for this fault: a line for each of its
/// faults, the first ten or all, as in `FILE:7: step 2: xa_end needs flags = ["TMSUCCESS"]`. The
/// file may stand after earlier ones, whose transactions it knows.
pub fn report(
    alloc: Global,
    path: &str,
    text: &[u8],
    earlier: &[Vec<u8>],
    kind: FileKind,
    fault: RunFault,
    is_whole: bool,
) -> Result<String, Memory>
    // The first line is of the fault for which the file was refused.
    ensures told { IfOk result (λ told. ReportsFirst path.now fault (string_bytes told)) }
{
    let found = faults_of(alloc, text, earlier, kind)?;
    let (line, column, mut reason) = of_fault(alloc, found.as_slice(), fault)?;
    reason.push_str(later_lines(alloc, path, found.as_slice(), is_whole)?.as_str())?;
    fault_line(alloc, path, fault, line, column, reason.as_str())
}
