//! The line that tells of a fault of a file.

ghost use Rattle.std.specs.Prelude.{◌≡◌, IfOk};
ghost use Rattle.std.specs.String.{string_bytes};
ghost use Rattle.xa_diagnostics.specs.Explanations.{located_fault_text, number_text, numbers_text, place_text, reason_text};

use std::alloc::Global;
use xa_base::Memory;
use xa_files::RunFault;

/// Where the fault of a file lies.
pub fn place_text(alloc: Global, fault: RunFault) -> Result<String, Memory>
    ensures { IfOk result (λ text. string_bytes text ≡ place_text fault) }
{
    match fault {
        RunFault::NotToml => Ok(String::from_str(alloc, "not TOML")?),
        RunFault::Header => Ok(String::from_str(alloc, "header")?),
        RunFault::Step(number) => Ok(format!(in alloc; "step {number}")?),
        RunFault::Job(number) => Ok(format!(in alloc; "job {number}")?),
        RunFault::Log | RunFault::Memory | RunFault::Work | RunFault::Output => {
            Ok(String::new(alloc))
        }
    }
}

/// A number, as editors take it after a path.
fn number_text(alloc: Global, number: Option<usize>) -> Result<String, Memory>
    ensures { IfOk result (λ text. string_bytes text ≡ number_text number) }
{
    match number {
        None => Ok(String::new(alloc)),
        Some(number) => Ok(format!(in alloc; ":{number}")?),
    }
}

/// The line and the column, likewise.
#[tactic(auto, unfolding(crate::specs::Explanations::numbers_text))]
pub fn numbers_text(
    alloc: Global,
    line: Option<usize>,
    column: Option<usize>,
) -> Result<String, Memory>
    ensures { IfOk result (λ text. string_bytes text ≡ numbers_text line column) }
{
    let mut text = number_text(alloc, line)?;
    let column = number_text(alloc, column)?;
    text.push_str(column.as_str())?;
    Ok(text)
}

/// Where a fault lies, and its reason.
#[tactic(auto, unfolding(crate::specs::Explanations::reason_text))]
fn reason_text(alloc: Global, fault: RunFault, reason: &str) -> Result<String, Memory>
    ensures { IfOk result (λ text. string_bytes text ≡ reason_text fault reason.now) }
{
    let place = place_text(alloc, fault)?;
    Ok(format!(in alloc; "{place}: {reason}")?)
}

/// What is told of the file at a path, which has this fault on a line, for a reason.
pub fn fault_line(
    alloc: Global,
    path: &str,
    fault: RunFault,
    line: Option<usize>,
    column: Option<usize>,
    reason: &str,
) -> Result<String, Memory>
    ensures { IfOk result (λ told.
        string_bytes told ≡ located_fault_text path.now fault line column reason.now) }
{
    let numbers = numbers_text(alloc, line, column)?;
    let text = reason_text(alloc, fault, reason)?;
    Ok(format!(in alloc; "{path}{numbers}: {text}")?)
}
