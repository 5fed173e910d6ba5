//! What a check says of a file, as JSON.

ghost use Rattle.std.specs.Prelude.{◌≡◌, List, map, IfOk};
ghost use Rattle.std.specs.String.{string_bytes};
ghost use Rattle.xa_diagnostics.specs.CheckJson.{check_json, fault_json, is_well, number_json};
ghost use Rattle.xa_diagnostics.specs.declared.diagnostic.Diagnostic.{Diagnostic};

use crate::diagnostic::Diagnostic;
use crate::document::FileKind;
use crate::faults::faults_of;
use crate::json::{Item, array, lines_of, quoted};
use crate::told::place_text;
use std::alloc::Global;
use xa_base::Memory;

/// A number, if there is one.
fn number_json(alloc: Global, value: Option<usize>) -> Result<String, Memory>
    ensures { IfOk result (λ text. string_bytes text ≡ number_json value) }
{
    match value {
        Some(value) => Ok(format!(in alloc; "{value}")?),
        None => Ok(String::from_str(alloc, "null")?),
    }
}

/// A fault of a file.
fn fault_json(alloc: Global, found: &Diagnostic) -> Result<String, Memory>
    ensures { IfOk result (λ text. string_bytes text ≡ fault_json found.now) }
{
    let line = number_json(alloc, found.line)?;
    let column = number_json(alloc, found.column)?;
    let place = place_text(alloc, found.fault)?;
    let place = quoted(alloc, place.as_str())?;
    let reason = quoted(alloc, found.reason.as_str())?;
    Ok(format!(in alloc;
        "{{\"line\":{line},\"column\":{column},\"place\":{place},\"reason\":{reason}}}"
    )?)
}

/// All faults of a file.
fn faults_json(alloc: Global, found: &[Diagnostic]) -> Result<Vec<String>, Memory>
    ensures { IfOk result (λ texts. map string_bytes texts.items ≡ map fault_json found.now) }
{
    let mut faults = Vec::new(alloc);
    for diagnostic in found {
        let fault = fault_json(alloc, diagnostic)?;
        faults.push(fault)?;
    }
    Ok(faults)
}

/// Whether there is no fault.
fn well(found: &[Diagnostic]) -> &'static str
    ensures { result.now ≡ is_well found.now }
{
    if found.is_empty() { "true" } else { "false" }
}

/// Whether a file is well, what it is, its faults, and what a run will refuse.
fn found_json(
    alloc: Global,
    path: &str,
    kind: FileKind,
    found: &[Diagnostic],
    warnings: &str,
) -> Result<String, Memory>
    ensures { IfOk result (λ text.
        string_bytes text ≡ check_json path.now kind found.now warnings.now) }
{
    let path = quoted(alloc, path)?;
    let is_well = well(found);
    let kind = kind.name();
    let faults = faults_json(alloc, found)?;
    let faults = array(alloc, faults.as_slice())?;
    let lines = lines_of(alloc, warnings)?;
    let warned = Item::Line.array_in(alloc, lines.as_slice())?;
    Ok(format!(in alloc;
        "{{\"file\":{path},\"ok\":{is_well},\"kind\":\"{kind}\",\"faults\":{faults},\
        \"warnings\":{warned}}}\n"
    )?)
}

/// What a check says of the file at a path, as JSON on a line of its own: whether it is well, what
/// it is, all its faults, and what a run will refuse.
pub fn check_json(
    alloc: Global,
    path: &str,
    text: &[u8],
    kind: FileKind,
    warnings: &str,
) -> Result<String, Memory>
    ensures { IfOk result (λ text. (found : List Diagnostic)
        × (string_bytes text ≡ check_json path.now kind found warnings.now)) }
{
    let found = faults_of(alloc, text, &[], kind)?;
    found_json(alloc, path, kind, found.as_slice(), warnings)
}
