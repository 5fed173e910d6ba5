//! What a driver is told first: the version of the protocol, whose coordinator it has, and the names of its resource managers.

ghost use Rattle.std.specs.Prelude.{◌≡◌, ◌++◌, map, IfErr, IfOk, OnErr, OnOk};
ghost use Rattle.std.specs.String.{string_bytes};
ghost use Rattle.std.specs.Io.KnownBytes.{Appends};
ghost use Rattle.xa_files.specs.Outputs.{AppendsBeginning};
ghost use Rattle.xa_commands.specs.Names.{introduction, name_part, rms_part};

use crate::failure::Failure;
use crate::log_names::{name_text, push_words};
use std::alloc::{AllocError, Global};
use std::io::Write;
use xa_files::write_text;
use xa_names::ManagerName;

/// Adds the name of the manager, if it has one.
fn push_name(alloc: Global, text: &mut String, name: &ManagerName) -> Result<(), AllocError>
    ensures { OnOk result (string_bytes text.new ≡ string_bytes text.old ++ name_part name.now) }
{
    if name.as_slice().is_empty() {
        return Ok(());
    }
    text.push_str(" name ")?;
    text.push_str(name_text(alloc, name)?.as_str())
}

/// Adds the names of the resource managers, if they have names.
fn push_rms(text: &mut String, rms: &[&str]) -> Result<(), AllocError>
    ensures { OnOk result (string_bytes text.new ≡
        string_bytes text.old ++ rms_part (map (λ rm. rm.now) rms.now)) }
{
    if rms.is_empty() {
        return Ok(());
    }
    text.push_str(" rms")?;
    push_words(text, rms)
}

/// The first line of a session. It is empty if there are no names.
fn introduction(alloc: Global, name: &ManagerName, rms: &[&str]) -> Result<String, AllocError>
    ensures { IfOk result (λ text.
        string_bytes text ≡ introduction name.now (map (λ rm. rm.now) rms.now)) }
{
    if name.as_slice().is_empty() && rms.is_empty() {
        return Ok(String::new(alloc));
    }
    let mut text = String::from_str(alloc, "protocol 1 version 1.0.0")?;
    push_name(alloc, &mut text, name)?;
    push_rms(&mut text, rms)?;
    text.push_str("\n")?;
    Ok(text)
}

/// Tells a driver so.
pub(crate) fn introduce<W: Write>(
    alloc: Global,
    name: &ManagerName,
    rms: &[&str],
    out: &mut W,
) -> Result<(), Failure>
    ensures told { OnOk result (Appends (W.contents out.old) (W.contents out.new)
        (introduction name.now (map (λ rm. rm.now) rms.now))) }
    ensures begun { OnErr result (AppendsBeginning (W.contents out.old) (W.contents out.new)
        (introduction name.now (map (λ rm. rm.now) rms.now))) }
{
    let text = introduction(alloc, name, rms)?;
    write_text(text.as_bytes(), out)?;
    Ok(())
}
