//! What a run writes.

ghost use Rattle.std.specs.Prelude.{◌≡◌, OnOk, OnErr, IfErr};
ghost use Rattle.std.specs.Io.KnownBytes.{Appends};
ghost use Rattle.xa_files.specs.Outputs.{AppendsBeginning};
ghost use Rattle.xa_files.specs.declared.fault.RunFault.TheVariants.{Output};

use crate::fault::RunFault;
use std::io::{ErrorKind, Write};

/// Writes a text whole, and flushes nothing. What was written before a write failed is left: a
/// beginning of the text.
pub fn write_unflushed<W: Write>(text: &[u8], out: &mut W) -> Result<(), RunFault>
    ensures whole { OnOk result (Appends (W.contents out.old) (W.contents out.new) text.now) }
    ensures begun { OnErr result (AppendsBeginning (W.contents out.old)
        (W.contents out.new) text.now) }
    ensures fault { IfErr result (λ e. e ≡ Output) }
{
    let mut rest = text;
    for _ in 0..u64::MAX {
        if rest.is_empty() {
            return Ok(());
        }
        match out.write(rest) {
            Ok(0) => break,
            Ok(count) => rest = &rest[count..],
            Err(error) => {
                if error.kind() != ErrorKind::Interrupted {
                    break;
                }
            }
        }
    }
    Err(RunFault::Output)
}

/// Writes a text whole, and flushes it. What was written before a write failed is left: a beginning
/// of the text.
pub fn write_text<W: Write>(text: &[u8], out: &mut W) -> Result<(), RunFault>
    ensures whole { OnOk result (Appends (W.contents out.old) (W.contents out.new) text.now) }
    ensures begun { OnErr result (AppendsBeginning (W.contents out.old)
        (W.contents out.new) text.now) }
    ensures fault { IfErr result (λ e. e ≡ Output) }
{
    write_unflushed(text, out)?;
    out.flush().map_err(|_| RunFault::Output)
}
