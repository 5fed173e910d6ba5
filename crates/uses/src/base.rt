//! `xa_base`: an identifier is written as text, and read again.

ghost use Rattle.std.specs.Prelude.{◌≡◌, Ok, IfOk};

use std::alloc::Global;
use xa_base::{Memory, Xid, XidFault};

/// Writes an identifier as text and reads that text: it is the same identifier.
pub fn read_again(alloc: Global, xid: &Xid) -> Result<Result<Xid, XidFault>, Memory>
    ensures { IfOk result (λ read. read ≡ Ok xid.now) }
{
    let _format = xid.format();
    let text = xid.text(alloc)?;
    Ok(Xid::parse(text.as_str()))
}
