//! Identifiers and calls as a programmer reads them.

use crate::call::flags_of;
use crate::{Call, Xid};
use std::fmt;

impl fmt::Debug for Xid {
    /// As [`Xid::text`] writes it.
    fn fmt<W: fmt::Write>(&self, f: &mut fmt::Formatter<W>) -> fmt::Result {
        write!(f, "{}:", self.format())?;
        write_hex(f, self.gtrid())?;
        f.write_str(":")?;
        write_hex(f, self.bqual())
    }
}

fn write_hex<W: fmt::Write>(f: &mut fmt::Formatter<W>, bytes: &[u8]) -> fmt::Result {
    for byte in bytes {
        write!(f, "{byte:02x}")?;
    }
    Ok(())
}

impl<X: fmt::Debug> fmt::Debug for Call<X> {
    /// XA's name of the call, its branch or its count, and its flags as one word.
    fn fmt<W: fmt::Write>(&self, f: &mut fmt::Formatter<W>) -> fmt::Result {
        let (name, xid) = match self {
            Call::OpenRm => ("xa_open", None),
            Call::CloseRm => ("xa_close", None),
            Call::Start { xid, .. } => ("xa_start", Some(xid)),
            Call::End { xid, .. } => ("xa_end", Some(xid)),
            Call::Prepare { xid } => ("xa_prepare", Some(xid)),
            Call::Commit { xid, .. } => ("xa_commit", Some(xid)),
            Call::Rollback { xid } => ("xa_rollback", Some(xid)),
            Call::Forget { xid } => ("xa_forget", Some(xid)),
            Call::Recover { .. } => ("xa_recover", None),
        };
        f.write_str(name)?;
        if let Some(xid) = xid {
            write!(f, " {xid:?}")?;
        }
        if let Call::Recover { count, .. } = self {
            write!(f, " {count}")?;
        }
        write!(f, " {:#010x}", flags_of(self))
    }
}
