//! `xa_files`: a number is read off a file.

ghost use Rattle.std.specs.Prelude.{◌≤◌, IfOk, IfSome};

use std::alloc::Global;
use xa_files::{RunFault, document_of, size_at};

/// The number of threads that a file says, from 1 to 8; none where it says no such number.
pub fn threads_in(alloc: Global, text: &[u8]) -> Result<Option<u32>, RunFault>
    ensures { IfOk result (λ threads. IfSome threads (λ n. n ≤ 8)) }
{
    let document = document_of(alloc, text)?;
    Ok(size_at(&document, "a file", "threads", 8).ok())
}
