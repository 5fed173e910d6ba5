//! A session of a driver with the coordinator: the manager over its decision log, the lines on
//! which calls wait until the driver tells how the resource managers answered them, and the monitor
//! that looks at each answer.
//!
//! No answer is trusted: each method may be called whatever was answered before. An answer that no
//! state of its branch explains is refused, so what was heard has a right history
//! ([`laws::sessions_are_explained`]). The functions of [`laws`] do nothing: their contracts are
//! theorems.
//!
//! "XA" in these pages is X/Open CAE Specification C193, "Distributed Transaction Processing: The
//! XA Specification" (1991).
#![tactic(auto)]

mod hearing;
pub mod laws;
mod session;
mod session_line;
mod session_lines;

pub use session::Session;
pub use session::answers::Unfit;
