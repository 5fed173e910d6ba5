//! Request lines: what a thread of control asks of a resource manager, and what that answers.
//!
//! XA leaves open how a call reaches its resource manager. Here it goes over a [`Line`], which
//! holds at most 64 calls that wait and 64 answers, each in order. In one thread a line is used
//! whole; taken apart, its [`Issuer`] and its [`Taker`] go to threads of their own, and neither
//! ever waits for the other. [`Lines`] holds the lines of a whole system.
//!
//! Contracts see a line as its traffic since it was new or renewed (`specs/Traffic.antt`), and that
//! what was issued is what was taken followed by what waits is how `calls_issued` is defined there.
//! The functions of [`laws`] do nothing: their contracts say that a line goes as one of a history
//! does.
//!
//! "XA" in these pages is X/Open CAE Specification C193, "Distributed Transaction Processing: The
//! XA Specification" (1991).
#![tactic(auto)]

mod inlet;
mod issuer;
mod latch;
pub mod laws;
mod line;
mod lines;
mod outlet;
mod queue;
mod taker;

pub use issuer::Issuer;
pub use line::Line;
pub use lines::Lines;
pub use taker::Taker;
