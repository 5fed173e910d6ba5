//! The lines between a driver of real databases and the coordinator: what each line of the driver
//! asks for, and the line that it is replied. The functions of [`laws`] do nothing: their contracts
//! are theorems on the two.
//!
//! "XA" in these pages is X/Open CAE Specification C193, "Distributed Transaction Processing: The
//! XA Specification" (1991).
#![tactic(auto)]

mod answers;
mod calls;
mod decisions;
pub mod laws;
mod names;
mod reading;
mod recoveries;
mod request;
mod response;
mod verbs;
mod words;
mod writing;

pub use reading::read_request;
pub use request::{CallName, Gtrids, Request};
pub use response::{RequestFault, Response};
pub use writing::{call_text, response_text};
