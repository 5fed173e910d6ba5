//! The manager of global transactions: which it began, what their branches answered, what it
//! decided, and its decision log. The functions of [`laws`] do nothing: their contracts are
//! theorems, and tie the manager's book to histories.
//!
//! "XA" in these pages is X/Open CAE Specification C193, "Distributed Transaction Processing: The
//! XA Specification" (1991).
#![tactic(auto)]

mod change;
pub mod laws;
mod ledger;
mod manager;
mod news;
mod notes;
mod read_log;
mod slot;
mod swap_fault;

pub use manager::Manager;
pub use manager::restart::Found;
pub use manager::start::StartFault;
pub use read_log::ReadLog;
pub use slot::Slot;
pub use swap_fault::SwapFault;
