//! A decision log as text: the transactions that are decided to commit, each with how many branches
//! it waits for, and the branches whose resource managers ended them by themselves.
//!
//! "XA" in these pages is X/Open CAE Specification C193, "Distributed Transaction Processing: The XA
//! Specification" (1991).
#![tactic(auto)]

mod asks;
mod explain;
mod faults;
mod lines;
mod list;
mod statements;

pub use explain::explain_log;
pub use faults::run_fault;
pub use list::list_log;
