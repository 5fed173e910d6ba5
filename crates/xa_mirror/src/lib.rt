//! A log that is lost, and made anew of a mirror, hands on what the log had: sessions over the one
//! and then over the other agree. The functions of [`laws`] do nothing: their contracts are
//! theorems. [`worked_failover`] shows sessions of which what is supposed can be met.
//!
//! "XA" in these pages is X/Open CAE Specification C193, "Distributed Transaction Processing: The
//! XA Specification" (1991).
#![tactic(auto)]

pub mod laws;
mod made;
mod worked;

pub use made::{MadeFault, made_of_lines};
pub use worked::worked_failover;
