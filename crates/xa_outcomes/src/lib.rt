//! What a session saw of a transaction's outcome is so, after all sessions. The functions of
//! [`laws`] do nothing: their contracts are theorems. [`worked_sessions`] shows two sessions of
//! which what is supposed can be met.
//!
//! "XA" in these pages is X/Open CAE Specification C193, "Distributed Transaction Processing: The
//! XA Specification" (1991).
#![tactic(auto)]

pub mod laws;
mod worked;

pub use worked::{WorkedFault, worked_sessions};
