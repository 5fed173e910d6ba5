//! What a coordinator that conducts tells its driver of outcomes is so, after all sessions. The
//! functions of [`laws`] do nothing: their contracts are theorems.
//!
//! "XA" in these pages is X/Open CAE Specification C193, "Distributed Transaction Processing: The
//! XA Specification" (1991).
#![tactic(auto)]

pub mod laws;
