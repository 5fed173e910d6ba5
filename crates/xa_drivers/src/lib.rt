//! A driver that keeps the rules of docs/SERVE.md suffices: what it does at the databases and what
//! it tells, in one list, gives all that the theorem of sessions supposes of databases and drivers.
//! The functions of [`laws`] do nothing: their contracts are theorems.
//!
//! "XA" in these pages is X/Open CAE Specification C193, "Distributed Transaction Processing: The
//! XA Specification" (1991).
#![tactic(auto)]

pub mod laws;
