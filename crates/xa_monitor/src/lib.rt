//! Where the branches of real resource managers may stand, by all that they answered, and why answers that some standing
//! explains are enough: then a right history of them exists. A [`Monitor`] looks at that, answer by answer. The functions of
//! [`laws`] do nothing: their contracts are theorems.
//!
//! "XA" in these pages is X/Open CAE Specification C193, "Distributed Transaction Processing: The XA Specification"
//! (1991).
#![tactic(auto)]

mod entries;
pub mod laws;
mod monitor;
mod states;

pub use monitor::Monitor;
pub use states::{HeuristicEnds, States};
