//! Scenario files: what they ask of the resource managers of distributed transactions, and how they
//! are read. `xa_scenario` runs what is read here. The functions of [`laws`] do nothing: their
//! contracts are theorems on what is read.
//!
//! "XA" in these pages is X/Open CAE Specification C193, "Distributed Transaction Processing: The
//! XA Specification" (1991).
#![tactic(auto)]

mod begins;
mod branches;
mod calls;
mod crashes;
mod document;
mod endings;
mod entry;
mod files;
mod flags;
pub mod laws;
mod moves;
mod recoveries;
mod scripts;
mod tables;
mod words;

pub use document::{NamedScenario, Scenario, read_named_scenario, read_scenario, scenario_in};
pub use entry::{BranchEntry, Ending, Entry, Script};
pub use files::{FileFault, read_scenarios};
