//! The name of a manager, in the identifiers of its branches: several managers may share databases,
//! each with a log of its own, if their names differ. The functions of [`laws`] do nothing: their
//! contracts are theorems.
//!
//! "XA" in these pages is X/Open CAE Specification C193, "Distributed Transaction Processing: The
//! XA Specification" (1991).
#![tactic(auto)]

mod kept_names;
pub mod laws;
mod lines;
mod manager_name;

pub use kept_names::{NameFault, check_names};
pub use lines::line_renamed;
pub use manager_name::ManagerName;
