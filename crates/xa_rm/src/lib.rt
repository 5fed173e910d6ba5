//! Resource managers: what each answers to the calls of XA, and what it has in doubt.
//!
//! "XA" in these pages is X/Open CAE Specification C193, "Distributed Transaction Processing: The
//! XA Specification" (1991). A resource manager of this crate keeps branches and scripted votes
//! alone, and no rows.
#![tactic(auto)]

mod branches;
mod fault;
mod key;
mod mem_rm;
mod pages;
mod resource_manager;
mod scans;
mod table_entry;

pub use fault::RmFault;
pub use mem_rm::MemRm;
pub use pages::pages_continue;
pub use resource_manager::ResourceManager;
