//! A decision log in the tables of a database, in a file or in memory: the log of an XA transaction manager that outlives
//! its process. What a decision log promises stands in `xa_log`, with a log in memory and one that fails by a plan.
#![tactic(auto)]

mod decisions;
mod fields;
mod groups;
mod heuristics;
mod label;
mod layout;
mod meta;
mod participants;
mod removals;
mod rows;
mod shutting;
mod sql_log;
mod statements;
mod tables;
mod version;

pub use label::is_label;
pub use shutting::LogHead;
pub use sql_log::{LockFault, SqlLog, journal_path, memory_is_honest};
