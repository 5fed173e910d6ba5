//! The decision log of an XA transaction manager: which global transactions are decided to commit and which branches each
//! of them waits for, which branches their resource managers ended by themselves, and how often the manager has started.
//! Only decisions to commit are kept: what has no row is rolled back (presumed rollback: XA, section 2.3).
//!
//! [`DecisionLog`] is what every log promises. [`MemLog`] keeps it in memory, and [`FailLog`] fails by a plan, for tests.
//! The log in the tables of a database is `SqlLog` of the crate `xa_sql_log`. The functions of [`laws`] do nothing: their
//! contracts are theorems.
//!
//! "XA" in these pages is X/Open CAE Specification C193, "Distributed Transaction Processing: The XA Specification"
//! (1991).
#![tactic(auto)]

mod commands;
mod decision;
mod decision_log;
mod fail_log;
pub mod laws;
mod log_fault;
mod log_rows;
mod mem_log;

pub use commands::{Command, Told, run_commands};
pub use decision::Decision;
pub use decision_log::{DecisionLog, LogCall, Logged};
pub use fail_log::{FailLog, FailPlan};
pub use log_fault::{LogFault, counted};
pub use log_rows::LogRows;
pub use mem_log::MemLog;
/// The last incarnation of a log, and the last sequence of one.
pub use xa_base::LAST_NUMBER;
