//! Callers of the libraries, each proved to do what its contract says. A file is named after its
//! library, without the `xa_`; `serve`, `transactions`, `managers` and `paths` are of `xa_server`,
//! `own_log`, `processes`, `recovery`, `swaps` and `crash` are further callers of `xa_system`, and
//! `sql_jobs` of `xa_workers`.
//!
//! Nothing runs them: that a call comes to its end is said by the tests of the libraries that it
//! calls.
#![tactic(auto)]

pub mod base;
pub mod crash;
pub mod files;
pub mod jobs;
pub mod line;
pub mod listing;
pub mod log;
pub mod managers;
pub mod model;
pub mod own_log;
pub mod paths;
pub mod processes;
pub mod recovery;
pub mod rm;
pub mod scenario;
pub mod serve;
pub mod sql_jobs;
pub mod sql_log;
pub mod swaps;
pub mod system;
pub mod tm;
pub mod transactions;
pub mod workers;
