//! Jobs, each a global transaction, that worker threads run: one for each thread of control, one
//! for each resource manager and, if a recovery sweeps the jobs, one for that. The calling thread
//! is the log's worker.
//!
//! [`run_jobs`] runs them. The calls of a thread of control go to a resource manager over a line of
//! two rings, and on a [`Board`] the threads and the recovery decide without a lock how each job
//! ends.
//!
//! "XA" in these pages is X/Open CAE Specification C193, "Distributed Transaction Processing: The
//! XA Specification" (1991).
#![tactic(auto)]

mod beginning;
mod board;
mod brand;
mod control;
mod crew;
mod deal;
mod docket;
mod fault;
mod gate;
mod halts;
mod job_rm;
mod jobs;
mod limits;
mod numbered;
mod outcomes;
mod pace;
mod patience;
mod reunite;
mod rule;
mod run;
mod run_rows;
mod serve;
mod signals;
mod start;
mod sweep;
mod thread_lines;
mod verify;
mod view;
mod word;

pub use board::{Board, BoardSeat};
pub use fault::WorkFault;
pub use gate::{Gate, Point};
pub use jobs::Jobs;
pub use limits::JOB_LIMIT;
pub use outcomes::Outcomes;
pub use run::run_jobs;
pub use view::{Entry, View};
pub use word::{Claim, Word};
