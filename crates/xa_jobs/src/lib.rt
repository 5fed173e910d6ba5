//! Jobs files: global transactions that worker threads run, each with the votes of its branches.
//!
//! [`run_job_file`] runs the jobs of a file, and prints how each ended; [`read_jobs`] reads a file
//! only, and [`jobs_in`] a document, of which it tells what is wrong. The functions of [`laws`] do
//! nothing: their contracts are theorems on what is read.
#![tactic(auto)]

mod header;
mod jobs;
pub mod laws;
mod lines;
mod run;

pub use jobs::{jobs_in, read_jobs};
pub use run::run_job_file;
