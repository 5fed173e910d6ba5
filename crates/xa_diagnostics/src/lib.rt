//! What is wrong with a scenario file or a jobs file: where, at which key, and what is meant or
//! allowed there.
//!
//! [`report`] tells of all faults of a file that was refused, [`warnings`] of what a run will
//! refuse of one that wasn't, and [`check_jobs`] reads a jobs file only.
#![tactic(auto)]

mod advice;
mod allowed;
mod diagnostic;
mod document;
mod faults;
mod finding;
mod jobs_check;
mod json;
mod json_checks;
mod nearest;
mod places;
mod reports;
mod syntax;
mod tokens;
mod told;
mod warning_lines;

pub use document::{FileKind, kind_of};
pub use jobs_check::check_jobs;
pub use json::{log_json, run_json};
pub use json_checks::check_json;
pub use reports::report;
pub use warning_lines::warnings;
