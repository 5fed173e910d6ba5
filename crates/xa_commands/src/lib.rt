//! What commands of the program `xatm` do: with files, with a decision log in a file, and for a driver over one; and why a command
//! ends early.
//!
//! [`serve`] serves a driver, [`list`] and [`list_as_json`] show a log, [`make_log`] makes one from lines, and [`run_threads`] runs the
//! jobs of a file. What runs scenarios stands in the program itself, since it rests on more.
//!
//! "XA" in these pages is X/Open CAE Specification C193, "Distributed Transaction Processing: The XA Specification"
//! (1991).
#![tactic(auto)]

mod ages;
mod conduct;
mod copies;
mod failure;
mod files;
mod introduction;
mod jobs;
mod lists;
mod log_names;
mod log_reasons;
mod logs;
mod made_logs;
mod places;
mod renamed_logs;
mod rm_names;
mod service;
mod shut_logs;
mod stores;

pub use failure::Failure;
pub use files::{Source, output_to, text_of, texts_of, told_path};
pub use jobs::run_threads;
pub use lists::{list, list_as_json};
pub use logs::{HostLog, broken_off, leave, open_unnamed};
pub use made_logs::{made_logs_are_handed_on, make_from, make_log};
pub use renamed_logs::rename_rms;
pub use rm_names::NameChange;
pub use service::{Served, Service, serve, serve_from, serve_in_files};
pub use shut_logs::{open_log, shut_log};
pub use stores::close_in_files;
