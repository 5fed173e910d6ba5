//! What the tests of logs and those of systems over logs share: files that stop, and that a crash
//! cuts; a log in them; and what the tables of a log show. No clause says what it does.
//!
//! A function takes ten times as long to prove if it borrows a connection to files, or takes it
//! apart, by the type of its store: the proof ties that type to all that a store promises. Such
//! functions are few here. What is done over a connection or a log stands in functions over any
//! store, and one function calls them at files.

mod files;
mod seen;
mod stopping;
mod task;

pub(crate) use files::{crash_after, crashed, files_after, log_over, look_in, run_in};
pub(crate) use seen::{BLANK, EMPTY, MIGRATED, OLD, Seen, VERSION_1};
pub(crate) use stopping::{Stops, StopsAfter, blank, stopping};
pub(crate) use task::{Change, Reached};
