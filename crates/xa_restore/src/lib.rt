//! A decision log made anew from lines: from what a mirror of it in a database holds, where the log itself is lost with its
//! machine. [`read_heading`] and [`read_log`] read the lines, and [`restore_log`] writes into a log what they say.
//!
//! "XA" in these pages is X/Open CAE Specification C193, "Distributed Transaction Processing: The XA Specification"
//! (1991).
#![tactic(auto)]

mod decision_line;
mod faults;
mod heading;
mod log_lines;
mod named_log;
mod restore;
mod spelling;

pub use faults::{LineFault, RestoreFault};
pub use heading::{Heading, is_rm_name, read_heading};
pub use log_lines::{LogLines, MOST_STARTS, read_log};
pub use named_log::{NamedLog, read_lines, read_text, restored_logs_hold_what_is_said};
pub use restore::restore_log;
