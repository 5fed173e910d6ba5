//! The label of a log in a database is changed, which has the names of the log's manager and of its
//! resource managers. All rows stay.
//!
//! A log keeps its label in a comment of the text that made its table `participant`, and no
//! statement changes such a text. So the table is made anew with another text, and gets its rows
//! again, in one transaction of the database.
#![tactic(auto)]

mod participants;
mod relabel;

pub use relabel::{label_files, with_label};
