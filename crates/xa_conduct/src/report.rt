//! What a driver reports of a call that it was told to make.

use xa_base::Code;
use xa_files::code_named;

/// How a call was answered.
#[derive(Clone, Copy, Debug, PartialEq, Eq)]
pub enum Report {
    /// By this code.
    Code(Code),
    /// It wasn't: the connection is gone, and nobody knows whether the call was done.
    Lost,
}

/// What a word reports: a code's number, or `lost`.
pub(crate) fn report_in(word: &str) -> Option<Report> {
    match word {
        "lost" => Some(Report::Lost),
        _ => match code_named(word) {
            Some(code) => Some(Report::Code(code)),
            None => None,
        },
    }
}
