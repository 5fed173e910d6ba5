//! What scenario files and jobs files have in common: the fields and words of their tables, the
//! faults of a run, and what it writes. A listed log has the same words for fates, and a driver's
//! session for calls and replies.
#![tactic(auto)]

mod document;
mod fates;
mod fault;
mod fields;
mod finding;
mod misfit;
mod numbers;
mod output;
mod replies;
mod words;

pub use document::{document_of, size_at, tables_at};
pub use fates::{fate_line, fate_text, push_fates};
pub use fault::RunFault;
pub use fields::{
    holds, index_at, index_or, integer_at, is_among, is_name, meaning_at, name_at, number_at,
    only_keys, text_at, unfit, value_at,
};
pub use finding::Finding;
pub use misfit::Misfit;
pub use numbers::{index_of, integer_of};
pub use output::{write_text, write_unflushed};
pub use replies::{begun_text, push_xids, refused_text, restarted_text};
pub use words::{CALL_KINDS, call_named, code_named, flag_named, outcome_named, vote_named};
