//! The model: what a list of events says, and what follows if each reply is one that the history before it allows.
//!
//! The definitions stand in `specs`, in layers: `Trace` has what may happen; `Facts` what a history says, each fact a
//! recursion on it; `Protocol` what must be so before each thing happens; `Replies` which steps are refused and which
//! replies are allowed (`Allowed`); `Promises` what is proved of every history, and `Headline` all of that in one
//! record over a stored list of events. Its theorems are the contracts of functions that do nothing:
//! [`headline_holds`], [`agreement`], [`agreement_invariant`], [`across_processes`], [`replies_are_allowed`],
//! [`one_more_event`], [`listed_once`], [`names`], [`read_back`] and [`recovery_completes`].
//!
//! "XA" in these pages is X/Open CAE Specification C193, "Distributed Transaction Processing: The XA Specification"
//! (1991). Steps, replies and refusals are this manager's own words.
#![tactic(auto)]

mod headline;
mod histories;
mod identifiers;
mod processes;
mod recovery;

pub use headline::{agreement, agreement_invariant, headline_holds};
pub use histories::{listed_once, one_more_event, replies_are_allowed};
pub use identifiers::{names, read_back};
pub use processes::across_processes;
pub use recovery::recovery_completes;
