//! The vocabulary of an XA transaction manager: identifiers, calls, codes, votes, states, fates,
//! steps and replies, XA's table of branch states, and what a resource manager holds of a branch.
//! The functions of [`laws`] do nothing: their contracts are theorems. The model, what a list of
//! events says, is the crate `xa_model` above this one: who needs the words alone, as a resource
//! manager or a log, need not read it.
//!
//! "XA" in these pages is X/Open CAE Specification C193, "Distributed Transaction Processing: The
//! XA Specification" (1991). Steps, replies and refusals are this manager's own words.
#![tactic(auto)]

mod answer;
mod branch;
mod call;
mod code;
mod debug;
mod fault;
mod flags;
pub mod laws;
mod limits;
mod parse;
mod refusal;
mod reply;
mod state;
mod step;
mod vote;
mod words;
mod xid;

pub use answer::{Answer, Page};
pub use branch::{Branch, Gtrid, OWN_FORMAT};
pub use call::{Call, CallKind};
pub use code::{Code, How, RbCode};
pub use fault::{Memory, XidFault};
pub use flags::{TMENDRSCAN, TMFAIL, TMJOIN, TMNOFLAGS, TMONEPHASE, TMSTARTRSCAN, TMSUCCESS};
pub use limits::{BEGIN_LIMIT, LAST_NUMBER, LINE_LIMIT, MAX_RMS, MAX_THREADS};
pub use refusal::Refusal;
pub use reply::{Event, Reply};
pub use state::{BranchState, Fate, Standing};
pub use step::{Outcome, Part, Side, Step};
pub use vote::Vote;
pub use xid::Xid;
