//! The coordinator conducts: a driver says how far a transaction has come, is told which calls to make next, makes exactly
//! these, says how they were answered, and in the end is told the outcome.
//!
//! [`Conductor`] stands over a server of `xa_server`: all that it does there are requests that a driver might have asked
//! for, done in turn by [`xa_server::Server::perform`].
//!
//! "XA" in these pages is X/Open CAE Specification C193, "Distributed Transaction Processing: The XA Specification"
//! (1991).
#![tactic(auto)]

mod asking;
mod conductor;
mod debt;
pub mod laws;
mod lines;
mod meaning;
mod moves;
mod notes;
mod part;
mod place;
mod plan;
mod recovery;
mod report;
mod serving;
mod transaction;
mod writing;

pub use conductor::Conductor;
pub use serving::serve;
