//! The events of a run as a story: a line for each that a person reads, and then what became of the
//! branches and why.
//!
//! "XA" in these pages is X/Open CAE Specification C193, "Distributed Transaction Processing: The
//! XA Specification" (1991).
#![tactic(auto)]

mod asked;
mod calls;
mod crashes;
mod decisions;
mod effect;
mod ends;
mod ledger;
mod line;
mod names;
mod party;
mod refusals;
mod replies;
mod scene;
mod standings;
mod story;
mod waits;
mod words;

pub use line::{LogChange, StoryLine};
pub use names::Names;
pub use party::{Party, Sides, party_text};
pub use scene::Scene;
pub use standings::Move;
pub use story::{lines_of, story_text};
pub use waits::Waiting;
pub use words::standing_text;
