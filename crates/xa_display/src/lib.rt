//! A scenario file is run, and its run is shown: as a story, or as a picture.
//!
//! "XA" in these pages is X/Open CAE Specification C193, "Distributed Transaction Processing: The
//! XA Specification" (1991).
#![tactic(auto)]

mod explain;
mod picture;

pub use explain::explain_scenario;
pub use picture::{ChartFault, draw_scenario};
