//! The events of a run as a picture: a sequence diagram of the calls and answers, with the log and
//! the branches.
//!
//! "XA" in these pages is X/Open CAE Specification C193, "Distributed Transaction Processing: The
//! XA Specification" (1991).
#![tactic(auto)]

mod arrows;
mod bars;
mod canvas;
mod chart;
mod classes;
mod columns;
mod fans;
mod font;
mod heads;
mod labels;
mod layout;
mod legend;
mod notes;
mod run;
mod spans;
mod strays;
mod style;
mod texts;
mod timeline;

pub use chart::chart_text;
pub use run::Run;
