//! Scenario files that are run: what a run does, and what is printed of it. `xa_scenario_file`
//! reads them, and its names stand here too.
//!
//! "XA" in these pages is X/Open CAE Specification C193, "Distributed Transaction Processing: The
//! XA Specification" (1991).
#![tactic(auto)]

mod after_run;
mod names;
mod play;
mod processes;
mod replies;
mod run;
mod start;

pub use after_run::system_after;
pub use processes::run_scenarios;
pub use run::{check_scenario, run_scenario};
pub use xa_scenario_file::{
    BranchEntry, Ending, Entry, FileFault, NamedScenario, Scenario, Script, read_named_scenario,
    read_scenario, read_scenarios, scenario_in,
};
