//! What the reading of a scenario comes to. These functions do nothing: each contract is a theorem.

ghost use Rattle.std.specs.Prelude.{[]};
ghost use Rattle.xa_files.specs.TablesInTurn.{EachIsRead, FaultsAreOfTexts, FirstIsFaulty};
ghost use Rattle.xa_files.specs.declared.fault.RunFault.TheVariants.{Step};
ghost use Rattle.xa_scenario_file.specs.Scenarios.{entries_from, scenario_of};
ghost use Rattle.xa_scenario_file.specs.StepTables.{asked_at};

/// The tables are read each by itself, after the names that those before it begin, and a fault is
/// the first one.
pub fn tables_are_read_in_turn()
    ensures each_is_read { EachIsRead asked_at (entries_from 1 []) }
    ensures first_is_faulty { FirstIsFaulty asked_at (entries_from 1 []) }
{}

/// A text has no other faults than these: it is no TOML, its header is faulty, or a step.
pub fn faults_are_of_texts()
    ensures { FaultsAreOfTexts Step scenario_of }
{}
