//! The limit of a run.

/// The jobs of a run at most, and so the slots of a board.
pub const JOB_LIMIT: usize = 1_000;
