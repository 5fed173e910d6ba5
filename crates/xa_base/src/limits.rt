//! The limits of a system. The specs cite these constants, so that each number stands in one place.

/// The calls that wait on a line at most, and the answers.
pub const LINE_LIMIT: usize = 64;

/// The transactions that a system begins at most, in all incarnations of a run.
pub const BEGIN_LIMIT: u64 = 1_000;

/// The threads of control of a system at most.
pub const MAX_THREADS: u32 = 8;

/// The resource managers of a system at most.
pub const MAX_RMS: u32 = 8;

/// The largest number that a log takes for an incarnation or a sequence: its column holds signed
/// numbers.
pub const LAST_NUMBER: u64 = i64::MAX as u64;
