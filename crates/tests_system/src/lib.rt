//! What no clause says of the crates below: numbers and texts from outside; worked rows at a
//! resource manager; lines and boards on real threads; the worker threads; logs over which no
//! system is made; and calls that are refused memory. Each log is in memory. What a step of a
//! system replies is said by its clauses, and shown by the files of `examples/`, which
//! `tests/program` plays over the built program, as it does sessions of a driver and files of
//! jobs.
#![tactic(auto)]

#[cfg(test)]
mod logs;
#[cfg(test)]
mod parts;
#[cfg(test)]
mod refused_memory;
#[cfg(test)]
mod started;
#[cfg(test)]
mod systems;
#[cfg(test)]
mod workers;
