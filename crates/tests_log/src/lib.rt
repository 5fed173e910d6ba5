//! Tests of the decision logs, and of systems over them, of what no clause says: each log answers
//! the same calls alike; and a crash of one over disks in memory that stop leaves, at each call of
//! either file, what was there before or all that the one change makes: under a log alone, under
//! whole systems, and under ten processes of the manager one after another with steps by chance.
//! All tests that compile the database stand here: each program that has it in it takes some
//! minutes to prove and to build before its first function. Logs in files of the host are left to
//! the built program, which `tests/files` and `tests/program` try.
#![tactic(auto)]

#[cfg(test)]
mod commands;
#[cfg(test)]
mod disks;
#[cfg(test)]
mod memory;
#[cfg(test)]
mod over_files;
#[cfg(test)]
mod processes;
#[cfg(test)]
mod rows;
#[cfg(test)]
mod stops;
#[cfg(test)]
mod systems;
#[cfg(test)]
mod tables;
#[cfg(test)]
mod versions;
