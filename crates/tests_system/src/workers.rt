//! Tests of the worker threads, on real threads: what no clause says of a run of jobs and of the
//! decision board. That runs come to their end, that workers run side by side, and in which order
//! rows, commits and sweeps come.

mod board;
mod ends;
mod gates;
mod logs;
mod plans;
mod schedules;
mod unlawful;
