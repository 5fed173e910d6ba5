//! The parts of a system by themselves, of what no clause says: identifiers, resource managers and
//! lines.

mod identifiers;
mod lines;
mod resource_managers;
