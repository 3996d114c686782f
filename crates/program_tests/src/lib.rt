//! Tests of the program: runs over files and sinks in memory whose calls fail or that have little room, what it reads from
//! a disk and writes to one, and the page of a map. What its commands do with small inputs is shown in examples/cases.
//! Nothing stands on this crate.
#![tactic(auto)]

#[cfg(test)]
mod command_tests;
#[cfg(test)]
mod disk_tests;
#[cfg(test)]
mod fault_tests;
#[cfg(test)]
mod map_tests;
#[cfg(test)]
mod page_tests;
#[cfg(test)]
mod session_tests;
