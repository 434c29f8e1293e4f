//! Tests of changed and grown stores on disks in memory: what crashes and faults of a disk leave.
//! This crate stands above the commands, so that it is proved once.
#![tactic(auto)]

#[cfg(test)]
mod changed_stores_tests;
#[cfg(test)]
mod grown_stores_tests;
