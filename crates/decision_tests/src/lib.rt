//! Tests of the public calls of the windows, the table and the core, one file or folder for each
//! crate. They are in a crate above those crates, so that each of those is proved once.
#![tactic(auto)]

#[cfg(test)]
mod decisions;
#[cfg(test)]
mod dedup_tests;
#[cfg(test)]
mod fixture;
#[cfg(test)]
mod network;
#[cfg(test)]
mod session_core_tests;
#[cfg(test)]
mod sessions_tests;
#[cfg(test)]
mod tables;
