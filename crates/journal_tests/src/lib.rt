//! Tests of the public calls of the disk, the log and the flusher, and of two batches in progress.
//! This crate stands above those that it tests, so that each of these is proved once.
#![tactic(auto)]

#[cfg(test)]
mod chains_tests;
#[cfg(test)]
mod deciding_tests;
#[cfg(test)]
mod disk_tests;
#[cfg(test)]
mod flusher_tests;
#[cfg(test)]
mod gate_log_tests;
#[cfg(test)]
mod over_lives_tests;
#[cfg(test)]
mod store_pairs_tests;
