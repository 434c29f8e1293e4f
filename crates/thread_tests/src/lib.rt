//! Tests of what threads share: a core with a lock, rings of effects, a flusher's cycles over a
//! file, and the file itself. This crate stands above theirs, so that each of those is proved once.
#![tactic(auto)]

#[cfg(test)]
mod asked;
#[cfg(test)]
mod cycles_tests;
#[cfg(test)]
mod disks_tests;
#[cfg(test)]
mod files;
#[cfg(test)]
mod locked_tests;
#[cfg(test)]
mod rings_tests;
#[cfg(test)]
mod stores;
#[cfg(test)]
mod threads_tests;
