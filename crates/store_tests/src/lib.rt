//! Tests of the public calls of the store: what it does, and what crashes and faults of its disk
//! leave; and of the store over images that were laid out by hand (also those of older programs) or
//! damaged. This crate stands above it, so that it is proved once.
#![tactic(auto)]

#[cfg(test)]
mod changes_tests;
#[cfg(test)]
mod channels_tests;
#[cfg(test)]
mod faults_tests;
#[cfg(test)]
mod fronts_tests;
#[cfg(test)]
mod images_tests;
#[cfg(test)]
mod replacing_tests;
#[cfg(test)]
mod store_checkpoints_tests;
#[cfg(test)]
mod store_joins_tests;
#[cfg(test)]
mod store_restoring_tests;
#[cfg(test)]
mod store_tests;
#[cfg(test)]
mod versions_tests;
