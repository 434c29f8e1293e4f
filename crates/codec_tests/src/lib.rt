//! Tests of the public calls of what is written as bytes: records, their changes and the store's
//! layout; devices; the messages and lines of links. This crate stands above those that it tests,
//! so that each of these is proved once.
#![tactic(auto)]

#[cfg(test)]
mod change_faults_tests;
#[cfg(test)]
mod change_tests;
#[cfg(test)]
mod devices_tests;
#[cfg(test)]
mod feeder_tests;
#[cfg(test)]
mod fixtures;
#[cfg(test)]
mod gateway_wire_tests;
#[cfg(test)]
mod link_fixtures;
#[cfg(test)]
mod lists_tests;
#[cfg(test)]
mod record_codec_tests;
#[cfg(test)]
mod store_layout_tests;
