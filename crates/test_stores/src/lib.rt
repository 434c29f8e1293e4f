//! Devices, stores and images that the tests of several crates share. Only tests use it.
#![tactic(auto)]

pub mod devices_under_test;
pub mod images_under_test;
pub mod stores_under_test;
