//! Tests of a server's life over loopback sockets: what clients send and receive, and the result.
//! Both ends are in one process, and each client sends everything before the life begins. Also
//! tests of the lines that operators read. Whole runs of the server are played on the built
//! program, by `tests/lnsd/hostile` and `examples/server/walk`.
#![tactic(auto)]

#[cfg(test)]
mod disks;
#[cfg(test)]
mod durable_tests;
#[cfg(test)]
mod faults_tests;
#[cfg(test)]
mod gates;
#[cfg(test)]
mod held_tests;
#[cfg(test)]
mod lives;
#[cfg(test)]
mod names_tests;
#[cfg(test)]
mod places_tests;
#[cfg(test)]
mod rows_tests;
#[cfg(test)]
mod sights_tests;
#[cfg(test)]
mod talk;
#[cfg(test)]
mod wire;
