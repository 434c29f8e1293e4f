//! Tests of the public calls of the crates that know no device: the cryptography, frames, the join
//! server's texts, MAC commands, counters and the region; one file for each crate. They are in a
//! crate above those crates, so that each of those is proved once.
#![tactic(auto)]

#[cfg(test)]
mod aes128_tests;
#[cfg(test)]
mod aes_cmac_tests;
#[cfg(test)]
mod backend_json_tests;
#[cfg(test)]
mod counters_tests;
#[cfg(test)]
mod frame_crypt_tests;
#[cfg(test)]
mod join_server_tests;
#[cfg(test)]
mod lw_types_tests;
#[cfg(test)]
mod mac_commands_tests;
#[cfg(test)]
mod phy_payload_tests;
#[cfg(test)]
mod region_eu868_tests;
