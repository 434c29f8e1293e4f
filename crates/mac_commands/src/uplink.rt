// What the MAC commands of an uplink ask for, and which of them are reported.
ghost use Rattle.std.specs.Prelude.{◌≡◌, ◌≤◌, IfOk, length};
ghost use Rattle.lw_types.specs.declared.payload.TheConstants.{LONGEST_PAYLOAD};
ghost use Rattle.mac_commands.specs.Reading.{asks_link_check, reported_bytes};

use crate::front::read_front;
use lw_types::{Direction, Payload};
use std::alloc::{AllocError, Global};

/// The commands in an uplink that are reported to its application, as bytes and in order. They are
/// read as by `decode_up`, from its FOpts or from its FRMPayload on port 0. LinkCheckReq and
/// DeviceTimeReq are left out, since they are for the network.
pub fn read_reported(alloc: Global, bytes: &[u8]) -> Result<Payload, AllocError>
    requires { length bytes.now ≤ LONGEST_PAYLOAD }
    ensures { IfOk result (λ told. told ≡ reported_bytes bytes.now) }
{
    let mut told = Vec::new(alloc);
    let mut rest = bytes;
    while let Some(front) = read_front(Direction::Up, rest) {
        if front.cid.is_reported() {
            front.put(&mut told)?;
        }
        rest = front.rest;
    }
    match Payload::new(told) {
        Ok(told) => Ok(told),
        Err(_) => unreachable!(),
    }
}

/// Whether a LinkCheckReq is among the commands of an uplink. Takes no memory.
pub fn asks_link_check(bytes: &[u8]) -> bool
    ensures { result ≡ asks_link_check bytes.now }
{
    let mut rest = bytes;
    while let Some(front) = read_front(Direction::Up, rest) {
        if front.cid.is_link_check() {
            return true;
        }
        rest = front.rest;
    }
    false
}
