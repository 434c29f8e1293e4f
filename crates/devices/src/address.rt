// The addresses of sessions, and the slots that they lead to (TS001-1.0.4 §6.1.1.1).
ghost use Rattle.std.specs.Prelude.{◌≡◌, ◌<◌};
ghost use Rattle.devices.specs.Address.{dev_addr, slot_at};

use lw_types::{DevAddr, NetId};

/// The address that a device at this slot has in the session of this JoinNonce: the low six bits of
/// the NetID, the slot, and the 13 low bits of the JoinNonce.
pub fn dev_addr(net_id: NetId, slot: u16, join_nonce: u32) -> DevAddr
    ensures { result ≡ dev_addr net_id slot join_nonce }
{
    let nwk_addr = u32::from(slot) * 8192 + join_nonce % 8192;
    DevAddr(u32::from(net_id.get() % 64) * (1 << 25) + nwk_addr)
}

/// The slot that an address leads to, from 0 to 4,095, for any network.
pub fn slot_at(address: DevAddr) -> u16
    ensures slot { result ≡ slot_at address.0 }
    ensures range { result < 4096 }
{
    (address.0 % (1 << 25) / 8192) as u16
}
