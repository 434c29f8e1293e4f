// Queues of MAC commands.
ghost use Rattle.std.specs.Prelude.{◌≡◌, ◌↔◌, IsTrue};
ghost use Rattle.mac_commands.specs.Queueable.{AreQueueable};
ghost use Rattle.mac_commands.specs.Reading.{is_queue};

use crate::front::read_front;
use lw_types::Direction;

/// Whether the bytes are whole commands that an application may queue for a device: LinkADRReq,
/// DutyCycleReq and DevStatusReq, in any order. Takes no memory.
pub fn are_queueable(bytes: &[u8]) -> bool
    ensures queue { IsTrue result ↔ AreQueueable bytes.now }
    ensures value { result ≡ is_queue bytes.now }
{
    let mut rest = bytes;
    while let Some(front) = read_front(Direction::Down, rest) {
        if !front.cid.may_be_queued() {
            return false;
        }
        rest = front.rest;
    }
    rest.is_empty()
}
