// Devices that send one after another.
use crate::network::{copy_of, joined_key, uplink};
use lw_types::{FrameCopy, Key, Refusal};
use std::alloc::Global;

/// The gateway that hears them.
const GATEWAY: u64 = 0;

/// The devices of a server, which take turns in sending.
#[derive(Drop)]
pub struct Senders {
    slots: u16,
    key: Key,
    // The device that sends next, and its counter.
    next: u16,
    counter: u32,
}

impl Senders {
    /// This number of devices, each of which joined once and has sent nothing since.
    pub fn new(slots: u16) -> Self {
        Senders {
            slots,
            key: joined_key(),
            next: 0,
            counter: 0,
        }
    }

    /// The copies of this number of uplinks.
    pub fn copies(&mut self, alloc: Global, uplinks: u16) -> Result<Vec<FrameCopy>, Refusal> {
        let mut copies = Vec::new(alloc);
        for _ in 0..uplinks {
            let frame = uplink(0x40, self.next, self.counter, &self.key);
            copies.push(copy_of(alloc, &frame, GATEWAY)?)?;
            self.turn();
        }
        Ok(copies)
    }

    fn turn(&mut self) {
        self.next = self.next.saturating_add(1);
        if self.next >= self.slots {
            self.next = 0;
            self.counter = self.counter.saturating_add(1);
        }
    }
}
