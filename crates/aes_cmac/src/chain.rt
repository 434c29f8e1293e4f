// The chain of a message's blocks, byte by byte (RFC 4493 §2.4).
ghost use Rattle.std.specs.Prelude.{◌≡◌, ◌+◌, ◌-◌, ◌/◌, ◌<◌, ◌≤◌, ℕ, List, [], ◌∷◌, ◌++◌, length};
ghost use Rattle.aes_cmac.specs.Cmac.{IsChained, blocks_before_last, cmac, double};

use aes128::{KeySchedule, xor};

// The block that isn't encrypted yet: the bytes are added to it as they come.
#[derive(Drop)]
pub struct Chain {
    block: [u8; 16],
    used: usize,
    ghost in_range: { used ≤ 16 },
}

impl Chain {
    pub fn new() -> Self
        ensures { (key : List ℕ) → IsChained key result.block [] result.used 0 }
    {
        Chain {
            block: [0; 16],
            used: 0,
        }
    }

    // Takes the next bytes of the message.
    pub fn absorb(&mut self, keys: &KeySchedule, piece: &[u8])
        ensures { (message : List ℕ)
            → IsChained keys.now self.old.block message self.old.used (blocks_before_last message)
            → IsChained keys.now self.new.block (message ++ piece.now) self.new.used
            (blocks_before_last (message ++ piece.now)) }
    {
        for byte in piece {
            self.absorb_byte(keys, *byte);
        }
    }

    fn absorb_byte(&mut self, keys: &KeySchedule, byte: u8)
        ensures { (message : List ℕ)
            → IsChained keys.now self.old.block message self.old.used (blocks_before_last message)
            → IsChained keys.now self.new.block (message ++ byte ∷ []) self.new.used
            (blocks_before_last (message ++ byte ∷ [])) }
    {
        self.make_room(keys);
        self.block[self.used] ^= byte;
        self.used += 1;
    }

    // Encrypts a whole block, but only when another byte comes, since the last block is masked
    // first.
    fn make_room(&mut self, keys: &KeySchedule)
        ensures room { self.new.used < 16 }
        ensures chained { (message : List ℕ)
            → IsChained keys.now self.old.block message self.old.used (blocks_before_last message)
            → IsChained keys.now self.new.block message self.new.used (length message / 16) }
    {
        if self.used == 16 {
            keys.encrypt(&mut self.block);
            self.used = 0;
        }
    }

    // The MAC, after the whole message has come.
    pub fn finish(mut self, keys: &KeySchedule) -> [u8; 16]
        ensures { (message : List ℕ)
            → IsChained keys.now self.block message self.used (blocks_before_last message)
            → result ≡ cmac keys.now message }
    {
        let mut subkey = [0; 16];
        keys.encrypt(&mut subkey);
        subkey = doubled(subkey);
        if self.used < 16 {
            self.block[self.used] ^= 0x80;
            subkey = doubled(subkey);
        }
        let mut mac = self.block;
        xor(&mut mac, &subkey);
        keys.encrypt(&mut mac);
        mac
    }
}

fn doubled(block: [u8; 16]) -> [u8; 16]
    ensures { result ≡ double block }
{
    let number = u128::from_be_bytes(block);
    if number < 1 << 127 {
        (number << 1).to_be_bytes()
    } else {
        ((number << 1) ^ 0x87).to_be_bytes()
    }
}
