// The reader of fields.
ghost use Rattle.std.specs.Prelude.{◌≡◌, ◌+◌, OnSome, length};
ghost use Rattle.std.specs.Int.{w16, w32, w64};
ghost use Rattle.byte_fields.specs.Reading.{Gives, GivesSeen, be_at, be_eui_at, byte_at};
ghost use Rattle.byte_fields.specs.Reading.{counted_at, flag_at, front_at, key_at, le_at};
ghost use Rattle.byte_fields.specs.Reading.{le_eui_at, ranged_at, three_be_bytes_at};

use lw_types::{Eui, Key, Ranged};

/// The bytes that are left to read. Each call reads the field at their front and moves past it, or
/// returns `None` if there is no such field.
#[derive(Clone, Copy)]
pub struct FieldReader<'a> {
    pub rest: &'a [u8],
}

impl<'a> FieldReader<'a> {
    /// `N` bytes.
    pub fn array<const N: usize>(&mut self) -> Option<[u8; N]>
        ensures field { Gives result self.new.rest.now (front_at N self.old.rest.now) }
        ensures left { OnSome result (length self.new.rest.now + N ≡ length self.old.rest.now) }
    {
        let (front, rest) = self.rest.split_first_chunk::<N>()?;
        self.rest = rest;
        Some(*front)
    }

    /// A byte.
    pub fn byte(&mut self) -> Option<u8>
        ensures field { Gives result self.new.rest.now (byte_at self.old.rest.now) }
        ensures left { OnSome result (length self.new.rest.now + 1 ≡ length self.old.rest.now) }
    {
        let (byte, rest) = self.rest.split_first()?;
        self.rest = rest;
        Some(*byte)
    }

    /// A number of two bytes, the lowest first.
    pub fn u16_le(&mut self) -> Option<u16>
        ensures field { Gives result self.new.rest.now (le_at w16 self.old.rest.now) }
        ensures left { OnSome result (length self.new.rest.now + 2 ≡ length self.old.rest.now) }
    {
        Some(u16::from_le_bytes(self.array()?))
    }

    /// A number of four bytes, the lowest first.
    pub fn u32_le(&mut self) -> Option<u32>
        ensures field { Gives result self.new.rest.now (le_at w32 self.old.rest.now) }
        ensures left { OnSome result (length self.new.rest.now + 4 ≡ length self.old.rest.now) }
    {
        Some(u32::from_le_bytes(self.array()?))
    }

    /// An EUI, the lowest byte first.
    pub fn eui_le(&mut self) -> Option<Eui>
        ensures { Gives result self.new.rest.now (le_eui_at self.old.rest.now) }
    {
        Some(Eui(u64::from_le_bytes(self.array()?)))
    }

    /// A number of two bytes, the highest first.
    pub fn u16_be(&mut self) -> Option<u16>
        ensures { Gives result self.new.rest.now (be_at w16 self.old.rest.now) }
    {
        Some(u16::from_be_bytes(self.array()?))
    }

    /// A number of three bytes, the highest first.
    pub fn u24_be(&mut self) -> Option<u32>
        ensures { Gives result self.new.rest.now (three_be_bytes_at self.old.rest.now) }
    {
        let [high, middle, low] = self.array::<3>()?;
        Some(u32::from_be_bytes([0, high, middle, low]))
    }

    /// A number of four bytes, the highest first.
    pub fn u32_be(&mut self) -> Option<u32>
        ensures { Gives result self.new.rest.now (be_at w32 self.old.rest.now) }
    {
        Some(u32::from_be_bytes(self.array()?))
    }

    /// A number of eight bytes, the highest first.
    pub fn u64_be(&mut self) -> Option<u64>
        ensures { Gives result self.new.rest.now (be_at w64 self.old.rest.now) }
    {
        Some(u64::from_be_bytes(self.array()?))
    }

    /// An EUI, the highest byte first.
    pub fn eui_be(&mut self) -> Option<Eui>
        ensures { Gives result self.new.rest.now (be_eui_at self.old.rest.now) }
    {
        Some(Eui(self.u64_be()?))
    }

    /// The 16 bytes of a key.
    pub fn key(&mut self) -> Option<Key>
        ensures { Gives result self.new.rest.now (key_at self.old.rest.now) }
    {
        Some(Key(self.array()?))
    }

    /// A byte from `LEAST` to `MOST`.
    pub fn ranged<const LEAST: u64, const MOST: u64>(&mut self) -> Option<Ranged<LEAST, MOST>>
        ensures { Gives result self.new.rest.now (ranged_at LEAST MOST self.old.rest.now) }
    {
        Ranged::new(u64::from(self.byte()?))
    }

    /// 00 or 01.
    pub fn flag(&mut self) -> Option<bool>
        ensures { Gives result self.new.rest.now (flag_at self.old.rest.now) }
    {
        match self.byte()? {
            0 => Some(false),
            1 => Some(true),
            _ => None,
        }
    }

    /// A byte that gives a length, and this number of bytes.
    #[tactic(auto, unfolding(crate::specs::Reading::counted_at))]
    pub fn counted(&mut self) -> Option<&'a [u8]>
        ensures { GivesSeen (λ bytes. bytes.now) result self.new.rest.now
            (counted_at self.old.rest.now) }
    {
        let len = self.byte()?;
        let (front, rest) = self.rest.split_at_checked(usize::from(len))?;
        self.rest = rest;
        Some(front)
    }
}
