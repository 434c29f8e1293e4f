// The layout of an area: what its bytes say.
ghost use Rattle.std.specs.Prelude.{◌≡◌, ◌≤◌, ◌+◌, ◌++◌, ◌↔◌, IsTrue, length, take, drop};
ghost use Rattle.std.specs.Int.{to_be_bytes, w16, w32, w64};

use byteorder::{BigEndian, ByteOrder};

/// A gate that is open; any other byte is a closed one.
pub const OPEN: u8 = 0xA5;

/// The byte that is written to close a gate.
pub const CLOSED: u8 = 0;

/// The number of bytes from an area's beginning to its records: its gate and its header.
pub const RECORDS_AT: u64 = 30;

/// The length in bytes of an area with no records and no batches: its gate, its header and the gate
/// of a batch.
pub const EMPTY_AREA_LEN: u64 = 31;

/// The number of bytes from a batch's gate to its entries: the gate and the batch's head.
pub const ENTRIES_AT: u64 = 15;

/// Where an area begins and ends on its disk, in bytes from the disk's beginning.
#[derive(Clone, Copy, PartialEq, Eq)]
pub struct Area {
    pub start: u64,
    pub end: u64,
}

/// The two areas of a disk. The live one has what the disk holds, and the next checkpoint is
/// written to the other one.
#[derive(Clone, Copy, PartialEq, Eq)]
pub struct Areas {
    pub live: Area,
    pub other: Area,
}

/// What follows an area's gate.
#[derive(Clone, Copy, PartialEq, Eq)]
pub struct Header {
    pub version: u8,
    pub generation: u64,
    /// The sequence number at which the records were taken.
    pub sequence: u64,
    pub record_count: u32,
    /// The length of the records in bytes.
    pub records_len: u64,
}

/// What follows a batch's gate.
#[derive(Clone, Copy)]
pub struct BatchHead {
    /// The length of the entries in bytes.
    pub entries_len: u32,
    pub last_sequence: u64,
    pub entry_count: u16,
}

impl Header {
    /// The length in bytes.
    pub const LEN: usize = 29;

    ghost use Rattle.gate_log.specs.Layout.{HasRoomFor, IsHeader, header_bytes};

    /// Whether the area has room for the records and the gate after them.
    pub fn fits(&self, area: Area) -> bool
        requires { area.start + EMPTY_AREA_LEN ≤ area.end }
        ensures { IsTrue result ↔ HasRoomFor area self.now }
    {
        self.records_len <= area.end - area.start - EMPTY_AREA_LEN
    }

    /// The bytes of this header.
    #[tactic(auto, unfolding(crate::specs::Layout::header_bytes))]
    pub(crate) fn to_bytes(self) -> [u8; Self::LEN]
        ensures { result ≡ header_bytes self }
    {
        let mut bytes = [self.version; Self::LEN];
        BigEndian::write_u64(&mut bytes[1..], self.generation);
        BigEndian::write_u64(&mut bytes[9..], self.sequence);
        BigEndian::write_u32(&mut bytes[17..], self.record_count);
        BigEndian::write_u64(&mut bytes[21..], self.records_len);
        bytes
    }

    /// Writes this header's bytes over the first ones.
    pub(crate) fn put(self, bytes: &mut [u8])
        requires { Header.LEN ≤ length bytes.old }
        ensures { bytes.new ≡ header_bytes self ++ drop Header.LEN bytes.old }
    {
        bytes[..Self::LEN].copy_from_slice(&self.to_bytes());
    }

    /// The header that these bytes spell.
    pub(crate) fn from_bytes(bytes: &[u8]) -> Header
        requires { length bytes.now ≡ Header.LEN }
        ensures spelled { header_bytes result ≡ bytes.now }
        ensures in_range { IsHeader result }
    {
        Header {
            version: bytes[0],
            generation: u64_at(bytes, 1),
            sequence: u64_at(bytes, 9),
            record_count: u32_at(bytes, 17),
            records_len: u64_at(bytes, 21),
        }
    }
}

impl BatchHead {
    /// The length in bytes.
    pub const LEN: usize = 14;

    ghost use Rattle.gate_log.specs.Layout.{IsHead, head_bytes};

    /// The bytes of this head.
    #[tactic(auto, unfolding(crate::specs::Layout::head_bytes))]
    pub(crate) fn to_bytes(self) -> [u8; Self::LEN]
        ensures { result ≡ head_bytes self }
    {
        let mut bytes = [0; Self::LEN];
        BigEndian::write_u32(&mut bytes, self.entries_len);
        BigEndian::write_u64(&mut bytes[4..], self.last_sequence);
        BigEndian::write_u16(&mut bytes[12..], self.entry_count);
        bytes
    }

    /// Writes this head's bytes over the first ones.
    pub(crate) fn put(self, bytes: &mut [u8])
        requires { BatchHead.LEN ≤ length bytes.old }
        ensures { bytes.new ≡ head_bytes self ++ drop BatchHead.LEN bytes.old }
    {
        bytes[..Self::LEN].copy_from_slice(&self.to_bytes());
    }

    /// The head that these bytes spell.
    pub(crate) fn from_bytes(bytes: &[u8]) -> BatchHead
        requires { length bytes.now ≡ BatchHead.LEN }
        ensures spelled { head_bytes result ≡ bytes.now }
        ensures in_range { IsHead result }
    {
        BatchHead {
            entries_len: u32_at(bytes, 0),
            last_sequence: u64_at(bytes, 4),
            entry_count: u16_at(bytes, 12),
        }
    }
}

fn u16_at(bytes: &[u8], at: usize) -> u16
    requires { at + 2 ≤ length bytes.now }
    ensures { to_be_bytes w16 result ≡ take 2 (drop at bytes.now) }
{
    BigEndian::read_u16(&bytes[at..])
}

fn u32_at(bytes: &[u8], at: usize) -> u32
    requires { at + 4 ≤ length bytes.now }
    ensures { to_be_bytes w32 result ≡ take 4 (drop at bytes.now) }
{
    BigEndian::read_u32(&bytes[at..])
}

fn u64_at(bytes: &[u8], at: usize) -> u64
    requires { at + 8 ≤ length bytes.now }
    ensures { to_be_bytes w64 result ≡ take 8 (drop at bytes.now) }
{
    BigEndian::read_u64(&bytes[at..])
}
