// The first bytes of a store.
ghost use Rattle.std.specs.Prelude.{◌≡◌, ◌≢◌, ◌<◌, ◌≤◌, ◌^◌, ◌↔◌, ℕ, ◌∷◌, Ok, Err, IfOk, IfErr};
ghost use Rattle.std.specs.Prelude.{◌⊎◌, codes, take, slice_index, IsTrue};
ghost use Rattle.lw_types.specs.declared.refusal.Refusal.TheVariants.{NotFormatted, WrongVersion};
ghost use Rattle.lw_types.specs.declared.refusal.Refusal.TheVariants.{Damaged};
ghost use Rattle.sessions.specs.Table.{IsSlots};
ghost use Rattle.store_layout.specs.Superblock.{superblock, area_len, disk_len, OpensArea};

use gate_log::{OPEN, RECORDS_AT};
use lw_types::{NetId, Refusal};
use sessions::Slots;

/// The bytes that are reserved for a record, or for a change of one. The largest record has 4,252;
/// the rest is left for later versions of records.
pub(crate) const RESERVED_RECORD: usize = 4_300;

/// The bytes of an area that are reserved for the entry of each slot: 5 bytes, and 4,300 for a
/// record.
pub const RESERVED_ENTRY: u64 = 5 + 4_300;

/// The bytes of an area that are left for batches: one mebibyte.
pub const JOURNAL_ROOM: u64 = 1_048_576;

/// The network of a store, and the number of devices for which it has room.
#[derive(Clone, Copy, PartialEq, Eq)]
pub struct Superblock {
    pub net_id: NetId,
    pub slots: Slots,
}

impl Superblock {
    /// The number of bytes.
    pub const LEN: usize = 32;

    /// The bytes, with an open gate in front.
    pub fn to_bytes(&self) -> [u8; 32]
        ensures bytes { result ≡ superblock self.now.net_id self.now.slots }
        ensures in_range { (self.now.net_id < 64) × IsSlots self.now.slots }
    {
        let [_, n2, n1, n0] = u32::from(self.net_id.get()).to_be_bytes();
        let [s3, s2, s1, s0] = (self.slots.get() as u32).to_be_bytes();
        let [a7, a6, a5, a4, a3, a2, a1, a0] = self.area_len().to_be_bytes();
        [
            OPEN, b'L', b'N', b'S', b'T', b'O', b'R', b'E', 1, n2, n1, n0, s3, s2, s1, s0, a7, a6,
            a5, a4, a3, a2, a1, a0, 0, 0, 0, 0, 0, 0, 0, 0,
        ]
    }

    /// The length of one area in bytes: a gate and a header, [`RESERVED_ENTRY`] for each slot, and
    /// [`JOURNAL_ROOM`].
    pub fn area_len(&self) -> u64
        ensures len { result ≡ area_len self.now.slots }
        ensures small { result < 2 ^ 32 }
    {
        RECORDS_AT + self.slots.get() * RESERVED_ENTRY + JOURNAL_ROOM
    }

    /// The length of the whole disk in bytes.
    pub fn disk_len(&self) -> u64
        ensures { result ≡ disk_len self.now.slots }
    {
        32 + 2 * self.area_len()
    }

    /// The superblock that these bytes are. Refused with `NotFormatted` if the gate is closed or
    /// the name is missing, else with `WrongVersion` if the version isn't 1, else with `Damaged` if
    /// another field is out of its range.
    pub fn from_bytes(bytes: &[u8; 32]) -> Result<Self, Refusal>
        ensures found { IfOk result (λ s. bytes.now ≡ superblock s.net_id s.slots) }
        ensures in_range { IfOk result (λ s. (s.net_id < 64) × IsSlots s.slots) }
        ensures only { (net_id slots : ℕ) → net_id < 64 → IsSlots slots
            → bytes.now ≡ superblock net_id slots
            → result ≡ Ok (record { net_id = net_id; slots = slots }) }
        ensures not_formatted { (result ≡ Err NotFormatted)
            ↔ (take 8 bytes.now ≢ OPEN ∷ codes "LNSTORE") }
        ensures version { (result ≡ Err WrongVersion)
            ↔ ((take 8 bytes.now ≡ OPEN ∷ codes "LNSTORE") × (slice_index bytes.now 8 ≢ 1)) }
        ensures refused { IfErr result
            (λ e. (e ≡ NotFormatted) ⊎ ((e ≡ WrongVersion) ⊎ (e ≡ Damaged))) }
    {
        if bytes[..8] != [OPEN, b'L', b'N', b'S', b'T', b'O', b'R', b'E'] {
            return Err(Refusal::NotFormatted);
        }
        if bytes[8] != 1 {
            return Err(Refusal::WrongVersion);
        }
        let net_id = u32::from_be_bytes([0, bytes[9], bytes[10], bytes[11]]);
        let slots = u32::from_be_bytes([bytes[12], bytes[13], bytes[14], bytes[15]]);
        match (NetId::new(net_id), Slots::new(u64::from(slots))) {
            (Some(net_id), Some(slots)) => Superblock { net_id, slots }.checked(bytes),
            _ => Err(Refusal::Damaged),
        }
    }

    // This superblock, if the bytes are its own.
    fn checked(self, bytes: &[u8; 32]) -> Result<Self, Refusal>
        ensures same { (bytes.now ≡ superblock self.net_id self.slots) → result ≡ Ok self }
        ensures other { (bytes.now ≢ superblock self.net_id self.slots) → result ≡ Err Damaged }
        ensures found { IfOk result
            (λ s. (s ≡ self) × (bytes.now ≡ superblock self.net_id self.slots)) }
        ensures refused { IfErr result (λ e. e ≡ Damaged) }
    {
        if bytes.as_slice() == self.to_bytes().as_slice() {
            Ok(self)
        } else {
            Err(Refusal::Damaged)
        }
    }
}

/// Whether a write of these bytes opens the gate of an area, on a store's disk of this length. The
/// last but one call of each checkpoint does so.
pub fn opens_area(len: u64, at: u64, bytes: &[u8]) -> bool
    ensures { (slots : ℕ) → len ≡ disk_len slots
        → (IsTrue result ↔ OpensArea slots at bytes.now) }
{
    let first = Superblock::LEN as u64;
    let area_len = len.saturating_sub(first) / 2;
    bytes == [OPEN].as_slice() && (at == first || at == first + area_len)
}
