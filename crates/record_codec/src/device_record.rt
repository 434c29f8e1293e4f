// A device record as a whole, in each version.
ghost use Rattle.std.specs.Prelude.{◌≡◌, ◌≤◌, ◌<◌, ◌^◌, ◌++◌, ◌∷◌, [], IfSome, IsSome};
ghost use Rattle.std.specs.Prelude.{MatchOption, MatchResult, OnOk, Some, length};
ghost use Rattle.std.specs.Int.{w16};
ghost use Rattle.lw_types.specs.declared.refusal.Refusal.TheVariants.{OutOfMemory};
ghost use Rattle.byte_fields.specs.Reading.{Gives, GivesSeen};
ghost use Rattle.mac_commands.specs.Queueable.{AreQueueable};
ghost use Rattle.record_codec.specs.Answers.{ReadsRecord};
ghost use Rattle.record_codec.specs.DeviceRecord.{awaited_bytes, dev_nonce, head, heard_bytes};
ghost use Rattle.record_codec.specs.DeviceRecord.{spelling, HeadIsInRange, IsDevice, IsToldBy};
ghost use Rattle.record_codec.specs.DeviceRecord.{IsToldByV1};
ghost use Rattle.record_codec.specs.Parts.{device_of_parts};
ghost use Rattle.record_codec.specs.Reading.{awaited_at, device_at, flagged_at, heard_at, items_at};
ghost use Rattle.record_codec.specs.Reading.{record_at, IsNoRecord};
ghost use Rattle.record_codec.specs.Writing.{KeepsFront};
ghost use Rattle.record_codec.specs.declared.version.RecordVersion.TheVariants.{V1, V2};

use crate::activation_fields::{put_activation, read_activation};
use crate::queues::{ItemParts, put_item_queue, read_items, read_mac_queue};
use crate::version::{RecordVersion, taken_back};
use crate::written_fields::{put_counted, put_eui, put_flag, put_key};
use byte_fields::FieldReader;
use devices::{
    Activation, Application, Device, ItemQueue, LAST_HEARD, MacQueue, Rx1Offset, RxDelay, Tag,
    UplinkCount,
};
use lw_types::{Eui, Key, Refusal};
use mac_commands::are_queueable;
use std::alloc::{AllocError, Global};

/// A flag and the last DevNonce, which is 0 if the flag is 0.
#[tactic(auto, unfolding(crate::specs::Reading::flagged_at))]
pub(crate) fn read_dev_nonce(fields: &mut FieldReader<'_>) -> Option<Option<u16>>
    ensures { Gives result fields.new.rest.now (flagged_at w16 fields.old.rest.now) }
{
    let is_there = fields.flag()?;
    match (is_there, fields.u16_be()?) {
        (true, number) => Some(Some(number)),
        (false, 0) => Some(None),
        (false, _) => None,
    }
}

/// A flag and the tag that is awaited, which is 0 if the flag is 0.
#[tactic(auto, unfolding(crate::specs::Reading::flagged_at))]
pub(crate) fn read_awaited(fields: &mut FieldReader<'_>) -> Option<Option<Tag>>
    ensures { Gives result fields.new.rest.now (awaited_at fields.old.rest.now) }
{
    let is_there = fields.flag()?;
    match (is_there, fields.u32_be()?) {
        (true, number) => Some(Some(Tag(number))),
        (false, 0) => Some(None),
        (false, _) => None,
    }
}

// The count of uplinks. A record of version 1 doesn't have it.
fn read_heard(fields: &mut FieldReader<'_>, version: RecordVersion) -> Option<UplinkCount>
    ensures { Gives result fields.new.rest.now (heard_at version fields.old.rest.now) }
{
    match version {
        RecordVersion::V1 => UplinkCount::new(0),
        RecordVersion::V2 => UplinkCount::new(fields.u64_be()?),
    }
}

/// The largest record of version 2, in bytes: that of a device with two sessions, a full MAC queue,
/// and 16 items of 242 bytes. A record of version 1 has at most 4,180 bytes.
pub const LONGEST_RECORD: usize = 4_252;

/// A record whose fields are complete and in their ranges. What needs memory is still in the bytes.
#[derive(Clone, Copy)]
pub(crate) struct RecordParts<'a> {
    dev_eui: Eui,
    join_eui: Eui,
    app_key: Key,
    application: Application,
    rx1_offset: Rx1Offset,
    rx_delay: RxDelay,
    last_dev_nonce: Option<u16>,
    activation: Activation,
    awaited: Option<Tag>,
    mac_queue: &'a [u8],
    items: ItemParts<'a>,
    heard: UplinkCount,
}

#[tactic(auto, unfolding(crate::specs::Reading::device_at, crate::specs::Reading::head_at))]
fn read_parts<'a>(fields: &mut FieldReader<'a>, version: RecordVersion) -> Option<RecordParts<'a>>
    ensures field { GivesSeen device_of_parts result fields.new.rest.now
        (device_at version fields.old.rest.now) }
    ensures mac_queue { IfSome result (λ r. length r.mac_queue.now ≤ MacQueue.MOST) }
    ensures items { IfSome result (λ r. r.items.count ≤ ItemQueue.MOST) }
    ensures there { IfSome result (λ r. IsSome (items_at r.items.count r.items.bytes.now)) }
{
    Some(RecordParts {
        dev_eui: fields.eui_be()?,
        join_eui: fields.eui_be()?,
        app_key: fields.key()?,
        application: fields.ranged()?,
        rx1_offset: fields.ranged()?,
        rx_delay: fields.ranged()?,
        last_dev_nonce: read_dev_nonce(fields)?,
        activation: read_activation(fields)?,
        awaited: read_awaited(fields)?,
        mac_queue: read_mac_queue(fields, version)?,
        items: read_items(fields)?,
        heard: read_heard(fields, version)?,
    })
}

/// The parts of a record that is all of the bytes. Takes no memory.
#[tactic(auto, unfolding(crate::specs::Reading::record_at))]
pub(crate) fn read_record(version: RecordVersion, bytes: &[u8]) -> Option<RecordParts<'_>>
    ensures field { MatchOption result (IsNoRecord version bytes.now)
        (λ r. record_at version bytes.now ≡ Some (device_of_parts r)) }
    ensures whole { IfSome result (λ r. AreQueueable r.mac_queue.now) }
    ensures mac_queue { IfSome result (λ r. length r.mac_queue.now ≤ MacQueue.MOST) }
    ensures items { IfSome result (λ r. r.items.count ≤ ItemQueue.MOST) }
    ensures there { IfSome result (λ r. IsSome (items_at r.items.count r.items.bytes.now)) }
{
    let mut fields = FieldReader { rest: bytes };
    let Some(parts) = read_parts(&mut fields, version) else {
        return None;
    };
    if fields.rest.is_empty() && are_queueable(parts.mac_queue) {
        Some(parts)
    } else {
        None
    }
}

impl RecordParts<'_> {
    /// The device, with queues of its own.
    pub fn device(self, alloc: Global) -> Result<Device, Refusal>
        requires mac_queue { length self.mac_queue.now ≤ MacQueue.MOST }
        requires whole { AreQueueable self.mac_queue.now }
        requires items { self.items.count ≤ ItemQueue.MOST }
        requires there { IsSome (items_at self.items.count self.items.bytes.now) }
        ensures { MatchResult result (λ device. device ≡ device_of_parts self.entry)
            (λ e. e ≡ OutOfMemory) }
    {
        Ok(Device {
            dev_eui: self.dev_eui,
            join_eui: self.join_eui,
            app_key: self.app_key,
            application: self.application,
            rx1_offset: self.rx1_offset,
            rx_delay: self.rx_delay,
            last_dev_nonce: self.last_dev_nonce,
            activation: self.activation,
            awaited: self.awaited,
            mac_queue: MacQueue::from_slice(alloc, self.mac_queue)?,
            items: self.items.queue(alloc)?,
            heard: self.heard,
        })
    }
}

/// Reads a device from its record of version 2, which is all of the bytes. Bytes that aren't such a
/// record are refused as `Damaged`, with or without free memory. A record is refused as
/// `OutOfMemory` if memory runs out.
pub fn read_device(alloc: Global, bytes: &[u8]) -> Result<Device, Refusal>
    ensures { ReadsRecord V2 bytes.now result }
{
    RecordVersion::V2.read_device(alloc, bytes)
}

/// Reads a device from its record of version 1, which is all of the bytes. Bytes that aren't such a
/// record are refused as `Damaged`, with or without free memory. A record is refused as
/// `OutOfMemory` if memory runs out. The device has no uplink counted.
pub fn read_device_v1(alloc: Global, bytes: &[u8]) -> Result<Device, Refusal>
    ensures { ReadsRecord V1 bytes.now result }
{
    RecordVersion::V1.read_device(alloc, bytes)
}

// The application, and when and how fast the device is answered.
fn put_terms(out: &mut Vec<u8>, device: &Device) -> Result<(), AllocError>
    ensures written { OnOk result (out.new.items
        ≡ out.old.items ++ device.now.application ∷ device.now.rx1_offset ∷ device.now.rx_delay
        ∷ []) }
    ensures application { device.now.application ≤ 15 }
    ensures rx1_offset { device.now.rx1_offset ≤ 5 }
    ensures rx_delay { (1 ≤ device.now.rx_delay) × (device.now.rx_delay ≤ 15) }
    ensures keeps { KeepsFront out.old.items out.new.items }
{
    let application = device.application.get() as u8;
    let offset = device.rx1_offset.get() as u8;
    let delay = device.rx_delay.get() as u8;
    out.extend_from_slice(&[application, offset, delay])
}

fn put_head(out: &mut Vec<u8>, device: &Device) -> Result<(), AllocError>
    ensures written { OnOk result (out.new.items ≡ out.old.items ++ head device.now) }
    ensures in_range { OnOk result (HeadIsInRange device.now) }
    ensures keeps { KeepsFront out.old.items out.new.items }
{
    put_eui(out, device.dev_eui)?;
    put_eui(out, device.join_eui)?;
    put_key(out, device.app_key)?;
    put_terms(out, device)
}

/// Appends a flag and the last DevNonce, 0 for none.
pub(crate) fn put_dev_nonce(out: &mut Vec<u8>, nonce: Option<u16>) -> Result<(), AllocError>
    ensures written { OnOk result (out.new.items ≡ out.old.items ++ dev_nonce nonce) }
    ensures in_range { IfSome nonce (λ n. n < 2 ^ 16) }
    ensures keeps { KeepsFront out.old.items out.new.items }
{
    put_flag(out, nonce.is_some())?;
    out.extend_from_slice(&nonce.unwrap_or(0).to_be_bytes())?;
    Ok(())
}

/// Appends a flag and the tag that is awaited, 0 for none.
pub(crate) fn put_awaited(out: &mut Vec<u8>, tag: Option<Tag>) -> Result<(), AllocError>
    ensures written { OnOk result (out.new.items ≡ out.old.items ++ awaited_bytes tag) }
    ensures in_range { IfSome tag (λ t. t.0 < 2 ^ 32) }
    ensures keeps { KeepsFront out.old.items out.new.items }
{
    let number = match tag {
        None => 0,
        Some(Tag(number)) => number,
    };
    put_flag(out, tag.is_some())?;
    out.extend_from_slice(&number.to_be_bytes())?;
    Ok(())
}

// Appends the count of uplinks. A record of version 1 doesn't have it.
fn put_heard(
    out: &mut Vec<u8>,
    version: RecordVersion,
    heard: UplinkCount,
) -> Result<(), AllocError>
    ensures written { OnOk result (out.new.items ≡ out.old.items ++ heard_bytes version heard) }
    ensures most { heard ≤ LAST_HEARD }
    ensures keeps { KeepsFront out.old.items out.new.items }
{
    let number = heard.get();
    match version {
        RecordVersion::V1 => Ok(()),
        RecordVersion::V2 => out.extend_from_slice(&number.to_be_bytes()),
    }
}

// Appends the record of a device.
#[tactic(auto, unfolding(crate::specs::DeviceRecord::spelling))]
fn put_device(out: &mut Vec<u8>, version: RecordVersion, device: &Device) -> Result<(), AllocError>
    requires { IsToldBy version device.now }
    ensures written { OnOk result (out.new.items ≡ out.old.items ++ spelling version device.now) }
    ensures in_range { OnOk result (IsDevice version device.now) }
    ensures keeps { KeepsFront out.old.items out.new.items }
{
    put_head(out, device)?;
    put_dev_nonce(out, device.last_dev_nonce)?;
    put_activation(out, &device.activation)?;
    put_awaited(out, device.awaited)?;
    put_counted(out, device.mac_queue.as_slice())?;
    put_item_queue(out, &device.items)?;
    put_heard(out, version, device.heard)?;
    Ok(())
}

// Appends the record of a device. It has one spelling in a version. After an `Err` nothing was
// appended.
fn write_in(version: RecordVersion, device: &Device, out: &mut Vec<u8>) -> Result<(), Refusal>
    requires { IsToldBy version device.now }
    ensures { MatchResult result
        (λ _. (out.new.items ≡ out.old.items ++ spelling version device.now)
        × IsDevice version device.now)
        (λ e. (e ≡ OutOfMemory) × (out.new.items ≡ out.old.items)) }
{
    let len = out.len();
    match put_device(out, version, device) {
        Ok(()) => Ok(()),
        Err(_) => Err(taken_back(out, len)),
    }
}

/// Appends the record of a device in version 2. It has one spelling, of 58 bytes to
/// [`LONGEST_RECORD`]. Each byte is written once, and only the room of `out` takes memory. If
/// memory runs out, `OutOfMemory` is returned and nothing is appended.
pub fn write_device(device: &Device, out: &mut Vec<u8>) -> Result<(), Refusal>
    // What is written can be read again as the record of a device.
    ensures { MatchResult result
        (λ _. (out.new.items ≡ out.old.items ++ spelling V2 device.now) × IsDevice V2 device.now)
        (λ e. (e ≡ OutOfMemory) × (out.new.items ≡ out.old.items)) }
{
    write_in(RecordVersion::V2, device, out)
}

/// Appends the record in version 1 of a device that version 1 can express. It has one spelling, of
/// 50 to 4,180 bytes. Each byte is written once, and only the room of `out` takes memory. If memory
/// runs out, `OutOfMemory` is returned and nothing is appended.
pub fn write_device_v1(device: &Device, out: &mut Vec<u8>) -> Result<(), Refusal>
    requires { IsToldByV1 device.now }
    ensures { MatchResult result
        (λ _. (out.new.items ≡ out.old.items ++ spelling V1 device.now) × IsDevice V1 device.now)
        (λ e. (e ≡ OutOfMemory) × (out.new.items ≡ out.old.items)) }
{
    write_in(RecordVersion::V1, device, out)
}
