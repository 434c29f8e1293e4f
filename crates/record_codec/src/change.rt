// A change of a record, in each version: from one record to another, and back from the change to
// the record.
ghost use Rattle.std.specs.Prelude.{◌≡◌, ◌≢◌, ◌≤◌, ◌<◌, ◌++◌, ◌↔◌, List, ℕ, IsTrue, IfOk, OnOk};
ghost use Rattle.std.specs.Prelude.{IfSome, MatchOption, MatchResult, Some, SomeIff, length};
ghost use Rattle.std.specs.Prelude.{option_map, unwrap_or};
ghost use Rattle.lw_types.specs.declared.refusal.Refusal.TheVariants.{OutOfMemory};
ghost use Rattle.mac_commands.specs.Queueable.{AreQueueable};
ghost use Rattle.devices.specs.Activation.{AreInOrder};
ghost use Rattle.devices.specs.Becoming.{AreItemsAfter, IsHeardAfter, MayBecome};
ghost use Rattle.devices.specs.Parts.{counters_of, nonces_of};
ghost use Rattle.record_codec.specs.declared.version.RecordVersion.TheVariants.{V1, V2};
ghost use Rattle.record_codec.specs.Answers.{ReadsChange};
ghost use Rattle.record_codec.specs.Change.{IsChangeOf, IsCurrentGroup, IsGroup, IsGrown};
ghost use Rattle.record_codec.specs.Change.{IsItemGroup};
ghost use Rattle.record_codec.specs.DeviceRecord.{IsToldBy, IsToldByV1};
ghost use Rattle.record_codec.specs.ChangeReading.{change_read, changed_current, changed_device};
ghost use Rattle.record_codec.specs.ChangeReading.{changed_grants, changed_heard, changed_items};
ghost use Rattle.record_codec.specs.ChangeReading.{HasRoomToGrow, IsNew, IsNewCurrent, IsNewItems};
ghost use Rattle.record_codec.specs.ChangeReading.{IsNewTo, IsNoChange};
ghost use Rattle.record_codec.specs.Parts.{groups_of_parts, item_change_of_parts, AreShort};
ghost use Rattle.record_codec.specs.Parts.{IsShortChange};
ghost use Rattle.record_codec.specs.Writing.{KeepsFront};

use crate::groups::read_groups;
use crate::parts::{Counters, GroupParts, ItemChangePart, ItemPart, Nonces};
use crate::version::{RecordVersion, taken_back};
use crate::written_groups::put_groups;
use byte_fields::FieldReader;
use devices::{
    Activation, CurrentSession, Device, ItemQueue, LAST_HEARD, MacQueue, Session, Tag, UplinkCount,
};
use lw_types::Refusal;
use mac_commands::are_queueable;
use std::alloc::{AllocError, Global};

/// The largest change of version 2, in bytes: that of a device which gets another current session
/// and a pending one, a full MAC queue, and an item of 242 bytes.
pub const LONGEST_CHANGE: usize = 475;

// ---- from one record to another

fn nonces_between(before: &Device, after: &Device) -> Option<Nonces>
    ensures group { IsGroup result (nonces_of before.now) (nonces_of after.now) }
    ensures in_order { AreInOrder after.now.activation }
{
    let nonces = (after.last_dev_nonce, after.activation.granted());
    if before.same_nonces(after) {
        None
    } else {
        Some(nonces)
    }
}

// The counters of a session.
fn counters_of(current: &Option<CurrentSession>) -> Option<Counters>
    ensures { result ≡ option_map (λ c. (c.last_up, c.next_down)) current.now }
{
    match current {
        None => None,
        Some(current) => Some((current.last_up, current.next_down)),
    }
}

// The current session if it is another one, else its counters if they differ.
fn current_between(
    before: &Device,
    after: &Device,
) -> (Option<Option<CurrentSession>>, Option<Counters>)
    ensures { IsCurrentGroup result.0 result.1 before.now.activation after.now.activation }
{
    let current = after.activation.current();
    if !before.same_session(after) {
        (Some(current), None)
    } else if !before.same_counters(after) {
        (None, counters_of(&current))
    } else {
        (None, None)
    }
}

fn pending_between(before: &Device, after: &Device) -> Option<Option<Session>>
    ensures { IsGroup result before.now.activation.pending after.now.activation.pending }
{
    if before.same_pending(after) {
        None
    } else {
        Some(after.activation.pending())
    }
}

fn awaited_between(before: &Device, after: &Device) -> Option<Option<Tag>>
    ensures { IsGroup result before.now.awaited after.now.awaited }
{
    if before.same_awaited(after) {
        None
    } else {
        Some(after.awaited)
    }
}

fn commands_between<'a>(before: &Device, after: &'a Device) -> Option<&'a [u8]>
    ensures group { IsGroup (option_map (λ bytes. bytes.now) result) before.now.mac_queue
        after.now.mac_queue }
    ensures few { IfSome result (λ bytes. length bytes.now ≤ MacQueue.MOST) }
    ensures whole { AreQueueable after.now.mac_queue }
{
    let commands = after.mac_queue.as_slice();
    if before.same_mac_queue(after) {
        None
    } else {
        Some(commands)
    }
}

// Whether one item is added or removed follows from the number of items.
fn items_between<'a>(before: &Device, after: &'a Device) -> Option<ItemChangePart<'a>>
    requires { AreItemsAfter before.now.items after.now.items }
    ensures group { IsItemGroup (option_map item_change_of_parts result) before.now.items
        after.now.items }
    ensures short { IfSome result IsShortChange }
    ensures few { length after.now.items ≤ ItemQueue.MOST }
{
    let items = after.items.as_slice();
    let found = before.items.as_slice().len();
    if items.len() < found {
        return Some(None);
    }
    match items.get(found) {
        None => None,
        Some(added) => Some(Some(ItemPart::of(added))),
    }
}

// Whether one more uplink is counted.
fn has_grown(before: &Device, after: &Device) -> bool
    requires { IsHeardAfter before.now.heard after.now.heard }
    ensures group { IsGrown result before.now.heard after.now.heard }
    ensures most { after.now.heard ≤ LAST_HEARD }
{
    let _most = after.heard.get();
    before.heard != after.heard
}

// Appends the change from one record to the next.
fn put_change(
    out: &mut Vec<u8>,
    version: RecordVersion,
    before: &Device,
    after: &Device,
) -> Result<(), AllocError>
    requires step { MayBecome before.now after.now }
    requires told { IsToldBy version after.now }
    ensures written { OnOk result ((bytes : List ℕ) × (out.new.items ≡ out.old.items ++ bytes)
        × IsChangeOf version before.now after.now bytes) }
    ensures keeps { KeepsFront out.old.items out.new.items }
{
    let (current, counters) = current_between(before, after);
    let groups = GroupParts {
        nonces: nonces_between(before, after),
        current,
        counters,
        pending: pending_between(before, after),
        awaited: awaited_between(before, after),
        mac_queue: commands_between(before, after),
        items: items_between(before, after),
        grew: has_grown(before, after),
    };
    put_groups(out, version, &groups)
}

// Appends the change from one record to the next. It has one spelling in a version. After an `Err`
// nothing was appended.
fn write_in(
    version: RecordVersion,
    before: &Device,
    after: &Device,
    out: &mut Vec<u8>,
) -> Result<(), Refusal>
    requires step { MayBecome before.now after.now }
    requires told { IsToldBy version after.now }
    ensures { MatchResult result
        (λ _. (bytes : List ℕ) × (out.new.items ≡ out.old.items ++ bytes)
        × IsChangeOf version before.now after.now bytes)
        (λ e. (e ≡ OutOfMemory) × (out.new.items ≡ out.old.items)) }
{
    let len = out.len();
    match put_change(out, version, before, after) {
        Ok(()) => Ok(()),
        Err(_) => Err(taken_back(out, len)),
    }
}

/// Appends the change from one record to the next in version 2. It has one spelling, of 1 byte to
/// [`LONGEST_CHANGE`]. Each byte is written once, and only the room of `out` takes memory. If
/// memory runs out, `OutOfMemory` is returned and nothing is appended.
pub fn write_change(before: &Device, after: &Device, out: &mut Vec<u8>) -> Result<(), Refusal>
    requires { MayBecome before.now after.now }
    ensures { MatchResult result
        (λ _. (bytes : List ℕ) × (out.new.items ≡ out.old.items ++ bytes)
        × IsChangeOf V2 before.now after.now bytes)
        (λ e. (e ≡ OutOfMemory) × (out.new.items ≡ out.old.items)) }
{
    write_in(RecordVersion::V2, before, after, out)
}

/// Appends the change from one record to the next in version 1, if version 1 can express the next
/// one. It has one spelling, of 1 to 411 bytes. Each byte is written once, and only the room of
/// `out` takes memory. If memory runs out, `OutOfMemory` is returned and nothing is appended.
pub fn write_change_v1(before: &Device, after: &Device, out: &mut Vec<u8>) -> Result<(), Refusal>
    requires step { MayBecome before.now after.now }
    requires told { IsToldByV1 after.now }
    ensures { MatchResult result
        (λ _. (bytes : List ℕ) × (out.new.items ≡ out.old.items ++ bytes)
        × IsChangeOf V1 before.now after.now bytes)
        (λ e. (e ≡ OutOfMemory) × (out.new.items ≡ out.old.items)) }
{
    write_in(RecordVersion::V1, before, after, out)
}

// ---- from a change to the record

impl GroupParts<'_> {
    fn nonces_after(&self, before: &Device) -> Nonces
        ensures { result ≡ unwrap_or self.now.nonces (nonces_of before.now) }
    {
        let found = (before.last_dev_nonce, before.activation.granted());
        self.nonces.unwrap_or(found)
    }

    fn current_after(&self, before: &Device) -> Option<CurrentSession>
        ensures { result ≡ changed_current self.now.current self.now.counters
            before.now.activation.current }
    {
        let found = before.activation.current();
        match (self.current, self.counters, found) {
            (Some(current), _, _) => current,
            (None, Some((last_up, next_down)), Some(current)) => Some(CurrentSession {
                session: current.session,
                last_up,
                next_down,
            }),
            (None, _, found) => found,
        }
    }

    // The grants and the sessions after the change, if they are in order.
    fn activation(&self, before: &Device) -> Option<Activation>
        ensures { let grants = changed_grants (groups_of_parts self.now) before.now in
            SomeIff result (AreInOrder grants) grants }
    {
        let (_, granted) = self.nonces_after(before);
        let pending = self.pending.unwrap_or(before.activation.pending());
        Activation::new(granted, self.current_after(before), pending)
    }

    // Whether the nonces and the tag differ from those before, if they are given.
    fn has_new_numbers(&self, before: &Device) -> bool
        ensures { IsTrue result ↔ (IsNew self.now.nonces (nonces_of before.now)
            × IsNew self.now.awaited before.now.awaited) }
    {
        let nonces = match self.nonces {
            None => true,
            Some((dev_nonce, granted)) => {
                dev_nonce != before.last_dev_nonce || granted != before.activation.granted()
            }
        };
        let awaited = match self.awaited {
            None => true,
            Some(awaited) => awaited != before.awaited,
        };
        nonces && awaited
    }

    // Whether the current session is another one, or its counters differ, if they are given.
    fn has_new_current(&self, before: &Device, after: &Activation) -> bool
        requires { after.now.current ≡ changed_current self.now.current self.now.counters
            before.now.activation.current }
        ensures { IsTrue result
            ↔ IsNewCurrent self.now.current self.now.counters before.now.activation }
    {
        let was = &before.activation;
        match (self.current.is_some(), self.counters.is_some()) {
            (false, false) => true,
            (true, false) => !after.same_session(was),
            (false, true) => was.current().is_some() && !after.same_counters(was),
            (true, true) => false,
        }
    }

    // Whether the pending session is another one, if it is given.
    fn has_new_pending(&self, before: &Device, after: &Activation) -> bool
        requires { after.now.pending ≡ unwrap_or self.now.pending before.now.activation.pending }
        ensures { IsTrue result ↔ IsNew self.now.pending before.now.activation.pending }
    {
        self.pending.is_none() || !after.same_pending(&before.activation)
    }

    // Whether the waiting commands are others, if they are given: whole ones that may be queued.
    fn has_new_commands(&self, before: &Device) -> bool
        ensures { let commands = option_map (λ bytes. bytes.now) self.now.mac_queue in
            IsTrue result ↔ (IsNew commands before.now.mac_queue
            × IfSome commands AreQueueable) }
    {
        match self.mac_queue {
            None => true,
            Some(bytes) => bytes != before.mac_queue.as_slice() && are_queueable(bytes),
        }
    }

    // Whether an item exists that can be removed, or there is room for the one that is added.
    fn has_new_items(&self, before: &Device) -> bool
        ensures { IsTrue result ↔ IsNewItems (option_map item_change_of_parts self.now.items)
            before.now.items }
    {
        match &self.items {
            None => true,
            Some(None) => !before.items.is_empty(),
            Some(Some(_)) => before.items.as_slice().len() < ItemQueue::MOST,
        }
    }

    // Whether the count isn't at its end, if it grows.
    fn has_room_to_grow(&self, before: &Device) -> bool
        ensures { IsTrue result ↔ HasRoomToGrow self.now.grew before.now.heard }
    {
        !self.grew || before.heard.get() < LAST_HEARD
    }

    // Whether the groups are a change of the record.
    fn is_new(&self, before: &Device, after: &Activation) -> bool
        requires grants { after.now ≡ changed_grants (groups_of_parts self.now) before.now }
        requires in_order { AreInOrder after.now }
        ensures { IsTrue result ↔ IsNewTo before.now (groups_of_parts self.now) }
    {
        self.has_new_numbers(before)
            && self.has_new_current(before, after)
            && self.has_new_pending(before, after)
            && self.has_new_commands(before)
            && self.has_new_items(before)
            && self.has_room_to_grow(before)
    }

    fn commands_after(&self, alloc: Global, before: &MacQueue) -> Result<MacQueue, AllocError>
        requires few { IfSome self.now.mac_queue (λ bytes. length bytes.now ≤ MacQueue.MOST) }
        requires whole { IfSome self.now.mac_queue (λ bytes. AreQueueable bytes.now) }
        ensures { IfOk result (λ queue. queue
            ≡ unwrap_or (option_map (λ bytes. bytes.now) self.now.mac_queue) before.now) }
    {
        match self.mac_queue {
            None => before.clone(),
            Some(bytes) => MacQueue::from_slice(alloc, bytes),
        }
    }

    fn items_after(&self, alloc: Global, before: &ItemQueue) -> Result<ItemQueue, AllocError>
        requires new { IsNewItems (option_map item_change_of_parts self.now.items) before.now }
        requires short { IfSome self.now.items IsShortChange }
        ensures { IfOk result (λ queue. queue
            ≡ changed_items (option_map item_change_of_parts self.now.items) before.now) }
    {
        let mut items = before.clone()?;
        match &self.items {
            None => (),
            Some(None) => {
                let _first = items.pop_first();
            }
            Some(Some(added)) => items.push(added.item(alloc)?)?,
        }
        Ok(items)
    }

    fn heard_after(&self, before: &Device) -> UplinkCount
        requires { HasRoomToGrow self.now.grew before.now.heard }
        ensures { result ≡ changed_heard self.now.grew before.now.heard }
    {
        let heard = before.heard.get();
        if self.grew {
            UplinkCount::new(heard + 1).unwrap()
        } else {
            before.heard
        }
    }

    /// The record after the change.
    pub(crate) fn device(
        &self,
        alloc: Global,
        before: &Device,
        activation: Activation,
    ) -> Result<Device, Refusal>
        requires grants { activation ≡ changed_grants (groups_of_parts self.now) before.now }
        requires new { IsNewTo before.now (groups_of_parts self.now) }
        requires short { AreShort self.now }
        ensures { MatchResult result
            (λ device. device ≡ changed_device (groups_of_parts self.now) before.now)
            (λ e. e ≡ OutOfMemory) }
    {
        let (last_dev_nonce, _) = self.nonces_after(before);
        Ok(Device {
            dev_eui: before.dev_eui,
            join_eui: before.join_eui,
            app_key: before.app_key,
            application: before.application,
            rx1_offset: before.rx1_offset,
            rx_delay: before.rx_delay,
            last_dev_nonce,
            activation,
            awaited: self.awaited.unwrap_or(before.awaited),
            mac_queue: self.commands_after(alloc, &before.mac_queue)?,
            items: self.items_after(alloc, &before.items)?,
            heard: self.heard_after(before),
        })
    }
}

/// The groups of a change of the record, which is all of the bytes, and the grants and sessions
/// after it. Takes no memory.
#[tactic(auto, unfolding(crate::specs::ChangeReading::change_read))]
pub(crate) fn change_in<'a>(
    version: RecordVersion,
    before: &Device,
    bytes: &'a [u8],
) -> Option<(GroupParts<'a>, Activation)>
    ensures field { MatchOption result (IsNoChange version before.now bytes.now)
        (λ found. change_read version bytes.now ≡ Some (groups_of_parts found.0)) }
    ensures new { IfSome result (λ found. IsNewTo before.now (groups_of_parts found.0)) }
    ensures grants { IfSome result
        (λ found. found.1 ≡ changed_grants (groups_of_parts found.0) before.now) }
    ensures short { IfSome result (λ found. AreShort found.0) }
{
    let mut fields = FieldReader { rest: bytes };
    let Some(groups) = read_groups(&mut fields, version) else {
        return None;
    };
    if !fields.rest.is_empty() {
        return None;
    }
    let Some(activation) = groups.activation(before) else {
        return None;
    };
    if groups.is_new(before, &activation) {
        Some((groups, activation))
    } else {
        None
    }
}

/// Reads a change of version 2, which is all of the bytes, and returns the record that it makes of
/// the one before it. Bytes that aren't a change of that record are refused as `Damaged`, with or
/// without free memory. A change is refused as `OutOfMemory` if memory runs out.
pub fn read_change(alloc: Global, before: &Device, bytes: &[u8]) -> Result<Device, Refusal>
    ensures { ReadsChange V2 before.now bytes.now result }
{
    RecordVersion::V2.read_change(alloc, before, bytes)
}

/// Reads a change of version 1, which is all of the bytes, and returns the record that it makes of
/// the one before it. Bytes that aren't a change of that record are refused as `Damaged`, with or
/// without free memory. A change is refused as `OutOfMemory` if memory runs out.
pub fn read_change_v1(alloc: Global, before: &Device, bytes: &[u8]) -> Result<Device, Refusal>
    ensures { ReadsChange V1 before.now bytes.now result }
{
    RecordVersion::V1.read_change(alloc, before, bytes)
}
