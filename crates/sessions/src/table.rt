// The table of a network's devices.
ghost use Rattle.std.specs.Prelude.{◌≡◌, ◌≢◌, ◌≤◌, ◌<◌, MatchResult, None, length};
ghost use Rattle.lw_types.specs.declared.refusal.Refusal.TheVariants.{Damaged, OutOfMemory};

mod continuation;
mod decide;
mod hear;
mod overlay;
mod queueing;
mod restoring;

use devices::Device;
pub use hear::Question;
use lw_types::{Eui, NetId, Ranged, Refusal};
use std::alloc::Global;
use std::collections::HashMap;
use std::marker::Model;

/// The most slots that a table has.
pub const MOST_SLOTS: u64 = 4096;

/// The number of slots of a table, from 1 to 4,096.
pub type Slots = Ranged<1, MOST_SLOTS>;

/// A network's devices by slot, and an index of their DevEUIs. All its room is reserved when it is
/// made, so placing a device takes no memory. The cost of a look-up doesn't grow with the number of
/// devices.
pub struct Table {
    alloc: Global,
    net_id: NetId,
    slots: Slots,
    devices: Vec<Device>,
    index: HashMap<u64, u16>,
}

// By hand, so that it is proved once: a derived drop is proved again at each use of the type.
impl Drop for Table {
    fn drop(self) {
        let Self {
            alloc: _,
            net_id: _,
            slots: _,
            devices: _,
            index: _,
        } = self;
    }
}

impl Model for Table {
    ghost use Rattle.sessions.specs.Table.{TableState};

    ghost Value = { TableState };

    ghost use Rattle.sessions.specs.Index.{table_of, IsIndexed};

    ghost view = { table_of };

    ghost invariant = { IsIndexed };
}

impl Table {
    ghost use Rattle.sessions.specs.Index.{HaveOwnSlots};
    ghost use Rattle.sessions.specs.Table.{empty_table, slot_of, with_record, CanPlace, CanPut};

    /// A table without devices.
    pub fn new(alloc: Global, net_id: NetId, slots: Slots) -> Result<Self, Refusal>
        ensures { MatchResult result (λ t. t ≡ empty_table net_id slots) (λ e. e ≡ OutOfMemory) }
    {
        let most = slots.get() as usize;
        Ok(Table {
            alloc,
            net_id,
            slots,
            devices: Vec::with_capacity(alloc, most)?,
            index: HashMap::with_capacity(alloc, most)?,
        })
    }

    /// The network.
    pub fn net_id(&self) -> NetId
        ensures { result ≡ self.now.net_id }
    {
        self.net_id
    }

    /// The number of slots.
    pub fn slots(&self) -> Slots
        ensures { result ≡ self.now.slots }
    {
        self.slots
    }

    /// The devices in order of their slots. No two have the same DevEUI.
    pub fn devices(&self) -> &[Device]
        ensures devices { result.now ≡ self.now.devices }
        ensures few { length self.now.devices ≤ self.now.slots }
        ensures own { HaveOwnSlots self.now.devices }
    {
        self.devices.as_slice()
    }

    /// The slot of the device with this DevEUI.
    pub fn slot_of(&self, dev_eui: Eui) -> Option<u16>
        ensures { result ≡ slot_of dev_eui.0 self.now.devices }
    {
        self.index.get(&dev_eui.0).copied()
    }

    // Each device is found at its own slot, so no two have the same DevEUI.
    pub(crate) fn devices_are_apart(&self)
        ensures { HaveOwnSlots self.now.devices }
    {
        let _ = &self.index;
    }

    /// Puts a record at a slot: at a slot in use a record of its own device, at the next slot one
    /// of a new device. Takes no memory.
    pub fn set_device(&mut self, slot: u16, device: Device)
        requires { CanPlace self.old slot device }
        ensures { self.new ≡ with_record self.old slot device }
    {
        let at = slot as usize;
        if at < self.devices.len() {
            self.devices[at] = device;
        } else {
            let dev_eui = device.dev_eui.0;
            let indexed: Result<_, _> = self.index.insert(dev_eui, slot);
            let _ = indexed.unwrap();
            let pushed: Result<_, _> = self.devices.push(device);
            pushed.unwrap();
        }
    }

    /// The same table in newly allocated memory. Its cost grows with the number of devices.
    pub fn copy(&self) -> Result<Self, Refusal>
        ensures { MatchResult result (λ t. t ≡ self.now) (λ e. e ≡ OutOfMemory) }
    {
        let most = self.slots.get() as usize;
        let mut devices = Vec::with_capacity(self.alloc, most)?;
        let mut index = HashMap::with_capacity(self.alloc, most)?;
        for (slot, device) in self.devices.iter().enumerate() {
            let indexed: Result<_, _> = index.insert(device.dev_eui.0, slot as u16);
            let _ = indexed.unwrap();
            let pushed: Result<_, _> = devices.push(device.copy()?);
            pushed.unwrap();
        }
        Ok(Table {
            alloc: self.alloc,
            net_id: self.net_id,
            slots: self.slots,
            devices,
            index,
        })
    }

    /// Puts a record at a slot as an image of a store says: at a slot in use or the next one, with
    /// a DevEUI that no other slot has. Refused with `Damaged` exactly if that doesn't hold, and
    /// with `OutOfMemory` if memory runs out. A refusal changes nothing.
    pub fn put(&mut self, slot: u16, device: Device) -> Result<(), Refusal>
        ensures { MatchResult result
            (λ _. CanPut self.old slot device × (self.new ≡ with_record self.old slot device))
            (λ e. (self.new ≡ self.old)
            × (e ≢ OutOfMemory → (e ≡ Damaged) × ¬ (CanPut self.old slot device))) }
    {
        let at = slot as usize;
        let next = self.devices().len();
        if at > next || at as u64 >= self.slots().get() {
            return Err(Refusal::Damaged);
        }
        match self.slot_of(device.dev_eui) {
            Some(other) if other != slot => return Err(Refusal::Damaged),
            Some(_) => self.set_device(slot, device),
            None if at == next => self.set_device(slot, device),
            None => self.rename(slot, device)?,
        }
        Ok(())
    }

    // Replaces the device at a slot in use by a device that isn't in the table yet. After an `Err`,
    // which is out of memory, the table is unchanged.
    fn rename(&mut self, slot: u16, device: Device) -> Result<(), Refusal>
        requires used { slot < length self.old.devices }
        requires new_name { slot_of device.dev_eui.0 self.old.devices ≡ None }
        ensures { MatchResult result
            (λ _. self.new ≡ with_record self.old slot device)
            (λ e. (e ≡ OutOfMemory) × (self.new ≡ self.old)) }
    {
        let at = slot as usize;
        let most = self.slots.get() as usize;
        self.index.reserve(most + 1)?;
        let before = self.devices[at].dev_eui.0;
        let _ = self.index.remove(&before);
        let indexed: Result<_, _> = self.index.insert(device.dev_eui.0, slot);
        let _ = indexed.unwrap();
        self.devices[at] = device;
        Ok(())
    }
}
