//! A network with one device under test: its record before, what comes, and the result that is
//! wanted.
use crate::fixture::{JOINER, heard, heard_by, joining, provisioning, session};
use crate::tables::{alone, filled};
use devices::{
    Activation, Application, AskedBytes, Channels, Command, CurrentSession, Device, Effect,
    Hearing, Item, ItemQueue, MacQueue, MacQueueing, NextDown, Payload, Port, Provisioning,
    Queueing, Rx1Offset, Tag, UplinkCount,
};
use gateway_wire::Emission;
use lw_types::{Eui, JoinNonce, Reception, Refusal, read_hex, write_hex};
use sessions::Table;
use std::alloc::Global;

/// What a join grants: the JoinNonce and the keys of the session, NwkSKey first.
pub(crate) type Grant = (u32, (u128, u128));

/// An item that waits: its tag, its port, whether it is confirmed, and how many bytes 06 it has.
pub(crate) type Waiting = (u32, u64, bool, usize);

/// The items that wait for a device.
#[derive(Clone, Copy)]
pub(crate) enum Items {
    /// This number of confirmed items of one byte with tag 9, on the ports from 1 on.
    Ports(u64),
    One(Waiting),
    Two(Waiting, Waiting),
}

/// The record of the device under test.
#[derive(Clone, Copy)]
pub(crate) struct State {
    pub dev_eui: u64,
    /// Its slot in the network 00002A. Other devices are at those below.
    pub slot: u16,
    pub rx1_offset: u64,
    pub last_dev_nonce: Option<u16>,
    /// The last JoinNonce granted; 0 if there is none.
    pub join_nonce: u32,
    /// The current session, and its counters.
    pub in_use: Option<Grant>,
    /// Its channels.
    pub channels: Channels,
    pub last_up: u32,
    pub next_down: u64,
    /// The pending session, which hasn't had an uplink yet.
    pub waiting: Option<Grant>,
    /// Its channels.
    pub waiting_channels: Channels,
    pub awaited: Option<u32>,
    pub mac_queue: Option<&'static str>,
    pub items: Items,
    /// The number of uplinks counted.
    pub heard: u64,
}

/// The device that joins was provisioned, to slot 0.
pub(crate) const FRESH: State = State {
    dev_eui: JOINER,
    slot: 0,
    rx1_offset: 0,
    last_dev_nonce: None,
    join_nonce: 0,
    in_use: None,
    channels: Channels::Eight,
    last_up: 0,
    next_down: 0,
    waiting: None,
    waiting_channels: Channels::Eight,
    awaited: None,
    mac_queue: None,
    items: Items::Ports(0),
    heard: 0,
};

/// How a gateway heard a frame: its number above B0, the data rate, SNR and RSSI. B0 to B2 are on
/// different channels, and all gateways have different stamps.
pub(crate) type HeardBy = (u8, u8, i16, i16);

/// An item that an application asks for, of this number of bytes 06.
#[derive(Clone, Copy)]
pub(crate) struct Asked {
    pub application: u64,
    pub dev_eui: u64,
    pub tag: u32,
    pub port: u8,
    pub confirmed: bool,
    pub len: usize,
}

/// What comes to a network.
#[derive(Clone, Copy)]
pub(crate) enum Comes {
    /// A device of this DevEUI is provisioned.
    Device(u64),
    /// A frame, which the gateway B1 hears at data rate 5.
    Frame(&'static str),
    /// The same at this data rate.
    At(u8, &'static str),
    /// A frame that the gateway B1 hears on this channel at this data rate.
    On(u32, u8, &'static str),
    /// A frame that B1 hears best, on the first of these channels, and B2 and B3 on the second.
    Best(u32, u32, &'static str),
    /// A frame that this number of gateways, from B1 on, hear at this data rate and with this SNR.
    Alike(u8, u8, i16, &'static str),
    /// A frame that three gateways hear like this.
    Three(HeardBy, HeardBy, HeardBy, &'static str),
    /// An item for a device.
    Item(Asked),
    /// MAC commands of an application for a device.
    Mac(u64, u64, &'static str),
}

/// A record, what comes, what leaves then, and the record after it. What leaves is lines for
/// application 3 and frames for gateways in hexadecimal digits, one below the other.
#[derive(Clone, Copy)]
pub(crate) struct Row {
    pub before: State,
    pub comes: Comes,
    pub wanted: &'static str,
    pub after: State,
}

/// A record, what comes, and how it is refused.
pub(crate) type Refused = (State, Comes, Refusal);

impl Row {
    /// What comes instead, if not everything comes as wanted.
    pub fn fault(&self, alloc: Global) -> Result<Option<String>, Refusal> {
        let mut table = self.before.table(alloc)?;
        let told = match told(alloc, &mut table, &self.comes) {
            Ok(told) => told,
            Err(refusal) => return Ok(Some(format!(in alloc; "{refusal}")?)),
        };
        if told.as_str() != self.wanted {
            return Ok(Some(told));
        }
        if !self.after.is_in(alloc, &table)? {
            return Ok(Some(format!(in alloc; "it with another record")?));
        }
        Ok(None)
    }
}

/// What leaves because of a command, whose record is then in the table.
pub(crate) fn told(alloc: Global, table: &mut Table, comes: &Comes) -> Result<String, Refusal> {
    let batch = alone(alloc, table, 8, comes.command(alloc)?)?;
    match batch.as_slice() {
        [decision] => emitted(alloc, decision.effects.as_slice(), &decision.after),
        _ => Err(Refusal::Damaged),
    }
}

// What leaves because of these effects, for a device with this record.
fn emitted(alloc: Global, effects: &[Effect], device: &Device) -> Result<String, Refusal> {
    let mut text = String::new(alloc);
    for effect in effects {
        if !is_named(effect, device) {
            return Err(Refusal::Damaged);
        }
        if !text.is_empty() {
            text.push('\n')?;
        }
        emit(alloc, effect, &mut text)?;
    }
    Ok(text)
}

// Adds what leaves because of an effect.
fn emit(alloc: Global, effect: &Effect, text: &mut String) -> Result<(), Refusal> {
    match Emission::of(alloc, effect)? {
        Emission::Application { application, line } if application.get() == 3 => {
            Ok(text.push_str(line.as_str())?)
        }
        Emission::Application { .. } => Err(Refusal::Damaged),
        Emission::Gateway { frame, .. } => {
            let digits = write_hex(alloc, frame.as_slice())?;
            Ok(text.push_str(digits.as_str())?)
        }
    }
}

// Whether an accept names the session that its device was granted last.
fn is_named(effect: &Effect, device: &Device) -> bool {
    match effect {
        Effect::Accept { session, .. } => {
            session.dev_eui == device.dev_eui
                && Some(session.join_nonce) == device.activation.granted()
        }
        _ => true,
    }
}

impl State {
    /// Whether what comes gets this refusal.
    pub fn refuses(&self, alloc: Global, comes: &Comes, refusal: Refusal) -> Result<bool, Refusal> {
        let mut table = self.table(alloc)?;
        Ok(told(alloc, &mut table, comes).err() == Some(refusal))
    }

    /// What leaves because of what comes, or why it is refused.
    pub fn outcome(&self, alloc: Global, comes: &Comes) -> Result<String, Refusal> {
        let mut table = self.table(alloc)?;
        match told(alloc, &mut table, comes) {
            Ok(told) => Ok(told),
            Err(refusal) => Ok(format!(in alloc; "{refusal}")?),
        }
    }

    /// A table of 8 slots with this record.
    pub fn table(&self, alloc: Global) -> Result<Table, Refusal> {
        let device = self.device(alloc)?;
        let mut table = filled(alloc, 8, u64::from(self.slot))?;
        table.put(self.slot, device)?;
        Ok(table)
    }

    fn is_in(&self, alloc: Global, table: &Table) -> Result<bool, Refusal> {
        let wanted = self.device(alloc)?;
        match table.devices().get(usize::from(self.slot)) {
            Some(device) => Ok(device.same_as(&wanted)),
            None => Ok(false),
        }
    }

    /// The record itself.
    pub fn device(&self, alloc: Global) -> Result<Device, Refusal> {
        let provisioned = provisioning_of(self.dev_eui).ok_or(Refusal::Damaged)?;
        let rx1_offset = Rx1Offset::new(self.rx1_offset).ok_or(Refusal::Damaged)?;
        let activation = self.activation().ok_or(Refusal::Damaged)?;
        let mac_queue = mac_queue(alloc, self.mac_queue.unwrap_or(""))?;
        let items = self.items.queue(alloc)?;
        let heard = UplinkCount::new(self.heard).ok_or(Refusal::Damaged)?;
        let mut device = Device::provisioned(alloc, &provisioned);
        device.rx1_offset = rx1_offset;
        device.last_dev_nonce = self.last_dev_nonce;
        device.activation = activation;
        device.awaited = awaited(self.awaited);
        device.mac_queue = mac_queue;
        device.items = items;
        device.heard = heard;
        Ok(device)
    }

    fn activation(&self) -> Option<Activation> {
        let current = match self.in_use {
            Some((join_nonce, keys)) => Some(CurrentSession {
                session: session(join_nonce, keys, self.channels)?,
                last_up: self.last_up,
                next_down: NextDown::new(self.next_down)?,
            }),
            None => None,
        };
        let pending = match self.waiting {
            Some((join_nonce, keys)) => Some(session(join_nonce, keys, self.waiting_channels)?),
            None => None,
        };
        Activation::new(JoinNonce::new(self.join_nonce), current, pending)
    }
}

fn awaited(tag: Option<u32>) -> Option<Tag> {
    match tag {
        Some(tag) => Some(Tag(tag)),
        None => None,
    }
}

fn mac_queue(alloc: Global, digits: &str) -> Result<MacQueue, Refusal> {
    let queue = MacQueue::new(read_hex(alloc, digits)?);
    queue.ok().ok_or(Refusal::BadMac)
}

impl Items {
    fn queue(&self, alloc: Global) -> Result<ItemQueue, Refusal> {
        match self {
            Items::Ports(count) => on_ports(alloc, *count),
            Items::One(item) => queue(alloc, &[*item]),
            Items::Two(first, second) => queue(alloc, &[*first, *second]),
        }
    }
}

fn on_ports(alloc: Global, count: u64) -> Result<ItemQueue, Refusal> {
    let mut waiting = Vec::new(alloc);
    for port in 0..count {
        waiting.push((9, port.saturating_add(1), true, 1))?;
    }
    queue(alloc, &waiting)
}

fn queue(alloc: Global, waiting: &[Waiting]) -> Result<ItemQueue, Refusal> {
    let mut items = Vec::new(alloc);
    for waiting in waiting {
        items.push(item(alloc, waiting)?)?;
    }
    ItemQueue::new(items).ok().ok_or(Refusal::QueueFull)
}

fn item(alloc: Global, waiting: &Waiting) -> Result<Item, Refusal> {
    let (tag, port, confirmed, len) = *waiting;
    let port = Port::new(port).ok_or(Refusal::BadPort)?;
    let payload = Payload::new(vec![in alloc; 6; len]?);
    Ok(Item {
        tag: Tag(tag),
        port,
        confirmed,
        payload: payload.ok().ok_or(Refusal::TooLong)?,
    })
}

// The provisioning of a device.
fn provisioning_of(dev_eui: u64) -> Option<Provisioning> {
    if dev_eui == JOINER {
        joining()
    } else {
        provisioning(dev_eui)
    }
}

impl Comes {
    /// Its command.
    pub fn command(&self, alloc: Global) -> Result<Command, Refusal> {
        match self {
            Comes::Device(dev_eui) => provision(*dev_eui),
            Comes::Frame(digits) => heard(alloc, digits),
            Comes::At(data_rate, digits) => alike(alloc, 1, *data_rate, -20, digits),
            Comes::On(frequency, data_rate, digits) => {
                let heard = on_channel(&(1, *data_rate, -20, -95), *frequency);
                heard_by(alloc, digits, &[heard])
            }
            Comes::Best(best, others, digits) => best_on(alloc, *best, *others, digits),
            Comes::Alike(copies, data_rate, snr, digits) => {
                alike(alloc, *copies, *data_rate, *snr, digits)
            }
            Comes::Three(first, second, third, digits) => {
                heard_by(
                    alloc,
                    digits,
                    &[heard_so(first), heard_so(second), heard_so(third)],
                )
            }
            Comes::Item(asked) => asked.command(alloc),
            Comes::Mac(application, dev_eui, digits) => mac(alloc, *application, *dev_eui, digits),
        }
    }
}

fn provision(dev_eui: u64) -> Result<Command, Refusal> {
    match provisioning_of(dev_eui) {
        Some(provisioned) => Ok(Command::Provision(provisioned)),
        None => Err(Refusal::Damaged),
    }
}

// A frame of which this number of gateways, from B1 on, have copies.
fn alike(
    alloc: Global,
    copies: u8,
    data_rate: u8,
    snr: i16,
    digits: &str,
) -> Result<Command, Refusal> {
    let mut hearings = Vec::new(alloc);
    for number in 0..copies {
        hearings.push(heard_so(&(number.saturating_add(1), data_rate, snr, -95)))?;
    }
    heard_by(alloc, digits, &hearings)
}

// A frame that B2, B1 and B3 hear in turn, B1 best and on the first channel.
fn best_on(alloc: Global, best: u32, others: u32, digits: &str) -> Result<Command, Refusal> {
    let copies = [
        on_channel(&(2, 5, -30, -80), others),
        on_channel(&(1, 5, -20, -95), best),
        on_channel(&(3, 5, -30, -70), others),
    ];
    heard_by(alloc, digits, &copies)
}

// How a gateway hears a frame on a channel.
fn on_channel(copy: &HeardBy, frequency: u32) -> Hearing {
    let mut heard = heard_so(copy);
    heard.reception.frequency = frequency;
    heard
}

fn heard_so(copy: &HeardBy) -> Hearing {
    let (number, data_rate, snr, rssi) = *copy;
    Hearing {
        reception: Reception {
            gateway: Eui(0xB0 + u64::from(number)),
            frequency: 868_100_000 + (u32::from(number) + 2) % 3 * 200_000,
            data_rate,
            snr,
            rssi,
        },
        stamp: u32::from(number) * 50_000,
    }
}

impl Asked {
    fn command(&self, alloc: Global) -> Result<Command, Refusal> {
        let application = Application::new(self.application).ok_or(Refusal::Damaged)?;
        Ok(Command::Queue(Queueing {
            application,
            dev_eui: Eui(self.dev_eui),
            tag: Tag(self.tag),
            port: self.port,
            confirmed: self.confirmed,
            payload: bytes(vec![in alloc; 6; self.len]?)?,
        }))
    }
}

fn mac(alloc: Global, application: u64, dev_eui: u64, digits: &str) -> Result<Command, Refusal> {
    let application = Application::new(application).ok_or(Refusal::Damaged)?;
    Ok(Command::QueueMac(MacQueueing {
        application,
        dev_eui: Eui(dev_eui),
        commands: bytes(read_hex(alloc, digits)?)?,
    }))
}

fn bytes(bytes: Vec<u8>) -> Result<AskedBytes, Refusal> {
    AskedBytes::new(bytes).ok().ok_or(Refusal::Damaged)
}
