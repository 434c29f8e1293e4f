// Answers to a device in the receive windows of its uplink (TS001-1.0.4 §3.3, §4.3.1).
ghost use Rattle.std.specs.Prelude.{◌≡◌, ◌≤◌, ◌<◌, ◌+◌, ◌^◌, ◌==◌, ◌++◌, length, Some, MatchResult};
ghost use Rattle.lw_types.specs.declared.refusal.Refusal.TheVariants.{OutOfMemory};
ghost use Rattle.devices.specs.Heard.{IsReceivable};
ghost use Rattle.devices.specs.DeviceStep.{report_effects};
ghost use Rattle.devices.specs.declared.effect.Report.{Report};
ghost use Rattle.downlinks.specs.Load.{item_len, has_any};
ghost use Rattle.downlinks.specs.Reply.{acknowledgement_step, address, answer_step, awaited_by};
ghost use Rattle.downlinks.specs.Reply.{downlink, more_waits, name_of, receive_windows_for};
ghost use Rattle.downlinks.specs.Reply.{sending_step};

use crate::frame::{DownlinkFields, next_counter};
use crate::load::{Demand, Load, is_downlink_due, rx1_of};
use devices::{
    CurrentSession, Device, Downlink, Effect, Effects, Hearing, Item, ReceiveWindows, Report,
    SessionName, Tag, dev_addr,
};
use lw_types::{DevAddr, LONGEST_PAYLOAD, NetId, PhyPayload, Refusal};
use phy_payload::FOpts;
use region_eu868::{max_mac, rx2};
use std::alloc::Global;

/// The current session of the device at a slot of a network.
#[derive(Clone, Copy)]
pub struct SessionAt {
    pub net_id: NetId,
    pub slot: u16,
    pub current: CurrentSession,
}

// What is sent, and the copy of the uplink that was heard best.
#[derive(Drop)]
struct Reply {
    best: Hearing,
    fields: DownlinkFields,
}

/// Answers a new uplink in this session, if a downlink is due (TS001-1.0.4 §3.3, §4.3.1). What fits
/// leaves the device's queues, the session's next downlink counter is used up, and the frame is
/// added to the effects. If the session has no counter left, this is reported and the record stays
/// as it is.
///
/// If memory runs out, it is refused as `OutOfMemory`. The record may then have lost what the
/// downlink was to carry.
pub fn answer(
    alloc: Global,
    device: &mut Device,
    effects: &mut Effects,
    session: &SessionAt,
    asked: &Demand,
) -> Result<(), Refusal>
    requires current { device.old.activation.current ≡ Some session.now.current }
    requires heard { IsReceivable asked.now.best.reception }
    requires room { length effects.old < Effects.MOST }
    ensures { MatchResult result
        (λ _. let s = session.now in
        let reply = answer_step s.net_id s.slot device.old s.current asked.now in
        (device.new ≡ reply.device) × (effects.new ≡ effects.old ++ reply.effects))
        (λ e. e ≡ OutOfMemory) }
{
    if !is_downlink_due(device, asked) {
        return Ok(());
    }
    if is_spent(&session.current) {
        return tell_spent(device, effects, &session.current);
    }
    let Load { f_opts, item } = Load::take(alloc, device, asked)?;
    let f_pending = more_waits(device);
    let fields = DownlinkFields {
        f_opts,
        item,
        ack: asked.confirmed,
        f_pending,
    };
    let best = asked.best;
    send(alloc, device, effects, session, Reply { best, fields })
}

/// Acknowledges a confirmed uplink that comes again, and sends nothing else (TS001-1.0.4 §4.3.1.2).
/// The session's next downlink counter is used up, and the frame is added to the effects. If the
/// session has no counter left, this is reported to its application and the record stays as it is.
///
/// If memory runs out, it is refused as `OutOfMemory`.
pub fn acknowledge(
    alloc: Global,
    device: &mut Device,
    effects: &mut Effects,
    session: &SessionAt,
    best: &Hearing,
) -> Result<(), Refusal>
    requires current { device.old.activation.current ≡ Some session.now.current }
    requires heard { IsReceivable best.now.reception }
    requires room { length effects.old < Effects.MOST }
    ensures { MatchResult result
        (λ _. let s = session.now in
        let reply = acknowledgement_step s.net_id s.slot device.old s.current best.now in
        (device.new ≡ reply.device) × (effects.new ≡ effects.old ++ reply.effects))
        (λ e. e ≡ OutOfMemory) }
{
    if is_spent(&session.current) {
        return tell_spent(device, effects, &session.current);
    }
    let fields = DownlinkFields {
        f_opts: FOpts::empty(alloc),
        item: None,
        ack: true,
        f_pending: more_waits(device),
    };
    let best = *best;
    send(alloc, device, effects, session, Reply { best, fields })
}

// Whether the session has no counter left for a downlink.
fn is_spent(current: &CurrentSession) -> bool
    ensures value { result ≡ (current.now.next_down == 2 ^ 32) }
    ensures in_range { current.now.next_down ≤ 2 ^ 32 }
{
    current.next_down.get() == 1 << 32
}

// Reports that the session has no counter left.
fn tell_spent(
    device: &Device,
    effects: &mut Effects,
    current: &CurrentSession,
) -> Result<(), Refusal>
    requires { length effects.old < Effects.MOST }
    ensures { MatchResult result
        (λ _. effects.new ≡ effects.old
        ++ report_effects device.now (Report.Spent current.now.session.join_nonce))
        (λ e. e ≡ OutOfMemory) }
{
    effects.push(Effect::Report {
        application: device.application,
        dev_eui: device.dev_eui,
        report: Report::Spent {
            join_nonce: current.session.join_nonce,
        },
    })?;
    Ok(())
}

// Sends the downlink, which uses up the session's next counter.
fn send(
    alloc: Global,
    device: &mut Device,
    effects: &mut Effects,
    session: &SessionAt,
    reply: Reply,
) -> Result<(), Refusal>
    requires current { device.old.activation.current ≡ Some session.now.current }
    requires left { session.now.current.next_down < 2 ^ 32 }
    requires heard { IsReceivable reply.best.reception }
    requires room { length effects.old < Effects.MOST }
    requires short { length reply.fields.f_opts + item_len reply.fields.item ≤ LONGEST_PAYLOAD }
    ensures { MatchResult result
        (λ _. let c = session.now.current in
        let addr = address session.now.net_id session.now.slot c in
        let sent = sending_step addr device.old c reply.best reply.fields in
        (device.new ≡ sent.device) × (effects.new ≡ effects.old ++ sent.effects))
        (λ e. e ≡ OutOfMemory) }
{
    let current = session.current;
    let awaited = awaited_by(&reply.fields.item, device.awaited);
    let downlink = downlink(alloc, device, session, reply)?;
    effects.push(Effect::Down {
        session: name_of(device, &current),
        counter: next_counter(&current),
        downlink,
    })?;
    device.activation.use_down(current);
    device.awaited = awaited;
    Ok(())
}

// A downlink by the gateway that heard the uplink best, in RX1 or a second later in RX2.
fn downlink(
    alloc: Global,
    device: &Device,
    session: &SessionAt,
    reply: Reply,
) -> Result<Downlink, Refusal>
    requires left { session.now.current.next_down < 2 ^ 32 }
    requires heard { IsReceivable reply.best.reception }
    requires short { length reply.fields.f_opts + item_len reply.fields.item ≤ LONGEST_PAYLOAD }
    ensures { MatchResult result
        (λ found. let addr = address session.now.net_id session.now.slot session.now.current in
        found ≡ downlink addr device.now session.now.current reply.best reply.fields)
        (λ e. e ≡ OutOfMemory) }
{
    let Reply { best, fields } = reply;
    let addr = address(session);
    let frame = fields.into_phy_payload(alloc, addr, &session.current)?;
    let window = rx1_of(device, &best);
    Ok(Downlink {
        gateway: best.reception.gateway,
        stamp: best.stamp,
        frequency: window.frequency,
        data_rate: window.data_rate,
        delay: device.rx_delay,
        receive_windows: receive_windows_for(&frame),
        frame,
    })
}

// The windows in which the frame may be sent. A MACPayload is five bytes shorter than its frame.
fn receive_windows_for(frame: &PhyPayload) -> ReceiveWindows
    ensures { result ≡ receive_windows_for frame.now }
{
    let longest = usize::from(max_mac(rx2().data_rate));
    if frame.len() <= 5 + longest {
        ReceiveWindows::Rx1OrRx2
    } else {
        ReceiveWindows::Rx1
    }
}

// FPending: whether more downlinks wait for the device.
fn more_waits(device: &Device) -> bool
    ensures { result ≡ more_waits device.now }
{
    !device.mac_queue.as_slice().is_empty() || !device.items.as_slice().is_empty()
}

// The tag that is awaited after the item was sent.
fn awaited_by(item: &Option<Item>, awaited: Option<Tag>) -> Option<Tag>
    ensures { result ≡ awaited_by item.now awaited }
{
    match item {
        Some(item) if item.confirmed => Some(item.tag),
        _ => awaited,
    }
}

fn name_of(device: &Device, current: &CurrentSession) -> SessionName
    ensures { result ≡ name_of device.now current.now }
{
    SessionName {
        dev_eui: device.dev_eui,
        join_nonce: current.session.join_nonce,
    }
}

// The session's address.
fn address(session: &SessionAt) -> DevAddr
    ensures { result ≡ address session.now.net_id session.now.slot session.now.current }
{
    dev_addr(
        session.net_id,
        session.slot,
        session.current.session.join_nonce.get(),
    )
}
