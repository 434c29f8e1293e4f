use crate::link_fixtures::{
    DEVICE, bytes, current, empty_downlink, has_hex, item, items, name, new_device, session,
};
use devices::{
    Activation, Application, Channels, Effect, Effects, Hearing, Hearings, Item, ItemQueue,
    MacQueue, Mark, NextDown, Port, Report, RxDelay, Tag, dev_addr, slot_at,
};
use lw_types::{DevAddr, Eui, JoinNonce, NetId, Reception, read_hex};
use mac_commands::are_queueable;
use std::alloc::Global;

// Numbers, and whether each is an application, a port and a delay.
const RANGES: &[(u64, bool, bool, bool)] = &[
    (0, true, false, false),
    (1, true, true, true),
    (15, true, true, true),
    (16, false, true, false),
    (223, false, true, false),
    (224, false, false, false),
];

#[test]
fn ranges_have_their_ends(rt: HostRuntime) {
    for (value, application, port, delay) in RANGES {
        let is_right = Application::new(*value).is_some() == *application
            && Port::new(*value).is_some() == *port
            && RxDelay::new(*value).is_some() == *delay;
        assert!(rt; is_right, "{value}");
    }
    assert!(rt; NextDown::new(1 << 32).is_some());
    assert!(rt; NextDown::new((1 << 32) + 1).is_none());
}

// Whether a device may have the bytes of a text, followed by this number of 06, in its MAC queue;
// the queue is made from a vector and from a slice alike.
fn may_wait(alloc: Global, hex: &str, count: usize) -> Option<bool> {
    let bytes = bytes(alloc, hex, 0x06, count)?;
    let Ok(vector) = Vec::from_slice(alloc, &bytes) else {
        return None;
    };
    match MacQueue::new(vector) {
        Ok(queue) => Some(queue.as_slice() == bytes.as_slice() && is_made(alloc, &bytes)),
        Err(_) => Some(false),
    }
}

fn is_made(alloc: Global, bytes: &[u8]) -> bool {
    if !are_queueable(bytes) || bytes.len() > 128 {
        return false;
    }
    match MacQueue::from_slice(alloc, bytes) {
        Ok(queue) => queue.as_slice() == bytes,
        Err(_) => false,
    }
}

const QUEUES: &[(&str, usize, bool)] = &[
    ("", 0, true),
    ("0350070001", 0, true),
    ("06040F06", 0, true),
    ("06040F", 0, true),
    ("", 128, true),
    ("", 129, false),
    ("03500700", 0, false),
    ("04", 0, false),
    ("02", 0, false),
    ("060D", 0, false),
    ("0500000000", 0, false),
];

#[test]
fn a_mac_queue_is_whole_commands_that_may_be_queued(rt: HostRuntime) {
    for (hex, count, may) in QUEUES {
        let may_wait = may_wait(rt.alloc(), hex, *count);
        assert!(rt; may_wait == Some(*may), "{hex}, and {count}");
    }
}

// Whether this number of bytes of a queue fit the room, and these remain after they leave.
fn leaves(alloc: Global, hex: &str, room: u8, fits: usize, rest: &str) -> bool {
    let Some(mut queue) = mac_queue(alloc, hex) else {
        return false;
    };
    let is_fitting = queue.fitting(room) == fits;
    queue.leave(room);
    is_fitting && has_hex(alloc, queue.as_slice(), rest)
}

fn mac_queue(alloc: Global, hex: &str) -> Option<MacQueue> {
    let Ok(bytes) = read_hex(alloc, hex) else {
        return None;
    };
    MacQueue::new(bytes).ok()
}

const ROOMS: &[(&str, u8, usize, &str)] = &[
    ("035007000103500700010350070001", 12, 10, "0350070001"),
    ("035007000103500700010350070001", 15, 15, ""),
    ("0350070001", 4, 0, "0350070001"),
    ("06040F06", 2, 1, "040F06"),
    ("", 15, 0, ""),
];

#[test]
fn whole_commands_leave_the_queue(rt: HostRuntime) {
    for (hex, room, fits, rest) in ROOMS {
        let leaves = leaves(rt.alloc(), hex, *room, *fits, rest);
        assert!(rt; leaves, "{hex}");
    }
}

// Whether this number of items wait in the order of their tags.
fn wait_in_order(items: &[Item], count: u32) -> bool {
    let mut tag: u32 = 0;
    for item in items {
        if item.tag.0 != tag {
            return false;
        }
        tag = tag.saturating_add(1);
    }
    tag == count
}

// The tag of the item that leaves first, which is the one that was seen before.
fn leaving(queue: &mut ItemQueue) -> Option<u32> {
    let seen = queue.first()?.tag;
    let left = queue.pop_first()?.tag;
    if left == seen { Some(left.0) } else { None }
}

// Whether this number of items, and no more, leave in the order of their tags.
fn leave_in_order(mut queue: ItemQueue, count: u32) -> bool {
    let mut are_right = wait_in_order(queue.as_slice(), count);
    for tag in 0..count {
        are_right = leaving(&mut queue) == Some(tag) && are_right;
    }
    are_right && queue.is_empty() && queue.pop_first().is_none()
}

// Whether a copy of this number of items waits and leaves in order; `None` if they are too many.
fn wait_and_leave(alloc: Global, count: u32, len: usize) -> Option<Option<bool>> {
    let copies: Result<_, _> = items(alloc, count, len)?.clone();
    match ItemQueue::new(copies.ok()?) {
        Ok(queue) => Some(Some(leave_in_order(queue, count))),
        Err(_) => Some(None),
    }
}

// Whether sixteen items that are pushed one after another leave in order.
fn pushed_wait(alloc: Global) -> Option<bool> {
    let mut queue = ItemQueue::empty(alloc);
    for tag in 0..16 {
        if queue.as_slice().len() >= ItemQueue::MOST || queue.push(item(alloc, tag, 1)?).is_err() {
            return None;
        }
    }
    Some(leave_in_order(queue, 16))
}

const ITEMS: &[(u32, usize, Option<bool>)] = &[
    (3, 1, Some(true)),
    (16, 242, Some(true)),
    (17, 242, None),
];

#[test]
fn sixteen_items_wait_and_leave_in_order(rt: HostRuntime) {
    for (count, len, wanted) in ITEMS {
        assert!(rt;
            wait_and_leave(rt.alloc(), *count, *len) == Some(*wanted),
            "{count}"
        );
    }
    assert!(rt; pushed_wait(rt.alloc()) == Some(true));
}

// The activation with this last grant and with sessions of these JoinNonces, current and pending,
// if they are in order.
fn activation(
    granted: u32,
    in_use: Option<u32>,
    waiting: Option<u32>,
) -> Option<Option<Activation>> {
    let in_use = match in_use {
        Some(number) => Some(current(number, 5)?),
        None => None,
    };
    let waiting = match waiting {
        Some(number) => Some(session(number, Channels::Three)?),
        None => None,
    };
    Some(Activation::new(JoinNonce::new(granted), in_use, waiting))
}

// Whether they are in order; `None` if a session can't be made.
fn are_in_order(granted: u32, in_use: Option<u32>, waiting: Option<u32>) -> Option<bool> {
    Some(activation(granted, in_use, waiting)?.is_some())
}

// If the first number is 0, nothing was granted.
const ORDERS: &[(u32, Option<u32>, Option<u32>, bool)] = &[
    (0, None, None, true),
    (2, Some(1), Some(2), true),
    (2, Some(2), None, true),
    (2, Some(2), Some(2), false),
    (2, Some(3), None, false),
    (2, None, Some(3), false),
    (0, None, Some(1), false),
    (0, Some(1), None, false),
];

#[test]
fn sessions_are_in_order(rt: HostRuntime) {
    for (granted, current, pending, wanted) in ORDERS {
        let are_in_order = are_in_order(*granted, *current, *pending);
        assert!(rt; are_in_order == Some(*wanted), "granted {granted}");
    }
}

// An activation with two sessions.
fn both() -> Option<Activation> {
    activation(2, Some(1), Some(2))?
}

fn has_parts() -> Option<bool> {
    let activation = both()?;
    let is_granted = activation.granted() == JoinNonce::new(2);
    let is_in_use = activation.current() == Some(current(1, 5)?);
    Some(is_granted && is_in_use && activation.pending() == Some(session(2, Channels::Three)?))
}

// The counters of the current session.
fn counters(activation: &Activation) -> Option<(u32, u64)> {
    let current = activation.current()?;
    Some((current.last_up, current.next_down.get()))
}

// The activation after an uplink with this counter and an answer to it.
fn answered(mut activation: Activation, up: u32) -> Option<Activation> {
    activation.advance(activation.current()?, up);
    let current = activation.current()?;
    if current.next_down.get() < 1 << 32 {
        activation.use_down(current);
    }
    Some(activation)
}

// Whether session 2 begins with its first uplink, and its counters grow.
fn begins_and_grows() -> Option<bool> {
    let mut activation = both()?;
    activation.begin(activation.pending()?, 7);
    let is_granted = activation.granted() == JoinNonce::new(2);
    let is_in_use = counters(&activation) == Some((7, 0)) && activation.pending().is_none();
    let grown = answered(answered(activation, 8)?, 4_000_000_000)?;
    Some(is_granted && is_in_use && counters(&grown) == Some((4_000_000_000, 2)))
}

#[test]
fn an_activation_has_its_parts_and_grows(rt: HostRuntime) {
    assert!(rt; has_parts() == Some(true));
    assert!(rt; begins_and_grows() == Some(true));
}

const ADDRESSES: &[(u8, u16, u32, u32)] = &[
    (42, 1, 1, 0x5400_2001),
    (0, 0, 8191, 0x0000_1FFF),
    (0, 0, 8192, 0x0000_0000),
    (63, 4095, 16_777_215, 0x7FFF_FFFF),
];

// Whether a session of a network has this address, and the address leads to its slot.
fn has_address(network: u8, slot: u16, join_nonce: u32, address: u32) -> bool {
    match NetId::new(u32::from(network)) {
        Some(network) => {
            let found = dev_addr(network, slot, join_nonce);
            found == DevAddr(address) && slot_at(found) == slot
        }
        None => false,
    }
}

#[test]
fn addresses_have_network_slot_and_join(rt: HostRuntime) {
    for (network, slot, join_nonce, address) in ADDRESSES {
        assert!(rt;
            has_address(*network, *slot, *join_nonce, *address),
            "{slot}"
        );
    }
    assert!(rt; slot_at(DevAddr(0x49BE_7DF1)) == 3571);
}

// Whether a new device has its name and empty queues, equals its copy, and differs from one with
// another tag.
fn is_copied_whole(alloc: Global) -> Option<bool> {
    let device = new_device(alloc, DEVICE)?;
    let are_empty = device.items.as_slice().is_empty() && device.mac_queue.as_slice().is_empty();
    let is_new = are_empty && device.dev_eui == DEVICE;
    let Ok(mut tagged) = device.copy() else {
        return None;
    };
    let is_copied = tagged.same_as(&device);
    tagged.awaited = Some(Tag(1));
    Some(is_new && is_copied && !tagged.same_as(&device))
}

#[test]
fn a_device_is_copied_whole(rt: HostRuntime) {
    assert!(rt; is_copied_whole(rt.alloc()) == Some(true));
}

// The report that a device was provisioned to a slot.
fn provisioned(slot: u16) -> Option<Effect> {
    Some(Effect::Report {
        application: Application::new(3)?,
        dev_eui: DEVICE,
        report: Report::Provisioned { slot },
    })
}

// Whether reports of the slots from 4 to 7 can be pushed, and the first one stays the first.
fn effects_are_in_order(alloc: Global) -> Option<bool> {
    let mut effects = Effects::empty(alloc);
    for slot in 4..8 {
        if effects.as_slice().len() >= Effects::MOST || effects.push(provisioned(slot)?).is_err() {
            return None;
        }
    }
    let are_four = effects.as_slice().len() == 4;
    Some(are_four && effects.into_vec().first() == Some(&provisioned(4)?))
}

#[test]
fn effects_leave_in_order(rt: HostRuntime) {
    assert!(rt; effects_are_in_order(rt.alloc()) == Some(true));
}

// Whether a frame and an accept of one session have their marks, and a report has none.
fn are_marked(alloc: Global) -> Option<bool> {
    let (session, counter) = (name(7)?, 9);
    let down = Effect::Down {
        session,
        counter,
        downlink: empty_downlink(alloc)?,
    };
    let is_sent = down.mark() == Some(Mark::Sent { session, counter });
    let accept = Effect::Accept {
        session,
        downlink: empty_downlink(alloc)?,
    };
    let is_granted = accept.mark() == Some(Mark::Granted { session });
    Some(is_sent && is_granted && provisioned(0)?.mark().is_none())
}

#[test]
fn effects_have_their_marks(rt: HostRuntime) {
    assert!(rt; are_marked(rt.alloc()) == Some(true));
}

// How a gateway heard a frame.
fn hearing(gateway: u64, frequency: u32, data_rate: u8, snr: i16, rssi: i16) -> Hearing {
    Hearing {
        reception: Reception {
            gateway: Eui(gateway),
            frequency,
            data_rate,
            snr,
            rssi,
        },
        stamp: 7,
    }
}

// This number of copies, each from a gateway of its own.
fn hearings(alloc: Global, count: u64) -> Option<Vec<Hearing>> {
    let mut hearings = Vec::new(alloc);
    for gateway in 0..count {
        let hearing = hearing(gateway, 868_500_000, 5, -20, -95);
        if hearings.push(hearing).is_err() {
            return None;
        }
    }
    Some(hearings)
}

// Whether this number of copies of a frame stay in order; `None` if they are too many.
fn keep_their_order(alloc: Global, count: u64) -> Option<Option<bool>> {
    let wanted = hearings(alloc, count)?;
    match Hearings::new(hearings(alloc, count)?) {
        Some(heard) => Some(Some(heard.as_slice() == wanted.as_slice())),
        None => Some(None),
    }
}

const COUNTS: &[(u64, Option<bool>)] = &[(0, None), (1, Some(true)), (32, Some(true)), (33, None)];

#[test]
fn from_1_to_32_gateways_hear_a_frame(rt: HostRuntime) {
    for (count, wanted) in COUNTS {
        let order = keep_their_order(rt.alloc(), *count);
        assert!(rt; order == Some(*wanted), "{count}");
    }
}

// Whether a frame that gateways 0 and 1 heard may also have this copy.
fn may_be_heard(alloc: Global, last: Hearing) -> Option<bool> {
    let mut hearings = hearings(alloc, 2)?;
    if hearings.push(last).is_err() {
        return None;
    }
    Some(Hearings::new(hearings).is_some())
}

const LAST_COPIES: &[(u32, u8, u64, bool)] = &[
    (868_100_000, 0, 9, true),
    (868_300_000, 5, 9, true),
    (868_200_000, 0, 9, false),
    (868_100_000, 6, 9, false),
    (868_100_000, 0, 1, false),
];

#[test]
fn copies_are_of_different_gateways_on_channels(rt: HostRuntime) {
    for (frequency, data_rate, gateway, may) in LAST_COPIES {
        let last = hearing(*gateway, *frequency, *data_rate, -20, -95);
        let may_be_heard = may_be_heard(rt.alloc(), last);
        assert!(rt;
            may_be_heard == Some(*may),
            "{frequency} {data_rate} {gateway}"
        );
    }
}

// The best of the copies from these gateways, with this SNR and RSSI.
fn best(alloc: Global, copies: &[(u64, i16, i16)]) -> Option<u64> {
    let mut hearings = Vec::new(alloc);
    for (gateway, snr, rssi) in copies {
        let hearing = hearing(*gateway, 868_100_000, 0, *snr, *rssi);
        if hearings.push(hearing).is_err() {
            return None;
        }
    }
    Some(Hearings::new(hearings)?.best().reception.gateway.0)
}

const COPIES: &[(&[(u64, i16, i16)], u64)] = &[
    (&[(2, -20, -100), (1, -20, -100), (3, -20, -100)], 1),
    (&[(1, -20, -100), (2, -20, -99), (3, -20, -100)], 2),
    (&[(1, -20, -90), (2, -20, -99), (3, -19, -120)], 3),
    (&[(9, 7, -90), (2, 7, -90), (3, 6, -20)], 2),
];

#[test]
fn the_best_copy_is_the_clearest(rt: HostRuntime) {
    for (copies, wanted) in COPIES {
        assert!(rt; best(rt.alloc(), copies) == Some(*wanted), "{wanted}");
    }
}
