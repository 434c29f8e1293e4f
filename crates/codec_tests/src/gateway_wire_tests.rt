use crate::link_fixtures::{
    DEVICE, GATEWAY, JOIN_EUI, KEY, bytes, current, empty_downlink, has_hex, items, name,
    new_device, provisioning,
};
use devices::{
    Activation, Application, AskedBytes, Command, Copies, Device, Downlink, Effect, ItemQueue,
    MacQueueing, Mark, Payload, Port, Queueing, ReceiveWindows, Report, Rx1Offset, RxDelay, Tag,
    UplinkCount,
};
use gateway_wire::{
    Emission, Request, answer_frame, app_line, gateway_bytes, list_text, next_ranged, next_value,
    put_effect, put_refusal, read_line, read_request,
};
use lw_types::{Eui, JoinNonce, NetId, PhyPayload, Reception, Refusal, Words, write_hex};
use sessions::{Slots, Table};
use std::alloc::{AllocError, Global};

// A payload of the bytes of a text, followed by this number of A5.
fn payload(alloc: Global, (hex, count): (&str, usize)) -> Option<Payload> {
    Payload::new(bytes(alloc, hex, 0xA5, count)?).ok()
}

// A frame of such bytes in a downlink, one second later.
fn downlink(
    alloc: Global,
    data_rate: u8,
    receive_windows: ReceiveWindows,
    (hex, count): (&str, usize),
) -> Option<Effect> {
    let (session, delay) = (name(1)?, RxDelay::new(1)?);
    let Ok(frame) = PhyPayload::new(bytes(alloc, hex, 0xA5, count)?) else {
        return None;
    };
    Some(Effect::Down {
        session,
        counter: 0,
        downlink: Downlink {
            gateway: GATEWAY,
            stamp: 50_000,
            frequency: 868_100_000,
            data_rate,
            delay,
            receive_windows,
            frame,
        },
    })
}

// A payload of the last session that is possible, at its last counter.
fn forward(alloc: Global, bytes: (&str, usize)) -> Option<Effect> {
    let (application, session) = (Application::new(3)?, name(16_777_215)?);
    let (port, copies) = (Port::new(223)?, Copies::new(32)?);
    Some(Effect::Forward {
        application,
        session,
        counter: 4_294_967_295,
        port,
        payload: payload(alloc, bytes)?,
        copies,
        best: Reception {
            gateway: GATEWAY,
            frequency: 868_100_000,
            data_rate: 5,
            snr: -20,
            rssi: -95,
        },
    })
}

// What leaves: a frame, an accept, a payload, and the reports.
enum Leaving {
    Down(u8, ReceiveWindows, &'static str),
    Accept,
    Up(&'static str),
    Spent,
    Provisioned(u16),
    Queued(u32),
    Acked(u32),
    Lost(u32),
    MacQueued(&'static str),
    Mac(&'static str),
}

// An effect whose bytes end with this number of A5.
fn effect(alloc: Global, leaving: &Leaving, count: usize) -> Option<Effect> {
    match leaving {
        Leaving::Down(data_rate, receive_windows, hex) => {
            downlink(alloc, *data_rate, *receive_windows, (hex, count))
        }
        Leaving::Accept => Some(Effect::Accept {
            session: name(1)?,
            downlink: empty_downlink(alloc)?,
        }),
        Leaving::Up(hex) => forward(alloc, (hex, count)),
        _ => Some(Effect::Report {
            application: Application::new(3)?,
            dev_eui: DEVICE,
            report: report(alloc, leaving, count)?,
        }),
    }
}

fn report(alloc: Global, leaving: &Leaving, count: usize) -> Option<Report> {
    let join_nonce = JoinNonce::new(1)?;
    match leaving {
        Leaving::Spent => Some(Report::Spent { join_nonce }),
        Leaving::Provisioned(slot) => Some(Report::Provisioned { slot: *slot }),
        Leaving::Queued(tag) => Some(Report::Queued { tag: Tag(*tag) }),
        Leaving::Acked(tag) => Some(Report::Acked { tag: Tag(*tag) }),
        Leaving::Lost(tag) => Some(Report::Lost { tag: Tag(*tag) }),
        Leaving::MacQueued(hex) => Some(Report::MacQueued {
            commands: payload(alloc, (hex, count))?,
        }),
        Leaving::Mac(hex) => Some(Report::Mac {
            join_nonce,
            commands: payload(alloc, (hex, count))?,
        }),
        _ => None,
    }
}

// What leaves, and in which form: a text, this number of A5 in hex, with which the bytes of what
// leaves end, and a text. A gateway is sent these bytes, and application 3 is sent this line. The
// longest payload has 242 bytes.
const EFFECTS: &[(Leaving, &str, usize, &str)] = &[
    // The shortest downlink, a long one, and the longest.
    (
        Leaving::Down(0, ReceiveWindows::Rx1OrRx2, "6001000054300000AABBCCDD"),
        "00201100000000000000B10000C35033BE27A00001026001000054300000AABBCCDD",
        0,
        "",
    ),
    (
        Leaving::Down(5, ReceiveWindows::Rx1, "600100005400010007"),
        "00851100000000000000B10000C35033BE27A0050100600100005400010007",
        104,
        "",
    ),
    (
        Leaving::Down(0, ReceiveWindows::Rx1OrRx2, ""),
        "01131100000000000000B10000C35033BE27A0000102",
        255,
        "",
    ),
    (
        Leaving::Down(5, ReceiveWindows::Rx1OrRx2, ""),
        "002D1100000000000000B10000C35033BE27A0050102",
        25,
        "",
    ),
    (
        Leaving::Accept,
        "00141100000000000000B10000000133C44220020506",
        0,
        "",
    ),
    (
        Leaving::Up("00FF"),
        "up 1112131415161718 16777215 4294967295 223 00FF 32 00000000000000B1 868100000 5 -20 -95",
        0,
        "",
    ),
    (
        Leaving::Up(""),
        "up 1112131415161718 16777215 4294967295 223 - 32 00000000000000B1 868100000 5 -20 -95",
        0,
        "",
    ),
    (
        Leaving::Up(""),
        "up 1112131415161718 16777215 4294967295 223 ",
        242,
        " 32 00000000000000B1 868100000 5 -20 -95",
    ),
    (Leaving::Spent, "spent 1112131415161718 1", 0, ""),
    (
        Leaving::Provisioned(0),
        "provisioned 1112131415161718 0",
        0,
        "",
    ),
    (Leaving::Queued(9), "queued 1112131415161718 9", 0, ""),
    (
        Leaving::Acked(4_294_967_295),
        "acked 1112131415161718 4294967295",
        0,
        "",
    ),
    (Leaving::Lost(0), "lost 1112131415161718 0", 0, ""),
    (
        Leaving::MacQueued("06"),
        "macqueued 1112131415161718 06",
        0,
        "",
    ),
    (
        Leaving::MacQueued(""),
        "macqueued 1112131415161718 ",
        242,
        "",
    ),
    (Leaving::Mac("0307"), "mac 1112131415161718 1 0307", 0, ""),
    (Leaving::Mac(""), "mac 1112131415161718 1 -", 0, ""),
    (Leaving::Mac(""), "mac 1112131415161718 1 ", 242, ""),
];

// A text, this number of A5 in hex, and a text.
fn long_text(alloc: Global, front: &str, count: usize, back: &str) -> Result<String, AllocError> {
    let hex = "A5".repeat(alloc, count)?;
    format!(in alloc; "{front}{hex}{back}")
}

// The bytes for the gateway, or the line for application 3, as a text.
fn shown(alloc: Global, emission: &Emission) -> Option<String> {
    match emission {
        Emission::Gateway { gateway, frame } if *gateway == GATEWAY => {
            write_hex(alloc, frame.as_slice()).ok()
        }
        Emission::Application { application, line } if application.get() == 3 => {
            format!(in alloc; "{}", line.as_str()).ok()
        }
        _ => None,
    }
}

// Whether the effect leaves as these bytes for its gateway and as nothing for an application, or
// the other way round.
fn is_alone(alloc: Global, effect: &Effect, wanted: &str) -> bool {
    match (gateway_bytes(alloc, effect), app_line(alloc, effect)) {
        (Ok(Some(frame)), Ok(None)) => has_hex(alloc, frame.as_slice(), wanted),
        (Ok(None), Ok(Some(line))) => line.as_str() == wanted,
        _ => false,
    }
}

// Whether this is put after another byte as its frame.
fn is_put(alloc: Global, effect: &Effect, emission: &Emission) -> Option<bool> {
    let mut bytes = Vec::new(alloc);
    bytes.push(0x2A).ok()?;
    put_effect(alloc, effect, &mut bytes).ok()?;
    let put = bytes.as_slice().strip_prefix(&[0x2A])?;
    match emission {
        Emission::Gateway { frame, .. } => Some(put == frame.as_slice()),
        Emission::Application { line, .. } => {
            let frame = answer_frame(alloc, line).ok()?;
            Some(put == frame.as_slice())
        }
    }
}

fn left_as(alloc: Global, effect: &Effect) -> Option<String> {
    let emission = Emission::of(alloc, effect).ok()?;
    let text = shown(alloc, &emission)?;
    if is_alone(alloc, effect, &text) && is_put(alloc, effect, &emission)? {
        Some(text)
    } else {
        None
    }
}

// What leaves, as a text, if it is for the gateway alone or for application 3 alone.
fn shown_of(alloc: Global, leaving: &Leaving, count: usize) -> Option<String> {
    left_as(alloc, &effect(alloc, leaving, count)?)
}

// The rows of the table that are wrong, one line each.
fn wrong_effects(alloc: Global) -> Result<String, Refusal> {
    let mut wrong = String::new(alloc);
    for (number, (leaving, front, count, back)) in EFFECTS.iter().enumerate() {
        let wanted = long_text(alloc, front, *count, back)?;
        let got = shown_of(alloc, leaving, *count).unwrap_or(String::new(alloc));
        if got != wanted {
            let line = format!(in alloc;
                "\ngateway_wire_tests.rt EFFECTS {number}: wanted {wanted}, got {got}"
            )?;
            wrong.push_str(&line)?;
        }
    }
    Ok(wrong)
}

#[test]
fn each_effect_leaves_as_its_frame_or_its_line(rt: HostRuntime) {
    let wrong = wrong_effects(rt.alloc()).expect(&rt, "memory");
    assert!(rt; wrong.is_empty(), "{wrong}");
}

#[test]
fn a_refusal_is_put_as_the_frame_of_its_answer(rt: HostRuntime) {
    let mut bytes = Vec::new(rt.alloc());
    put_refusal(rt.alloc(), Refusal::BadMessage, &mut bytes).expect(&rt, "memory");
    assert!(rt; has_hex(rt.alloc(), bytes.as_slice(), "000B1372656675736564203531"));
}

fn forward_is_marked(alloc: Global) -> Option<bool> {
    let mark = Mark::Forwarded {
        session: name(16_777_215)?,
        counter: 4_294_967_295,
    };
    Some(forward(alloc, ("", 0))?.mark() == Some(mark))
}

#[test]
fn a_forward_has_its_mark(rt: HostRuntime) {
    assert!(rt; forward_is_marked(rt.alloc()) == Some(true));
}

fn emission(alloc: Global, leaving: &Leaving, count: usize) -> Option<Emission> {
    Emission::of(alloc, &effect(alloc, leaving, count)?).ok()
}

// Whether an emission equals its copy, and differs from that of another slot.
fn are_told_apart(emission: &Emission, other: &Emission) -> bool {
    let copy: Result<_, _> = emission.clone();
    match copy {
        Ok(copy) => copy == *emission && emission != other,
        Err(_) => false,
    }
}

fn slots_are_told_apart(alloc: Global) -> bool {
    match (
        emission(alloc, &Leaving::Provisioned(7), 0),
        emission(alloc, &Leaving::Provisioned(8), 0),
    ) {
        (Some(emission), Some(other)) => are_told_apart(&emission, &other),
        _ => false,
    }
}

#[test]
fn emissions_are_told_apart(rt: HostRuntime) {
    assert!(rt; slots_are_told_apart(rt.alloc()));
}

fn provision() -> Option<Request> {
    Some(Request::Provision {
        dev_eui: DEVICE,
        join_eui: JOIN_EUI,
        app_key: KEY,
        rx1_offset: Rx1Offset::new(5)?,
        rx_delay: RxDelay::new(15)?,
    })
}

const FIELDS: &str = "1112131415161718 0102030405060708 2B7E151628AED2A6ABF7158809CF4F3C 5 15";

const PROVISION: &str =
    "provision 1112131415161718 0102030405060708 2B7E151628AED2A6ABF7158809CF4F3C 5 15";

// Whether the request is read from its line and from its words, and is copied.
fn is_read(alloc: Global, request: &Request) -> bool {
    let of_line = read_line(alloc, PROVISION);
    let of_words = read_request(alloc, "provision", Words::of(FIELDS));
    let copy: Result<_, _> = request.clone();
    match (of_line, of_words, copy) {
        (Ok(of_line), Ok(of_words), Ok(copy)) => {
            of_line == *request && of_words == *request && copy == *request
        }
        _ => false,
    }
}

// The command that it becomes.
fn wanted_command() -> Option<Command> {
    let mut asked = provisioning(DEVICE)?;
    asked.rx1_offset = Rx1Offset::new(5)?;
    asked.rx_delay = RxDelay::new(15)?;
    Some(Command::Provision(asked))
}

fn becomes(request: Request, command: &Command) -> Option<bool> {
    Some(request.into_command(Application::new(3)?) == *command)
}

fn is_read_and_becomes(alloc: Global) -> Option<bool> {
    let request = provision()?;
    let is_read = is_read(alloc, &request);
    Some(is_read && becomes(request, &wanted_command()?)?)
}

#[test]
fn a_provisioning_is_read_and_is_a_command(rt: HostRuntime) {
    assert!(rt; is_read_and_becomes(rt.alloc()) == Some(true));
}

// The command of a line: an item with this tag, port, kind and payload, or these MAC commands.
enum Asks {
    Item(u32, u8, bool, &'static str),
    Mac(&'static str),
}

fn asked(alloc: Global, hex: &str, count: usize) -> Option<AskedBytes> {
    AskedBytes::new(bytes(alloc, hex, 0xA5, count)?).ok()
}

// A command whose bytes end with this number of A5.
fn command(alloc: Global, asks: &Asks, count: usize) -> Option<Command> {
    let application = Application::new(3)?;
    match asks {
        Asks::Item(tag, port, confirmed, payload) => Some(Command::Queue(Queueing {
            application,
            dev_eui: DEVICE,
            tag: Tag(*tag),
            port: *port,
            confirmed: *confirmed,
            payload: asked(alloc, payload, count)?,
        })),
        Asks::Mac(commands) => Some(Command::QueueMac(MacQueueing {
            application,
            dev_eui: DEVICE,
            commands: asked(alloc, commands, count)?,
        })),
    }
}

// Whether the line asks for this command.
fn asks_for(alloc: Global, line: &str, command: &Command) -> Option<bool> {
    match read_line(alloc, line) {
        Ok(request) => becomes(request, command),
        Err(_) => None,
    }
}

// Whether the line does, followed by this number of A5 in hex.
fn is_asked(alloc: Global, front: &str, count: usize, asks: &Asks) -> Option<bool> {
    match (
        command(alloc, asks, count),
        long_text(alloc, front, count, ""),
    ) {
        (Some(command), Ok(line)) => asks_for(alloc, &line, &command),
        _ => None,
    }
}

// Lines, each followed by a number of A5 in hex, and the commands that they ask for, whose bytes
// end with as many. The fourth item is too long for any data rate.
const REQUESTS: &[(&str, usize, Asks)] = &[
    (
        "queue 1112131415161718 9 7 u AA",
        0,
        Asks::Item(9, 7, false, "AA"),
    ),
    (
        "queue 1112131415161718 0 0 c -",
        0,
        Asks::Item(0, 0, true, ""),
    ),
    (
        "queue 1112131415161718 4294967295 255 c 00FF",
        0,
        Asks::Item(4_294_967_295, 255, true, "00FF"),
    ),
    (
        "queue 1112131415161718 9 7 u ",
        243,
        Asks::Item(9, 7, false, ""),
    ),
    ("mac 1112131415161718 06", 0, Asks::Mac("06")),
    ("mac 1112131415161718 -", 0, Asks::Mac("")),
];

#[test]
fn items_and_commands_are_read_of_their_lines(rt: HostRuntime) {
    for (front, count, wanted) in REQUESTS {
        let is_asked = is_asked(rt.alloc(), front, *count, wanted);
        assert!(rt; is_asked == Some(true), "{front}");
    }
}

const NO_REQUESTS: &[&str] = &[
    "",
    "provision",
    " provision 1112131415161718 0102030405060708 2B7E151628AED2A6ABF7158809CF4F3C 0 1",
    "Provision 1112131415161718 0102030405060708 2B7E151628AED2A6ABF7158809CF4F3C 0 1",
    "provision  1112131415161718 0102030405060708 2B7E151628AED2A6ABF7158809CF4F3C 0 1",
    "provision 1112131415161718 0102030405060708 2B7E151628AED2A6ABF7158809CF4F3C 0 1 ",
    "provision 1112131415161718 0102030405060708 2B7E151628AED2A6ABF7158809CF4F3C 0 1 1",
    "provision 1112131415161718 0102030405060708 2B7E151628AED2A6ABF7158809CF4F3C 0",
    "provision 1112131415161718 0102030405060708 2B7E151628AED2A6ABF7158809CF4F3C 0 0",
    "provision 1112131415161718 0102030405060708 2B7E151628AED2A6ABF7158809CF4F3C 0 16",
    "provision 1112131415161718 0102030405060708 2B7E151628AED2A6ABF7158809CF4F3C 6 1",
    "provision 1112131415161718 0102030405060708 2B7E151628AED2A6ABF7158809CF4F3C 00 1",
    "provision 1112131415161718 0102030405060708 2B7E151628AED2A6ABF7158809CF4F3C +0 1",
    "provision 1112131415161718 0102030405060708 2b7e151628aed2a6abf7158809cf4f3c 0 1",
    "provision 1112131415161718 0102030405060708 2B7E151628AED2A6ABF7158809CF4F3 0 1",
    "provision 1112131415161718 010203040506070 2B7E151628AED2A6ABF7158809CF4F3C 0 1",
    "provision - 0102030405060708 2B7E151628AED2A6ABF7158809CF4F3C 0 1",
    "queue 1112131415161718 9 7 u",
    "queue 1112131415161718 9 7 u AA AA",
    "queue 1112131415161718 9 7 u  AA",
    "queue 1112131415161718 9 7 u A",
    "queue 1112131415161718 9 7 u aa",
    "queue 1112131415161718 9 7 u ",
    "queue 1112131415161718 9 7 U AA",
    "queue 1112131415161718 9 7 uc AA",
    "queue 1112131415161718 9 256 u AA",
    "queue 1112131415161718 9 07 u AA",
    "queue 1112131415161718 4294967296 7 u AA",
    "queue 1112131415161718 -9 7 u AA",
    "queue 11121314151617 9 7 u AA",
    "Queue 1112131415161718 9 7 u AA",
    "mac 1112131415161718",
    "mac 1112131415161718 ",
    "mac 1112131415161718 06 06",
    "mac 1112131415161718 0",
    "mac 1112131415161718 0x06",
    "mac - 06",
    "macqueue 1112131415161718 06",
];

// The lines that are read although they are no request, each after a newline.
fn wrong_requests(alloc: Global) -> Result<String, Refusal> {
    let mut wrong = String::new(alloc);
    for line in NO_REQUESTS {
        if read_line(alloc, line).err() != Some(Refusal::BadMessage) {
            wrong.push_str("\ngateway_wire_tests.rt NO_REQUESTS: ")?;
            wrong.push_str(line)?;
        }
    }
    Ok(wrong)
}

#[test]
fn other_lines_are_refused(rt: HostRuntime) {
    let wrong = wrong_requests(rt.alloc()).expect(&rt, "memory");
    assert!(rt; wrong.is_empty(), "{wrong}");
}

#[test]
fn words_are_values(rt: HostRuntime) {
    let mut words = Words::of("7 15 16 x");
    assert!(rt; next_value(&mut words) == Some(7u8));
    assert!(rt; next_ranged(&mut words) == Application::new(15));
    let sixteen: Option<Application> = next_ranged(&mut words);
    assert!(rt; sixteen.is_none());
    let number: Option<u32> = next_value(&mut words);
    assert!(rt; number.is_none());
    let nothing: Option<u32> = next_value(&mut words);
    assert!(rt; nothing.is_none());
}

// A device with a current session and one item, whose count of uplinks is at its highest value.
fn busy(alloc: Global) -> Option<Device> {
    let activation = Activation::new(JoinNonce::new(5), Some(current(3, 70)?), None)?;
    let Ok(items) = ItemQueue::new(items(alloc, 1, 1)?) else {
        return None;
    };
    let mut device = new_device(alloc, Eui(0xAB))?;
    device.activation = activation;
    device.items = items;
    device.heard = UplinkCount::new(9_223_372_036_854_775_807)?;
    Some(device)
}

// Whether the list of a table is this text.
fn is_listed(alloc: Global, table: &Table, seq: u64, text: &str) -> bool {
    match list_text(alloc, table.devices(), seq) {
        Ok(list) => list.as_str() == text,
        Err(_) => false,
    }
}

// The lists of a table with no device, with one, and with two.
const LISTS: [&str; 3] = [
    "devices 0 seq 0\n",
    "0 1112131415161718 0 - - - 0 0\ndevices 1 seq 1\n",
    concat!(
        "0 1112131415161718 0 - - - 0 0\n",
        "1 00000000000000AB 5 3 70 4294967296 1 9223372036854775807\n",
        "devices 2 seq 18446744073709551615\n",
    ),
];

fn are_listed(alloc: Global, table: &mut Table) -> Option<bool> {
    let [none, one, two] = LISTS;
    let is_empty = is_listed(alloc, table, 0, none);
    let Ok(()) = table.put(0, new_device(alloc, DEVICE)?) else {
        return None;
    };
    let has_one = is_listed(alloc, table, 1, one);
    let Ok(()) = table.put(1, busy(alloc)?) else {
        return None;
    };
    Some(is_empty && has_one && is_listed(alloc, table, u64::MAX, two))
}

fn a_new_table_lists(alloc: Global) -> Option<bool> {
    let (net_id, slots) = (NetId::new(0x2A)?, Slots::new(8)?);
    match Table::new(alloc, net_id, slots) {
        Ok(mut table) => are_listed(alloc, &mut table),
        Err(_) => None,
    }
}

#[test]
fn devices_are_listed_by_slot(rt: HostRuntime) {
    assert!(rt; a_new_table_lists(rt.alloc()) == Some(true));
}
