use lw_types::{ByteField, Direction, LONGEST_PAYLOAD, Refusal};
use mac_commands::{
    Cid, Decoded, MacCommand, are_queueable, asks_link_check, decode_down, decode_up, encode_down,
    fit15, read_reported,
};
use std::alloc::Global;

// A command of TS001-1.0.4 §5: its number, and its bytes in an uplink and in a downlink. The bytes
// of the payloads are identifiers as well.
type Row = (u8, Cid, &'static [u8], &'static [u8]);

const TABLE: &[Row] = &[
    (0x02, Cid::LinkCheck, &[0x02], &[0x02, 0x02, 0x0B]),
    (
        0x03,
        Cid::LinkAdr,
        &[0x03, 0x02],
        &[0x03, 0x02, 0x0B, 0x06, 0x04],
    ),
    (0x04, Cid::DutyCycle, &[0x04], &[0x04, 0x02]),
    (
        0x05,
        Cid::RxParamSetup,
        &[0x05, 0x02],
        &[0x05, 0x02, 0x0B, 0x06, 0x04],
    ),
    (0x06, Cid::DevStatus, &[0x06, 0x02, 0x0B], &[0x06]),
    (
        0x07,
        Cid::NewChannel,
        &[0x07, 0x02],
        &[0x07, 0x02, 0x0B, 0x06, 0x04, 0x0D],
    ),
    (0x08, Cid::RxTimingSetup, &[0x08], &[0x08, 0x02]),
    (0x09, Cid::TxParamSetup, &[0x09], &[0x09, 0x02]),
    (
        0x0A,
        Cid::DlChannel,
        &[0x0A, 0x02],
        &[0x0A, 0x02, 0x0B, 0x06, 0x04],
    ),
    (
        0x0D,
        Cid::DeviceTime,
        &[0x0D],
        &[0x0D, 0x02, 0x0B, 0x06, 0x04, 0x0D],
    ),
];

fn read(alloc: Global, direction: Direction, bytes: &[u8]) -> Result<Decoded, Refusal> {
    match direction {
        Direction::Up => decode_up(alloc, bytes),
        Direction::Down => decode_down(alloc, bytes),
    }
}

// Whether these are the commands, with their payloads.
fn are_commands(found: &[MacCommand], wanted: &[(Cid, &[u8])]) -> bool {
    let mut count: usize = 0;
    for (cid, payload) in wanted {
        let Some(command) = found.get(count) else {
            return false;
        };
        if command.cid != *cid || command.payload.as_slice() != *payload {
            return false;
        }
        count = count.saturating_add(1);
    }
    found.len() == count
}

// Whether the bytes are read as these commands, up to this place.
fn is_read(
    alloc: Global,
    direction: Direction,
    bytes: &[u8],
    wanted: &[(Cid, &[u8])],
    stop: usize,
) -> bool {
    let Ok(found) = read(alloc, direction, bytes) else {
        return false;
    };
    found.stop == stop && are_commands(&found.commands, wanted)
}

// Commands of uplinks, what is read of them, and where reading stops: at the end, or at bytes where
// no known command begins.
const READ: &[(&[u8], &[(Cid, &[u8])], usize)] = &[
    (
        &[0x02, 0x03, 0x07, 0x0D],
        &[
            (Cid::LinkCheck, &[]),
            (Cid::LinkAdr, &[0x07]),
            (Cid::DeviceTime, &[]),
        ],
        4,
    ),
    (&[0x02, 0x0B, 0x02], &[(Cid::LinkCheck, &[])], 1),
];

#[test]
fn reading_stops_where_no_known_command_begins(rt: HostRuntime) {
    for (bytes, wanted, stop) in READ {
        let is_read = is_read(rt.alloc(), Direction::Up, bytes, wanted, *stop);
        assert!(rt; is_read, "{stop}");
    }
}

// Whether the command is read whole from its bytes, and no command without the last of them.
fn is_whole(alloc: Global, direction: Direction, cid: Cid, bytes: &[u8]) -> bool {
    let (Some((_, payload)), Some((_, cut))) = (bytes.split_first(), bytes.split_last()) else {
        return false;
    };
    is_read(alloc, direction, bytes, &[(cid, payload)], bytes.len())
        && is_read(alloc, direction, cut, &[], 0)
}

// Whether a downlink's commands are read, this number of them and up to this place, and whether
// what was read is written unchanged after AA.
fn is_written(alloc: Global, bytes: &[u8], count: usize, stop: usize) -> bool {
    let (Ok(found), Ok(mut out)) = (decode_down(alloc, bytes), Vec::from_slice(alloc, &[0xAA]))
    else {
        return false;
    };
    encode_down(alloc, &found.commands, &mut out).is_ok()
        && found.commands.len() == count
        && found.stop == stop
        && out.as_slice().strip_prefix(&[0xAA]) == bytes.get(..stop)
}

#[test]
fn ten_numbers_are_known(rt: HostRuntime) {
    for number in 0..=u8::MAX {
        let known = matches!(number, 0x02..=0x0A | 0x0D);
        assert!(rt; Cid::from_number(number).is_some() == known, "{number}");
    }
}

// Whether a command has payloads as long as those.
fn has_lengths(cid: Cid, up: &[u8], down: &[u8]) -> bool {
    cid.payload_len(Direction::Up) + 1 == up.len()
        && cid.payload_len(Direction::Down) + 1 == down.len()
}

// Whether a command may be queued exactly if it is of one of three kinds.
fn may_be_queued(cid: Cid, down: &[u8]) -> bool {
    let may = matches!(cid, Cid::LinkAdr | Cid::DutyCycle | Cid::DevStatus);
    cid.may_be_queued() == may && are_queueable(down) == may
}

// Whether a command has its number and its lengths, and may or may not be queued.
fn has_row(row: &Row) -> bool {
    let (number, cid, up, down) = *row;
    let is_named = Cid::from_number(number) == Some(cid) && cid.number() == number;
    is_named && has_lengths(cid, up, down) && may_be_queued(cid, down)
}

// Whether it is read whole in both directions, and written unchanged in a downlink.
fn is_read_and_written(alloc: Global, row: &Row) -> bool {
    let (_, cid, up, down) = *row;
    is_whole(alloc, Direction::Up, cid, up)
        && is_whole(alloc, Direction::Down, cid, down)
        && is_written(alloc, down, 1, down.len())
}

#[test]
fn each_command_has_its_row(rt: HostRuntime) {
    for row in TABLE {
        let is_right = has_row(row) && is_read_and_written(rt.alloc(), row);
        assert!(rt; is_right, "{}", row.0);
    }
}

// LinkADRReq three times, of 5 bytes each.
const REQUESTS: &[u8] = &[
    0x03, 0x11, 0x22, 0x33, 0x44, 0x03, 0x11, 0x22, 0x33, 0x44, 0x03, 0x11, 0x22, 0x33, 0x44,
];

// Queues, rooms, and how many bytes fit there.
const ROOMS: &[(&[u8], u8, usize)] = &[
    (REQUESTS, 0, 0),
    (REQUESTS, 4, 0),
    (REQUESTS, 5, 5),
    (REQUESTS, 9, 5),
    (REQUESTS, 12, 10),
    (REQUESTS, 14, 10),
    (REQUESTS, 15, 15),
    (REQUESTS, 255, 15),
    (&[], 15, 0),
    // DevStatusReq, DutyCycleReq, and a LinkADRReq that is cut short; an unknown identifier
    (&[0x06, 0x04, 0x0F, 0x03, 0x11], 15, 3),
    (&[0x06, 0x0B, 0x06], 15, 1),
];

// The rows of the table that are wrong, one line each.
fn wrong_rooms(alloc: Global) -> Result<String, Refusal> {
    let mut wrong = String::new(alloc);
    for (number, (queue, room, wanted)) in ROOMS.iter().enumerate() {
        let got = fit15(queue, *room);
        if got != *wanted {
            let line = format!(in alloc;
                "\nmac_commands_tests.rt ROOMS {number}: wanted {wanted}, got {got}"
            )?;
            wrong.push_str(&line)?;
        }
    }
    Ok(wrong)
}

#[test]
fn whole_commands_fit_the_room(rt: HostRuntime) {
    let wrong = wrong_rooms(rt.alloc()).expect(&rt, "memory");
    assert!(rt; wrong.is_empty(), "{wrong}");
}

// This number of LinkADRReq, and these bytes.
fn requests(alloc: Global, count: usize, rest: &[u8]) -> Option<Vec<u8>> {
    let Ok(mut bytes) = [0x03, 0xA5, 0xA5, 0xA5, 0xA5].repeat(alloc, count) else {
        return None;
    };
    match bytes.extend_from_slice(rest) {
        Ok(()) => Some(bytes),
        Err(_) => None,
    }
}

// Whether 48 commands are read from as many requests and these bytes, and written again.
fn are_48(alloc: Global, rest: &[u8]) -> Option<bool> {
    let bytes = requests(alloc, 48, rest)?;
    Some(is_written(alloc, &bytes, 48, 240))
}

fn checks(alloc: Global) -> Option<(usize, usize)> {
    let Ok(found) = decode_up(alloc, &[0x02; LONGEST_PAYLOAD]) else {
        return None;
    };
    Some((found.commands.len(), found.stop))
}

// All of 240 bytes; all but the last command, which is cut short; and commands of one byte each in
// an uplink.
#[test]
fn many_commands_are_read_and_written(rt: HostRuntime) {
    let alloc = rt.alloc();
    assert!(rt; are_48(alloc, &[]) == Some(true));
    assert!(rt; are_48(alloc, &[0x03, 0xA5]) == Some(true));
    assert!(rt; checks(alloc) == Some((242, 242)));
}

// How much of this number of requests and these bytes fits a wide room, and whether all of them may
// be queued.
fn queued(alloc: Global, count: usize, rest: &[u8]) -> Option<(usize, bool)> {
    let bytes = requests(alloc, count, rest)?;
    Some((fit15(&bytes, 242), are_queueable(&bytes)))
}

const QUEUES: &[(usize, &[u8], (usize, bool))] = &[
    (0, &[], (0, true)),
    (12, &[], (60, true)),
    (12, &[0x03], (60, false)),
    (48, &[], (240, true)),
];

#[test]
fn queues_end_with_a_command(rt: HostRuntime) {
    for (count, rest, wanted) in QUEUES {
        assert!(rt;
            queued(rt.alloc(), *count, rest) == Some(*wanted),
            "{count}"
        );
    }
}

// The commands in an uplink, those that are reported to its application, and whether a LinkCheckReq
// is among them.
const UPLINKS: &[(&[u8], &[u8], bool)] = &[
    // None; one command; LinkCheckReq twice; DeviceTimeReq.
    (&[], &[], false),
    (&[0x03, 0x07], &[0x03, 0x07], false),
    (&[0x02, 0x02], &[], true),
    (&[0x0D], &[], false),
    (&[0x02, 0x03, 0x07], &[0x03, 0x07], true),
    (
        &[0x03, 0x07, 0x0D, 0x06, 0xFF, 0x14, 0x0A, 0x03],
        &[0x03, 0x07, 0x06, 0xFF, 0x14, 0x0A, 0x03],
        false,
    ),
    // A payload that is an identifier; an unknown identifier; a DevStatusAns that is cut short.
    (&[0x07, 0x02], &[0x07, 0x02], false),
    (&[0x03, 0x07, 0x0E, 0x02], &[0x03, 0x07], false),
    (&[0x03, 0x07, 0x06, 0x02], &[0x03, 0x07], false),
    (&[0x04, 0x08, 0x02, 0x0E, 0x07, 0x02], &[0x04, 0x08], true),
    // As many as there may be.
    (&[0x04; LONGEST_PAYLOAD], &[0x04; LONGEST_PAYLOAD], false),
];

// What is reported to the application of these commands, if it isn't this.
fn told_else(alloc: Global, commands: &[u8], wanted: &[u8]) -> Result<Option<String>, Refusal> {
    if commands.len() > LONGEST_PAYLOAD {
        return Err(Refusal::TooLong);
    }
    let told = read_reported(alloc, commands)?;
    if told.as_slice() == wanted {
        return Ok(None);
    }
    Ok(Some(ByteField(told.as_slice()).to_string(alloc)?))
}

// The rows of the table that are wrong, one line each.
fn wrong_uplinks(alloc: Global) -> Result<String, Refusal> {
    let mut wrong = String::new(alloc);
    for (number, (commands, wanted, asks)) in UPLINKS.iter().enumerate() {
        if asks_link_check(commands) != *asks {
            wrong.push_str(&format!(in alloc;
                "\nmac_commands_tests.rt UPLINKS {number}: wanted {asks}"
            )?)?;
        }
        if let Some(got) = told_else(alloc, commands, wanted)? {
            let wanted = ByteField(wanted);
            let line = format!(in alloc;
                "\nmac_commands_tests.rt UPLINKS {number}: wanted {wanted}, got {got}"
            )?;
            wrong.push_str(&line)?;
        }
    }
    Ok(wrong)
}

#[test]
fn applications_are_told_what_devices_answer(rt: HostRuntime) {
    let wrong = wrong_uplinks(rt.alloc()).expect(&rt, "memory");
    assert!(rt; wrong.is_empty(), "{wrong}");
}
