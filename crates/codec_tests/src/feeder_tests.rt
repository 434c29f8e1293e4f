use crate::link_fixtures::{GATEWAY, bytes};
use link_messages::{Fed, Feeder, Message, Peer};
use lw_types::{FrameCopy, Reception, Refusal};
use std::alloc::Global;

// The greeting of a gateway, its copy of a frame of 17 bytes, and both one after the other.
const GREETING: &str = "00090000000000000000B1";

const COPY: &str =
    "00270100000000000000B133BE27A005FFECFFA10000C35040F17DBE4900020001954378762B11FF0D";

const GREETING_AND_COPY: &str = concat!(
    "00090000000000000000B100270100000000000000B133BE27A005FFECFFA10000C35040F17DBE4900020001",
    "954378762B11FF0D",
);

// Feeds a piece, and returns whether there was memory for it. A piece for which there was none is
// fed again.
fn feed(feeder: &mut Feeder, piece: &[u8], said: &mut Fed) -> bool {
    let answer = match feeder.feed(piece) {
        Ok(fed) => Ok(fed),
        Err(_) => feeder.feed(piece),
    };
    let Ok(mut fed) = answer else {
        return false;
    };
    said.fault = fed.fault;
    said.messages.append(&mut fed.messages).is_ok()
}

// Feeds a stream in one piece, or byte by byte.
fn feed_all(feeder: &mut Feeder, stream: &[u8], is_whole: bool, said: &mut Fed) -> bool {
    if is_whole {
        return feed(feeder, stream, said);
    }
    for byte in stream {
        if !feed(feeder, &[*byte], said) {
            return false;
        }
    }
    true
}

// What a stream says, and how its end is refused.
fn heard(alloc: Global, stream: &[u8], is_whole: bool) -> Option<(Fed, Option<Refusal>)> {
    let mut feeder = Feeder::new(alloc);
    let mut said = Fed {
        messages: Vec::new(alloc),
        fault: None,
    };
    if feed_all(&mut feeder, stream, is_whole, &mut said) {
        Some((said, feeder.end().err()))
    } else {
        None
    }
}

// Whether a text followed by this number of 41 says this number of messages and ends so, in whole
// and byte by byte. A stream that isn't cut short has its fault before it ends.
fn says(alloc: Global, stream: &Stream) -> bool {
    let (hex, filled, count, end) = *stream;
    let fault = if end == CUT_SHORT { None } else { end };
    let Some(stream) = bytes(alloc, hex, 0x41, filled) else {
        return false;
    };
    match (heard(alloc, &stream, true), heard(alloc, &stream, false)) {
        (Some((whole, whole_end)), Some((cut, cut_end))) => {
            let is_same = whole == cut && whole_end == cut_end;
            is_same && whole_end == end && whole.messages.len() == count && whole.fault == fault
        }
        _ => false,
    }
}

// Texts, how many of 41 follow them, how many messages they say, and how their end is refused.
type Stream = (&'static str, usize, usize, Option<Refusal>);

const CUT_SHORT: Option<Refusal> = Some(Refusal::CutShort);

const TOO_LONG: Option<Refusal> = Some(Refusal::FrameTooLong);

const NO_MESSAGE: Option<Refusal> = Some(Refusal::BadMessage);

const STREAMS: &[Stream] = &[
    // whole frames: none, and a greeting
    ("", 0, 0, None),
    (GREETING, 0, 1, None),
    // no PHYPayload, and the longest
    (
        "00090000000000000000B100160100000000000000B133BE27A005FFECFFA10000C350",
        0,
        2,
        None,
    ),
    (
        "00090000000000000000B101150100000000000000B133BE27A005FFECFFA10000C350",
        255,
        2,
        None,
    ),
    // no line, one of the last ASCII, two, and the longest
    ("00020203000103", 0, 2, None),
    ("000202030002037F", 0, 2, None),
    ("0002020300020341000303417E", 0, 3, None),
    ("0002020F02BC03", 699, 2, None),
    // parts of frames
    ("00", 0, 0, CUT_SHORT),
    ("02BC", 0, 0, CUT_SHORT),
    ("00090000000000000000", 0, 0, CUT_SHORT),
    ("00090000000000000000B100", 0, 1, CUT_SHORT),
    (
        concat!(
            "00090000000000000000B100270100000000000000B133BE27A005FFECFFA10000C35040F17DBE490002",
            "0001954378762B11FF",
        ),
        0,
        1,
        CUT_SHORT,
    ),
    ("0002020302BC03", 698, 1, CUT_SHORT),
    // lengths above 700
    ("02BD", 0, 0, TOO_LONG),
    ("FFFF", 9, 0, TOO_LONG),
    ("00090000000000000000B102BD", 701, 1, TOO_LONG),
    // what follows a fault is ignored
    ("02BD00020203", 0, 0, TOO_LONG),
    // no content, an unknown kind, and nothing after a fault
    ("0000", 0, 0, NO_MESSAGE),
    ("000104", 0, 0, NO_MESSAGE),
    ("00021141", 0, 0, NO_MESSAGE),
    ("000000020203", 0, 0, NO_MESSAGE),
    // greetings that are too short, too long, or of no application
    ("000800000000000000B1", 0, 0, NO_MESSAGE),
    ("000A0000000000000000B100", 0, 0, NO_MESSAGE),
    ("000102", 0, 0, NO_MESSAGE),
    ("0003020300", 0, 0, NO_MESSAGE),
    ("00020210", 0, 0, NO_MESSAGE),
    // a copy that is too short, and one of 256 bytes
    (
        "00090000000000000000B100150100000000000000B133BE27A005FFECFFA10000C3",
        0,
        1,
        NO_MESSAGE,
    ),
    (
        "00090000000000000000B101160100000000000000B133BE27A005FFECFFA10000C350",
        256,
        1,
        NO_MESSAGE,
    ),
    // bytes that aren't ASCII, and newlines
    ("0002020300020380", 0, 1, NO_MESSAGE),
    ("00020203000403410A41", 0, 1, NO_MESSAGE),
    // messages that may not be said on their links: before a greeting
    (COPY, 0, 0, NO_MESSAGE),
    ("00020341", 0, 0, NO_MESSAGE),
    // a second greeting
    (
        "00090000000000000000B100090000000000000000B1",
        0,
        1,
        NO_MESSAGE,
    ),
    ("00090000000000000000B100020203", 0, 1, NO_MESSAGE),
    ("0002020300020203", 0, 1, NO_MESSAGE),
    // another gateway's copy, a line from a gateway, and a copy from an application
    (
        "00090000000000000000B100160100000000000000B233BE27A005FFECFFA10000C350",
        0,
        1,
        NO_MESSAGE,
    ),
    ("00090000000000000000B100020341", 0, 1, NO_MESSAGE),
    (
        "0002020300160100000000000000B133BE27A005FFECFFA10000C350",
        0,
        1,
        NO_MESSAGE,
    ),
];

#[test]
fn streams_say_their_messages(rt: HostRuntime) {
    for stream in STREAMS {
        let says = says(rt.alloc(), stream);
        assert!(rt; says, "{}", stream.0);
    }
}

fn copy(alloc: Global) -> Option<FrameCopy> {
    let reception = Reception {
        gateway: GATEWAY,
        frequency: 868_100_000,
        data_rate: 5,
        snr: -20,
        rssi: -95,
    };
    let frame = bytes(alloc, "40F17DBE4900020001954378762B11FF0D", 0, 0)?;
    FrameCopy::new(alloc, reception, 50_000, &frame).ok()
}

// Whether they are a gateway's greeting and its copy.
fn are_of_gateway(messages: &[Message], copy: &FrameCopy) -> bool {
    match messages {
        [
            Message::Greeting(Peer::Gateway(gateway)),
            Message::Copy(found),
        ] => { *gateway == GATEWAY && found == copy }
        _ => false,
    }
}

fn hands_in_a_copy(alloc: Global) -> Option<bool> {
    let stream = bytes(alloc, GREETING_AND_COPY, 0, 0)?;
    let (fed, _) = heard(alloc, &stream, false)?;
    Some(are_of_gateway(&fed.messages, &copy(alloc)?))
}

#[test]
fn a_gateway_hands_in_its_copy(rt: HostRuntime) {
    assert!(rt; hands_in_a_copy(rt.alloc()) == Some(true));
}

// What a stream says that comes in two pieces.
fn heard_in_two(alloc: Global, stream: &[u8], at: usize) -> Option<Fed> {
    let (front, behind) = stream.split_at_checked(at)?;
    let mut feeder = Feeder::new(alloc);
    let mut said = Fed {
        messages: Vec::new(alloc),
        fault: None,
    };
    if feed(&mut feeder, front, &mut said) && feed(&mut feeder, behind, &mut said) {
        Some(said)
    } else {
        None
    }
}

fn hands_in_a_copy_in_two(alloc: Global, at: usize) -> Option<bool> {
    let stream = bytes(alloc, GREETING_AND_COPY, 0, 0)?;
    let fed = heard_in_two(alloc, &stream, at)?;
    Some(are_of_gateway(&fed.messages, &copy(alloc)?) && fed.fault.is_none())
}

#[test]
fn a_copy_is_cut_at_each_place(rt: HostRuntime) {
    for at in 0..53 {
        assert!(rt;
            hands_in_a_copy_in_two(rt.alloc(), at) == Some(true),
            "{at}"
        );
    }
}

// Whether they are the greeting of application 3 and its line.
fn are_of_application(messages: &[Message], text: &str) -> bool {
    match messages {
        [
            Message::Greeting(Peer::Application(application)),
            Message::Line(line),
        ] => { application.get() == 3 && line.as_str() == text }
        _ => false,
    }
}

fn hands_in_a_line(alloc: Global) -> Option<bool> {
    let stream = bytes(alloc, "000202030006036D6163202D", 0, 0)?;
    let (fed, _) = heard(alloc, &stream, true)?;
    Some(are_of_application(&fed.messages, "mac -"))
}

#[test]
fn an_application_hands_in_its_line(rt: HostRuntime) {
    assert!(rt; hands_in_a_line(rt.alloc()) == Some(true));
}
