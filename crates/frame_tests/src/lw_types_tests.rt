use lw_types::{
    ByteField, DevAddr, Eui, FrameCopy, FromText, JoinNonce, Key, LONGEST_FRAME, LONGEST_PAYLOAD,
    NetId, Payload, Ranged, Reception, Refusal, Words, read_field, read_hex, write_hex,
};
use std::alloc::{AllocError, Global};

const REFUSALS: &[(Refusal, u8, &str)] = &[
    (Refusal::Malformed, 1, "the frame is not in the grammar"),
    (
        Refusal::BadMac,
        18,
        "these are not whole MAC commands that can be queued",
    ),
    (Refusal::WindowsFull, 20, "1,024 windows are open"),
    (Refusal::OutOfMemory, 30, "out of memory"),
    (Refusal::Damaged, 44, "the store is damaged"),
    (Refusal::CutShort, 52, "the input ends inside a frame"),
];

// Whether a text that was made is this text.
fn is_text(shown: Result<String, AllocError>, wanted: &str) -> bool {
    match shown {
        Ok(text) => text.as_str() == wanted,
        Err(_) => false,
    }
}

#[test]
fn refusals_have_numbers_and_messages(rt: HostRuntime) {
    for (refusal, number, message) in REFUSALS {
        let is_right = refusal.number() == *number
            && is_text(refusal.to_string(rt.alloc()), message);
        assert!(rt; is_right, "{message}");
    }
}

// Whether bytes that were read are these.
fn are_bytes(read: Result<Vec<u8>, Refusal>, wanted: &[u8]) -> bool {
    match read {
        Ok(bytes) => bytes.as_slice() == wanted,
        Err(_) => false,
    }
}

// Whether the bytes have this text as hex and that text in a line, and are read from both.
fn are_spelled(alloc: Global, bytes: &[u8], hex: &str, field: &str) -> bool {
    is_text(write_hex(alloc, bytes), hex)
        && are_bytes(read_hex(alloc, hex), bytes)
        && is_text(ByteField(bytes).to_string(alloc), field)
        && are_bytes(read_field(alloc, field), bytes)
}

// Bytes, their hex, and their word in a line.
const SPELLED: &[(&[u8], &str, &str)] = &[
    (&[], "", "-"),
    (&[0x40], "40", "40"),
    (&[0, 0x5A, 0xFF], "005AFF", "005AFF"),
];

// Whether the longest payload has a text of twice its length, as hex and in a line.
fn has_long_text(alloc: Global) -> bool {
    match "A5".repeat(alloc, LONGEST_PAYLOAD) {
        Ok(text) => are_spelled(alloc, &[0xA5; LONGEST_PAYLOAD], &text, &text),
        Err(_) => false,
    }
}

#[test]
fn bytes_are_upper_case_hex(rt: HostRuntime) {
    for (bytes, hex, field) in SPELLED {
        assert!(rt; are_spelled(rt.alloc(), bytes, hex, field), "{field}");
    }
    assert!(rt; has_long_text(rt.alloc()));
}

const NO_HEX: &[&str] = &["5a", "5", "5G", " 5A", "5A\n"];

#[test]
fn other_texts_are_no_hex(rt: HostRuntime) {
    let alloc = rt.alloc();
    for bad in NO_HEX {
        assert!(rt;
            read_hex(alloc, bad).err() == Some(Refusal::BadMessage),
            "{bad}"
        );
    }
    assert!(rt; read_hex(alloc, "-").err() == Some(Refusal::BadMessage));
    assert!(rt; read_field(alloc, "").err() == Some(Refusal::BadMessage));
}

fn reads<T: FromText + PartialEq + Drop>(text: &str, value: T) -> bool {
    match T::from_text(text) {
        Some(found) => found == value,
        None => false,
    }
}

fn refuses<T: FromText + Drop>(texts: &[&str]) -> bool {
    for text in texts {
        if T::from_text(text).is_some() {
            return false;
        }
    }
    true
}

#[test]
fn names_have_one_text(rt: HostRuntime) {
    assert!(rt; reads("1112131415161718", Eui(0x1112_1314_1516_1718)));
    assert!(rt; reads("54000001", DevAddr(0x5400_0001)));
    let key = Key([0, 1, 2, 3, 4, 5, 6, 7, 8, 9, 10, 11, 12, 13, 14, 15]);
    assert!(rt; reads("000102030405060708090A0B0C0D0E0F", key));
    let no_euis = &["111213141516171", "11121314151617180", "111213141516171a"];
    assert!(rt; refuses::<Eui>(no_euis));
    assert!(rt; refuses::<NetId>(&["000040", "01002A", "2A"]));
}

#[test]
fn numbers_have_one_text(rt: HostRuntime) {
    assert!(rt; reads("255", 255u8));
    assert!(rt; reads("1000", 1000u16));
    assert!(rt; reads("868100000", 868_100_000u32));
    assert!(rt; reads("18446744073709551615", u64::MAX));
    assert!(rt; reads("-32768", i16::MIN));
    assert!(rt; refuses::<u8>(&["256", "+5", "007", "00", "", "-1", " 1"]));
    assert!(rt; refuses::<i16>(&["32768", "-0", "+1", "-01", "-"]));
}

// Whether network 42 has this text, and is read from it.
fn network_has(alloc: Global, text: &str) -> bool {
    match NetId::new(42) {
        Some(network) => is_text(network.to_string(alloc), text) && reads(text, network),
        None => false,
    }
}

#[test]
fn names_are_shown_by_their_text(rt: HostRuntime) {
    let alloc = rt.alloc();
    let eui = Eui(0x0102_0304_0506_0708).to_string(alloc);
    assert!(rt; is_text(eui, "0102030405060708"));
    assert!(rt; is_text(DevAddr(0x5400_7FFF).to_string(alloc), "54007FFF"));
    assert!(rt; network_has(alloc, "00002A"));
    let key = Key([0x2B; 16]).reveal(alloc);
    assert!(rt; is_text(key, "2B2B2B2B2B2B2B2B2B2B2B2B2B2B2B2B"));
}

// What Debug shows of bytes.
fn shown(alloc: Global, bytes: &[u8]) -> Result<String, AllocError> {
    if bytes.len() > LONGEST_PAYLOAD {
        return Err(AllocError);
    }
    let bytes = Payload::from_slice(alloc, bytes)?;
    format!(in alloc; "{bytes:?}")
}

#[test]
fn debug_shows_bytes_and_no_key(rt: HostRuntime) {
    let alloc = rt.alloc();
    assert!(rt; is_text(shown(alloc, &[64, 1]), "[64, 1]"));
    let key = format!(in alloc; "{:?}", Key([0x2B; 16]));
    assert!(rt; is_text(key, "Key(..)"));
}

// Whether these bytes are kept unchanged, if they are a payload.
fn are_kept(alloc: Global, bytes: &[u8]) -> Option<bool> {
    let Ok(vector) = Vec::from_slice(alloc, bytes) else {
        return None;
    };
    let Ok(kept) = Payload::new(vector) else {
        return Some(false);
    };
    let is_long = kept.len() == bytes.len() && kept.is_empty() == bytes.is_empty();
    Some(is_long && kept.into_vec().as_slice() == bytes)
}

const PAYLOADS: &[(&[u8], bool)] = &[
    (&[], true),
    (&[0xA5], true),
    (&[0xA5; LONGEST_PAYLOAD], true),
    (&[0xA5; LONGEST_PAYLOAD + 1], false),
];

#[test]
fn bytes_are_kept(rt: HostRuntime) {
    for (bytes, may) in PAYLOADS {
        assert!(rt; are_kept(rt.alloc(), bytes) == Some(*may));
    }
}

// The number that a number becomes, in a range and in 24 bits.
fn ranged(value: u64) -> Option<u64> {
    Some(Ranged::<3, 5>::new(value)?.get())
}

fn nonce(value: u32) -> Option<u32> {
    Some(JoinNonce::new(value)?.get())
}

const RANGED: &[(u64, Option<u64>)] = &[
    (2, None),
    (3, Some(3)),
    (4, Some(4)),
    (5, Some(5)),
    (6, None),
];

const JOIN_NONCES: &[(u32, Option<u32>)] = &[
    (0, None),
    (1, Some(1)),
    (16_777_215, Some(16_777_215)),
    (16_777_216, None),
];

#[test]
fn ranges_have_their_ends(rt: HostRuntime) {
    for (value, wanted) in RANGED {
        assert!(rt; ranged(*value) == *wanted, "{value}");
    }
    for (value, wanted) in JOIN_NONCES {
        assert!(rt; nonce(*value) == *wanted, "{value}");
    }
}

// The first words of a text.
fn words(text: &str) -> [Option<&str>; 3] {
    let mut words = Words::of(text);
    [words.next(), words.next(), words.next()]
}

#[test]
fn words_are_parted_by_one_space(rt: HostRuntime) {
    assert!(rt; words("take 64") == [Some("take"), Some("64"), None]);
    assert!(rt; words(" a") == [Some(""), Some("a"), None]);
}

const RECEPTION: Reception = Reception {
    gateway: Eui(0xB1),
    frequency: 868_100_000,
    data_rate: 5,
    snr: -20,
    rssi: -95,
};

// Whether the copy of a frame of these bytes is whole.
fn is_copied(alloc: Global, bytes: &[u8]) -> Result<bool, Refusal> {
    let copy = FrameCopy::new(alloc, RECEPTION, 50_000, bytes)?.copy()?;
    let is_heard = copy.reception == RECEPTION && copy.stamp == 50_000;
    Ok(is_heard && copy.phy_payload.as_slice() == bytes)
}

const FRAMES: &[(&[u8], Result<bool, Refusal>)] = &[
    (&[], Ok(true)),
    (&[0x40; 17], Ok(true)),
    (&[0x40; LONGEST_FRAME], Ok(true)),
    (&[0x40; LONGEST_FRAME + 1], Err(Refusal::FrameTooLong)),
];

#[test]
fn copies_are_whole(rt: HostRuntime) {
    for (bytes, wanted) in FRAMES {
        assert!(rt; is_copied(rt.alloc(), bytes) == *wanted);
    }
}
