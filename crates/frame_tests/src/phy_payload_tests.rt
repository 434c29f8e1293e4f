// Frames from other implementations, the limits of each length, and each bit that has to be 0.
use lw_types::{DevAddr, Eui, Refusal, read_hex};
use phy_payload::{
    Contents, Control, DataFrame, FOpts, FrmPayload, JoinAccept, JoinRequest, Mic, Phy,
    PortPayload, decode, encode, encode_mic_input,
};
use std::alloc::Global;

// An uplink and a downlink with no bit set.
const UPLINK: Control = Control::Uplink {
    adr: false,
    adr_ack_req: false,
    ack: false,
};

const DOWNLINK: Control = Control::Downlink {
    adr: false,
    ack: false,
    f_pending: false,
};

// FOpts and, if there is a port, its payload.
fn contents(alloc: Global, f_opts: &[u8], port: Option<u8>, payload: &[u8]) -> Option<Contents> {
    let (Ok(f_opts), Ok(payload)) = (
        Vec::from_slice(alloc, f_opts),
        Vec::from_slice(alloc, payload),
    ) else {
        return None;
    };
    match (FOpts::new(f_opts), FrmPayload::new(payload)) {
        (Ok(f_opts), Ok(payload)) => joined(f_opts, port, payload),
        _ => None,
    }
}

// The contents of these parts, which are at most 242 bytes.
fn joined(f_opts: FOpts, port: Option<u8>, frm_payload: FrmPayload) -> Option<Contents> {
    let Some(f_port) = port else {
        return Some(Contents::new(f_opts, None));
    };
    if f_opts.len() + frm_payload.len() > 242 {
        return None;
    }
    let port_payload = PortPayload {
        f_port,
        frm_payload,
    };
    Some(Contents::new(f_opts, Some(port_payload)))
}

// Whether these bytes are written for a frame.
fn is_written(alloc: Global, bytes: &[u8], frame: &Phy) -> bool {
    let mut out = Vec::new(alloc);
    encode(alloc, frame, &mut out).is_ok() && out.as_slice() == bytes
}

fn is_read(alloc: Global, bytes: &[u8], frame: &Phy) -> bool {
    match decode(alloc, bytes) {
        Ok(found) => found == *frame,
        Err(_) => false,
    }
}

// Whether these bytes are this frame: each gives the other.
fn are_same(alloc: Global, bytes: &[u8], frame: &Phy) -> bool {
    is_read(alloc, bytes, frame) && is_written(alloc, bytes, frame)
}

fn spells(alloc: Global, text: &str, frame: &Phy) -> bool {
    match read_hex(alloc, text) {
        Ok(bytes) => are_same(alloc, &bytes, frame),
        Err(_) => false,
    }
}

const REQUEST: JoinRequest = JoinRequest {
    join_eui: Eui(0x0102_0304_0506_0708),
    dev_eui: Eui(0x1112_1314_1516_1718),
    dev_nonce: 1,
    mic: Mic([0xAA, 0xBB, 0xCC, 0xDD]),
};

const ACCEPTS: &[(&str, JoinAccept)] = &[
    (
        "2011111111111111111111111111111111",
        JoinAccept::Short { sealed: [0x11; 16] },
    ),
    (
        "202222222222222222222222222222222222222222222222222222222222222222",
        JoinAccept::WithCfList { sealed: [0x22; 32] },
    ),
];

#[test]
fn joins(rt: HostRuntime) {
    let text = "00080706050403020118171615141312110100AABBCCDD";
    assert!(rt; spells(rt.alloc(), text, &Phy::JoinRequest(REQUEST)));
    for (text, accept) in ACCEPTS {
        let spells = spells(rt.alloc(), text, &Phy::JoinAccept(*accept));
        assert!(rt; spells, "{text}");
    }
}

// A data frame: its text, whether it is confirmed, DevAddr, FCtrl, FCnt, FOpts, FPort, FRMPayload
// and MIC.
type Data = (
    &'static str,
    bool,
    u32,
    Control,
    u16,
    &'static [u8],
    Option<u8>,
    &'static [u8],
    [u8; 4],
);

const MIC: [u8; 4] = [0xAA, 0xBB, 0xCC, 0xDD];

const LONGEST_F_OPTS: &[u8] = &[1, 2, 3, 4, 5, 6, 7, 8, 9, 10, 11, 12, 13, 14, 15];

const DATA_FRAMES: &[Data] = &[
    // The first frame of the readme of npm's `lora-packet`.
    (
        "40F17DBE4900020001954378762B11FF0D",
        false,
        0x49BE_7DF1,
        UPLINK,
        2,
        &[],
        Some(1),
        &[0x95, 0x43, 0x78, 0x76],
        [0x2B, 0x11, 0xFF, 0x0D],
    ),
    // Empty frames with each bit of FCtrl.
    (
        "4000000054000000AABBCCDD",
        false,
        0x5400_0000,
        UPLINK,
        0,
        &[],
        None,
        &[],
        MIC,
    ),
    (
        "4000000054800000AABBCCDD",
        false,
        0x5400_0000,
        Control::Uplink {
            adr: true,
            adr_ack_req: false,
            ack: false,
        },
        0,
        &[],
        None,
        &[],
        MIC,
    ),
    (
        "8000000054400000AABBCCDD",
        true,
        0x5400_0000,
        Control::Uplink {
            adr: false,
            adr_ack_req: true,
            ack: false,
        },
        0,
        &[],
        None,
        &[],
        MIC,
    ),
    (
        "8000000054200000AABBCCDD",
        true,
        0x5400_0000,
        Control::Uplink {
            adr: false,
            adr_ack_req: false,
            ack: true,
        },
        0,
        &[],
        None,
        &[],
        MIC,
    ),
    (
        "6000000054800000AABBCCDD",
        false,
        0x5400_0000,
        Control::Downlink {
            adr: true,
            ack: false,
            f_pending: false,
        },
        0,
        &[],
        None,
        &[],
        MIC,
    ),
    (
        "A000000054200000AABBCCDD",
        true,
        0x5400_0000,
        Control::Downlink {
            adr: false,
            ack: true,
            f_pending: false,
        },
        0,
        &[],
        None,
        &[],
        MIC,
    ),
    (
        "6000000054100000AABBCCDD",
        false,
        0x5400_0000,
        Control::Downlink {
            adr: false,
            ack: false,
            f_pending: true,
        },
        0,
        &[],
        None,
        &[],
        MIC,
    ),
    // The longest FOpts, without a port and with one.
    (
        "60010000540F34120102030405060708090A0B0C0D0E0FAABBCCDD",
        false,
        0x5400_0001,
        DOWNLINK,
        0x1234,
        LONGEST_F_OPTS,
        None,
        &[],
        MIC,
    ),
    (
        "60010000540F34120102030405060708090A0B0C0D0E0F00AABBCCDD",
        false,
        0x5400_0001,
        DOWNLINK,
        0x1234,
        LONGEST_F_OPTS,
        Some(0),
        &[],
        MIC,
    ),
];

fn spells_data(alloc: Global, data: &Data) -> bool {
    let (text, confirmed, dev_addr, control, f_cnt, f_opts, port, payload, mic) = *data;
    let Some(contents) = contents(alloc, f_opts, port, payload) else {
        return false;
    };
    let frame = DataFrame {
        confirmed,
        dev_addr: DevAddr(dev_addr),
        control,
        f_cnt,
        contents,
        mic: Mic(mic),
    };
    spells(alloc, text, &Phy::DataFrame(frame))
}

#[test]
fn data_frames(rt: HostRuntime) {
    for data in DATA_FRAMES {
        assert!(rt; spells_data(rt.alloc(), data), "{}", data.0);
    }
}

const NO_FRAMES: &[(&[u8], Refusal, &str)] = &[
    (&[], Refusal::Malformed, "no bytes"),
    (&[0xE0], Refusal::NotServed, "Proprietary"),
    (&[0xC0], Refusal::NotServed, "RFU"),
    (
        &[0xE1],
        Refusal::Malformed,
        "the MHDR comes before the FType",
    ),
    (
        &[0x40, 0xF1, 0x7D, 0xBE, 0x49, 0, 2, 0, 1, 0x95],
        Refusal::Malformed,
        "10 bytes",
    ),
    (
        &[0x40, 0xF1, 0x7D, 0xBE, 0x49, 0, 2, 0, 1, 0x95, 0x43],
        Refusal::Malformed,
        "11 bytes",
    ),
    (
        &[
            0x40, 0, 0, 0, 0x54, 0x0F, 0, 0, 1, 2, 3, 4, 5, 6, 7, 8, 9, 0x0A, 0x0B, 0x0C, 0x0D,
            0x0E, 0xAA, 0xBB, 0xCC, 0xDD,
        ],
        Refusal::Malformed,
        "14 of 15 bytes of FOpts",
    ),
    (
        &[0x40, 0, 0, 0, 0x54, 0x10, 0, 0, 0xAA, 0xBB, 0xCC, 0xDD],
        Refusal::Malformed,
        "bit 4 up",
    ),
    (
        &[0x80, 0, 0, 0, 0x54, 0x10, 0, 0, 0xAA, 0xBB, 0xCC, 0xDD],
        Refusal::Malformed,
        "bit 4 up",
    ),
    (
        &[0x60, 0, 0, 0, 0x54, 0x40, 0, 0, 0xAA, 0xBB, 0xCC, 0xDD],
        Refusal::Malformed,
        "bit 6 down",
    ),
    (
        &[0xA0, 0, 0, 0, 0x54, 0x40, 0, 0, 0xAA, 0xBB, 0xCC, 0xDD],
        Refusal::Malformed,
        "bit 6 down",
    ),
];

// The rows of the table that are wrong, one line each.
fn wrong_refusals(alloc: Global) -> Result<String, Refusal> {
    let mut wrong = String::new(alloc);
    for (bytes, refusal, case) in NO_FRAMES {
        let got = decode(alloc, bytes).err();
        if got != Some(*refusal) {
            let line = format!(in alloc;
                "\nphy_payload_tests.rt NO_FRAMES, {case}: wanted {refusal:?}, got {got:?}"
            )?;
            wrong.push_str(&line)?;
        }
    }
    Ok(wrong)
}

#[test]
fn what_is_no_frame_is_refused(rt: HostRuntime) {
    let wrong = wrong_refusals(rt.alloc()).expect(&rt, "memory");
    assert!(rt; wrong.is_empty(), "{wrong}");
}

// An MHDR with zeros after it.
fn zeros(mhdr: u8) -> [u8; 257] {
    let mut bytes = [0; 257];
    bytes[0] = mhdr;
    bytes
}

// How this number of bytes, from the MHDR on, is refused, if it is.
fn refused(alloc: Global, mhdr: u8, len: usize) -> Option<Option<Refusal>> {
    let zeros = zeros(mhdr);
    Some(decode(alloc, zeros.get(..len)?).err())
}

// Whether they are a frame that is written as the same bytes.
fn is_frame(alloc: Global, mhdr: u8, len: usize) -> bool {
    let zeros = zeros(mhdr);
    let Some(bytes) = zeros.get(..len) else {
        return false;
    };
    match decode(alloc, bytes) {
        Ok(frame) => are_same(alloc, bytes, &frame),
        Err(_) => false,
    }
}

// Whether each of the low bits makes an MHDR malformed.
fn are_0(alloc: Global, mhdr: u8, len: usize) -> bool {
    for bit in &[1u8, 2, 4, 8, 16] {
        if refused(alloc, mhdr | *bit, len) != Some(Some(Refusal::Malformed)) {
            return false;
        }
    }
    true
}

const SHORTEST: &[(u8, usize)] = &[
    (0x00, 23),
    (0x20, 17),
    (0x40, 12),
    (0x60, 12),
    (0x80, 12),
    (0xA0, 12),
];

#[test]
fn the_low_bits_of_an_mhdr_are_0(rt: HostRuntime) {
    for (mhdr, len) in SHORTEST {
        let is_right = is_frame(rt.alloc(), *mhdr, *len) && are_0(rt.alloc(), *mhdr, *len);
        assert!(rt; is_right, "{mhdr}");
    }
}

// The length of the payload in a data frame of this number of bytes without FOpts.
fn payload_len(alloc: Global, len: usize) -> Option<Option<usize>> {
    let zeros = zeros(0x40);
    let Ok(Phy::DataFrame(data)) = decode(alloc, zeros.get(..len)?) else {
        return None;
    };
    match data.contents.port_payload() {
        Some(port_payload) => Some(Some(port_payload.frm_payload.len())),
        None => Some(None),
    }
}

const PAYLOADS: &[(usize, Option<usize>)] = &[(12, None), (13, Some(0)), (255, Some(242))];

#[test]
fn data_frames_have_12_to_255_bytes(rt: HostRuntime) {
    for (len, wanted) in PAYLOADS {
        assert!(rt; payload_len(rt.alloc(), *len) == Some(*wanted), "{len}");
    }
}

// MHDRs, lengths from one to another, and how such bytes are refused, if they are.
const BY_LENGTH: &[(u8, usize, usize, Option<Refusal>)] = &[
    // Join-Requests and Join-Accepts have their lengths.
    (0x00, 22, 23, Some(Refusal::Malformed)),
    (0x00, 23, 24, None),
    (0x00, 24, 25, Some(Refusal::Malformed)),
    (0x20, 16, 17, Some(Refusal::Malformed)),
    (0x20, 17, 18, None),
    (0x20, 18, 33, Some(Refusal::Malformed)),
    (0x20, 33, 34, None),
    (0x20, 34, 35, Some(Refusal::Malformed)),
    // No frame has 256 bytes, and one of another type may have 255.
    (0x00, 256, 257, Some(Refusal::Malformed)),
    (0x20, 256, 257, Some(Refusal::Malformed)),
    (0x40, 256, 257, Some(Refusal::Malformed)),
    (0x60, 256, 257, Some(Refusal::Malformed)),
    (0x80, 256, 257, Some(Refusal::Malformed)),
    (0xA0, 256, 257, Some(Refusal::Malformed)),
    (0xC0, 256, 257, Some(Refusal::Malformed)),
    (0xE0, 256, 257, Some(Refusal::Malformed)),
    (0xC0, 255, 256, Some(Refusal::NotServed)),
    (0xE0, 255, 256, Some(Refusal::NotServed)),
];

#[test]
fn frames_have_their_lengths(rt: HostRuntime) {
    for (mhdr, from, to, refusal) in BY_LENGTH {
        for len in *from..*to {
            let refused = refused(rt.alloc(), *mhdr, len);
            assert!(rt; refused == Some(*refusal), "{mhdr}, {len}");
        }
    }
}

// Whether a copy of one byte of FOpts and two of payload on port 9 is the same, and can be taken
// apart.
fn has_parts(alloc: Global) -> Option<bool> {
    let whole = contents(alloc, &[2], Some(9), &[5, 6])?;
    Some(is_copied(&whole) && are_parts(whole))
}

fn is_copied(whole: &Contents) -> bool {
    let copy: Result<_, _> = whole.clone();
    match copy {
        Ok(copy) => whole.f_opts() == [2].as_slice() && copy == *whole,
        Err(_) => false,
    }
}

fn are_parts(contents: Contents) -> bool {
    match contents.into_parts() {
        (f_opts, Some(port_payload)) => {
            let is_payload = port_payload.frm_payload.as_slice() == [5, 6].as_slice();
            f_opts.as_slice() == [2].as_slice() && port_payload.f_port == 9 && is_payload
        }
        _ => false,
    }
}

#[test]
fn contents_have_their_parts(rt: HostRuntime) {
    assert!(rt; has_parts(rt.alloc()) == Some(true));
}

// Whether this number of bytes is a payload, and FOpts.
fn parts(alloc: Global, len: usize) -> Option<(bool, bool)> {
    let (Ok(payload), Ok(f_opts)) = (vec![in alloc; 0u8; len], vec![in alloc; 0u8; len]) else {
        return None;
    };
    Some((FrmPayload::new(payload).is_ok(), FOpts::new(f_opts).is_ok()))
}

const LENGTHS: &[(usize, bool, bool)] = &[
    (15, true, true),
    (16, true, false),
    (242, true, false),
    (243, false, false),
];

#[test]
fn parts_have_their_lengths(rt: HostRuntime) {
    for (len, is_payload, is_f_opts) in LENGTHS {
        assert!(rt;
            parts(rt.alloc(), *len) == Some((*is_payload, *is_f_opts)),
            "{len}"
        );
    }
}

// Bytes that a data frame is filled with.
const FILLED: [u8; 242] = [0xA5; 242];

// A data frame with this number of bytes of FOpts and, if there is a port, of payload.
fn data_frame(alloc: Global, f_opts: usize, port: Option<u8>, payload: usize) -> Option<DataFrame> {
    let contents = contents(alloc, FILLED.get(..f_opts)?, port, FILLED.get(..payload)?)?;
    Some(DataFrame {
        confirmed: true,
        dev_addr: DevAddr(0x5400_0001),
        control: UPLINK,
        f_cnt: 0xA5A5,
        contents,
        mic: Mic([0xAA, 0xBB, 0xCC, 0xDD]),
    })
}

// The length of what is written for a frame after a 7, if it is read again.
fn len_behind_7(alloc: Global, frame: &Phy) -> Option<usize> {
    let mut out = Vec::new(alloc);
    if out.push(7).is_err() || encode(alloc, frame, &mut out).is_err() {
        return None;
    }
    match out.as_slice().split_first() {
        Some((7, bytes)) if are_same(alloc, bytes, frame) => Some(bytes.len()),
        _ => None,
    }
}

fn message_len(alloc: Global, frame: &DataFrame) -> Option<usize> {
    let mut message = Vec::new(alloc);
    match encode_mic_input(alloc, frame, &mut message) {
        Ok(()) => Some(message.len()),
        Err(_) => None,
    }
}

// The lengths of such a frame's message and of the frame.
fn lengths(
    alloc: Global,
    f_opts: usize,
    port: Option<u8>,
    payload: usize,
) -> Option<(usize, usize)> {
    let frame = data_frame(alloc, f_opts, port, payload)?;
    let message = message_len(alloc, &frame)?;
    Some((message, len_behind_7(alloc, &Phy::DataFrame(frame))?))
}

// A MIC is made over the bytes before it, and frames are written after what is already there.
#[test]
fn each_length_of_f_opts_is_read_again(rt: HostRuntime) {
    for len in 0usize..16 {
        assert!(rt; lengths(rt.alloc(), len, None, 0) == Some((8 + len, 12 + len)));
        assert!(rt; lengths(rt.alloc(), len, Some(9), 242 - len) == Some((251, 255)));
    }
}
