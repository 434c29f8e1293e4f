ghost use Rattle.std.specs.Prelude.{◌≡◌, [], IfOk};
ghost use Rattle.devices.specs.Heard.{IsReceivable};

use crate::dedup_tests::event::{close_due, event};
use dedup::Windows;
use lw_types::{Eui, FrameCopy, Reception, Refusal};
use std::alloc::Global;

// A frame of 255 bytes that ends in this number.
fn long_frame(number: u16) -> [u8; 255] {
    let mut bytes = [0; 255];
    bytes[253] = (number / 256) as u8;
    bytes[254] = (number % 256) as u8;
    bytes
}

// A copy of it, as a gateway heard it.
fn copy_of(alloc: Global, gateway: u64, number: u16) -> Result<FrameCopy, Refusal>
    ensures { IfOk result (λ copy. IsReceivable copy.reception) }
{
    let reception = Reception {
        gateway: Eui(gateway),
        frequency: 868_100_000,
        data_rate: 5,
        snr: -20,
        rssi: -95,
    };
    FrameCopy::new(alloc, reception, 50_000, &long_frame(number))
}

// A moment, a gateway, and the number of a frame.
type Row = (u64, u64, u16);

// The answers to copies, and the windows that close, as numbers.
#[derive(Drop)]
struct Played {
    answers: Vec<u8>,
    closed: Vec<usize>,
}

// Plays these copies on no windows, and the last moment after them.
fn play_all(
    alloc: Global,
    windows: &mut Windows,
    rows: &[Row],
    last: u64,
    played: &mut Played,
) -> Result<(), Refusal>
    requires { windows.old ≡ [] }
{
    let mut clock = 0;
    for (moment, gateway, number) in rows {
        clock = clock.max(*moment);
        let copy = copy_of(alloc, *gateway, *number)?;
        let answer = event(windows, clock, copy, &mut played.closed)?;
        played.answers.push(answer)?;
    }
    Ok(close_due(windows, clock.max(last), &mut played.closed)?)
}

// The answer to each of these copies, and the windows that close up to the last moment.
fn play(alloc: Global, rows: &[Row], last: u64) -> Result<Played, Refusal> {
    let mut played = Played {
        answers: Vec::new(alloc),
        closed: Vec::new(alloc),
    };
    play_all(alloc, &mut Windows::new(alloc), rows, last, &mut played)?;
    Ok(played)
}

// Copies one after another, the answer to each, and the windows that close up to a last moment.
struct Script {
    copies: &'static [Row],
    last: u64,
    answers: &'static [u8],
    closed: &'static [usize],
}

const SCRIPTS: &[Script] = &[
    // Copies join for 200 ms from the window's opening; then the window is due, and the frame opens
    // another.
    Script {
        copies: &[
            (0, 0xB1, 7),
            (199, 0xB2, 7),
            (199, 0xB1, 7),
            (100, 0xB3, 7),
            (200, 0xB1, 7),
        ],
        last: 400,
        answers: &[0, 0, 21, 0, 0],
        closed: &[703, 701],
    },
    // Windows of several frames are open side by side, and close in the order in which they opened.
    Script {
        copies: &[
            (10, 1, 3),
            (10, 1, 2),
            (20, 1, 1),
            (50, 2, 2),
            (209, 2, 3),
            (210, 3, 2),
            (u64::MAX / 2, 1, 1),
        ],
        last: u64::MAX,
        answers: &[0; 7],
        closed: &[302, 202, 101, 201, 101],
    },
];

// Whether the answers are those of the script.
fn is_answered(alloc: Global, script: &Script) -> Result<bool, Refusal> {
    let played = play(alloc, script.copies, script.last)?;
    Ok(played.answers.as_slice() == script.answers && played.closed.as_slice() == script.closed)
}

#[test]
fn windows_take_copies_for_200_ms_and_close_in_order(rt: HostRuntime) {
    for script in SCRIPTS {
        assert!(rt; is_answered(rt.alloc(), script) == Ok(true));
    }
}

// This number of copies at one moment, from gateways and of frames that take turns.
fn crowd(alloc: Global, copies: u16, gateways: u16, frames: u16) -> Result<Vec<Row>, Refusal> {
    let mut rows = Vec::new(alloc);
    for n in 0..copies {
        let gateway = n.checked_rem(gateways).unwrap_or(0);
        rows.push((5, u64::from(gateway), n.checked_rem(frames).unwrap_or(0)))?;
    }
    Ok(rows)
}

// The number of copies that these answers take, and the last answer.
fn told(answers: &[u8]) -> (usize, u8) {
    let mut taken: usize = 0;
    for answer in answers {
        taken = taken.saturating_add(usize::from(*answer == 0));
    }
    (taken, answers.last().copied().unwrap_or(0))
}

// The same of such a crowd.
fn taken(alloc: Global, copies: u16, gateways: u16, frames: u16) -> Result<(usize, u8), Refusal> {
    let rows = crowd(alloc, copies, gateways, frames)?;
    Ok(told(&play(alloc, &rows, 0)?.answers))
}

// A window has at most 32 copies. A gateway that was heard before is refused for that reason, also
// in a full window. At most 1,024 windows are open.
const CROWDS: &[((u16, u16, u16), (usize, u8))] = &[
    ((32, 32, 1), (32, 0)),
    ((33, 33, 1), (32, 22)),
    ((33, 32, 1), (32, 21)),
    ((2, 1, 1), (1, 21)),
    ((1024, 1, 1024), (1024, 0)),
    ((1025, 1, 1025), (1024, 20)),
];

#[test]
fn windows_and_their_copies_are_few(rt: HostRuntime) {
    for ((copies, gateways, frames), wanted) in CROWDS {
        let taken = taken(rt.alloc(), *copies, *gateways, *frames);
        assert!(rt; taken == Ok(*wanted), "{copies}");
    }
}
