// How fast the cryptography of frames is.
use aes128::KeySchedule;
use frame_crypt::{crypt_payload, data_mic};
use lw_types::{DevAddr, Direction, Key};
use std::io;
use std::rt::Clock;
use std::time::Instant;

const KEY: Key = Key([0x2B; 16]);

const DEVICE: DevAddr = DevAddr(0x2601_1BDA);

/// The number of bytes of a frame: a usual length at DR0.
const FRAME_LEN: usize = 51;

/// How long each kind of work is measured, in milliseconds.
const MEASURED_MILLIS: u128 = 1000;

/// More rounds than fit into that time on any machine of today.
const MOST_ROUNDS: u32 = 100_000;

/// What is measured.
#[derive(Clone, Copy)]
enum Work {
    /// A block is encrypted under one key schedule, repeatedly.
    Blocks,
    /// A payload is encrypted under each counter.
    Payloads,
    /// A frame gets its MIC under each counter.
    Mics,
}

impl Work {
    fn name(self) -> &'static str {
        match self {
            Work::Blocks => "AES blocks under one key",
            Work::Payloads => "payloads of 51 bytes",
            Work::Mics => "MICs of 51 bytes",
        }
    }

    /// How often it is done before the clock is read again.
    fn times(self) -> u32 {
        match self {
            Work::Blocks => 40_000,
            Work::Payloads | Work::Mics => 4_000,
        }
    }

    /// Does it. Returns a byte of the result, so that no compiler leaves the work out.
    fn run(self) -> u8 {
        let times = self.times();
        match self {
            Work::Blocks => encrypt_blocks(times),
            Work::Payloads => crypt_payloads(times),
            Work::Mics => make_mics(times),
        }
    }

    /// Does it for a second or a little more, and returns how many were done in a second.
    fn measure(self, rt: &(impl Clock + Eprint)) -> io::Result<()> {
        let name = self.name();
        let start = Instant::now(rt)?;
        for round in 1..=MOST_ROUNDS {
            let last = self.run();
            let spent = start.elapsed(rt)?.as_millis();
            if spent >= MEASURED_MILLIS {
                let done = u128::from(round) * u128::from(self.times());
                let a_second = done * 1000 / spent;
                return eprintln!(rt; "{name}: {a_second} a second (the last byte is {last:02X})");
            }
        }
        eprintln!(rt; "{name}: not measured, as the clock stands still")
    }
}

fn encrypt_blocks(times: u32) -> u8 {
    let keys = KeySchedule::new(&KEY);
    let mut block = [0; 16];
    for _ in 0..times {
        keys.encrypt(&mut block);
    }
    block[15]
}

fn crypt_payloads(times: u32) -> u8 {
    let mut payload = [0; FRAME_LEN];
    for counter in 0..times {
        crypt_payload(&KEY, Direction::Up, DEVICE, counter, &mut payload);
    }
    payload[FRAME_LEN - 1]
}

fn make_mics(times: u32) -> u8 {
    let mut message = [0; FRAME_LEN];
    for counter in 0..times {
        let [first, _, _, _] = data_mic(&KEY, Direction::Up, DEVICE, counter, &message);
        message[0] = first;
    }
    message[0]
}

/// Prints how many of each are done in a second.
pub fn tell_cryptography(rt: &(impl Clock + Eprint)) -> io::Result<()> {
    for work in [Work::Blocks, Work::Payloads, Work::Mics] {
        work.measure(rt)?;
    }
    Ok(())
}
