// Lines and answers alone, and reads and writes that fail.
use devices::{Application, Command, Provisioning, Rx1Offset, RxDelay};
use disk::Image;
use gateway_wire::{Emission, WireFrame};
use lw_types::{Eui, Key, Refusal};
use scripts::{ScriptResult, read_step, script, write_answer, write_outcome};
use session_core::{Moment, Most};
use std::alloc::Global;
use std::io::{self, ErrorKind, Read, Write};
use world::{Answer, Event, Step};

const KEY: Key = Key([
    0x2B, 0x7E, 0x15, 0x16, 0x28, 0xAE, 0xD2, 0xA6, 0xAB, 0xF7, 0x15, 0x88, 0x09, 0xCF, 0x4F, 0x3C,
]);

// What a line is read as.
#[derive(Clone, Copy)]
enum Wanted {
    // A device is provisioned at a moment, by an application, with its RX1DROffset and its RXDelay.
    Provision(u64, u64, u64, u64),
    Take(u64),
    CrashFilled(u8),
}

const LINES: &[(&str, Wanted)] = &[
    (
        "provision 0 3 1112131415161718 0102030405060708 2B7E151628AED2A6ABF7158809CF4F3C 0 1",
        Wanted::Provision(0, 3, 0, 1),
    ),
    (
        concat!(
            "provision 9223372036854775807 15 1112131415161718 0102030405060708 2B7E151628AED2A6A",
            "BF7158809CF4F3C 5 15",
        ),
        Wanted::Provision(9_223_372_036_854_775_807, 15, 5, 15),
    ),
    ("take 64", Wanted::Take(64)),
    ("crash fill", Wanted::CrashFilled(0xA5)),
];

fn provision(moment: u64, application: u64, offset: u64, delay: u64) -> Option<Step> {
    Some(Step::Event {
        moment: Moment::new(moment)?,
        event: Event::Ask(Command::Provision(Provisioning {
            application: Application::new(application)?,
            dev_eui: Eui(0x1112131415161718),
            join_eui: Eui(0x0102030405060708),
            app_key: KEY,
            rx1_offset: Rx1Offset::new(offset)?,
            rx_delay: RxDelay::new(delay)?,
        })),
    })
}

fn step_of(wanted: Wanted) -> Option<Step> {
    match wanted {
        Wanted::Provision(moment, application, offset, delay) => {
            provision(moment, application, offset, delay)
        }
        Wanted::Take(most) => Some(Step::Take(Most::new(most)?)),
        Wanted::CrashFilled(byte) => Some(Step::Crash(Image::Fill(byte))),
    }
}

// The lines that are read as something else, each after a newline.
fn wrong_lines(alloc: Global) -> Result<String, Refusal> {
    let mut wrong = String::new(alloc);
    for (line, wanted) in LINES {
        if read_step(alloc, line.as_bytes()) != step_of(*wanted).ok_or(Refusal::Damaged) {
            wrong.push_str("\nlines_tests.rt LINES: ")?;
            wrong.push_str(line)?;
        }
    }
    Ok(wrong)
}

#[test]
fn lines_are_steps(rt: HostRuntime) {
    let wrong = wrong_lines(rt.alloc()).expect(&rt, "memory");
    assert!(rt; wrong.is_empty(), "{wrong}");
}

// Answers that no script here leads to, and some that few do.
fn rare_answers(alloc: Global) -> Option<[Answer; 4]> {
    let frame = WireFrame::new([0, 0x5A].to_vec(alloc).ok()?).ok()?;
    let gateway = Eui(0xB1);
    Some([
        Answer::GivenUp(5),
        Answer::Full,
        Answer::Emitted(Emission::Gateway { gateway, frame }),
        Answer::Opened {
            devices: 4096,
            seq: u64::MAX,
        },
    ])
}

// Their lines, and the one of a script that was refused because memory ran out.
const RARE: &str = "\
refused 30
full
gw 00000000000000B1 005A
opened 4096 18446744073709551615
refused 30
";

fn text_of(alloc: Global, answers: &[Answer]) -> io::Result<Vec<u8>> {
    let mut out = Vec::new(alloc);
    for answer in answers {
        write_answer(alloc, &mut out, answer)?;
    }
    write_outcome(
        alloc,
        &mut out,
        &ScriptResult::Refused(Refusal::OutOfMemory),
    )?;
    Ok(out)
}

// The lines that are written for them.
fn rare_text(alloc: Global) -> io::Result<Vec<u8>> {
    match rare_answers(alloc) {
        Some(answers) => text_of(alloc, &answers),
        None => Ok(Vec::new(alloc)),
    }
}

#[test]
fn rare_answers_have_lines(rt: HostRuntime) {
    let text = rare_text(rt.alloc()).expect(&rt, "memory");
    assert!(rt;
        text.as_slice() == RARE.as_bytes(),
        "wanted {RARE}got {}",
        lossy(&text)
    );
}

// The text that bytes are.
fn lossy(bytes: &[u8]) -> &str {
    str::from_utf8(bytes).unwrap_or("no text")
}

// Returns a first line, and then fails.
#[derive(Drop)]
struct Breaks {
    left: usize,
}

impl Read for Breaks {
    fn read(&mut self, buf: &mut [u8]) -> io::Result<usize> {
        if self.left == 0 || buf.is_empty() {
            return Err(io::Error::from(ErrorKind::BrokenPipe));
        }
        self.left -= 1;
        buf[0] = b'\n';
        Ok(1)
    }
}

// Takes no byte.
#[derive(Drop)]
struct Closed;

impl Write for Closed {
    fn write(&mut self, _buf: &[u8]) -> io::Result<usize> {
        Err(io::Error::from(ErrorKind::BrokenPipe))
    }

    fn flush(&mut self) -> io::Result<()> {
        Ok(())
    }
}

#[test]
fn a_failed_read_or_write_is_told(rt: HostRuntime) {
    let alloc = rt.alloc();
    let mut out = Vec::new(alloc);
    let read = script(alloc, &mut Breaks { left: 1 }, &mut out);
    assert!(rt; read.is_err() && out.is_empty());
    let mut input = b"format 00002A 8\nlist\n".as_slice();
    let written = script(alloc, &mut input, &mut Closed);
    assert!(rt; written.is_err());
}
