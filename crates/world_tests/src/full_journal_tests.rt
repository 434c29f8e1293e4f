// A journal that runs full.
ghost use Rattle.std.specs.Prelude.{◌<◌, ◌+◌, ◌^◌};

use scripts::script;
use std::alloc::Global;
use std::io::{self, Write};

// Lines, and their answers.
type Leg = (&'static str, &'static str);

const FORMATTED: Leg = ("format 00002A 329\n", "formatted 4929934\n");

// A payload of 242 bytes.
const PAYLOAD: &str = "\
A5A5A5A5A5A5A5A5A5A5A5A5A5A5A5A5A5A5A5A5A5A5A5A5A5A5A5A5A5A5A5A5A5A5A5A5A5A5A5A5A5A5A5A5A5A5A5A5\
A5A5A5A5A5A5A5A5A5A5A5A5A5A5A5A5A5A5A5A5A5A5A5A5A5A5A5A5A5A5A5A5A5A5A5A5A5A5A5A5A5A5A5A5A5A5A5A5\
A5A5A5A5A5A5A5A5A5A5A5A5A5A5A5A5A5A5A5A5A5A5A5A5A5A5A5A5A5A5A5A5A5A5A5A5A5A5A5A5A5A5A5A5A5A5A5A5\
A5A5A5A5A5A5A5A5A5A5A5A5A5A5A5A5A5A5A5A5A5A5A5A5A5A5A5A5A5A5A5A5A5A5A5A5A5A5A5A5A5A5A5A5A5A5A5A5\
A5A5A5A5A5A5A5A5A5A5A5A5A5A5A5A5A5A5A5A5A5A5A5A5A5A5A5A5A5A5A5A5A5A5A5A5A5A5A5A5A5A5A5A5A5A5A5A5\
A5A5";

// A device's two batches commit and are released.
const FIRST: Leg = (
    "take 64\ncall\ncall\ncall\ncall\nrelease\n",
    "taken 17\ncalled\ncalled\ncalled\ncalled\nreleased 17\n",
);

const SECOND: Leg = (
    "take 64\ncall\ncall\ncall\ncall\nrelease\n",
    "taken 64\ncalled\ncalled\ncalled\ncalled\nreleased 64\n",
);

// The devices whose batches are in the journal before the last three come.
const FILLING: u16 = 325;

// After a device's items the journal has room for its commands, and for nothing after those,
// neither while they are under way nor once they are durable. After a checkpoint it has room.
const LAST: &[Leg] = &[
    (
        "take 17\ncall\ncall\ncall\nnext 64\n",
        "taken 17\ncalled\ncalled\ncalled\ntaken 64\n",
    ),
    (
        "call\ncall\nrelease\ncall\nnext 64\n",
        "called\ncalled\nreleased 17\ncalled\nfull\n",
    ),
    ("call\nrelease\ntake 64\n", "called\nreleased 64\nfull\n"),
    ("checkpoint\n", "begun\n"),
    (
        "call\ncall\ncall\ncall\n",
        "called\ncalled\ncalled\ncalled\n",
    ),
    FIRST,
    ("crash old\n", "opened 327 26423\n"),
];

fn add(input: &mut Vec<u8>, wanted: &mut Vec<u8>, leg: &Leg) -> io::Result<()> {
    input.write_all(leg.0.as_bytes())?;
    wanted.write_all(leg.1.as_bytes())
}

// A device is provisioned, and 16 items of 242 bytes are queued for it: 17 decisions, whose entries
// take 63 bytes and 16 times 256.
fn add_items(input: &mut Vec<u8>, wanted: &mut Vec<u8>, number: u16) -> io::Result<()> {
    write!(
        input,
        "provision 0 3 {number:016X} 0102030405060708 2B7E151628AED2A6ABF7158809CF4F3C 0 1\n"
    )?;
    for tag in 0..16 {
        write!(input, "queue 0 3 {number:016X} {tag} 7 u {PAYLOAD}\n")?;
    }
    add_turns(wanted, u64::from(number) * 81, 17)
}

// 64 MAC commands of one byte are queued for it: 64 decisions, whose entries take 8 to 71 bytes.
fn add_commands(input: &mut Vec<u8>, wanted: &mut Vec<u8>, number: u16) -> io::Result<()> {
    for _command in 0..64 {
        write!(input, "mac 0 3 {number:016X} 06\n")?;
    }
    add_turns(wanted, u64::from(number) * 81 + 17, 64)
}

fn add_turns(wanted: &mut Vec<u8>, before: u64, count: u64) -> io::Result<()>
    requires { before + count < 2 ^ 64 }
{
    for from in before..before + count {
        let to = from + 1;
        write!(wanted, "turn {from} {to}\n")?;
    }
    Ok(())
}

fn add_all(input: &mut Vec<u8>, wanted: &mut Vec<u8>) -> io::Result<()> {
    add(input, wanted, &FORMATTED)?;
    for number in 0..FILLING {
        add_items(input, wanted, number)?;
        add(input, wanted, &FIRST)?;
        add_commands(input, wanted, number)?;
        add(input, wanted, &SECOND)?;
    }
    add_items(input, wanted, FILLING)?;
    add_commands(input, wanted, FILLING)?;
    add_items(input, wanted, FILLING + 1)?;
    for leg in LAST {
        add(input, wanted, leg)?;
    }
    Ok(())
}

// Whether a script has these answers.
fn is_answered(alloc: Global, script_lines: &[u8], wanted: &[u8]) -> bool {
    let mut input = script_lines;
    let mut out = Vec::new(alloc);
    script(alloc, &mut input, &mut out).is_ok() && out.as_slice() == wanted
}

// Whether a journal that is full goes on after a checkpoint.
fn goes_on(alloc: Global) -> bool {
    let (mut input, mut wanted) = (Vec::new(alloc), Vec::new(alloc));
    add_all(&mut input, &mut wanted).is_ok() && is_answered(alloc, &input, &wanted)
}

// In a store with 329 slots the batches of 326 devices go into an area of 2,464,951 bytes, with
// 4,174 and 2,543 bytes each. Then 275,179 are left, and 277,722 before the last one. 275,536 are
// needed.
#[test]
fn a_full_journal_goes_on_behind_a_checkpoint(rt: HostRuntime) {
    assert!(rt; goes_on(rt.alloc()));
}
