// Worlds and their models, which give the answers of the rows.
use crate::links::STREAMS;
use crate::rows::{add_line, add_rows, ends_so, first_wrong};
use crate::windows::{GATHERINGS, REFUSED};
use lw_types::Refusal;
use std::alloc::Global;
use world::Step;
use world_model::letters::add_letters;
use world_model::steps::{hear, step_of};
use world_model::worlds::{SLOTS, first_difference};

// A new world is idle.
const IDLE: &str = "\
call -> idle
release -> idle
emit -> idle
";

const SCRIPTS: &[(&str, &str)] = &[
    ("a new world", IDLE),
    ("windows", GATHERINGS),
    ("links", STREAMS),
];

#[test]
fn steps_are_answered_as_told(rt: HostRuntime) {
    for (name, scripts) in SCRIPTS {
        assert_eq!(rt; first_wrong(rt.alloc(), scripts), Ok(None), "{name}");
    }
}

// 32 copies of the frame 0, by the gateways from 1 on, and one of each other frame below 1,024, by
// gateway 1.
fn add_full(alloc: Global, steps: &mut Vec<Step>) -> Result<(), Refusal> {
    for gateway in 1..33 {
        steps.push(hear(alloc, gateway, 0)?)?;
    }
    for frame in 1..1024 {
        steps.push(hear(alloc, 1, frame)?)?;
    }
    Ok(())
}

// Whether copies are refused this way if 1,024 windows are open, of which the first is full.
fn is_refused(alloc: Global) -> Result<bool, Refusal> {
    let (mut steps, mut wanted) = (Vec::new(alloc), Vec::new(alloc));
    add_full(alloc, &mut steps)?;
    let first = steps.len();
    add_rows(alloc, REFUSED, &mut steps, &mut wanted)?;
    ends_so(alloc, SLOTS, &steps, first, &wanted)
}

#[test]
fn a_copy_is_refused_for_the_first_reason(rt: HostRuntime) {
    assert_eq!(rt; is_refused(rt.alloc()), Ok(true));
}

// Scripts of the device that joins, by their letters, and what a list after them says: the last
// DevNonce that was seen at slot 0, and the number.
const JOINS: &str = "\
1xJx1 -> listed 1 2
J1TccccreeeTo -> listed 1 2
JTccccr1Tccccroo -> listed 1 2
JTccccr1Tccco -> listed - 1
JTccccr1Tcccn -> listed 1 2
JTccccr1Tcfcn -> listed - 1
JTccccr112J1Tccccreeeo -> listed 2 3
J1Tccccr2Tccccr3Tccccreeeeeo -> listed 3 4
J1Tccccr23Tccccrol3 -> listed 3 4
J1ta1tTccccrbo -> listed - 1
";

// Whether a list after a script says this, in a world with three slots, and the model gives the
// same answers to all of its steps.
fn joins_so(alloc: Global, letters: &str, told: &str) -> Result<bool, Refusal> {
    let (mut steps, mut wanted) = (Vec::new(alloc), Vec::new(alloc));
    add_letters(alloc, &mut steps, 'a' as u32, letters)?;
    let first = steps.len();
    steps.push(step_of(alloc, 0, "list")?)?;
    add_line(&mut wanted, told)?;
    let is_told = ends_so(alloc, 3, &steps, first, &wanted)?;
    Ok(is_told && first_difference(alloc, 3, &steps)?.is_none())
}

// Joins replace the record of a slot in use, and a crash leaves the old one or the new one.
#[test]
fn devices_join(rt: HostRuntime) {
    for row in JOINS.trim_end().split('\n') {
        let (letters, told) = row.split_once(" -> ").unwrap_or((row, ""));
        assert_eq!(rt; joins_so(rt.alloc(), letters, told), Ok(true), "{letters}");
    }
}
