// Worlds and their models take the same steps, and have to give the same answers.
use lw_types::Refusal;
use std::alloc::Global;
use world_model::letters::add_script;
use world_model::worlds::{SLOTS, first_difference};

const LETTERS: &str = "abtTNpcfreonl";

// Scripts that lead to a stage: nothing exists, two commands wait, a batch has begun, some of its
// four device calls succeeded, and one of them failed.
const BATCHES: &[&str] = &[
    "", "ab", "abt", "abtc", "abtcc", "abtccc", "abtcccc", "abtfc", "abtcfc", "abtccfc", "abtcccfc",
];

// The same for a batch that follows one whose gate is written: it has begun, some of the four
// device calls left succeeded, one of them failed, and one or both batches were released.
const PAIRS: &[&str] = &[
    "abtcccN",
    "abtcccNc",
    "abtcccNcc",
    "abtcccNccc",
    "abtcccNcccc",
    "abtcccNfc",
    "abtcccNcfc",
    "abtcccNccfc",
    "abtcccNcccfc",
    "abtcccNccr",
    "abtcccNccccr",
];

// The same for a checkpoint: it has begun, some of its four device calls succeeded, and one of them
// failed; and for a second one, which takes six.
const CHECKPOINTS: &[&str] = &[
    "ap",
    "apcc",
    "apccc",
    "apfc",
    "apccfc",
    "apcccfc",
    "apccccpc",
    "apccccpccccc",
    "apccccpcfc",
];

const EVENTS: &str = "hgGukwWqmaTcro";

// Scripts with windows: of a device that exists or not, one is open, has two copies, was closed, is
// open beside a commit or a checkpoint, or was opened by a link; and a join's own commit.
const WINDOWS: &[&str] = &[
    "h", "ah", "ahg", "ahk", "aTccch", "ahpcc", "awW", "ahkTcccc",
];

// Every step after this first one, from a stage: the scripts stand in one world, one after the
// other. Each ends with a list, an emit, and a crash.
fn differs_from(alloc: Global, opening: &str, first: char) -> Result<Option<usize>, Refusal> {
    let mut steps = Vec::new(alloc);
    for second in LETTERS.chars() {
        add_script(
            alloc,
            &mut steps,
            second as u32,
            opening,
            [first, second],
            "leo",
        )?;
    }
    first_difference(alloc, SLOTS, &steps)
}

// The first of those steps after which a world and its model differ.
fn first_that_differs(alloc: Global, opening: &str) -> Result<Option<char>, Refusal> {
    for first in LETTERS.chars() {
        if differs_from(alloc, opening, first)?.is_some() {
            return Ok(Some(first));
        }
    }
    Ok(None)
}

#[test]
fn batches_answer_as_their_model(rt: HostRuntime) {
    for opening in BATCHES {
        assert_eq!(rt;
            first_that_differs(rt.alloc(), opening),
            Ok(None),
            "{opening}"
        );
    }
}

#[test]
fn pairs_answer_as_their_model(rt: HostRuntime) {
    for opening in PAIRS {
        assert_eq!(rt;
            first_that_differs(rt.alloc(), opening),
            Ok(None),
            "{opening}"
        );
    }
}

#[test]
fn checkpoints_answer_as_their_model(rt: HostRuntime) {
    for opening in CHECKPOINTS {
        assert_eq!(rt;
            first_that_differs(rt.alloc(), opening),
            Ok(None),
            "{opening}"
        );
    }
}

// The same with windows, each script in a world of its own. After the crash a frame is heard again.
fn differs_in(
    alloc: Global,
    opening: &str,
    first: char,
    second: char,
) -> Result<Option<usize>, Refusal> {
    let mut steps = Vec::new(alloc);
    add_script(alloc, &mut steps, 0, opening, [first, second], "leohgk")?;
    first_difference(alloc, 2, &steps)
}

// The first event after this one after which they differ.
fn next_that_differs(alloc: Global, opening: &str, first: char) -> Result<Option<char>, Refusal> {
    for second in EVENTS.chars() {
        if differs_in(alloc, opening, first, second)?.is_some() {
            return Ok(Some(second));
        }
    }
    Ok(None)
}

#[test]
fn windows_answer_as_their_model(rt: HostRuntime) {
    for opening in WINDOWS {
        for first in EVENTS.chars() {
            assert_eq!(rt;
                next_that_differs(rt.alloc(), opening, first),
                Ok(None),
                "{opening}{first}"
            );
        }
    }
}
