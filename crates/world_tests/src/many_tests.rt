// Many devices, whose decisions wait and are taken in more than one batch.
use crate::rows::ends_so;
use lw_types::Refusal;
use std::alloc::Global;
use world::{Answer, Step};
use world_model::letters::add_letters;
use world_model::steps::provision;
use world_model::worlds::{answers_to, first_difference};

// This number of devices, whose decisions make this number of batches, each by its letters.
#[derive(Clone, Copy)]
struct Many {
    devices: u64,
    batches: u64,
    batch: &'static str,
}

// In batches of two.
const FIVE: Many = Many {
    devices: 5,
    batches: 3,
    batch: "sccccr",
};

// In batches of 64.
const HUNDRED: Many = Many {
    devices: 100,
    batches: 2,
    batch: "Tccccr",
};

const WAITING: &[Many] = &[FIVE, HUNDRED];

const MOST: Many = Many {
    devices: 4096,
    batches: 64,
    batch: "Tccccr",
};

// The devices are provisioned, their batches are taken, committed and released, and their effects
// leave. Then come a list and a crash.
fn steps_of(alloc: Global, many: &Many) -> Result<Vec<Step>, Refusal> {
    let mut steps = Vec::new(alloc);
    for dev_eui in 0..many.devices {
        steps.push(provision(alloc, dev_eui)?)?;
    }
    for _ in 0..many.batches {
        add_letters(alloc, &mut steps, 0, many.batch)?;
    }
    for _ in 0..many.devices {
        steps.push(Step::Emit)?;
    }
    add_letters(alloc, &mut steps, 0, "lol")?;
    Ok(steps)
}

fn differs(alloc: Global, many: &Many) -> Result<Option<usize>, Refusal> {
    first_difference(alloc, many.devices, &steps_of(alloc, many)?)
}

// More than one decision waits, and more than one batch is taken.
#[test]
fn many_decisions_wait(rt: HostRuntime) {
    for many in WAITING {
        assert_eq!(rt; differs(rt.alloc(), many), Ok(None));
    }
}

// Whether the answer opens a store with 4,096 devices.
fn is_opening(answer: &Answer) -> bool {
    matches!(
        answer,
        Answer::Opened {
            devices: 4096,
            seq: 4096
        }
    )
}

// The number of answers that do.
fn openings(alloc: Global) -> Result<usize, Refusal> {
    let answers = answers_to(alloc, MOST.devices, &steps_of(alloc, &MOST)?)?;
    let mut opened: usize = 0;
    for answer in &answers {
        opened = opened.saturating_add(usize::from(is_opening(answer)));
    }
    Ok(opened)
}

// At its largest size a world is compared with no model, since each step of a model costs by all
// commands.
#[test]
fn a_store_of_4096_devices_is_opened(rt: HostRuntime) {
    assert_eq!(rt; openings(rt.alloc()), Ok(1));
}

// The greatest number of decisions waits, 4,096: an item is refused as Backlog (23), and is
// accepted after 64 of them were taken.
const ONCE_4096_WAIT: &str = "\
turn 4096 4096 23 0
another answer
turn 4096 4097 0 0
";

fn queues_after_a_take(alloc: Global) -> Result<bool, Refusal> {
    let mut steps = Vec::new(alloc);
    for dev_eui in 0..MOST.devices {
        steps.push(provision(alloc, dev_eui)?)?;
    }
    add_letters(alloc, &mut steps, 0, "qTq")?;
    ends_so(alloc, MOST.devices, &steps, 4096, ONCE_4096_WAIT.as_bytes())
}

#[test]
fn a_full_backlog_refuses_an_item_until_a_batch_is_taken(rt: HostRuntime) {
    assert_eq!(rt; queues_after_a_take(rt.alloc()), Ok(true));
}
