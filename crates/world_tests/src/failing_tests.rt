// Each device call of a script fails, including reads. The answers are then compared with those of
// a plain model in which the failure comes at that step; and a crash after it loses nothing.
use crate::plays::{MAKING, SCRIPTS, SLOTS, are_left, images, played, steps_of};
use disk::Sim;
use lw_types::Refusal;
use std::alloc::Global;
use world::{Answer, Step};
use world_model::worlds::{answers_of_model, first_other, net_id, new_disk};

// More calls than a script makes.
const MOST: u64 = 100;

// Whether a store is made if the device call of this number fails.
fn is_made(alloc: Global, failing: u64) -> Result<bool, Refusal> {
    if failing == 0 {
        return Err(Refusal::OutOfStep);
    }
    let mut disk = new_disk(alloc, SLOTS)?;
    disk.arm(failing);
    match store::format(alloc, disk, net_id()?, SLOTS) {
        Ok(_) => Ok(true),
        Err(Refusal::DeviceFailed) => Ok(false),
        Err(refusal) => Err(refusal),
    }
}

// The number of calls before which a store can't be made.
fn making(alloc: Global) -> Result<u64, Refusal> {
    for call in 1..MOST {
        if is_made(alloc, call)? {
            return Ok(call - 1);
        }
    }
    Ok(MOST)
}

#[test]
fn each_call_is_wanted_that_makes_a_store(rt: HostRuntime) {
    assert_eq!(rt; making(rt.alloc()), Ok(MAKING));
}

// The step whose answer says that the disk failed.
fn failed_step(answers: &[Answer]) -> Option<usize> {
    for (place, answer) in answers.iter().enumerate() {
        if matches!(answer, Answer::Refused(Refusal::DeviceFailed)) {
            return Some(place);
        }
    }
    None
}

// The steps whose device calls failed, one for each call of a script. The answers of each script
// are those of the model in which the failure comes at that step.
fn failed_steps(alloc: Global, steps: &[Step]) -> Result<Vec<usize>, Refusal> {
    let mut failed = Vec::new(alloc);
    for call in 1..MOST {
        let (answers, _) = played(alloc, steps, call)?;
        let Some(step) = failed_step(&answers) else {
            return Ok(failed);
        };
        let wanted = answers_of_model(alloc, SLOTS, steps, Some(step))?;
        if first_other(&answers, &wanted).is_some() {
            return Err(Refusal::Damaged);
        }
        failed.push(step)?;
    }
    Err(Refusal::Backlog)
}

// The number of times that a step failed.
fn times(failed: &[usize], step: usize) -> usize {
    let mut times: usize = 0;
    for it in failed {
        times = times.saturating_add(usize::from(*it == step));
    }
    times
}

// Whether no step failed after a later one.
fn are_in_order(failed: &[usize]) -> bool {
    let mut last = 0;
    for step in failed {
        if *step < last {
            return false;
        }
        last = *step;
    }
    true
}

// Whether each call of a script failed once, each opening more than once, and no other step.
fn are_all(failed: &[usize], letters: &str) -> bool {
    for (place, letter) in letters.chars().enumerate() {
        let times = times(failed, place);
        let is_right = match letter {
            'c' => times == 1,
            'o' | 'n' | 'i' => times > 1,
            _ => times == 0,
        };
        if !is_right {
            return false;
        }
    }
    true
}

// Whether each device call of a script, which ends with a crash to the image of a letter and a
// list, fails as it has to.
fn is_answered(alloc: Global, letters: &str, image: &str) -> Result<bool, Refusal> {
    let letters = format!(in alloc; "{letters}{image}l")?;
    let failed = failed_steps(alloc, &steps_of(alloc, &letters)?)?;
    Ok(are_in_order(&failed) && are_all(&failed, &letters))
}

#[test]
fn a_call_that_fails_is_answered_as_the_model_says(rt: HostRuntime) {
    for letters in SCRIPTS {
        for image in ["o", "n", "i"] {
            assert_eq!(rt;
                is_answered(rt.alloc(), letters, image),
                Ok(true),
                "{letters}{image}"
            );
        }
    }
}

// The number of the first device call of a script after whose failure a crash leaves in some image
// what the reader doesn't find.
fn first_lost(alloc: Global, letters: &str) -> Result<Option<u64>, Refusal> {
    let (steps, images) = (steps_of(alloc, letters)?, images(alloc)?);
    let calls = failed_steps(alloc, &steps)?.len() as u64;
    for call in 1..=calls {
        if !are_left(alloc, letters, &steps, call, &images)? {
            return Ok(Some(call));
        }
    }
    Ok(None)
}

#[test]
fn a_stop_behind_a_failure_leaves_what_is_read(rt: HostRuntime) {
    for letters in SCRIPTS {
        assert_eq!(rt; first_lost(rt.alloc(), letters), Ok(None), "{letters}");
    }
}
