// The power fails after each step of a script, and so after each of its device calls.
use crate::plays::{SCRIPTS, are_left, images, steps_of};
use lw_types::Refusal;
use std::alloc::Global;

// The first step of a script after which a crash leaves in some image what the reader doesn't find.
fn first_lost(alloc: Global, letters: &str) -> Result<Option<usize>, Refusal> {
    let (steps, images) = (steps_of(alloc, letters)?, images(alloc)?);
    for end in 0..=steps.len() {
        let (before, _) = steps.split_at(end);
        if !are_left(alloc, letters, before, 0, &images)? {
            return Ok(Some(end));
        }
    }
    Ok(None)
}

#[test]
fn a_stop_behind_each_step_leaves_what_is_read(rt: HostRuntime) {
    for letters in SCRIPTS {
        assert_eq!(rt; first_lost(rt.alloc(), letters), Ok(None), "{letters}");
    }
}
