// Steps that are lines, each with what its answer says.
use crate::answers::tell;
use lw_types::Refusal;
use std::alloc::Global;
use world::{Answer, Step};
use world_model::steps::step_of;
use world_model::worlds::{SLOTS, answers_to, first_difference};

/// Appends the steps of a script and the lines of their answers: each line of it has a step, an
/// arrow and what the answer says. A line that begins with `#` is a comment.
pub(crate) fn add_rows(
    alloc: Global,
    script: &str,
    steps: &mut Vec<Step>,
    wanted: &mut Vec<u8>,
) -> Result<(), Refusal> {
    for line in script.trim_end().split('\n') {
        match line.split_once(" -> ") {
            Some((step, told)) => {
                steps.push(step_of(alloc, 0, step)?)?;
                add_line(wanted, told)?;
            }
            None if line.starts_with('#') => {}
            None => return Err(Refusal::BadMessage),
        }
    }
    Ok(())
}

/// Appends a line to others.
pub(crate) fn add_line(lines: &mut Vec<u8>, line: &str) -> Result<(), Refusal> {
    lines.extend_from_slice(line.as_bytes())?;
    lines.push(b'\n')?;
    Ok(())
}

// What these answers say, one line each.
fn told(alloc: Global, answers: &[Answer]) -> Result<Vec<u8>, Refusal> {
    let mut lines = Vec::new(alloc);
    for answer in answers {
        if tell(&mut lines, answer).is_err() {
            return Err(Refusal::OutOfMemory);
        }
    }
    Ok(lines)
}

/// Whether a new world gives the answers of these lines to the steps after the first ones.
pub(crate) fn ends_so(
    alloc: Global,
    slots: u64,
    steps: &[Step],
    first: usize,
    wanted: &[u8],
) -> Result<bool, Refusal> {
    let answers = answers_to(alloc, slots, steps)?;
    match answers.get(first..) {
        Some(last) => Ok(told(alloc, last)?.as_slice() == wanted),
        None => Ok(false),
    }
}

// Whether a world gives the answers of a script, and its model the same.
fn is_played(alloc: Global, script: &str) -> Result<bool, Refusal> {
    let (mut steps, mut wanted) = (Vec::new(alloc), Vec::new(alloc));
    add_rows(alloc, script, &mut steps, &mut wanted)?;
    let is_told = ends_so(alloc, SLOTS, &steps, 0, &wanted)?;
    Ok(is_told && first_difference(alloc, SLOTS, &steps)?.is_none())
}

/// The number of the first script with a different answer. An empty line stands between two
/// scripts.
pub(crate) fn first_wrong(alloc: Global, scripts: &str) -> Result<Option<usize>, Refusal> {
    for (number, script) in scripts.trim_end().split("\n\n").enumerate() {
        if !is_played(alloc, script)? {
            return Ok(Some(number));
        }
    }
    Ok(None)
}
