// A script that was read.
use crate::lines::Lines;
use crate::{Format, read_format, read_step};
use lw_types::Refusal;
use std::alloc::Global;
use world::Step;

/// A line after the first one.
#[derive(Clone, Copy, PartialEq, Eq)]
pub enum PlanRow {
    /// A step, the next one in order.
    Step,
    /// Not a step.
    BadLine,
}

/// What a script asks for.
#[derive(Drop)]
pub enum Plan {
    /// Nothing: it has no line.
    Nothing,
    /// Nothing: its first line doesn't format a store.
    BadStart,
    /// A store, and steps on it.
    Run {
        format: Format,
        /// The steps in order.
        steps: Vec<Step>,
        /// The lines after the first one. There is one `PlanRow::Step` for each step.
        rows: Vec<PlanRow>,
    },
}

impl Plan {
    /// The plan of a script. Refused only with `OutOfMemory`.
    pub fn read(alloc: Global, input: &[u8]) -> Result<Plan, Refusal> {
        let mut lines = Lines::of(input);
        let Some(first) = lines.next() else {
            return Ok(Plan::Nothing);
        };
        let Some(format) = read_format(first) else {
            return Ok(Plan::BadStart);
        };
        let mut steps = Vec::new(alloc);
        let mut rows = Vec::new(alloc);
        for line in lines {
            match read_step(alloc, line) {
                Ok(step) => {
                    steps.push(step)?;
                    rows.push(PlanRow::Step)?;
                }
                Err(Refusal::OutOfMemory) => return Err(Refusal::OutOfMemory),
                Err(_) => rows.push(PlanRow::BadLine)?,
            }
        }
        Ok(Plan::Run {
            format,
            steps,
            rows,
        })
    }
}
