// The result of a script.
use crate::PlanRow;
use crate::answers::{write_answer, write_refusal};
use lw_types::Refusal;
use std::alloc::Global;
use std::io;
use std::io::Write;
use world::Answer;

/// The result of a script.
#[derive(Drop)]
pub enum ScriptResult {
    /// It had no line.
    Nothing,
    /// Its first line doesn't format a store.
    BadStart,
    /// It was refused before its first step.
    Refused(Refusal),
    /// A disk of this length in bytes was formatted, and the steps were answered.
    Played {
        disk_len: u64,
        /// The lines after the first one.
        rows: Vec<PlanRow>,
        /// The answer to each step.
        answers: Vec<Answer>,
    },
}

/// Writes the lines with which a script is answered: that of its first line, and those of the
/// others in order.
pub fn write_outcome<W: Write>(
    alloc: Global,
    out: &mut W,
    outcome: &ScriptResult,
) -> io::Result<()> {
    match outcome {
        ScriptResult::Nothing => Ok(()),
        ScriptResult::BadStart => write_bad_line(out),
        ScriptResult::Refused(refusal) => write_refusal(out, *refusal),
        ScriptResult::Played {
            disk_len,
            rows,
            answers,
        } => {
            writeln!(out, "formatted {disk_len}")?;
            write_rows(alloc, out, rows, answers)
        }
    }
}

// The answers in order, and between them `bad line` for each line that isn't a step.
fn write_rows<W: Write>(
    alloc: Global,
    out: &mut W,
    rows: &[PlanRow],
    answers: &[Answer],
) -> io::Result<()> {
    let mut left = answers.iter();
    for row in rows {
        match row {
            PlanRow::BadLine => write_bad_line(out)?,
            PlanRow::Step => {
                if let Some(answer) = left.next() {
                    write_answer(alloc, out, answer)?;
                }
            }
        }
    }
    Ok(())
}

fn write_bad_line<W: Write>(out: &mut W) -> io::Result<()> {
    writeln!(out, "bad line")
}
