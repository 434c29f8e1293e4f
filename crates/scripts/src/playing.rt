// A script from its input to its output.
ghost use Rattle.std.specs.Prelude.{IfOk};
ghost use Rattle.disk.specs.MemDisk.{state_of};
ghost use Rattle.world.specs.Sound.{IsSoundWorld};

use crate::answers::write_refusal;
use crate::{Format, Plan, PlanRow, ScriptResult, write_outcome};
use disk::MemDisk;
use lw_types::Refusal;
use sessions::Slots;
use std::alloc::Global;
use std::io;
use std::io::{BufWriter, ErrorKind, Read, Write};
use store::disk_len;
use world::{Step, World, run};

/// Reads a script to its end, plays it on a new disk in memory, and writes the answers, one for
/// each line. If memory runs out before the first step, that is the only answer. Fails if a read or
/// a write fails.
pub fn script<R: Read, W: Write>(alloc: Global, reader: &mut R, writer: &mut W) -> io::Result<()> {
    if let Ok(mut out) = BufWriter::new(alloc, &mut *writer) {
        let outcome = read_outcome(alloc, reader)?;
        write_outcome(alloc, &mut out, &outcome)?;
        return out.flush();
    }
    write_refusal(writer, Refusal::OutOfMemory)
}

// The result of a script. Fails if a read fails.
fn read_outcome<R: Read>(alloc: Global, reader: &mut R) -> io::Result<ScriptResult> {
    let mut input = Vec::new(alloc);
    match reader.read_to_end(&mut input) {
        Ok(_) => Ok(outcome_of(alloc, input.as_slice())),
        Err(error) if error.kind() == ErrorKind::OutOfMemory => {
            Ok(ScriptResult::Refused(Refusal::OutOfMemory))
        }
        Err(error) => Err(error),
    }
}

// The result of an input.
fn outcome_of(alloc: Global, input: &[u8]) -> ScriptResult {
    let played = match Plan::read(alloc, input) {
        Ok(Plan::Nothing) => Ok(ScriptResult::Nothing),
        Ok(Plan::BadStart) => Ok(ScriptResult::BadStart),
        Ok(
            Plan::Run {
                format,
                steps,
                rows,
            },
        ) => play(alloc, format, steps.as_slice(), rows),
        Err(refusal) => Err(refusal),
    };
    match played {
        Ok(outcome) => outcome,
        Err(refusal) => ScriptResult::Refused(refusal),
    }
}

// Formats a disk in memory and takes the steps on it.
fn play(
    alloc: Global,
    format: Format,
    steps: &[Step],
    rows: Vec<PlanRow>,
) -> Result<ScriptResult, Refusal> {
    let slots = Slots::new(u64::from(format.slots)).ok_or(Refusal::Damaged)?;
    let disk_len = disk_len(slots);
    let mut world = new_world(alloc, format, disk_len)?;
    let answers = run(&mut world, alloc, steps);
    let _ = world.close();
    Ok(ScriptResult::Played {
        disk_len,
        rows,
        answers: answers?,
    })
}

// A world on a new disk in memory of `disk_len` bytes.
fn new_world(alloc: Global, format: Format, disk_len: u64) -> Result<World<MemDisk>, Refusal>
    ensures { IfOk result (IsSoundWorld state_of) }
{
    let disk = MemDisk::new(alloc, vec![in alloc; 0; disk_len as usize]?)?;
    World::format(alloc, disk, format.net_id, u64::from(format.slots))
}
