// How long it takes to decide what one device sends.
use crate::network::{full_table, heard, record};
use crate::timing::{Unmeasured, clock_nanos, nanos_of_one, nanos_since};
use devices::{Command, Device, Heard};
use lw_types::Refusal;
use sessions::Table;
use std::alloc::Global;
use std::rt::Clock;

/// How long one kind of event is decided in a table, in nanoseconds.
const MEASURED_NANOS: u128 = 1_000_000_000;

/// The number of events that are decided before the device's record is put back and the clock is
/// read again.
const TIMES: u16 = 16;

/// More rounds than fit into that time on any machine of today.
const MOST_ROUNDS: u32 = 1_000_000;

/// What a device sends.
#[derive(Clone, Copy)]
pub enum Workload {
    /// A request to join.
    Join,
    /// An uplink of 24 bytes with this MHDR, while this number of items of 24 bytes wait.
    Uplink { mhdr: u8, items: u32 },
}

/// An unconfirmed uplink.
pub const UPLINK: Workload = Workload::Uplink {
    mhdr: 0x40,
    items: 0,
};

/// A confirmed uplink, which is answered with an item. As many items wait as may.
pub const ANSWERED: Workload = Workload::Uplink {
    mhdr: 0x80,
    items: 16,
};

/// Frames that come one after another to the device at a slot, which first has this record.
#[derive(Drop)]
struct FrameRun {
    slot: u16,
    record: Device,
    frames: Vec<Heard>,
}

impl FrameRun {
    fn new(alloc: Global, workload: Workload, slot: u16) -> Result<Self, Refusal> {
        let mut frames = Vec::new(alloc);
        for number in 0..TIMES {
            frames.push(heard(alloc, workload, slot, number)?)?;
        }
        Ok(FrameRun {
            slot,
            record: record(alloc, workload, slot)?,
            frames,
        })
    }

    /// Decides the frames and puts the records that they leave into the table, in which the device
    /// has its first record.
    fn decide(&self, alloc: Global, table: &mut Table) -> Result<(), Refusal> {
        table.put(self.slot, self.record.copy()?)?;
        for (seq, frame) in self.frames.iter().enumerate() {
            decide_one(alloc, table, seq as u64, frame.clone()?)?;
        }
        Ok(())
    }
}

fn decide_one(alloc: Global, table: &mut Table, seq: u64, frame: Heard) -> Result<(), Refusal> {
    let decision = table.decide(alloc, seq, Command::Heard(frame))?;
    table.apply(&decision)
}

/// The number of nanoseconds that an event of the last device takes in a full table, decided for a
/// second or a little more.
pub fn measure(
    rt: &impl Clock,
    alloc: Global,
    workload: Workload,
    slots: u16,
) -> Result<u32, Unmeasured> {
    let run = FrameRun::new(alloc, workload, slots.saturating_sub(1))?;
    let mut table = full_table(alloc, slots)?;
    measure_run(rt, alloc, &run, &mut table)
}

fn measure_run(
    rt: &impl Clock,
    alloc: Global,
    run: &FrameRun,
    table: &mut Table,
) -> Result<u32, Unmeasured> {
    let start = clock_nanos(rt);
    for round in 1..=MOST_ROUNDS {
        run.decide(alloc, table)?;
        let spent = nanos_since(rt, start)?;
        if spent >= MEASURED_NANOS {
            return nanos_of_one(spent, u128::from(round) * u128::from(TIMES));
        }
    }
    Err(Unmeasured::OddClock)
}
