// The store and what it says of itself.
ghost use Rattle.std.specs.Prelude.{◌≡◌, ◌<◌, ◌+◌, ◌-◌, ◌^◌, ◌↔◌, IsTrue, false};
ghost use Rattle.disk.specs.Outlook.Outlook.{FailsAfter};
ghost use Rattle.gate_log.specs.Log.{log_state, log_disk as disk_of_log};
ghost use Rattle.store.specs.Image.{HaveLength};

use disk::{Disk, Sim};
use gate_log::{ENTRIES_AT, Log};
use lw_types::Refusal;
use sessions::Table;
use store_layout::RESERVED_ENTRY;

/// The number of bytes of the journal that the largest batch takes: its gate and head, 64 entries
/// of the bytes that are reserved for each, and the next gate.
pub const LARGEST_BATCH: u64 = ENTRIES_AT + 64 * RESERVED_ENTRY + 1;

/// A durable table with its journal on a disk, in records of the newest version. After a call of
/// the disk has failed, each `begin` returns [`Refusal::Failed`]: close the store, and open its
/// disk again.
#[derive(Drop)]
pub struct Store<D: Disk> {
    pub(crate) log: Log<D>,
    pub(crate) table: Table,
    pub(crate) seq: u64,
    pub(crate) failed: bool,
    ghost long: { HaveLength table.slots log.areas },
}

impl<D: Disk> Store<D> {
    ghost use Rattle.store.specs.State.{store_state, disk_of, IsRoomy};

    /// The store of a table and the number of its last decision.
    pub(crate) fn new(log: Log<D>, table: Table, seq: u64) -> Self
        requires { HaveLength table.slots log.areas }
        ensures store { store_state D.state result
            ≡ record {
              log = log_state D.state log;
              table = table;
              seq = seq;
              failed = false;
            } }
        ensures disk { disk_of result ≡ disk_of_log log }
    {
        Store {
            log,
            table,
            seq,
            failed: false,
        }
    }

    /// The durable table.
    pub fn table(&self) -> &Table
        ensures { result.now ≡ (store_state D.state self.now).table }
    {
        &self.table
    }

    /// The number of the last durable decision.
    pub fn seq(&self) -> u64
        ensures { result ≡ (store_state D.state self.now).seq }
    {
        self.seq
    }

    /// Whether the largest batch fits into the journal: [`LARGEST_BATCH`] bytes are left in it.
    pub fn roomy(&self) -> bool
        ensures { IsTrue result ↔ IsRoomy (store_state D.state self.now) }
    {
        self.log.room() >= LARGEST_BATCH
    }

    /// Returns the disk.
    pub fn close(self) -> D
        ensures { result ≡ disk_of self }
    {
        self.log.close()
    }
}

impl<D: Sim> Store<D> {
    ghost use Rattle.store.specs.State.{store_state, disk_of};

    /// Makes the nth call of the disk from now fail.
    pub fn arm(&mut self, n: u64)
        requires { 0 < n }
        ensures armed { D.failures (disk_of self.old) + 1 < 2 ^ 64
            → D.outlook (disk_of self.new) ≡ FailsAfter (n - 1) }
        ensures same { store_state D.state self.new ≡ store_state D.state self.old }
        ensures failures { D.failures (disk_of self.new) ≡ D.failures (disk_of self.old) }
    {
        self.log.arm(n);
    }
}
