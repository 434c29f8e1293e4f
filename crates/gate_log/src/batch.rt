// A batch as the log returns it.
ghost use Rattle.std.specs.Prelude.{◌≡◌};

use std::marker::Model;

/// A batch: its last sequence number, the number of its entries, and the entries as bytes.
pub struct Batch {
    last_sequence: u64,
    entry_count: u16,
    entries: Vec<u8>,
}

// Implemented by hand, so that its proof is done once: a derived drop is proved anew at each use.
impl Drop for Batch {
    fn drop(self) {
        let Self {
            last_sequence: _,
            entry_count: _,
            entries: _,
        } = self;
    }
}

impl Model for Batch {
    ghost use Rattle.gate_log.specs.Layout.{BatchValue};

    ghost Value = { BatchValue };

    ghost view = { λ b. record {
      last_sequence = b.last_sequence;
      entry_count = b.entry_count;
      entries = b.entries.items;
    } };
}

impl Batch {
    pub(crate) fn new(last_sequence: u64, entry_count: u16, entries: Vec<u8>) -> Self
        ensures { result ≡ record {
          last_sequence = last_sequence;
          entry_count = entry_count;
          entries = entries.items;
        } }
    {
        Batch {
            last_sequence,
            entry_count,
            entries,
        }
    }

    pub fn last_sequence(&self) -> u64
        ensures { result ≡ self.now.last_sequence }
    {
        self.last_sequence
    }

    pub fn entry_count(&self) -> u16
        ensures { result ≡ self.now.entry_count }
    {
        self.entry_count
    }

    pub fn entries(&self) -> &[u8]
        ensures { result.now ≡ self.now.entries }
    {
        &self.entries
    }
}
