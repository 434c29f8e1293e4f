// What is wrong with a list.
ghost use Rattle.std.specs.Prelude.{◌≡◌};
ghost use Rattle.device_lists.specs.Lists.{row_fault_text};

use crate::Column;
use csv::Error as CsvError;
use device_changes::RowFault;
use std::alloc::{AllocError, Global};
use thiserror::Error;

/// What is wrong with a line.
#[derive(Clone, Copy, Debug, PartialEq, Eq, Error)]
pub enum LineFault {
    /// A value that is needed isn't there.
    #[error("there is no {0}")]
    Missing(Column),
    /// What stands under this column is no value of it.
    #[error("{0} isn't {form}", form = .0.form())]
    Value(Column),
    /// The line has more or fewer values than the head has columns.
    #[error("it hasn't as many values as the first line")]
    Count,
    /// The line isn't UTF-8.
    #[error("it isn't UTF-8")]
    Text,
    /// The column at this place of the head, counted from 1, is none that lists have.
    #[error("column {0} has an unknown name")]
    UnknownColumn(usize),
    /// The head has this column twice.
    #[error("there are two columns {0}")]
    ColumnTwice(Column),
    /// The change isn't possible in the store's table.
    #[error("{text}", text = row_text(.0))]
    Row(RowFault),
}

/// A faulty line, counted from 1.
#[derive(Clone, Copy, Debug)]
pub struct FaultyLine {
    pub line: u64,
    pub fault: LineFault,
}

/// Why a list asks for no changes.
#[derive(Drop)]
pub enum ListFault {
    /// These lines are faulty, at least one of them.
    Lines(Vec<FaultyLine>),
    /// Memory ran out.
    OutOfMemory,
}

impl From<AllocError> for ListFault {
    ghost use Rattle.std.specs.Prelude.{◌≡◌};
    ghost use Rattle.device_lists.specs.declared.fault.ListFault.TheVariants.{OutOfMemory};

    ghost from_gives = { λ _ fault. fault ≡ OutOfMemory };

    fn from(_error: AllocError) -> Self {
        ListFault::OutOfMemory
    }
}

// A text in memory can't fail to be read, and lines may have any number of values.
impl From<CsvError> for ListFault {
    ghost use Rattle.std.specs.Prelude.{◌≡◌};
    ghost use Rattle.device_lists.specs.declared.fault.ListFault.TheVariants.{OutOfMemory};

    ghost from_gives = { λ _ fault. fault ≡ OutOfMemory };

    fn from(_error: CsvError) -> Self {
        ListFault::OutOfMemory
    }
}

/// What is wrong with a change.
#[tactic(auto, unfolding(crate::specs::Lists::row_fault_text))]
pub fn row_text(fault: &RowFault) -> &'static str
    ensures { result.now ≡ row_fault_text fault.now }
{
    match fault {
        RowFault::Repeated => "an earlier line has the same DevEUI",
        RowFault::UnknownDevEui => "the store doesn't have this DevEUI",
        RowFault::DevEuiTaken => "the store has this DevEUI already",
        RowFault::TableFull => "the store has no free slot for it",
        RowFault::JoinNonceLowered => "LastJoinNonce is below the store's",
    }
}

/// A line of text for each faulty line of the list of this name. `between` stands between them.
pub fn text_of_faults(
    alloc: Global,
    name: &str,
    faults: &[FaultyLine],
    between: &str,
) -> Result<String, AllocError> {
    let mut text = String::new(alloc);
    for faulty in faults {
        if !text.is_empty() {
            text.push_str(between)?;
        }
        let (line, fault) = (faulty.line, faulty.fault);
        let one = format!(in alloc; "{name} line {line}: {fault}")?;
        text.push_str(one.as_str())?;
    }
    Ok(text)
}
