// Reading a list.
ghost use Rattle.std.specs.Prelude.{◌≡◌, ◌≢◌, [], ◌∷◌, IfErr, IfOk, MatchResult, OnOk, map};
ghost use Rattle.csv.specs.Records.{AllText, fields_of};
ghost use Rattle.device_lists.specs.Columns.{IsListHead};
ghost use Rattle.device_lists.specs.Lists.{IsHeadFault, IsListOf, IsRefusedText, IsRowFault};
ghost use Rattle.device_lists.specs.Lists.{AreLinesOf, IsOnly, IsNoted, RowAsksFor, faulty_line};
ghost use Rattle.device_lists.specs.declared.fault.ListFault.TheVariants.{OutOfMemory};

use crate::column::place_of;
use crate::rows::{NumberedRow, Rows};
use crate::{Column, FaultyLine, LineFault, LineValues, ListFault, amendment_of, importing_of};
use csv::StringRecord;
use device_changes::{Change, FaultyRow};
use std::alloc::{AllocError, Global};

/// What a list is for.
#[derive(Clone, Copy, Debug, PartialEq, Eq)]
pub enum ListUse {
    /// Each line brings a device.
    Import,
    /// Each line changes a device that the store has.
    Amend,
}

/// The changes that a list asks for.
#[derive(Drop)]
pub struct DeviceList {
    /// One for each row after the head, in order.
    pub changes: Vec<Change>,
    /// The line of each change, counted from 1.
    lines: Vec<u64>,
}

/// The changes that a list asks for, one for each row after the head. If lines are faulty, the
/// refusal has each of them, in order, with what is wrong. A text without a head is refused for
/// its first line. Values may stand in quotation marks (RFC 4180). A line that is empty or begins
/// with `#` is no row, and is counted. A byte order mark is skipped.
pub fn read_list(alloc: Global, text: &[u8], usage: ListUse) -> Result<DeviceList, ListFault>
    ensures { MatchResult result
        (λ list. IsListOf usage text.now list.lines.items list.changes.items)
        (IsRefusedText usage text.now) }
{
    let mut rows = Rows::of(text);
    let Some(first) = rows.next(alloc)? else {
        return Err(only_fault(alloc, 1, LineFault::Missing(Column::DevEui)));
    };
    let line = first.line;
    let head = match head_columns(alloc, first)? {
        Ok(head) => head,
        Err(fault) => return Err(only_fault(alloc, line, fault)),
    };
    let mut reading = Reading::new(alloc);
    while let Some(row) = rows.next(alloc)? {
        reading.note(numbered_change(head.as_slice(), row, usage))?;
    }
    reading.end()
}

impl DeviceList {
    /// The faulty lines of these rows of its changes. A row that it doesn't have is on line 0.
    pub fn faulty_lines(
        &self,
        alloc: Global,
        rows: &[FaultyRow],
    ) -> Result<Vec<FaultyLine>, AllocError>
        ensures { IfOk result
            (λ found. found.items ≡ map (faulty_line self.now.lines.items) rows.now) }
    {
        let mut found = Vec::new(alloc);
        for row in rows {
            found.push(self.faulty_line(row))?;
        }
        Ok(found)
    }

    fn faulty_line(&self, row: &FaultyRow) -> FaultyLine
        ensures { result ≡ faulty_line self.now.lines.items row.now }
    {
        FaultyLine {
            line: self.lines.as_slice().get(row.row).copied().unwrap_or(0),
            fault: LineFault::Row(row.fault),
        }
    }
}

// A list as far as it was read.
#[derive(Drop)]
struct Reading {
    list: DeviceList,
    faults: Vec<FaultyLine>,
}

impl Reading {
    fn new(alloc: Global) -> Self
        ensures changes { result.list.changes.items ≡ [] }
        ensures lines { result.list.lines.items ≡ [] }
        ensures faults { result.faults.items ≡ [] }
    {
        let list = DeviceList {
            changes: Vec::new(alloc),
            lines: Vec::new(alloc),
        };
        Reading {
            list,
            faults: Vec::new(alloc),
        }
    }

    // Notes what the next row asks for.
    fn note(&mut self, read: Result<(u64, Change), FaultyLine>) -> Result<(), AllocError>
        ensures { OnOk result (IsNoted self.old read self.new) }
    {
        match read {
            Ok((line, change)) => {
                self.list.changes.push(change)?;
                self.list.lines.push(line)?;
            }
            Err(faulty) => self.faults.push(faulty)?,
        }
        Ok(())
    }

    // The list, if no line was faulty.
    fn end(self) -> Result<DeviceList, ListFault>
        ensures { MatchResult result (λ list. (list ≡ self.list) × (self.faults.items ≡ []))
            (AreLinesOf self.faults.items) }
    {
        let Reading { list, faults } = self;
        if faults.is_empty() {
            Ok(list)
        } else {
            Err(ListFault::Lines(faults))
        }
    }
}

// One faulty line.
fn only_fault(alloc: Global, line: u64, fault: LineFault) -> ListFault
    ensures { IsOnly line fault result }
{
    let mut faults = Vec::new(alloc);
    match faults.push(FaultyLine { line, fault }) {
        Ok(()) => ListFault::Lines(faults),
        Err(_) => ListFault::OutOfMemory,
    }
}

// The columns that the first row names.
fn head_columns(
    alloc: Global,
    row: NumberedRow,
) -> Result<Result<Vec<Column>, LineFault>, AllocError>
    ensures { IfOk result (λ read. MatchResult read
        (λ head. IsListHead (fields_of row.values) head.items)
        (IsHeadFault (fields_of row.values))) }
{
    let Ok(names) = StringRecord::from_byte_record(row.values) else {
        return Ok(Err(LineFault::Text));
    };
    let mut head = Vec::new(alloc);
    match read_columns(&mut head, &names)? {
        Ok(()) => Ok(Ok(head)),
        Err(fault) => Ok(Err(fault)),
    }
}

// A row's line, and the change that the row asks for.
fn numbered_change(
    head: &[Column],
    row: NumberedRow,
    usage: ListUse,
) -> Result<(u64, Change), FaultyLine>
    ensures { MatchResult result
        (λ read. (read.0 ≡ row.line) × RowAsksFor usage head.now (fields_of row.values) read.1)
        (λ faulty. (faulty.line ≡ row.line)
        × IsRowFault usage head.now (fields_of row.values) faulty.fault) }
{
    let line = row.line;
    let Ok(values) = StringRecord::from_byte_record(row.values) else {
        let fault = LineFault::Text;
        return Err(FaultyLine { line, fault });
    };
    match listed_change(head, &values, usage) {
        Ok(change) => Ok((line, change)),
        Err(fault) => Err(FaultyLine { line, fault }),
    }
}

// The columns that the first row names, each once, DevEUI among them.
fn read_columns(
    head: &mut Vec<Column>,
    names: &StringRecord,
) -> Result<Result<(), LineFault>, AllocError>
    requires { head.old.items ≡ [] }
    ensures { IfOk result (λ read. MatchResult read
        (λ _. IsListHead (fields_of names.now) head.new.items)
        (IsHeadFault (fields_of names.now))) }
{
    while let Some(name) = names.get(head.len()) {
        let Some(column) = Column::of_name(name) else {
            return Ok(Err(LineFault::UnknownColumn(head.len() + 1)));
        };
        if place_of(head.as_slice(), column).is_some() {
            return Ok(Err(LineFault::ColumnTwice(column)));
        }
        head.push(column)?;
    }
    if place_of(head.as_slice(), Column::DevEui).is_some() {
        Ok(Ok(()))
    } else {
        Ok(Err(LineFault::Missing(Column::DevEui)))
    }
}

// The change that a row asks for.
fn listed_change(head: &[Column], row: &StringRecord, usage: ListUse) -> Result<Change, LineFault>
    requires { AllText (fields_of row.now) }
    ensures { MatchResult result (RowAsksFor usage head.now (fields_of row.now))
        (IsRowFault usage head.now (fields_of row.now)) }
{
    if row.len() != head.len() {
        return Err(LineFault::Count);
    }
    let values = LineValues::of_row(head, row);
    match usage {
        ListUse::Import => Ok(Change::Import(importing_of(&values)?)),
        ListUse::Amend => Ok(Change::Amend(amendment_of(&values)?)),
    }
}
