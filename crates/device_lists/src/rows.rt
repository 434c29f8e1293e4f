// The rows of a list's text.
ghost use Rattle.std.specs.Prelude.{◌≡◌, ◌+◌, ◌<◌, ◌^◌, IfErr, IfOk, IfSome, length, option_map};
ghost use Rattle.csv.specs.Records.{fields_of};
ghost use Rattle.device_lists.specs.Rows.{HasNoLineFeed, SplitsAfterLine, TakesRow};
ghost use Rattle.device_lists.specs.Rows.{is_comment, values_in};
ghost use Rattle.device_lists.specs.declared.fault.ListFault.TheVariants.{OutOfMemory};

use crate::ListFault;
use csv::{ByteRecord, ReaderBuilder};
use std::alloc::Global;

/// The values of a line.
#[derive(Drop)]
pub struct NumberedRow {
    /// The number of the line, counted from 1.
    pub line: u64,
    pub values: ByteRecord,
}

/// The rows of a text that aren't read yet.
#[derive(Clone, Copy)]
pub struct Rows<'a> {
    rest: &'a [u8],
    // how many lines come before
    line: u64,
}

impl<'a> Rows<'a> {
    /// All rows of a text.
    pub fn of(text: &'a [u8]) -> Self
        ensures { (result.rest.now ≡ text.now) × (result.line ≡ 0) }
    {
        Rows {
            rest: text,
            line: 0,
        }
    }

    /// The next row; `None` after the last. Fails only if memory runs out.
    pub fn next(&mut self, alloc: Global) -> Result<Option<NumberedRow>, ListFault>
        requires { self.old.line + length self.old.rest.now < 2 ^ 64 }
        ensures counted { IfOk result (λ _. self.new.line + length self.new.rest.now < 2 ^ 64) }
        ensures shorter { IfOk result (λ next. IfSome next
            (λ _. length self.new.rest.now < length self.old.rest.now)) }
        ensures row { IfOk result (λ next. TakesRow self.old next self.new) }
        ensures refused { IfErr result (λ fault. fault ≡ OutOfMemory) }
    {
        while !self.rest.is_empty() {
            let (line, rest) = split_line(self.rest);
            self.rest = rest;
            self.line += 1;
            if let Some(values) = values_in(alloc, line)? {
                return Ok(Some(NumberedRow {
                    line: self.line,
                    values,
                }));
            }
        }
        Ok(None)
    }
}

// The first line of a text, and what is left after it.
fn split_line(text: &[u8]) -> (&[u8], &[u8])
    ensures { HasNoLineFeed result.0.now × SplitsAfterLine text.now result.0.now result.1.now }
{
    match text.iter().position(|byte| *byte == b'\n') {
        Some(end) => (&text[..end], &text[end + 1..]),
        None => (text, &[]),
    }
}

// The values of a line; `None` if it has none.
fn values_in(alloc: Global, line: &[u8]) -> Result<Option<ByteRecord>, ListFault>
    ensures values { IfOk result (λ row. option_map fields_of row ≡ values_in line.now) }
    ensures refused { IfErr result (λ fault. fault ≡ OutOfMemory) }
{
    if is_comment(line) {
        return Ok(None);
    }
    let mut reader = ReaderBuilder::new()
        .has_headers(false)
        .from_reader(alloc, line);
    let mut row = ByteRecord::new(alloc);
    if reader.read_byte_record(&mut row)? {
        Ok(Some(row))
    } else {
        Ok(None)
    }
}

fn is_comment(line: &[u8]) -> bool
    ensures { result ≡ is_comment line.now }
{
    match line {
        [first, ..] => *first == b'#',
        [] => false,
    }
}
