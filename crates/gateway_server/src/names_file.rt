// The file of the names that may greet.
ghost use Rattle.std.specs.Prelude.{IfErr};
ghost use Rattle.gateway_server.specs.Causes.{IsOfNames};

use crate::Fault;
use lnsd_life::{NameList, NameListFault, NameSource, PlaceCount};
use lnsd_links::read_names;
use std::alloc::Global;
use std::fs::{File, metadata};
use std::io;
use std::io::{ErrorKind, Read};
use std::rt::Files;
use store_files::FileCause;

// The longest file of names, in bytes: 64 gateways and 16 applications have some 2,000.
const LONGEST: u64 = 1 << 20;

/// A file of names, which is read each time that the names are asked for.
#[derive(Drop)]
pub(crate) struct NamesFile<'a, R> {
    pub(crate) rt: &'a R,
    pub(crate) alloc: Global,
    pub(crate) path: &'a str,
}

impl<'a, R: Files<File = File>> NamesFile<'a, R> {
    /// Reads the file, as a life with this number of places does. A fault has its cause.
    pub(crate) fn check(&self, places: PlaceCount) -> Result<(), Fault>
        ensures { IfErr result IsOfNames }
    {
        match read_names(self, places.get() as usize) {
            Ok(_) => Ok(()),
            Err(NameListFault::File) => Err(Fault::NamesFile(self.cause())),
            Err(fault) => Err(Fault::Names(fault)),
        }
    }

    // Why the file can't be read.
    fn cause(&self) -> FileCause {
        match self.text() {
            Ok(_) => FileCause::Other,
            Err(error) => FileCause::of_opening(error.kind()),
        }
    }

    // A pipe isn't opened: that would wait until it is written to.
    fn text(&self) -> io::Result<String> {
        let metadata = metadata(self.rt, self.path)?;
        if metadata.is_dir() {
            return Err(io::Error::from(ErrorKind::IsADirectory));
        }
        if !metadata.is_file() {
            return Err(io::Error::from(ErrorKind::InvalidInput));
        }
        let mut text = String::new(self.alloc);
        let file = File::open(self.rt, self.path)?;
        let _ = file.take(LONGEST + 1).read_to_string(&mut text)?;
        if text.len() as u64 > LONGEST {
            return Err(io::Error::from(ErrorKind::FileTooLarge));
        }
        Ok(text)
    }
}

impl<'a, R: Files<File = File>> NameSource for NamesFile<'a, R> {
    ghost use Rattle.gateway_server.specs.NamesFile.{IsOfSomeText};

    // A file's content has no model here. Tests show whose list it is.
    ghost gives = { λ _ result. IsOfSomeText result };

    fn read(&self) -> Result<NameList, NameListFault> {
        match self.text() {
            Ok(text) => NameList::read(self.alloc, text.as_str()),
            Err(error) if error.kind() == ErrorKind::OutOfMemory => Err(NameListFault::OutOfMemory),
            Err(_) => Err(NameListFault::File),
        }
    }
}
