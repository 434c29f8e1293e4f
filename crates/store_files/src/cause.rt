// Why the system doesn't open or make a file.
ghost use Rattle.std.specs.Prelude.{◌≡◌};
ghost use Rattle.store_files.specs.Cause.{cause_of_new, cause_of_opening};

use std::io::ErrorKind;

/// Why the system doesn't open or make a file.
#[derive(Clone, Copy, Debug, Drop, PartialEq, Eq)]
pub enum FileCause {
    /// There is no such file.
    NotFound,
    /// The folder in which it is to be made doesn't exist.
    NoFolder,
    /// This user may not do that.
    Permission,
    /// Another process has it, which serves or changes the store.
    InUse,
    /// It is a folder.
    Folder,
    /// The file system can only be read.
    ReadOnly,
    /// There is no space left.
    Full,
    /// Anything else.
    Other,
}

impl FileCause {
    /// Why a file can't be opened, given the system's kind of error. That it is locked is
    /// `WouldBlock`.
    pub fn of_opening(kind: ErrorKind) -> Self
        ensures { result ≡ cause_of_opening kind }
    {
        match kind {
            ErrorKind::NotFound => FileCause::NotFound,
            ErrorKind::PermissionDenied => FileCause::Permission,
            ErrorKind::WouldBlock => FileCause::InUse,
            ErrorKind::IsADirectory => FileCause::Folder,
            ErrorKind::ReadOnlyFilesystem => FileCause::ReadOnly,
            ErrorKind::StorageFull => FileCause::Full,
            _ => FileCause::Other,
        }
    }

    /// Why a file that doesn't exist can't be made.
    pub fn of_new(kind: ErrorKind) -> Self
        ensures { result ≡ cause_of_new kind }
    {
        match kind {
            ErrorKind::NotFound => FileCause::NoFolder,
            _ => FileCause::of_opening(kind),
        }
    }
}
