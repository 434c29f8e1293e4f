// Why a command failed, in a line after that of its fault.
ghost use Rattle.std.specs.Prelude.{◌≡◌, option_map};
ghost use Rattle.gateway_server.specs.Causes.{cause_words, file_words, listen_cause, listen_words};
ghost use Rattle.gateway_server.specs.Causes.{has_cause_line, names_words};

use crate::Fault;
use command_words::Mode;
use lnsd_life::NameListFault;
use std::io::ErrorKind;
use store_files::FileCause;

/// Why an address can't be listened on.
#[derive(Clone, Copy, Debug, Drop, PartialEq, Eq)]
pub enum ListenCause {
    /// This user may not listen on this port.
    Permission,
    /// Another program listens there.
    InUse,
    /// This machine doesn't have the address.
    NoAddress,
    /// No host has this name.
    NoName,
    /// It isn't an address or a name, a colon and a port.
    Malformed,
    /// Connections couldn't be accepted.
    Accepting,
    /// Anything else.
    Other,
}

impl ListenCause {
    /// Why, given the kind of an error, and whether that is the system's own. Otherwise it is that
    /// of a name that was looked up.
    pub(crate) fn of(kind: ErrorKind, is_system: bool) -> Self
        ensures { result ≡ listen_cause kind is_system }
    {
        match kind {
            ErrorKind::PermissionDenied => ListenCause::Permission,
            ErrorKind::AddrInUse => ListenCause::InUse,
            ErrorKind::AddrNotAvailable => ListenCause::NoAddress,
            ErrorKind::InvalidInput => ListenCause::Malformed,
            ErrorKind::Uncategorized if !is_system => ListenCause::NoName,
            _ => ListenCause::Other,
        }
    }
}

/// The line after that of a fault, if there is one.
pub(crate) fn cause_line(fault: &Fault) -> Option<&'static str>
    ensures { option_map (λ t. t.now) result ≡ cause_words fault.now }
{
    match fault {
        Fault::File(cause) | Fault::NamesFile(cause) => Some(file_words(*cause)),
        Fault::Listen(cause) => Some(listen_words(*cause)),
        Fault::Names(names) => names_words(*names),
        Fault::NoNames => Some("the server runs without --names"),
        _ => None,
    }
}

/// Whether the faults of a command have such a line. The words of `format`, `list` and `serve` are
/// fixed.
pub(crate) fn has_cause_line(mode: &Mode<'_>) -> bool
    ensures { result ≡ has_cause_line mode.now }
{
    !matches!(
        mode,
        Mode::Format { .. } | Mode::List { .. } | Mode::Serve { .. }
    )
}

fn file_words(cause: FileCause) -> &'static str
    ensures { result.now ≡ file_words cause }
{
    match cause {
        FileCause::NotFound => "not found",
        FileCause::NoFolder => "its folder isn't found",
        FileCause::Permission => "permission denied",
        FileCause::InUse => "in use by another lnsd",
        FileCause::Folder => "it is a folder",
        FileCause::ReadOnly => "read-only file system",
        FileCause::Full => "no space left",
        FileCause::Other => "another error of the system",
    }
}

fn listen_words(cause: ListenCause) -> &'static str
    ensures { result.now ≡ listen_words cause }
{
    match cause {
        ListenCause::Permission => "permission denied",
        ListenCause::InUse => "address in use",
        ListenCause::NoAddress => "no such address on this machine",
        ListenCause::NoName => "no such host name",
        ListenCause::Malformed => "not an address with a port",
        ListenCause::Accepting => "connections can't be accepted",
        ListenCause::Other => "another error of the system",
    }
}

fn names_words(fault: NameListFault) -> Option<&'static str>
    ensures { option_map (λ t. t.now) result ≡ names_words fault }
{
    match fault {
        NameListFault::File => Some("the file of names can't be read"),
        NameListFault::Line(_) => Some("neither 'gateway EUI' nor 'application N'"),
        NameListFault::Gateways => Some("more than 64 gateways"),
        NameListFault::Places => Some("more names than places; --links is at least one more"),
        NameListFault::OutOfMemory => None,
    }
}
