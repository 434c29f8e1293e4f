// The control socket beside a store's file: the server listens there, and operators connect.
ghost use Rattle.std.specs.Prelude.{◌≡◌, ◌≢◌, ◌++◌, ◌∷◌, [], IfErr, IfOk, MatchResult, OnErr};
ghost use Rattle.std.specs.Prelude.{codes, string_bytes};
ghost use Rattle.gateway_server.specs.Printed.{EndsWithALine};

use crate::Fault;
use lnsd_life::{BUSY, NO_NAMES, Order, RELOADED, WATCHING};
use lw_types::Refusal;
use std::alloc::Global;
use std::fs::File;
use std::io::{ErrorKind, Read, Write};
use std::net::Net;
use std::os::unix::fs::FileTypeExt;
use std::os::unix::net::{UnixListener, UnixStream};
use std::rt::{Clock, Files};
use std::time::Duration;
use std::{fs, io, thread};

/// What the server sends when it has ended, to the operator who stopped it.
pub(crate) const ENDED: &str = "ended";

// The pause between tries to reach a server that is starting, in milliseconds.
const PAUSE: u64 = 50;

// How much of the events is read at a time, in bytes.
const PIECE: usize = 4096;

// The number of tries a second.
const TRIES: u64 = 20;

/// The name of a store's file after symbolic links are followed. Only [`real_file`] makes one.
#[derive(Drop)]
pub(crate) struct RealFile(String);

/// Where the control socket of a store is. Only [`path_of`] makes one, so what is removed as a
/// socket is never the store's own file.
#[derive(Drop)]
pub(crate) struct ControlPath(String);

/// The file that a name leads to, so that each name of a store leads to one control socket. A name
/// that isn't a symbolic link stays as it is, and so does one that leads nowhere. The only refusal
/// is `OutOfMemory`.
pub(crate) fn real_file<R: Files>(rt: &R, alloc: Global, file: &str) -> Result<RealFile, Fault>
    ensures { IfErr result (λ fault. fault ≡ Fault.Refused Refusal.OutOfMemory) }
{
    let is_link = fs::symlink_metadata(rt, file).is_ok_and(|there| there.is_symlink());
    if is_link {
        match rt.canonicalize(alloc, file) {
            Ok(real) => return named(alloc, real.as_str()),
            Err(error) if error.kind() == ErrorKind::OutOfMemory => {
                return Err(Fault::Refused(Refusal::OutOfMemory));
            }
            Err(_) => {}
        }
    }
    named(alloc, file)
}

// The file of this name.
fn named(alloc: Global, name: &str) -> Result<RealFile, Fault>
    ensures { MatchResult result (λ file. string_bytes file.0 ≡ name.now)
        (λ fault. fault ≡ Fault.Refused Refusal.OutOfMemory) }
{
    Ok(RealFile(String::from_str(alloc, name)?))
}

/// Where the control socket of the store in a file is.
pub(crate) fn path_of(alloc: Global, file: &RealFile) -> Result<ControlPath, Fault>
    ensures { MatchResult result
        (λ path. string_bytes path.0 ≡ string_bytes file.now.0 ++ codes ".control")
        (λ fault. fault ≡ Fault.Refused Refusal.OutOfMemory) }
{
    let name = file.0.as_str();
    Ok(ControlPath(format!(in alloc; "{name}.control")?))
}

/// Listens at a control socket. An existing socket is left over, since no other process has the
/// store's file, and is removed. A file that isn't a socket stays, and the call fails.
pub(crate) fn bind_control<R: Files<File = File> + Net>(
    rt: &R,
    path: &ControlPath,
) -> Result<UnixListener, Fault> {
    if let Ok(there) = fs::symlink_metadata(rt, path.0.as_str()) {
        if !there.file_type().is_socket() {
            return Err(Fault::Control);
        }
        remove(rt, path);
    }
    UnixListener::bind(rt, path.0.as_str()).map_err(|_| Fault::Control)
}

/// Removes a control socket. If that fails it is left over.
pub(crate) fn remove<R: Files<File = File>>(rt: &R, path: &ControlPath) {
    let _ = fs::remove_file(rt, path.0.as_str());
}

// A connection to the server that runs on the store in a file.
fn connect_to<R: Files + Net>(rt: &R, alloc: Global, file: &str) -> Result<UnixStream, Fault> {
    let path = path_of(alloc, &real_file(rt, alloc, file)?)?;
    UnixStream::connect(rt, path.0.as_str()).map_err(|error| fault_of_connecting(error.kind()))
}

// Why a connection failed.
fn fault_of_connecting(kind: ErrorKind) -> Fault
    ensures none { kind ≡ ErrorKind.NotFound → result ≡ Fault.NotRunning }
    ensures refused { kind ≡ ErrorKind.ConnectionRefused → result ≡ Fault.LeftOver }
    ensures other { kind ≢ ErrorKind.NotFound → kind ≢ ErrorKind.ConnectionRefused
        → result ≡ Fault.Control }
{
    match kind {
        ErrorKind::NotFound => Fault::NotRunning,
        ErrorKind::ConnectionRefused => Fault::LeftOver,
        _ => Fault::Control,
    }
}

// Sends an order, and returns its whole answer.
fn ask(alloc: Global, stream: UnixStream, order: Order) -> Result<String, Fault> {
    let mut stream = stream;
    let word = order.word();
    writeln!(stream, "{word}").map_err(|_| Fault::BrokenOff)?;
    let mut answer = String::new(alloc);
    match stream.read_to_string(&mut answer) {
        Ok(_) => Ok(answer),
        Err(error) if error.kind() == ErrorKind::OutOfMemory => {
            Err(Fault::Refused(Refusal::OutOfMemory))
        }
        Err(_) => Err(Fault::BrokenOff),
    }
}

/// Stops the server that runs on the store in a file, and waits until it has ended. If the server
/// ends with a fault, returns that fault.
pub(crate) fn stop<R: Files + Net>(rt: &R, alloc: Global, file: &str) -> Result<(), Fault> {
    let answer = ask(alloc, connect_to(rt, alloc, file)?, Order::Stop)?;
    if answer.as_str().trim_end() == ENDED {
        Ok(())
    } else {
        Err(Fault::BrokenOff)
    }
}

/// Has the server that runs on the store in a file read its list of names again. If the server
/// keeps the old list, returns why.
pub(crate) fn reload<R: Files + Net>(rt: &R, alloc: Global, file: &str) -> Result<(), Fault> {
    let answer = unbroken(ask(alloc, connect_to(rt, alloc, file)?, Order::Reload)?)?;
    match answer.as_str() {
        RELOADED => Ok(()),
        NO_NAMES => Err(Fault::NoNames),
        refused => Err(Fault::NotReloaded(String::from_str(alloc, refused.trim_end())?)),
    }
}

/// The status of the server that runs on the store in a file. If none runs, tries again for this
/// number of seconds.
pub(crate) fn status<R: Files + Net + Clock>(
    rt: &R,
    alloc: Global,
    file: &str,
    wait: u64,
) -> Result<String, Fault>
    ensures { IfOk result (λ text. EndsWithALine (string_bytes text)) }
{
    let mut stream = connect_to(rt, alloc, file);
    for _ in 0..wait.saturating_mul(TRIES) {
        match &stream {
            Err(Fault::NotRunning | Fault::LeftOver) => {}
            _ => break,
        }
        thread::sleep(rt, Duration::from_millis(PAUSE));
        stream = connect_to(rt, alloc, file);
    }
    unbroken(ask(alloc, stream?, Order::Status)?)
}

/// The devices of the store in a file, by the server that runs on it.
pub(crate) fn devices<R: Files + Net>(rt: &R, alloc: Global, file: &str) -> Result<String, Fault>
    ensures { IfOk result (λ text. EndsWithALine (string_bytes text)) }
{
    unbroken(ask(alloc, connect_to(rt, alloc, file)?, Order::Devices)?)
}

// The lines of an answer, without the empty one after them. If that is missing, the answer was cut
// off.
fn unbroken(answer: String) -> Result<String, Fault>
    ensures { MatchResult result
        (λ text. (string_bytes answer ≡ string_bytes text ++ 10 ∷ [])
        × EndsWithALine (string_bytes text))
        (λ fault. fault ≡ Fault.BrokenOff) }
{
    let mut text = answer;
    let last = text.pop();
    match (last, text.as_bytes().split_last()) {
        (Some('\n'), Some((b'\n', _))) => Ok(text),
        _ => Err(Fault::BrokenOff),
    }
}

/// Prints on `out` the events of the server that runs on the store in a file, until it ends, and
/// returns the result of writing them. `Busy` if the largest number of operators watches already.
pub(crate) fn watch<R: Files + Net, O: Write>(
    rt: &R,
    alloc: Global,
    file: &str,
    out: &mut O,
) -> Result<io::Result<()>, Fault>
    ensures { OnErr result (out.new ≡ out.old) }
{
    let mut stream = connect_to(rt, alloc, file)?;
    let word = Order::Watch.word();
    writeln!(stream, "{word}").map_err(|_| Fault::BrokenOff)?;
    let mut first = [0u8; WATCHING.len()];
    let count = fill_front(&mut stream, &mut first);
    match first.get(..count) {
        Some(line) if line == WATCHING.as_bytes() => Ok(pass_on(&mut stream, out)),
        Some(line) if line == BUSY.as_bytes() => Err(Fault::Busy),
        _ => Err(Fault::BrokenOff),
    }
}

// Fills the buffer with what comes. Returns the length.
fn fill_front(stream: &mut UnixStream, buffer: &mut [u8]) -> usize {
    let mut len: usize = 0;
    for _ in 0..buffer.len() {
        let rest = buffer.get_mut(len..).unwrap_or(&mut []);
        if rest.is_empty() {
            break;
        }
        match stream.read(rest) {
            Ok(count) if count > 0 => len = len.saturating_add(count),
            _ => break,
        }
    }
    len
}

// Writes the first line, and what comes after it, as it comes, until the other end closes.
fn pass_on<O: Write>(stream: &mut UnixStream, out: &mut O) -> io::Result<()> {
    out.write_all(WATCHING.as_bytes())?;
    out.flush()?;
    let mut buffer = [0u8; PIECE];
    for _ in 0..u64::MAX {
        let count = match stream.read(&mut buffer) {
            Ok(0) => break,
            Ok(count) => count,
            Err(error) if error.kind() == ErrorKind::Interrupted => 0,
            Err(_) => break,
        };
        out.write_all(buffer.get(..count).unwrap_or(&[]))?;
        out.flush()?;
    }
    Ok(())
}
