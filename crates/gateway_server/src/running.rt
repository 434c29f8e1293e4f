// Commands, from their words to their status.
ghost use Rattle.std.specs.Prelude.{◌≡◌, ◌≤◌, ◌⊎◌, ◌↔◌, IfErr, IfOk, IsOk, MatchResult, OnOk};
ghost use Rattle.std.specs.Prelude.{List, ℕ, OnErr, map, string_bytes};
ghost use Rattle.std.specs.Io.KnownBytes.{Appends};
ghost use Rattle.command_words.specs.Asked.{AreWrong, AskForHelp};
ghost use Rattle.gateway_server.specs.Causes.{IsListen};
ghost use Rattle.gateway_server.specs.Lines.{report_text, run_text};
ghost use Rattle.gateway_server.specs.Told.{AsksToRun, CannotListen, FellShort, HasStatus};
ghost use Rattle.gateway_server.specs.Told.{HasUsageStatus, IsAskedFor, IsDone, WasObeyed};

use crate::causes::{cause_line, has_cause_line};
use crate::serving::{FinishedLife, run_server, serve};
use crate::{Commands, Fault};
use command_words::{Mode, Usage, words};
use lnsd_life::LifeReport;
use lw_types::Refusal;
use std::alloc::Global;
use std::fs::File;
use std::io;
use std::io::Write;
use std::net::{Net, TcpListener, TcpStream};
use std::rt::{Clock, Files};
use std::sync::Wait;
use std::thread::Threads;

/// Does what these words, without the program's name, ask for, by the commands that are lent. `out`
/// is standard output, `err` is standard error. Returns the status of the process: 0 if it was done
/// and printed, also if help was asked for; 1 if it failed, or its text couldn't be written, or
/// there was no memory to read the words; 2 for words that ask for nothing, and then nothing is
/// done, and nothing goes to `out`; 3 if `run` can't listen on its address, which may come up
/// later. No contract says that a failure is printed on `err`, or that memory was out if nothing
/// was done.
pub fn command<R, C: Commands, O: Write, E: Write>(
    rt: &R,
    commands: &mut C,
    alloc: Global,
    texts: &[&str],
    out: &mut O,
    err: &mut E,
) -> u8
where
    R: Files<File = File> + Net<Listener = TcpListener, Stream = TcpStream>,
    R: Clock + Threads + Wait + Sync,
    R::Dir: Send + Sync,
    ensures status { result ≤ 3 }
    ensures done { result ≡ 0
        → (AskForHelp (map (λ w. w.now) texts.now) × ((commands.new ≡ commands.old)
        × ((text : List ℕ) × Appends (O.contents out.old) (O.contents out.new) text)))
        ⊎ IsAskedFor (map (λ w. w.now) texts.now)
        (IsDone (λ m outcome. C.ends commands.old m outcome commands.new)
        O.contents out.old out.new) }

    // If nothing was done, help was asked for, or nothing was printed.
    ensures failed { result ≡ 1
        → ((commands.new ≡ commands.old)
        × (AskForHelp (map (λ w. w.now) texts.now) ⊎ (out.new ≡ out.old)))
        ⊎ IsAskedFor (map (λ w. w.now) texts.now)
        (FellShort (λ m outcome. C.ends commands.old m outcome commands.new) out.old out.new) }
    ensures wrong { result ≡ 2 → AreWrong (map (λ w. w.now) texts.now) }
    ensures quiet { result ≡ 2 → (commands.new ≡ commands.old) × (out.new ≡ out.old) }
    ensures address { result ≡ 3
        → IsAskedFor (map (λ w. w.now) texts.now)
        (CannotListen (λ m outcome. C.ends commands.old m outcome commands.new)) }
{
    match words(alloc, texts) {
        Ok(mode) => carry_out(rt, commands, alloc, &mode, out, err),
        Err(usage) => tell_usage(out, err, usage),
    }
}

// Does what was asked for, and returns its status.
fn carry_out<R, C: Commands, O: Write, E: Write>(
    rt: &R,
    commands: &mut C,
    alloc: Global,
    mode: &Mode<'_>,
    out: &mut O,
    err: &mut E,
) -> u8
where
    R: Files<File = File> + Net<Listener = TcpListener, Stream = TcpStream>,
    R: Clock + Threads + Wait + Sync,
    R::Dir: Send + Sync,
    ensures { HasStatus (λ m outcome. C.ends commands.old m outcome commands.new)
        O.contents out.old out.new mode.now result }
{
    match obey(rt, commands, alloc, mode, out, err) {
        Ok(told) => status_of(&told),
        Err(fault) => fail_in(err, mode, &fault),
    }
}

// Prints why nothing is done, and returns the status for it.
fn tell_usage<O: Write, E: Write>(out: &mut O, err: &mut E, usage: Usage) -> u8
    ensures { HasUsageStatus usage O.contents out.old out.new result }
{
    match usage {
        Usage::Help(text) => status_of(&tell(out, text.as_str())),
        Usage::Words(text) => {
            let _ = tell(err, text.as_str());
            2
        }
        Usage::Memory => fail(err, &Fault::Refused(Refusal::OutOfMemory)),
    }
}

/// Prints on standard error why a command failed, and returns the status of a failure, 1.
pub fn fail<E: Write>(err: &mut E, fault: &Fault) -> u8
    ensures { result ≡ 1 }
{
    let _ = writeln!(err, "lnsd: {fault}");
    1
}

// Prints why the command failed, with the cause if it names one, and returns the status for it.
fn fail_in<E: Write>(err: &mut E, mode: &Mode<'_>, fault: &Fault) -> u8
    ensures range { (result ≡ 1) ⊎ (result ≡ 3) }
    ensures one { result ≡ 1 → AsksToRun mode.now → IsListen fault.now → ⊥ }
    ensures three { result ≡ 3 → AsksToRun mode.now × IsListen fault.now }
{
    let status = fail(err, fault);
    if has_cause_line(mode)
        && let Some(cause) = cause_line(fault)
    {
        let _ = writeln!(err, "lnsd: {cause}");
    }
    match (mode, fault) {
        (Mode::Run { .. }, Fault::Listen(_)) => 3,
        _ => status,
    }
}

// Does what was asked for, and prints its text.
fn obey<R, C: Commands, O: Write, E: Write>(
    rt: &R,
    commands: &mut C,
    alloc: Global,
    mode: &Mode<'_>,
    out: &mut O,
    err: &mut E,
) -> Result<io::Result<()>, Fault>
where
    R: Files<File = File> + Net<Listener = TcpListener, Stream = TcpStream>,
    R: Clock + Threads + Wait + Sync,
    R::Dir: Send + Sync,
    ensures { WasObeyed (λ m outcome. C.ends commands.old m outcome commands.new) mode.now
        O.contents out.old out.new result }
{
    match *mode {
        Mode::Format {
            file,
            net_id,
            slots,
        } => tell_nothing(commands.format(rt, alloc, file, net_id, slots)),
        Mode::List { file } => tell_outcome(out, commands.list(rt, alloc, file)),
        Mode::Serve {
            file,
            listen,
            links,
        } => {
            let life = serve(rt, alloc, file, listen, links);
            commands.life_ended(mode, &life);
            tell_life(err, life)
        }
        Mode::Run {
            file,
            listen,
            links,
            names,
        } => {
            let life = run_server(rt, alloc, file, listen, links, names, out);
            commands.life_ended(mode, &life);
            tell_run(err, life)
        }
        Mode::Stop { file } => tell_nothing(commands.stop(rt, alloc, file)),
        Mode::Devices { file } => tell_outcome(out, commands.devices(rt, alloc, file)),
        Mode::Watch { file } => commands.watch(rt, alloc, file, out),
        Mode::Reload { file } => tell_nothing(commands.reload(rt, alloc, file)),
        Mode::Copy { file, new } => tell_outcome(out, commands.copy(rt, alloc, file, new)),
        Mode::Restore {
            file,
            new,
            grants,
            above,
        } => tell_outcome(out, commands.restore(rt, alloc, file, new, grants, above)),
        Mode::Status { file, wait } => tell_outcome(out, commands.status(rt, alloc, file, wait)),
        Mode::Edit(ref edit) => tell_outcome(out, commands.edit(rt, alloc, edit)),
    }
}

// What was done prints nothing.
fn tell_nothing(done: Result<(), Fault>) -> Result<io::Result<()>, Fault>
    ensures ok { IsOk done → result ≡ Ok (Ok tt) }
    ensures err { IfErr done (λ fault. result ≡ Err fault) }
{
    match done {
        Ok(()) => Ok(Ok(())),
        Err(fault) => Err(fault),
    }
}

// Prints the text that was asked for.
fn tell_outcome<W: Write>(to: &mut W, text: Result<String, Fault>) -> Result<io::Result<()>, Fault>
    ensures ok { IfOk text (λ text. MatchResult result (λ told.
        OnOk told (Appends (W.contents to.old) (W.contents to.new) (string_bytes text))) (λ _. ⊥)) }
    ensures err { IfErr text (λ fault. (result ≡ Err fault) × (to.new ≡ to.old)) }
{
    match text {
        Ok(text) => Ok(tell(to, text.as_str())),
        Err(fault) => Err(fault),
    }
}

// Writes the whole text.
fn tell<W: Write>(to: &mut W, text: &str) -> io::Result<()>
    ensures { OnOk result (Appends (W.contents to.old) (W.contents to.new) text.now) }
{
    to.write_all(text.as_bytes())?;
    to.flush()
}

// Prints how a life of links that all connected has ended.
fn tell_life<E: Write>(
    err: &mut E,
    life: Result<FinishedLife<'_>, Fault>,
) -> Result<io::Result<()>, Fault>
    ensures ok { IsOk life.entry → IsOk result }
    ensures told { IfOk life.entry (λ life. IfOk result (λ told.
        OnOk told (Appends (E.contents err.old) (E.contents err.new) (report_text life.report)))) }
    ensures err { IfErr life.entry (λ fault. result ≡ Err fault) }
    ensures quiet { OnErr life.entry (err.new ≡ err.old) }
{
    match life {
        Ok(life) => Ok(write_report(err, life.report())),
        Err(fault) => Err(fault),
    }
}

// Prints how a life of links that came and went has ended.
fn tell_run<E: Write>(
    err: &mut E,
    life: Result<FinishedLife<'_>, Fault>,
) -> Result<io::Result<()>, Fault>
    ensures ok { IsOk life.entry → IsOk result }
    ensures told { IfOk life.entry (λ life. IfOk result (λ told.
        OnOk told (Appends (E.contents err.old) (E.contents err.new) (run_text life.report)))) }
    ensures err { IfErr life.entry (λ fault. result ≡ Err fault) }
    ensures quiet { OnErr life.entry (err.new ≡ err.old) }
{
    match life {
        Ok(life) => Ok(write_run(err, life.report())),
        Err(fault) => Err(fault),
    }
}

fn write_report<E: Write>(err: &mut E, report: &LifeReport) -> io::Result<()>
    ensures { OnOk result
        (Appends (E.contents err.old) (E.contents err.new) (report_text report.now)) }
{
    let (dropped, faulted) = (report.dropped, report.faulted);
    writeln!(err, "dropped {dropped}")?;
    writeln!(err, "faulted {faulted}")?;
    err.flush()
}

fn write_run<E: Write>(err: &mut E, report: &LifeReport) -> io::Result<()>
    ensures { OnOk result
        (Appends (E.contents err.old) (E.contents err.new) (run_text report.now)) }
{
    let (taken_over, silent) = (report.taken_over, report.silent);
    write_report(err, report)?;
    writeln!(err, "taken_over {taken_over}")?;
    writeln!(err, "silent {silent}")?;
    err.flush()
}

// The status of a command that was done: 0 if its text could be written, otherwise 1.
fn status_of(told: &io::Result<()>) -> u8
    ensures range { result ≤ 1 }
    ensures told { (result ≡ 0) ↔ IsOk told.now }
{
    match told {
        Ok(()) => 0,
        Err(_) => 1,
    }
}
