// The commands that carry out a mode.
use crate::{Fault, FinishedLife, control, edits, stores};
use command_words::{Edit, Mode};
use devices::GrantsSince;
use lw_types::{NetId, Ranged};
use sessions::Slots;
use std::alloc::Global;
use std::fs::File;
use std::io;
use std::io::Write;
use std::net::Net;
use std::rt::{Clock, Files};
use store_files::{RestoreRequest, copy_store, restore};

/// Carries out what a mode asks for. Only these calls say whether it was done or failed, so a
/// caller that borrows commands can't claim more than they returned.
pub trait Commands {
    ghost use Rattle.std.specs.Prelude.{◌≡◌, ℕ, List, [], Result, IfOk, OnErr, string_bytes};
    ghost use Rattle.command_words.specs.declared.mode.Mode.{Mode};
    ghost use Rattle.command_words.specs.declared.mode.Mode.TheVariants as mode;
    ghost use Rattle.gateway_server.specs.Told.{outcome_with};
    ghost use Rattle.gateway_server.specs.declared.fault.Fault.{Fault};

    /// The commands before, the request, its result with the text that must be printed then, and
    /// the commands after.
    ghost ends: { Self → Mode → Result (List ℕ) Fault → Self → Type 0 };

    /// Makes a store without devices in a new file.
    fn format<R: Files<File = File>>(
        &mut self,
        rt: &R,
        alloc: Global,
        file: &str,
        net_id: NetId,
        slots: Slots,
    ) -> Result<(), Fault>
        ensures { ends self.old (mode.Format file.entry net_id slots)
            (outcome_with (λ _. []) result) self.new };

    /// The devices of the store in a file.
    fn list<R: Files<File = File>>(
        &mut self,
        rt: &R,
        alloc: Global,
        file: &str,
    ) -> Result<String, Fault>
        ensures { ends self.old (mode.List file.entry)
            (outcome_with string_bytes result) self.new };

    /// Ends the server that runs on the store in a file.
    fn stop<R: Files + Net>(&mut self, rt: &R, alloc: Global, file: &str) -> Result<(), Fault>
        ensures { ends self.old (mode.Stop file.entry) (outcome_with (λ _. []) result) self.new };

    /// The devices of the store in a file, by the server that runs on it.
    fn devices<R: Files + Net>(
        &mut self,
        rt: &R,
        alloc: Global,
        file: &str,
    ) -> Result<String, Fault>
        ensures { ends self.old (mode.Devices file.entry)
            (outcome_with string_bytes result) self.new };

    /// Prints on `out` the events of the server that runs on the store in a file, until it ends,
    /// and returns the result of writing them. If it fails, nothing was printed.
    fn watch<R: Files + Net, O: Write>(
        &mut self,
        rt: &R,
        alloc: Global,
        file: &str,
        out: &mut O,
    ) -> Result<io::Result<()>, Fault>
        ensures ended { ends self.old (mode.Watch file.entry) (outcome_with (λ _. []) result)
            self.new }
        ensures quiet { OnErr result (out.new ≡ out.old) };

    /// Has the server that runs on the store in a file read its list of names again.
    fn reload<R: Files + Net>(&mut self, rt: &R, alloc: Global, file: &str) -> Result<(), Fault>
        ensures { ends self.old (mode.Reload file.entry) (outcome_with (λ _. []) result)
            self.new };

    /// Copies the store in a file, which may be served, to a new file. Returns the text to print
    /// about the copy.
    fn copy<R: Files<File = File>>(
        &mut self,
        rt: &R,
        alloc: Global,
        file: &str,
        new: &str,
    ) -> Result<String, Fault>
        ensures { ends self.old (mode.Copy file.entry new.entry)
            (outcome_with string_bytes result) self.new };

    /// The status of the server that runs on the store in a file, or that begins within this number
    /// of seconds.
    fn status<R: Files + Net + Clock>(
        &mut self,
        rt: &R,
        alloc: Global,
        file: &str,
        wait: Ranged<0, 3600>,
    ) -> Result<String, Fault>
        ensures { ends self.old (mode.Status file.entry wait)
            (outcome_with string_bytes result) self.new };

    /// Restores an older copy of a lost store to a new file. Returns the text to print about the
    /// new store.
    fn restore<R: Files<File = File>>(
        &mut self,
        rt: &R,
        alloc: Global,
        file: &str,
        new: &str,
        grants: GrantsSince,
        above: Option<&str>,
    ) -> Result<String, Fault>
        ensures { ends self.old (mode.Restore file.entry new.entry grants above.entry)
            (outcome_with string_bytes result) self.new };

    /// Lists or changes the devices of a store in a file. Returns the list, or what was done.
    fn edit<R: Files<File = File>>(
        &mut self,
        rt: &R,
        alloc: Global,
        edit: &Edit<'_>,
    ) -> Result<String, Fault>
        ensures { ends self.old (mode.Edit edit.now) (outcome_with string_bytes result) self.new };

    /// Records how the life of the server that the mode asks for has ended. No call of this trait
    /// serves it, since no proved thread can be started through a trait. But only a life that was
    /// served gives a [`FinishedLife`].
    fn life_ended(&mut self, mode: &Mode<'_>, life: &Result<FinishedLife<'_>, Fault>)
        requires { IfOk life.now (λ finished. finished.mode ≡ mode.now) }
        ensures { ends self.old mode.now (outcome_with (λ _. []) life.now) self.new };
}

/// The server's own commands, on files and sockets.
#[derive(Clone, Copy)]
pub struct ServerCommands;

impl Commands for ServerCommands {
    ghost use Rattle.gateway_server.specs.Printed.{EndsPrinting};

    // Files and sockets have no model here. Tests show whose tables and counts these are, and why
    // commands fail.
    ghost ends = { λ _ m outcome _. EndsPrinting m outcome };

    fn format<R: Files<File = File>>(
        &mut self,
        rt: &R,
        alloc: Global,
        file: &str,
        net_id: NetId,
        slots: Slots,
    ) -> Result<(), Fault> {
        let _store = stores::format(rt, alloc, file, net_id, slots)?;
        Ok(())
    }

    fn list<R: Files<File = File>>(
        &mut self,
        rt: &R,
        alloc: Global,
        file: &str,
    ) -> Result<String, Fault> {
        let told = stores::list(rt, alloc, file)?;
        Ok(told.text)
    }

    fn stop<R: Files + Net>(&mut self, rt: &R, alloc: Global, file: &str) -> Result<(), Fault> {
        control::stop(rt, alloc, file)
    }

    fn devices<R: Files + Net>(
        &mut self,
        rt: &R,
        alloc: Global,
        file: &str,
    ) -> Result<String, Fault> {
        control::devices(rt, alloc, file)
    }

    fn watch<R: Files + Net, O: Write>(
        &mut self,
        rt: &R,
        alloc: Global,
        file: &str,
        out: &mut O,
    ) -> Result<io::Result<()>, Fault> {
        control::watch(rt, alloc, file, out)
    }

    fn reload<R: Files + Net>(&mut self, rt: &R, alloc: Global, file: &str) -> Result<(), Fault> {
        control::reload(rt, alloc, file)
    }

    fn copy<R: Files<File = File>>(
        &mut self,
        rt: &R,
        alloc: Global,
        file: &str,
        new: &str,
    ) -> Result<String, Fault> {
        let copied = copy_store(rt, alloc, file, new)?;
        Ok(copied.text)
    }

    fn status<R: Files + Net + Clock>(
        &mut self,
        rt: &R,
        alloc: Global,
        file: &str,
        wait: Ranged<0, 3600>,
    ) -> Result<String, Fault> {
        control::status(rt, alloc, file, wait.get())
    }

    fn restore<R: Files<File = File>>(
        &mut self,
        rt: &R,
        alloc: Global,
        file: &str,
        new: &str,
        grants: GrantsSince,
        above: Option<&str>,
    ) -> Result<String, Fault> {
        let request = RestoreRequest {
            old: file,
            new,
            since: grants,
            above,
        };
        let restored = restore(rt, alloc, &request)?;
        Ok(restored.text)
    }

    fn edit<R: Files<File = File>>(
        &mut self,
        rt: &R,
        alloc: Global,
        edit: &Edit<'_>,
    ) -> Result<String, Fault> {
        edits::edit(rt, alloc, edit)
    }

    fn life_ended(&mut self, _mode: &Mode<'_>, _life: &Result<FinishedLife<'_>, Fault>) {}
}
