// The command at the front of some bytes.
ghost use Rattle.std.specs.Prelude.{◌≡◌, ◌≤◌, IfNone, IfOk, IfSome, length};
ghost use Rattle.mac_commands.specs.Commands.{BeginsWhole};
ghost use Rattle.mac_commands.specs.Front.{IsFront};

use crate::cid::Cid;
use crate::command::{CommandPayload, LONGEST_COMMAND_PAYLOAD, MacCommand};
use lw_types::Direction;
use std::alloc::{AllocError, Global};

/// A command at the front of some bytes, and the bytes after it.
#[derive(Clone, Copy)]
pub(crate) struct Front<'a> {
    pub cid: Cid,
    pub payload: &'a [u8],
    pub rest: &'a [u8],
}

/// The whole command of this direction at the front of the bytes, if there is one.
pub(crate) fn read_front(direction: Direction, bytes: &[u8]) -> Option<Front<'_>>
    ensures found { IfSome result (λ f. IsFront direction bytes.now f) }
    ensures few { IfSome result (λ f. length f.payload.now ≤ LONGEST_COMMAND_PAYLOAD) }
    ensures none { IfNone result (¬ BeginsWhole direction bytes.now) }
{
    let (number, behind) = bytes.split_first()?;
    let cid = Cid::from_number(*number)?;
    let (payload, rest) = behind.split_at_checked(cid.payload_len(direction))?;
    Some(Front { cid, payload, rest })
}

impl Front<'_> {
    ghost use Rattle.std.specs.Prelude.{◌++◌, OnOk};
    ghost use Rattle.mac_commands.specs.Commands.{command_bytes};
    ghost use Rattle.mac_commands.specs.Front.{front_command};

    /// The command with a copy of the payload.
    pub fn command(self, alloc: Global) -> Result<MacCommand, AllocError>
        requires { length self.payload.now ≤ LONGEST_COMMAND_PAYLOAD }
        ensures { IfOk result (λ command. command ≡ front_command self.entry) }
    {
        Ok(MacCommand {
            cid: self.cid,
            payload: CommandPayload::from_slice(alloc, self.payload)?,
        })
    }

    /// Appends the bytes of the command.
    pub fn put(self, out: &mut Vec<u8>) -> Result<(), AllocError>
        ensures { OnOk result (out.new.items
            ≡ out.old.items ++ command_bytes (front_command self.entry)) }
    {
        out.push(self.cid.number())?;
        out.extend_from_slice(self.payload)?;
        Ok(())
    }
}
