// MAC commands written for a downlink.
ghost use Rattle.std.specs.Prelude.{◌≡◌, ◌++◌, IfErr, OnErr, OnOk, length};
ghost use Rattle.std.specs.List.{AllByRecursion};
ghost use Rattle.lw_types.specs.declared.refusal.Refusal.TheVariants.{OutOfMemory};
ghost use Rattle.lw_types.specs.declared.direction.Direction.TheVariants.{Down};
ghost use Rattle.mac_commands.specs.Commands.{AreCommands, IsWhole, command_bytes, spelling};

use crate::command::MacCommand;
use lw_types::Refusal;
use std::alloc::{AllocError, Global};

/// Appends the bytes of commands, each its identifier and its payload. If the payloads have the
/// lengths of downlink commands, `decode_down` reads all of them again. If memory runs out, the
/// call is refused as `OutOfMemory` and nothing is appended.
pub fn encode_down(alloc: Global, commands: &[MacCommand], out: &mut Vec<u8>) -> Result<(), Refusal>
    ensures ok { OnOk result (out.new.items ≡ out.old.items ++ spelling commands.now) }
    ensures read_again { AllByRecursion (IsWhole Down) commands.now
        → AreCommands Down (spelling commands.now) commands.now (length (spelling commands.now)) }
    ensures err { OnErr result (out.new.items ≡ out.old.items) }
    ensures refused { IfErr result (λ e. e ≡ OutOfMemory) }
{
    let mut bytes = Vec::new(alloc);
    for command in commands {
        put_command(&mut bytes, command)?;
    }
    out.extend_from_slice(bytes.as_slice())?;
    Ok(())
}

fn put_command(out: &mut Vec<u8>, command: &MacCommand) -> Result<(), AllocError>
    ensures { OnOk result (out.new.items ≡ out.old.items ++ command_bytes command.now) }
{
    out.push(command.cid.number())?;
    out.extend_from_slice(command.payload.as_slice())?;
    Ok(())
}
