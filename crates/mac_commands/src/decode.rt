// MAC commands read from a frame.
ghost use Rattle.std.specs.Prelude.{◌≡◌, IfErr, IfOk};
ghost use Rattle.lw_types.specs.declared.refusal.Refusal.TheVariants.{OutOfMemory};
ghost use Rattle.lw_types.specs.declared.direction.Direction.TheVariants.{Up, Down};
ghost use Rattle.mac_commands.specs.Commands.{AreCommands};
ghost use Rattle.mac_commands.specs.Reading.{commands_in};

use crate::command::Decoded;
use crate::front::read_front;
use lw_types::{Direction, Refusal};
use std::alloc::Global;

/// The MAC commands of an uplink, from its FOpts or from its FRMPayload on port 0. Reading stops at
/// an unknown identifier or at a payload that is cut short; the commands before it count.
pub fn decode_up(alloc: Global, bytes: &[u8]) -> Result<Decoded, Refusal>
    ensures read { IfOk result (λ d. AreCommands Up bytes.now d.commands.items d.stop) }
    ensures value { IfOk result (λ d. d.commands.items ≡ commands_in Up bytes.now) }
    ensures refused { IfErr result (λ e. e ≡ OutOfMemory) }
{
    decode(alloc, Direction::Up, bytes)
}

/// The MAC commands of a downlink, read in the same way.
pub fn decode_down(alloc: Global, bytes: &[u8]) -> Result<Decoded, Refusal>
    ensures read { IfOk result (λ d. AreCommands Down bytes.now d.commands.items d.stop) }
    ensures value { IfOk result (λ d. d.commands.items ≡ commands_in Down bytes.now) }
    ensures refused { IfErr result (λ e. e ≡ OutOfMemory) }
{
    decode(alloc, Direction::Down, bytes)
}

fn decode(alloc: Global, direction: Direction, bytes: &[u8]) -> Result<Decoded, Refusal>
    ensures read { IfOk result (λ d. AreCommands direction bytes.now d.commands.items d.stop) }
    ensures value { IfOk result (λ d. d.commands.items ≡ commands_in direction bytes.now) }
    ensures refused { IfErr result (λ e. e ≡ OutOfMemory) }
{
    let mut commands = Vec::new(alloc);
    let mut rest = bytes;
    while let Some(front) = read_front(direction, rest) {
        commands.push(front.command(alloc)?)?;
        rest = front.rest;
    }
    Ok(Decoded {
        commands,
        stop: bytes.len() - rest.len(),
    })
}
