// How much of a queue of MAC commands a downlink has room for.
ghost use Rattle.std.specs.Prelude.{◌≡◌, List};
ghost use Rattle.mac_commands.specs.declared.command.MacCommand.{MacCommand};
ghost use Rattle.mac_commands.specs.Commands.{AreCommands, IsLongestFit};
ghost use Rattle.mac_commands.specs.Reading.{fitting_len};

use crate::front::read_front;
use lw_types::Direction;

/// How many bytes from the front of a queue of downlink commands are piggybacked: the most, in
/// whole commands, that fit into the room that is left of the 15 bytes of FOpts (TS001-1.0.4
/// §4.3.1.6). Takes no memory.
#[tactic(auto, using(crate::proofs::Reading::is_longest, crate::proofs::CommandsIn::is_fitting))]
pub fn fit15(queue: &[u8], room: u8) -> usize
    ensures longest { IsLongestFit queue.now room result }
    ensures value { result ≡ fitting_len queue.now room }
{
    let within = queue.len().min(usize::from(room));
    whole_len(Direction::Down, &queue[..within])
}

/// The length in bytes of the whole commands of this direction at the front of some bytes.
fn whole_len(direction: Direction, bytes: &[u8]) -> usize
    ensures { (commands : List MacCommand) × AreCommands direction bytes.now commands result }
{
    let mut rest = bytes;
    while let Some(front) = read_front(direction, rest) {
        rest = front.rest;
    }
    bytes.len() - rest.len()
}
