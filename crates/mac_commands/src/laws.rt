//! Laws of MAC commands as bytes, for crates that queue and send them.
ghost use Rattle.std.specs.Prelude.{◌≡◌, ◌≤◌, ◌++◌, ◌↔◌, IsTrue, List, drop, length, take, ℕ};
ghost use Rattle.lw_types.specs.declared.direction.Direction.{Direction};
ghost use Rattle.mac_commands.specs.declared.command.MacCommand.{MacCommand};
ghost use Rattle.mac_commands.specs.Commands.{AreCommands, IsLongestFit, Spells, spelling};
ghost use Rattle.mac_commands.specs.Queueable.{AreQueueable};
ghost use Rattle.mac_commands.specs.Reading.{commands_in, fitting_len, is_queue, reported_bytes};

use crate::LONGEST_COMMAND_PAYLOAD;

/// Bytes are read in only one way: as one list of commands, up to one place.
pub fn bytes_are_read_in_one_way()
    ensures commands { (direction : Direction) (bytes : List ℕ) (a : List MacCommand)
        (b : List MacCommand) (m : ℕ) (n : ℕ)
        → AreCommands direction bytes a m → AreCommands direction bytes b n → a ≡ b }
    ensures stop { (direction : Direction) (bytes : List ℕ) (a : List MacCommand)
        (b : List MacCommand) (m : ℕ) (n : ℕ)
        → AreCommands direction bytes a m → AreCommands direction bytes b n → m ≡ n }
{}

/// Bytes are read as `commands_in` says, up to the end of these commands.
pub fn bytes_begin_with_these_commands()
    ensures { (direction : Direction) (bytes : List ℕ)
        → let commands = commands_in direction bytes in
        AreCommands direction bytes commands (length (spelling commands)) }
{}

/// What is reported of an uplink is no longer than the uplink's commands.
pub fn what_is_reported_is_short()
    ensures { (bytes : List ℕ) → length (reported_bytes bytes) ≤ length bytes }
{}

/// Whole commands that were written are all read again.
pub fn whole_commands_are_read_to_the_end()
    ensures { (direction : Direction) (bytes : List ℕ) (commands : List MacCommand)
        → Spells direction bytes commands → AreCommands direction bytes commands (length bytes) }
{}

/// Whole commands followed by whole commands are whole commands. If whole commands are taken from
/// the front of whole commands, the rest are whole commands.
pub fn whole_commands_join_and_part()
    ensures join { (direction : Direction) (a : List ℕ) (b : List ℕ) (first : List MacCommand)
        (second : List MacCommand)
        → Spells direction a first → Spells direction b second
        → Spells direction (a ++ b) (first ++ second) }
    ensures part { (direction : Direction) (a : List ℕ) (b : List ℕ) (all : List MacCommand)
        (first : List MacCommand)
        → Spells direction (a ++ b) all → Spells direction a first
        → (second : List MacCommand) × (all ≡ first ++ second) × Spells direction b second }
{}

/// `is_queue` is true exactly of the bytes that may be queued.
pub fn queues_are_found()
    ensures { (bytes : List ℕ) → IsTrue (is_queue bytes) ↔ AreQueueable bytes }
{}

/// The first `fitting_len` bytes of a queue are its longest beginning, in whole commands, that fits
/// the room.
pub fn what_fits_is_the_longest()
    ensures { (queue : List ℕ) (room : ℕ) → IsLongestFit queue room (fitting_len queue room) }
{}

/// What `fit15` takes from the front of a queue is a queue, and so is the rest.
pub fn what_fits_leaves_a_queue()
    ensures { (queue : List ℕ) (room n : ℕ) → AreQueueable queue → IsLongestFit queue room n
        → AreQueueable (take n queue) × AreQueueable (drop n queue) }
{}

/// The most bytes of a MAC command after its identifier.
pub fn limits_are_these()
    ensures { LONGEST_COMMAND_PAYLOAD ≡ 5 }
{}
