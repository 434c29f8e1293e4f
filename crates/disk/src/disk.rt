// A disk, and what its calls promise.
ghost use Rattle.std.specs.Prelude.{◌≡◌, ℕ, ◌+◌, ◌≤◌, length, take, drop, OnOk, OnErr, is_ok};
ghost use Rattle.disk.specs.State.{State, IsWrite, IsSettledAt, bytes_after_write};
ghost use Rattle.disk.specs.Outlook.{Outlook, IsForeseen, HasCause};

use std::error::Error;
use std::fmt;

/// A call of a disk failed.
#[derive(Clone, Copy, Debug, PartialEq, Eq)]
pub struct DeviceFailed;

impl fmt::Display for DeviceFailed {
    ghost use Rattle.std.specs.Prelude.{Some, codes};

    ghost output = { λ _. Some (codes "the device failed") };

    fn fmt<W: fmt::Write>(&self, f: &mut fmt::Formatter<W>) -> fmt::Result {
        f.write_str("the device failed")
    }
}

impl Error for DeviceFailed {}

/// A disk of a fixed length, in bytes. Nobody else writes to it.
///
/// A write opens its positions, even if it fails. A sync that succeeds closes all positions. A
/// crash leaves any bytes at the open positions and the content at all others.
pub trait Disk {
    /// What the disk holds, and which of its positions are open.
    ghost state: { Self → State };

    /// The number of calls that have failed.
    ghost failures: { Self → ℕ };

    /// What is known about whether the coming calls will succeed.
    ghost outlook: { Self → Outlook };

    /// That disks of this type do with their bytes what this trait says.
    ghost honest: { Type 0 };

    /// The number of bytes.
    fn len(&self) -> u64
        ensures { result ≡ length (state self.now).content };

    /// Fills the buffer with the bytes that begin at a position. After an error the buffer may hold
    /// any bytes.
    fn read_at(&mut self, at: u64, buffer: &mut [u8]) -> Result<(), DeviceFailed>
        requires { at + length buffer.old ≤ length (state self.old).content }
        ensures bytes { honest
            → OnOk result (buffer.new ≡ take (length buffer.old)
            (drop at (state self.old).content)) }
        ensures same { honest → state self.new ≡ state self.old }
        ensures same_length { length (state self.new).content ≡ length (state self.old).content }
        ensures cause { HasCause (failures self.old) (failures self.new) result }
        ensures foreseen { IsForeseen (outlook self.old) (is_ok result) (outlook self.new) };

    /// Writes the bytes from a position on, and opens their positions. After an error these
    /// positions may hold any bytes.
    fn write_at(&mut self, at: u64, bytes: &[u8]) -> Result<(), DeviceFailed>
        requires { at + length bytes.now ≤ length (state self.old).content }
        ensures written { honest
            → OnOk result ((state self.new).content
            ≡ bytes_after_write (state self.old).content at bytes.now) }
        ensures opens { honest → IsWrite at (length bytes.now) (state self.old) (state self.new) }
        ensures same_length { length (state self.new).content ≡ length (state self.old).content }
        ensures cause { HasCause (failures self.old) (failures self.new) result }
        ensures foreseen { IsForeseen (outlook self.old) (is_ok result) (outlook self.new) };

    /// Closes every open position. After an error all of them are still open.
    fn sync(&mut self) -> Result<(), DeviceFailed>
        ensures settled { honest
            → OnOk result (IsSettledAt (state self.old).content (state self.new)) }
        ensures unsettled { honest → OnErr result (state self.new ≡ state self.old) }
        ensures same_length { length (state self.new).content ≡ length (state self.old).content }
        ensures cause { HasCause (failures self.old) (failures self.new) result }
        ensures foreseen { IsForeseen (outlook self.old) (is_ok result) (outlook self.new) };
}
