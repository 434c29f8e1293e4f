// Why an area is not recovered.
ghost use Rattle.std.specs.Prelude.{◌≡◌};

use disk::DeviceFailed;
use std::alloc::{AllocError, AllocFailed};
use std::error::Error;
use std::fmt;

/// Why an area is not recovered.
#[derive(Clone, Copy, Debug, PartialEq, Eq)]
pub enum RecoverError {
    /// A read of the disk failed.
    Device,
    /// Memory ran out.
    OutOfMemory,
    /// The area's gate is closed, or its records, or an open batch with the gate after it, extend
    /// beyond the area's end.
    Damaged,
}

impl From<DeviceFailed> for RecoverError {
    ghost use Rattle.gate_log.specs.declared.error.RecoverError.TheVariants.{Device};

    ghost from_gives = { λ _ e. e ≡ Device };

    fn from(_: DeviceFailed) -> Self {
        RecoverError::Device
    }
}

impl From<AllocError> for RecoverError {
    ghost use Rattle.gate_log.specs.declared.error.RecoverError.TheVariants.{OutOfMemory};

    ghost from_gives = { λ _ e. e ≡ OutOfMemory };

    fn from(_: AllocError) -> Self {
        RecoverError::OutOfMemory
    }
}

impl<T: Drop> From<AllocFailed<T>> for RecoverError {
    ghost use Rattle.gate_log.specs.declared.error.RecoverError.TheVariants.{OutOfMemory};

    ghost from_gives = { λ _ e. e ≡ OutOfMemory };

    fn from(_: AllocFailed<T>) -> Self {
        RecoverError::OutOfMemory
    }
}

impl fmt::Display for RecoverError {
    ghost use Rattle.std.specs.Prelude.{Some};
    ghost use Rattle.gate_log.specs.Message.{error_text};

    ghost output = { λ error. Some (error_text error) };

    fn fmt<W: fmt::Write>(&self, f: &mut fmt::Formatter<W>) -> fmt::Result {
        f.write_str(match self {
            RecoverError::Device => "the device failed",
            RecoverError::OutOfMemory => "out of memory",
            RecoverError::Damaged => "the area is damaged",
        })
    }
}

impl Error for RecoverError {}
