//! Why a call of a disk failed.

ghost use Rattle.std.specs.Prelude.{◌≡◌, ◌≤◌, ◌+◌, min};
ghost use Rattle.durable_model.specs.declared.error.DiskError.TheVariants.{Device};
ghost use Rattle.durable_model.specs.Honest.{most_failures};

use std::alloc::{AllocError, AllocFailed};
use thiserror::Error;

/// Why a call of a disk failed.
#[derive(Clone, Copy, Debug, PartialEq, Eq, Error)]
pub enum DiskError {
    /// The device failed. The disk counts it.
    #[error("Device")]
    Device,
    /// A growth of memory was refused. The disk is as it was.
    #[error("NoMemory")]
    NoMemory,
}

impl From<AllocError> for DiskError {
    ghost use Rattle.std.specs.Prelude.{◌≡◌};
    ghost use Rattle.durable_model.specs.declared.error.DiskError.TheVariants.{NoMemory};

    ghost from_gives = { λ _ e. e ≡ NoMemory };

    fn from(_e: AllocError) -> DiskError {
        DiskError::NoMemory
    }
}

impl<T: Drop> From<AllocFailed<T>> for DiskError {
    ghost use Rattle.std.specs.Prelude.{◌≡◌};
    ghost use Rattle.durable_model.specs.declared.error.DiskError.TheVariants.{NoMemory};

    ghost from_gives = { λ _ e. e ≡ NoMemory };

    fn from(_e: AllocFailed<T>) -> DiskError {
        DiskError::NoMemory
    }
}

/// Counts a failure of the device.
pub fn failed(failures: &mut u64) -> DiskError
    ensures device { result ≡ Device }
    ensures counted { failures.new ≡ min (failures.old + 1) most_failures }
    ensures later { failures.old ≤ failures.new }
{
    *failures = failures.saturating_add(1);
    DiskError::Device
}
