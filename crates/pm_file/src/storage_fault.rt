//! Why a file of the host could not be used.
ghost use Rattle.std.specs.Prelude.{◌≡◌};
ghost use Rattle.pm_file.specs.declared.storage_fault.StorageFault.TheVariants.{Memory, Failed};

use std::alloc::AllocError;
use std::fs::TryLockError;
use std::io;

/// The two causes that the host tells apart.
#[derive(Drop)]
pub(crate) enum StorageFault {
    /// Allocation failed.
    Memory,
    /// The file could not be opened, made, locked, read, written or synced.
    Failed,
}

impl From<AllocError> for StorageFault {
    ghost from_gives = { λ _ fault. fault ≡ Memory };

    fn from(_error: AllocError) -> StorageFault {
        StorageFault::Memory
    }
}

impl From<io::Error> for StorageFault {
    ghost from_gives = { λ _ fault. fault ≡ Failed };

    fn from(_error: io::Error) -> StorageFault {
        StorageFault::Failed
    }
}

impl From<TryLockError> for StorageFault {
    ghost from_gives = { λ _ fault. fault ≡ Failed };

    fn from(_error: TryLockError) -> StorageFault {
        StorageFault::Failed
    }
}
