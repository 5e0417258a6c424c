//! Why a pool was not exported.

ghost use Rattle.std.specs.Prelude.{◌≡◌};

use pm_model::HostFault;
use std::alloc::AllocError;

/// Why a pool was not exported. Nothing changed.
#[derive(Clone, Copy, Debug, PartialEq, Eq, thiserror::Error)]
pub enum ExportFault {
    /// An allocation failed.
    #[error("an allocation failed")]
    Memory,
    /// The host's own fault.
    #[error("the host failed")]
    Host(HostFault),
}

impl From<AllocError> for ExportFault {
    ghost use Rattle.pud_export.specs.declared.faults.ExportFault.TheVariants.{Memory};

    ghost from_gives = { λ _ e. e ≡ Memory };

    fn from(_fault: AllocError) -> Self {
        ExportFault::Memory
    }
}

impl From<HostFault> for ExportFault {
    ghost use Rattle.pud_export.specs.declared.faults.ExportFault.TheVariants.{Host};

    ghost from_gives = { λ fault e. e ≡ Host fault };

    fn from(fault: HostFault) -> Self {
        ExportFault::Host(fault)
    }
}
