//! The faults of a dump.

ghost use Rattle.std.specs.Prelude.{◌≡◌};

use pm_model::HostFault;
use std::alloc::AllocError;

/// Why a pool was not dumped. Nothing changed, except that the host counted its own fault.
#[derive(Clone, Copy, Debug, PartialEq, Eq, thiserror::Error)]
pub enum DumpFault {
    /// Allocation failed.
    #[error("an allocation failed")]
    Memory,
    /// The host's own fault.
    #[error("the host failed")]
    Host(HostFault),
}

impl From<AllocError> for DumpFault {
    ghost use Rattle.graph_dump.specs.declared.fault.DumpFault.TheVariants.{Memory};

    ghost from_gives = { λ _ fault. fault ≡ Memory };

    fn from(_error: AllocError) -> DumpFault {
        DumpFault::Memory
    }
}

impl From<HostFault> for DumpFault {
    ghost use Rattle.graph_dump.specs.declared.fault.DumpFault.TheVariants.{Host};

    ghost from_gives = { λ host fault. fault ≡ Host host };

    fn from(host: HostFault) -> DumpFault {
        DumpFault::Host(host)
    }
}
