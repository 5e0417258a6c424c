//! Brings a device of the first version to the present one.

ghost use Rattle.std.specs.Prelude.{◌≡◌, ◌<◌};
ghost use Rattle.pm_model.specs.Counts.{after_fault, fault_of};
ghost use Rattle.pud_defs.specs.declared.layout.TheConstants.{VERSION_WORD};
ghost use Rattle.recover.specs.Upgrading.{Upgrades};

use pm_model::{Host, HostFault};
use pm_persist::persist_word;
use pud_defs::layout::{VERSION, VERSION_WORD};

/// Makes the present version durable in the version word, if another one stands there. An error is the host's.
pub fn upgrade<H: Host>(h: &mut H) -> Result<(), HostFault>
    requires { VERSION_WORD < (H.counts h.old).size }
    ensures upgrades { H.tells → Upgrades (fault_of result) (H.state h.old) (H.state h.new) }
    ensures cause { H.counts h.new ≡ after_fault (fault_of result) (H.counts h.old) }
{
    if h.load(VERSION_WORD)? != VERSION {
        persist_word(h, VERSION_WORD, VERSION)?;
    }
    Ok(())
}
