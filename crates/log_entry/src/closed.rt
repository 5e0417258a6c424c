//! The test whether a log is closed.
ghost use Rattle.std.specs.Prelude.{◌≡◌, ◌+◌, ◌≤◌, IfOk};
ghost use Rattle.pm_model.specs.Words.{reads};
ghost use Rattle.pm_model.specs.Counts.{fault_of};
ghost use Rattle.pm_model.specs.Reads.{OnlyReads};
ghost use Rattle.pud_defs.specs.declared.layout.TheConstants.{LOG_WORDS};
ghost use Rattle.pud_defs.specs.Formats.Image.{Image};
ghost use Rattle.pud_defs.specs.RegistryTables.Spaces.{is_closed_log};

use crate::well_formed;
use pm_model::{Host, HostFault};
use pud_defs::log_words::is_closed_range;

/// Tests whether the log whose gate is word `at` is closed. A log is closed if its range is closed and it is well
/// formed.
///
/// The device must have all words of the log. The call changes nothing. The only errors are the host's own.
pub fn is_closed_log<H: Host>(h: &mut H, at: u32) -> Result<bool, HostFault>
    requires { at + LOG_WORDS ≤ (H.counts h.old).size }
    ensures closed { H.tells → (image : Image) → reads (H.state h.old).now.words ≡ image → IfOk result (λ closed. closed ≡ is_closed_log image at) }
    ensures only_reads { OnlyReads H.tells H.state H.counts (fault_of result) h.old h.new }
{
    if !is_closed_range(h.load(at)?) {
        return Ok(false);
    }
    well_formed(h, at)
}
