//! Whether some puddle has a base.

ghost use Rattle.std.specs.Prelude.{◌≡◌, ◌+◌, ◌<◌, ◌≤◌, not, IfOk};
ghost use Rattle.pm_model.specs.Words.{Image, reads};
ghost use Rattle.pm_model.specs.Counts.{fault_of};
ghost use Rattle.pm_model.specs.Reads.{OnlyReads};
ghost use Rattle.pud_defs.specs.Formats.Layout.{tables_end};
ghost use Rattle.pud_defs.specs.RegistryTables.Placement.{has_another_base};
ghost use Rattle.pud_defs.specs.RegistryTables.Puddles.{puddle_at};
ghost use Rattle.pud_defs.specs.RegistryTables.Spaces.{all_below};
ghost use Rattle.pud_defs.specs.RegistryTables.Tables.{tables_of};

use pm_model::{Host, HostFault};
use pud_defs::layout::{MAX_FRAMES, puddle_record_at};
use pud_defs::records::PUDDLE_BASE_WORD;

/// Whether the frame has a puddle with this base.
fn frame_has_base<H: Host>(h: &mut H, frame: u32, base: u64) -> Result<bool, HostFault>
    requires known { frame < MAX_FRAMES }
    requires table { tables_end (frame + 1) ≤ (H.counts h.old).size }
    ensures has { H.tells → (image : Image) → reads (H.state h.old).now.words ≡ image → IfOk result (λ has. has ≡ not (has_another_base base (puddle_at image frame))) }
    ensures only_reads { OnlyReads H.tells H.state H.counts (fault_of result) h.old h.new }
{
    let record = puddle_record_at(frame);
    if h.load(record)? == 0 {
        return Ok(false);
    }
    Ok(h.load(record + PUDDLE_BASE_WORD)? == base)
}

/// Whether some puddle has this base as its own. A puddle that has it only as its old base does not count.
///
/// The call takes one load for each frame and one more for each puddle, up to the puddle that has the base.
pub fn has_base<H: Host>(h: &mut H, frames: u32, base: u64) -> Result<bool, HostFault>
    requires few { frames ≤ MAX_FRAMES }
    requires table { tables_end frames ≤ (H.counts h.old).size }
    ensures taken { H.tells → (image : Image) → reads (H.state h.old).now.words ≡ image
        → IfOk result (λ taken. taken ≡ not (all_below (tables_of frames image).frames (λ frame. has_another_base base ((tables_of frames image).puddles frame)))) }
    ensures only_reads { OnlyReads H.tells H.state H.counts (fault_of result) h.old h.new }
{
    for frame in 0..frames {
        if frame_has_base(h, frame, base)? {
            return Ok(true);
        }
    }
    Ok(false)
}
