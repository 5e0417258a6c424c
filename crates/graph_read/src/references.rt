//! Finds whether an object is referenced.

ghost use Rattle.std.specs.Prelude.{◌≡◌, ◌≤◌, ◌==◌, ◌||◌, not, Option, IfOk};
ghost use Rattle.pm_model.specs.Words.{reads};
ghost use Rattle.pm_model.specs.Counts.{fault_of};
ghost use Rattle.pm_model.specs.Reads.{OnlyReads};
ghost use Rattle.pud_defs.specs.PoolGraphs.Graph.{Graph, graph_of, is_referenced};
ghost use Rattle.pud_defs.specs.Formats.Image.{Image};
ghost use Rattle.pud_defs.specs.Formats.Layout.{device_words};
ghost use Rattle.pud_defs.specs.PoolGraphs.Stored.{IsOnDevice, stored_in};
ghost use Rattle.pud_defs.specs.RegistryTables.Types.{types_of};

use crate::checking::{SlotCheck, places_sum};
use crate::pointers::read_pointer;
use crate::serials::{named, read_serials};
use pm_model::{HostFault, Loads};
use pud_defs::layout::MAX_FRAMES;
use pud_defs::records::Puddle;
use puddle_header::root_value;

/// Whether the root is the object of serial `s`, or some slot has a pointer to it: `spared` tells that no slot has one.
fn is_referenced_by(root: u64, s: u64, spared: bool) -> bool
    ensures { result ≡ (root == s || not spared) }
{
    root == s || !spared
}

/// Returns whether the object of serial `s` is referenced by the root or by a pointer of a live slot, if the pool
/// stores a graph. With 0 for `s`, it returns whether one of these pointers is null. If the pool stores no graph, the
/// answer has no meaning. Each serial and each field is read at most once.
pub fn is_referenced<H: Loads>(
    h: &mut H,
    frames: u32,
    pool: &[(u32, Puddle)],
    s: u64,
) -> Result<bool, HostFault>
    requires few { frames ≤ MAX_FRAMES }
    requires room { device_words frames ≤ (H.counts h.old).size }
    requires known { IsOnDevice frames pool.now }
    ensures referenced { H.tells → (image : Image) → reads (H.state h.old).now.words ≡ image → (g : Graph)
        → graph_of (types_of image) (stored_in frames pool.now image) ≡ Option.Some g → IfOk result (λ held. held ≡ is_referenced s g) }
    ensures only_reads { OnlyReads H.tells H.state H.counts (fault_of result) h.old h.new }
{
    if pool.is_empty() {
        return Ok(false);
    }
    let (first, _) = pool[0];
    let root = root_value(h, frames, first)?;
    let serials = read_serials(h, frames, pool)?;
    let spared = places_sum(h, frames, pool, &serials, SlotCheck::LacksPointerTo(s))?.is_some();
    let root = named(&serials, read_pointer(pool, 0, 0, root));
    Ok(is_referenced_by(root, s, spared))
}
