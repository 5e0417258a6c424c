//! Writes a pool on a device as an export file.

ghost use Rattle.std.specs.Prelude.{◌≡◌, ◌*◌, ◌≤◌, length, Option, IfOk};
ghost use Rattle.pm_model.specs.Words.{reads};
ghost use Rattle.pm_model.specs.Reads.{OnlyReads};
ghost use Rattle.pud_defs.specs.declared.layout.TheConstants.{MACHINE_WORD, TYPE_RECORDS};
ghost use Rattle.pud_defs.specs.PoolGraphs.ExportFile.{words_in, file_graph};
ghost use Rattle.pud_defs.specs.PoolGraphs.Exported.{exported_words, IsExportable};
ghost use Rattle.pud_defs.specs.PoolGraphs.Graph.{Graph};
ghost use Rattle.pud_defs.specs.Formats.Image.{Image};
ghost use Rattle.pud_defs.specs.Formats.Layout.{device_words};
ghost use Rattle.pud_defs.specs.PoolGraphs.Stored.{IsOnDevice, stored_in};
ghost use Rattle.pud_defs.specs.RegistryTables.Types.{types_of};
ghost use Rattle.graph_read.specs.Bases.{HasLowBases};
ghost use Rattle.pud_export.specs.Exporting.{fault_in, StoresGraph, pool_words, pool_contents};

use crate::faults::ExportFault;
use crate::frames::push_frames;
use crate::front::front;
use crate::types::{live_types, read_types, types_among};
use pm_model::{Host, HostFault};
use pud_defs::layout::{MACHINE_WORD, MAX_FRAMES};
use pud_defs::records::Puddle;
use std::alloc::Global;

/// The export file of a pool with this UUID number. Its slots are read by the defined types `types`, and the file lists
/// the types `used`.
fn export_with<H: Host>(
    alloc: Global,
    h: &mut H,
    frames: u32,
    number: u64,
    pool: &[(u32, Puddle)],
    types: &[(u64, u64)],
    used: &[(u64, u64)],
) -> Result<Vec<u8>, ExportFault>
    requires few { frames ≤ MAX_FRAMES }
    requires room { device_words frames ≤ (H.counts h.old).size }
    requires known { IsOnDevice frames pool.now }
    requires few_types { length used.now ≤ TYPE_RECORDS }
    ensures words { H.tells → HasLowBases pool.now → (image : Image) → reads (H.state h.old).now.words ≡ image
        → IfOk result (λ bytes. words_in bytes.items ≡ exported_words (image MACHINE_WORD) number types.now used.now (stored_in frames pool.now image)) }
    ensures whole { IfOk result (λ bytes. length bytes.items ≡ 8 * length (words_in bytes.items)) }
    ensures only_reads { OnlyReads H.tells H.state H.counts (fault_in result) h.old h.new }
{
    let machine = h.load(MACHINE_WORD)?;
    let mut words = front(alloc, machine, number, pool, used)?;
    push_frames(h, frames, pool, types, &mut words)?;
    Ok(words.into_bytes())
}

/// The export file of a pool with this UUID number: the types that its objects have, the bases and the classes of its
/// puddles by ordinals, and its frames. Each pointer stands over the bases of the pool, whatever bases it stands over on
/// the device. Each word of a frame that no reader of graphs reads is 0. This is promised if the pool has a graph and its
/// bases are low enough that each puddle ends at 2^64 at most. Otherwise it is only promised that the bytes are whole
/// words.
///
/// The device has `frames` frames, at most 1,024, and the words that they need. `pool` has the frames and the records
/// of the pool's puddles by their ordinals, at most 16. `Memory` comes if an allocation fails. `Host` is the host's own
/// fault, never a cut. Nothing changes.
///
/// Each word of the pool's frames is read at most once, except that the serial and the type of a slot are read twice at
/// most. The first three words of a frame are not read. Room for the bytes is allocated once: 64 bytes, 16 for each
/// type and 16,400 for each puddle.
pub fn export_pool<H: Host>(
    alloc: Global,
    h: &mut H,
    frames: u32,
    number: u64,
    pool: &[(u32, Puddle)],
) -> Result<Vec<u8>, ExportFault>
    requires few { frames ≤ MAX_FRAMES }
    requires room { device_words frames ≤ (H.counts h.old).size }
    requires known { IsOnDevice frames pool.now }
    ensures words { H.tells → HasLowBases pool.now → (image : Image) → reads (H.state h.old).now.words ≡ image
        → (g : Graph) → StoresGraph frames pool.now image g → IfOk result (λ bytes. words_in bytes.items ≡ pool_words frames number pool.now image g) }
    ensures whole { IfOk result (λ bytes. length bytes.items ≡ 8 * length (words_in bytes.items)) }
    ensures file { H.tells → (image : Image) → reads (H.state h.old).now.words ≡ image
        → (g : Graph) → StoresGraph frames pool.now image g → IsExportable (types_of image) (stored_in frames pool.now image)
        → IfOk result (λ bytes. file_graph bytes.items ≡ Option.Some (pool_contents pool.now image g)) }
    ensures only_reads { OnlyReads H.tells H.state H.counts (fault_in result) h.old h.new }
{
    let types = read_types(h)?;
    let ids = live_types(h, frames, pool)?;
    let used = types_among(types.as_slice(), ids.as_slice());
    export_with(
        alloc,
        h,
        frames,
        number,
        pool,
        types.as_slice(),
        used.as_slice(),
    )
}
