//! Places a file on a device as a pool.

ghost use Rattle.std.specs.Prelude.{◌≡◌, ◌≢◌, ◌<◌, ◌≤◌, ℕ, Option, All, length};
ghost use Rattle.pm_model.specs.Words.{Image, reads};
ghost use Rattle.pm_model.specs.Changes.{Changes};
ghost use Rattle.pm_model.specs.Counts.{after_fault, fault_of};
ghost use Rattle.log_replay.specs.Replaying.{Anything};
ghost use Rattle.pud_defs.specs.declared.layout.TheConstants.{NUMBER_LIMIT, TYPE_RECORDS};
ghost use Rattle.pud_defs.specs.declared.records.TheConstants.{POOL_RECORDS, MAX_PUDDLES};
ghost use Rattle.pud_defs.specs.PoolGraphs.ExportFile.{FileContents, file_graph};
ghost use Rattle.pud_defs.specs.Formats.Layout.{device_words};
ghost use Rattle.pud_defs.specs.RegistryTables.Tables.{tables_of, pool_in};
ghost use Rattle.registry.specs.Adding.{IsAddedWithin};
ghost use Rattle.pud_import.specs.Contents.{puddle_count_read, stored_held};
ghost use Rattle.pud_import.specs.Placing.{place_fault, refusal_in, refusal_by, FillsAndCommits, FillsAndImports, CommitsFile, ImportsFile};

use crate::file_view::FileView;
use crate::filling::fill_frames;
use crate::plan::find_plan;
use pm_model::{Host, HostFault};
use pud_defs::layout::{MAX_FRAMES, NUMBER_LIMIT, TYPE_RECORDS};
use pud_defs::records::{MAX_PUDDLES, Name, POOL_RECORDS, PoolRecord};
use registry::{NewPuddle, NewType, place_pool};

/// Why a file was not placed. Nothing changed, except possibly if the host failed.
#[derive(Clone, Copy, Debug, PartialEq, Eq, thiserror::Error)]
pub enum PlaceFault {
    /// A type of the file is defined with another map.
    #[error("a type of the file is defined with another map")]
    Clash,
    /// All records of the pool table are used, or too few records of the type table are free, or too few UUID numbers
    /// are left.
    #[error("there is no room for the pool or for its types")]
    Full,
    /// Too few frames are free.
    #[error("too few frames are free")]
    NoSpace,
    /// The host's own fault.
    #[error("the host failed")]
    Host(HostFault),
}

impl From<HostFault> for PlaceFault {
    ghost use Rattle.pud_import.specs.declared.placing.PlaceFault.TheVariants.{Host};

    ghost from_gives = { λ fault e. e ≡ Host fault };

    fn from(fault: HostFault) -> Self {
        PlaceFault::Host(fault)
    }
}

/// Fills the frames of the puddles with what the file has, and after that places the pool of this record in the slot,
/// with these puddles and these types, by one batch.
fn fill_and_place<H: Host>(
    h: &mut H,
    frames: u32,
    view: &FileView<'_>,
    slot: u32,
    rec: PoolRecord,
    types: &[NewType],
    puddles: &[NewPuddle],
) -> Result<(), HostFault>
    requires few { frames ≤ MAX_FRAMES }
    requires room { device_words frames ≤ (H.counts h.old).size }
    requires slot { slot < POOL_RECORDS }
    requires number { rec.number < NUMBER_LIMIT }
    requires types { length types.now ≤ TYPE_RECORDS }
    requires records { All (λ t. t.record_number < TYPE_RECORDS) types.now }
    requires count { length puddles.now ≡ puddle_count_read view.now }
    requires few_puddles { length puddles.now ≤ MAX_PUDDLES }
    requires within { All (IsAddedWithin frames) puddles.now }
    ensures commits { H.tells → FillsAndCommits frames (stored_held view.now) slot rec types.now puddles.now (fault_of result) (H.state h.old) (H.state h.new) }
    ensures places { H.tells → (size : ℕ) → size ≡ (H.counts h.old).size
        → FillsAndImports size frames view.now slot rec types.now puddles.now (fault_of result) (H.state h.old) (H.state h.new) }
    ensures any { H.tells → Changes Anything (fault_of result) (H.state h.old) (H.state h.new) }
    ensures cause { H.counts h.new ≡ after_fault (fault_of result) (H.counts h.old) }
{
    fill_frames(h, frames, view, puddles)?;
    place_pool(h, frames, slot, rec, types, puddles)
}

/// Makes a pool with this name, owner, group and mode that has the graph of the file, under UUID numbers of its own. It
/// defines the types of the file that are not defined.
///
/// The device has `frames` frames and the words that they need. If no pool has the name and the host does not fail
/// first, the errors are these. `Clash` comes exactly if a type of the file is defined with another map. `Full` comes
/// exactly if none is, but no record is free for the pool, or too few for its types, or too few UUID numbers are left.
/// `NoSpace` comes exactly if none of this is true, but too few frames are free. With these errors nothing changes.
///
/// Each puddle gets the base that it has in the file, unless a puddle of the device or one before it has that base;
/// then it gets the lowest free one. If each puddle got the base of the file, its pointers stand over its bases.
/// Otherwise its pointers do not change: they stand over the bases of the file, which are the old bases of the puddles,
/// and no step is rewritten yet.
///
/// The frames are filled first, with one fence for each frame, and after that one batch names them. Suppose each image
/// stands for one world, the tables are durable, a pool may have this name, owner, group and mode, and none of the
/// errors above applies. Then whatever a power loss leaves stands for that world, or for the world that has the pool
/// and its types. At `Ok` each image stands for the second world.
pub fn place<H: Host>(
    h: &mut H,
    frames: u32,
    view: &FileView<'_>,
    name: Name,
    uid: u32,
    gid: u32,
    mode: u32,
) -> Result<(), PlaceFault>
    requires few { frames ≤ MAX_FRAMES }
    requires room { device_words frames ≤ (H.counts h.old).size }
    ensures refusal { H.tells → (image : Image) → reads (H.state h.old).now.words ≡ image → place_fault result ≡ Option.None
        → (file : FileContents) → file_graph view.now ≡ Option.Some file → pool_in (tables_of frames image) name ≡ Option.None → refusal_in result ≡ refusal_by frames image file }
    ensures unchanged { H.tells → (image : Image) → reads (H.state h.old).now.words ≡ image
        → (file : FileContents) → file_graph view.now ≡ Option.Some file → pool_in (tables_of frames image) name ≡ Option.None → refusal_by frames image file ≢ Option.None
        → H.state h.new ≡ H.state h.old }
    ensures commits { H.tells → (image : Image) → reads (H.state h.old).now.words ≡ image
        → CommitsFile frames image view.now name uid gid mode (place_fault result) (H.state h.old) (H.state h.new) }
    ensures places { H.tells → (size : ℕ) → size ≡ (H.counts h.old).size
        → ImportsFile size frames view.now name uid gid mode (place_fault result) (H.state h.old) (H.state h.new) }
    ensures any { H.tells → Changes Anything (place_fault result) (H.state h.old) (H.state h.new) }
    ensures cause { H.counts h.new ≡ after_fault (place_fault result) (H.counts h.old) }
{
    let plan = find_plan(h, frames, view, name)?;
    let types = plan.types.as_slice();
    let puddles = plan.puddles.as_slice();
    let rec = PoolRecord {
        name,
        uid,
        gid,
        mode,
        number: plan.number,
    };
    Ok(fill_and_place(h, frames, view, plan.slot, rec, types, puddles)?)
}
