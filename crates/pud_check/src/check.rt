//! Prints which pools are sound, and how many objects and puddles they have.

ghost use Rattle.std.specs.Prelude.{◌≡◌, ◌≢◌, ◌≤◌, ◌<◌, ℕ, Option, All, flat_map};
ghost use Rattle.pm_model.specs.Words.{reads};
ghost use Rattle.pm_model.specs.Counts.{after_fault, fault_of};
ghost use Rattle.pm_model.specs.Calls.{Says};
ghost use Rattle.pud_defs.specs.declared.layout.TheConstants.{MAX_FRAMES};
ghost use Rattle.pud_defs.specs.declared.records.TheConstants.{POOL_RECORDS};
ghost use Rattle.pud_defs.specs.Output.CheckText.{check_text};
ghost use Rattle.pud_defs.specs.Formats.Image.{Image};
ghost use Rattle.pud_defs.specs.Formats.Layout.{device_words};
ghost use Rattle.pud_defs.specs.RegistryTables.Registry.{frames_of};
ghost use Rattle.pud_defs.specs.RegistryTables.SoundTables.{HasSoundTables};
ghost use Rattle.pud_defs.specs.RegistryTables.Tables.{tables_of};
ghost use Rattle.pud_defs.specs.StateMachine.World.{stored_by};
ghost use Rattle.pool_table.specs.InOrder.{IsInSlot};
ghost use Rattle.puddle_table.specs.Placed.{HoldsPlaces};
ghost use Rattle.pud_check.specs.Checked.{pool_checked, listed_check};

use crate::text::{count_line, objects_line};
use graph_read::pool_totals;
use pm_model::{Host, HostFault};
use pool_table::in_order;
use pud_defs::records::PoolRecord;
use puddle_table::{Places, find_places};

/// Prints the line of the pool with this slot and record.
fn say_pool<H: Host>(
    h: &mut H,
    frames: u32,
    places: &Places,
    slot: u32,
    rec: &PoolRecord,
) -> Result<(), HostFault>
    requires few { frames ≤ MAX_FRAMES }
    requires room { device_words frames ≤ (H.counts h.old).size }
    requires slot { slot < POOL_RECORDS }
    requires count { (places.now).count ≡ frames }
    ensures says { H.tells → (image : Image) → reads (H.state h.old).now.words ≡ image → HoldsPlaces (tables_of frames image) places.now
        → Says (pool_checked frames image (slot, rec.now)) (fault_of result) (H.state h.old) (H.state h.new) }
    ensures cause { H.counts h.new ≡ after_fault (fault_of result) (H.counts h.old) }
    ensures never_cut { fault_of result ≢ Option.Some HostFault.Cut }
{
    let puddles = places.of_pool(h, slot)?;
    let puddles = puddles.as_slice();
    let objects = pool_totals(h, frames, puddles)?.map(|totals| totals.objects);
    h.say(objects_line(&rec.name, objects, puddles.len() as u32).as_slice())
}

/// Prints the lines of the pools of these records in order. Each record comes with its slot.
fn say_pools<H: Host>(
    h: &mut H,
    frames: u32,
    places: &Places,
    records: &[(u32, PoolRecord)],
) -> Result<(), HostFault>
    requires few { frames ≤ MAX_FRAMES }
    requires room { device_words frames ≤ (H.counts h.old).size }
    requires slots { All IsInSlot records.now }
    requires count { (places.now).count ≡ frames }
    ensures says { H.tells → (image : Image) → reads (H.state h.old).now.words ≡ image → HoldsPlaces (tables_of frames image) places.now
        → Says (flat_map (pool_checked frames image) records.now) (fault_of result) (H.state h.old) (H.state h.new) }
    ensures cause { H.counts h.new ≡ after_fault (fault_of result) (H.counts h.old) }
    ensures never_cut { fault_of result ≢ Option.Some HostFault.Cut }
{
    for (slot, rec) in records {
        say_pool(h, frames, places, *slot, rec)?;
    }
    Ok(())
}

/// Prints which pools are sound. For each used pool record, by ascending names, it prints
/// `NAME sound objects O puddles K` if the pool's puddles store a graph, and `NAME wild` if they store none. Then it
/// prints `pools P`, the number of these lines.
///
/// If several pool records have one name, that in the lowest slot counts. The puddles of a pool are those of the
/// ordinals from 0 up to the first that no record has. If the tables are sound, these are all its puddles.
///
/// The device has the words that `frames` frames need, at most 1,024, whatever they store. The call writes nothing to
/// the device and allocates no memory. The only errors are the host's own. A prefix of the text may then be printed.
pub fn check_pools<H: Host>(h: &mut H, frames: u32) -> Result<(), HostFault>
    requires few { frames ≤ MAX_FRAMES }
    requires room { device_words frames ≤ (H.counts h.old).size }
    ensures says { H.tells → (image : Image) → reads (H.state h.old).now.words ≡ image
        → Says (listed_check frames image) (fault_of result) (H.state h.old) (H.state h.new) }
    ensures sound { H.tells → (image : Image) → reads (H.state h.old).now.words ≡ image → (next : ℕ) → HasSoundTables next (tables_of frames image)
        → frames ≡ frames_of image → Says (check_text (stored_by image)) (fault_of result) (H.state h.old) (H.state h.new) }
    ensures cause { H.counts h.new ≡ after_fault (fault_of result) (H.counts h.old) }
    ensures never_cut { fault_of result ≢ Option.Some HostFault.Cut }
{
    let places = find_places(h, frames)?;
    let records = in_order(h)?;
    say_pools(h, frames, &places, records.as_slice())?;
    h.say(count_line(records.len() as u32).as_slice())
}
