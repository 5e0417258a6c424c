//! Prints what a device stores: which pools it has, where their puddles are, and what the pools hold.
#![tactic(auto)]

mod check;
mod laws;
mod sums;
mod text;

ghost use Rattle.std.specs.Prelude.{◌≡◌, ◌≢◌, ◌≤◌, ◌<◌, ℕ, Option, All, flat_map};
ghost use Rattle.pm_model.specs.Words.{reads};
ghost use Rattle.pm_model.specs.Counts.{after_fault, fault_of};
ghost use Rattle.pm_model.specs.Calls.{Says};
ghost use Rattle.pud_defs.specs.declared.layout.TheConstants.{MAX_FRAMES, MACHINE_WORD, NEXT_NUMBER_WORD};
ghost use Rattle.pud_defs.specs.declared.records.TheConstants.{POOL_RECORDS, MAX_PUDDLES};
ghost use Rattle.pud_defs.specs.Formats.Image.{Image};
ghost use Rattle.pud_defs.specs.Formats.Layout.{tables_end};
ghost use Rattle.pud_defs.specs.Output.LayoutText.{layout_text};
ghost use Rattle.pud_defs.specs.RegistryTables.Registry.{frames_of};
ghost use Rattle.pud_defs.specs.RegistryTables.SoundTables.{HasSoundTables};
ghost use Rattle.pud_defs.specs.RegistryTables.Tables.{tables_of};
ghost use Rattle.pool_table.specs.InOrder.{IsInSlot};
ghost use Rattle.puddle_table.specs.Placed.{HoldsPlaces};
ghost use Rattle.pud_check.specs.LayoutListed.{puddle_listed, puddles_listed, pool_listed, listed_layout};

pub use check::check_pools;
pub use laws::{sound_tables_are_checked, sound_tables_are_laid_out, sound_tables_are_summed_up};
use pm_model::{Host, HostFault};
use pool_table::in_order;
use pud_defs::layout::{MACHINE_WORD, NEXT_NUMBER_WORD};
use pud_defs::records::{MAX_PUDDLES, PoolRecord};
use puddle_table::{Places, find_places};
pub use sums::{say_sum, say_summary};
use text::{frames_line, pool_line, puddle_line};

/// Prints the line of the puddle of this ordinal of the pool in this slot, if the pool has it.
fn say_puddle<H: Host>(
    h: &mut H,
    id: u64,
    places: &Places,
    slot: u32,
    ordinal: u32,
) -> Result<(), HostFault>
    requires slot { slot < POOL_RECORDS }
    requires ordinal { ordinal < MAX_PUDDLES }
    requires table { tables_end (places.now).count ≤ (H.counts h.old).size }
    ensures says { H.tells → (image : Image) → reads (H.state h.old).now.words ≡ image → HoldsPlaces (tables_of (places.now).count image) places.now
        → Says (puddle_listed id (tables_of (places.now).count image) slot ordinal) (fault_of result) (H.state h.old) (H.state h.new) }
    ensures cause { H.counts h.new ≡ after_fault (fault_of result) (H.counts h.old) }
    ensures never_cut { fault_of result ≢ Option.Some HostFault.Cut }
{
    match places.puddle(h, slot, ordinal)? {
        None => Ok(()),
        Some((frame, rec)) => h.say(puddle_line(id, frame, &rec).as_slice()),
    }
}

/// Prints the lines of the puddles of the pool in this slot, by ascending ordinals.
fn say_puddles<H: Host>(h: &mut H, id: u64, places: &Places, slot: u32) -> Result<(), HostFault>
    requires slot { slot < POOL_RECORDS }
    requires table { tables_end (places.now).count ≤ (H.counts h.old).size }
    ensures says { H.tells → (image : Image) → reads (H.state h.old).now.words ≡ image → HoldsPlaces (tables_of (places.now).count image) places.now
        → Says (puddles_listed id (tables_of (places.now).count image) slot) (fault_of result) (H.state h.old) (H.state h.new) }
    ensures cause { H.counts h.new ≡ after_fault (fault_of result) (H.counts h.old) }
    ensures never_cut { fault_of result ≢ Option.Some HostFault.Cut }
{
    for ordinal in 0..MAX_PUDDLES {
        say_puddle(h, id, places, slot, ordinal)?;
    }
    Ok(())
}

/// Prints the lines of the pool with this slot and record.
fn say_pool<H: Host>(
    h: &mut H,
    id: u64,
    places: &Places,
    slot: u32,
    rec: &PoolRecord,
) -> Result<(), HostFault>
    requires slot { slot < POOL_RECORDS }
    requires table { tables_end (places.now).count ≤ (H.counts h.old).size }
    ensures says { H.tells → (image : Image) → reads (H.state h.old).now.words ≡ image → HoldsPlaces (tables_of (places.now).count image) places.now
        → Says (pool_listed id (tables_of (places.now).count image) (slot, rec.now)) (fault_of result) (H.state h.old) (H.state h.new) }
    ensures cause { H.counts h.new ≡ after_fault (fault_of result) (H.counts h.old) }
    ensures never_cut { fault_of result ≢ Option.Some HostFault.Cut }
{
    h.say(pool_line(id, rec).as_slice())?;
    say_puddles(h, id, places, slot)
}

/// Prints the lines of the pools of these records in order. Each record comes with its slot.
fn say_pools<H: Host>(
    h: &mut H,
    id: u64,
    places: &Places,
    records: &[(u32, PoolRecord)],
) -> Result<(), HostFault>
    requires slots { All IsInSlot records.now }
    requires table { tables_end (places.now).count ≤ (H.counts h.old).size }
    ensures says { H.tells → (image : Image) → reads (H.state h.old).now.words ≡ image → HoldsPlaces (tables_of (places.now).count image) places.now
        → Says (flat_map (pool_listed id (tables_of (places.now).count image)) records.now) (fault_of result) (H.state h.old) (H.state h.new) }
    ensures cause { H.counts h.new ≡ after_fault (fault_of result) (H.counts h.old) }
    ensures never_cut { fault_of result ≢ Option.Some HostFault.Cut }
{
    for (slot, rec) in records {
        say_pool(h, id, places, *slot, rec)?;
    }
    Ok(())
}

/// Prints where everything is: a line on the frames, and then for each used pool record, by ascending names, a line on
/// the pool and a line on each of its puddles, by the ordinals from 0 to 15.
///
/// The lines are `frames F used U next N`, `pool NAME uid gid mode identifier` and
/// `puddle ordinal frame base old_base frontier identifier class`. Addresses have twelve hexadecimal digits, the mode has
/// three octal digits, and all other numbers are decimal. If several pool records have one name, that in the lowest
/// slot counts. If several puddle records have one pool and ordinal, that of the lowest frame counts.
///
/// The device has the tables of `frames` frames, at most 1,024, whatever they store. The call writes nothing to the
/// device and allocates no memory. The only errors are the host's own. A prefix of the text may then be printed.
pub fn say_layout<H: Host>(h: &mut H, frames: u32) -> Result<(), HostFault>
    requires few { frames ≤ MAX_FRAMES }
    requires table { tables_end frames ≤ (H.counts h.old).size }
    ensures says { H.tells → (image : Image) → reads (H.state h.old).now.words ≡ image
        → Says (listed_layout (image MACHINE_WORD) (image NEXT_NUMBER_WORD) (tables_of frames image)) (fault_of result) (H.state h.old) (H.state h.new) }
    ensures sound { H.tells → (image : Image) → reads (H.state h.old).now.words ≡ image → (next : ℕ) → HasSoundTables next (tables_of frames image)
        → frames ≡ frames_of image → Says (layout_text image) (fault_of result) (H.state h.old) (H.state h.new) }
    ensures cause { H.counts h.new ≡ after_fault (fault_of result) (H.counts h.old) }
    ensures never_cut { fault_of result ≢ Option.Some HostFault.Cut }
{
    let places = find_places(h, frames)?;
    let records = in_order(h)?;
    let id = h.load(MACHINE_WORD)?;
    let next = h.load(NEXT_NUMBER_WORD)?;
    h.say(frames_line(frames, places.used(), next).as_slice())?;
    say_pools(h, id, &places, records.as_slice())
}
