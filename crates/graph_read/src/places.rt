//! Finds where an object stands: the lowest place of a pool whose slot has a serial.
//!
//! Places are counted through the pool's puddles in the order of their ordinals. A place after the last slot of its
//! puddle is no slot, and is passed over.

ghost use Rattle.std.specs.Prelude.{◌≡◌, ◌+◌, ◌<◌, ◌≤◌, Option, true, IfOk, IfSome, is_none, length, option_map};
ghost use Rattle.pm_model.specs.Words.{Image, reads};
ghost use Rattle.pm_model.specs.Counts.{fault_of};
ghost use Rattle.pm_model.specs.Reads.{OnlyReads};
ghost use Rattle.pud_defs.specs.declared.records.Slot.{Slot};
ghost use Rattle.pud_defs.specs.Formats.Layout.{device_words};
ghost use Rattle.pud_defs.specs.Formats.Geometry.{class_slots, places_among};
ghost use Rattle.pud_defs.specs.RegistryTables.Types.{types_of};
ghost use Rattle.pud_defs.specs.PoolGraphs.Stored.{IsOnDevice, stored_in};
ghost use Rattle.pud_defs.specs.PoolGraphs.Graph.{Graph, graph_of, object_in};
ghost use Rattle.puddle_header.specs.Places.{places_in, is_slot_in, place_of_slot, IsSlotOf};
ghost use Rattle.graph_read.specs.Reading.{class_in, place_in_pool};

use pm_model::{HostFault, Loads};
use pud_defs::layout::MAX_FRAMES;
use pud_defs::records::{MAX_PUDDLES, Puddle, Slot};
use pud_defs::space::{places_among, slots_of};
use puddle_header::{serial_at, slot_at_place};

/// The place after the last slot of the ordinal's puddle.
#[tactic(auto, using(pud_defs::proofs::Formats::Geometry::few_slots))]
pub(crate) fn slots_end(pool: &[(u32, Puddle)], ordinal: u32) -> u32
    requires few { length pool.now ≤ MAX_PUDDLES }
    requires within { ordinal < length pool.now }
    ensures end { result ≡ places_among ordinal + class_slots (class_in pool.now ordinal) }
    ensures most { result ≤ places_among (ordinal + 1) }
{
    let (_, puddle) = pool[ordinal as usize];
    places_among(ordinal) + slots_of(&puddle)
}

/// Finds the lowest place of the pool whose slot has serial `s`. The answer is None exactly if no slot has it, or `s`
/// is 0. Each slot is read at most once.
pub fn find_place<H: Loads>(
    h: &mut H,
    frames: u32,
    pool: &[(u32, Puddle)],
    s: u64,
) -> Result<Option<u32>, HostFault>
    requires few { frames ≤ MAX_FRAMES }
    requires room { device_words frames ≤ (H.counts h.old).size }
    requires known { IsOnDevice frames pool.now }
    ensures found { H.tells → (image : Image) → reads (H.state h.old).now.words ≡ image
        → IfOk result (λ found. found ≡ place_in_pool frames pool.now image s) }
    ensures within { IfOk result (λ found. IfSome found (λ p. p < places_in pool.now)) }
    ensures slot { IfOk result (λ found. IfSome found (λ p. is_slot_in pool.now p ≡ true)) }
    ensures only_reads { OnlyReads H.tells H.state H.counts (fault_of result) h.old h.new }
{
    if s == 0 {
        return Ok(None);
    }
    for ordinal in 0..pool.len() as u32 {
        for place in places_among(ordinal)..slots_end(pool, ordinal) {
            if serial_at(h, frames, pool, place)? == s {
                return Ok(Some(place));
            }
        }
    }
    Ok(None)
}

/// Finds the slot of the live object of serial `s`. The answer is None exactly if no live object has the serial. If
/// several slots have it, the answer is the slot of the lowest place.
pub fn find_serial<H: Loads>(
    h: &mut H,
    frames: u32,
    pool: &[(u32, Puddle)],
    s: u64,
) -> Result<Option<Slot>, HostFault>
    requires few { frames ≤ MAX_FRAMES }
    requires room { device_words frames ≤ (H.counts h.old).size }
    requires known { IsOnDevice frames pool.now }
    ensures found { H.tells → (image : Image) → reads (H.state h.old).now.words ≡ image
        → IfOk result (λ found. option_map place_of_slot found ≡ place_in_pool frames pool.now image s) }
    ensures object { H.tells → (image : Image) → reads (H.state h.old).now.words ≡ image
        → (g : Graph) → graph_of (types_of image) (stored_in frames pool.now image) ≡ Option.Some g
        → IfOk result (λ found. is_none found ≡ is_none (object_in s g)) }
    ensures within { IfOk result (λ found. IfSome found (IsSlotOf pool.now)) }
    ensures only_reads { OnlyReads H.tells H.state H.counts (fault_of result) h.old h.new }
{
    match find_place(h, frames, pool, s)? {
        Some(place) => Ok(Some(slot_at_place(pool, place))),
        None => Ok(None),
    }
}
