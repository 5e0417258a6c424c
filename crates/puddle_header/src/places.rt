//! The slots of a pool by their places.
//!
//! A place is the number of a slot, counted over the pool's puddles in the order of their ordinals. A pool is given by
//! the frames and the records of its puddles in that order, at most 16.

ghost use Rattle.std.specs.Prelude.{◌≡◌, ◌<◌, ◌≤◌, true, IfOk};
ghost use Rattle.pm_model.specs.Words.{Image, reads};
ghost use Rattle.pm_model.specs.Counts.{fault_of};
ghost use Rattle.pm_model.specs.Reads.{OnlyReads};
ghost use Rattle.pud_defs.specs.Formats.Layout.{device_words};
ghost use Rattle.pud_defs.specs.PoolGraphs.Stored.{IsOnDevice, stored_in, place_serial};
ghost use Rattle.puddle_header.specs.Places.{places_in, is_slot_in, place_of_slot, IsSlotOf};

use crate::slot_serial;
use pm_model::{HostFault, Loads};
use pud_defs::layout::MAX_FRAMES;
use pud_defs::records::{Puddle, Slot};
use pud_defs::space::{ordinal_of, slot_of, slots_of};

/// Returns the slot at a place, which is a slot.
pub fn slot_at_place(pool: &[(u32, Puddle)], place: u32) -> Slot
    requires within { place < places_in pool.now }
    requires slot { is_slot_in pool.now place ≡ true }
    ensures place { place_of_slot result ≡ place }
    ensures within { IsSlotOf pool.now result }
{
    let ordinal = ordinal_of(place);
    let (frame, puddle) = pool[ordinal as usize];
    Slot {
        frame,
        ordinal,
        slot: slot_of(place),
        class: puddle.class,
    }
}

/// Loads the serial at a place, 0 if nothing lives there. One word is read, and none if the place is no slot.
pub fn serial_at<H: Loads>(
    h: &mut H,
    frames: u32,
    pool: &[(u32, Puddle)],
    place: u32,
) -> Result<u64, HostFault>
    requires few { frames ≤ MAX_FRAMES }
    requires room { device_words frames ≤ (H.counts h.old).size }
    requires known { IsOnDevice frames pool.now }
    requires within { place < places_in pool.now }
    ensures serial { H.tells → (image : Image) → reads (H.state h.old).now.words ≡ image
        → IfOk result (λ v. v ≡ place_serial (stored_in frames pool.now image) place) }
    ensures only_reads { OnlyReads H.tells H.state H.counts (fault_of result) h.old h.new }
{
    let (_, puddle) = pool[ordinal_of(place) as usize];
    if slot_of(place) >= slots_of(&puddle) {
        return Ok(0);
    }
    let at = slot_at_place(pool, place);
    slot_serial(h, frames, &at)
}
