//! Finds the lowest free slot of a class in a pool's puddles, and frees slots.
//!
//! Each call takes the number of the device's frames, at most 1,024. The device has the words that so many frames need.
//! The calls work on every content of the device.
#![tactic(auto)]

ghost use Rattle.std.specs.Prelude.{◌≡◌, ◌↔◌, ◌<◌, ◌≤◌, true, Option, Result, IfOk, IfSome, IfNone};
ghost use Rattle.pm_model.specs.Words.{Image, reads};
ghost use Rattle.pm_model.specs.Counts.{after_fault, fault_of};
ghost use Rattle.pm_model.specs.Reads.{OnlyReads};
ghost use Rattle.pm_model.specs.Changes.{only, Writes};
ghost use Rattle.pud_defs.specs.Formats.Layout.{device_words};
ghost use Rattle.pud_defs.specs.Formats.Geometry.{class_slots};
ghost use Rattle.pud_defs.specs.PoolGraphs.Stored.{IsOnDevice, stored_in};
ghost use Rattle.graph_laws.specs.Slots.{AreAllLive, IsLowestFreeSlot};
ghost use Rattle.puddle_header.specs.Places.{places_in, is_slot_in, place_of_slot, IsSlotOf};
ghost use Rattle.object_alloc.specs.Alloc.{class_of_place, is_free_of, AreLiveBefore, alloc_fault, serial_word_at};

use pm_model::{Host, HostFault};
use pm_persist::write_range;
use pud_defs::layout::MAX_FRAMES;
use pud_defs::objects::is_free;
use pud_defs::records::{Puddle, Slot};
use pud_defs::space::{
    SLOT_SERIAL_WORD, frame_at, ordinal_of, places_among, slot_begins, slot_of, slots_of,
};
use puddle_header::{serial_at, slot_at_place};

/// Why no slot was found. Nothing changed.
#[derive(Clone, Copy, Debug, PartialEq, Eq, thiserror::Error)]
pub enum AllocFault {
    /// Every slot of the class is live.
    #[error("every slot of the class is live")]
    Full,
    /// The host's own fault.
    #[error("the host failed")]
    Host(HostFault),
}

impl From<HostFault> for AllocFault {
    ghost use Rattle.object_alloc.specs.declared.AllocFault.TheVariants.{Host};

    ghost from_gives = { λ fault e. e ≡ Host fault };

    fn from(fault: HostFault) -> Self {
        AllocFault::Host(fault)
    }
}

/// Whether the place is a free slot of a puddle of this class. One word is read, and none if the place is no slot of the
/// class.
fn is_free_place<H: Host>(
    h: &mut H,
    frames: u32,
    pool: &[(u32, Puddle)],
    class: u32,
    place: u32,
) -> Result<bool, HostFault>
    requires few { frames ≤ MAX_FRAMES }
    requires room { device_words frames ≤ (H.counts h.old).size }
    requires known { IsOnDevice frames pool.now }
    requires within { place < places_in pool.now }
    ensures free { H.tells → (image : Image) → reads (H.state h.old).now.words ≡ image
        → IfOk result (λ free. free ≡ is_free_of class (stored_in frames pool.now image) place) }
    ensures slot { IfOk result (λ free. free ≡ true → is_slot_in pool.now place ≡ true) }
    ensures of_class { IfOk result (λ free. free ≡ true → class_of_place pool.now place ≡ class) }
    ensures only_reads { OnlyReads H.tells H.state H.counts (fault_of result) h.old h.new }
{
    let (_, puddle) = pool[ordinal_of(place) as usize];
    if puddle.class != class {
        return Ok(false);
    }
    if slot_of(place) >= slots_of(&puddle) {
        return Ok(false);
    }
    Ok(is_free(serial_at(h, frames, pool, place)?))
}

/// Returns the pool's lowest free slot of this class from the place `from` on, or None if every slot of the class from
/// there on is live. Each slot of the class before `from` is live.
fn free_place<H: Host>(
    h: &mut H,
    frames: u32,
    pool: &[(u32, Puddle)],
    class: u32,
    from: u32,
) -> Result<Option<u32>, HostFault>
    requires few { frames ≤ MAX_FRAMES }
    requires room { device_words frames ≤ (H.counts h.old).size }
    requires known { IsOnDevice frames pool.now }
    ensures free { H.tells → (image : Image) → reads (H.state h.old).now.words ≡ image → AreLiveBefore class (stored_in frames pool.now image) from
        → IfOk result (λ found. IfSome found (IsLowestFreeSlot class (stored_in frames pool.now image))) }
    ensures full { H.tells → (image : Image) → reads (H.state h.old).now.words ≡ image → AreLiveBefore class (stored_in frames pool.now image) from
        → IfOk result (λ found. IfNone found (AreAllLive class (stored_in frames pool.now image))) }
    ensures within { IfOk result (λ found. IfSome found (λ place. place < places_in pool.now)) }
    ensures slot { IfOk result (λ found. IfSome found (λ place. is_slot_in pool.now place ≡ true)) }
    ensures of_class { IfOk result (λ found. IfSome found (λ place. class_of_place pool.now place ≡ class)) }
    ensures only_reads { OnlyReads H.tells H.state H.counts (fault_of result) h.old h.new }
{
    for place in from..places_among(pool.len() as u32) {
        if is_free_place(h, frames, pool, class, place)? {
            return Ok(Some(place));
        }
    }
    Ok(None)
}

/// Finds the lowest free slot of a class: in the puddle of the lowest ordinal that has a free one, among the puddles of
/// this class. The pool is given by the frames and the records of its puddles in the order of their ordinals, at most
/// 16. The search starts at the place `from`, and each slot of the class before it is live.
///
/// If the host does not fail first, the error is `Full` exactly if every slot of the class in these puddles is live. The
/// call reads the slots of the class in order, one word of each, from that place up to the first free one.
pub fn alloc_slot_from<H: Host>(
    h: &mut H,
    frames: u32,
    pool: &[(u32, Puddle)],
    class: u32,
    from: u32,
) -> Result<Slot, AllocFault>
    requires few { frames ≤ MAX_FRAMES }
    requires room { device_words frames ≤ (H.counts h.old).size }
    requires known { IsOnDevice frames pool.now }
    ensures free { H.tells → (image : Image) → reads (H.state h.old).now.words ≡ image → AreLiveBefore class (stored_in frames pool.now image) from
        → IfOk result (λ slot. IsLowestFreeSlot class (stored_in frames pool.now image) (place_of_slot slot)) }
    ensures full { H.tells → (image : Image) → reads (H.state h.old).now.words ≡ image → AreLiveBefore class (stored_in frames pool.now image) from
        → alloc_fault result ≡ Option.None → (result ≡ Result.Err AllocFault.Full) ↔ AreAllLive class (stored_in frames pool.now image) }
    ensures within { IfOk result (IsSlotOf pool.now) }
    ensures of_class { IfOk result (λ slot. slot.class ≡ class) }
    ensures only_reads { OnlyReads H.tells H.state H.counts (alloc_fault result) h.old h.new }
{
    match free_place(h, frames, pool, class, from)? {
        Some(place) => Ok(slot_at_place(pool, place)),
        None => Err(AllocFault::Full),
    }
}

/// Finds the lowest free slot of a class in a pool, as `alloc_slot_from` does from the first place on.
///
/// If the host does not fail first, the error is `Full` exactly if every slot of the class in these puddles is live.
pub fn alloc_slot<H: Host>(
    h: &mut H,
    frames: u32,
    pool: &[(u32, Puddle)],
    class: u32,
) -> Result<Slot, AllocFault>
    requires few { frames ≤ MAX_FRAMES }
    requires room { device_words frames ≤ (H.counts h.old).size }
    requires known { IsOnDevice frames pool.now }
    ensures free { H.tells → (image : Image) → reads (H.state h.old).now.words ≡ image
        → IfOk result (λ slot. IsLowestFreeSlot class (stored_in frames pool.now image) (place_of_slot slot)) }
    ensures full { H.tells → (image : Image) → reads (H.state h.old).now.words ≡ image → alloc_fault result ≡ Option.None
        → (result ≡ Result.Err AllocFault.Full) ↔ AreAllLive class (stored_in frames pool.now image) }
    ensures within { IfOk result (IsSlotOf pool.now) }
    ensures of_class { IfOk result (λ slot. slot.class ≡ class) }
    ensures only_reads { OnlyReads H.tells H.state H.counts (alloc_fault result) h.old h.new }
{
    alloc_slot_from(h, frames, pool, class, 0)
}

/// Frees a slot: writes 0 to its serial word and marks the word, so that it is durable after the next fence. No other
/// word is written.
///
/// The slot lies in a frame of the device. The only errors are the host's own. The call takes two device steps and no
/// fence.
#[tactic(auto, using(pud_defs::proofs::Formats::Geometry::slot_end, pud_defs::proofs::Formats::Geometry::some_words))]
pub fn free_slot<H: Host>(h: &mut H, frames: u32, slot: Slot) -> Result<(), HostFault>
    requires few { frames ≤ MAX_FRAMES }
    requires room { device_words frames ≤ (H.counts h.old).size }
    requires known { slot.frame < frames }
    requires within { slot.slot < class_slots slot.class }
    ensures writes { H.tells → Writes (only (serial_word_at frames slot) 0) (fault_of result) (H.state h.old) (H.state h.new) }
    ensures cause { H.counts h.new ≡ after_fault (fault_of result) (H.counts h.old) }
{
    let at = frame_at(frames, slot.frame) + slot_begins(&slot) + SLOT_SERIAL_WORD;
    write_range(h, at, &[0])
}
