//! The slots of a pool, as an export file has them.

ghost use Rattle.std.specs.Prelude.{◌≡◌, ◌≤◌, true, length, map, Option, IfOk};
ghost use Rattle.pm_model.specs.Words.{reads};
ghost use Rattle.pm_model.specs.Counts.{fault_of};
ghost use Rattle.pm_model.specs.Reads.{OnlyReads};
ghost use Rattle.pud_defs.specs.PoolGraphs.Graph.{fits_class};
ghost use Rattle.pud_defs.specs.PoolGraphs.Exported.{exported_value, exported_object, exported_slot};
ghost use Rattle.pud_defs.specs.Formats.Image.{Image};
ghost use Rattle.pud_defs.specs.Formats.Layout.{device_words};
ghost use Rattle.pud_defs.specs.PoolGraphs.Stored.{IsOnDevice, stored_in};
ghost use Rattle.puddle_header.specs.Places.{place_of_slot, IsSlotOf};
ghost use Rattle.graph_read.specs.Bases.{HasLowBases};
ghost use Rattle.pud_export.specs.Exporting.{slot_part, IfReadAt};

use crate::types::fitting_map;
use graph_read::{address_of, read_pointer};
use pm_model::{Host, HostFault};
use pud_defs::layout::{MAX_FIELDS, MAX_FRAMES};
use pud_defs::objects::is_free;
use pud_defs::records::{MAX_PUDDLES, Puddle, Slot};
use pud_defs::space::{MAX_SLOT_WORDS, SLOT_FIELDS_WORD, SLOT_SERIAL_WORD, SLOT_TYPE_WORD};
use pud_defs::type_map::{map_fields, map_is_pointer};
use puddle_header::{slot_field, slot_serial, slot_type};

/// How many words a slot has at most.
pub(crate) const SLOT: usize = MAX_SLOT_WORDS as usize;

/// The words of a slot. What comes after its last word may be anything.
pub(crate) type SlotWords = [u64; SLOT];

/// What a file has for field `f` of a slot, by the word of the field and the map of the slot's type. A pointer stands
/// over the pool's bases, whatever bases it stands over on the device. A number does not change.
fn exported_value(pool: &[(u32, Puddle)], type_map: u64, at: &Slot, f: u32, v: u64) -> u64
    requires few { length pool.now ≤ MAX_PUDDLES }
    requires within { IsSlotOf pool.now at.now }
    ensures { HasLowBases pool.now → result ≡ exported_value (map (λ e. e.1) pool.now) type_map (place_of_slot at.now) f v }
{
    if !map_is_pointer(type_map, f) {
        return v;
    }
    address_of(pool, read_pointer(pool, at.ordinal, at.slot + 1, v))
}

/// The words of the object in a slot whose serial and type were read: these two, its fields, and 0 after them. The slot
/// has room for an object of the type.
fn read_object<H: Host>(
    h: &mut H,
    frames: u32,
    pool: &[(u32, Puddle)],
    at: &Slot,
    serial: u64,
    id: u64,
    type_map: u64,
) -> Result<SlotWords, HostFault>
    requires few { frames ≤ MAX_FRAMES }
    requires room { device_words frames ≤ (H.counts h.old).size }
    requires known { IsOnDevice frames pool.now }
    requires within { IsSlotOf pool.now at.now }
    requires fits { fits_class at.now.class type_map ≡ true }
    ensures words { H.tells → HasLowBases pool.now → (image : Image) → reads (H.state h.old).now.words ≡ image
        → let st = stored_in frames pool.now image in let p = place_of_slot at.now in
        IfReadAt st p serial id (IfOk result (λ words. slot_part at.now.class words ≡ exported_object st p (Option.Some type_map))) }
    ensures only_reads { OnlyReads H.tells H.state H.counts (fault_of result) h.old h.new }
{
    let mut words = [0; SLOT];
    words[SLOT_SERIAL_WORD as usize] = serial;
    words[SLOT_TYPE_WORD as usize] = id;
    for f in 0..map_fields(type_map).min(MAX_FIELDS) {
        let v = slot_field(h, frames, at, f)?;
        words[(SLOT_FIELDS_WORD + f) as usize] = exported_value(pool, type_map, at, f, v);
    }
    Ok(words)
}

/// The words of a slot, read by these types: those of its object, or only 0 if the slot is free, its type is none of
/// these, or it has no room for an object of its type. The serial, the type and each field are read once; of a free slot
/// only the serial is read.
pub(crate) fn read_slot<H: Host>(
    h: &mut H,
    frames: u32,
    pool: &[(u32, Puddle)],
    types: &[(u64, u64)],
    at: &Slot,
) -> Result<SlotWords, HostFault>
    requires few { frames ≤ MAX_FRAMES }
    requires room { device_words frames ≤ (H.counts h.old).size }
    requires known { IsOnDevice frames pool.now }
    requires within { IsSlotOf pool.now at.now }
    ensures words { H.tells → HasLowBases pool.now → (image : Image) → reads (H.state h.old).now.words ≡ image
        → IfOk result (λ words. slot_part at.now.class words ≡ exported_slot types.now (stored_in frames pool.now image) (place_of_slot at.now)) }
    ensures only_reads { OnlyReads H.tells H.state H.counts (fault_of result) h.old h.new }
{
    let serial = slot_serial(h, frames, at)?;
    if is_free(serial) {
        return Ok([0; SLOT]);
    }
    let id = slot_type(h, frames, at)?;
    match fitting_map(types, id, at.class) {
        Some(type_map) => read_object(h, frames, pool, at, serial, id, type_map),
        None => Ok([0; SLOT]),
    }
}
