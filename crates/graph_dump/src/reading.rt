//! Reads one object from the device.

ghost use Rattle.std.specs.Prelude.{◌≡◌, ◌<◌, ◌≤◌, true, take, IfOk};
ghost use Rattle.pm_model.specs.Words.{Image, reads};
ghost use Rattle.pm_model.specs.Counts.{fault_of};
ghost use Rattle.pm_model.specs.Reads.{OnlyReads};
ghost use Rattle.pud_defs.specs.Formats.Layout.{device_words};
ghost use Rattle.pud_defs.specs.PoolGraphs.Stored.{IsOnDevice};
ghost use Rattle.pud_defs.specs.PoolGraphs.Graph.{field_count, fits_class, object_at};
ghost use Rattle.puddle_header.specs.Places.{places_in, is_slot_in, place_of_slot, IsSlotOf};
ghost use Rattle.graph_read.specs.Reading.{table_in};
ghost use Rattle.graph_dump.specs.Read.{field_values};

use crate::object::{Fields, NO_FIELDS, ObjectRead};
use graph_read::{find_fitting, type_at, value_at};
use pm_model::{Host, HostFault};
use pud_defs::layout::{MAX_FIELDS, MAX_FRAMES};
use pud_defs::records::{Puddle, Slot};
use pud_defs::type_map::map_fields;
use puddle_header::slot_at_place;

/// How many fields an object has by the map word of its type, at most 30.
fn field_count(map_word: u64) -> u32
    ensures count { result ≡ field_count map_word }
    ensures within { result ≤ MAX_FIELDS }
{
    map_fields(map_word).min(MAX_FIELDS)
}

/// Reads the fields of a slot by the map word of its type. The slot has room for the fields. The values after the last
/// field may be any.
fn read_fields<H: Host>(
    h: &mut H,
    frames: u32,
    pool: &[(u32, Puddle)],
    at: &Slot,
    map_word: u64,
) -> Result<Fields, HostFault>
    requires few { frames ≤ MAX_FRAMES }
    requires room { device_words frames ≤ (H.counts h.old).size }
    requires known { IsOnDevice frames pool.now }
    requires within { IsSlotOf pool.now at.now }
    requires fits { fits_class at.now.class map_word ≡ true }
    ensures fields { H.tells → (image : Image) → reads (H.state h.old).now.words ≡ image
        → IfOk result (λ values. take (field_count map_word) values ≡ field_values frames pool.now image (place_of_slot at.now) map_word) }
    ensures only_reads { OnlyReads H.tells H.state H.counts (fault_of result) h.old h.new }
{
    let mut values = NO_FIELDS;
    for f in 0..field_count(map_word) {
        values[f as usize] = value_at(h, frames, pool, at, map_word, f)?;
    }
    Ok(values)
}

/// Reads the object at a place, which is a slot. The object has no fields if its type is not defined or has more fields
/// than the slot has room for. The type and each field are read once. For a pointer the serial of the slot to which it
/// leads is read too.
pub(crate) fn read_object<H: Host>(
    h: &mut H,
    frames: u32,
    pool: &[(u32, Puddle)],
    place: u32,
) -> Result<ObjectRead, HostFault>
    requires few { frames ≤ MAX_FRAMES }
    requires room { device_words frames ≤ (H.counts h.old).size }
    requires known { IsOnDevice frames pool.now }
    requires within { place < places_in pool.now }
    requires slot { is_slot_in pool.now place ≡ true }
    ensures object { H.tells → (image : Image) → reads (H.state h.old).now.words ≡ image
        → IfOk result (λ object. object ≡ object_at (table_in frames pool.now image) place) }
    ensures only_reads { OnlyReads H.tells H.state H.counts (fault_of result) h.old h.new }
{
    let type_id = type_at(h, frames, pool, place)?;
    let at = slot_at_place(pool, place);
    match find_fitting(h, type_id, at.class)? {
        Some(map_word) => {
            let values = read_fields(h, frames, pool, &at, map_word)?;
            Ok(ObjectRead::new(type_id, at.class, field_count(map_word), values))
        }
        None => Ok(ObjectRead::new(type_id, at.class, 0, NO_FIELDS)),
    }
}
