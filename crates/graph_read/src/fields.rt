//! Reads the value of a field of an object.

ghost use Rattle.std.specs.Prelude.{◌≡◌, ◌+◌, ◌<◌, ◌≤◌, length, map, Option, IfOk};
ghost use Rattle.pm_model.specs.Words.{Image, reads};
ghost use Rattle.pm_model.specs.Counts.{fault_of};
ghost use Rattle.pm_model.specs.Reads.{OnlyReads};
ghost use Rattle.pud_defs.specs.Formats.Layout.{device_words};
ghost use Rattle.pud_defs.specs.Formats.Geometry.{class_slot_words};
ghost use Rattle.pud_defs.specs.RegistryTables.Types.{types_of};
ghost use Rattle.pud_defs.specs.PoolGraphs.Stored.{IsOnDevice, stored_in};
ghost use Rattle.pud_defs.specs.PoolGraphs.Graph.{Graph, pointee_at, named_by, object_at, graph_of, object_in};
ghost use Rattle.puddle_header.specs.Places.{place_of_slot, IsSlotOf};
ghost use Rattle.graph_read.specs.Reading.{table_in, value_in, read_by, field_in};

use crate::maps::find_fitting;
use crate::places::find_serial;
use crate::pointers::read_pointer;
use pm_model::{HostFault, Loads};
use pud_defs::layout::{MAX_FIELDS, MAX_FRAMES};
use pud_defs::objects::{FieldValue, Pointee};
use pud_defs::records::{Puddle, Slot};
use pud_defs::space::SLOT_FIELDS_WORD;
use pud_defs::type_map::{map_fields, map_is_pointer};
use puddle_header::{slot_field, slot_serial, slot_type};

/// What a read of a field answers.
#[derive(Clone, Copy, Debug, PartialEq, Eq)]
pub enum FieldRead {
    /// No live object has the serial.
    NoObject,
    /// The object's type has fewer fields, is not defined, or has more fields than the slot has room for.
    NoField,
    /// The value of the field.
    Value(FieldValue),
}

/// Returns the serial of the slot to which a pointer leads, or 0 if it leads to none. The pointer `value` stands at a
/// step of the ordinal's puddle. Step 0 is the puddle's header, and step s + 1 is its slot s. At most one word is read,
/// and nothing is searched.
pub fn pointed_serial<H: Loads>(
    h: &mut H,
    frames: u32,
    pool: &[(u32, Puddle)],
    ordinal: u32,
    step: u32,
    value: u64,
) -> Result<u64, HostFault>
    requires few { frames ≤ MAX_FRAMES }
    requires room { device_words frames ≤ (H.counts h.old).size }
    requires known { IsOnDevice frames pool.now }
    requires within { ordinal < length pool.now }
    ensures serial { H.tells → (image : Image) → reads (H.state h.old).now.words ≡ image
        → IfOk result (λ s. s ≡ named_by (table_in frames pool.now image).serial (pointee_at (map (λ e. e.1) pool.now) ordinal step value)) }
    ensures only_reads { OnlyReads H.tells H.state H.counts (fault_of result) h.old h.new }
{
    match read_pointer(pool, ordinal, step, value) {
        Some(Pointee::At { ordinal, slot }) => {
            let (frame, puddle) = pool[ordinal as usize];
            let at = Slot {
                frame,
                ordinal,
                slot,
                class: puddle.class,
            };
            slot_serial(h, frames, &at)
        }
        Some(Pointee::Null) | None => Ok(0),
    }
}

/// Returns the value of field `f` of a slot, by the map word of its type. The slot has room for the field. The value is a
/// number, or the serial that a pointer names, which is 0 if it names none. The word of the field is read once, and for
/// a pointer also the serial of the slot to which it leads. Nothing is searched.
pub fn value_at<H: Loads>(
    h: &mut H,
    frames: u32,
    pool: &[(u32, Puddle)],
    at: &Slot,
    map_word: u64,
    f: u32,
) -> Result<FieldValue, HostFault>
    requires few { frames ≤ MAX_FRAMES }
    requires room { device_words frames ≤ (H.counts h.old).size }
    requires known { IsOnDevice frames pool.now }
    requires within { IsSlotOf pool.now at.now }
    requires field { SLOT_FIELDS_WORD + f < class_slot_words at.now.class }
    ensures value { H.tells → (image : Image) → reads (H.state h.old).now.words ≡ image
        → IfOk result (λ v. v ≡ value_in frames pool.now image (place_of_slot at.now) map_word f) }
    ensures only_reads { OnlyReads H.tells H.state H.counts (fault_of result) h.old h.new }
{
    let value = slot_field(h, frames, at, f)?;
    if map_is_pointer(map_word, f) {
        let serial = pointed_serial(h, frames, pool, at.ordinal, at.slot + 1, value)?;
        Ok(FieldValue::Ref(serial))
    } else {
        Ok(FieldValue::Num(value))
    }
}

/// Reads field `f`, 0 to 29, of the object in a slot, as `read_field` does by the object's serial. The pool is not
/// searched, and the answer is never `NoObject`.
pub fn field_at<H: Loads>(
    h: &mut H,
    frames: u32,
    pool: &[(u32, Puddle)],
    at: &Slot,
    f: u32,
) -> Result<FieldRead, HostFault>
    requires few { frames ≤ MAX_FRAMES }
    requires room { device_words frames ≤ (H.counts h.old).size }
    requires known { IsOnDevice frames pool.now }
    requires within { IsSlotOf pool.now at.now }
    requires field { f < MAX_FIELDS }
    ensures read { H.tells → (image : Image) → reads (H.state h.old).now.words ≡ image
        → IfOk result (λ read. read ≡ read_by (Option.Some (object_at (table_in frames pool.now image) (place_of_slot at.now))) f) }
    ensures only_reads { OnlyReads H.tells H.state H.counts (fault_of result) h.old h.new }
{
    let id = slot_type(h, frames, at)?;
    match find_fitting(h, id, at.class)? {
        Some(map) if f < map_fields(map) => {
            let value = value_at(h, frames, pool, at, map, f)?;
            Ok(FieldRead::Value(value))
        }
        _ => Ok(FieldRead::NoField),
    }
}

/// Reads field `f`, 0 to 29, of the object of serial `s`. If several slots have the serial, the slot of the lowest
/// place is read.
///
/// If the pool has a graph, the answer is `NoObject` exactly if the graph has no object of that serial, `NoField`
/// exactly if the object has no such field, and otherwise the value of the field. If the pool has no graph, a type has no
/// fields if it is not defined or has more fields than the slot has room for, and a pointer to no slot names serial 0.
pub fn read_field<H: Loads>(
    h: &mut H,
    frames: u32,
    pool: &[(u32, Puddle)],
    s: u64,
    f: u32,
) -> Result<FieldRead, HostFault>
    requires few { frames ≤ MAX_FRAMES }
    requires room { device_words frames ≤ (H.counts h.old).size }
    requires known { IsOnDevice frames pool.now }
    requires field { f < MAX_FIELDS }
    ensures read { H.tells → (image : Image) → reads (H.state h.old).now.words ≡ image
        → IfOk result (λ read. read ≡ field_in frames pool.now image s f) }
    ensures object { H.tells → (image : Image) → reads (H.state h.old).now.words ≡ image
        → (g : Graph) → graph_of (types_of image) (stored_in frames pool.now image) ≡ Option.Some g
        → IfOk result (λ read. read ≡ read_by (object_in s g) f) }
    ensures only_reads { OnlyReads H.tells H.state H.counts (fault_of result) h.old h.new }
{
    match find_serial(h, frames, pool, s)? {
        Some(at) => field_at(h, frames, pool, &at, f),
        None => Ok(FieldRead::NoObject),
    }
}
