//! Checks the slots of a pool, slot by slot and field by field, and sums the numbers in their fields.

ghost use Rattle.std.specs.Prelude.{◌≡◌, ◌+◌, ◌<◌, ◌≤◌, true, length, map, slice_index, Option, IfOk};
ghost use Rattle.pm_model.specs.Words.{reads};
ghost use Rattle.pm_model.specs.Counts.{fault_of};
ghost use Rattle.pm_model.specs.Reads.{OnlyReads};
ghost use Rattle.pud_defs.specs.PoolGraphs.Graph.{content, fits_class, slot_contents};
ghost use Rattle.pud_defs.specs.Formats.Image.{Image};
ghost use Rattle.pud_defs.specs.Formats.Layout.{device_words};
ghost use Rattle.pud_defs.specs.Formats.Geometry.{class_slot_words, ordinal_of};
ghost use Rattle.pud_defs.specs.PoolGraphs.Stored.{IsOnDevice, stored_in, place_word};
ghost use Rattle.graph_read.specs.Checking.{content_of, passes, serial_passes, unknown_passes, with_serials, HasSerialsInSlots};
ghost use Rattle.graph_read.specs.Numbers.{value_number, fields_sum, place_sum, places_sum};
ghost use Rattle.puddle_header.specs.Places.{places_in, is_slot_in};
ghost use Rattle.graph_read.specs.Reading.{class_in, table_in};

use crate::maps::map_at;
use crate::places::slots_end;
use crate::pointers::read_pointer;
use crate::serials::{Serials, named};
use pm_model::{HostFault, Loads};
use pud_defs::layout::{MAX_FIELDS, MAX_FRAMES};
use pud_defs::objects::{Pointee, is_free, is_live};
use pud_defs::records::{MAX_PUDDLES, Puddle};
use pud_defs::space::{SLOT_FIELDS_WORD, SLOT_TYPE_WORD, ordinal_of, places_among, slot_of};
use pud_defs::type_map::{map_fields, map_is_pointer};
use puddle_header::{slot_at_place, slot_field, slot_type};

/// A check of a slot that is not free.
#[derive(Clone, Copy)]
pub(crate) enum SlotCheck {
    /// Whether its serial is below this next serial, its type is defined, an object of the type has room in the slot, and
    /// each of its fields stands for something.
    IsSound(u64),
    /// Whether none of its fields names this serial.
    LacksPointerTo(u64),
}

impl SlotCheck {
    /// Whether a pointer passes, by where it leads.
    pub(crate) fn passes(self, serials: &Serials, pointee: Option<Pointee>) -> bool
        ensures { result ≡ passes self (slice_index serials.now) (content_of pointee) }
    {
        let serial = named(serials, pointee);
        match self {
            SlotCheck::IsSound(_) => matches!(pointee, Some(Pointee::Null)) || is_live(serial),
            SlotCheck::LacksPointerTo(other) => serial != other,
        }
    }

    /// Whether the serial of a live slot passes.
    fn serial_passes(self, serial: u64) -> bool
        ensures { result ≡ serial_passes self serial }
    {
        match self {
            SlotCheck::IsSound(next) => serial < next,
            SlotCheck::LacksPointerTo(_) => true,
        }
    }

    /// Whether a slot passes if its type is not defined, or if an object of the type has no room in it.
    fn unknown_passes(self) -> bool
        ensures { result ≡ unknown_passes self }
    {
        matches!(self, SlotCheck::LacksPointerTo(_))
    }
}

/// What field `f` of the slot at a place adds to the sum, by its word and the map of the slot's type. A number adds
/// itself, and a pointer adds 0. None if the field does not pass.
fn value_number(
    pool: &[(u32, Puddle)],
    serials: &Serials,
    check: SlotCheck,
    place: u32,
    type_map: u64,
    f: u32,
    v: u64,
) -> Option<u64>
    requires few { length pool.now ≤ MAX_PUDDLES }
    requires within { place < places_in pool.now }
    ensures { result ≡ value_number check (slice_index serials.now) (content (map (λ e. e.1) pool.now) type_map place f v) }
{
    if !map_is_pointer(type_map, f) {
        return Some(v);
    }
    let pointee = read_pointer(pool, ordinal_of(place), slot_of(place) + 1, v);
    check.passes(serials, pointee).then_some(0)
}

/// Reads the type id in the slot at a place of the pool, which is a slot, whatever the slot stores. One word is read.
pub fn type_at<H: Loads>(
    h: &mut H,
    frames: u32,
    pool: &[(u32, Puddle)],
    place: u32,
) -> Result<u64, HostFault>
    requires few { frames ≤ MAX_FRAMES }
    requires room { device_words frames ≤ (H.counts h.old).size }
    requires known { IsOnDevice frames pool.now }
    requires within { place < places_in pool.now }
    requires slot { is_slot_in pool.now place ≡ true }
    ensures id { H.tells → (image : Image) → reads (H.state h.old).now.words ≡ image → IfOk result (λ v. v ≡ place_word (stored_in frames pool.now image) place SLOT_TYPE_WORD) }
    ensures only_reads { OnlyReads H.tells H.state H.counts (fault_of result) h.old h.new }
{
    let at = slot_at_place(pool, place);
    slot_type(h, frames, &at)
}

/// Reads the word of field `f` of the slot at a place of the pool, which is a slot, whatever the slot stores. The slot
/// has room for the field. One word is read.
pub fn field_word<H: Loads>(
    h: &mut H,
    frames: u32,
    pool: &[(u32, Puddle)],
    place: u32,
    f: u32,
) -> Result<u64, HostFault>
    requires few { frames ≤ MAX_FRAMES }
    requires room { device_words frames ≤ (H.counts h.old).size }
    requires known { IsOnDevice frames pool.now }
    requires within { place < places_in pool.now }
    requires slot { is_slot_in pool.now place ≡ true }
    requires field { SLOT_FIELDS_WORD + f < class_slot_words (class_in pool.now (ordinal_of place)) }
    ensures word { H.tells → (image : Image) → reads (H.state h.old).now.words ≡ image
        → IfOk result (λ v. v ≡ place_word (stored_in frames pool.now image) place (SLOT_FIELDS_WORD + f)) }
    ensures only_reads { OnlyReads H.tells H.state H.counts (fault_of result) h.old h.new }
{
    let at = slot_at_place(pool, place);
    slot_field(h, frames, &at, f)
}

/// The sum of the number fields of the slot at a place, modulo 2^64, by the map of its type, or None if a field does
/// not pass. The slot has room for the fields of the type. At most 30 fields are read.
fn fields_sum<H: Loads>(
    h: &mut H,
    frames: u32,
    pool: &[(u32, Puddle)],
    serials: &Serials,
    check: SlotCheck,
    place: u32,
    type_map: u64,
) -> Result<Option<u64>, HostFault>
    requires few { frames ≤ MAX_FRAMES }
    requires room { device_words frames ≤ (H.counts h.old).size }
    requires known { IsOnDevice frames pool.now }
    requires within { place < places_in pool.now }
    requires slot { is_slot_in pool.now place ≡ true }
    requires fits { fits_class (class_in pool.now (ordinal_of place)) type_map ≡ true }
    ensures sum { H.tells → (image : Image) → reads (H.state h.old).now.words ≡ image
        → IfOk result (λ sum. sum ≡ fields_sum check (slice_index serials.now) (slot_contents (stored_in frames pool.now image) place (Option.Some type_map))) }
    ensures only_reads { OnlyReads H.tells H.state H.counts (fault_of result) h.old h.new }
{
    let mut sum: u64 = 0;
    for f in 0..map_fields(type_map).min(MAX_FIELDS) {
        let v = field_word(h, frames, pool, place, f)?;
        let Some(number) = value_number(pool, serials, check, place, type_map, f, v) else {
            return Ok(None);
        };
        sum = sum.wrapping_add(number);
    }
    Ok(Some(sum))
}

/// The sum of the number fields of the slot at a place, modulo 2^64. It is 0 if the slot is free, and None if the slot
/// is not free and does not pass.
fn place_sum<H: Loads>(
    h: &mut H,
    frames: u32,
    pool: &[(u32, Puddle)],
    serials: &Serials,
    check: SlotCheck,
    place: u32,
) -> Result<Option<u64>, HostFault>
    requires few { frames ≤ MAX_FRAMES }
    requires room { device_words frames ≤ (H.counts h.old).size }
    requires known { IsOnDevice frames pool.now }
    requires within { place < places_in pool.now }
    requires slot { is_slot_in pool.now place ≡ true }
    ensures sum { H.tells → (image : Image) → reads (H.state h.old).now.words ≡ image
        → IfOk result (λ sum. sum ≡ place_sum check (with_serials (slice_index serials.now) (table_in frames pool.now image)) place) }
    ensures only_reads { OnlyReads H.tells H.state H.counts (fault_of result) h.old h.new }
{
    let serial = serials[place as usize];
    if is_free(serial) {
        return Ok(Some(0));
    }
    if !check.serial_passes(serial) {
        return Ok(None);
    }
    match map_at(h, frames, pool, place)? {
        Some(type_map) => fields_sum(h, frames, pool, serials, check, place, type_map),
        None => Ok(check.unknown_passes().then_some(0)),
    }
}

/// The sum of the number fields of all slots of a pool that are not free, modulo 2^64, or None if one of them does not
/// pass. Each field is read at most once.
pub(crate) fn places_sum<H: Loads>(
    h: &mut H,
    frames: u32,
    pool: &[(u32, Puddle)],
    serials: &Serials,
    check: SlotCheck,
) -> Result<Option<u64>, HostFault>
    requires few { frames ≤ MAX_FRAMES }
    requires room { device_words frames ≤ (H.counts h.old).size }
    requires known { IsOnDevice frames pool.now }
    requires slots { HasSerialsInSlots pool.now (slice_index serials.now) }
    ensures sum { H.tells → (image : Image) → reads (H.state h.old).now.words ≡ image
        → IfOk result (λ sum. sum ≡ places_sum check (with_serials (slice_index serials.now) (table_in frames pool.now image)) (places_in pool.now)) }
    ensures only_reads { OnlyReads H.tells H.state H.counts (fault_of result) h.old h.new }
{
    let mut sum: u64 = 0;
    for ordinal in 0..pool.len() as u32 {
        for place in places_among(ordinal)..slots_end(pool, ordinal) {
            let Some(numbers) = place_sum(h, frames, pool, serials, check, place)? else {
                return Ok(None);
            };
            sum = sum.wrapping_add(numbers);
        }
    }
    Ok(Some(sum))
}
