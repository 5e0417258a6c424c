//! Builds an index in one pass over the serials of a pool and one pass over its fields.

ghost use Rattle.std.specs.Prelude.{◌≡◌, ◌*◌, ◌+◌, ◌<◌, ◌≤◌, ℕ, true, length, map, slice_index, Option, option_map, IfOk, IfSome, OnOk};
ghost use Rattle.std.specs.Ordering.{nat_cmp};
ghost use Rattle.pm_model.specs.Words.{reads};
ghost use Rattle.pm_model.specs.Counts.{fault_of};
ghost use Rattle.pm_model.specs.Reads.{OnlyReads};
ghost use Rattle.pud_defs.specs.PoolGraphs.Graph.{Graph, content, slot_contents, graph_of, named_by, under_serial, fits_class};
ghost use Rattle.pud_defs.specs.Formats.Image.{Image};
ghost use Rattle.pud_defs.specs.RegistryTables.Keyed.{first_from};
ghost use Rattle.pud_defs.specs.Formats.Layout.{device_words};
ghost use Rattle.pud_defs.specs.Formats.Geometry.{ordinal_of};
ghost use Rattle.pud_defs.specs.PoolGraphs.Stored.{IsOnDevice, stored_in};
ghost use Rattle.pud_defs.specs.RegistryTables.Types.{types_of};
ghost use Rattle.puddle_header.specs.Places.{places_in, is_slot_in};
ghost use Rattle.graph_read.specs.Checking.{with_serials, HasSerialsInSlots};
ghost use Rattle.graph_read.specs.Index.{kept_under};
ghost use Rattle.graph_read.specs.Indexed.{kept_of, IsIndexOf, after_list, Gains, HasAtMost, contents_name, place_names, places_name};
ghost use Rattle.graph_read.specs.Reading.{class_in, table_in};

use crate::checking::field_word;
use crate::index::Index;
use crate::maps::map_at;
use crate::places::slots_end;
use crate::pointers::read_pointer;
use crate::serials::{Serials, named, read_serials};
use pm_model::{HostFault, Loads};
use pud_defs::layout::{MAX_FIELDS, MAX_FRAMES};
use pud_defs::objects::is_free;
use pud_defs::records::{MAX_PUDDLES, Puddle};
use pud_defs::space::{MAX_PLACES, ordinal_of, places_among, slot_of};
use pud_defs::type_map::{map_fields, map_is_pointer};
use puddle_header::root_value;
use std::alloc::Global;

/// The serial that field `f` of the slot at a place names, by its word and the map of the slot's type. It is 0 if the
/// field is a number, null, or a pointer to no slot.
fn serial_in_field(
    pool: &[(u32, Puddle)],
    serials: &Serials,
    place: u32,
    type_map: u64,
    f: u32,
    v: u64,
) -> u64
    requires few { length pool.now ≤ MAX_PUDDLES }
    requires within { place < places_in pool.now }
    ensures { result ≡ named_by (slice_index serials.now) (content (map (λ e. e.1) pool.now) type_map place f v) }
{
    if !map_is_pointer(type_map, f) {
        return 0;
    }
    let pointee = read_pointer(pool, ordinal_of(place), slot_of(place) + 1, v);
    named(serials, pointee)
}

impl Index {
    /// Keeps the object of this serial at its place. If the serial is 0, the place is free, and nothing is kept. False
    /// if allocation fails.
    fn list(&mut self, serial: u64, place: u32) -> bool
        ensures { result ≡ true → (q : ℕ) → kept_under self.new q ≡ after_list serial place q (kept_under self.old q) }
    {
        is_free(serial) || self.insert(serial, (ordinal_of(place), slot_of(place)))
    }

    /// An index of the live places of a pool, without references yet, or None if allocation fails. The places are listed
    /// from the last one down, so that of two with one serial the lower place counts.
    fn list_all(alloc: Global, pool: &[(u32, Puddle)], serials: &Serials) -> Option<Index>
        requires few { length pool.now ≤ MAX_PUDDLES }
        requires slots { HasSerialsInSlots pool.now (slice_index serials.now) }
        ensures { IfSome result (λ x. (q : ℕ) → kept_under x q ≡ option_map (kept_of 0) (first_from nat_cmp q (under_serial (slice_index serials.now) (λ p. p)) 0 (places_in pool.now))) }
    {
        let mut index = Index::new(alloc);
        for ordinal in (0..pool.len() as u32).rev() {
            for place in (places_among(ordinal)..slots_end(pool, ordinal)).rev() {
                if !index.list(serials[place as usize], place) {
                    return None;
                }
            }
        }
        Some(index)
    }

    /// Counts the references from the fields of the slot at a place, by the map of its type. The slot has room for the
    /// fields of the type. At most 30 fields are read.
    fn retain_fields<H: Loads>(
        &mut self,
        h: &mut H,
        frames: u32,
        pool: &[(u32, Puddle)],
        serials: &Serials,
        place: u32,
        type_map: u64,
    ) -> Result<(), HostFault>
        requires few { frames ≤ MAX_FRAMES }
        requires room { device_words frames ≤ (H.counts h.old).size }
        requires known { IsOnDevice frames pool.now }
        requires within { place < places_in pool.now }
        requires slot { is_slot_in pool.now place ≡ true }
        requires fits { fits_class (class_in pool.now (ordinal_of place)) type_map ≡ true }
        requires most { HasAtMost (MAX_FIELDS * place) self.old }
        ensures most { OnOk result (HasAtMost (MAX_FIELDS * (place + 1)) self.new) }
        ensures holds { H.tells → (image : Image) → reads (H.state h.old).now.words ≡ image
            → OnOk result (Gains (contents_name (slice_index serials.now) (slot_contents (stored_in frames pool.now image) place (Option.Some type_map))) self.old self.new) }
        ensures only_reads { OnlyReads H.tells H.state H.counts (fault_of result) h.old h.new }
    {
        for f in 0..map_fields(type_map).min(MAX_FIELDS) {
            let v = field_word(h, frames, pool, place, f)?;
            self.retain(serial_in_field(pool, serials, place, type_map, f, v));
        }
        Ok(())
    }

    /// Counts the references from the slot at a place, if the slot is live.
    fn retain_place<H: Loads>(
        &mut self,
        h: &mut H,
        frames: u32,
        pool: &[(u32, Puddle)],
        serials: &Serials,
        place: u32,
    ) -> Result<(), HostFault>
        requires few { frames ≤ MAX_FRAMES }
        requires room { device_words frames ≤ (H.counts h.old).size }
        requires known { IsOnDevice frames pool.now }
        requires within { place < places_in pool.now }
        requires slot { is_slot_in pool.now place ≡ true }
        requires most { HasAtMost (MAX_FIELDS * place) self.old }
        ensures most { OnOk result (HasAtMost (MAX_FIELDS * (place + 1)) self.new) }
        ensures holds { H.tells → (image : Image) → reads (H.state h.old).now.words ≡ image
            → OnOk result (Gains (place_names (with_serials (slice_index serials.now) (table_in frames pool.now image)) place) self.old self.new) }
        ensures only_reads { OnlyReads H.tells H.state H.counts (fault_of result) h.old h.new }
    {
        if is_free(serials[place as usize]) {
            return Ok(());
        }
        match map_at(h, frames, pool, place)? {
            Some(type_map) => self.retain_fields(h, frames, pool, serials, place, type_map),
            None => Ok(()),
        }
    }

    /// Counts the references from all slots of a pool.
    fn retain_all<H: Loads>(
        &mut self,
        h: &mut H,
        frames: u32,
        pool: &[(u32, Puddle)],
        serials: &Serials,
    ) -> Result<(), HostFault>
        requires few { frames ≤ MAX_FRAMES }
        requires room { device_words frames ≤ (H.counts h.old).size }
        requires known { IsOnDevice frames pool.now }
        requires slots { HasSerialsInSlots pool.now (slice_index serials.now) }
        requires most { HasAtMost 0 self.old }
        ensures most { OnOk result (HasAtMost (MAX_FIELDS * MAX_PLACES) self.new) }
        ensures holds { H.tells → (image : Image) → reads (H.state h.old).now.words ≡ image
            → OnOk result (Gains (places_name (with_serials (slice_index serials.now) (table_in frames pool.now image)) (places_in pool.now)) self.old self.new) }
        ensures only_reads { OnlyReads H.tells H.state H.counts (fault_of result) h.old h.new }
    {
        for ordinal in 0..pool.len() as u32 {
            for place in places_among(ordinal)..slots_end(pool, ordinal) {
                self.retain_place(h, frames, pool, serials, place)?;
            }
        }
        Ok(())
    }

    /// Builds the index of a pool that stores a graph: each object with its ordinal and slot, and with its reference
    /// count. The answer is None if allocation fails. If the pool stores no graph, the index has no meaning.
    ///
    /// Each serial and each field is read at most once. The memory comes from `alloc`, which the index keeps.
    // Not inlined: its rooms would lie on the stack of each line that asks for an index.
    #[inline(never)]
    pub fn build<H: Loads>(
        alloc: Global,
        h: &mut H,
        frames: u32,
        pool: &[(u32, Puddle)],
    ) -> Result<Option<Index>, HostFault>
        requires few { frames ≤ MAX_FRAMES }
        requires room { device_words frames ≤ (H.counts h.old).size }
        requires known { IsOnDevice frames pool.now }
        ensures built { H.tells → (image : Image) → reads (H.state h.old).now.words ≡ image
            → (g : Graph) → graph_of (types_of image) (stored_in frames pool.now image) ≡ Option.Some g
            → IfOk result (λ built. IfSome built (IsIndexOf frames pool.now (types_of image) image)) }
        ensures only_reads { OnlyReads H.tells H.state H.counts (fault_of result) h.old h.new }
    {
        if pool.is_empty() {
            return Ok(Some(Index::new(alloc)));
        }
        let (first, _) = pool[0];
        let root = root_value(h, frames, first)?;
        let serials = read_serials(h, frames, pool)?;
        let Some(mut index) = Index::list_all(alloc, pool, &serials) else {
            return Ok(None);
        };
        index.retain_all(h, frames, pool, &serials)?;
        index.retain(named(&serials, read_pointer(pool, 0, 0, root)));
        Ok(Some(index))
    }
}
