//! Queries of a pool: answered by the index if one is kept, otherwise by a scan.

ghost use Rattle.std.specs.Prelude.{◌≡◌, ◌<◌, ◌≤◌, ℕ, true, length, Option, option_map, is_none, IfOk, IfSome};
ghost use Rattle.pm_model.specs.Words.{reads};
ghost use Rattle.pm_model.specs.Counts.{fault_of};
ghost use Rattle.pm_model.specs.Reads.{OnlyReads};
ghost use Rattle.pud_defs.specs.declared.layout.TheConstants.{MAX_FIELDS, MAX_FRAMES};
ghost use Rattle.pud_defs.specs.declared.records.TheConstants.{MAX_PUDDLES};
ghost use Rattle.pud_defs.specs.PoolGraphs.Graph.{Graph, graph_of, object_in, is_referenced};
ghost use Rattle.pud_defs.specs.Formats.Image.{Image};
ghost use Rattle.pud_defs.specs.Formats.Layout.{device_words};
ghost use Rattle.pud_defs.specs.PoolGraphs.Stored.{IsOnDevice, stored_in};
ghost use Rattle.pud_defs.specs.RegistryTables.Types.{types_of};
ghost use Rattle.puddle_header.specs.Places.{place_of_slot, places_in, is_slot_in, IsSlotOf};
ghost use Rattle.graph_read.specs.Indexed.{slot_at_place};
ghost use Rattle.graph_read.specs.Reading.{place_in_pool, field_in, read_by};
ghost use Rattle.known_pool.specs.Known.{IsKnown, has_index};

use crate::{KnownPool, SCANS_BETWEEN};
use graph_read::{FieldRead, Index, field_at, find_serial, is_referenced, pointed_serial};
use pm_model::{HostFault, Loads};
use pud_defs::records::{Puddle, Slot};
use pud_defs::space::slots_of;
use puddle_header::root_value;
use std::alloc::Global;

/// The slot of the pool that has this ordinal and this number, if it has one.
fn slot_of(pool: &[(u32, Puddle)], kept: Option<(u32, u32)>) -> Option<Slot>
    requires few { length pool.now ≤ MAX_PUDDLES }
    ensures slot { (place : Option ℕ) → kept ≡ option_map slot_at_place place → IfSome place (λ p. p < places_in pool.now)
        → IfSome place (λ p. is_slot_in pool.now p ≡ true) → option_map place_of_slot result ≡ place }
    ensures within { IfSome result (IsSlotOf pool.now) }
{
    let (ordinal, slot) = kept?;
    if ordinal >= pool.len() as u32 {
        return None;
    }
    let (frame, puddle) = pool[ordinal as usize];
    if slot >= slots_of(&puddle) {
        return None;
    }
    Some(Slot {
        frame,
        ordinal,
        slot,
        class: puddle.class,
    })
}

impl KnownPool {
    /// Whether an index is kept, and with `counts` one that counts references.
    fn has_index(&self, counts: bool) -> bool
        ensures { result ≡ has_index counts self.now }
    {
        if counts && !self.counted {
            return false;
        }
        self.index.is_some()
    }

    /// Builds an index, if none is kept, or with `counts` none that counts references, and none was tried for by one of
    /// the last 256 calls that found none. What is kept does not change if an allocation fails.
    ///
    /// Each serial and each field is read once. The memory comes from `alloc`, which the index keeps. The only errors
    /// are the host's own, and then what is known about the pool does not change.
    pub fn build<H: Loads>(
        &mut self,
        alloc: Global,
        h: &mut H,
        frames: u32,
        counts: bool,
    ) -> Result<(), HostFault>
        requires few { frames ≤ MAX_FRAMES }
        requires room { device_words frames ≤ (H.counts h.old).size }
        requires known { IsOnDevice frames self.old.puddles }
        ensures known { H.tells → (image : Image) → reads (H.state h.old).now.words ≡ image
            → (g : Graph) → graph_of (types_of image) (stored_in frames self.old.puddles image) ≡ Option.Some g
            → IsKnown frames image self.old → IsKnown frames image self.new }
        ensures puddles { self.new.puddles ≡ self.old.puddles }
        ensures full { self.new.full_below ≡ self.old.full_below }
        ensures kept { has_index counts self.old ≡ true → self.new ≡ self.old }
        ensures only_reads { OnlyReads H.tells H.state H.counts (fault_of result) h.old h.new }
    {
        if self.has_index(counts) {
            return Ok(());
        }
        if self.wait > 0 {
            self.wait -= 1;
            return Ok(());
        }
        self.wait = SCANS_BETWEEN;
        if let Some(index) = Index::build(alloc, h, frames, self.puddles.as_slice())? {
            self.index = Some(index);
            self.counted = true;
        }
        Ok(())
    }

    /// The slot of the live object of serial `s`, if what is kept is true of the device. None exactly if no live object
    /// has that serial. If an index is kept, nothing is read. Otherwise each place is read at most once.
    pub fn find<H: Loads>(&self, h: &mut H, frames: u32, s: u64) -> Result<Option<Slot>, HostFault>
        requires few { frames ≤ MAX_FRAMES }
        requires room { device_words frames ≤ (H.counts h.old).size }
        requires known { IsOnDevice frames self.now.puddles }
        ensures found { H.tells → (image : Image) → reads (H.state h.old).now.words ≡ image → IsKnown frames image self.now
            → IfOk result (λ found. option_map place_of_slot found ≡ place_in_pool frames self.now.puddles image s) }
        ensures object { H.tells → (image : Image) → reads (H.state h.old).now.words ≡ image → IsKnown frames image self.now
            → (g : Graph) → graph_of (types_of image) (stored_in frames self.now.puddles image) ≡ Option.Some g
            → IfOk result (λ found. is_none found ≡ is_none (object_in s g)) }
        ensures within { IfOk result (λ found. IfSome found (IsSlotOf self.now.puddles)) }
        ensures only_reads { OnlyReads H.tells H.state H.counts (fault_of result) h.old h.new }
    {
        match &self.index {
            Some(index) => Ok(slot_of(self.puddles.as_slice(), index.find(s))),
            None => find_serial(h, frames, self.puddles.as_slice(), s),
        }
    }

    /// Whether the object of serial `s` is referenced, by the root or by a pointer of a live object. With 0 for `s`:
    /// whether the root or such a pointer is null. The pool must store a graph, and what is kept must be true of the
    /// device. If an index is kept that counts references and has the object, nothing is read. Otherwise each serial and
    /// each field is read once.
    pub fn is_referenced<H: Loads>(&self, h: &mut H, frames: u32, s: u64) -> Result<bool, HostFault>
        requires few { frames ≤ MAX_FRAMES }
        requires room { device_words frames ≤ (H.counts h.old).size }
        requires known { IsOnDevice frames self.now.puddles }
        ensures referenced { H.tells → (image : Image) → reads (H.state h.old).now.words ≡ image → IsKnown frames image self.now → (g : Graph)
            → graph_of (types_of image) (stored_in frames self.now.puddles image) ≡ Option.Some g → IfOk result (λ held. held ≡ is_referenced s g) }
        ensures only_reads { OnlyReads H.tells H.state H.counts (fault_of result) h.old h.new }
    {
        if self.counted {
            if let Some(index) = &self.index {
                if index.find(s).is_some() {
                    return Ok(index.references(s) > 0);
                }
            }
        }
        is_referenced(h, frames, self.puddles.as_slice(), s)
    }

    /// The serial of the pool's root, or 0 if it has none, if the pool stores a graph. At most two words are read.
    ///
    /// The only errors are the host's own.
    pub fn root<H: Loads>(&self, h: &mut H, frames: u32) -> Result<u64, HostFault>
        requires few { frames ≤ MAX_FRAMES }
        requires room { device_words frames ≤ (H.counts h.old).size }
        requires known { IsOnDevice frames self.now.puddles }
        ensures root { H.tells → (image : Image) → reads (H.state h.old).now.words ≡ image → (g : Graph)
            → graph_of (types_of image) (stored_in frames self.now.puddles image) ≡ Option.Some g → IfOk result (λ s. s ≡ g.root) }
        ensures only_reads { OnlyReads H.tells H.state H.counts (fault_of result) h.old h.new }
    {
        let pool = self.as_slice();
        if pool.is_empty() {
            return Ok(0);
        }
        let (first, _) = pool[0];
        let root = root_value(h, frames, first)?;
        pointed_serial(h, frames, pool, 0, 0, root)
    }

    /// Reads field `f`, 0 to 29, of the object of serial `s`, if what is kept is true of the device. `NoObject` exactly
    /// if the pool's graph has no object of that serial, `NoField` exactly if the object has no such field, and
    /// otherwise the field's value. If an index is kept, at most three words and the type are read.
    pub fn read_field<H: Loads>(
        &self,
        h: &mut H,
        frames: u32,
        s: u64,
        f: u32,
    ) -> Result<FieldRead, HostFault>
        requires few { frames ≤ MAX_FRAMES }
        requires room { device_words frames ≤ (H.counts h.old).size }
        requires known { IsOnDevice frames self.now.puddles }
        requires field { f < MAX_FIELDS }
        ensures read { H.tells → (image : Image) → reads (H.state h.old).now.words ≡ image → IsKnown frames image self.now
            → IfOk result (λ read. read ≡ field_in frames self.now.puddles image s f) }
        ensures object { H.tells → (image : Image) → reads (H.state h.old).now.words ≡ image → IsKnown frames image self.now
            → (g : Graph) → graph_of (types_of image) (stored_in frames self.now.puddles image) ≡ Option.Some g
            → IfOk result (λ read. read ≡ read_by (object_in s g) f) }
        ensures only_reads { OnlyReads H.tells H.state H.counts (fault_of result) h.old h.new }
    {
        match self.find(h, frames, s)? {
            Some(at) => field_at(h, frames, self.puddles.as_slice(), &at, f),
            None => Ok(FieldRead::NoObject),
        }
    }
}
