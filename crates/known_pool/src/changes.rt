//! What becomes of what is kept about a pool when the pool is changed.

ghost use Rattle.std.specs.Prelude.{◌≡◌, ◌≢◌, ◌<◌, ◌≤◌, ℕ, [], ◌∷◌, ◌++◌, length, true, Option, option_map, is_some, IfOk};
ghost use Rattle.pm_model.specs.Counts.{fault_of};
ghost use Rattle.pm_model.specs.Reads.{OnlyReads};
ghost use Rattle.pud_defs.specs.declared.layout.TheConstants.{MAX_FRAMES};
ghost use Rattle.pud_defs.specs.declared.records.TheConstants.{MAX_PUDDLES};
ghost use Rattle.pud_defs.specs.Formats.Layout.{device_words};
ghost use Rattle.pud_defs.specs.PoolGraphs.Stored.{IsOnDevice};
ghost use Rattle.puddle_header.specs.Places.{place_of_slot, places_in, IsSlotOf};
ghost use Rattle.graph_read.specs.declared.index.Index.{Index};
ghost use Rattle.graph_read.specs.Index.{HasReference, MayBeReferenced, kept_under};
ghost use Rattle.graph_read.specs.Indexed.{serial_named};
ghost use Rattle.graph_read.specs.Reading.{place_in_pool};
ghost use Rattle.known_pool.specs.Searches.{full_after_made, full_after_freed};
ghost use Rattle.known_pool.specs.Known.{IsKnown, index_entries, with_puddles, after_end};
ghost use Rattle.known_pool.specs.Indexes.{Follows, FollowsPlaces, same_place, with_place, without_place, after_move, after_made, MayMove, HasReleased};
ghost use Rattle.known_pool.specs.Promises.{ForGraphRead, IsInSlot, IsOwnIndex, HasReleasedObject};

use crate::KnownPool;
use graph_read::{Index, find_fitting, value_at};
use pm_model::{HostFault, Loads};
use pud_defs::layout::MAX_FIELDS;
use pud_defs::objects::FieldValue;
use pud_defs::records::{Puddle, Slot};
use pud_defs::space::place_at;
use pud_defs::type_map::map_fields;
use puddle_header::slot_type;

/// The serial that a value names, or 0 if it names none.
fn serial_named(x: FieldValue) -> u64
    ensures { result ≡ serial_named x }
{
    match x {
        FieldValue::Num(_) => 0,
        FieldValue::Ref(s) => s,
    }
}

/// The place of a slot of the pool.
fn place_of_slot(pool: &[(u32, Puddle)], at: &Slot) -> u32
    requires few { length pool.now ≤ MAX_PUDDLES }
    requires within { IsSlotOf pool.now at.now }
    ensures place { result ≡ place_of_slot at.now }
    ensures below { result < places_in pool.now }
{
    place_at(at.ordinal, at.slot) as u32
}

/// Whether the index has the serial with a reference. True for the serial 0.
fn may_release(index: &Index, s: u64) -> bool
    ensures only { result ≡ true → s ≢ 0 → HasReference (kept_under index.now s) }
    ensures may { (s ≢ 0 → HasReference (kept_under index.now s)) → result ≡ true }
{
    s == 0 || index.references(s) > 0
}

/// Whether the index has the serial and can count one more reference to it. True for the serial 0.
fn may_hold(index: &Index, s: u64) -> bool
    ensures only { result ≡ true → s ≢ 0 → MayBeReferenced (kept_under index.now s) }
    ensures may { (s ≢ 0 → MayBeReferenced (kept_under index.now s)) → result ≡ true }
{
    s == 0 || (index.find(s).is_some() && index.references(s) < u32::MAX)
}

/// Counts that a pointer which had one value has the other, if an index is kept. The index goes if it cannot count
/// that: what the one value names has no reference in it, or what the other names is not in it or has as many
/// references as can be counted.
fn retarget(index: &mut Option<Index>, was: FieldValue, now: FieldValue)
    ensures follows { Follows (after_move was now) (option_map index_entries index.old) (option_map index_entries index.new) }
    ensures kept { (x : Index) → index.old ≡ Option.Some x → MayMove was now x → is_some index.new ≡ true }
{
    let from = serial_named(was);
    let to = serial_named(now);
    let fits = match index {
        Some(index) => may_release(index, from) && may_hold(index, to),
        None => true,
    };
    if !fits {
        *index = None;
    }
    if let Some(index) = index {
        index.retarget(from, to);
    }
}

/// Keeps an object of serial `s` without a reference in a slot, if an index is kept. The index goes if an allocation
/// fails.
fn insert(index: &mut Option<Index>, s: u64, at: &Slot)
    ensures { Follows (after_made s at.now) (option_map index_entries index.old) (option_map index_entries index.new) }
{
    let kept = match index {
        Some(index) => index.insert(s, (at.ordinal, at.slot)),
        None => true,
    };
    if !kept {
        *index = None;
    }
}

/// Releases what the object in a slot names, if an index is kept, and its references are `counted`. The object's fields
/// are read for that.
fn release_fields<H: Loads>(
    index: &mut Option<Index>,
    counted: bool,
    h: &mut H,
    frames: u32,
    pool: &[(u32, Puddle)],
    at: &Slot,
) -> Result<(), HostFault>
    requires few { frames ≤ MAX_FRAMES }
    requires room { device_words frames ≤ (H.counts h.old).size }
    requires known { IsOnDevice frames pool.now }
    requires within { IsSlotOf pool.now at.now }
    ensures releases { counted ≡ true → ForGraphRead H.tells (H.state h.old) frames pool.now (λ image g. (s : ℕ) → IsInSlot frames pool.now image s at.now
        → IsOwnIndex frames pool.now image index.old
        → IfOk result (λ _. HasReleased (place_in_pool frames pool.now image) g s (option_map index_entries index.new))) }
    ensures places { FollowsPlaces same_place (option_map index_entries index.old) (option_map index_entries index.new) }
    ensures only_reads { OnlyReads H.tells H.state H.counts (fault_of result) h.old h.new }
{
    if !counted {
        return Ok(());
    }
    if index.is_none() {
        return Ok(());
    }
    let id = slot_type(h, frames, at)?;
    let Some(map) = find_fitting(h, id, at.class)? else {
        return Ok(());
    };
    for f in 0..map_fields(map).min(MAX_FIELDS) {
        let value = value_at(h, frames, pool, at, map, f)?;
        retarget(index, value, FieldValue::Num(0));
    }
    Ok(())
}

impl KnownPool {
    /// The root, or a field of an object, that had one value has the other. An index that counts references goes if it
    /// cannot count that: what the one value names has no reference in it, or what the other names is not in it or has
    /// as many references as can be counted.
    pub fn moved(&mut self, was: FieldValue, now: FieldValue)
        ensures follows { Follows (after_move was now) self.old.index self.new.index }
        ensures places { FollowsPlaces same_place self.old.placed self.new.placed }
        ensures kept { (x : Index) → self.old.index ≡ Option.Some (index_entries x) → MayMove was now x → is_some self.new.index ≡ true }
        ensures puddles { self.new.puddles ≡ self.old.puddles }
        ensures full { self.new.full_below ≡ self.old.full_below }
    {
        if !self.counted {
            return;
        }
        retarget(&mut self.index, was, now);
    }

    /// An object of serial `s` was made in a slot, and each slot of its class before it is live. The index goes if an
    /// allocation fails.
    pub fn made(&mut self, s: u64, at: &Slot)
        requires few { length self.old.puddles ≤ MAX_PUDDLES }
        requires within { IsSlotOf self.old.puddles at.now }
        ensures follows { Follows (after_made s at.now) self.old.index self.new.index }
        ensures places { FollowsPlaces (with_place s at.now) self.old.placed self.new.placed }
        ensures puddles { self.new.puddles ≡ self.old.puddles }
        ensures full { self.new.full_below ≡ full_after_made at.now self.old.full_below }
    {
        let place = place_of_slot(self.puddles.as_slice(), at);
        self.full_below = self.full_below.with(at.class, place + 1);
        insert(&mut self.index, s, at);
    }

    /// The pool has one more puddle, in this frame, which is known after the others. Returns the puddle's first slot.
    pub fn grown(&mut self, frame: u32, puddle: Puddle) -> Slot
        requires few { length self.old.puddles < MAX_PUDDLES }
        ensures grown { self.new ≡ with_puddles (self.old.puddles ++ (frame, puddle) ∷ []) self.old }
        ensures slot { result ≡ record { frame = frame; ordinal = length self.old.puddles; slot = 0; class = puddle.class } }
    {
        let ordinal = self.puddles.as_slice().len() as u32;
        let class = puddle.class;
        self.puddles.push(frame, puddle);
        Slot {
            frame,
            ordinal,
            slot: 0,
            class,
        }
    }

    /// The object of serial `s` in a slot, which is not referenced, is about to be freed. Its fields are read if an
    /// index is kept that counts references.
    ///
    /// The only errors are the host's own.
    pub fn freed<H: Loads>(
        &mut self,
        h: &mut H,
        frames: u32,
        s: u64,
        at: &Slot,
    ) -> Result<(), HostFault>
        requires few { frames ≤ MAX_FRAMES }
        requires room { device_words frames ≤ (H.counts h.old).size }
        requires known { IsOnDevice frames self.old.puddles }
        requires within { IsSlotOf self.old.puddles at.now }
        ensures releases { ForGraphRead H.tells (H.state h.old) frames self.old.puddles (λ image g. IsInSlot frames self.old.puddles image s at.now
            → IsKnown frames image self.old → IfOk result (λ _. HasReleasedObject frames self.old.puddles image g s self.new.index)) }
        ensures places { IfOk result (λ _. FollowsPlaces (without_place s) self.old.placed self.new.placed) }
        ensures puddles { self.new.puddles ≡ self.old.puddles }
        ensures full { IfOk result (λ _. self.new.full_below ≡ full_after_freed at.now self.old.full_below) }
        ensures only_reads { OnlyReads H.tells H.state H.counts (fault_of result) h.old h.new }
    {
        release_fields(
            &mut self.index,
            self.counted,
            h,
            frames,
            self.puddles.as_slice(),
            at,
        )?;
        let place = place_of_slot(self.puddles.as_slice(), at);
        let below = self.full_below.of(at.class).min(place);
        self.full_below = self.full_below.with(at.class, below);
        if let Some(index) = &mut self.index {
            index.remove(s);
        }
        Ok(())
    }

    /// A transaction on the pool has ended: it was `undone`, or it was committed, with `deferred` values or without. If
    /// it was undone, all but the puddles is forgotten. Deferred values that are committed move no object, but the
    /// references are counted no more.
    pub fn ended(&mut self, undone: bool, deferred: bool)
        ensures { self.new ≡ after_end undone deferred self.old }
    {
        if undone {
            self.forget();
            return;
        }
        if deferred {
            self.counted = false;
        }
    }
}
