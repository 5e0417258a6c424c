//! An index of a pool, kept in memory: where each live object stands, and its reference count.

ghost use Rattle.std.specs.Prelude.{◌≡◌, ◌≢◌, ℕ, true, false, Option, option_map, IfSome};
ghost use Rattle.graph_read.specs.Index.{kept_under, KeepsBut, unreferenced_at, place_kept, references_kept, HasReference, HasRoom, MayBeReferenced, after_release, after_retain, after_retarget};

use indexmap::IndexMap;
use std::alloc::Global;

/// What an index keeps about an object.
#[derive(Clone, Copy)]
pub struct Kept {
    /// The ordinal of its puddle, from 0 to 15.
    ordinal: u32,
    /// Its slot in that puddle.
    slot: u32,
    /// Its reference count: how many pointers name it, the root included.
    references: u32,
}

/// An index of a pool. For each live object, by its serial, it keeps the ordinal and the slot where the object stands,
/// and how many pointers of live objects name it, the root included.
#[derive(Drop)]
pub struct Index {
    map: IndexMap<u64, Kept>,
}

impl Index {
    /// An empty index, which allocates its memory from `alloc` as it grows.
    pub(crate) fn new(alloc: Global) -> Index
        ensures { (q : ℕ) → kept_under result q ≡ Option.None }
    {
        Index {
            map: IndexMap::new(alloc),
        }
    }

    /// Returns the ordinal and the slot where the object of serial `s` stands, or None exactly if the index does not
    /// have it.
    pub fn find(&self, s: u64) -> Option<(u32, u32)>
        ensures { result ≡ option_map place_kept (kept_under self.now s) }
    {
        self.map.get(&s).map(|kept| (kept.ordinal, kept.slot))
    }

    /// Returns the reference count of the object of serial `s`: how many pointers of live objects name it, the root
    /// included. It is 0 if the index does not have the object.
    pub fn references(&self, s: u64) -> u32
        ensures { result ≡ references_kept (kept_under self.now s) }
    {
        match self.map.get(&s) {
            Some(kept) => kept.references,
            None => 0,
        }
    }

    /// Keeps an object of serial `s` without a reference, at this ordinal and slot. It replaces what the index kept
    /// about the serial. The answer is false if allocation fails, and then nothing changes.
    pub fn insert(&mut self, s: u64, place: (u32, u32)) -> bool
        ensures kept { result ≡ true → KeepsBut self.old self.new s (Option.Some (unreferenced_at place)) }
        ensures unchanged { result ≡ false → (q : ℕ) → kept_under self.new q ≡ kept_under self.old q }
    {
        let (ordinal, slot) = place;
        let kept = Kept {
            ordinal,
            slot,
            references: 0,
        };
        self.map.insert(s, kept).is_ok()
    }

    /// Removes what the index keeps about serial `s`. Nothing is allocated.
    pub fn remove(&mut self, s: u64)
        ensures { KeepsBut self.old self.new s Option.None }
    {
        self.map.swap_remove(&s);
    }

    /// Counts one reference fewer to serial `s`, unless `s` is 0.
    fn release(&mut self, s: u64)
        requires referenced { s ≢ 0 → HasReference (kept_under self.old s) }
        ensures { (q : ℕ) → kept_under self.new q ≡ after_release s q (kept_under self.old q) }
    {
        if s == 0 {
            return;
        }
        if let Some(kept) = self.map.get_mut(&s) {
            kept.references -= 1;
        }
    }

    /// Counts one more reference to serial `s`, unless `s` is 0 or is not in the index.
    pub(crate) fn retain(&mut self, s: u64)
        requires room { s ≢ 0 → IfSome (kept_under self.old s) HasRoom }
        ensures { (q : ℕ) → kept_under self.new q ≡ after_retain s q (kept_under self.old q) }
    {
        if s == 0 {
            return;
        }
        if let Some(kept) = self.map.get_mut(&s) {
            kept.references += 1;
        }
    }

    /// Counts that a pointer that named serial `from` names `to` instead. Serial 0 is null, and names no object. Each
    /// of the two that is not 0 is in the index: `from` has a reference, and `to` has fewer than 2^32 - 1. Nothing is
    /// allocated.
    pub fn retarget(&mut self, from: u64, to: u64)
        requires referenced { from ≢ 0 → HasReference (kept_under self.old from) }
        requires room { to ≢ 0 → MayBeReferenced (kept_under self.old to) }
        ensures { (q : ℕ) → kept_under self.new q ≡ after_retarget from to q (kept_under self.old q) }
    {
        self.release(from);
        self.retain(to);
    }
}
