//! How a transaction changes objects: it sets a field or the root, and it makes or frees an object.
#![tactic(auto)]

ghost use Rattle.std.specs.Prelude.{◌≡◌, ◌⊎◌, ◌+◌, ◌<◌, ◌≤◌, ℕ, List, [], ◌∷◌, true, false, All, slice_get, Option, IfOk, IfSome, length, nat_lt};
ghost use Rattle.pm_model.specs.Words.{reads};
ghost use Rattle.pm_model.specs.Counts.{after_fault, fault_of};
ghost use Rattle.pm_model.specs.Reads.{OnlyReads};
ghost use Rattle.pm_model.specs.Changes.{placed, Changes};
ghost use Rattle.pud_defs.specs.declared.layout.TheConstants.{LOG_WORDS, LOG_ENTRY_WORDS, MAX_FRAMES, MAX_FIELDS, SET_UNITS};
ghost use Rattle.pud_defs.specs.Formats.Image.{Image};
ghost use Rattle.pud_defs.specs.Formats.Layout.{device_words, frames_at};
ghost use Rattle.pud_defs.specs.Formats.Bases.{is_legal_base};
ghost use Rattle.pud_defs.specs.declared.space.TheConstants.{MAX_SLOT_WORDS, SLOT_FIELDS_WORD, NEXT_SERIAL_WORD, ROOT_WORD};
ghost use Rattle.pud_defs.specs.Formats.Frames.{frame_at};
ghost use Rattle.pud_defs.specs.Formats.Geometry.{class_slot_words, slot_begins, new_units};
ghost use Rattle.pud_defs.specs.PoolGraphs.Stored.{IsOnDevice, stored_in, IsFreePlace};
ghost use Rattle.pud_defs.specs.PoolGraphs.Graph.{Graph, graph_of};
ghost use Rattle.pud_defs.specs.PoolGraphs.GraphChanges.{with_field, without_object};
ghost use Rattle.graph_laws.specs.Slots.{AreAllLive};
ghost use Rattle.puddle_header.specs.Places.{place_of_slot, IsSlotOf};
ghost use Rattle.graph_read.specs.Reading.{place_in_pool};
ghost use Rattle.object_alloc.specs.Alloc.{serial_word_at};
ghost use Rattle.log_store.specs.Store.{CountsAtOnce};
ghost use Rattle.word_transaction.specs.Running.{ByTransaction};
ghost use Rattle.hybrid_tx.specs.PoolScopes.{pool_scope, ArePlacedPuddles, IsRewrittenAt};
ghost use Rattle.pud_defs.specs.PoolGraphs.DeferredValues.{deferred_set_names};
ghost use Rattle.hybrid_tx.specs.Objects.Stores.{address_at, word_for, field_word, IsPlaceAndWord, LacksPlaceOrWord, new_object_words, ByPut, ByPutBoth};
ghost use Rattle.hybrid_tx.specs.Objects.Transactions.{MayName, MaySet, MayFree, MakesIn};
ghost use Rattle.hybrid_tx.specs.Objects.Puts.{PutsOnPool, PutsObject};
ghost use Rattle.hybrid_tx.specs.Objects.Calls.{WhileOpen, WhileOpenOnPlaced, ChangesObject, ChangesField, FreesInSlot, SetsRoot, SetsRootWord, MakesOfType, IfMayMakeIn, IfMayMake, MakesInLowest};

use crate::Tx;
use graph_read::find_serial;
use object_alloc::{AllocFault, alloc_slot, free_slot};
use pm_model::{Host, HostFault};
use pud_defs::layout::SET_UNITS;
use pud_defs::objects::FieldValue;
use pud_defs::records::{Puddle, Slot};
use pud_defs::space::{
    MAX_SLOT_WORDS, NEXT_SERIAL_WORD, ROOT_WORD, SLOT_FIELDS_WORD, SLOT_SERIAL_WORD,
    SLOT_TYPE_WORD, class_slot_words, frame_at, slot_at, slot_begins, word_address,
};
use puddle_header::next_serial;
use word_transaction::TxMark;

/// The address of a slot, over the pool's bases.
pub fn slot_address(pool: &[(u32, Puddle)], at: &Slot) -> u64
    requires within { IsSlotOf pool.now at.now }
    ensures address { All (λ e. is_legal_base e.1.base ≡ true) pool.now → result ≡ address_at pool.now (place_of_slot at.now) }
{
    let (_, puddle) = pool[at.ordinal as usize];
    word_address(puddle.base, slot_at(&puddle, at.slot))
}

/// The word that stands for a value: the number itself, 0 for null, or the address of the object of the serial. It is
/// None exactly if no object has the serial.
pub fn word_for<H: Host>(
    h: &mut H,
    frames: u32,
    pool: &[(u32, Puddle)],
    x: FieldValue,
) -> Result<Option<u64>, HostFault>
    requires few { frames ≤ MAX_FRAMES }
    requires room { device_words frames ≤ (H.counts h.old).size }
    requires known { IsOnDevice frames pool.now }
    ensures word { H.tells → All (λ e. is_legal_base e.1.base ≡ true) pool.now → (image : Image) → reads (H.state h.old).now.words ≡ image
        → IfOk result (λ word. word ≡ word_for frames pool.now image x) }
    ensures only_reads { OnlyReads H.tells H.state H.counts (fault_of result) h.old h.new }
{
    match x {
        FieldValue::Num(v) => Ok(Some(v)),
        FieldValue::Ref(r) => {
            if r == 0 {
                return Ok(Some(0));
            }
            match find_serial(h, frames, pool, r)? {
                Some(at) => Ok(Some(slot_address(pool, &at))),
                None => Ok(None),
            }
        }
    }
}

/// The slot of the object of serial `s`, and the word that stands for the value. The result is None exactly if there
/// is no such object, or no object that the value is to name. The value is looked up first, and each of the two is
/// looked up once.
pub fn place_and_word<H: Host>(
    h: &mut H,
    frames: u32,
    pool: &[(u32, Puddle)],
    s: u64,
    x: FieldValue,
) -> Result<Option<(Slot, u64)>, HostFault>
    requires few { frames ≤ MAX_FRAMES }
    requires room { device_words frames ≤ (H.counts h.old).size }
    requires known { IsOnDevice frames pool.now }
    ensures found { H.tells → All (λ e. is_legal_base e.1.base ≡ true) pool.now → (image : Image) → reads (H.state h.old).now.words ≡ image
        → IfOk result (λ found. IfSome found (IsPlaceAndWord frames pool.now image s x)) }
    ensures none { H.tells → All (λ e. is_legal_base e.1.base ≡ true) pool.now → (image : Image) → reads (H.state h.old).now.words ≡ image
        → IfOk result (λ found. found ≡ Option.None → LacksPlaceOrWord frames pool.now image s x) }
    ensures within { IfOk result (λ found. IfSome found (λ at. IsSlotOf pool.now at.0)) }
    ensures only_reads { OnlyReads H.tells H.state H.counts (fault_of result) h.old h.new }
{
    let Some(word) = word_for(h, frames, pool, x)? else {
        return Ok(None);
    };
    match find_serial(h, frames, pool, s)? {
        Some(at) => Ok(Some((at, word))),
        None => Ok(None),
    }
}

/// Whether a slot has a word for field `f`, 0 to 29.
pub fn has_field(at: &Slot, f: u32) -> bool
    requires { f < MAX_FIELDS }
    ensures { result ≡ nat_lt (SLOT_FIELDS_WORD + f) (class_slot_words at.now.class) }
{
    SLOT_FIELDS_WORD + f < class_slot_words(at.class)
}

/// The words of a new object of type `t` in a slot with the most words: its serial, its type, and 0 in each field. The
/// first of them are its words in a slot with fewer words.
#[tactic(auto, unfolding(crate::specs::Objects::Stores::new_object_words))]
fn new_object_words(serial: u64, t: u32) -> [u64; MAX_SLOT_WORDS as usize]
    ensures { result ≡ new_object_words MAX_SLOT_WORDS serial t }
{
    let mut words = [0u64; MAX_SLOT_WORDS as usize];
    words[SLOT_SERIAL_WORD as usize] = serial;
    words[SLOT_TYPE_WORD as usize] = t as u64;
    words
}

impl Tx {
    /// Gives field `f` of the object of serial `s` another value.
    ///
    /// The field is below 30, the log lies before the frames, and three units are left. Suppose that the object is
    /// live, its puddle is finished, its type has the field, and the field may hold the value. Then at `Ok` the
    /// pool's graph has the value in the field, and the deferred values stay. Whatever a power loss leaves before the
    /// commit is, with the log replayed, as at the beginning.
    ///
    /// If no object has the serial, its slot has no such field, or no object has the serial that is to be named,
    /// nothing is done. The only errors are the host's own. At most two fences.
    pub fn set<H: Host>(
        &mut self,
        h: &mut H,
        frames: u32,
        pool: &[(u32, Puddle)],
        s: u64,
        f: u32,
        x: FieldValue,
    ) -> Result<(), HostFault>
        requires few { frames ≤ MAX_FRAMES }
        requires device { device_words frames ≤ (H.counts h.old).size }
        requires known { IsOnDevice frames pool.now }
        requires place { (self.old).log.gate_at + LOG_WORDS ≤ frames_at frames }
        requires field { f < MAX_FIELDS }
        requires room { (self.old).units + SET_UNITS ≤ LOG_ENTRY_WORDS }
        ensures at { (self.new).log.gate_at ≡ (self.old).log.gate_at }
        ensures changes { H.tells → Changes (ByTransaction (pool_scope frames pool.now) (self.old).log.gate_at) (fault_of result) (H.state h.old) (H.state h.new) }
        ensures runs { H.tells → ChangesObject frames pool.now s (self.old).log (self.new).log (fault_of result) (H.state h.old) (H.state h.new)
            (λ types now deferred keeps. MaySet types now s f x → keeps (with_field s f x now) deferred) }
        ensures counts { H.tells → WhileOpenOnPlaced frames pool.now (self.old).log (H.state h.old).now.words (λ types now deferred.
            MaySet types now s f x → IfOk result (λ _. (self.new).units ≡ (self.old).units + SET_UNITS)) }
        ensures nothing { H.tells → All (λ e. is_legal_base e.1.base ≡ true) pool.now → LacksPlaceOrWord frames pool.now (reads (H.state h.old).now.words) s x
            → (H.state h.new ≡ H.state h.old) × (self.new ≡ self.old) }
        ensures cause { H.counts h.new ≡ after_fault (fault_of result) (H.counts h.old) }
    {
        match place_and_word(h, frames, pool, s, x)? {
            Some((at, word)) => {
                if !has_field(&at, f) {
                    return Ok(());
                }
                self.set_at(h, frames, pool, &at, f, word)
            }
            None => Ok(()),
        }
    }

    /// Gives field `f` of the object in a slot the value for which the word stands. It does what `set` does, without
    /// the search.
    ///
    /// The slot has the field, the log lies before the frames, and three units are left. The contract states what
    /// happens to the pool's graph for each serial that the slot has, and each value for which the word stands. At
    /// most two fences.
    #[tactic(auto, using(pud_defs::proofs::Formats::Geometry::slot_end))]
    pub fn set_at<H: Host>(
        &mut self,
        h: &mut H,
        frames: u32,
        pool: &[(u32, Puddle)],
        at: &Slot,
        f: u32,
        word: u64,
    ) -> Result<(), HostFault>
        requires few { frames ≤ MAX_FRAMES }
        requires device { device_words frames ≤ (H.counts h.old).size }
        requires known { IsOnDevice frames pool.now }
        requires place { (self.old).log.gate_at + LOG_WORDS ≤ frames_at frames }
        requires within { IsSlotOf pool.now at.now }
        requires field { SLOT_FIELDS_WORD + f < class_slot_words at.now.class }
        requires room { (self.old).units + SET_UNITS ≤ LOG_ENTRY_WORDS }
        ensures at { (self.new).log.gate_at ≡ (self.old).log.gate_at }
        ensures changes { H.tells → Changes (ByTransaction (pool_scope frames pool.now) (self.old).log.gate_at) (fault_of result) (H.state h.old) (H.state h.new) }
        // Only words of the log and the word of the field are written.
        ensures puts { H.tells → Changes (ByPut (self.old).log.gate_at (frame_at frames at.now.frame + field_word at.now f) (word ∷ [])) (fault_of result) (H.state h.old) (H.state h.new) }
        ensures runs { H.tells → ChangesField frames pool.now at.now f word (self.old).log (self.new).log (fault_of result) (H.state h.old) (H.state h.new)
            (λ s x now deferred keeps. keeps (with_field s f x now) deferred) }
        ensures counts { IfOk result (λ _. (self.new).units ≡ (self.old).units + SET_UNITS) }
        ensures cause { H.counts h.new ≡ after_fault (fault_of result) (H.counts h.old) }
    {
        let field = slot_begins(at) + SLOT_FIELDS_WORD + f;
        self.put_in_frame(h, frames, pool, at.ordinal, field, &[word])
    }

    /// Saves in the log what a slot and the next serial hold, if it is not saved already. Then gives the slot the
    /// words of an object, and the next serial this value.
    #[tactic(auto, using(pud_defs::proofs::Formats::Geometry::some_words, pud_defs::proofs::Formats::Geometry::few_words))]
    fn put_object<H: Host>(
        &mut self,
        h: &mut H,
        frames: u32,
        pool: &[(u32, Puddle)],
        at: &Slot,
        words: &[u64],
        next: u64,
    ) -> Result<(), HostFault>
        requires few { frames ≤ MAX_FRAMES }
        requires device { device_words frames ≤ (H.counts h.old).size }
        requires known { IsOnDevice frames pool.now }
        requires place { (self.old).log.gate_at + LOG_WORDS ≤ frames_at frames }
        requires within { IsSlotOf pool.now at.now }
        requires whole { length words.now ≡ class_slot_words at.now.class }
        requires room { (self.old).units + new_units at.now.class ≤ LOG_ENTRY_WORDS }
        ensures at { (self.new).log.gate_at ≡ (self.old).log.gate_at }
        ensures counts { IfOk result (λ _. (self.new).units ≡ (self.old).units + new_units at.now.class) }
        ensures changes { H.tells → (first : ℕ × Puddle) → slice_get pool.now 0 ≡ Option.Some first
            → Changes (ByPutBoth (self.old).log.gate_at (frame_at frames at.now.frame + slot_begins at.now) words.now (frame_at frames first.0 + NEXT_SERIAL_WORD) next) (fault_of result) (H.state h.old) (H.state h.new) }
        ensures at_once { H.tells → CountsAtOnce (self.old).log (self.new).log (fault_of result) (H.state h.old) (H.state h.new) }
        ensures saves { H.tells → PutsObject frames pool.now at.now words.now next (self.old).log (self.new).log (fault_of result) (H.state h.old) (H.state h.new) }
        ensures cause { H.counts h.new ≡ after_fault (fault_of result) (H.counts h.old) }
    {
        let (frame, head) = pool[0];
        let slot = frame_at(frames, at.frame) + slot_begins(at);
        let serial = frame_at(frames, frame) + NEXT_SERIAL_WORD;
        let serial_address = word_address(head.base, NEXT_SERIAL_WORD);
        self.put_both(
            h,
            slot_address(pool, at),
            slot,
            words,
            serial_address,
            serial,
            next,
        )
    }

    /// Makes an object of type `t` in a free slot under a serial. After it, the next serial of the pool is the one
    /// after this. It does what `new` does, without its reads.
    ///
    /// The log lies before the frames, and the units that the object takes are left: five, and as many as the slot has
    /// words. The contract states what happens to the pool's graph if the type is defined, the slot is free and has
    /// room for the object, the serial is the pool's next one and below 2^63, and two puddles are finished: that of the
    /// slot, and the first one, which has the next serial. At most two fences.
    #[tactic(auto, using(pud_defs::proofs::Formats::Geometry::few_words))]
    pub fn new_at<H: Host>(
        &mut self,
        h: &mut H,
        frames: u32,
        pool: &[(u32, Puddle)],
        at: &Slot,
        t: u32,
        serial: u64,
    ) -> Result<(), HostFault>
        requires few { frames ≤ MAX_FRAMES }
        requires device { device_words frames ≤ (H.counts h.old).size }
        requires known { IsOnDevice frames pool.now }
        requires place { (self.old).log.gate_at + LOG_WORDS ≤ frames_at frames }
        requires within { IsSlotOf pool.now at.now }
        requires room { (self.old).units + new_units at.now.class ≤ LOG_ENTRY_WORDS }
        ensures at { (self.new).log.gate_at ≡ (self.old).log.gate_at }
        ensures changes { H.tells → Changes (ByTransaction (pool_scope frames pool.now) (self.old).log.gate_at) (fault_of result) (H.state h.old) (H.state h.new) }
        // What the slot and the next serial held begins to count in the log together: by one value of the log's gate.
        ensures at_once { H.tells → CountsAtOnce (self.old).log (self.new).log (fault_of result) (H.state h.old) (H.state h.new) }
        ensures runs { H.tells → MakesOfType frames pool.now at.now.class t (self.old).log (self.new).log (fault_of result) (H.state h.old) (H.state h.new)
            (λ stored now made. IfMayMakeIn pool.now at.now serial now (IsFreePlace stored (place_of_slot at.now) → made)) }
        ensures makes { H.tells → WhileOpenOnPlaced frames pool.now (self.old).log (H.state h.old).now.words (λ types now deferred.
            IfMayMakeIn pool.now at.now serial now (MakesIn frames pool.now (self.old).log.gate_at at.now t (fault_of result) (H.state h.old) (H.state h.new))) }
        ensures counts { IfOk result (λ _. (self.new).units ≡ (self.old).units + new_units at.now.class) }
        ensures cause { H.counts h.new ≡ after_fault (fault_of result) (H.counts h.old) }
    {
        let words = new_object_words(serial, t);
        let count = class_slot_words(at.class) as usize;
        self.put_object(h, frames, pool, at, &words[..count], serial.wrapping_add(1))
    }

    /// Makes an object of type `t` in the lowest free slot of a class, each of its fields 0 or null. The answer is its
    /// serial, the next one of the pool. If no slot of the class is free, the answer is 0, and nothing is done.
    ///
    /// The log lies before the frames, and the units that an object of the class takes are left. Suppose that the type
    /// is defined, an object of it has room in a slot of the class, the next serial is below 2^63, and two puddles are
    /// finished: that of the slot, and the first one, which has the next serial. Then at `Ok` the pool's graph has the
    /// object, and the deferred values stay. Whatever a power loss leaves before the commit is, with the log replayed,
    /// as at the beginning. Outside the log only the words of that slot and the next serial are written.
    ///
    /// The only errors are the host's own. At most two fences.
    pub fn new<H: Host>(
        &mut self,
        h: &mut H,
        frames: u32,
        pool: &[(u32, Puddle)],
        class: u32,
        t: u32,
    ) -> Result<u64, HostFault>
        requires few { frames ≤ MAX_FRAMES }
        requires device { device_words frames ≤ (H.counts h.old).size }
        requires known { IsOnDevice frames pool.now }
        requires place { (self.old).log.gate_at + LOG_WORDS ≤ frames_at frames }
        requires room { (self.old).units + new_units class ≤ LOG_ENTRY_WORDS }
        ensures at { (self.new).log.gate_at ≡ (self.old).log.gate_at }
        ensures changes { H.tells → Changes (ByTransaction (pool_scope frames pool.now) (self.old).log.gate_at) (fault_of result) (H.state h.old) (H.state h.new) }
        ensures runs { H.tells → MakesOfType frames pool.now class t (self.old).log (self.new).log (fault_of result) (H.state h.old) (H.state h.new)
            (λ stored now made. IfMayMake frames pool.now class (H.state h.old).now.words now ((AreAllLive class stored → ⊥) → made)) }
        ensures makes { H.tells → WhileOpenOnPlaced frames pool.now (self.old).log (H.state h.old).now.words (λ types now deferred.
            IfMayMake frames pool.now class (H.state h.old).now.words now (MakesInLowest frames pool.now class (self.old).log.gate_at t (fault_of result) (H.state h.old) (H.state h.new))) }
        ensures serial { H.tells → (types : List (ℕ × ℕ)) (now : Graph) → graph_of types (stored_in frames pool.now (reads (H.state h.old).now.words)) ≡ Option.Some now
            → (AreAllLive class (stored_in frames pool.now (reads (H.state h.old).now.words)) → ⊥) → IfOk result (λ serial. serial ≡ now.next_serial) }
        ensures counts { H.tells → (AreAllLive class (stored_in frames pool.now (reads (H.state h.old).now.words)) → ⊥) → IfOk result (λ _. (self.new).units ≡ (self.old).units + new_units class) }
        ensures full { H.tells → AreAllLive class (stored_in frames pool.now (reads (H.state h.old).now.words))
            → IfOk result (λ serial. serial ≡ 0) × (H.state h.new ≡ H.state h.old) × (self.new ≡ self.old) }
        ensures cause { H.counts h.new ≡ after_fault (fault_of result) (H.counts h.old) }
    {
        match alloc_slot(h, frames, pool, class) {
            Ok(at) => {
                let (first, _) = pool[0];
                let serial = next_serial(h, frames, first)?;
                self.new_at(h, frames, pool, &at, t, serial)?;
                Ok(serial)
            }
            Err(AllocFault::Full) => Ok(0),
            Err(AllocFault::Host(fault)) => Err(fault),
        }
    }

    /// Saves the serial of a slot in the log, if it is not saved already, and then frees the slot.
    fn clear<H: Host>(
        &mut self,
        h: &mut H,
        frames: u32,
        pool: &[(u32, Puddle)],
        at: Slot,
    ) -> Result<(), HostFault>
        requires few { frames ≤ MAX_FRAMES }
        requires device { device_words frames ≤ (H.counts h.old).size }
        requires known { IsOnDevice frames pool.now }
        requires place { (self.old).log.gate_at + LOG_WORDS ≤ frames_at frames }
        requires within { IsSlotOf pool.now at }
        requires room { (self.old).units + SET_UNITS ≤ LOG_ENTRY_WORDS }
        ensures at { (self.new).log.gate_at ≡ (self.old).log.gate_at }
        ensures counts { IfOk result (λ _. (self.new).units ≡ (self.old).units + SET_UNITS) }
        ensures changes { H.tells → Changes (ByTransaction (pool_scope frames pool.now) (self.old).log.gate_at) (fault_of result) (H.state h.old) (H.state h.new) }
        ensures puts { H.tells → Changes (ByPut (self.old).log.gate_at (serial_word_at frames at) (0 ∷ [])) (fault_of result) (H.state h.old) (H.state h.new) }
        ensures frees { H.tells → fault_of result ≡ Option.None → reads (H.state h.new).now.words (serial_word_at frames at) ≡ 0 }
        ensures saves { H.tells → ArePlacedPuddles frames pool.now → IsRewrittenAt pool.now at.ordinal
            → PutsOnPool frames pool.now (placed (serial_word_at frames at) (0 ∷ [])) (self.old).log (self.new).log (fault_of result) (H.state h.old) (H.state h.new) }
        ensures cause { H.counts h.new ≡ after_fault (fault_of result) (H.counts h.old) }
    {
        let serial = slot_begins(&at) + SLOT_SERIAL_WORD;
        let first = frame_at(frames, at.frame) + serial;
        self.words
            .save(h, TxMark::start(), slot_address(pool, &at), first, 1)?;
        self.units += SET_UNITS;
        free_slot(h, frames, at)
    }

    /// Frees the object in a slot. It does what `free` does, without the search.
    ///
    /// The log lies before the frames, and three units are left. The contract states what happens to the pool's graph
    /// for each serial that the slot has. At most two fences.
    pub fn free_at<H: Host>(
        &mut self,
        h: &mut H,
        frames: u32,
        pool: &[(u32, Puddle)],
        at: &Slot,
    ) -> Result<(), HostFault>
        requires few { frames ≤ MAX_FRAMES }
        requires device { device_words frames ≤ (H.counts h.old).size }
        requires known { IsOnDevice frames pool.now }
        requires place { (self.old).log.gate_at + LOG_WORDS ≤ frames_at frames }
        requires within { IsSlotOf pool.now at.now }
        requires room { (self.old).units + SET_UNITS ≤ LOG_ENTRY_WORDS }
        ensures at { (self.new).log.gate_at ≡ (self.old).log.gate_at }
        ensures changes { H.tells → Changes (ByTransaction (pool_scope frames pool.now) (self.old).log.gate_at) (fault_of result) (H.state h.old) (H.state h.new) }
        // Only words of the log and the word of the serial are written.
        ensures puts { H.tells → Changes (ByPut (self.old).log.gate_at (serial_word_at frames at.now) (0 ∷ [])) (fault_of result) (H.state h.old) (H.state h.new) }
        ensures frees { H.tells → fault_of result ≡ Option.None → reads (H.state h.new).now.words (serial_word_at frames at.now) ≡ 0 }
        ensures runs { H.tells → FreesInSlot frames pool.now at.now (self.old).log (self.new).log (fault_of result) (H.state h.old) (H.state h.new) }
        ensures counts { IfOk result (λ _. (self.new).units ≡ (self.old).units + SET_UNITS) }
        ensures cause { H.counts h.new ≡ after_fault (fault_of result) (H.counts h.old) }
    {
        self.clear(h, frames, pool, *at)
    }

    /// Frees the object of serial `s`. From then on its slot may hold a new object.
    ///
    /// The log lies before the frames, and three units are left. Suppose that the object is live and not referenced,
    /// no deferred value names it, and its puddle is finished. Then at `Ok` the pool's graph is without it, and the
    /// deferred values stay. Whatever a power loss leaves before the commit is, with the log replayed, as at the
    /// beginning.
    ///
    /// If no object has the serial, nothing is done. The only errors are the host's own. At most two fences.
    pub fn free<H: Host>(
        &mut self,
        h: &mut H,
        frames: u32,
        pool: &[(u32, Puddle)],
        s: u64,
    ) -> Result<(), HostFault>
        requires few { frames ≤ MAX_FRAMES }
        requires device { device_words frames ≤ (H.counts h.old).size }
        requires known { IsOnDevice frames pool.now }
        requires place { (self.old).log.gate_at + LOG_WORDS ≤ frames_at frames }
        requires room { (self.old).units + SET_UNITS ≤ LOG_ENTRY_WORDS }
        ensures at { (self.new).log.gate_at ≡ (self.old).log.gate_at }
        ensures changes { H.tells → Changes (ByTransaction (pool_scope frames pool.now) (self.old).log.gate_at) (fault_of result) (H.state h.old) (H.state h.new) }
        ensures runs { H.tells → ChangesObject frames pool.now s (self.old).log (self.new).log (fault_of result) (H.state h.old) (H.state h.new)
            (λ types now deferred keeps. MayFree now s → deferred_set_names s deferred ≡ false → keeps (without_object s now) deferred) }
        ensures counts { H.tells → WhileOpen frames pool.now (self.old).log (H.state h.old).now.words (λ types now deferred.
            MayFree now s → IfOk result (λ _. (self.new).units ≡ (self.old).units + SET_UNITS)) }
        ensures nothing { H.tells → place_in_pool frames pool.now (reads (H.state h.old).now.words) s ≡ Option.None
            → (H.state h.new ≡ H.state h.old) × (self.new ≡ self.old) }
        ensures cause { H.counts h.new ≡ after_fault (fault_of result) (H.counts h.old) }
    {
        match find_serial(h, frames, pool, s)? {
            Some(at) => self.free_at(h, frames, pool, &at),
            None => Ok(()),
        }
    }

    /// Makes the object of serial `s` the pool's root, or removes the root if `s` is 0.
    ///
    /// The log lies before the frames, and three units are left. Suppose that `s` is 0 or its object is live, and
    /// that the puddle of ordinal 0 is finished. Then at `Ok` it is the root of the pool's graph, and the deferred
    /// values stay. Whatever a power loss leaves before the commit is, with the log replayed, as at the beginning.
    ///
    /// If no object has the serial, or the pool has no puddle, nothing is done. The only errors are the host's own.
    /// At most two fences.
    pub fn root<H: Host>(
        &mut self,
        h: &mut H,
        frames: u32,
        pool: &[(u32, Puddle)],
        s: u64,
    ) -> Result<(), HostFault>
        requires few { frames ≤ MAX_FRAMES }
        requires device { device_words frames ≤ (H.counts h.old).size }
        requires known { IsOnDevice frames pool.now }
        requires place { (self.old).log.gate_at + LOG_WORDS ≤ frames_at frames }
        requires room { (self.old).units + SET_UNITS ≤ LOG_ENTRY_WORDS }
        ensures at { (self.new).log.gate_at ≡ (self.old).log.gate_at }
        ensures changes { H.tells → Changes (ByTransaction (pool_scope frames pool.now) (self.old).log.gate_at) (fault_of result) (H.state h.old) (H.state h.new) }
        ensures runs { H.tells → SetsRoot frames pool.now s (self.old).log (self.new).log (fault_of result) (H.state h.old) (H.state h.new) }
        ensures counts { H.tells → WhileOpenOnPlaced frames pool.now (self.old).log (H.state h.old).now.words (λ types now deferred.
            MayName now s → IfOk result (λ _. (self.new).units ≡ (self.old).units + SET_UNITS)) }
        ensures nothing { H.tells → All (λ e. is_legal_base e.1.base ≡ true) pool.now
            → (length pool.now ≡ 0) ⊎ (word_for frames pool.now (reads (H.state h.old).now.words) (FieldValue.Ref s) ≡ Option.None)
            → (H.state h.new ≡ H.state h.old) × (self.new ≡ self.old) }
        ensures cause { H.counts h.new ≡ after_fault (fault_of result) (H.counts h.old) }
    {
        match word_for(h, frames, pool, FieldValue::Ref(s))? {
            Some(word) => self.root_at(h, frames, pool, word),
            None => Ok(()),
        }
    }

    /// Makes the object for which the word stands the pool's root, or removes the root if the word is 0. It does what
    /// `root` does, without the search.
    ///
    /// The log lies before the frames, and three units are left. The contract states what happens to the pool's graph
    /// for each serial for which the word stands. If the pool has no puddle, nothing is done. At most two fences.
    pub fn root_at<H: Host>(
        &mut self,
        h: &mut H,
        frames: u32,
        pool: &[(u32, Puddle)],
        word: u64,
    ) -> Result<(), HostFault>
        requires few { frames ≤ MAX_FRAMES }
        requires device { device_words frames ≤ (H.counts h.old).size }
        requires known { IsOnDevice frames pool.now }
        requires place { (self.old).log.gate_at + LOG_WORDS ≤ frames_at frames }
        requires room { (self.old).units + SET_UNITS ≤ LOG_ENTRY_WORDS }
        ensures at { (self.new).log.gate_at ≡ (self.old).log.gate_at }
        ensures changes { H.tells → Changes (ByTransaction (pool_scope frames pool.now) (self.old).log.gate_at) (fault_of result) (H.state h.old) (H.state h.new) }
        // Only words of the log and the word of the root are written.
        ensures puts { H.tells → (e : ℕ × Puddle) → slice_get pool.now 0 ≡ Option.Some e
            → Changes (ByPut (self.old).log.gate_at (frame_at frames e.0 + ROOT_WORD) (word ∷ [])) (fault_of result) (H.state h.old) (H.state h.new) }
        ensures runs { H.tells → SetsRootWord frames pool.now word (self.old).log (self.new).log (fault_of result) (H.state h.old) (H.state h.new) }
        ensures counts { H.tells → WhileOpen frames pool.now (self.old).log (H.state h.old).now.words (λ types now deferred. IfOk result (λ _. (self.new).units ≡ (self.old).units + SET_UNITS)) }
        ensures nothing { length pool.now ≡ 0 → (H.state h.new ≡ H.state h.old) × (self.new ≡ self.old) }
        ensures cause { H.counts h.new ≡ after_fault (fault_of result) (H.counts h.old) }
    {
        if pool.is_empty() {
            return Ok(());
        }
        self.put_in_frame(h, frames, pool, 0, ROOT_WORD, &[word])
    }
}
