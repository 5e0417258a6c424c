//! Values of fields that a transaction defers until its commit, and whether one of them names an object.
#![tactic(auto)]

ghost use Rattle.std.specs.Prelude.{◌≡◌, ◌≢◌, ◌+◌, ◌<◌, ◌≤◌, ◌++◌, ◌∷◌, [], ℕ, true, false, All, map, Option, IfOk, IfSome, length};
ghost use Rattle.pm_model.specs.Words.{reads};
ghost use Rattle.pm_model.specs.Counts.{after_fault, fault_of};
ghost use Rattle.pm_model.specs.Reads.{OnlyReads};
ghost use Rattle.pm_model.specs.Changes.{Changes};
ghost use Rattle.pud_defs.specs.declared.layout.TheConstants.{LOG_WORDS, LOG_ENTRY_WORDS, MAX_FRAMES, MAX_FIELDS, SET_UNITS};
ghost use Rattle.pud_defs.specs.declared.log_words.TheConstants.{REDO_ORDER};
ghost use Rattle.pud_defs.specs.declared.space.TheConstants.{SLOT_FIELDS_WORD};
ghost use Rattle.pud_defs.specs.declared.records.Slot.{Slot};
ghost use Rattle.pud_defs.specs.Formats.Image.{Image};
ghost use Rattle.pud_defs.specs.Formats.Layout.{device_words, frames_at};
ghost use Rattle.pud_defs.specs.Formats.Bases.{is_legal_base};
ghost use Rattle.pud_defs.specs.Formats.Geometry.{class_slot_words};
ghost use Rattle.pud_defs.specs.PoolGraphs.Stored.{IsOnDevice};
ghost use Rattle.pud_defs.specs.PoolGraphs.DeferredValues.{deferred_value_names, deferred_set_names};
ghost use Rattle.log_entry.specs.Reading.{entry_from};
ghost use Rattle.log_store.specs.Store.{InLog};
ghost use Rattle.graph_laws.specs.Changes.{AreBases};
ghost use Rattle.puddle_header.specs.Places.{IsSlotOf};
ghost use Rattle.hybrid_tx.specs.Objects.FieldAddresses.{IsFieldAddress, IsFieldOf};
ghost use Rattle.hybrid_tx.specs.Objects.Stores.{IsInSlot, LacksPlaceOrWord};
ghost use Rattle.hybrid_tx.specs.Objects.Transactions.{MaySet};
ghost use Rattle.hybrid_tx.specs.Objects.Calls.{WhileOpenOnPlaced, WhileOpenByImage, IfDeferred, ChangesObject, ChangesField};

use crate::Tx;
use crate::changing::{has_field, place_and_word, slot_address};
use graph_read::find_serial;
use log_entry::{Entry, EntryReader};
use pm_model::{Host, HostFault};
use pud_defs::log_words::REDO_ORDER;
use pud_defs::objects::FieldValue;
use pud_defs::records::{MAX_PUDDLES, Puddle, Slot};
use pud_defs::space::{
    HEADER_BYTES, SLOT_FIELDS_WORD, WORD_BYTES, slot_begins, slot_bytes_of, slots_of,
};
use pud_defs::type_map::map_is_pointer;
use puddle_header::{slot_serial, slot_type};
use type_maps::find;

/// How many bytes of addresses a word takes.
const ONE_WORD: u64 = WORD_BYTES as u64;

/// How many words of a slot come before its fields.
const BEFORE_FIELDS: u64 = SLOT_FIELDS_WORD as u64;

/// The slot of the puddle and the field of it whose word has the address, if there is one.
fn field_in(puddle: &Puddle, address: u64) -> Option<(u32, u32)>
    ensures found { (slot : ℕ) (f : ℕ) → IsFieldAddress puddle.now address slot f → result ≡ Option.Some (slot, f) }
    ensures is { IfSome result (λ at. IsFieldAddress puddle.now address at.0 at.1) }
{
    let base = puddle.base;
    if address < base || address - base < HEADER_BYTES {
        return None;
    }
    let offset = address - base - HEADER_BYTES;
    let slot_bytes = slot_bytes_of(puddle);
    let slot = offset / slot_bytes;
    let word = offset % slot_bytes / ONE_WORD;
    if offset % ONE_WORD != 0 || slot >= u64::from(slots_of(puddle)) || word < BEFORE_FIELDS {
        return None;
    }
    Some((slot as u32, (word - BEFORE_FIELDS) as u32))
}

/// The slot of the pool and the field of it whose word has the address, if there is one.
fn field_of(pool: &[(u32, Puddle)], address: u64) -> Option<(Slot, u32)>
    requires { length pool.now ≤ MAX_PUDDLES }
    ensures found { AreBases (map (λ d. d.base) (map (λ e. e.1) pool.now)) → (slot : Slot) (f : ℕ) → IsFieldOf pool.now address slot f → result ≡ Option.Some (slot, f) }
    ensures is { IfSome result (λ at. IsFieldOf pool.now address at.0 at.1) }
{
    for ordinal in 0..pool.len() {
        let (frame, puddle) = pool[ordinal];
        if let Some((slot, f)) = field_in(&puddle, address) {
            let at = Slot {
                frame,
                ordinal: ordinal as u32,
                slot,
                class: puddle.class,
            };
            return Some((at, f));
        }
    }
    None
}

/// Whether an entry defers the value of a field and has the object of serial `s`, whose slot has this address: as the
/// object of the field, or as the value.
fn names<H: Host>(
    h: &mut H,
    frames: u32,
    pool: &[(u32, Puddle)],
    s: u64,
    address: u64,
    entry: &Entry,
) -> Result<bool, HostFault>
    requires few { frames ≤ MAX_FRAMES }
    requires room { device_words frames ≤ (H.counts h.old).size }
    requires known { IsOnDevice frames pool.now }
    requires source { entry.now.at < (H.counts h.old).size }
    ensures names { H.tells → (image : Image) → reads (H.state h.old).now.words ≡ image
        → IfDeferred frames pool.now image s address (entry_from image entry.now) (λ l. IfOk result (λ named. named ≡ deferred_value_names s l)) }
    ensures saves { entry.now.order ≢ REDO_ORDER → IfOk result (λ named. named ≡ false) }
    ensures only_reads { OnlyReads H.tells H.state H.counts (fault_of result) h.old h.new }
{
    if entry.order != REDO_ORDER {
        return Ok(false);
    }
    let Some((at, f)) = field_of(pool, entry.addr) else {
        return Ok(false);
    };
    let serial = slot_serial(h, frames, &at)?;
    if serial == s {
        return Ok(true);
    }
    let value = h.load(entry.at)?;
    if value != address {
        return Ok(false);
    }
    let id = slot_type(h, frames, &at)?;
    match find(h, id)? {
        Some(map) => Ok(map_is_pointer(map, f)),
        None => Ok(false),
    }
}

impl Tx {
    /// Defers another value of field `f` of the object of serial `s`. The field gets it at the commit, after all that
    /// is set, and after the values that were deferred before.
    ///
    /// The field is below 30, the log lies before the frames, and three units are left. Suppose that the object is
    /// live, its puddle is finished, its type has the field, and the field may hold the value. Then at `Ok` the value
    /// is deferred, and the pool's graph stays. Whatever a power loss leaves before the commit is, with the log
    /// replayed, as at the beginning.
    ///
    /// If no object has the serial, its slot has no such field, or no object has the serial that is to be named, nothing
    /// is done. The only errors are the host's own. Two fences.
    pub fn later<H: Host>(
        &mut self,
        h: &mut H,
        frames: u32,
        pool: &[(u32, Puddle)],
        s: u64,
        f: u32,
        x: FieldValue,
    ) -> Result<(), HostFault>
        requires few { frames ≤ MAX_FRAMES }
        requires device { device_words frames ≤ (H.counts h.old).size }
        requires known { IsOnDevice frames pool.now }
        requires place { (self.old).log.gate_at + LOG_WORDS ≤ frames_at frames }
        requires field { f < MAX_FIELDS }
        requires room { (self.old).units + SET_UNITS ≤ LOG_ENTRY_WORDS }
        ensures at { (self.new).log.gate_at ≡ (self.old).log.gate_at }
        ensures changes { H.tells → Changes (InLog (self.old).log.gate_at) (fault_of result) (H.state h.old) (H.state h.new) }
        ensures runs { H.tells → ChangesObject frames pool.now s (self.old).log (self.new).log (fault_of result) (H.state h.old) (H.state h.new)
            (λ types now deferred keeps. MaySet types now s f x → keeps now (deferred ++ record { s = s; f = f; x = x } ∷ [])) }
        ensures counts { H.tells → WhileOpenOnPlaced frames pool.now (self.old).log (H.state h.old).now.words (λ types now deferred.
            MaySet types now s f x → IfOk result (λ _. (self.new).units ≡ (self.old).units + SET_UNITS)) }
        ensures nothing { H.tells → All (λ e. is_legal_base e.1.base ≡ true) pool.now → LacksPlaceOrWord frames pool.now (reads (H.state h.old).now.words) s x
            → (H.state h.new ≡ H.state h.old) × (self.new ≡ self.old) }
        ensures cause { H.counts h.new ≡ after_fault (fault_of result) (H.counts h.old) }
    {
        match place_and_word(h, frames, pool, s, x)? {
            Some((at, word)) => {
                if !has_field(&at, f) {
                    return Ok(());
                }
                self.later_at(h, frames, pool, &at, f, word)
            }
            None => Ok(()),
        }
    }

    /// Defers the value for which the word stands, for field `f` of the object in a slot. It does what `later` does,
    /// without the search.
    ///
    /// The slot has the field, the log lies before the frames, and three units are left. The contract states what is
    /// deferred for each serial that the slot has, and each value for which the word stands. Two fences.
    #[tactic(auto, using(pud_defs::proofs::Formats::Geometry::slot_end))]
    pub fn later_at<H: Host>(
        &mut self,
        h: &mut H,
        frames: u32,
        pool: &[(u32, Puddle)],
        at: &Slot,
        f: u32,
        word: u64,
    ) -> Result<(), HostFault>
        requires few { frames ≤ MAX_FRAMES }
        requires device { device_words frames ≤ (H.counts h.old).size }
        requires known { IsOnDevice frames pool.now }
        requires place { (self.old).log.gate_at + LOG_WORDS ≤ frames_at frames }
        requires within { IsSlotOf pool.now at.now }
        requires field { SLOT_FIELDS_WORD + f < class_slot_words at.now.class }
        requires room { (self.old).units + SET_UNITS ≤ LOG_ENTRY_WORDS }
        ensures at { (self.new).log.gate_at ≡ (self.old).log.gate_at }
        ensures changes { H.tells → Changes (InLog (self.old).log.gate_at) (fault_of result) (H.state h.old) (H.state h.new) }
        ensures runs { H.tells → ChangesField frames pool.now at.now f word (self.old).log (self.new).log (fault_of result) (H.state h.old) (H.state h.new)
            (λ s x now deferred keeps. keeps now (deferred ++ record { s = s; f = f; x = x } ∷ [])) }
        ensures counts { IfOk result (λ _. (self.new).units ≡ (self.old).units + SET_UNITS) }
        ensures cause { H.counts h.new ≡ after_fault (fault_of result) (H.counts h.old) }
    {
        let field = slot_begins(at) + SLOT_FIELDS_WORD + f;
        self.defer_in_frame(h, pool, at.ordinal, field, word)
    }

    /// Whether a deferred value is one of a field of the object of serial `s`, or names that object.
    ///
    /// The log lies in the device, and the serial is not 0. If no object has the serial, the answer is no. Nothing
    /// changes, and the only errors are the host's own. It looks up the object, and then reads the log's entries, up
    /// to the first that names it.
    pub fn deferred_names<H: Host>(
        &self,
        h: &mut H,
        frames: u32,
        pool: &[(u32, Puddle)],
        s: u64,
    ) -> Result<bool, HostFault>
        requires few { frames ≤ MAX_FRAMES }
        requires device { device_words frames ≤ (H.counts h.old).size }
        requires known { IsOnDevice frames pool.now }
        requires place { (self.now).log.gate_at + LOG_WORDS ≤ (H.counts h.old).size }
        ensures names { H.tells → WhileOpenByImage frames pool.now (self.now).log (H.state h.old).now.words (λ image deferred.
            s ≢ 0 → IfOk result (λ named. named ≡ deferred_set_names s deferred)) }
        ensures only_reads { OnlyReads H.tells H.state H.counts (fault_of result) h.old h.new }
    {
        match find_serial(h, frames, pool, s)? {
            Some(at) => self.deferred_names_at(h, frames, pool, s, &at),
            None => Ok(false),
        }
    }

    /// The same for the object of serial `s`, not 0, that is in a slot, without the search.
    pub fn deferred_names_at<H: Host>(
        &self,
        h: &mut H,
        frames: u32,
        pool: &[(u32, Puddle)],
        s: u64,
        at: &Slot,
    ) -> Result<bool, HostFault>
        requires few { frames ≤ MAX_FRAMES }
        requires device { device_words frames ≤ (H.counts h.old).size }
        requires known { IsOnDevice frames pool.now }
        requires place { (self.now).log.gate_at + LOG_WORDS ≤ (H.counts h.old).size }
        requires within { IsSlotOf pool.now at.now }
        ensures names { H.tells → WhileOpenByImage frames pool.now (self.now).log (H.state h.old).now.words (λ image deferred.
            s ≢ 0 → IsInSlot frames pool.now image s at.now → IfOk result (λ named. named ≡ deferred_set_names s deferred)) }
        ensures only_reads { OnlyReads H.tells H.state H.counts (fault_of result) h.old h.new }
    {
        let address = slot_address(pool, at);
        let mut reader = EntryReader::new(self.at());
        while let Some(entry) = reader.next(h)? {
            if names(h, frames, pool, s, address, &entry)? {
                return Ok(true);
            }
        }
        Ok(false)
    }
}
