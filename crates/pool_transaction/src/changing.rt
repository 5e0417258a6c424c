//! The changes that an open transaction makes to its pool: it sets a field or the root, defers a field's value, and
//! frees or makes an object.
ghost use Rattle.pool_transaction.specs.Premises.{MakesFor, WhileRuns, WhileGrows, WhileMakes, WhileGrowsBy, IfMayChange, IfFound, DoesUpdate, DoesNew, DoesNewGrown, DoesChange, AppliesMaking};
ghost use Rattle.std.specs.Prelude.{◌≡◌, ◌≢◌, ◌+◌, ◌<◌, ◌≤◌, ℕ, List, length, Option, IfOk, IfSome, IfNone};
ghost use Rattle.pm_model.specs.Words.{IsRested, reads};
ghost use Rattle.pm_model.specs.Counts.{after_fault, fault_of};
ghost use Rattle.pm_model.specs.Reads.{OnlyReads};
ghost use Rattle.pm_model.specs.Changes.{Changes};
ghost use Rattle.pud_defs.specs.declared.layout.TheConstants.{DAEMON_LOG, LOG_WORDS, LOG_ENTRY_WORDS, MAX_FRAMES, SET_UNITS};
ghost use Rattle.pud_defs.specs.declared.records.TheConstants.{MAX_PUDDLES};
ghost use Rattle.pud_defs.specs.declared.space.TheConstants.{CLASSES};
ghost use Rattle.pud_defs.specs.Formats.Geometry.{new_units};
ghost use Rattle.pud_defs.specs.Formats.Image.{Image};
ghost use Rattle.pud_defs.specs.Formats.Layout.{device_words, frames_at};
ghost use Rattle.pud_defs.specs.RegistryTables.Types.{map_of, types_of};
ghost use Rattle.pud_defs.specs.PoolGraphs.Stored.{IsOnDevice, stored_in};
ghost use Rattle.pud_defs.specs.PoolGraphs.Graph.{Graph, next_serial_of};
ghost use Rattle.pud_defs.specs.PoolGraphs.DeferredValues.{DeferredValue};
ghost use Rattle.pud_defs.specs.StateMachine.Step.{class_made};
ghost use Rattle.graph_laws.specs.Slots.{AreAllLive, IsLowestFreeSlot};
ghost use Rattle.object_alloc.specs.Alloc.{AreLiveBefore};
ghost use Rattle.puddle_header.specs.Places.{place_of_slot, places_in, IsSlotOf};
ghost use Rattle.graph_read.specs.Bases.{HasLowBases};
ghost use Rattle.batch.specs.Batches.{HasIdleGate};
ghost use Rattle.lazy_rewrite.specs.Frontiers.{frontiers_of};
ghost use Rattle.lazy_rewrite.specs.Batches.{Rewrites};
ghost use Rattle.word_transaction.specs.Running.{ByTransaction};
ghost use Rattle.hybrid_tx.specs.PoolScopes.{pool_scope, ArePlacedPuddles};
ghost use Rattle.hybrid_tx.specs.Objects.Transactions.{IsOpenOn, KeepsOpenOn};
ghost use Rattle.known_pool.specs.Indexes.{Follows, FollowsPlaces, with_place, after_made};
ghost use Rattle.known_pool.specs.Searches.{full_after_made};
ghost use Rattle.daemon_memory.specs.ActiveTransactions.{IsActiveWithin};
ghost use Rattle.registry.specs.Adding.{IsAddedWithin, filling, PersistsThenCommits};
ghost use Rattle.registry.specs.Growth.{growing, added_puddle};
ghost use Rattle.registry.specs.Puts.{puts_batch};
ghost use Rattle.registry.specs.Places.{refusal_in};
ghost use Rattle.pool_transaction.specs.Changing.{with_known, changed_by, IsLegalChange, IsLegalUpdate, ordinal_written, IsFoundWithin, SparesSerials, FollowsUpdate, StaysOpen, class_by_map, refusal_to_make, refusal_by_tables, GrowsBy, with_puddle_added, both_finished};
ghost use Rattle.pool_transaction.specs.Writing.{ByUpdate};
ghost use Rattle.pool_transaction.specs.Finishing.{IsLonger};
ghost use Rattle.daemon_memory.specs.Ready.{KeepsRest, Applies};

use crate::refusals::find_update;
use daemon_memory::PoolTransaction;
use graph_read::FieldRead;
use hybrid_tx::Tx;
use known_pool::KnownPool;
use lazy_rewrite::finish;
use object_alloc::{AllocFault, alloc_slot_from};
use pm_model::{Host, HostFault, Loads};
use pud_defs::layout::{LOG_ENTRY_WORDS, MAX_FIELDS, NUMBER_LIMIT};
use pud_defs::machine::{Refusal, Reply};
use pud_defs::objects::FieldValue;
use pud_defs::records::{Puddle, Slot};
use pud_defs::space::{class_for, new_units};
use pud_defs::type_map::map_fields;
use puddle_header::next_serial;
use puddle_table::Puddles;
use registry::{NewPuddle, grow_pool};
use type_maps::find;

/// A change that a line makes within an open transaction.
#[derive(Clone, Copy)]
pub enum Change {
    /// Makes an object of type `t`. The reply is its serial.
    New { t: u32 },
    /// Updates an object or the root. The reply is only `ok`.
    Update(Update),
}

/// An update that a line makes to an object or to the root.
#[derive(Clone, Copy)]
pub enum Update {
    /// Sets field `f` of the object with serial `s` to the value `x`.
    Set { s: u64, f: u32, x: FieldValue },
    /// Gives the field the value at the commit, after all that the transaction sets and all that it deferred before.
    Later { s: u64, f: u32, x: FieldValue },
    /// Makes the object with serial `s` the root. With 0 the pool has no root.
    Root { s: u64 },
    /// Frees the object with serial `s`.
    Free { s: u64 },
}

/// An update that may be made, with what was found about the objects that its line names.
#[derive(Clone, Copy)]
pub(crate) enum FoundUpdate {
    /// Field `f` of the object in slot `at` gets `word`, which stands for the value `x`: at once, or at the commit if
    /// `later`. `read` is what was read of the field.
    Field {
        at: Slot,
        f: u32,
        word: u64,
        read: FieldRead,
        x: FieldValue,
        later: bool,
    },
    /// The root was the object with serial `was`. It becomes the object with serial `s`, for which `word` stands. Each
    /// serial may be 0. If `s` is 0, `word` is 0.
    Root {
        word: u64,
        was: u64,
        s: u64,
    },
    /// The object in slot `at`, which has serial `s`, is freed.
    Object {
        at: Slot,
        s: u64,
    },
}

/// The next serial of the pool with these puddles. It is 0 if there are no puddles.
fn next_serial_of<H: Host>(h: &mut H, frames: u32, pool: &[(u32, Puddle)]) -> Result<u64, HostFault>
    requires few { frames ≤ MAX_FRAMES }
    requires room { device_words frames ≤ (H.counts h.old).size }
    requires known { IsOnDevice frames pool.now }
    ensures serial { H.tells → (image : Image) → reads (H.state h.old).now.words ≡ image → IfOk result (λ serial. serial ≡ next_serial_of (stored_in frames pool.now image)) }
    ensures only_reads { OnlyReads H.tells H.state H.counts (fault_of result) h.old h.new }
{
    if pool.is_empty() {
        return Ok(0);
    }
    let (first, _) = pool[0];
    next_serial(h, frames, first)
}

/// The class of the puddles in which an object is made, or why none is made, whatever slots are free. It depends on the
/// map of the object's type, the units that are used, and the next serial.
#[tactic(auto, using(pud_defs::proofs::Formats::Geometry::few_words, pud_defs::proofs::Formats::Geometry::class_for_legal))]
fn class_to_make(map: Option<u64>, units: u32, next: u64) -> Result<u32, Refusal>
    requires { units ≤ LOG_ENTRY_WORDS }
    ensures refusal { refusal_in result ≡ refusal_to_make map units next }
    ensures class { IfOk result (λ class. class ≡ class_by_map map) }
    ensures legal { IfOk result (λ class. class < CLASSES) }
    ensures fits { IfOk result (λ class. units + new_units class ≤ LOG_ENTRY_WORDS) }
{
    let Some(map) = map else {
        return Err(Refusal::NoType);
    };
    let class = class_for(map_fields(map).min(MAX_FIELDS));
    if units + new_units(class) > LOG_ENTRY_WORDS {
        return Err(Refusal::TooBig);
    }
    if next >= NUMBER_LIMIT {
        return Err(Refusal::Full);
    }
    Ok(class)
}

/// The puddle that is added, as the pool's list keeps it.
fn added_puddle(added: NewPuddle) -> Puddle
    ensures { result ≡ added_puddle added }
{
    let NewPuddle { puddle, .. } = added;
    Puddle {
        number: puddle.number,
        base: puddle.base,
        old_base: puddle.old_base,
        frontier: puddle.frontier,
        class: puddle.class,
    }
}

/// The ordinal of the puddle that the found update writes.
fn ordinal_written(found: FoundUpdate) -> u32
    ensures { result ≡ ordinal_written found }
{
    match found {
        FoundUpdate::Field { at, .. } | FoundUpdate::Object { at, .. } => at.ordinal,
        FoundUpdate::Root { .. } => 0,
    }
}

/// Makes the found update within the transaction on the pool with these puddles. It searches nothing.
fn carry_out<H: Host>(
    tx: &mut Tx,
    h: &mut H,
    frames: u32,
    pool: &[(u32, Puddle)],
    found: FoundUpdate,
) -> Result<(), HostFault>
    requires few { frames ≤ MAX_FRAMES }
    requires device { device_words frames ≤ (H.counts h.old).size }
    requires known { IsOnDevice frames pool.now }
    requires place { (tx.old).log.gate_at + LOG_WORDS ≤ frames_at frames }
    requires within { IsFoundWithin pool.now found }
    requires room { (tx.old).units + SET_UNITS ≤ LOG_ENTRY_WORDS }
    ensures at { (tx.new).log.gate_at ≡ (tx.old).log.gate_at }
    ensures changes { H.tells → Changes (ByTransaction (pool_scope frames pool.now) (tx.old).log.gate_at) (fault_of result) (H.state h.old) (H.state h.new) }
    // Only words of the log and the word of the update are written.
    ensures puts { H.tells → Changes (ByUpdate frames (tx.old).log.gate_at pool.now found) (fault_of result) (H.state h.old) (H.state h.new) }
    ensures runs { H.tells → IfMayChange frames pool.now found (tx.old).log (H.state h.old) (λ types before graph_before t update.
        KeepsOpenOn frames pool.now types (tx.new).log before graph_before (changed_by update t).now (changed_by update t).deferred (fault_of result) (H.state h.old) (H.state h.new)) }
    ensures serials { H.tells → fault_of result ≡ Option.None → ArePlacedPuddles frames pool.now → SparesSerials frames pool.now found (reads (H.state h.old).now.words) (reads (H.state h.new).now.words) }
    ensures counts { H.tells → (types : List (ℕ × ℕ)) (before : Image) (graph_before : Graph) (now : Graph) (deferred : List DeferredValue)
        → IsOpenOn frames pool.now types (tx.old).log before graph_before now deferred (H.state h.old).now.words → IfOk result (λ _. (tx.new).units ≡ (tx.old).units + SET_UNITS) }
    ensures cause { H.counts h.new ≡ after_fault (fault_of result) (H.counts h.old) }
{
    match found {
        FoundUpdate::Field {
            at,
            f,
            word,
            later,
            ..
        } => {
            if later {
                tx.later_at(h, frames, pool, &at, f, word)
            } else {
                tx.set_at(h, frames, pool, &at, f, word)
            }
        }
        FoundUpdate::Root { word, .. } => tx.root_at(h, frames, pool, word),
        FoundUpdate::Object { at, .. } => tx.free_at(h, frames, pool, &at),
    }
}

/// Brings what the daemon knows about the pool in line with the found update, before the update is made.
///
/// If a field or the root is to be set, the pointer in it is no longer counted, and the pointer that it gets is. If an
/// object is to be freed, what it names is released, and the object is no longer kept. A deferred value changes nothing
/// yet. Fields are read only of an object that is to be freed.
///
/// The only errors are the host's own.
fn follow<H: Loads>(
    pool: &mut KnownPool,
    h: &mut H,
    frames: u32,
    found: FoundUpdate,
) -> Result<(), HostFault>
    requires few { frames ≤ MAX_FRAMES }
    requires room { device_words frames ≤ (H.counts h.old).size }
    requires known { IsOnDevice frames pool.old.puddles }
    requires within { IsFoundWithin pool.old.puddles found }
    ensures follows { H.tells → IfFound frames pool.old found (H.state h.old).now.words (λ image g.
        IfOk result (λ _. FollowsUpdate frames pool.old.puddles image g found pool.old pool.new)) }
    ensures puddles { pool.new.puddles ≡ pool.old.puddles }
    ensures only_reads { OnlyReads H.tells H.state H.counts (fault_of result) h.old h.new }
{
    match found {
        FoundUpdate::Field { read, x, later, .. } => {
            if later {
                return Ok(());
            }
            match read {
                FieldRead::Value(was) => pool.moved(was, x),
                FieldRead::NoObject | FieldRead::NoField => pool.forget(),
            }
            Ok(())
        }
        FoundUpdate::Root { was, s, .. } => {
            pool.moved(FieldValue::Ref(was), FieldValue::Ref(s));
            Ok(())
        }
        FoundUpdate::Object { at, s } => pool.freed(h, frames, s, &at),
    }
}

/// The lowest free slot of a class in the pool, or `None` if each slot of the class is live. The search starts at the
/// place `from`. The promises hold if each slot of the class before it is live.
fn find_free_slot<H: Host>(
    h: &mut H,
    frames: u32,
    pool: &[(u32, Puddle)],
    class: u32,
    from: u32,
) -> Result<Option<Slot>, HostFault>
    requires few { frames ≤ MAX_FRAMES }
    requires room { device_words frames ≤ (H.counts h.old).size }
    requires known { IsOnDevice frames pool.now }
    ensures free { H.tells → (image : Image) → reads (H.state h.old).now.words ≡ image → AreLiveBefore class (stored_in frames pool.now image) from
        → IfOk result (λ found. IfSome found (λ at. IsLowestFreeSlot class (stored_in frames pool.now image) (place_of_slot at))) }
    ensures full { H.tells → (image : Image) → reads (H.state h.old).now.words ≡ image → AreLiveBefore class (stored_in frames pool.now image) from
        → IfOk result (λ found. IfNone found (AreAllLive class (stored_in frames pool.now image))) }
    ensures within { IfOk result (λ found. IfSome found (IsSlotOf pool.now)) }
    ensures of_class { IfOk result (λ found. IfSome found (λ at. at.class ≡ class)) }
    ensures only_reads { OnlyReads H.tells H.state H.counts (fault_of result) h.old h.new }
{
    match alloc_slot_from(h, frames, pool, class, from) {
        Ok(at) => Ok(Some(at)),
        Err(AllocFault::Full) => Ok(None),
        Err(AllocFault::Host(fault)) => Err(fault),
    }
}

/// Rewrites to their ends the two puddles that a new object writes: the puddle with this ordinal, in which the object
/// is made, and the first puddle, which has the next serial.
fn finish_both<H: Host>(
    h: &mut H,
    frames: u32,
    pool: &mut Puddles,
    ordinal: u32,
) -> Result<(), HostFault>
    requires few { frames ≤ MAX_FRAMES }
    requires room { device_words frames ≤ (H.counts h.old).size }
    requires known { IsOnDevice frames pool.old }
    ensures pool { IfOk result (λ _. pool.new ≡ both_finished ordinal pool.old) }
    ensures rewrites { H.tells → HasIdleGate DAEMON_LOG (H.state h.old).now.words → HasLowBases pool.old
        → Rewrites frames (frontiers_of (both_finished ordinal pool.old)) pool.old pool.new (fault_of result) (H.state h.old) (H.state h.new) }
    ensures known { IsOnDevice frames pool.new }
    ensures rest { H.tells → KeepsRest (H.state h.old) (H.state h.new) }
    ensures rested { H.tells → fault_of result ≡ Option.Some HostFault.Cut → IsRested (H.state h.new).now.words }
    ensures cause { H.counts h.new ≡ after_fault (fault_of result) (H.counts h.old) }
{
    finish(h, frames, pool, 0)?;
    finish(h, frames, pool, ordinal)
}

/// Makes the update or refuses it, as the line of the transaction's client does.
///
/// The device has `frames` frames. The call first rewrites the puddle that it writes to its end. It takes at most
/// two fences, and four for each batch of steps that the puddle still lacks. A refused update changes nothing. The
/// only errors are the host's own.
fn update_or_refuse<H: Host>(
    opened: &mut PoolTransaction,
    h: &mut H,
    frames: u32,
    pool: &mut KnownPool,
    update: Update,
) -> Result<Reply, HostFault>
    requires few { frames ≤ MAX_FRAMES }
    requires room { device_words frames ≤ (H.counts h.old).size }
    requires within { IsActiveWithin frames opened.old }
    requires known { IsOnDevice frames pool.old.puddles }
    requires legal { IsLegalUpdate update }
    // The steps of its puddle are written, then the words of the update, and no other words. Nothing is written if
    // the line is refused, or if a load failed first.
    ensures does { H.tells → WhileRuns frames (H.counts h.old).size opened.old pool.old (H.state h.old) (λ size w memory.
        DoesUpdate frames opened.old opened.new pool.old pool.new update size w memory result (H.state h.old) (H.state h.new)) }
    ensures refused { IfOk result (λ reply. (why : Refusal) → reply ≡ Reply.No why → pool.new ≡ pool.old) }
    ensures uncut { IfOk result (λ reply. reply ≢ Reply.Cut) }
    ensures within { IsActiveWithin frames opened.new }
    ensures known { IsOnDevice frames pool.new.puddles }
    ensures stays { StaysOpen opened.old opened.new }
    ensures rest { H.tells → KeepsRest (H.state h.old) (H.state h.new) }
    ensures rested { H.tells → fault_of result ≡ Option.Some HostFault.Cut → IsRested (H.state h.new).now.words }
    ensures cause { H.counts h.new ≡ after_fault (fault_of result) (H.counts h.old) }
{
    let found = match find_update(opened, h, frames, pool, update)? {
        Ok(found) => found,
        Err(refusal) => return Ok(Reply::No(refusal)),
    };
    follow(pool, h, frames, found)?;
    finish(h, frames, &mut pool.puddles, ordinal_written(found))?;
    let done = carry_out(&mut opened.tx, h, frames, pool.as_slice(), found);
    // This use of `tx` gives the proof its invariant after the call: the units that are used are at most those that
    // a log has.
    let _units = opened.tx.units();
    done?;
    Ok(Reply::Ok)
}

/// The class of the puddles in which an object of type `t` is made, and the next serial, which it gets. Or why no such
/// object is made, whatever slots are free.
fn find_class_and_serial<H: Host>(
    opened: &PoolTransaction,
    h: &mut H,
    frames: u32,
    pool: &[(u32, Puddle)],
    t: u32,
) -> Result<Result<(u32, u64), Refusal>, HostFault>
    requires few { frames ≤ MAX_FRAMES }
    requires room { device_words frames ≤ (H.counts h.old).size }
    requires within { IsActiveWithin frames opened.now }
    requires known { IsOnDevice frames pool.now }
    ensures refusal { H.tells → (image : Image) → reads (H.state h.old).now.words ≡ image
        → IfOk result (λ found. refusal_in found ≡ refusal_to_make (map_of t (types_of image)) (opened.now).tx.units (next_serial_of (stored_in frames pool.now image))) }
    ensures class { H.tells → (image : Image) → reads (H.state h.old).now.words ≡ image → IfOk result (λ found. IfOk found (λ made. made.0 ≡ class_made (types_of image) t)) }
    ensures serial { H.tells → (image : Image) → reads (H.state h.old).now.words ≡ image → IfOk result (λ found. IfOk found (λ made. made.1 ≡ next_serial_of (stored_in frames pool.now image))) }
    ensures legal { IfOk result (λ found. IfOk found (λ made. made.0 < CLASSES)) }
    ensures fits { IfOk result (λ found. IfOk found (λ made. (opened.now).tx.units + new_units made.0 ≤ LOG_ENTRY_WORDS)) }
    ensures only_reads { OnlyReads H.tells H.state H.counts (fault_of result) h.old h.new }
{
    let map = find(h, u64::from(t))?;
    let next = next_serial_of(h, frames, pool)?;
    match class_to_make(map, opened.tx.units(), next) {
        Ok(class) => Ok(Ok((class, next))),
        Err(refusal) => Ok(Err(refusal)),
    }
}

/// The puddle of a class by which the pool grows for an object, or why the pool does not grow.
fn find_growth<H: Host>(
    opened: &PoolTransaction,
    h: &mut H,
    frames: u32,
    pool: &[(u32, Puddle)],
    class: u32,
) -> Result<Result<NewPuddle, Refusal>, HostFault>
    requires few { frames ≤ MAX_FRAMES }
    requires room { device_words frames ≤ (H.counts h.old).size }
    requires active { IsActiveWithin frames opened.now }
    requires known { IsOnDevice frames pool.now }
    requires class { class < CLASSES }
    ensures refusal { H.tells → (image : Image) → reads (H.state h.old).now.words ≡ image → IfOk result (λ found. refusal_in found ≡ refusal_by_tables frames pool.now image) }
    ensures growth { H.tells → (image : Image) → reads (H.state h.old).now.words ≡ image → IfOk result (λ found. IfOk found (GrowsBy frames (opened.now).slot class pool.now image)) }
    ensures few { IfOk result (λ found. IfOk found (λ _. length pool.now < MAX_PUDDLES)) }
    ensures within { IfOk result (λ found. IfOk found (IsAddedWithin frames)) }
    ensures of_class { IfOk result (λ found. IfOk found (λ added. added.puddle.class ≡ class)) }
    ensures only_reads { OnlyReads H.tells H.state H.counts (fault_of result) h.old h.new }
{
    registry::find_growth(h, frames, opened.slot, pool.len() as u32, class)
}

/// Makes an object of type `t` with this serial in the free slot `at`, which is of the object's class. The object is one
/// that is not refused, whatever slots are free.
///
/// The call first rewrites the puddles that it writes to their ends: the puddle of the slot, and the first puddle,
/// which has the next serial. Afterwards what the daemon knows about the pool includes the object.
///
/// The device has `frames` frames, and the units that the object takes are left. The promise that the object is made
/// holds if the slot is the lowest free one of the class and the serial is the next one. The call takes at most two
/// fences, and those of the batches of steps that these puddles still lack.
fn make_object<H: Host>(
    opened: &mut PoolTransaction,
    h: &mut H,
    frames: u32,
    pool: &mut KnownPool,
    at: &Slot,
    t: u32,
    serial: u64,
) -> Result<(), HostFault>
    requires few { frames ≤ MAX_FRAMES }
    requires room { device_words frames ≤ (H.counts h.old).size }
    requires within { IsActiveWithin frames opened.old }
    requires known { IsOnDevice frames pool.old.puddles }
    requires slot { IsSlotOf pool.old.puddles at.now }
    requires units { (opened.old).tx.units + new_units at.now.class ≤ LOG_ENTRY_WORDS }
    // In this slot, after the steps that its puddle and the first one still lacked.
    ensures makes { H.tells → WhileMakes frames (H.counts h.old).size opened.old pool.old t serial at.now (H.state h.old) (λ size w memory.
        AppliesMaking frames t at.now.class opened.old opened.new pool.old pool.new size w memory (fault_of result) (H.state h.old) (H.state h.new)
        × MakesFor frames opened.old pool.old pool.new at.now t (fault_of result) (H.state h.old) (H.state h.new)) }
    ensures pool { IfOk result (λ _. pool.new.puddles ≡ both_finished at.now.ordinal pool.old.puddles) }
    ensures follows { IfOk result (λ _. Follows (after_made serial at.now) pool.old.index pool.new.index) }
    ensures places { IfOk result (λ _. FollowsPlaces (with_place serial at.now) pool.old.placed pool.new.placed) }
    ensures full { IfOk result (λ _. pool.new.full_below ≡ full_after_made at.now pool.old.full_below) }
    ensures within { IsActiveWithin frames opened.new }
    ensures known { IsOnDevice frames pool.new.puddles }
    ensures stays { StaysOpen opened.old opened.new }
    ensures rest { H.tells → KeepsRest (H.state h.old) (H.state h.new) }
    ensures rested { H.tells → fault_of result ≡ Option.Some HostFault.Cut → IsRested (H.state h.new).now.words }
    ensures cause { H.counts h.new ≡ after_fault (fault_of result) (H.counts h.old) }
{
    finish_both(h, frames, &mut pool.puddles, at.ordinal)?;
    let made = opened.tx.new_at(h, frames, pool.as_slice(), at, t, serial);
    // As in `update_or_refuse`.
    let _units = opened.tx.units();
    made?;
    pool.made(serial, at);
    Ok(())
}

/// Adds the puddle to the pool and to what the daemon knows about the pool. It returns the puddle's first slot,
/// which is free. The transaction keeps running with the puddle.
fn grow<H: Host>(
    opened: &PoolTransaction,
    h: &mut H,
    frames: u32,
    pool: &mut KnownPool,
    added: NewPuddle,
) -> Result<Slot, HostFault>
    requires few { frames ≤ MAX_FRAMES }
    requires room { device_words frames ≤ (H.counts h.old).size }
    requires within { IsActiveWithin frames opened.now }
    requires known { IsOnDevice frames pool.old.puddles }
    requires puddle { IsAddedWithin frames added }
    requires less { length pool.old.puddles < MAX_PUDDLES }
    ensures grows { H.tells → WhileGrowsBy frames (H.counts h.old).size opened.now pool.old added (H.state h.old) (λ class size w memory.
        Applies size w (with_puddle_added (opened.now).name class w) (with_known (opened.now).log_number (opened.now).slot opened.now pool.new memory) (fault_of result) (H.state h.old) (H.state h.new)) }
    ensures longer { H.tells → WhileGrowsBy frames (H.counts h.old).size opened.now pool.old added (H.state h.old) (λ class size w memory.
        IfOk result (λ _. IsLonger frames (opened.now).slot class pool.old.puddles pool.new.puddles (reads (H.state h.old).now.words) (reads (H.state h.new).now.words))) }
    // The puddle's frame is filled first. Only then does a record name the puddle.
    ensures commits { H.tells → HasIdleGate DAEMON_LOG (H.state h.old).now.words → PersistsThenCommits (filling frames added) (puts_batch (growing added)) (fault_of result) (H.state h.old) (H.state h.new) }
    ensures slot { IfOk result (IsSlotOf pool.new.puddles) }
    ensures place { IfOk result (λ at. place_of_slot at ≡ places_in pool.old.puddles) }
    ensures of_class { IfOk result (λ at. at.class ≡ added.puddle.class) }
    ensures known { IsOnDevice frames pool.new.puddles }
    ensures rest { H.tells → KeepsRest (H.state h.old) (H.state h.new) }
    ensures rested { H.tells → fault_of result ≡ Option.Some HostFault.Cut → IsRested (H.state h.new).now.words }
    ensures cause { H.counts h.new ≡ after_fault (fault_of result) (H.counts h.old) }
{
    grow_pool(h, frames, added)?;
    Ok(pool.grown(added.frame, added_puddle(added)))
}

/// Makes an object of type `t` with this serial in one more puddle of the pool, which is of this class, or refuses to. A
/// refused line changes nothing.
///
/// The promises hold if the class is that of the type and each slot of the class in the pool is live. The device has
/// `frames` frames, and the units that the object takes are left.
// Not inlined: its buffers would lie on the stack of every line.
#[inline(never)]
fn make_in_new_puddle<H: Host>(
    opened: &mut PoolTransaction,
    h: &mut H,
    frames: u32,
    pool: &mut KnownPool,
    class: u32,
    t: u32,
    serial: u64,
) -> Result<Reply, HostFault>
    requires few { frames ≤ MAX_FRAMES }
    requires room { device_words frames ≤ (H.counts h.old).size }
    requires within { IsActiveWithin frames opened.old }
    requires known { IsOnDevice frames pool.old.puddles }
    requires class { class < CLASSES }
    requires units { (opened.old).tx.units + new_units class ≤ LOG_ENTRY_WORDS }
    ensures does { H.tells → WhileGrows frames (H.counts h.old).size opened.old pool.old t class serial (H.state h.old) (λ size w memory.
        DoesNewGrown frames opened.old opened.new pool.old pool.new t class size w memory result (H.state h.old) (H.state h.new)) }
    ensures uncut { IfOk result (λ reply. reply ≢ Reply.Cut) }
    ensures within { IsActiveWithin frames opened.new }
    ensures known { IsOnDevice frames pool.new.puddles }
    ensures stays { StaysOpen opened.old opened.new }
    ensures rest { H.tells → KeepsRest (H.state h.old) (H.state h.new) }
    ensures rested { H.tells → fault_of result ≡ Option.Some HostFault.Cut → IsRested (H.state h.new).now.words }
    ensures cause { H.counts h.new ≡ after_fault (fault_of result) (H.counts h.old) }
{
    let added = match find_growth(opened, h, frames, pool.as_slice(), class)? {
        Ok(added) => added,
        Err(refusal) => return Ok(Reply::No(refusal)),
    };
    let at = grow(opened, h, frames, pool, added)?;
    make_object(opened, h, frames, pool, &at, t, serial)?;
    Ok(Reply::Ref(serial))
}

/// Makes an object of type `t`, or refuses to, as the line `new` of the transaction's client does. A refused line
/// changes nothing.
///
/// The device has `frames` frames. The object is made in a puddle of the class of its type. If each slot of the class is
/// live, the pool first grows by one such puddle. The call takes at most two fences, those of the batches of steps that
/// the written puddles still lack, and, if the pool grows, those of a batch and of a fresh frame.
fn new_object<H: Host>(
    opened: &mut PoolTransaction,
    h: &mut H,
    frames: u32,
    pool: &mut KnownPool,
    t: u32,
) -> Result<Reply, HostFault>
    requires few { frames ≤ MAX_FRAMES }
    requires room { device_words frames ≤ (H.counts h.old).size }
    requires within { IsActiveWithin frames opened.old }
    requires known { IsOnDevice frames pool.old.puddles }
    ensures does { H.tells → WhileRuns frames (H.counts h.old).size opened.old pool.old (H.state h.old) (λ size w memory.
        DoesNew frames opened.old opened.new pool.old pool.new t size w memory result (H.state h.old) (H.state h.new)) }
    ensures uncut { IfOk result (λ reply. reply ≢ Reply.Cut) }
    ensures within { IsActiveWithin frames opened.new }
    ensures known { IsOnDevice frames pool.new.puddles }
    ensures stays { StaysOpen opened.old opened.new }
    ensures rest { H.tells → KeepsRest (H.state h.old) (H.state h.new) }
    ensures rested { H.tells → fault_of result ≡ Option.Some HostFault.Cut → IsRested (H.state h.new).now.words }
    ensures cause { H.counts h.new ≡ after_fault (fault_of result) (H.counts h.old) }
{
    let (class, serial) = match find_class_and_serial(opened, h, frames, pool.as_slice(), t)? {
        Ok(made) => made,
        Err(why) => return Ok(Reply::No(why)),
    };
    match find_free_slot(h, frames, pool.as_slice(), class, pool.full_below(class))? {
        Some(at) => {
            make_object(opened, h, frames, pool, &at, t, serial)?;
            Ok(Reply::Ref(serial))
        }
        None => make_in_new_puddle(opened, h, frames, pool, class, t, serial),
    }
}

/// Makes the change in the transaction or refuses it, as the line of the transaction's client does. A refused
/// change changes nothing.
///
/// `pool` is what the daemon knows about the transaction's pool, and the device has `frames` frames. The only
/// errors are the host's own.
///
/// The call first rewrites each puddle that it writes to its end, with four fences for each batch of steps that the
/// puddle still lacks. Then an update takes at most two fences, and so does a new object. If each slot of its class is
/// live, the pool first grows by one puddle, which takes the fences of a batch and of a fresh frame. The daemon then knows
/// the puddle.
pub(crate) fn carry_out_change<H: Host>(
    opened: &mut PoolTransaction,
    h: &mut H,
    frames: u32,
    pool: &mut KnownPool,
    change: Change,
) -> Result<Reply, HostFault>
    requires few { frames ≤ MAX_FRAMES }
    requires room { device_words frames ≤ (H.counts h.old).size }
    requires within { IsActiveWithin frames opened.old }
    requires known { IsOnDevice frames pool.old.puddles }
    requires legal { IsLegalChange change }
    // Only words of the change are written, in its order, and words of the steps and of the puddle that it takes.
    // Nothing is written if it is refused, or if a load failed first.
    ensures does { H.tells → WhileRuns frames (H.counts h.old).size opened.old pool.old (H.state h.old) (λ size w memory.
        DoesChange frames opened.old opened.new pool.old pool.new change size w memory result (H.state h.old) (H.state h.new)) }
    ensures uncut { IfOk result (λ reply. reply ≢ Reply.Cut) }
    ensures within { IsActiveWithin frames opened.new }
    ensures known { IsOnDevice frames pool.new.puddles }
    ensures stays { StaysOpen opened.old opened.new }
    ensures rest { H.tells → KeepsRest (H.state h.old) (H.state h.new) }
    ensures rested { H.tells → fault_of result ≡ Option.Some HostFault.Cut → IsRested (H.state h.new).now.words }
    ensures cause { H.counts h.new ≡ after_fault (fault_of result) (H.counts h.old) }
{
    match change {
        Change::New { t } => new_object(opened, h, frames, pool, t),
        Change::Update(update) => update_or_refuse(opened, h, frames, pool, update),
    }
}
