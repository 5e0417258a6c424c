//! Gathers and commits the batch of steps of one puddle.

ghost use Rattle.std.specs.Prelude.{◌≡◌, ◌+◌, ◌*◌, ◌<◌, ◌≤◌, true, ℕ, [], ◌∷◌, ◌++◌, length, map, slice_get, Option, IfOk};
ghost use Rattle.pm_model.specs.Words.{reads};
ghost use Rattle.pm_model.specs.Counts.{after_fault, fault_of};
ghost use Rattle.pm_model.specs.Reads.{OnlyReads};
ghost use Rattle.pm_model.specs.Changes.{Changes};
ghost use Rattle.log_replay.specs.Replaying.{Anything};
ghost use Rattle.pud_defs.specs.declared.layout.TheConstants.{LOG_ENTRY_WORDS, ENTRY_HEADER_WORDS};
ghost use Rattle.pud_defs.specs.declared.records.Puddle.{Puddle};
ghost use Rattle.pud_defs.specs.Formats.Geometry.{steps_of};
ghost use Rattle.pud_defs.specs.Formats.Image.{Image};
ghost use Rattle.pud_defs.specs.Formats.Layout.{device_words};
ghost use Rattle.pud_defs.specs.Formats.Frames.{frame_at};
ghost use Rattle.pud_defs.specs.PoolGraphs.Stored.{IsOnDevice};
ghost use Rattle.pud_defs.specs.PoolGraphs.Graph.{fits_class};
ghost use Rattle.puddle_header.specs.Places.{IsSlotOf};
ghost use Rattle.graph_laws.specs.Steps.{with_steps};
ghost use Rattle.batch.specs.Batches.{word_count_of, batch_entry};
ghost use Rattle.lazy_rewrite.specs.Entries.{word_entry, IsToRewrite, first_slot, IfFits, ForPuddle, slot_begins, new_field, object_batch, slot_batch, header_batch, puddle_batch};
ghost use Rattle.lazy_rewrite.specs.Batches.{AreNextSteps, pool_after, RewritesOnce, IfIdle};

use crate::pointers::over_bases;
use batch::Batch;
use graph_read::find_fitting;
use pm_model::{Host, HostFault, Loads};
use pud_defs::layout::{MAX_FIELDS, MAX_FRAMES, puddle_record_at};
use pud_defs::objects::is_free;
use pud_defs::records::{PUDDLE_FRONTIER_WORD, Puddle, Slot, frontier_with_class};
use pud_defs::space::{ROOT_WORD, SLOT_FIELDS_WORD, class_slot_at, frame_at};
use pud_defs::type_map::{map_fields, map_is_pointer};
use puddle_header::{root_value, slot_field, slot_serial, slot_type};
use puddle_table::Puddles;

/// The most steps that a batch has.
pub const BATCH_STEPS: u32 = 10;

/// The most words of the daemon log that a batch takes: three for each of 30 pointers in ten slots, and three for the
/// frontier.
pub const STEPS_WORDS: u32 = 903;

/// Adds a word to the batch, if it fits.
fn add_word(batch: &mut Batch, w: u32, value: u64)
    ensures { word_count_of batch.old + (1 + ENTRY_HEADER_WORDS) ≤ LOG_ENTRY_WORDS → batch.new ≡ batch.old ++ batch_entry w (value ∷ []) ∷ [] }
{
    let _fits = batch.add(w, &[value]);
}

/// Adds field `f` of a slot with its new value, if the field is a pointer.
fn add_field(
    frames: u32,
    pool: &[(u32, Puddle)],
    at: &Slot,
    type_map: u64,
    f: u32,
    value: u64,
    batch: &mut Batch,
)
    requires few { frames ≤ MAX_FRAMES }
    requires known { IsOnDevice frames pool.now }
    requires within { IsSlotOf pool.now at.now }
    requires field { f < MAX_FIELDS }
    ensures { IfFits pool.now at.now.ordinal (at.now.slot + 1) batch.old 3
        (batch.new ≡ batch.old ++ word_entry (slot_begins frames at.now + (SLOT_FIELDS_WORD + f)) (new_field (map (λ e. e.1) pool.now) type_map f value)) }
{
    if map_is_pointer(type_map, f) {
        let w = frame_at(frames, at.frame)
            + class_slot_at(at.class, at.slot)
            + SLOT_FIELDS_WORD
            + f;
        add_word(batch, w, over_bases(pool, at.ordinal, at.slot + 1, value));
    }
}

/// Adds the pointers of the object in a slot, by the map of its type. The object has room in the slot. At most 30 fields
/// are read.
fn add_fields<H: Loads>(
    h: &mut H,
    frames: u32,
    pool: &[(u32, Puddle)],
    at: &Slot,
    type_map: u64,
    batch: &mut Batch,
) -> Result<(), HostFault>
    requires few { frames ≤ MAX_FRAMES }
    requires room { device_words frames ≤ (H.counts h.old).size }
    requires known { IsOnDevice frames pool.now }
    requires within { IsSlotOf pool.now at.now }
    requires fits { fits_class at.now.class type_map ≡ true }
    ensures added { H.tells → (image : Image) → reads (H.state h.old).now.words ≡ image
        → IfFits pool.now at.now.ordinal (at.now.slot + 1) batch.old (3 * MAX_FIELDS)
        (IfOk result (λ _. batch.new ≡ batch.old ++ object_batch frames pool.now image at.now type_map)) }
    ensures only_reads { OnlyReads H.tells H.state H.counts (fault_of result) h.old h.new }
{
    for f in 0..map_fields(type_map).min(MAX_FIELDS) {
        let value = slot_field(h, frames, at, f)?;
        add_field(frames, pool, at, type_map, f, value, batch);
    }
    Ok(())
}

/// Adds the pointers of a slot: none if the slot is free, if its type is not defined, or if an object of the type has no
/// room in the slot.
fn add_slot<H: Loads>(
    h: &mut H,
    frames: u32,
    pool: &[(u32, Puddle)],
    at: &Slot,
    batch: &mut Batch,
) -> Result<(), HostFault>
    requires few { frames ≤ MAX_FRAMES }
    requires room { device_words frames ≤ (H.counts h.old).size }
    requires known { IsOnDevice frames pool.now }
    requires within { IsSlotOf pool.now at.now }
    ensures added { H.tells → (image : Image) → reads (H.state h.old).now.words ≡ image
        → IfFits pool.now at.now.ordinal (at.now.slot + 1) batch.old (3 * MAX_FIELDS)
        (IfOk result (λ _. batch.new ≡ batch.old ++ slot_batch frames pool.now image at.now)) }
    ensures only_reads { OnlyReads H.tells H.state H.counts (fault_of result) h.old h.new }
{
    let serial = slot_serial(h, frames, at)?;
    if is_free(serial) {
        return Ok(());
    }
    let id = slot_type(h, frames, at)?;
    match find_fitting(h, id, at.class)? {
        Some(type_map) => add_fields(h, frames, pool, at, type_map, batch),
        None => Ok(()),
    }
}

/// Adds the pointer of a header: the root, if the first step of the first puddle is among the steps of the batch.
fn add_header<H: Loads>(
    h: &mut H,
    frames: u32,
    pool: &[(u32, Puddle)],
    ordinal: u32,
    from: u32,
    batch: &mut Batch,
) -> Result<(), HostFault>
    requires few { frames ≤ MAX_FRAMES }
    requires room { device_words frames ≤ (H.counts h.old).size }
    requires known { IsOnDevice frames pool.now }
    requires within { ordinal < length pool.now }
    ensures added { H.tells → (image : Image) → reads (H.state h.old).now.words ≡ image → IfFits pool.now ordinal from batch.old 3
        (ForPuddle pool.now ordinal (λ e. (m : ℕ) → from < m
        → IfOk result (λ _. batch.new ≡ batch.old ++ header_batch frames pool.now image ordinal from m e))) }
    ensures only_reads { OnlyReads H.tells H.state H.counts (fault_of result) h.old h.new }
{
    if ordinal != 0 || from != 0 {
        return Ok(());
    }
    let (frame, _) = pool[0];
    let value = root_value(h, frames, frame)?;
    add_word(
        batch,
        frame_at(frames, frame) + ROOT_WORD,
        over_bases(pool, 0, 0, value),
    );
    Ok(())
}

/// The first slot that a frontier passes from `from` on. The first step may be that of the header.
fn first_slot(from: u32) -> u32
    ensures { result ≡ first_slot from }
{
    from.saturating_sub(1)
}

/// Gathers the batch of a puddle's steps from its frontier `from` up to frontier `to`. Each slot is read once.
fn gather<H: Loads>(
    h: &mut H,
    frames: u32,
    pool: &[(u32, Puddle)],
    ordinal: u32,
    from: u32,
    to: u32,
) -> Result<Batch, HostFault>
    requires few { frames ≤ MAX_FRAMES }
    requires room { device_words frames ≤ (H.counts h.old).size }
    requires known { IsOnDevice frames pool.now }
    requires within { ordinal < length pool.now }
    requires some { from < to }
    requires last { ForPuddle pool.now ordinal (λ e. to ≤ steps_of e.1) }
    ensures batch { H.tells → (image : Image) → reads (H.state h.old).now.words ≡ image → IsToRewrite pool.now ordinal from → to ≤ from + BATCH_STEPS
        → ForPuddle pool.now ordinal (λ e. IfOk result (λ batch. batch ≡ puddle_batch frames pool.now image ordinal from to e)) }
    ensures only_reads { OnlyReads H.tells H.state H.counts (fault_of result) h.old h.new }
{
    let (frame, puddle) = pool[ordinal as usize];
    let mut batch = Batch::new();
    add_header(h, frames, pool, ordinal, from, &mut batch)?;
    for slot in first_slot(from)..to - 1 {
        let at = Slot {
            frame,
            ordinal,
            slot,
            class: puddle.class,
        };
        add_slot(h, frames, pool, &at, &mut batch)?;
    }
    add_word(
        &mut batch,
        puddle_record_at(frame) + PUDDLE_FRONTIER_WORD,
        frontier_with_class(to, puddle.class),
    );
    Ok(batch)
}

/// Rewrites a puddle's steps from its frontier `from` up to frontier `to` by one batch. All reads come before the first
/// write, so that the old frontier tells for each pointer over which bases it stands.
pub(crate) fn rewrite_batch<H: Host>(
    h: &mut H,
    frames: u32,
    pool: &mut Puddles,
    ordinal: u32,
    from: u32,
    to: u32,
) -> Result<(), HostFault>
    requires few { frames ≤ MAX_FRAMES }
    requires room { device_words frames ≤ (H.counts h.old).size }
    requires known { IsOnDevice frames pool.old }
    requires within { ordinal < length pool.old }
    requires some { from < to }
    requires last { ForPuddle pool.old ordinal (λ e. to ≤ steps_of e.1) }
    ensures pool { (e : ℕ × Puddle) → slice_get pool.old ordinal ≡ Option.Some e → pool.new ≡ pool_after (fault_of result) (with_steps ordinal to e pool.old) pool.old }
    ensures rewrites { H.tells → IfIdle (H.counts h.old).size (H.state h.old).now.words pool.old
        ((goal : ℕ → ℕ) (e : ℕ × Puddle) → e.1.frontier ≡ from → AreNextSteps pool.old goal ordinal to e
        → RewritesOnce frames goal pool.old pool.new (fault_of result) (H.state h.old) (H.state h.new)) }
    ensures known { IsOnDevice frames pool.new }
    ensures any { H.tells → Changes Anything (fault_of result) (H.state h.old) (H.state h.new) }
    ensures cause { H.counts h.new ≡ after_fault (fault_of result) (H.counts h.old) }
{
    gather(h, frames, pool.as_slice(), ordinal, from, to)?.commit(h)?;
    pool.move_frontier(ordinal, to);
    Ok(())
}
