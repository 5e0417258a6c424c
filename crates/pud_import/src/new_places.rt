//! Where the puddles of a file are placed: in which frames, and at which bases.

ghost use Rattle.std.specs.Prelude.{◌≡◌, ◌||◌, ◌+◌, ◌-◌, ◌<◌, ◌≤◌, ℕ, [], Option, IfOk, All, cond, nat_lt, ◌==◌, length, map};
ghost use Rattle.std.specs.List.{list_any};
ghost use Rattle.pm_model.specs.Words.{Image, reads};
ghost use Rattle.pm_model.specs.Counts.{fault_of};
ghost use Rattle.pm_model.specs.Reads.{OnlyReads};
ghost use Rattle.pud_defs.specs.declared.layout.TheConstants.{NUMBER_LIMIT};
ghost use Rattle.pud_defs.specs.declared.records.TheConstants.{POOL_RECORDS, MAX_PUDDLES};
ghost use Rattle.pud_defs.specs.StateMachine.Imports.{numbers_drawn};
ghost use Rattle.pud_defs.specs.RegistryTables.Keyed.{first_free, count_used};
ghost use Rattle.pud_defs.specs.Formats.Layout.{tables_end};
ghost use Rattle.pud_defs.specs.RegistryTables.Placement.{is_taken_base, IsBaseFor, ArePlacedFrom};
ghost use Rattle.pud_defs.specs.RegistryTables.Tables.{tables_of};
ghost use Rattle.registry.specs.Adding.{IsAddedWithin};
ghost use Rattle.registry.specs.Placing.{puddle_of_added, added_classes};
ghost use Rattle.pud_import.specs.Contents.{puddle_count_read, bases_held, classes_held};
ghost use Rattle.pud_import.specs.Places.{AreMembers};
ghost use Rattle.pud_import.specs.Placing.{place_fault, refusal_in, frames_refusal};

use crate::bases::PUDDLES;
use crate::file_view::FileView;
use crate::placing::PlaceFault;
use arrayvec::ArrayVec;
use pm_model::{Host, HostFault};
use pud_defs::layout::{MAX_FRAMES, NUMBER_LIMIT};
use pud_defs::records::{MAX_PUDDLES, POOL_RECORDS, PuddleRecord};
use puddle_space::{free_base, has_base};
use puddle_table::{PuddleFault, free_frame};
use registry::NewPuddle;

/// Puddles that are added, by their ordinals.
pub(crate) type NewPuddles = ArrayVec<NewPuddle, { PUDDLES }>;

/// Bases, one for each puddle.
type Bases = ArrayVec<u64, { PUDDLES }>;

/// The lowest free frame from one frame on. `NoSpace` comes exactly if none is free, unless the host fails first.
fn next_frame<H: Host>(h: &mut H, frames: u32, from: u32) -> Result<u32, PlaceFault>
    requires few { frames ≤ MAX_FRAMES }
    requires table { tables_end frames ≤ (H.counts h.old).size }
    ensures frame { H.tells → (image : Image) → reads (H.state h.old).now.words ≡ image
        → IfOk result (λ frame. first_free (tables_of frames image).puddles from (frames - from) ≡ Option.Some frame) }
    ensures refusal { H.tells → (image : Image) → reads (H.state h.old).now.words ≡ image → place_fault result ≡ Option.None
        → refusal_in result ≡ frames_refusal (first_free (tables_of frames image).puddles from (frames - from)) }
    ensures within { IfOk result (λ frame. frame < frames) }
    ensures only_reads { OnlyReads H.tells H.state H.counts (place_fault result) h.old h.new }
{
    match free_frame(h, frames, from) {
        Ok(frame) => Ok(frame),
        Err(PuddleFault::NoSpace) => Err(PlaceFault::NoSpace),
        Err(PuddleFault::Host(fault)) => Err(PlaceFault::Host(fault)),
    }
}

/// Whether one of the bases is this one.
fn is_among(bases: &[u64], base: u64) -> bool
    ensures { result ≡ list_any (λ other. other == base) bases.now }
{
    for other in bases {
        if *other == base {
            return true;
        }
    }
    false
}

/// Whether one of two things is true.
fn either(one: bool, other: bool) -> bool
    ensures { result ≡ (one || other) }
{
    one || other
}

/// Whether one of these bases is this one, or a puddle of the device has it.
fn is_taken<H: Host>(h: &mut H, frames: u32, taken: &[u64], base: u64) -> Result<bool, HostFault>
    requires few { frames ≤ MAX_FRAMES }
    requires table { tables_end frames ≤ (H.counts h.old).size }
    ensures taken { H.tells → (image : Image) → reads (H.state h.old).now.words ≡ image → IfOk result (λ is. is ≡ is_taken_base (tables_of frames image) taken.now base) }
    ensures only_reads { OnlyReads H.tells H.state H.counts (fault_of result) h.old h.new }
{
    let held = has_base(h, frames, base)?;
    let given = is_among(taken, base);
    Ok(either(given, held))
}

/// The base that a puddle of a file gets after others got the bases `taken`. It gets the base that it has in the file,
/// unless one of these is that base or a puddle of the device has it; then it gets the lowest free one.
fn base_for<H: Host>(h: &mut H, frames: u32, taken: &[u64], wanted: u64) -> Result<u64, HostFault>
    requires few { frames ≤ MAX_FRAMES }
    requires table { tables_end frames ≤ (H.counts h.old).size }
    requires few_taken { length taken.now ≤ MAX_PUDDLES }
    ensures base { H.tells → (image : Image) → reads (H.state h.old).now.words ≡ image → IfOk result (λ base. IsBaseFor (tables_of frames image) taken.now wanted base) }
    ensures only_reads { OnlyReads H.tells H.state H.counts (fault_of result) h.old h.new }
{
    if is_taken(h, frames, taken, wanted)? {
        let base = free_base(h, frames, taken)?;
        Ok(base)
    } else {
        Ok(wanted)
    }
}

/// Places the puddles of a file one after the other, for the pool of slot `slot` that draws UUID number `number`. Each
/// stands in the lowest free frame after that of the one before, at the base that it has in the file unless that base
/// is taken. Each has the class that it has in the file. None of their steps is rewritten. `NoSpace` comes exactly if
/// fewer frames are free than the file has puddles, unless the host fails first.
pub(crate) fn find_places<H: Host>(
    h: &mut H,
    frames: u32,
    view: &FileView<'_>,
    slot: u32,
    number: u64,
) -> Result<NewPuddles, PlaceFault>
    requires few { frames ≤ MAX_FRAMES }
    requires table { tables_end frames ≤ (H.counts h.old).size }
    requires slot { slot < POOL_RECORDS }
    requires numbers { number + numbers_drawn (puddle_count_read view.now) ≤ NUMBER_LIMIT }
    ensures refusal { H.tells → (image : Image) → reads (H.state h.old).now.words ≡ image → place_fault result ≡ Option.None
        → refusal_in result
        ≡ cond (nat_lt frames (count_used (tables_of frames image).puddles 0 frames + puddle_count_read view.now)) (Option.Some PlaceFault.NoSpace) Option.None }
    ensures turn { H.tells → (image : Image) → reads (H.state h.old).now.words ≡ image
        → IfOk result (λ puddles. ArePlacedFrom (tables_of frames image) 0 [] (bases_held view.now) (map puddle_of_added puddles.items)) }
    ensures classes { IfOk result (λ puddles. added_classes puddles.items ≡ classes_held view.now) }
    ensures members { IfOk result (λ puddles. AreMembers slot number puddles.items) }
    ensures count { IfOk result (λ puddles. length puddles.items ≡ puddle_count_read view.now) }
    ensures within { IfOk result (λ puddles. All (IsAddedWithin frames) puddles.items) }
    ensures only_reads { OnlyReads H.tells H.state H.counts (place_fault result) h.old h.new }
{
    let mut puddles = NewPuddles::new();
    let mut bases = Bases::new();
    let mut from = 0;
    for ordinal in 0..view.puddles() {
        let old_base = view.base(ordinal);
        let frame = next_frame(h, frames, from)?;
        let base = base_for(h, frames, bases.as_slice(), old_base)?;
        bases.push(base);
        puddles.push(NewPuddle {
            frame,
            puddle: PuddleRecord {
                pool: slot,
                ordinal,
                number: number + 1 + u64::from(ordinal),
                base,
                old_base,
                frontier: 0,
                class: view.class(ordinal),
            },
        });
        from = frame + 1;
    }
    Ok(puddles)
}
