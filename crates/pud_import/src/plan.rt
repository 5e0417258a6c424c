//! What is found for a pool that is to be placed.

ghost use Rattle.std.specs.Prelude.{◌≡◌, ◌+◌, ◌<◌, ◌≤◌, ℕ, Option, IfOk, All, cond, nat_lt, ◌==◌, length, map};
ghost use Rattle.std.specs.List.{list_all};
ghost use Rattle.pm_model.specs.Words.{Image, reads};
ghost use Rattle.pm_model.specs.Reads.{OnlyReads};
ghost use Rattle.pud_defs.specs.declared.layout.TheConstants.{NEXT_NUMBER_WORD, NUMBER_LIMIT, TYPE_RECORDS};
ghost use Rattle.pud_defs.specs.declared.records.TheConstants.{POOL_RECORDS, MAX_PUDDLES};
ghost use Rattle.pud_defs.specs.Formats.Geometry.{class_steps};
ghost use Rattle.pud_defs.specs.PoolGraphs.ExportFile.{FileContents, file_graph};
ghost use Rattle.pud_defs.specs.StateMachine.Imports.{numbers_drawn};
ghost use Rattle.pud_defs.specs.RegistryTables.Keyed.{first_free, count_used};
ghost use Rattle.pud_defs.specs.Formats.Layout.{device_words, tables_end};
ghost use Rattle.pud_defs.specs.RegistryTables.Placement.{ArePlaced};
ghost use Rattle.pud_defs.specs.RegistryTables.Tables.{tables_of, pool_in};
ghost use Rattle.registry.specs.Adding.{IsAddedWithin};
ghost use Rattle.registry.specs.Placing.{puddle_of_added};
ghost use Rattle.pud_import.specs.Contents.{puddle_count_read, bases_held, classes_held};
ghost use Rattle.pud_import.specs.Places.{with_steps, AreMembers};
ghost use Rattle.pud_import.specs.Placing.{place_fault, refusal_in, refusal_by, slot_refusal, IsPlanFor};

use crate::file_view::FileView;
use crate::new_places::{NewPuddles, find_places};
use crate::new_types::{NewTypes, find_types};
use crate::placing::PlaceFault;
use pm_model::Host;
use pool_table::{PoolFault, free_slot};
use pud_defs::layout::{MAX_FRAMES, NEXT_NUMBER_WORD, NUMBER_LIMIT, SPACE_TABLE};
use pud_defs::records::{MAX_PUDDLES, Name, POOL_RECORDS, PuddleRecord};
use pud_defs::space::class_steps;
use registry::NewPuddle;

/// What is found for a pool that is to be placed.
#[derive(Drop)]
pub(crate) struct Plan {
    /// The slot of its record.
    pub(crate) slot: u32,
    /// Its UUID number.
    pub(crate) number: u64,
    /// The types that it brings.
    pub(crate) types: NewTypes,
    /// Its puddles.
    pub(crate) puddles: NewPuddles,
}

/// The lowest free slot. If no pool has the name and the host does not fail first, `Full` comes exactly if no slot is
/// free.
fn find_slot<H: Host>(h: &mut H, name: Name) -> Result<u32, PlaceFault>
    requires { SPACE_TABLE ≤ (H.counts h.old).size }
    ensures refusal { H.tells → (image : Image) → reads (H.state h.old).now.words ≡ image → (frames : ℕ) → place_fault result ≡ Option.None
        → pool_in (tables_of frames image) name ≡ Option.None
        → refusal_in result ≡ slot_refusal (tables_of frames image) }
    ensures slot { H.tells → (image : Image) → reads (H.state h.old).now.words ≡ image → (frames : ℕ)
        → IfOk result (λ slot. first_free (tables_of frames image).pools 0 POOL_RECORDS ≡ Option.Some slot) }
    ensures within { IfOk result (λ slot. slot < POOL_RECORDS) }
    ensures only_reads { OnlyReads H.tells H.state H.counts (place_fault result) h.old h.new }
{
    match free_slot(h, name) {
        Ok(slot) => Ok(slot),
        Err(PoolFault::Exists) => Err(PlaceFault::Full),
        Err(PoolFault::Full) => Err(PlaceFault::Full),
        Err(PoolFault::Host(fault)) => Err(PlaceFault::Host(fault)),
    }
}

/// The next UUID number, for a pool of `puddles` puddles. `Full` comes exactly if too few numbers are left, unless the
/// host fails first.
fn find_number<H: Host>(h: &mut H, puddles: u32) -> Result<u64, PlaceFault>
    requires device { SPACE_TABLE ≤ (H.counts h.old).size }
    requires few { puddles ≤ MAX_PUDDLES }
    ensures refusal { H.tells → (image : Image) → reads (H.state h.old).now.words ≡ image → place_fault result ≡ Option.None
        → refusal_in result ≡ cond (nat_lt NUMBER_LIMIT (image NEXT_NUMBER_WORD + numbers_drawn puddles)) (Option.Some PlaceFault.Full) Option.None }
    ensures number { H.tells → (image : Image) → reads (H.state h.old).now.words ≡ image → IfOk result (λ number. number ≡ image NEXT_NUMBER_WORD) }
    ensures left { IfOk result (λ number. number + numbers_drawn puddles ≤ NUMBER_LIMIT) }
    ensures only_reads { OnlyReads H.tells H.state H.counts (place_fault result) h.old h.new }
{
    let number = h.load(NEXT_NUMBER_WORD)?;
    let drawn = 1 + u64::from(puddles);
    if number > NUMBER_LIMIT - drawn {
        return Err(PlaceFault::Full);
    }
    Ok(number)
}

/// Whether each puddle got the base that it has in the file.
fn keep_bases(puddles: &[NewPuddle]) -> bool
    ensures { result ≡ list_all (λ a. a.puddle.base == a.puddle.old_base) puddles.now }
{
    for added in puddles {
        if added.puddle.base != added.puddle.old_base {
            return false;
        }
    }
    true
}

/// How many steps of a puddle of this class count as rewritten: all or none.
fn frontier_for(all: bool, class: u32) -> u32
    ensures { result ≡ cond all (class_steps class) 0 }
{
    if all { class_steps(class) } else { 0 }
}

/// The puddles, each with all of its steps rewritten, or each with none.
fn with_steps(puddles: &[NewPuddle], all: bool) -> NewPuddles
    requires { length puddles.now ≤ MAX_PUDDLES }
    ensures { result.items ≡ map (with_steps all) puddles.now }
{
    let mut new = NewPuddles::new();
    for added in puddles {
        let puddle = PuddleRecord {
            frontier: frontier_for(all, added.puddle.class),
            ..added.puddle
        };
        new.push(NewPuddle { puddle, ..*added });
    }
    new
}

/// Places the puddles of a file, for the pool of slot `slot` that draws UUID number `number`. Each stands in the lowest
/// free frame after that of the one before, at the base that it has in the file unless that base is taken. If each got
/// the base that it has in the file, all of their steps count as rewritten, and otherwise none. `NoSpace` comes exactly
/// if fewer frames are free than the file has puddles, unless the host fails first.
fn find_puddles<H: Host>(
    h: &mut H,
    frames: u32,
    view: &FileView<'_>,
    slot: u32,
    number: u64,
) -> Result<NewPuddles, PlaceFault>
    requires few { frames ≤ MAX_FRAMES }
    requires table { tables_end frames ≤ (H.counts h.old).size }
    requires slot { slot < POOL_RECORDS }
    requires numbers { number + numbers_drawn (puddle_count_read view.now) ≤ NUMBER_LIMIT }
    ensures refusal { H.tells → (image : Image) → reads (H.state h.old).now.words ≡ image → place_fault result ≡ Option.None
        → refusal_in result
        ≡ cond (nat_lt frames (count_used (tables_of frames image).puddles 0 frames + puddle_count_read view.now)) (Option.Some PlaceFault.NoSpace) Option.None }
    ensures placed { H.tells → (image : Image) → reads (H.state h.old).now.words ≡ image
        → IfOk result (λ puddles. ArePlaced (tables_of frames image) number (bases_held view.now) (classes_held view.now) (map puddle_of_added puddles.items)) }
    ensures members { IfOk result (λ puddles. AreMembers slot number puddles.items) }
    ensures count { IfOk result (λ puddles. length puddles.items ≡ puddle_count_read view.now) }
    ensures within { IfOk result (λ puddles. All (IsAddedWithin frames) puddles.items) }
    ensures only_reads { OnlyReads H.tells H.state H.counts (place_fault result) h.old h.new }
{
    let found = find_places(h, frames, view, slot, number)?;
    let puddles = found.as_slice();
    Ok(with_steps(puddles, keep_bases(puddles)))
}

/// Finds what a pool of this name needs that has what the file has: the lowest free slot, the next UUID number, free
/// records for the types that are not defined, and the places of the puddles. If the pool may not be placed, the error
/// tells why. Nothing changes.
pub(crate) fn find_plan<H: Host>(
    h: &mut H,
    frames: u32,
    view: &FileView<'_>,
    name: Name,
) -> Result<Plan, PlaceFault>
    requires few { frames ≤ MAX_FRAMES }
    requires room { device_words frames ≤ (H.counts h.old).size }
    ensures refusal { H.tells → (image : Image) → reads (H.state h.old).now.words ≡ image → place_fault result ≡ Option.None
        → (file : FileContents) → file_graph view.now ≡ Option.Some file → pool_in (tables_of frames image) name ≡ Option.None → refusal_in result ≡ refusal_by frames image file }
    ensures placed { H.tells → (image : Image) → reads (H.state h.old).now.words ≡ image → pool_in (tables_of frames image) name ≡ Option.None → (uid : ℕ) (gid : ℕ) (mode : ℕ)
        → IfOk result (IsPlanFor frames image view.now name uid gid mode) }
    ensures number { H.tells → (image : Image) → reads (H.state h.old).now.words ≡ image → IfOk result (λ plan. plan.number ≡ image NEXT_NUMBER_WORD) }
    ensures slot { IfOk result (λ plan. plan.slot < POOL_RECORDS) }
    ensures left { IfOk result (λ plan. plan.number < NUMBER_LIMIT) }
    ensures records { IfOk result (λ plan. All (λ t. t.record_number < TYPE_RECORDS) plan.types.items) }
    ensures count { IfOk result (λ plan. length plan.puddles.items ≡ puddle_count_read view.now) }
    ensures within { IfOk result (λ plan. All (IsAddedWithin frames) plan.puddles.items) }
    ensures only_reads { OnlyReads H.tells H.state H.counts (place_fault result) h.old h.new }
{
    let types = find_types(h, view)?;
    let slot = find_slot(h, name)?;
    let number = find_number(h, view.puddles())?;
    let puddles = find_puddles(h, frames, view, slot, number)?;
    Ok(Plan {
        slot,
        number,
        types,
        puddles,
    })
}
