//! Finds the lowest free base. Only the first ranges of the space are tried: each puddle takes at most two bases, and
//! at most 16 more are taken, so one of these ranges is free.

ghost use Rattle.std.specs.Prelude.{◌≡◌, ◌≢◌, ◌+◌, ◌*◌, ◌<◌, ◌≤◌, ℕ, true, false, not, ◌==◌, length, IfOk, IfSome, IfNone};
ghost use Rattle.std.specs.List.{list_all, position};
ghost use Rattle.pm_model.specs.Words.{Image, reads};
ghost use Rattle.pm_model.specs.Counts.{fault_of};
ghost use Rattle.pm_model.specs.Reads.{OnlyReads};
ghost use Rattle.pud_defs.specs.Formats.Layout.{tables_end};
ghost use Rattle.pud_defs.specs.Formats.Bases.{base_at};
ghost use Rattle.pud_defs.specs.RegistryTables.Spaces.{all_below};
ghost use Rattle.pud_defs.specs.RegistryTables.Puddles.{puddle_at};
ghost use Rattle.pud_defs.specs.RegistryTables.Tables.{tables_of};
ghost use Rattle.pud_defs.specs.RegistryTables.Places.{has_other_bases, IsLowestBase};
ghost use Rattle.puddle_space.specs.FreeRanges.{free_count, is_free, IsRange, LeavesFree};

use pm_model::{Host, HostFault};
use pud_defs::layout::{MAX_FRAMES, puddle_record_at};
use pud_defs::records::{PUDDLE_BASE_WORD, PUDDLE_OLD_BASE_WORD};
use pud_defs::space::{RANGE_BYTES, SPACE_START, base_at, is_legal_base};

/// How many bases may be taken at most, besides those of the puddles.
pub const MAX_TAKEN: usize = 16;

/// How many ranges are tried, from the first of the space on: one more than the bases that may not be free.
pub const TRIED: usize = 2 * MAX_FRAMES as usize + MAX_TAKEN + 1;

/// A list in which each range is free.
fn all_free() -> [bool; TRIED]
    ensures each { (k : ℕ) → k < TRIED → is_free result k ≡ true }
    ensures count { free_count result ≡ TRIED }
{
    [true; TRIED]
}

/// The number of the range that begins at this base, if it is one of those tried.
fn range_of(base: u64) -> Option<usize>
    ensures found { IfSome result (IsRange base) }
    ensures none { IfNone result ((k : ℕ) → k < TRIED → base ≢ base_at k) }
{
    if !is_legal_base(base) {
        return None;
    }
    let range = (base - SPACE_START) / RANGE_BYTES;
    if range >= TRIED as u64 {
        return None;
    }
    Some(range as usize)
}

/// Marks the range that begins at this base as not free, if it is one of those tried.
fn mark(base: u64, free: &mut [bool; TRIED])
    ensures left { LeavesFree (λ other. not (base == other)) free.old free.new }
    ensures few { free_count free.old ≤ free_count free.new + 1 }
{
    if let Some(range) = range_of(base) {
        free[range] = false;
    }
}

/// Marks the ranges of these bases as not free.
fn mark_taken(taken: &[u64], free: &mut [bool; TRIED])
    ensures left { LeavesFree (λ base. list_all (λ other. not (other == base)) taken.now) free.old free.new }
    ensures few { free_count free.old ≤ free_count free.new + length taken.now }
{
    for base in taken {
        mark(*base, free);
    }
}

/// Marks the ranges of the base and the old base of the frame's puddle as not free, if the frame has one.
fn mark_puddle<H: Host>(h: &mut H, frame: u32, free: &mut [bool; TRIED]) -> Result<(), HostFault>
    requires known { frame < MAX_FRAMES }
    requires table { tables_end (frame + 1) ≤ (H.counts h.old).size }
    ensures left { H.tells → (image : Image) → reads (H.state h.old).now.words ≡ image
        → IfOk result (λ _. LeavesFree (λ base. has_other_bases base (puddle_at image frame)) free.old free.new) }
    ensures few { free_count free.old ≤ free_count free.new + 2 }
    ensures only_reads { OnlyReads H.tells H.state H.counts (fault_of result) h.old h.new }
{
    let record = puddle_record_at(frame);
    if h.load(record)? == 0 {
        return Ok(());
    }
    let base = h.load(record + PUDDLE_BASE_WORD)?;
    let old_base = h.load(record + PUDDLE_OLD_BASE_WORD)?;
    mark(base, free);
    mark(old_base, free);
    Ok(())
}

/// Marks the ranges of the bases and the old bases of all puddles as not free.
fn mark_puddles<H: Host>(h: &mut H, frames: u32, free: &mut [bool; TRIED]) -> Result<(), HostFault>
    requires few_frames { frames ≤ MAX_FRAMES }
    requires table { tables_end frames ≤ (H.counts h.old).size }
    ensures left { H.tells → (image : Image) → reads (H.state h.old).now.words ≡ image
        → IfOk result (λ _. LeavesFree (λ base. all_below frames (λ frame. has_other_bases base (puddle_at image frame))) free.old free.new) }
    ensures few { IfOk result (λ _. free_count free.old ≤ free_count free.new + 2 * frames) }
    ensures only_reads { OnlyReads H.tells H.state H.counts (fault_of result) h.old h.new }
{
    for frame in 0..frames {
        mark_puddle(h, frame, free)?;
    }
    Ok(())
}

/// The number of the first free range, if there is one.
fn find_free(free: &[bool; TRIED]) -> Option<usize>
    ensures { result ≡ position (λ b. b) free.now }
{
    free.iter().position(|free| *free)
}

/// The number of the first free range. There is one.
fn first_free(free: &[bool; TRIED]) -> usize
    requires { 1 ≤ free_count free.now }
    ensures tried { result < TRIED }
    ensures free { is_free free.now result ≡ true }
    ensures lowest { (k : ℕ) → k < result → is_free free.now k ≡ false }
{
    find_free(free).unwrap()
}

/// Returns the lowest base of the space that no puddle has as its base or its old base, and that is not one of `taken`.
/// There are at most 16 of these.
///
/// The call takes one load for each frame and two more for each puddle.
pub fn free_base<H: Host>(h: &mut H, frames: u32, taken: &[u64]) -> Result<u64, HostFault>
    requires few { frames ≤ MAX_FRAMES }
    requires table { tables_end frames ≤ (H.counts h.old).size }
    requires few_taken { length taken.now ≤ MAX_TAKEN }
    ensures lowest { H.tells → (image : Image) → reads (H.state h.old).now.words ≡ image → IfOk result (λ base. IsLowestBase (tables_of frames image) taken.now base) }
    ensures only_reads { OnlyReads H.tells H.state H.counts (fault_of result) h.old h.new }
{
    let mut free = all_free();
    mark_taken(taken, &mut free);
    mark_puddles(h, frames, &mut free)?;
    Ok(base_at(first_free(&free) as u32))
}
