//! The puddle table: which frame has which puddle of which pool, at which base.
//!
//! The table has a record for each frame. Calls that go over all records take the number of frames, at most 1,024. A
//! call that changes the table writes nothing. It returns the words that make the change, which become part of a batch.
#![tactic(auto)]

mod places;

ghost use Rattle.std.specs.Prelude.{◌≡◌, ◌+◌, ◌-◌, ◌<◌, ◌≤◌, ℕ, Option, IfOk, IfSome, All};
ghost use Rattle.pm_model.specs.Words.{reads};
ghost use Rattle.pm_model.specs.Counts.{fault_of};
ghost use Rattle.pm_model.specs.Reads.{OnlyReads};
ghost use Rattle.pud_defs.specs.declared.layout.TheConstants.{MAX_FRAMES};
ghost use Rattle.pud_defs.specs.declared.records.TheConstants.{POOL_RECORDS};
ghost use Rattle.pud_defs.specs.Formats.Image.{Image};
ghost use Rattle.pud_defs.specs.Formats.Layout.{tables_end};
ghost use Rattle.pud_defs.specs.RegistryTables.Keyed.{first_free};
ghost use Rattle.pud_defs.specs.RegistryTables.Puddles.{puddle_record_at, puddle_read};
ghost use Rattle.pud_defs.specs.RegistryTables.Tables.{tables_of, puddle_in};
ghost use Rattle.pud_defs.specs.RegistryTables.Puts.{puddle_put, free_puddle_put, with_put, with_puddle_at, member_by};
ghost use Rattle.puddle_table.specs.Records.{fault_in, frame_by, puddle_added, AddsPuddle, CountsPools, CountsMember, is_member, puddle_words_at, frontier_of, IsFrame};

pub use places::{Places, Puddles, find_places, find_puddles};
use pm_model::{Host, HostFault};
use pud_defs::layout::{MAX_FRAMES, puddle_record_at};
use pud_defs::records::{
    POOL_RECORDS, PUDDLE_BASE_WORD, PUDDLE_FRONTIER_WORD, PUDDLE_NUMBER_WORD, PUDDLE_OLD_BASE_WORD,
    Puddle, PuddleRecord, Put, RECORD_WORDS_READ, class_part, frontier_part, frontier_with_class,
    member_ordinal, member_pool, member_word,
};

/// Why a puddle was not added. Nothing changed.
#[derive(Clone, Copy, Debug, PartialEq, Eq, thiserror::Error)]
pub enum PuddleFault {
    /// No frame from the given one on is free.
    #[error("no frame is free")]
    NoSpace,
    /// The host's own fault.
    #[error("the host failed")]
    Host(HostFault),
}

impl From<HostFault> for PuddleFault {
    ghost use Rattle.puddle_table.specs.declared.PuddleFault.TheVariants.{Host};

    ghost from_gives = { λ fault e. e ≡ Host fault };

    fn from(fault: HostFault) -> Self {
        PuddleFault::Host(fault)
    }
}

/// Returns the lowest free frame from `from` on that is below `frames`.
///
/// The device has the puddle table of `frames` frames. If the host does not fail first, the error is `NoSpace` exactly
/// if no such frame is free.
pub fn free_frame<H: Host>(h: &mut H, frames: u32, from: u32) -> Result<u32, PuddleFault>
    requires few { frames ≤ MAX_FRAMES }
    requires table { tables_end frames ≤ (H.counts h.old).size }
    ensures frame { H.tells → (image : Image) → reads (H.state h.old).now.words ≡ image → fault_in result ≡ Option.None
        → result ≡ frame_by (first_free (tables_of frames image).puddles from (frames - from)) }
    ensures within { IfOk result (λ frame. frame < frames) }
    ensures only_reads { OnlyReads H.tells H.state H.counts (fault_in result) h.old h.new }
{
    for frame in from..frames {
        let member = h.load(puddle_record_at(frame))?;
        if member == 0 {
            return Ok(frame);
        }
    }
    Err(PuddleFault::NoSpace)
}

/// Returns the words that put the record `rec` into the frame's record, whatever is stored there.
pub fn record_put(frame: u32, rec: PuddleRecord) -> Put
    requires frame { frame < MAX_FRAMES }
    requires pool { rec.pool < POOL_RECORDS }
    ensures put { result ≡ puddle_put frame rec }
    ensures changes { (frames : ℕ) (image : Image) → frame < frames
        → tables_of frames (with_put result image) ≡ with_puddle_at frame (Option.Some (member_by rec)) (tables_of frames image) }
{
    let member = member_word(rec.pool + 1, rec.ordinal);
    let last = frontier_with_class(rec.frontier, rec.class);
    let vals = [member, rec.number, rec.base, rec.old_base, last, 0, 0, 0];
    Put {
        w: puddle_record_at(frame),
        n: RECORD_WORDS_READ as usize,
        vals,
    }
}

/// Returns the words that put the record `rec` into the record of the lowest free frame from `from` on that is below
/// `frames`.
///
/// The device has the puddle table of `frames` frames. If the host does not fail first, the error is `NoSpace` exactly
/// if no such frame is free. Nothing is written.
pub fn add<H: Host>(
    h: &mut H,
    frames: u32,
    from: u32,
    rec: PuddleRecord,
) -> Result<Put, PuddleFault>
    requires few { frames ≤ MAX_FRAMES }
    requires table { tables_end frames ≤ (H.counts h.old).size }
    requires known { rec.pool < POOL_RECORDS }
    ensures added { H.tells → (image : Image) → reads (H.state h.old).now.words ≡ image → fault_in result ≡ Option.None
        → result ≡ puddle_added (tables_of frames image) from rec }
    ensures changes { H.tells → (image : Image) → reads (H.state h.old).now.words ≡ image
        → IfOk result (λ put. AddsPuddle rec from (tables_of frames image) (tables_of frames (with_put put image))) }
    ensures only_reads { OnlyReads H.tells H.state H.counts (fault_in result) h.old h.new }
{
    let frame = free_frame(h, frames, from)?;
    Ok(record_put(frame, rec))
}

/// Returns the words that free the frame's record.
pub fn remove(frame: u32) -> Put
    requires { frame < MAX_FRAMES }
    ensures put { result ≡ free_puddle_put frame }
    ensures changes { (frames : ℕ) (image : Image) → frame < frames
        → tables_of frames (with_put result image) ≡ with_puddle_at frame Option.None (tables_of frames image) }
{
    Put {
        w: puddle_record_at(frame),
        n: 1,
        vals: [0; 8],
    }
}

/// Whether the member word names this ordinal of the pool in this slot.
fn names(member: u64, pool: u32, ordinal: u32) -> bool
    requires { pool < POOL_RECORDS }
    ensures { result ≡ is_member member pool ordinal }
{
    member_pool(member) == pool + 1 && member_ordinal(member) == ordinal
}

/// Reads what the record of a frame states about a puddle, whether the record is used or not.
fn read_puddle<H: Host>(h: &mut H, frame: u32) -> Result<Puddle, HostFault>
    requires known { frame < MAX_FRAMES }
    requires table { puddle_record_at (frame + 1) ≤ (H.counts h.old).size }
    ensures puddle { H.tells → (image : Image) → reads (H.state h.old).now.words ≡ image → IfOk result (λ puddle. puddle ≡ puddle_words_at image frame) }
    ensures only_reads { OnlyReads H.tells H.state H.counts (fault_of result) h.old h.new }
{
    let at = puddle_record_at(frame);
    let number = h.load(at + PUDDLE_NUMBER_WORD)?;
    let base = h.load(at + PUDDLE_BASE_WORD)?;
    let old_base = h.load(at + PUDDLE_OLD_BASE_WORD)?;
    let last = h.load(at + PUDDLE_FRONTIER_WORD)?;
    Ok(Puddle {
        number,
        base,
        old_base,
        frontier: frontier_part(last),
        class: class_part(last),
    })
}

/// Reads the record of a frame as that of this ordinal of the pool in this slot.
fn read_record<H: Host>(
    h: &mut H,
    frame: u32,
    pool: u32,
    ordinal: u32,
) -> Result<PuddleRecord, HostFault>
    requires known { frame < MAX_FRAMES }
    requires table { puddle_record_at (frame + 1) ≤ (H.counts h.old).size }
    ensures record { H.tells → (image : Image) → reads (H.state h.old).now.words ≡ image
        → IfOk result (λ rec. rec ≡ puddle_read pool ordinal (puddle_words_at image frame)) }
    ensures only_reads { OnlyReads H.tells H.state H.counts (fault_of result) h.old h.new }
{
    let puddle = read_puddle(h, frame)?;
    Ok(PuddleRecord {
        pool,
        ordinal,
        number: puddle.number,
        base: puddle.base,
        old_base: puddle.old_base,
        frontier: puddle.frontier,
        class: puddle.class,
    })
}

/// Returns the frame and the record of a pool's puddle by its ordinal, or None exactly if no used record of the frames
/// below `frames` has the pool and the ordinal. If several have them, the lowest frame counts.
///
/// The device has the puddle table of `frames` frames. The only errors are the host's own.
pub fn of_pool<H: Host>(
    h: &mut H,
    frames: u32,
    pool: u32,
    ordinal: u32,
) -> Result<Option<(u32, PuddleRecord)>, HostFault>
    requires few { frames ≤ MAX_FRAMES }
    requires table { tables_end frames ≤ (H.counts h.old).size }
    requires known { pool < POOL_RECORDS }
    ensures found { H.tells → (image : Image) → reads (H.state h.old).now.words ≡ image
        → IfOk result (λ found. found ≡ puddle_in (tables_of frames image) pool ordinal) }
    ensures within { IfOk result (λ found. IfSome found (IsFrame frames)) }
    ensures only_reads { OnlyReads H.tells H.state H.counts (fault_of result) h.old h.new }
{
    for frame in 0..frames {
        let member = h.load(puddle_record_at(frame))?;
        if names(member, pool, ordinal) {
            return Ok(Some((frame, read_record(h, frame, pool, ordinal)?)));
        }
    }
    Ok(None)
}

/// Counts one more record for the pool that the member word names, if it names a slot of the table.
fn count_member(counts: &mut [u32; POOL_RECORDS as usize], member: u64)
    requires { All (λ count. count ≤ MAX_FRAMES) counts.old }
    ensures counted { CountsMember member counts.old counts.new }
    ensures within { (most : ℕ) → All (λ count. count ≤ most) counts.old → All (λ count. count ≤ most + 1) counts.new }
{
    let pool = member_pool(member);
    if pool >= 1 && pool <= POOL_RECORDS {
        counts[(pool - 1) as usize] += 1;
    }
}

/// Counts for each slot of the pool table how many used records of the frames below `frames` name its pool. A record
/// that names no slot of the table counts for none.
///
/// The device has the puddle table of `frames` frames, whatever it stores. No count is more than `frames`. The only
/// errors are the host's own.
pub fn count_by_pool<H: Host>(
    h: &mut H,
    frames: u32,
) -> Result<[u32; POOL_RECORDS as usize], HostFault>
    requires few { frames ≤ MAX_FRAMES }
    requires table { tables_end frames ≤ (H.counts h.old).size }
    ensures counts { H.tells → (image : Image) → reads (H.state h.old).now.words ≡ image
        → IfOk result (CountsPools frames (tables_of frames image)) }
    ensures within { IfOk result (All (λ count. count ≤ frames)) }
    ensures only_reads { OnlyReads H.tells H.state H.counts (fault_of result) h.old h.new }
{
    let mut counts = [0; POOL_RECORDS as usize];
    for frame in 0..frames {
        let member = h.load(puddle_record_at(frame))?;
        count_member(&mut counts, member);
    }
    Ok(counts)
}

/// Loads how many steps of the frame's puddle are rewritten: the low 32 bits of the frontier word.
///
/// The device has the frame's record. The only errors are the host's own.
pub fn frontier<H: Host>(h: &mut H, frame: u32) -> Result<u32, HostFault>
    requires known { frame < MAX_FRAMES }
    requires table { puddle_record_at (frame + 1) ≤ (H.counts h.old).size }
    ensures frontier { H.tells → (image : Image) → reads (H.state h.old).now.words ≡ image → IfOk result (λ steps. steps ≡ frontier_of image frame) }
    ensures only_reads { OnlyReads H.tells H.state H.counts (fault_of result) h.old h.new }
{
    let last = h.load(puddle_record_at(frame) + PUDDLE_FRONTIER_WORD)?;
    Ok(frontier_part(last))
}
