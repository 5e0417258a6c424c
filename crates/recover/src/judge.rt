//! Judges a client's log at a start: whether it is registered, whether its owner may write all that it names, and
//! whether there is anything to replay.
ghost use Rattle.std.specs.Prelude.{◌≡◌, ◌+◌, ◌-◌, ◌<◌, ◌≤◌, ◌==◌, ◌&&◌, not, ℕ, Option, option_map, IfOk, IfSome};
ghost use Rattle.pm_model.specs.Words.{reads};
ghost use Rattle.pm_model.specs.Counts.{fault_of};
ghost use Rattle.pm_model.specs.Reads.{OnlyReads};
ghost use Rattle.pud_defs.specs.Formats.Image.{Image};
ghost use Rattle.pud_defs.specs.Formats.Layout.{tables_end, frames_at};
ghost use Rattle.pud_defs.specs.RegistryTables.Spaces.{owner as owner_and, owner_of};
ghost use Rattle.pud_defs.specs.RegistryTables.Pools.{owner_uid, owner_gid};
ghost use Rattle.pud_defs.specs.RegistryTables.Places.{located};
ghost use Rattle.pud_defs.specs.Formats.Rights.{may_write};
ghost use Rattle.pud_defs.specs.RegistryTables.Tables.{tables_of};
ghost use Rattle.pud_defs.specs.Logging.Allowed.{puddle_word, may_write_record, may_write_puddle, is_allowed_entry};
ghost use Rattle.pud_defs.specs.Logging.Settled.{ALL_LOGS};
ghost use Rattle.puddle_space.specs.Within.{IsPlaceIn};
ghost use Rattle.log_entry.specs.Reading.{entry_from};
ghost use Rattle.log_entry.specs.Copying.{log_copied};
ghost use Rattle.log_replay.specs.Placing.{placed_log};
ghost use Rattle.recover.specs.Verdicts.{owner_by_record, mark_for, is_refused_mark};
ghost use Rattle.recover.specs.Judging.{IsJudged};

use log_entry::{CopyReader, Entry, LogCopy};
use log_replay::device_word_at;
use owner_modes::may_write;
use pm_model::{Host, HostFault};
use pud_defs::layout::{
    CLIENT_LOGS, CLIENTS, ENTRY_HEADER_WORDS, FRAME_WORDS, LogNumber, MAX_FRAMES, PUDDLE_TABLE,
    SPACE_TABLE, log_number_at, pool_record_at, puddle_record_at, space_record_at,
};
use pud_defs::log_words::{gate_used, is_legal_gate};
use pud_defs::records::{
    POOL_MODE_WORD, POOL_OWNER_WORD, POOL_RECORDS, member_pool, owner_gid, owner_uid,
};
use pud_defs::space::WORD_BYTES;
use puddle_space::Nearby;

/// What a start finds out about a client's log.
#[derive(Clone, Copy, Debug, PartialEq, Eq)]
pub enum Mark {
    /// The log is not registered, or it is allowed and none of its entries is in range.
    Closed,
    /// The log is registered and allowed, and at least one of its entries is in range.
    Replayed,
    /// The log is registered and not allowed: it is not well formed, or its owner may not write all that it names.
    Refused,
}

impl Mark {
    /// Whether the log is refused.
    pub fn is_refused(self) -> bool
        ensures { result ≡ is_refused_mark self }
    {
        matches!(self, Mark::Refused)
    }
}

/// As whom a client's logs act, by the words of the client's record. On a device that is not sound these words may have
/// any value.
#[derive(Clone, Copy)]
struct Registrant {
    uid: u64,
    gid: u64,
}

/// An id of 32 bits that equals this id of a pool exactly if `id` equals it. An id of more than 32 bits is no pool's.
fn narrowed(id: u64, of_pool: u32) -> u32
    ensures { (of_pool == result) ≡ (of_pool == id) }
{
    if id == u64::from(of_pool) {
        of_pool
    } else if of_pool == 0 {
        1
    } else {
        0
    }
}

impl Registrant {
    /// Whether a pool of this owner word and this mode word may be written.
    fn may_write(self, owner: u64, mode: u64) -> bool
        ensures { result ≡ may_write mode (owner_and (owner_uid owner) (owner_gid owner)) (owner_by_record self) }
    {
        let uid = owner_uid(owner);
        let gid = owner_gid(owner);
        may_write(
            (mode % (1 << 32)) as u32,
            uid,
            gid,
            narrowed(self.uid, uid),
            narrowed(self.gid, gid),
        )
    }
}

/// As whom the logs of a client act, or None if they are not registered.
fn owner_of<H: Host>(h: &mut H, client: u32) -> Result<Option<Registrant>, HostFault>
    requires known { client < CLIENTS }
    requires table { PUDDLE_TABLE ≤ (H.counts h.old).size }
    ensures owner { H.tells → (image : Image) → reads (H.state h.old).now.words ≡ image → IfOk result (λ who. option_map owner_by_record who ≡ owner_of image client) }
    ensures only_reads { OnlyReads H.tells H.state H.counts (fault_of result) h.old h.new }
{
    let at = space_record_at(client);
    if h.load(at)? != 1 {
        return Ok(None);
    }
    let uid = h.load(at + 1)?;
    let gid = h.load(at + 2)?;
    Ok(Some(Registrant { uid, gid }))
}

/// Whether a pool exists and may be written. `pool` is its slot plus 1.
fn may_write_pool<H: Host>(h: &mut H, who: Registrant, pool: u32) -> Result<bool, HostFault>
    requires { SPACE_TABLE ≤ (H.counts h.old).size }
    ensures may { H.tells → (image : Image) → reads (H.state h.old).now.words ≡ image → (F : ℕ)
        → IfOk result (λ may. may ≡ (not (pool == 0) && may_write_record (owner_by_record who) ((tables_of F image).pools (pool - 1)))) }
    ensures only_reads { OnlyReads H.tells H.state H.counts (fault_of result) h.old h.new }
{
    if pool == 0 || pool > POOL_RECORDS {
        return Ok(false);
    }
    let at = pool_record_at(pool - 1);
    if h.load(at)? == 0 {
        return Ok(false);
    }
    let owner = h.load(at + POOL_OWNER_WORD)?;
    let mode = h.load(at + POOL_MODE_WORD)?;
    Ok(who.may_write(owner, mode))
}

/// Whether the puddle of a frame belongs to a pool that may be written.
fn may_write_puddle<H: Host>(h: &mut H, who: Registrant, frame: u32) -> Result<bool, HostFault>
    requires known { frame < MAX_FRAMES }
    requires table { tables_end (frame + 1) ≤ (H.counts h.old).size }
    ensures may { H.tells → (image : Image) → reads (H.state h.old).now.words ≡ image → (F : ℕ) → frame < F
        → IfOk result (λ may. may ≡ may_write_puddle (tables_of F image) (owner_by_record who) ((tables_of F image).puddles frame)) }
    ensures only_reads { OnlyReads H.tells H.state H.counts (fault_of result) h.old h.new }
{
    let member = h.load(puddle_record_at(frame))?;
    may_write_pool(h, who, member_pool(member))
}

/// Whether an entry is allowed: its address is that of a word, and all words that it names lie in one puddle of a pool
/// that may be written. `place` is where the address lies.
fn is_allowed_entry<H: Host>(
    h: &mut H,
    frames: u32,
    who: Registrant,
    entry: &Entry,
    place: Option<(u32, u32)>,
) -> Result<bool, HostFault>
    requires few { frames ≤ MAX_FRAMES }
    requires table { tables_end frames ≤ (H.counts h.old).size }
    requires within { IfSome place (IsPlaceIn frames) }
    ensures allowed { H.tells → (image : Image) → reads (H.state h.old).now.words ≡ image → place ≡ located (tables_of frames image) entry.now.addr → (entries : Image)
        → IfOk result (λ allowed. allowed ≡ is_allowed_entry (tables_of frames image) (owner_by_record who) (entry_from entries entry.now)) }
    ensures only_reads { OnlyReads H.tells H.state H.counts (fault_of result) h.old h.new }
{
    if entry.addr % u64::from(WORD_BYTES) != 0 {
        return Ok(false);
    }
    let Some((frame, word)) = place else {
        return Ok(false);
    };
    if entry.n > FRAME_WORDS - word {
        return Ok(false);
    }
    may_write_puddle(h, who, frame)
}

/// The mark of a registered log, whatever its copy contains. The entries are read once, up to the first one that counts
/// and is not allowed. If the log is to be replayed, each entry that counts gets, in place of its address, the device
/// word that it names first.
fn mark_copy<H: Host>(
    h: &mut H,
    frames: u32,
    who: Registrant,
    copy: &mut LogCopy,
) -> Result<Mark, HostFault>
    requires few { frames ≤ MAX_FRAMES }
    requires table { tables_end frames ≤ (H.counts h.old).size }
    ensures mark { H.tells → (image : Image) → reads (H.state h.old).now.words ≡ image
        → IfOk result (λ mark. mark ≡ mark_for (tables_of frames image) (owner_by_record who) (log_copied copy.old)) }
    ensures placed { H.tells → (image : Image) → reads (H.state h.old).now.words ≡ image
        → IfOk result (λ mark. mark ≡ Mark.Replayed → log_copied copy.new ≡ placed_log (puddle_word (tables_of frames image)) (log_copied copy.old)) }
    ensures only_reads { OnlyReads H.tells H.state H.counts (fault_of result) h.old h.new }
{
    let gate = copy.gate();
    if !is_legal_gate(gate) {
        return Ok(Mark::Refused);
    }
    let range = copy.range();
    let mut mark = Mark::Closed;
    let mut passed = 0;
    let mut nearby = Nearby::none();
    let mut reader = CopyReader::new();
    while let Some(entry) = reader.next(copy) {
        passed += ENTRY_HEADER_WORDS + entry.n;
        if !range.counts(&entry) {
            continue;
        }
        let place = nearby.locate(h, frames, entry.addr)?;
        if !is_allowed_entry(h, frames, who, &entry, place)? {
            return Ok(Mark::Refused);
        }
        copy.set_address(&entry, device_word_at(frames, place));
        mark = Mark::Replayed;
    }
    if passed < gate_used(gate) {
        return Ok(Mark::Refused);
    }
    Ok(mark)
}

/// A log that was judged.
#[derive(Drop)]
pub(crate) struct JudgedLog {
    /// A copy of the log. If the log is to be replayed, the entries that count have device words as addresses.
    pub copy: LogCopy,
    /// What was found out about it.
    pub mark: Mark,
}

/// Judges the log with this log number, on a device whose daemon log is replayed and closed. The result is None if the
/// log is not registered. The answer is right for any content of the device. Nothing changes, and the only errors are
/// the host's own.
///
/// The device has the logs of `frames` frames. A log that is not registered takes one load, and one that counts no word
/// takes four. Of any other log each entry word is loaded once.
pub(crate) fn judge_log<H: Host>(
    h: &mut H,
    frames: u32,
    number: LogNumber,
) -> Result<Option<JudgedLog>, HostFault>
    requires few { frames ≤ MAX_FRAMES }
    requires known { number < ALL_LOGS }
    requires room { frames_at frames ≤ (H.counts h.old).size }
    ensures judged { H.tells → (image : Image) → reads (H.state h.old).now.words ≡ image → IfOk result (IsJudged frames image number) }
    ensures only_reads { OnlyReads H.tells H.state H.counts (fault_of result) h.old h.new }
{
    let Some(who) = owner_of(h, number / CLIENT_LOGS)? else {
        return Ok(None);
    };
    let mut copy = LogCopy::new();
    copy.load(h, log_number_at(frames, number))?;
    let mark = mark_copy(h, frames, who, &mut copy)?;
    Ok(Some(JudgedLog { copy, mark }))
}
