//! Whether a device is a sound registry once its daemon log is replayed. Nothing is replayed and nothing is written:
//! each word is read as the replay would make it.
ghost use Rattle.std.specs.Prelude.{◌≡◌, ◌+◌, ◌<◌, ◌≤◌, ◌==◌, ℕ, true, ◌&&◌, nat_le, List, Option, IfOk, IfSome, is_some};
ghost use Rattle.std.specs.List.{list_all, list_any};
ghost use Rattle.pm_model.specs.Words.{reads};
ghost use Rattle.pm_model.specs.Counts.{fault_of};
ghost use Rattle.pm_model.specs.Reads.{OnlyReads};
ghost use Rattle.pud_defs.specs.declared.layout.TheConstants.{VERSION_WORD, DAEMON_LOG, POOL_TABLE, PUDDLE_TABLE};
ghost use Rattle.pud_defs.specs.Formats.Image.{Image};
ghost use Rattle.pud_defs.specs.Formats.Layout.{device_words};
ghost use Rattle.pud_defs.specs.Logging.Entries.{Entry as LoggedEntry, log_of};
ghost use Rattle.pud_defs.specs.Logging.Replay.{settled_by};
ghost use Rattle.pud_defs.specs.RegistryTables.Spaces.{is_space, is_legal_space, are_legal_spaces};
ghost use Rattle.pud_defs.specs.RegistryTables.Tables.{tables_of};
ghost use Rattle.pud_defs.specs.RegistryTables.SoundTables.{are_sound_tables};
ghost use Rattle.pud_defs.specs.RegistryTables.Registry.{frames_of, is_version, suits_version, has_legal_types, may_be_logged, is_loggable, has_legal_log, is_registry, is_sound};
ghost use Rattle.pud_defs.specs.Formats.Identifiers.{is_number};
ghost use Rattle.log_entry.specs.Reading.{entry_from};
ghost use Rattle.log_entry.specs.Copying.{image_of_copy, log_copied};
ghost use Rattle.soundness.specs.Overlaying.{IsOverlay};
ghost use Rattle.soundness.specs.Judging.{IsRoomFor, frames_by, frames_described, with_one_more, has_sound_records};

use crate::distinct::are_distinct_puddles;
use crate::names::has_distinct_names;
use crate::overlay::Overlay;
use crate::tables::{are_all_large, has_legal_pools, has_legal_puddles};
use log_entry::{CopyReader, Entry, LogCopy};
use pm_model::{Host, HostFault};
use pud_defs::layout::{
    CLIENTS, DEVICE_MAGIC, FIRST_VERSION, FRAMES_WORD, MAGIC_WORD, MAX_FRAMES, MAX_OWNER_ID,
    MIN_FRAMES, NEXT_NUMBER_WORD, NUMBER_LIMIT, TYPE_RECORDS, TYPE_TABLE, VERSION, VERSION_WORD,
    device_words, frames_at, space_record_at, tables_end, type_record_at,
};
use pud_defs::type_map::{is_legal_map, is_legal_type_id};

/// Whether a device may have this version: the present one or the first.
fn is_version(version: u64) -> bool
    ensures { result ≡ is_version version }
{
    version == VERSION || version == FIRST_VERSION
}

/// The number of frames by the words that describe a device, or None if these words are not sound or the device is too
/// small.
fn frames_of_header(words: u32, magic: u64, version: u64, frames: u64) -> Option<u32>
    ensures frames { result ≡ frames_by words magic version frames }
    ensures within { IfSome result (IsRoomFor words) }
{
    if magic != DEVICE_MAGIC || !is_version(version) {
        return None;
    }
    if frames < u64::from(MIN_FRAMES) || frames > u64::from(MAX_FRAMES) {
        return None;
    }
    let frames = frames as u32;
    if words < device_words(frames) {
        return None;
    }
    Some(frames)
}

/// The number of frames, if the words 0, 1 and 3 are sound and the device has the words that this many frames need. The
/// daemon log can write none of these words.
fn described_frames<H: Host>(h: &mut H) -> Result<Option<u32>, HostFault>
    requires { device_words MIN_FRAMES ≤ (H.counts h.old).size }
    ensures frames { H.tells → IfOk result (λ frames. frames ≡ frames_described (H.counts h.old).size (reads (H.state h.old).now.words)) }
    ensures within { IfOk result (λ frames. IfSome frames (IsRoomFor (H.counts h.old).size)) }
    ensures only_reads { OnlyReads H.tells H.state H.counts (fault_of result) h.old h.new }
{
    let words = h.words();
    let magic = h.load(MAGIC_WORD)?;
    let version = h.load(VERSION_WORD)?;
    let frames = h.load(FRAMES_WORD)?;
    Ok(frames_of_header(words, magic, version, frames))
}

/// Whether `n` words from word `at` on all lie from word `from` on and before word `to`.
fn lie_within(at: u64, n: u32, from: u32, to: u32) -> bool
    ensures { result ≡ (nat_le from at && nat_le (at + n) to) }
{
    let to = u64::from(to);
    u64::from(from) <= at && at <= to && u64::from(n) <= to - at
}

/// Whether the daemon log may write `n` words from word `at` on, on a device of `frames` frames.
fn may_be_logged(frames: u32, at: u64, n: u32) -> bool
    requires { frames ≤ MAX_FRAMES }
    ensures { result ≡ may_be_logged frames at n }
{
    let number = at == u64::from(NEXT_NUMBER_WORD) && n == 1;
    number
        || lie_within(at, n, TYPE_TABLE, tables_end(frames))
        || lie_within(at, n, frames_at(frames), device_words(frames))
}

/// Whether an entry of the daemon log is out of range, or lies where that log may write.
fn is_allowed(overlay: &Overlay, frames: u32, entry: &Entry) -> bool
    requires { frames ≤ MAX_FRAMES }
    ensures { result ≡ is_loggable frames (log_copied overlay.now.log) (entry_from (image_of_copy overlay.now.log) entry.now) }
{
    !overlay.log.range().counts(entry) || may_be_logged(frames, entry.addr, entry.n)
}

/// Whether this is true of each entry of the daemon log.
fn are_allowed(overlay: &Overlay, frames: u32) -> bool
    requires { frames ≤ MAX_FRAMES }
    ensures { (es : List LoggedEntry) → (log_copied overlay.now.log).entries ≡ Option.Some es → result ≡ list_all (is_loggable frames (log_copied overlay.now.log)) es }
{
    let mut reader = CopyReader::new();
    while let Some(entry) = reader.next(&overlay.log) {
        if !is_allowed(overlay, frames, &entry) {
            return false;
        }
    }
    true
}

/// Whether the daemon log is well formed and its entries in range lie where they may.
fn has_legal_log(overlay: &Overlay, frames: u32) -> bool
    requires { frames ≤ MAX_FRAMES }
    ensures { (image : Image) → log_copied overlay.now.log ≡ log_of image DAEMON_LOG → frames ≡ frames_of image → result ≡ has_legal_log image }
{
    if !overlay.log.is_well_formed() {
        return false;
    }
    are_allowed(overlay, frames)
}

/// Whether records are legal with one more before them. `legal` tells whether they are legal, and `ids` are their ids.
/// The new record may be free, or it is used and legal and has none of these ids.
fn is_legal_with(id: u64, map: u64, ids: &[u64], legal: bool) -> bool
    ensures { result ≡ with_one_more id map (list_any (λ y. y == id) ids.now) legal }
{
    if id == 0 {
        return legal;
    }
    let again = ids.contains(&id);
    is_legal_type_id(id) && is_legal_map(map) && !again && legal
}

/// Whether each used type record is legal and no id comes twice. The table is read from its last record to its first.
fn has_legal_types<H: Host>(h: &mut H, overlay: &Overlay) -> Result<bool, HostFault>
    requires { POOL_TABLE ≤ (H.counts h.old).size }
    ensures legal { H.tells → (image : Image) → reads (H.state h.old).now.words ≡ image → IsOverlay overlay.now image
        → IfOk result (λ legal. legal ≡ has_legal_types (settled_by DAEMON_LOG image)) }
    ensures only_reads { OnlyReads H.tells H.state H.counts (fault_of result) h.old h.new }
{
    let mut ids = [0u64; TYPE_RECORDS as usize];
    let mut legal = true;
    for done in 0..TYPE_RECORDS {
        let at = type_record_at(TYPE_RECORDS - 1 - done);
        let id = overlay.word(h, at)?;
        let map = overlay.word(h, at + 1)?;
        legal = is_legal_with(id, map, &ids[..done as usize], legal);
        ids[done as usize] = id;
    }
    Ok(legal)
}

/// Whether the next UUID number is from 1 to 2^63.
fn is_number(number: u64) -> bool
    ensures { result ≡ is_number number }
{
    number >= 1 && number <= NUMBER_LIMIT
}

/// Whether a log-space record of these three words is free, or is used and has a legal owner.
fn is_space(used: u64, uid: u64, gid: u64) -> bool
    ensures { result ≡ is_space used uid gid }
{
    let known = uid <= u64::from(MAX_OWNER_ID) && gid <= u64::from(MAX_OWNER_ID);
    used == 0 || (used == 1 && known)
}

/// Whether the log-space record of a client is legal.
fn is_legal_space<H: Host>(h: &mut H, overlay: &Overlay, client: u32) -> Result<bool, HostFault>
    requires known { client < CLIENTS }
    requires within { PUDDLE_TABLE ≤ (H.counts h.old).size }
    ensures legal { H.tells → (image : Image) → reads (H.state h.old).now.words ≡ image → IsOverlay overlay.now image
        → IfOk result (λ legal. legal ≡ is_legal_space (settled_by DAEMON_LOG image) client) }
    ensures only_reads { OnlyReads H.tells H.state H.counts (fault_of result) h.old h.new }
{
    let at = space_record_at(client);
    let used = overlay.word(h, at)?;
    let uid = overlay.word(h, at + 1)?;
    let gid = overlay.word(h, at + 2)?;
    Ok(is_space(used, uid, gid))
}

/// Whether each log-space record is legal.
fn are_legal_spaces<H: Host>(h: &mut H, overlay: &Overlay) -> Result<bool, HostFault>
    requires { PUDDLE_TABLE ≤ (H.counts h.old).size }
    ensures legal { H.tells → (image : Image) → reads (H.state h.old).now.words ≡ image → IsOverlay overlay.now image
        → IfOk result (λ legal. legal ≡ are_legal_spaces (settled_by DAEMON_LOG image)) }
    ensures only_reads { OnlyReads H.tells H.state H.counts (fault_of result) h.old h.new }
{
    for client in 0..CLIENTS {
        if !is_legal_space(h, overlay, client)? {
            return Ok(false);
        }
    }
    Ok(true)
}

fn are_all(first: bool, second: bool, third: bool) -> bool
    ensures { result ≡ (first && second && third) }
{
    first && second && third
}

/// Whether the pool table and the puddle table are sound, if `next` is the next UUID number. Each record is judged by
/// itself first, and then what tells the puddles apart.
fn are_sound_tables<H: Host>(
    h: &mut H,
    overlay: &Overlay,
    next: u64,
    frames: u32,
) -> Result<bool, HostFault>
    requires few { frames ≤ MAX_FRAMES }
    requires room { device_words frames ≤ (H.counts h.old).size }
    ensures sound { H.tells → (image : Image) → reads (H.state h.old).now.words ≡ image → IsOverlay overlay.now image
        → IfOk result (λ sound. sound ≡ are_sound_tables next (tables_of frames (settled_by DAEMON_LOG image))) }
    ensures only_reads { OnlyReads H.tells H.state H.counts (fault_of result) h.old h.new }
{
    let pools = has_legal_pools(h, overlay, next)?;
    let names = has_distinct_names(h, overlay)?;
    let puddles = has_legal_puddles(h, overlay, next, frames)?;
    if !are_all(pools, names, puddles) {
        return Ok(false);
    }
    are_distinct_puddles(h, overlay, frames)
}

/// Whether the next number and the types are legal, and the pool table and the puddle table are sound.
fn has_sound_records<H: Host>(h: &mut H, overlay: &Overlay, frames: u32) -> Result<bool, HostFault>
    requires few { frames ≤ MAX_FRAMES }
    requires room { device_words frames ≤ (H.counts h.old).size }
    ensures sound { H.tells → (image : Image) → reads (H.state h.old).now.words ≡ image → IsOverlay overlay.now image
        → IfOk result (λ sound. sound ≡ has_sound_records (settled_by DAEMON_LOG image) frames) }
    ensures only_reads { OnlyReads H.tells H.state H.counts (fault_of result) h.old h.new }
{
    let next = overlay.word(h, NEXT_NUMBER_WORD)?;
    let types = has_legal_types(h, overlay)?;
    let tables = are_sound_tables(h, overlay, next, frames)?;
    Ok(are_all(is_number(next), types, tables))
}

/// Whether a device of `frames` frames may have puddles of these classes in its version: in the first one each puddle is
/// large.
fn has_suitable_puddles<H: Host>(
    h: &mut H,
    overlay: &Overlay,
    frames: u32,
) -> Result<bool, HostFault>
    requires few { frames ≤ MAX_FRAMES }
    requires room { device_words frames ≤ (H.counts h.old).size }
    ensures suits { H.tells → (image : Image) → reads (H.state h.old).now.words ≡ image → IsOverlay overlay.now image
        → IfOk result (λ suits. suits ≡ suits_version (settled_by DAEMON_LOG image VERSION_WORD) (tables_of frames (settled_by DAEMON_LOG image))) }
    ensures only_reads { OnlyReads H.tells H.state H.counts (fault_of result) h.old h.new }
{
    if overlay.word(h, VERSION_WORD)? == VERSION {
        return Ok(true);
    }
    are_all_large(h, overlay, frames)
}

/// Whether a device of `frames` frames with a legal daemon log is a sound registry once that log is replayed.
fn is_registry<H: Host>(h: &mut H, overlay: &Overlay, frames: u32) -> Result<bool, HostFault>
    requires few { frames ≤ MAX_FRAMES }
    requires room { device_words frames ≤ (H.counts h.old).size }
    ensures sound { H.tells → (image : Image) → reads (H.state h.old).now.words ≡ image → IsOverlay overlay.now image → has_legal_log image ≡ true
        → (size : ℕ) → frames_described size image ≡ Option.Some frames → IfOk result (λ sound. sound ≡ is_registry size (settled_by DAEMON_LOG image)) }
    ensures only_reads { OnlyReads H.tells H.state H.counts (fault_of result) h.old h.new }
{
    let records = has_sound_records(h, overlay, frames)?;
    let suits = has_suitable_puddles(h, overlay, frames)?;
    let spaces = are_legal_spaces(h, overlay)?;
    Ok(are_all(records, suits, spaces))
}

/// A copy of the daemon log of a device that is described to have `frames` frames, if the device is a sound registry
/// once that log is replayed; otherwise None.
fn log_of_sound<H: Host>(h: &mut H, frames: u32) -> Result<Option<LogCopy>, HostFault>
    requires few { frames ≤ MAX_FRAMES }
    requires room { device_words frames ≤ (H.counts h.old).size }
    ensures sound { H.tells → (image : Image) → reads (H.state h.old).now.words ≡ image → (size : ℕ) → frames_described size image ≡ Option.Some frames
        → IfOk result (λ log. is_some log ≡ is_sound size image) }
    ensures log { H.tells → (image : Image) → reads (H.state h.old).now.words ≡ image → IfOk result (λ log. IfSome log (λ copy. log_copied copy ≡ log_of image DAEMON_LOG)) }
    ensures only_reads { OnlyReads H.tells H.state H.counts (fault_of result) h.old h.new }
{
    let overlay = Overlay::of(h)?;
    if !has_legal_log(&overlay, frames) {
        return Ok(None);
    }
    if !is_registry(h, &overlay, frames)? {
        return Ok(None);
    }
    Ok(Some(overlay.log))
}

/// What is known about a device that is a sound registry once its daemon log is replayed.
#[derive(Drop)]
pub struct Sound {
    /// The number of its frames, 4 to 1,024.
    pub frames: u32,
    /// A copy of its daemon log.
    pub log: LogCopy,
}

/// Judges a device. The result is what is known about it if it is a sound registry once its daemon log is replayed, and
/// None exactly if it is not. Nothing changes, and the only errors are the host's own.
///
/// The gate of the daemon log is loaded once, and so is each entry word that it counts.
pub fn judge_device<H: Host>(h: &mut H) -> Result<Option<Sound>, HostFault>
    ensures sound { H.tells → IfOk result (λ found. is_some found ≡ is_sound (H.counts h.old).size (reads (H.state h.old).now.words)) }
    ensures frames { H.tells → IfOk result (λ found. IfSome found (λ sound. sound.frames ≡ frames_of (reads (H.state h.old).now.words))) }
    ensures log { H.tells → IfOk result (λ found. IfSome found (λ sound. log_copied sound.log ≡ log_of (reads (H.state h.old).now.words) DAEMON_LOG)) }
    ensures room { IfOk result (λ found. IfSome found (λ sound. IsRoomFor (H.counts h.old).size sound.frames)) }
    ensures only_reads { OnlyReads H.tells H.state H.counts (fault_of result) h.old h.new }
{
    if h.words() < device_words(MIN_FRAMES) {
        return Ok(None);
    }
    let Some(frames) = described_frames(h)? else {
        return Ok(None);
    };
    match log_of_sound(h, frames)? {
        Some(log) => Ok(Some(Sound { frames, log })),
        None => Ok(None),
    }
}
