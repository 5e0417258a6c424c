//! Whether the records of the pool table and the puddle table are legal, once the daemon log is replayed.
ghost use Rattle.std.specs.Prelude.{◌≡◌, ◌+◌, ◌<◌, ◌≤◌, ◌==◌, ℕ, IfOk};
ghost use Rattle.std.specs.List.{list_all};
ghost use Rattle.pm_model.specs.Words.{reads};
ghost use Rattle.pm_model.specs.Counts.{fault_of};
ghost use Rattle.pm_model.specs.Reads.{OnlyReads};
ghost use Rattle.pud_defs.specs.declared.layout.TheConstants.{DAEMON_LOG, TYPE_TABLE, SPACE_TABLE, MAX_FRAMES};
ghost use Rattle.pud_defs.specs.declared.records.TheConstants.{POOL_RECORDS, RECORD_WORDS_READ};
ghost use Rattle.pud_defs.specs.Formats.Image.{Image};
ghost use Rattle.pud_defs.specs.Formats.Layout.{device_words};
ghost use Rattle.pud_defs.specs.Logging.Replay.{settled_by};
ghost use Rattle.pud_defs.specs.Formats.Names.{is_filled, is_legal_name};
ghost use Rattle.pud_defs.specs.RegistryTables.Pools.{is_given};
ghost use Rattle.pud_defs.specs.RegistryTables.Tables.{tables_of};
ghost use Rattle.pud_defs.specs.RegistryTables.SoundTables.{is_sound_pool, has_legal_pools, is_pool, is_sound_puddle, has_legal_puddles};
ghost use Rattle.soundness.specs.Overlaying.{IsOverlay};
ghost use Rattle.pud_defs.specs.RegistryTables.Registry.{is_large_member, are_all_large};
ghost use Rattle.soundness.specs.Tables.{record_words, pool_by_words, puddle_by_words, member_of_words, is_legal_but_pool};

use crate::overlay::Overlay;
use pm_model::{Host, HostFault};
use pud_defs::layout::{MAX_OWNER_ID, pool_record_at, puddle_record_at};
use pud_defs::records::{
    MAX_PUDDLES, POOL_MODE_WORD, POOL_NUMBER_WORD, POOL_OWNER_WORD, POOL_RECORDS, PUDDLE_BASE_WORD,
    PUDDLE_FRONTIER_WORD, PUDDLE_NUMBER_WORD, PUDDLE_OLD_BASE_WORD, Puddle, RECORD_WORDS_READ,
    class_part, frontier_part, is_legal_mode, is_name_byte, member_ordinal, member_pool, name_by,
    owner_gid, owner_uid,
};
use pud_defs::space::{LARGE, is_legal_base, is_legal_class, is_legal_frontier};

/// Whether all bytes are zeros.
fn are_zero(bytes: &[u8]) -> bool
    ensures { result ≡ list_all (λ byte. byte == 0) bytes.now }
{
    bytes.iter().all(|byte| *byte == 0)
}

/// Whether bytes of a name come first, and only zeros after them.
#[tactic(auto, unfolding(pud_defs::specs::Formats::Names::is_filled))]
fn is_filled(bytes: &[u8]) -> bool
    ensures { result ≡ is_filled bytes.now }
{
    match bytes {
        [] => true,
        [first, rest @ ..] => {
            let named = is_name_byte(*first) && is_filled(rest);
            named || are_zero(bytes)
        }
    }
}

/// Whether at least one byte of a name comes first, and only zeros after the last one.
#[tactic(auto, unfolding(pud_defs::specs::Formats::Names::is_legal_name))]
fn is_legal_name(bytes: &[u8]) -> bool
    ensures { result ≡ is_legal_name bytes.now }
{
    match bytes {
        [] => false,
        [first, rest @ ..] => is_name_byte(*first) && is_filled(rest),
    }
}

/// Whether UUID number `number` was given out, if `next` is the next one.
fn is_given(next: u64, number: u64) -> bool
    ensures { result ≡ is_given next number }
{
    1 <= number && number < next
}

/// The words of a pool record or a puddle record that are read.
type RecordWords = [u64; RECORD_WORDS_READ as usize];

/// Reads the record that begins at word `at`. It comes after the daemon log.
fn read_record<H: Host>(h: &mut H, overlay: &Overlay, at: u32) -> Result<RecordWords, HostFault>
    requires after_log { TYPE_TABLE ≤ at }
    requires within { at + RECORD_WORDS_READ ≤ (H.counts h.old).size }
    ensures words { H.tells → (image : Image) → reads (H.state h.old).now.words ≡ image → IsOverlay overlay.now image
        → IfOk result (λ words. words ≡ record_words (settled_by DAEMON_LOG image) at) }
    ensures only_reads { OnlyReads H.tells H.state H.counts (fault_of result) h.old h.new }
{
    // Through this call the proof knows that 32 bits count the words of a device, and so each place among them too.
    let _words = h.words();
    let first = overlay.word(h, at)?;
    let second = overlay.word(h, at + 1)?;
    let third = overlay.word(h, at + 2)?;
    let fourth = overlay.word(h, at + 3)?;
    let fifth = overlay.word(h, at + 4)?;
    Ok([first, second, third, fourth, fifth])
}

/// Whether a pool record of these words is free, or is legal if `next` is the next UUID number.
#[tactic(auto, unfolding(pud_defs::specs::RegistryTables::Pools::pool_by))]
fn is_sound_pool(next: u64, words: &RecordWords) -> bool
    ensures { result ≡ is_sound_pool next (pool_by_words words.now) }
{
    if words[0] == 0 {
        return true;
    }
    let name = name_by(words[0], words[1]);
    let owner = words[POOL_OWNER_WORD as usize];
    is_legal_name(&name)
        && owner_uid(owner) <= MAX_OWNER_ID
        && owner_gid(owner) <= MAX_OWNER_ID
        && is_legal_mode(words[POOL_MODE_WORD as usize])
        && is_given(next, words[POOL_NUMBER_WORD as usize])
}

/// Whether the pool record of a slot is free, or is legal if `next` is the next UUID number.
fn is_sound_slot<H: Host>(
    h: &mut H,
    overlay: &Overlay,
    next: u64,
    slot: u32,
) -> Result<bool, HostFault>
    requires known { slot < POOL_RECORDS }
    requires within { SPACE_TABLE ≤ (H.counts h.old).size }
    ensures sound { H.tells → (image : Image) → reads (H.state h.old).now.words ≡ image → IsOverlay overlay.now image
        → (F : ℕ) → IfOk result (λ sound. sound ≡ is_sound_pool next ((tables_of F (settled_by DAEMON_LOG image)).pools slot)) }
    ensures only_reads { OnlyReads H.tells H.state H.counts (fault_of result) h.old h.new }
{
    let words = read_record(h, overlay, pool_record_at(slot))?;
    Ok(is_sound_pool(next, &words))
}

/// Whether each used pool record is legal, if `next` is the next UUID number.
pub fn has_legal_pools<H: Host>(h: &mut H, overlay: &Overlay, next: u64) -> Result<bool, HostFault>
    requires { SPACE_TABLE ≤ (H.counts h.old).size }
    ensures legal { H.tells → (image : Image) → reads (H.state h.old).now.words ≡ image → IsOverlay overlay.now image
        → (F : ℕ) → IfOk result (λ legal. legal ≡ has_legal_pools next (tables_of F (settled_by DAEMON_LOG image))) }
    ensures only_reads { OnlyReads H.tells H.state H.counts (fault_of result) h.old h.new }
{
    for slot in 0..POOL_RECORDS {
        if !is_sound_slot(h, overlay, next, slot)? {
            return Ok(false);
        }
    }
    Ok(true)
}

/// Whether a used puddle record of these words is legal, if `next` is the next UUID number. The pool that it names is
/// not judged.
fn is_legal_puddle(next: u64, words: &RecordWords) -> bool
    ensures { result ≡ is_legal_but_pool next (member_of_words words.now) }
{
    let puddle = Puddle {
        number: words[PUDDLE_NUMBER_WORD as usize],
        base: words[PUDDLE_BASE_WORD as usize],
        old_base: words[PUDDLE_OLD_BASE_WORD as usize],
        frontier: frontier_part(words[PUDDLE_FRONTIER_WORD as usize]),
        class: class_part(words[PUDDLE_FRONTIER_WORD as usize]),
    };
    member_ordinal(words[0]) < MAX_PUDDLES
        && is_given(next, puddle.number)
        && is_legal_base(puddle.base)
        && is_legal_base(puddle.old_base)
        && is_legal_class(&puddle)
        && is_legal_frontier(&puddle)
}

/// Whether the record of a pool is used. `pool` is its slot plus 1.
fn is_pool<H: Host>(h: &mut H, overlay: &Overlay, pool: u32) -> Result<bool, HostFault>
    requires { SPACE_TABLE ≤ (H.counts h.old).size }
    ensures used { H.tells → (image : Image) → reads (H.state h.old).now.words ≡ image → IsOverlay overlay.now image
        → (F : ℕ) → IfOk result (λ used. used ≡ is_pool (tables_of F (settled_by DAEMON_LOG image)) pool) }
    ensures only_reads { OnlyReads H.tells H.state H.counts (fault_of result) h.old h.new }
{
    if pool == 0 || pool > POOL_RECORDS {
        return Ok(false);
    }
    let first = overlay.word(h, pool_record_at(pool - 1))?;
    Ok(first != 0)
}

/// Whether a puddle record of these words is free, or is legal if `next` is the next UUID number.
fn is_sound_puddle<H: Host>(
    h: &mut H,
    overlay: &Overlay,
    next: u64,
    words: &RecordWords,
) -> Result<bool, HostFault>
    requires { SPACE_TABLE ≤ (H.counts h.old).size }
    ensures sound { H.tells → (image : Image) → reads (H.state h.old).now.words ≡ image → IsOverlay overlay.now image
        → (F : ℕ) → IfOk result (λ sound. sound ≡ is_sound_puddle next (tables_of F (settled_by DAEMON_LOG image)) (puddle_by_words words.now)) }
    ensures only_reads { OnlyReads H.tells H.state H.counts (fault_of result) h.old h.new }
{
    if words[0] == 0 {
        return Ok(true);
    }
    if !is_pool(h, overlay, member_pool(words[0]))? {
        return Ok(false);
    }
    Ok(is_legal_puddle(next, words))
}

/// Whether the puddle record of a frame is free, or is legal if `next` is the next UUID number, on a device of `frames`
/// frames.
fn is_sound_frame<H: Host>(
    h: &mut H,
    overlay: &Overlay,
    next: u64,
    frames: u32,
    frame: u32,
) -> Result<bool, HostFault>
    requires few { frames ≤ MAX_FRAMES }
    requires known { frame < frames }
    requires room { device_words frames ≤ (H.counts h.old).size }
    ensures sound { H.tells → (image : Image) → reads (H.state h.old).now.words ≡ image → IsOverlay overlay.now image
        → IfOk result (λ sound. sound ≡ is_sound_puddle next (tables_of frames (settled_by DAEMON_LOG image)) ((tables_of frames (settled_by DAEMON_LOG image)).puddles frame)) }
    ensures only_reads { OnlyReads H.tells H.state H.counts (fault_of result) h.old h.new }
{
    let words = read_record(h, overlay, puddle_record_at(frame))?;
    is_sound_puddle(h, overlay, next, &words)
}

/// Whether each used puddle record is legal, if `next` is the next UUID number, on a device of `frames` frames.
pub fn has_legal_puddles<H: Host>(
    h: &mut H,
    overlay: &Overlay,
    next: u64,
    frames: u32,
) -> Result<bool, HostFault>
    requires few { frames ≤ MAX_FRAMES }
    requires room { device_words frames ≤ (H.counts h.old).size }
    ensures legal { H.tells → (image : Image) → reads (H.state h.old).now.words ≡ image → IsOverlay overlay.now image
        → IfOk result (λ legal. legal ≡ has_legal_puddles next (tables_of frames (settled_by DAEMON_LOG image))) }
    ensures only_reads { OnlyReads H.tells H.state H.counts (fault_of result) h.old h.new }
{
    for frame in 0..frames {
        if !is_sound_frame(h, overlay, next, frames, frame)? {
            return Ok(false);
        }
    }
    Ok(true)
}

/// Whether a puddle record of these words is free or that of a large puddle.
#[tactic(auto, unfolding(pud_defs::specs::RegistryTables::Puddles::puddle_by))]
fn is_large_member(words: &RecordWords) -> bool
    ensures { result ≡ is_large_member (puddle_by_words words.now) }
{
    if words[0] == 0 {
        return true;
    }
    class_part(words[PUDDLE_FRONTIER_WORD as usize]) == LARGE
}

/// Whether the puddle record of `frame` is free or that of a large puddle, on a device of `frames` frames.
fn is_large_frame<H: Host>(
    h: &mut H,
    overlay: &Overlay,
    frames: u32,
    frame: u32,
) -> Result<bool, HostFault>
    requires few { frames ≤ MAX_FRAMES }
    requires known { frame < frames }
    requires room { device_words frames ≤ (H.counts h.old).size }
    ensures large { H.tells → (image : Image) → reads (H.state h.old).now.words ≡ image → IsOverlay overlay.now image
        → IfOk result (λ large. large ≡ is_large_member ((tables_of frames (settled_by DAEMON_LOG image)).puddles frame)) }
    ensures only_reads { OnlyReads H.tells H.state H.counts (fault_of result) h.old h.new }
{
    let words = read_record(h, overlay, puddle_record_at(frame))?;
    Ok(is_large_member(&words))
}

/// Whether each puddle is large, on a device of `frames` frames.
pub fn are_all_large<H: Host>(h: &mut H, overlay: &Overlay, frames: u32) -> Result<bool, HostFault>
    requires few { frames ≤ MAX_FRAMES }
    requires room { device_words frames ≤ (H.counts h.old).size }
    ensures large { H.tells → (image : Image) → reads (H.state h.old).now.words ≡ image → IsOverlay overlay.now image
        → IfOk result (λ large. large ≡ are_all_large (tables_of frames (settled_by DAEMON_LOG image))) }
    ensures only_reads { OnlyReads H.tells H.state H.counts (fault_of result) h.old h.new }
{
    for frame in 0..frames {
        if !is_large_frame(h, overlay, frames, frame)? {
            return Ok(false);
        }
    }
    Ok(true)
}
