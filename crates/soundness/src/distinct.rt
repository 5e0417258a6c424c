//! Whether, once the daemon log is replayed, no two puddles of a device have the same base, no two of one pool have the
//! same old base or ordinal, and the ordinals of each pool count up from 0.
ghost use Rattle.std.specs.Prelude.{◌≡◌, ◌↔◌, ◌+◌, ◌*◌, ◌<◌, ◌≤◌, nat_eq, ℕ, true, not, ◌&&◌, ◌||◌, length, drop, option_map, IfSome, IfOk};
ghost use Rattle.std.specs.List.{IsDistinct};
ghost use Rattle.pm_model.specs.Words.{reads};
ghost use Rattle.pm_model.specs.Counts.{fault_of};
ghost use Rattle.pm_model.specs.Reads.{OnlyReads};
ghost use Rattle.pud_defs.specs.Formats.Image.{Image};
ghost use Rattle.pud_defs.specs.Formats.Layout.{device_words};
ghost use Rattle.pud_defs.specs.RegistryTables.Spaces.{all_below};
ghost use Rattle.pud_defs.specs.RegistryTables.SoundTables.{has_legal_puddles};
ghost use Rattle.soundness.specs.Overlaying.{IsOverlay, tables_replayed};
ghost use Rattle.soundness.specs.Distinct.{joined_key, key_word, key_by, key_of, mark_index, with_number, has_distinct_numbers, MarksMore, AreMarked, counts_up, is_marked_at, is_counted_by, has_counted_ordinals, are_distinct_puddles};

use crate::overlay::Overlay;
use pm_model::{Host, HostFault};
use pud_defs::layout::{
    DAEMON_LOG, MAX_FRAMES, PUDDLE_TABLE, device_words, pool_record_at, puddle_record_at,
};
use pud_defs::records::{
    MAX_PUDDLES, POOL_RECORDS, PUDDLE_BASE_WORD, PUDDLE_OLD_BASE_WORD, member_ordinal, member_pool,
};

/// How many pools are told apart, at least, if one key is made of a pool and another number.
const POOL_NUMBERS: u64 = 64;

/// The number of old bases, from 0 on: 2^45.
const OLD_BASES: u64 = 0x2000_0000_0000;

/// The number of ordinals, from 0 on.
const ORDINALS: u64 = MAX_PUDDLES as u64;

/// The number of places, one for each ordinal of each pool.
const PLACES: usize = (POOL_NUMBERS * ORDINALS) as usize;

/// One key that is made of a pool and of another number.
fn joined(n: u64, pool: u32, low: u64) -> u64
    requires some { 0 < n }
    requires fits { n ≤ OLD_BASES }
    ensures number { result ≡ joined_key n pool low }
    ensures below { result < POOL_NUMBERS * n }
{
    u64::from(pool) % POOL_NUMBERS * n + low % n
}

/// What puddles are told apart by.
#[derive(Clone, Copy)]
enum Key {
    /// The base of a puddle.
    Base,
    /// The pool and the old base.
    OldBase,
}

impl Key {
    /// The word of a puddle record that has the base or the old base.
    fn word(self) -> u32
        ensures { result ≡ key_word self }
    {
        match self {
            Key::Base => PUDDLE_BASE_WORD,
            Key::OldBase => PUDDLE_OLD_BASE_WORD,
        }
    }

    /// The key of the puddle of this pool with this base or old base.
    fn number(self, pool: u32, base: u64) -> u64
        ensures { result ≡ key_by self pool base }
    {
        match self {
            Key::Base => base,
            Key::OldBase => joined(OLD_BASES, pool, base),
        }
    }
}

/// The key of the puddle of a frame, or None if its record is free.
fn number_at<H: Host>(
    h: &mut H,
    overlay: &Overlay,
    frame: u32,
    key: Key,
) -> Result<Option<u64>, HostFault>
    requires few { frame < MAX_FRAMES }
    requires room { device_words (frame + 1) ≤ (H.counts h.old).size }
    ensures number { H.tells → (image : Image) → reads (H.state h.old).now.words ≡ image → IsOverlay overlay.now image → (frames : ℕ) → frame < frames
        → IfOk result (λ number. number ≡ option_map (key_of key) ((tables_replayed frames image).puddles frame)) }
    ensures only_reads { OnlyReads H.tells H.state H.counts (fault_of result) h.old h.new }
{
    let at = puddle_record_at(frame);
    let member = overlay.word(h, at)?;
    if member == 0 {
        return Ok(None);
    }
    let base = overlay.word(h, at + key.word())?;
    Ok(Some(key.number(member_pool(member), base)))
}

/// Puts a number, if there is one, before those from place `left` on. The result is the place from which on they stand
/// then.
fn put(numbers: &mut [u64], left: usize, number: Option<u64>) -> usize
    requires some { 0 < left }
    requires within { left ≤ length numbers.old }
    ensures numbers { drop result numbers.new ≡ with_number number (drop left numbers.old) }
    ensures one { left ≤ result + 1 }
    ensures further { result ≤ left }
{
    let Some(number) = number else {
        return left;
    };
    numbers[left - 1] = number;
    left - 1
}

/// Whether no two numbers are the same. They are sorted in place, and nothing is allocated.
fn are_distinct(numbers: &mut [u64]) -> bool
    ensures { (result ≡ true) ↔ IsDistinct nat_eq numbers.old }
{
    numbers.sort_unstable();
    for k in 1..numbers.len() {
        if numbers[k - 1] >= numbers[k] {
            return false;
        }
    }
    true
}

/// Whether no two used records have the same key. The table is read from its last record to its first.
fn has_distinct_numbers<H: Host>(
    h: &mut H,
    overlay: &Overlay,
    frames: u32,
    key: Key,
) -> Result<bool, HostFault>
    requires few { frames ≤ MAX_FRAMES }
    requires room { device_words frames ≤ (H.counts h.old).size }
    ensures distinct { H.tells → (image : Image) → reads (H.state h.old).now.words ≡ image → IsOverlay overlay.now image
        → IfOk result (λ distinct. distinct ≡ has_distinct_numbers (key_of key) (tables_replayed frames image)) }
    ensures only_reads { OnlyReads H.tells H.state H.counts (fault_of result) h.old h.new }
{
    let mut numbers = [0u64; MAX_FRAMES as usize];
    let mut left = MAX_FRAMES as usize;
    for done in 0..frames {
        let number = number_at(h, overlay, frames - 1 - done, key)?;
        left = put(&mut numbers, left, number);
    }
    Ok(are_distinct(&mut numbers[left..]))
}

/// The place of the mark of a frame's puddle, by its pool and ordinal, or None if its record is free.
fn place_at<H: Host>(h: &mut H, overlay: &Overlay, frame: u32) -> Result<Option<usize>, HostFault>
    requires few { frame < MAX_FRAMES }
    requires room { device_words (frame + 1) ≤ (H.counts h.old).size }
    ensures place { H.tells → (image : Image) → reads (H.state h.old).now.words ≡ image → IsOverlay overlay.now image → (frames : ℕ) → frame < frames
        → IfOk result (λ place. place ≡ option_map mark_index ((tables_replayed frames image).puddles frame)) }
    ensures within { IfOk result (λ place. IfSome place (λ n. n < PLACES)) }
    ensures only_reads { OnlyReads H.tells H.state H.counts (fault_of result) h.old h.new }
{
    let member = overlay.word(h, puddle_record_at(frame))?;
    if member == 0 {
        return Ok(None);
    }
    let place = joined(
        ORDINALS,
        member_pool(member),
        u64::from(member_ordinal(member)),
    );
    Ok(Some(place as usize))
}

/// Marks a place, if there is one. The result is whether it was not marked before.
fn mark(marks: &mut [bool], place: Option<usize>) -> bool
    requires { IfSome place (λ n. n < length marks.old) }
    ensures { MarksMore marks.old place result marks.new }
{
    let Some(place) = place else {
        return true;
    };
    if marks[place] {
        return false;
    }
    marks[place] = true;
    true
}

/// The marks of the places that puddles have, or None if two puddles have the same place. The table is read from its
/// last record to its first.
fn marked_places<H: Host>(
    h: &mut H,
    overlay: &Overlay,
    frames: u32,
) -> Result<Option<[bool; PLACES]>, HostFault>
    requires few { frames ≤ MAX_FRAMES }
    requires room { device_words frames ≤ (H.counts h.old).size }
    ensures marks { H.tells → (image : Image) → reads (H.state h.old).now.words ≡ image → IsOverlay overlay.now image
        → IfOk result (λ marks. AreMarked (tables_replayed frames image) marks) }
    ensures only_reads { OnlyReads H.tells H.state H.counts (fault_of result) h.old h.new }
{
    let mut marks = [false; PLACES];
    for done in 0..frames {
        let place = place_at(h, overlay, frames - 1 - done)?;
        if !mark(&mut marks, place) {
            return Ok(None);
        }
    }
    Ok(Some(marks))
}

/// Whether a mark is not set, or the one before it is set.
fn follows(before: bool, mark: bool) -> bool
    ensures { result ≡ (before || not mark) }
{
    before || !mark
}

/// Whether, by their marks, a pool has a puddle of ordinal 0, and for each other puddle of it also one of the ordinal
/// before.
fn counts_up(marks: &[bool], slot: u32) -> bool
    requires known { slot < POOL_RECORDS }
    requires all { PLACES ≤ length marks.now }
    ensures { result ≡ counts_up (is_marked_at marks.now slot) }
{
    let first = (slot as usize + 1) * MAX_PUDDLES as usize;
    for k in 0..MAX_PUDDLES as usize - 1 {
        if !follows(marks[first + k], marks[first + k + 1]) {
            return false;
        }
    }
    marks[first]
}

/// Whether a slot is free, or the ordinals of its pool count up from 0, by their marks.
fn is_counted<H: Host>(
    h: &mut H,
    overlay: &Overlay,
    slot: u32,
    marks: &[bool],
) -> Result<bool, HostFault>
    requires known { slot < POOL_RECORDS }
    requires within { PUDDLE_TABLE ≤ (H.counts h.old).size }
    requires all { PLACES ≤ length marks.now }
    ensures counted { H.tells → (image : Image) → reads (H.state h.old).now.words ≡ image → IsOverlay overlay.now image → (frames : ℕ)
        → IfOk result (λ counted. counted ≡ is_counted_by marks.now (tables_replayed frames image) slot) }
    ensures only_reads { OnlyReads H.tells H.state H.counts (fault_of result) h.old h.new }
{
    if overlay.word(h, pool_record_at(slot))? == 0 {
        return Ok(true);
    }
    Ok(counts_up(marks, slot))
}

/// Whether this is true of each slot.
fn are_counted<H: Host>(h: &mut H, overlay: &Overlay, marks: &[bool]) -> Result<bool, HostFault>
    requires within { PUDDLE_TABLE ≤ (H.counts h.old).size }
    requires all { PLACES ≤ length marks.now }
    ensures counted { H.tells → (image : Image) → reads (H.state h.old).now.words ≡ image → IsOverlay overlay.now image → (frames : ℕ)
        → IfOk result (λ counted. counted ≡ all_below POOL_RECORDS (is_counted_by marks.now (tables_replayed frames image))) }
    ensures only_reads { OnlyReads H.tells H.state H.counts (fault_of result) h.old h.new }
{
    for slot in 0..POOL_RECORDS {
        if !is_counted(h, overlay, slot, marks)? {
            return Ok(false);
        }
    }
    Ok(true)
}

/// Whether the ordinals of each pool are distinct and count up from 0, if each puddle record is legal.
fn has_counted_ordinals<H: Host>(
    h: &mut H,
    overlay: &Overlay,
    frames: u32,
) -> Result<bool, HostFault>
    requires few { frames ≤ MAX_FRAMES }
    requires room { device_words frames ≤ (H.counts h.old).size }
    ensures counted { H.tells → (image : Image) → reads (H.state h.old).now.words ≡ image → IsOverlay overlay.now image
        → (next : ℕ) → has_legal_puddles next (tables_replayed frames image) ≡ true
        → IfOk result (λ counted. counted ≡ has_counted_ordinals (tables_replayed frames image)) }
    ensures only_reads { OnlyReads H.tells H.state H.counts (fault_of result) h.old h.new }
{
    let Some(marks) = marked_places(h, overlay, frames)? else {
        return Ok(false);
    };
    are_counted(h, overlay, &marks)
}

fn are_all(bases: bool, old_bases: bool, ordinals: bool) -> bool
    ensures { result ≡ (bases && old_bases && ordinals) }
{
    bases && old_bases && ordinals
}

/// Whether no two puddles have the same base, no two of one pool have the same old base or ordinal, and the ordinals of
/// each pool count up from 0, if each puddle record is legal.
pub(crate) fn are_distinct_puddles<H: Host>(
    h: &mut H,
    overlay: &Overlay,
    frames: u32,
) -> Result<bool, HostFault>
    requires few { frames ≤ MAX_FRAMES }
    requires room { device_words frames ≤ (H.counts h.old).size }
    ensures distinct { H.tells → (image : Image) → reads (H.state h.old).now.words ≡ image → IsOverlay overlay.now image
        → (next : ℕ) → has_legal_puddles next (tables_replayed frames image) ≡ true
        → IfOk result (λ distinct. distinct ≡ are_distinct_puddles (tables_replayed frames image)) }
    ensures only_reads { OnlyReads H.tells H.state H.counts (fault_of result) h.old h.new }
{
    let bases = has_distinct_numbers(h, overlay, frames, Key::Base)?;
    let old_bases = has_distinct_numbers(h, overlay, frames, Key::OldBase)?;
    let ordinals = has_counted_ordinals(h, overlay, frames)?;
    Ok(are_all(bases, old_bases, ordinals))
}
