//! The frames of a pool, as an export file has them.

ghost use Rattle.std.specs.Prelude.{◌≡◌, ◌-◌, ◌<◌, ◌≤◌, ◌∷◌, ◌++◌, length, flat_map, replicate, IfOk, OnOk};
ghost use Rattle.std.specs.List.{range_with_len};
ghost use Rattle.pm_model.specs.Words.{reads};
ghost use Rattle.pm_model.specs.Counts.{fault_of};
ghost use Rattle.pm_model.specs.Reads.{OnlyReads};
ghost use Rattle.pud_defs.specs.PoolGraphs.Exported.{exported_header, exported_frame};
ghost use Rattle.pud_defs.specs.Formats.Image.{Image};
ghost use Rattle.pud_defs.specs.Formats.Layout.{device_words};
ghost use Rattle.pud_defs.specs.PoolGraphs.Stored.{IsOnDevice, stored_in};
ghost use Rattle.graph_read.specs.Bases.{HasLowBases};
ghost use Rattle.pud_export.specs.Exporting.{fault_in, slots_at, slots_to};

use crate::faults::ExportFault;
use crate::places::{slot_at, slots_at};
use crate::slots::read_slot;
use crate::words::WordBytes;
use graph_read::{address_of, read_pointer};
use pm_model::{Host, HostFault};
use pud_defs::layout::MAX_FRAMES;
use pud_defs::records::Puddle;
use pud_defs::space::{
    FRAME_HEADER_WORDS, FRAME_MAGIC, FRAME_MAGIC_WORD, FRAME_NUMBER_WORD, FRAME_ORDINAL_WORD,
    NEXT_SERIAL_WORD, ROOT_WORD, class_slot_words,
};
use puddle_header::{next_serial, root_value};

/// How many words of a frame come before its slots.
pub(crate) const HEADER: usize = FRAME_HEADER_WORDS as usize;

/// The words of a frame that come before its slots.
pub(crate) type HeaderWords = [u64; HEADER];

/// A header that begins with these words; its other words are 0.
fn header_of(number: u64, ordinal: u32, next: u64, root: u64) -> HeaderWords
    ensures { result ≡ FRAME_MAGIC ∷ number ∷ ordinal ∷ next ∷ root ∷ replicate (FRAME_HEADER_WORDS - 5) 0 }
{
    let mut words = [0; HEADER];
    words[FRAME_MAGIC_WORD as usize] = FRAME_MAGIC;
    words[FRAME_NUMBER_WORD as usize] = number;
    words[FRAME_ORDINAL_WORD as usize] = u64::from(ordinal);
    words[NEXT_SERIAL_WORD as usize] = next;
    words[ROOT_WORD as usize] = root;
    words
}

/// The header of the puddle of ordinal 0. It has the pool's next serial and its root pointer; each is read once.
fn read_first_header<H: Host>(
    h: &mut H,
    frames: u32,
    pool: &[(u32, Puddle)],
) -> Result<HeaderWords, HostFault>
    requires few { frames ≤ MAX_FRAMES }
    requires room { device_words frames ≤ (H.counts h.old).size }
    requires known { IsOnDevice frames pool.now }
    requires some { 0 < length pool.now }
    ensures words { H.tells → HasLowBases pool.now → (image : Image) → reads (H.state h.old).now.words ≡ image
        → IfOk result (λ words. words ≡ exported_header (stored_in frames pool.now image) 0) }
    ensures only_reads { OnlyReads H.tells H.state H.counts (fault_of result) h.old h.new }
{
    let (frame, puddle) = pool[0];
    let next = next_serial(h, frames, frame)?;
    let root = root_value(h, frames, frame)?;
    let root = address_of(pool, read_pointer(pool, 0, 0, root));
    Ok(header_of(puddle.number, 0, next, root))
}

/// The header of the puddle of an ordinal. Only the header of ordinal 0 is read from the device.
fn read_header<H: Host>(
    h: &mut H,
    frames: u32,
    pool: &[(u32, Puddle)],
    ordinal: u32,
) -> Result<HeaderWords, HostFault>
    requires few { frames ≤ MAX_FRAMES }
    requires room { device_words frames ≤ (H.counts h.old).size }
    requires known { IsOnDevice frames pool.now }
    requires within { ordinal < length pool.now }
    ensures words { H.tells → HasLowBases pool.now → (image : Image) → reads (H.state h.old).now.words ≡ image
        → IfOk result (λ words. words ≡ exported_header (stored_in frames pool.now image) ordinal) }
    ensures only_reads { OnlyReads H.tells H.state H.counts (fault_of result) h.old h.new }
{
    if ordinal == 0 {
        return read_first_header(h, frames, pool);
    }
    let (_, puddle) = pool[ordinal as usize];
    Ok(header_of(puddle.number, ordinal, 0, 0))
}

/// Adds the slots of the puddle of an ordinal, read by these types.
fn push_slots<H: Host>(
    h: &mut H,
    frames: u32,
    pool: &[(u32, Puddle)],
    types: &[(u64, u64)],
    ordinal: u32,
    words: &mut WordBytes,
) -> Result<(), ExportFault>
    requires few { frames ≤ MAX_FRAMES }
    requires room { device_words frames ≤ (H.counts h.old).size }
    requires known { IsOnDevice frames pool.now }
    requires within { ordinal < length pool.now }
    ensures words { H.tells → HasLowBases pool.now → (image : Image) → reads (H.state h.old).now.words ≡ image
        → let st = stored_in frames pool.now image in OnOk result (words.new ≡ words.old ++ slots_to types.now st ordinal (slots_at st.puddles ordinal)) }
    ensures only_reads { OnlyReads H.tells H.state H.counts (fault_in result) h.old h.new }
{
    for slot in 0..slots_at(pool, ordinal) {
        let at = slot_at(pool, ordinal, slot);
        let slot_words = read_slot(h, frames, pool, types, &at)?;
        words.push_all(&slot_words[..class_slot_words(at.class) as usize])?;
    }
    Ok(())
}

/// Adds the frame of the puddle of an ordinal, its slots read by these types.
fn push_frame<H: Host>(
    h: &mut H,
    frames: u32,
    pool: &[(u32, Puddle)],
    types: &[(u64, u64)],
    ordinal: u32,
    words: &mut WordBytes,
) -> Result<(), ExportFault>
    requires few { frames ≤ MAX_FRAMES }
    requires room { device_words frames ≤ (H.counts h.old).size }
    requires known { IsOnDevice frames pool.now }
    requires within { ordinal < length pool.now }
    ensures words { H.tells → HasLowBases pool.now → (image : Image) → reads (H.state h.old).now.words ≡ image
        → OnOk result (words.new ≡ words.old ++ exported_frame types.now (stored_in frames pool.now image) ordinal) }
    ensures only_reads { OnlyReads H.tells H.state H.counts (fault_in result) h.old h.new }
{
    let header = read_header(h, frames, pool, ordinal)?;
    words.push_all(&header)?;
    push_slots(h, frames, pool, types, ordinal, words)
}

/// Adds the frames of a pool in the order of their ordinals, their slots read by these types.
pub(crate) fn push_frames<H: Host>(
    h: &mut H,
    frames: u32,
    pool: &[(u32, Puddle)],
    types: &[(u64, u64)],
    words: &mut WordBytes,
) -> Result<(), ExportFault>
    requires few { frames ≤ MAX_FRAMES }
    requires room { device_words frames ≤ (H.counts h.old).size }
    requires known { IsOnDevice frames pool.now }
    ensures words { H.tells → HasLowBases pool.now → (image : Image) → reads (H.state h.old).now.words ≡ image
        → OnOk result (words.new ≡ words.old ++ flat_map (exported_frame types.now (stored_in frames pool.now image)) (range_with_len 0 (length pool.now))) }
    ensures only_reads { OnlyReads H.tells H.state H.counts (fault_in result) h.old h.new }
{
    for ordinal in 0..pool.len() as u32 {
        push_frame(h, frames, pool, types, ordinal, words)?;
    }
    Ok(())
}
