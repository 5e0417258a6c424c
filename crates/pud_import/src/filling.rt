//! The frames of a file's puddles, which are filled on the device before a batch names them.

ghost use Rattle.std.specs.Prelude.{◌≡◌, ◌<◌, ◌≤◌, ℕ, Option, All, length, slice_index};
ghost use Rattle.pm_model.specs.Changes.{Changes};
ghost use Rattle.pm_model.specs.Counts.{after_fault, fault_of};
ghost use Rattle.pud_defs.specs.declared.layout.TheConstants.{FRAME_WORDS};
ghost use Rattle.pud_defs.specs.declared.records.TheConstants.{MAX_PUDDLES};
ghost use Rattle.pud_defs.specs.Formats.Layout.{device_words};
ghost use Rattle.registry.specs.Adding.{IsAddedWithin};
ghost use Rattle.pud_import.specs.Contents.{puddle_count_read, stored_held};
ghost use Rattle.pud_import.specs.Filling.{filled_value, FillsFrame, ByFrames, AreFilled};
ghost use Rattle.pud_import.specs.Places.{FramesRise};

use crate::file_view::FileView;
use pm_model::{Host, HostFault};
use pm_persist::persist_range;
use pud_defs::layout::{FRAME_WORDS, MAX_FRAMES};
use pud_defs::records::MAX_PUDDLES;
use pud_defs::space::{FRAME_NUMBER_WORD, frame_at};
use registry::NewPuddle;

/// A word of the frame of a puddle: what the file has there, except that the UUID number is the puddle's own.
fn filled_word(view: &FileView<'_>, ordinal: u32, number: u64, w: u32) -> u64
    requires known { ordinal < puddle_count_read view.now }
    requires within { w < FRAME_WORDS }
    ensures { result ≡ filled_value (stored_held view.now) ordinal number w }
{
    if w == FRAME_NUMBER_WORD {
        number
    } else {
        view.frame_word(ordinal, w)
    }
}

/// The words of the frame of a puddle.
fn filled_words(view: &FileView<'_>, ordinal: u32, number: u64) -> [u64; FRAME_WORDS as usize]
    requires { ordinal < puddle_count_read view.now }
    ensures { (k : ℕ) → k < FRAME_WORDS → slice_index result k ≡ filled_value (stored_held view.now) ordinal number k }
{
    let mut words = [0; FRAME_WORDS as usize];
    for w in 0..FRAME_WORDS {
        words[w as usize] = filled_word(view, ordinal, number, w);
    }
    words
}

/// Writes into the puddle's frame the words that the file has for an ordinal, with the puddle's own UUID number, and
/// makes them durable. It costs one fence.
fn fill_frame<H: Host>(
    h: &mut H,
    frames: u32,
    view: &FileView<'_>,
    ordinal: u32,
    added: NewPuddle,
) -> Result<(), HostFault>
    requires few { frames ≤ MAX_FRAMES }
    requires room { device_words frames ≤ (H.counts h.old).size }
    requires frame { added.frame < frames }
    requires known { ordinal < puddle_count_read view.now }
    ensures fills { H.tells → FillsFrame frames added.frame (filled_value (stored_held view.now) ordinal added.puddle.number) (fault_of result) (H.state h.old) (H.state h.new) }
    ensures cause { H.counts h.new ≡ after_fault (fault_of result) (H.counts h.old) }
{
    let words = filled_words(view, ordinal, added.puddle.number);
    persist_range(h, frame_at(frames, added.frame), &words)
}

/// Fills the frames of the puddles, in the order of their ordinals. It costs one fence for each frame.
///
/// A frame that no record names is free, whatever its words are. So the frames are filled before a batch names them.
pub(crate) fn fill_frames<H: Host>(
    h: &mut H,
    frames: u32,
    view: &FileView<'_>,
    puddles: &[NewPuddle],
) -> Result<(), HostFault>
    requires few { frames ≤ MAX_FRAMES }
    requires room { device_words frames ≤ (H.counts h.old).size }
    requires count { length puddles.now ≤ puddle_count_read view.now }
    requires few_puddles { length puddles.now ≤ MAX_PUDDLES }
    requires within { All (IsAddedWithin frames) puddles.now }
    ensures changes { H.tells → Changes (ByFrames frames puddles.now) (fault_of result) (H.state h.old) (H.state h.new) }
    ensures filled { H.tells → FramesRise puddles.now → fault_of result ≡ Option.None → AreFilled frames (stored_held view.now) puddles.now (H.state h.new).now.words }
    ensures cause { H.counts h.new ≡ after_fault (fault_of result) (H.counts h.old) }
{
    for ordinal in 0..puddles.len() {
        let added = puddles[ordinal];
        fill_frame(h, frames, view, ordinal as u32, added)?;
    }
    Ok(())
}
