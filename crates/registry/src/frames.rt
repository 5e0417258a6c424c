//! The frames of new puddles.

ghost use Rattle.std.specs.Prelude.{◌≡◌, ◌<◌, ◌≤◌};
ghost use Rattle.pm_model.specs.Counts.{after_fault, fault_of};
ghost use Rattle.pm_model.specs.Changes.{Persists};
ghost use Rattle.pud_defs.specs.Formats.Layout.{device_words};
ghost use Rattle.pud_defs.specs.Formats.Frames.{first_serial, fresh_frame};
ghost use Rattle.registry.specs.Adding.{filling};

use crate::adding::NewPuddle;
use pm_model::{Host, HostFault};
use pm_persist::persist_range;
use pud_defs::layout::{FRAME_WORDS, MAX_FRAMES};
use pud_defs::space::{
    FRAME_MAGIC, FRAME_MAGIC_WORD, FRAME_NUMBER_WORD, FRAME_ORDINAL_WORD, NEXT_SERIAL_WORD,
    frame_at,
};

/// The next serial that the frame of a new puddle gets. The next serial of a pool stands in the frame of its first
/// puddle, of ordinal 0: it is 1 in a new pool. Each other frame gets 0.
fn first_serial(ordinal: u32) -> u64
    ensures { result ≡ first_serial ordinal }
{
    if ordinal == 0 { 1 } else { 0 }
}

/// The words of the frame of a new puddle.
#[tactic(auto, unfolding(pud_defs::specs::Formats::Frames::fresh_frame))]
fn fresh_frame(number: u64, ordinal: u32) -> [u64; FRAME_WORDS as usize]
    ensures { result ≡ fresh_frame number ordinal }
{
    let mut words = [0; FRAME_WORDS as usize];
    words[FRAME_MAGIC_WORD as usize] = FRAME_MAGIC;
    words[FRAME_NUMBER_WORD as usize] = number;
    words[FRAME_ORDINAL_WORD as usize] = u64::from(ordinal);
    words[NEXT_SERIAL_WORD as usize] = first_serial(ordinal);
    words
}

/// Writes the words of a new frame into the puddle's frame, and makes them durable.
///
/// A frame that no record names is free, whatever its words are. So the frame is filled before a batch names it. It
/// costs one fence.
pub(crate) fn fill_frame<H: Host>(h: &mut H, frames: u32, added: NewPuddle) -> Result<(), HostFault>
    requires few { frames ≤ MAX_FRAMES }
    requires known { added.frame < frames }
    requires room { device_words frames ≤ (H.counts h.old).size }
    ensures fills { H.tells → Persists (filling frames added) (fault_of result) (H.state h.old) (H.state h.new) }
    ensures cause { H.counts h.new ≡ after_fault (fault_of result) (H.counts h.old) }
{
    let words = fresh_frame(added.puddle.number, added.puddle.ordinal);
    persist_range(h, frame_at(frames, added.frame), &words)
}
