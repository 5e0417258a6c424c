//! Reads the frames of puddles: the words of a header, the words of a slot, the serial at a place of a pool, and
//! whether a header is that of its puddle.
//!
//! Each call that reads takes the number of the device's frames, at most 1,024, and a frame below it or a pool in such
//! frames. The device has the words that so many frames need. The calls work on every content of the device. They
//! change nothing, and their only errors are the host's own.
#![tactic(auto)]

ghost use Rattle.std.specs.Prelude.{◌≡◌, ◌+◌, ◌<◌, ◌≤◌, IfOk};
ghost use Rattle.pm_model.specs.Words.{Image, reads};
ghost use Rattle.pm_model.specs.Counts.{fault_of};
ghost use Rattle.pm_model.specs.Reads.{OnlyReads};
ghost use Rattle.pud_defs.specs.Formats.Layout.{device_words};
ghost use Rattle.pud_defs.specs.Formats.Geometry.{class_slots, class_slot_words};
ghost use Rattle.pud_defs.specs.Formats.Frames.{frame_word};
ghost use Rattle.pud_defs.specs.Formats.Headers.{slot_word, is_header, header_fits};

mod places;

pub use places::{serial_at, slot_at_place};
use pm_model::{HostFault, Loads};
use pud_defs::layout::{FRAME_WORDS, MAX_FRAMES, puddle_record_at};
use pud_defs::records::{PUDDLE_NUMBER_WORD, Slot, member_ordinal};
use pud_defs::space::{
    FRAME_MAGIC, FRAME_MAGIC_WORD, FRAME_NUMBER_WORD, FRAME_ORDINAL_WORD, NEXT_SERIAL_WORD,
    ROOT_WORD, SLOT_FIELDS_WORD, SLOT_SERIAL_WORD, SLOT_TYPE_WORD, class_slot_at, frame_at,
};

/// Loads word `k` of a frame.
fn frame_word<H: Loads>(h: &mut H, frames: u32, frame: u32, k: u32) -> Result<u64, HostFault>
    requires few { frames ≤ MAX_FRAMES }
    requires room { device_words frames ≤ (H.counts h.old).size }
    requires known { frame < frames }
    requires within { k < FRAME_WORDS }
    ensures word { H.tells → (image : Image) → reads (H.state h.old).now.words ≡ image → IfOk result (λ v. v ≡ frame_word frames frame k image) }
    ensures only_reads { OnlyReads H.tells H.state H.counts (fault_of result) h.old h.new }
{
    h.load_word(frame_at(frames, frame) + k)
}

/// Loads word `k` of a slot.
#[tactic(auto, using(pud_defs::proofs::Formats::Geometry::slot_end))]
fn slot_word<H: Loads>(h: &mut H, frames: u32, slot: &Slot, k: u32) -> Result<u64, HostFault>
    requires few { frames ≤ MAX_FRAMES }
    requires room { device_words frames ≤ (H.counts h.old).size }
    requires known { slot.now.frame < frames }
    requires slot { slot.now.slot < class_slots slot.now.class }
    requires within { k < class_slot_words slot.now.class }
    ensures word { H.tells → (image : Image) → reads (H.state h.old).now.words ≡ image → IfOk result (λ v. v ≡ slot_word frames slot.now.frame slot.now.class slot.now.slot k image) }
    ensures only_reads { OnlyReads H.tells H.state H.counts (fault_of result) h.old h.new }
{
    frame_word(
        h,
        frames,
        slot.frame,
        class_slot_at(slot.class, slot.slot) + k,
    )
}

/// Loads the word of a frame's header that is for the frame magic.
pub fn frame_magic<H: Loads>(h: &mut H, frames: u32, frame: u32) -> Result<u64, HostFault>
    requires few { frames ≤ MAX_FRAMES }
    requires room { device_words frames ≤ (H.counts h.old).size }
    requires known { frame < frames }
    ensures word { H.tells → (image : Image) → reads (H.state h.old).now.words ≡ image → IfOk result (λ v. v ≡ frame_word frames frame FRAME_MAGIC_WORD image) }
    ensures only_reads { OnlyReads H.tells H.state H.counts (fault_of result) h.old h.new }
{
    frame_word(h, frames, frame, FRAME_MAGIC_WORD)
}

/// Loads the UUID number from the header of a frame.
pub fn frame_number<H: Loads>(h: &mut H, frames: u32, frame: u32) -> Result<u64, HostFault>
    requires few { frames ≤ MAX_FRAMES }
    requires room { device_words frames ≤ (H.counts h.old).size }
    requires known { frame < frames }
    ensures word { H.tells → (image : Image) → reads (H.state h.old).now.words ≡ image → IfOk result (λ v. v ≡ frame_word frames frame FRAME_NUMBER_WORD image) }
    ensures only_reads { OnlyReads H.tells H.state H.counts (fault_of result) h.old h.new }
{
    frame_word(h, frames, frame, FRAME_NUMBER_WORD)
}

/// Loads the ordinal from the header of a frame.
pub fn frame_ordinal<H: Loads>(h: &mut H, frames: u32, frame: u32) -> Result<u64, HostFault>
    requires few { frames ≤ MAX_FRAMES }
    requires room { device_words frames ≤ (H.counts h.old).size }
    requires known { frame < frames }
    ensures word { H.tells → (image : Image) → reads (H.state h.old).now.words ≡ image → IfOk result (λ v. v ≡ frame_word frames frame FRAME_ORDINAL_WORD image) }
    ensures only_reads { OnlyReads H.tells H.state H.counts (fault_of result) h.old h.new }
{
    frame_word(h, frames, frame, FRAME_ORDINAL_WORD)
}

/// Loads the next serial from the header of a frame. Only that in the header of ordinal 0 counts.
pub fn next_serial<H: Loads>(h: &mut H, frames: u32, frame: u32) -> Result<u64, HostFault>
    requires few { frames ≤ MAX_FRAMES }
    requires room { device_words frames ≤ (H.counts h.old).size }
    requires known { frame < frames }
    ensures word { H.tells → (image : Image) → reads (H.state h.old).now.words ≡ image → IfOk result (λ v. v ≡ frame_word frames frame NEXT_SERIAL_WORD image) }
    ensures only_reads { OnlyReads H.tells H.state H.counts (fault_of result) h.old h.new }
{
    frame_word(h, frames, frame, NEXT_SERIAL_WORD)
}

/// Loads the root pointer from the header of a frame. Only that in the header of ordinal 0 counts.
pub fn root_value<H: Loads>(h: &mut H, frames: u32, frame: u32) -> Result<u64, HostFault>
    requires few { frames ≤ MAX_FRAMES }
    requires room { device_words frames ≤ (H.counts h.old).size }
    requires known { frame < frames }
    ensures word { H.tells → (image : Image) → reads (H.state h.old).now.words ≡ image → IfOk result (λ v. v ≡ frame_word frames frame ROOT_WORD image) }
    ensures only_reads { OnlyReads H.tells H.state H.counts (fault_of result) h.old h.new }
{
    frame_word(h, frames, frame, ROOT_WORD)
}

/// Loads the serial of the object in a slot, 0 if the slot is free.
#[tactic(auto, using(pud_defs::proofs::Formats::Geometry::some_words))]
pub fn slot_serial<H: Loads>(h: &mut H, frames: u32, slot: &Slot) -> Result<u64, HostFault>
    requires few { frames ≤ MAX_FRAMES }
    requires room { device_words frames ≤ (H.counts h.old).size }
    requires known { slot.now.frame < frames }
    requires slot { slot.now.slot < class_slots slot.now.class }
    ensures word { H.tells → (image : Image) → reads (H.state h.old).now.words ≡ image → IfOk result (λ v. v ≡ slot_word frames slot.now.frame slot.now.class slot.now.slot SLOT_SERIAL_WORD image) }
    ensures only_reads { OnlyReads H.tells H.state H.counts (fault_of result) h.old h.new }
{
    slot_word(h, frames, slot, SLOT_SERIAL_WORD)
}

/// Loads the type id of the object in a slot.
#[tactic(auto, using(pud_defs::proofs::Formats::Geometry::some_words))]
pub fn slot_type<H: Loads>(h: &mut H, frames: u32, slot: &Slot) -> Result<u64, HostFault>
    requires few { frames ≤ MAX_FRAMES }
    requires room { device_words frames ≤ (H.counts h.old).size }
    requires known { slot.now.frame < frames }
    requires slot { slot.now.slot < class_slots slot.now.class }
    ensures word { H.tells → (image : Image) → reads (H.state h.old).now.words ≡ image → IfOk result (λ v. v ≡ slot_word frames slot.now.frame slot.now.class slot.now.slot SLOT_TYPE_WORD image) }
    ensures only_reads { OnlyReads H.tells H.state H.counts (fault_of result) h.old h.new }
{
    slot_word(h, frames, slot, SLOT_TYPE_WORD)
}

/// Loads field `f` of the object in a slot. The slot has room for this field.
#[tactic(auto, using(pud_defs::proofs::Formats::Geometry::few_words))]
pub fn slot_field<H: Loads>(h: &mut H, frames: u32, slot: &Slot, f: u32) -> Result<u64, HostFault>
    requires few { frames ≤ MAX_FRAMES }
    requires room { device_words frames ≤ (H.counts h.old).size }
    requires known { slot.now.frame < frames }
    requires slot { slot.now.slot < class_slots slot.now.class }
    requires field { SLOT_FIELDS_WORD + f < class_slot_words slot.now.class }
    ensures word { H.tells → (image : Image) → reads (H.state h.old).now.words ≡ image → IfOk result (λ v. v ≡ slot_word frames slot.now.frame slot.now.class slot.now.slot (SLOT_FIELDS_WORD + f) image) }
    ensures only_reads { OnlyReads H.tells H.state H.counts (fault_of result) h.old h.new }
{
    slot_word(h, frames, slot, SLOT_FIELDS_WORD + f)
}

/// Whether a header of these words is that of the puddle with UUID number `given` and ordinal `place`.
fn is_header(given: u64, place: u32, magic: u64, number: u64, ordinal: u64) -> bool
    ensures { result ≡ is_header given place magic number ordinal }
{
    magic == FRAME_MAGIC && number == given && ordinal == u64::from(place)
}

/// Whether the frame has the header of the puddle with UUID number `given` and ordinal `place`: the frame magic and
/// both of these numbers.
pub fn has_header<H: Loads>(
    h: &mut H,
    frames: u32,
    frame: u32,
    given: u64,
    place: u32,
) -> Result<bool, HostFault>
    requires few { frames ≤ MAX_FRAMES }
    requires room { device_words frames ≤ (H.counts h.old).size }
    requires known { frame < frames }
    ensures fits { H.tells → (image : Image) → reads (H.state h.old).now.words ≡ image
        → IfOk result (λ fits. fits ≡ is_header given place (frame_word frames frame FRAME_MAGIC_WORD image) (frame_word frames frame FRAME_NUMBER_WORD image) (frame_word frames frame FRAME_ORDINAL_WORD image)) }
    ensures only_reads { OnlyReads H.tells H.state H.counts (fault_of result) h.old h.new }
{
    let magic = frame_magic(h, frames, frame)?;
    let number = frame_number(h, frames, frame)?;
    let ordinal = frame_ordinal(h, frames, frame)?;
    Ok(is_header(given, place, magic, number, ordinal))
}

/// Whether the frame has the header of the puddle that its record names. A frame whose record is free has no such
/// header.
pub fn header_fits<H: Loads>(h: &mut H, frames: u32, frame: u32) -> Result<bool, HostFault>
    requires few { frames ≤ MAX_FRAMES }
    requires room { device_words frames ≤ (H.counts h.old).size }
    requires known { frame < frames }
    ensures fits { H.tells → (image : Image) → reads (H.state h.old).now.words ≡ image → IfOk result (λ fits. fits ≡ header_fits frames frame image) }
    ensures only_reads { OnlyReads H.tells H.state H.counts (fault_of result) h.old h.new }
{
    let record = puddle_record_at(frame);
    let member = h.load_word(record)?;
    if member == 0 {
        return Ok(false);
    }
    let number = h.load_word(record + PUDDLE_NUMBER_WORD)?;
    has_header(h, frames, frame, number, member_ordinal(member))
}
