//! The global space of addresses, and the frames of the puddles that have its ranges.
//!
//! Each puddle has a range of 16,384 addresses of the space and a frame of 2,048 words on the device. Word k of the
//! frame has the eight addresses from `base + 8 * k` on.
//!
//! A puddle has a class. This file alone states how many slots a puddle of a class has, how many words each of them has,
//! and how many steps the puddle has.
//!
//! Places are counted over a pool's puddles by their ordinals. Each puddle has as many places as the puddle with the most
//! slots, whatever its class. So a place gives the ordinal and the slot. A place after the last slot of its puddle is no
//! slot.

ghost use Rattle.std.specs.Prelude.{◌≡◌, ◌+◌, ◌*◌, ◌%◌, ◌^◌, ◌<◌, ◌≤◌};
ghost use Rattle.pud_defs.specs.Formats.Bases.{is_legal_base, base_at};
ghost use Rattle.pud_defs.specs.Formats.Geometry.{class_slots, class_slot_words, class_slot_at, class_steps, class_for, new_units, slots_of, slot_words_of, steps_of, is_legal_class, is_legal_frontier, slot_at, slot_begins, ordinal_of, slot_of, place_at, places_among};
ghost use Rattle.pud_defs.specs.Formats.Frames.{frame_at};

use crate::layout::{ENTRY_HEADER_WORDS, FRAME_WORDS, MAX_FRAMES, SET_UNITS, frames_at};
use crate::records::{MAX_PUDDLES, Puddle, Slot};

/// The first address of the space, 2^44.
pub const SPACE_START: u64 = 0x1000_0000_0000;

/// How many addresses the space has, 2^40.
pub const SPACE_BYTES: u64 = 0x100_0000_0000;

/// How many addresses a puddle's range has. A range begins at a multiple of it.
pub const RANGE_BYTES: u64 = 16_384;

/// How many ranges the space has, 2^26: each begins at a legal base.
pub const RANGES: u32 = 0x400_0000;

/// How many addresses a word has.
pub const WORD_BYTES: u32 = 8;

/// The value of word 0 of a puddle's frame: the eight bytes `PUDDLE01`, lowest first.
pub const FRAME_MAGIC: u64 = 0x3130_454c_4444_5550;

/// The word of a frame that stores the frame magic.
pub const FRAME_MAGIC_WORD: u32 = 0;

/// The word of a frame that stores the puddle's UUID number.
pub const FRAME_NUMBER_WORD: u32 = 1;

/// The word of a frame that stores the puddle's ordinal.
pub const FRAME_ORDINAL_WORD: u32 = 2;

/// The word that stores the pool's next serial, in the frame of ordinal 0.
pub const NEXT_SERIAL_WORD: u32 = 3;

/// The word that stores the pool's root pointer, in the frame of ordinal 0.
pub const ROOT_WORD: u32 = 4;

/// How many words a frame has before its slots.
pub const FRAME_HEADER_WORDS: u32 = 64;

/// The class of a puddle with few slots, each of which has room for any object.
pub const LARGE: u32 = 0;

/// The class of a puddle with many slots, each of which has room for a small object.
pub const SMALL: u32 = 1;

/// The classes of the puddles that a device may have are the numbers below this one.
pub const CLASSES: u32 = 2;

/// The class of the puddle with which a pool is made.
pub const FIRST_CLASS: u32 = SMALL;

/// How many slots a large puddle has.
pub const LARGE_SLOTS: u32 = 62;

/// How many words a slot of a large puddle has.
pub const LARGE_SLOT_WORDS: u32 = 32;

/// How many slots a small puddle has.
pub const SMALL_SLOTS: u32 = 248;

/// How many words a slot of a small puddle has.
pub const SMALL_SLOT_WORDS: u32 = 8;

/// The most slots that a puddle has, and how many places it has.
pub const MAX_SLOTS: u32 = SMALL_SLOTS;

/// How many addresses a puddle's range has before those of its slots.
pub const HEADER_BYTES: u64 = (WORD_BYTES * FRAME_HEADER_WORDS) as u64;

/// The most words that a slot has.
pub const MAX_SLOT_WORDS: u32 = LARGE_SLOT_WORDS;

/// The most places that a pool has.
pub const MAX_PLACES: u32 = MAX_PUDDLES * MAX_SLOTS;

/// The word of a slot that stores the serial of its object. It is 0 if the slot is free.
pub const SLOT_SERIAL_WORD: u32 = 0;

/// The word of a slot that stores the type id of its object.
pub const SLOT_TYPE_WORD: u32 = 1;

/// The word of a slot that stores field 0 of its object. The other fields follow it.
pub const SLOT_FIELDS_WORD: u32 = 2;

/// The most fields that an object in a small puddle has, 6.
pub const MAX_SMALL_FIELDS: u32 = SMALL_SLOT_WORDS - SLOT_FIELDS_WORD;

/// The most rewriting steps that a pool has, and that one command may ask for, 3,984: in each of 16 puddles one for the
/// header, and one for each slot.
pub const MAX_STEPS: u32 = MAX_PUDDLES * (MAX_SLOTS + 1);

/// The first word of a frame, on a device with `frames` frames.
pub const fn frame_at(frames: u32, frame: u32) -> u32
    requires few_frames { frames ≤ MAX_FRAMES }
    requires known { frame < frames }
    ensures { result ≡ frame_at frames frame }
{
    frames_at(frames) + FRAME_WORDS * frame
}

/// How many slots a puddle of a class has. A number that is no class counts as the large one.
#[tactic(auto, unfolding(crate::specs::Formats::Geometry::class_slots))]
pub const fn class_slots(class: u32) -> u32
    ensures { result ≡ class_slots class }
{
    if class == SMALL {
        SMALL_SLOTS
    } else {
        LARGE_SLOTS
    }
}

/// How many words each slot of a puddle of a class has.
#[tactic(auto, unfolding(crate::specs::Formats::Geometry::class_slot_words))]
pub const fn class_slot_words(class: u32) -> u32
    ensures { result ≡ class_slot_words class }
{
    if class == SMALL {
        SMALL_SLOT_WORDS
    } else {
        LARGE_SLOT_WORDS
    }
}

/// How many steps a puddle of a class has: one for its header, and one for each of its slots.
#[tactic(auto, unfolding(crate::specs::Formats::Geometry::class_slots))]
pub const fn class_steps(class: u32) -> u32
    ensures { result ≡ class_steps class }
{
    if class == SMALL {
        SMALL_SLOTS + 1
    } else {
        LARGE_SLOTS + 1
    }
}

/// The word of its frame at which a slot of a puddle of a class begins.
#[tactic(auto, unfolding(crate::specs::Formats::Geometry::class_slots, crate::specs::Formats::Geometry::class_slot_words, crate::specs::Formats::Geometry::class_slot_at))]
pub const fn class_slot_at(class: u32, slot: u32) -> u32
    requires { slot < class_slots class }
    ensures { result ≡ class_slot_at class slot }
{
    if class == SMALL {
        FRAME_HEADER_WORDS + SMALL_SLOT_WORDS * slot
    } else {
        FRAME_HEADER_WORDS + LARGE_SLOT_WORDS * slot
    }
}

/// The class of the puddles in which objects with this many fields are made.
#[tactic(auto, unfolding(crate::specs::Formats::Geometry::class_for))]
pub const fn class_for(fields: u32) -> u32
    ensures { result ≡ class_for fields }
{
    if fields <= MAX_SMALL_FIELDS {
        SMALL
    } else {
        LARGE
    }
}

/// How many units of its log a transaction uses to make an object in a puddle of a class: the words of an entry with the
/// words of a slot, and those of an entry with the next serial.
#[tactic(auto, unfolding(crate::specs::Formats::Geometry::class_slot_words))]
pub const fn new_units(class: u32) -> u32
    ensures { result ≡ new_units class }
{
    if class == SMALL {
        ENTRY_HEADER_WORDS + SMALL_SLOT_WORDS + SET_UNITS
    } else {
        ENTRY_HEADER_WORDS + LARGE_SLOT_WORDS + SET_UNITS
    }
}

/// How many slots a puddle has.
pub const fn slots_of(puddle: &Puddle) -> u32
    ensures { result ≡ slots_of puddle.now }
{
    class_slots(puddle.class)
}

/// How many words each slot of a puddle has.
pub const fn slot_words_of(puddle: &Puddle) -> u32
    ensures { result ≡ slot_words_of puddle.now }
{
    class_slot_words(puddle.class)
}

/// How many addresses each slot of a puddle has.
pub const fn slot_bytes_of(puddle: &Puddle) -> u64
    ensures { result ≡ WORD_BYTES * slot_words_of puddle.now }
{
    WORD_BYTES as u64 * class_slot_words(puddle.class) as u64
}

/// How many steps a puddle has.
pub const fn steps_of(puddle: &Puddle) -> u32
    ensures { result ≡ steps_of puddle.now }
{
    class_steps(puddle.class)
}

/// Whether a device may have puddles of this puddle's class. No other class is sound.
pub fn is_legal_class(puddle: &Puddle) -> bool
    ensures { result ≡ is_legal_class puddle.now }
{
    puddle.class < CLASSES
}

/// Whether the frontier is at most the number of the puddle's steps. No other frontier is sound.
pub fn is_legal_frontier(puddle: &Puddle) -> bool
    ensures { result ≡ is_legal_frontier puddle.now }
{
    puddle.frontier <= steps_of(puddle)
}

/// The ordinal of the puddle that a place lies in.
pub const fn ordinal_of(place: u32) -> u32
    ensures { result ≡ ordinal_of place }
{
    place / MAX_SLOTS
}

/// The slot of its puddle at which a place lies, if the puddle has so many.
pub const fn slot_of(place: u32) -> u32
    ensures { result ≡ slot_of place }
{
    place % MAX_SLOTS
}

/// The place of a slot in the puddle of an ordinal.
pub const fn place_at(ordinal: u32, slot: u32) -> u64
    ensures { result ≡ place_at ordinal slot }
{
    MAX_SLOTS as u64 * ordinal as u64 + slot as u64
}

/// How many places a pool of `puddles` puddles has.
pub const fn places_among(puddles: u32) -> u32
    requires { puddles ≤ MAX_PUDDLES }
    ensures { result ≡ places_among puddles }
{
    MAX_SLOTS * puddles
}

/// The word of the puddle's frame at which a slot begins.
pub const fn slot_at(puddle: &Puddle, slot: u32) -> u32
    requires { slot < slots_of puddle.now }
    ensures { result ≡ slot_at puddle.now slot }
{
    class_slot_at(puddle.class, slot)
}

/// The word of its frame at which this slot begins.
pub const fn slot_begins(slot: &Slot) -> u32
    requires { slot.now.slot < class_slots slot.now.class }
    ensures { result ≡ slot_begins slot.now }
{
    class_slot_at(slot.class, slot.slot)
}

/// Whether the value is the first address of a range of the space.
pub fn is_legal_base(v: u64) -> bool
    ensures { result ≡ is_legal_base v }
{
    v >= SPACE_START && v < SPACE_START + SPACE_BYTES && v % RANGE_BYTES == 0
}

/// The first address of range `k` of the space. The ranges are numbered by ascending addresses.
pub fn base_at(k: u32) -> u64
    requires { k < RANGES }
    ensures { result ≡ base_at k }
{
    SPACE_START + RANGE_BYTES * u64::from(k)
}

/// The address of a word in the frame of the puddle with this base, if the base is legal. If it is not, the address may
/// wrap around.
pub fn word_address(base: u64, word: u32) -> u64
    requires { word < FRAME_WORDS }
    ensures { result ≡ (base + WORD_BYTES * word) % 2 ^ 64 }
{
    base.wrapping_add((WORD_BYTES * word) as u64)
}
