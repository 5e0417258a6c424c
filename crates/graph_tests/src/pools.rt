//! Pools that the tests poke into a device, the queries about them, and the answers.
ghost use Rattle.std.specs.Prelude.{IsTrue};
ghost use Rattle.pud_defs.specs.PoolGraphs.Stored.{IsOnDevice};

use graph_read::{FieldRead, Index, is_referenced, pool_is_sound, read_field};
use pm_mem::{MemHost, Plan};
use pm_model::{Host, HostFault};
use pud_defs::layout::{MAX_FIELDS, MAX_FRAMES, MIN_FRAMES, device_words};
use pud_defs::objects::FieldValue;
use pud_defs::records::{MAX_PUDDLES, Puddle};
use std::alloc::Global;
use std::process::Abort;
use test_device::{blank_device, poke};

/// The number of a word and its value.
pub type Row = (u32, u64);

/// The frame and the record of a puddle.
pub type Placed = (u32, Puddle);

/// The first base of the space.
pub const START: u64 = 0x1000_0000_0000;

/// How many bytes the next base is from a base.
pub const RANGE: u64 = 16_384;

/// How many bytes slot 0 is from the base.
pub const SLOT_0: u64 = 512;

/// How many bytes each later slot of a large puddle is from the one before.
pub const SLOT_BYTES: u64 = 256;

/// How many bytes each later slot of a small puddle is from the one before.
pub const SMALL_SLOT_BYTES: u64 = 64;

const MAGIC: u64 = 0x3130_454c_4444_5550;

/// The number of the first word of frame 1 of the smallest device.
pub const FRAME_1: u32 = 36_384;

/// The number of the first word of frame 2 of the smallest device.
pub const FRAME_2: u32 = 38_432;

/// The map word of a type with two fields, of which the second is a pointer.
const TWO_FIELDS: u64 = 0x2_0000_0002;

/// Type 1, and the frame headers of a pool with two puddles: the first in frame 1, the second in frame 2.
const WORDS: [Row; 8] = [
    (1_088, 1),
    (1_089, TWO_FIELDS),
    (FRAME_1, MAGIC),
    (FRAME_1 + 1, 7),
    (FRAME_1 + 2, 0),
    (FRAME_2, MAGIC),
    (FRAME_2 + 1, 8),
    (FRAME_2 + 2, 1),
];

/// A query about a pool.
#[derive(Clone, Copy)]
pub enum Asked {
    /// Whether the pool is a graph.
    Sound,
    /// Whether the object of this serial is referenced.
    Held(u64),
    /// The value of this field of the object of this serial.
    Field(u64, u32),
}

/// The answer to a query.
#[derive(Clone, Copy, PartialEq, Eq)]
pub enum Answer {
    Yes,
    No,
    Number(u64),
    Pointer(u64),
    NoObject,
    NoField,
    Fault,
}

fn judged(outcome: Result<bool, HostFault>) -> Answer {
    match outcome {
        Ok(true) => Answer::Yes,
        Ok(false) => Answer::No,
        Err(_) => Answer::Fault,
    }
}

fn field(outcome: Result<FieldRead, HostFault>) -> Answer {
    match outcome {
        Ok(FieldRead::Value(FieldValue::Num(v))) => Answer::Number(v),
        Ok(FieldRead::Value(FieldValue::Ref(serial))) => Answer::Pointer(serial),
        Ok(FieldRead::NoObject) => Answer::NoObject,
        Ok(FieldRead::NoField) => Answer::NoField,
        Err(_) => Answer::Fault,
    }
}

/// Whether the pool has no more puddles than a pool may have, each in a frame below `frames`.
fn is_on_device(frames: u32, pool: &[Placed]) -> bool
    ensures { IsTrue result → IsOnDevice frames pool.now }
{
    pool.len() <= MAX_PUDDLES as usize && pool.iter().all(|(frame, _)| *frame < frames)
}

/// The answer to a query about a pool, on a device of `frames` frames.
fn ask<H: Host>(
    rt: &impl Abort,
    host: &mut H,
    frames: u32,
    pool: &[Placed],
    asked: Asked,
) -> Answer {
    assert!(rt; frames <= MAX_FRAMES);
    assert!(rt; device_words(frames) <= host.words());
    assert!(rt; is_on_device(frames, pool));
    match asked {
        Asked::Sound => judged(pool_is_sound(host, frames, pool)),
        Asked::Held(serial) => judged(is_referenced(host, frames, pool, serial)),
        Asked::Field(serial, f) => {
            assert!(rt; f < MAX_FIELDS);
            field(read_field(host, frames, pool, serial, f))
        }
    }
}

/// Makes the smallest device, and pokes first `WORDS` and then `words` into it.
fn poked(rt: &impl Abort, alloc: Global, words: &[Row]) -> MemHost {
    let mut host = blank_device(alloc, b"", Plan::none(alloc)).expect(rt, "memory");
    assert!(rt; poke(&mut host, &WORDS) && poke(&mut host, words));
    host
}

/// The answer to a query about a pool on the smallest device, into which `WORDS` and then `words` are poked.
pub fn asked_of(
    rt: &impl Abort,
    alloc: Global,
    pool: &[Placed],
    words: &[Row],
    asked: Asked,
) -> Answer {
    let mut host = poked(rt, alloc, words);
    ask(rt, &mut host, MIN_FRAMES, pool, asked)
}

/// The index of a pool on such a device.
pub fn index_of(rt: &impl Abort, alloc: Global, pool: &[Placed], words: &[Row]) -> Index {
    let mut host = poked(rt, alloc, words);
    assert!(rt; device_words(MIN_FRAMES) <= host.words());
    assert!(rt; is_on_device(MIN_FRAMES, pool));
    let built = Index::build(alloc, &mut host, MIN_FRAMES, pool).expect(rt, "no fault");
    built.expect(rt, "memory")
}
