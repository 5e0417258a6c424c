//! Devices whose pools and objects are poked in.
use crate::lines::{Class, First};
use pm_mem::{MemHost, Plan};
use std::alloc::Global;
use std::process::Abort;
use test_device::{blank_of, poke};

/// The magic of a frame.
const FRAME_MAGIC: u64 = 0x3130_454c_4444_5550;

/// The first base, and the distance from one base to the next, in bytes.
const FIRST_BASE: u64 = 0x1000_0000_0000;

const BASE_STEP: u64 = 0x4000;

/// How many words a slot of a puddle of a class has.
fn slot_words(class: Class) -> u32 {
    match class {
        Class::Large => 32,
        Class::Small => 8,
    }
}

/// The frontier and the class of a puddle of a class that is finished, as a puddle record has them in one word.
fn finished(class: Class) -> u64 {
    match class {
        Class::Large => 63,
        Class::Small => 0x1_0000_0000 + 249,
    }
}

/// The name of a pool, a letter.
fn name_of(pool: u8) -> u8 {
    b'a' + pool % 26
}

/// Gives each of these words its value.
fn poke_all(rt: &impl Abort, host: &mut MemHost, words: &[(u32, u64)]) {
    assert!(rt; poke(host, words), "a word of the device");
}

/// Makes the objects of a pool in the first slots of its frame. Each is of type 1 and has the number 10.
fn poke_objects(rt: &impl Abort, host: &mut MemHost, frame: u32, (_, objects, class): First) {
    let mut at = frame.saturating_add(64);
    for slot in 0..objects {
        let words = [
            (at, u64::from(slot) + 1),
            (at.saturating_add(1), 1),
            (at.saturating_add(2), 10),
        ];
        poke_all(rt, host, &words);
        at = at.saturating_add(slot_words(class));
    }
}

/// Makes a pool, in the slot and in the frame of the pool's number.
fn poke_pool(rt: &impl Abort, host: &mut MemHost, frames: u8, pool: u8, first: First) {
    let record = 1_216 + 8 * u32::from(pool);
    let puddle = 1_536 + 8 * u32::from(pool);
    let frame = 34_304 + 8 * u32::from(frames) + 2_048 * u32::from(pool);
    let base = FIRST_BASE + BASE_STEP * u64::from(pool);
    let number = 2 * u64::from(pool) + 1;
    let (owner, objects, class) = first;
    let words = [
        (record, u64::from(name_of(pool))),
        (record + 2, u64::from(owner) * 0x1_0000_0001),
        (record + 3, 0o600),
        (record + 4, number),
        (puddle, u64::from(pool) + 1),
        (puddle + 1, number + 1),
        (puddle + 2, base),
        (puddle + 3, base),
        (puddle + 4, finished(class)),
        (frame, FRAME_MAGIC),
        (frame + 1, number + 1),
        (frame + 3, u64::from(objects) + 1),
    ];
    poke_all(rt, host, &words);
    poke_objects(rt, host, frame, first);
}

/// A device with pools in the first of its frames.
#[derive(Clone, Copy)]
pub struct Pools<'a> {
    pub frames: u8,
    /// The pools. Each object is of type 1, a number and a pointer: the number is 10 and the pointer is null.
    pub pools: &'a [First],
    /// How many device steps and printed bytes there is room for.
    pub room: (u32, u32),
}

/// The device, with this script and this plan.
pub fn device_with(
    rt: &impl Abort,
    alloc: Global,
    device: Pools,
    script: &str,
    plan: Plan,
) -> MemHost {
    let frames = device.frames;
    let host = blank_of(
        alloc,
        u32::from(frames),
        device.room,
        script.as_bytes(),
        plan,
    );
    let mut host = host.expect(rt, "memory");
    let mut pool = 0u8;
    for first in device.pools {
        poke_pool(rt, &mut host, frames, pool, *first);
        pool = pool.saturating_add(1);
    }
    let words = [
        (4, u64::from(pool).saturating_mul(2).saturating_add(1)),
        (1_088, 1),
        (1_089, 8_589_934_594),
    ];
    poke_all(rt, &mut host, &words);
    host
}
