//! Tests on pools that moved. A pointer at a step below its puddle's frontier counts from the bases, and one at a later
//! step counts from the old bases.
use crate::pools::{
    Answer, Asked, FRAME_1, FRAME_2, Placed, RANGE, Row, SLOT_0, SLOT_BYTES, SMALL_SLOT_BYTES,
    START, asked_of,
};
use graph_read::read_pointer;
use pud_defs::objects::Pointee;
use pud_defs::records::Puddle;
use pud_defs::space::{LARGE, SMALL, place_at};
use std::process::Abort;

/// The address of the first slot over the first puddle's old base, which is no other base of the two puddles.
const OLD: u64 = START + SLOT_0;

/// The address of the first slot over the first puddle's base, which is also the second puddle's old base.
const BOTH: u64 = START + RANGE + SLOT_0;

/// The address of the first slot over the second puddle's base, which is no other base of the two puddles.
pub const NEW: u64 = START + 2 * RANGE + SLOT_0;

/// Two large puddles that moved up by one range, with these frontiers.
pub fn moved(first: u32, second: u32) -> [Placed; 2] {
    [
        (
            1,
            Puddle {
                number: 7,
                base: START + RANGE,
                old_base: START,
                frontier: first,
                class: LARGE,
            },
        ),
        (
            2,
            Puddle {
                number: 8,
                base: START + 2 * RANGE,
                old_base: START + RANGE,
                frontier: second,
                class: LARGE,
            },
        ),
    ]
}

/// The words of objects 1 and 2 in the first two slots of the first puddle, and of object 3 in the first slot of the
/// second. Each pointer of these objects and the root have the value `pointer`.
pub fn words(pointer: u64) -> [Row; 14] {
    [
        (FRAME_1 + 3, 4),
        (FRAME_1 + 4, pointer),
        (FRAME_1 + 64, 1),
        (FRAME_1 + 65, 1),
        (FRAME_1 + 66, 10),
        (FRAME_1 + 67, pointer),
        (FRAME_1 + 96, 2),
        (FRAME_1 + 97, 1),
        (FRAME_1 + 98, 20),
        (FRAME_1 + 99, pointer),
        (FRAME_2 + 64, 3),
        (FRAME_2 + 65, 1),
        (FRAME_2 + 66, 30),
        (FRAME_2 + 67, pointer),
    ]
}

#[test]
fn the_frontier_decides(rt: HostRuntime) {
    let alloc = rt.alloc();
    let rows = [
        (BOTH, 0, 0, Asked::Field(1, 1), Answer::Pointer(3)),
        (BOTH, 1, 0, Asked::Field(1, 1), Answer::Pointer(3)),
        (BOTH, 2, 0, Asked::Field(1, 1), Answer::Pointer(1)),
        (BOTH, 2, 0, Asked::Field(2, 1), Answer::Pointer(3)),
        (BOTH, 3, 0, Asked::Field(2, 1), Answer::Pointer(1)),
        (BOTH, 63, 1, Asked::Field(3, 1), Answer::Pointer(3)),
        (BOTH, 0, 2, Asked::Field(3, 1), Answer::Pointer(1)),
        // The root is in the header, which is the first step.
        (BOTH, 0, 0, Asked::Held(1), Answer::No),
        (BOTH, 1, 0, Asked::Held(1), Answer::Yes),
        (BOTH, 63, 63, Asked::Held(3), Answer::No),
        (OLD, 0, 0, Asked::Sound, Answer::Yes),
        (OLD, 1, 0, Asked::Sound, Answer::No),
        (OLD, 0, 2, Asked::Sound, Answer::No),
        (NEW, 63, 63, Asked::Sound, Answer::Yes),
        (NEW, 2, 63, Asked::Sound, Answer::No),
        (NEW, 63, 1, Asked::Sound, Answer::No),
    ];
    for (pointer, first, second, asked, want) in rows {
        let got = asked_of(&rt, alloc, &moved(first, second), &words(pointer), asked);
        assert!(rt; got == want, "{pointer} {first}");
    }
}

/// The number that stands for a null pointer. It is no place.
const NULL: u64 = 1_000;

/// The number that stands for a pointer that leads nowhere. It is no place.
const NOWHERE: u64 = 1_001;

/// Returns the place to which a pointer leads. The pointer is at this step of the puddle of this ordinal, one of the
/// two.
fn leads(rt: &impl Abort, pool: &[Placed; 2], ordinal: u32, step: u32, value: u64) -> u64 {
    assert!(rt; ordinal < 2);
    match read_pointer(pool, ordinal, step, value) {
        Some(Pointee::At { ordinal, slot }) => place_at(ordinal, slot),
        Some(Pointee::Null) => NULL,
        None => NOWHERE,
    }
}

/// Asserts where each pointer leads. A row has its ordinal, its step, its value and the place.
fn each_leads(rt: &impl Abort, pool: &[Placed; 2], rows: &[(u32, u32, u64, u64)]) {
    for (ordinal, step, value, want) in rows {
        assert!(rt;
            leads(rt, pool, *ordinal, *step, *value) == *want,
            "{value}"
        );
    }
}

#[test]
fn where_a_pointer_leads(rt: HostRuntime) {
    let rows = [
        (0, 0, 0, NULL),
        (1, 63, 0, NULL),
        (0, 0, BOTH, 0),
        (0, 1, BOTH, 248),
        (1, 1, BOTH, 0),
        (1, 62, NEW + SLOT_BYTES, 249),
        (1, 62, NEW + 61 * SLOT_BYTES, 309),
        (1, 63, OLD + 61 * SLOT_BYTES, 61),
        // After the last slot, into a header, into the middle of a slot, over the bases that do not count, and outside
        // the space.
        (1, 62, NEW + 62 * SLOT_BYTES, NOWHERE),
        (1, 62, NEW - SLOT_BYTES, NOWHERE),
        (1, 62, NEW - SLOT_0, NOWHERE),
        (1, 62, NEW + 8, NOWHERE),
        (1, 62, NEW + SLOT_BYTES - 1, NOWHERE),
        (0, 0, OLD, NOWHERE),
        (0, 1, NEW, NOWHERE),
        (0, 0, 1, NOWHERE),
        (0, 0, u64::MAX, NOWHERE),
    ];
    each_leads(&rt, &moved(1, 63), &rows);
}

/// A large puddle and a small one, whose pointers all stand over the first two bases of the space.
pub const MIXED: [Placed; 2] = [
    (
        1,
        Puddle {
            number: 7,
            base: START,
            old_base: START,
            frontier: 63,
            class: LARGE,
        },
    ),
    (
        2,
        Puddle {
            number: 8,
            base: START + RANGE,
            old_base: START + RANGE,
            frontier: 249,
            class: SMALL,
        },
    ),
];

#[test]
fn where_a_pointer_leads_in_puddles_of_two_classes(rt: HostRuntime) {
    let large = START + SLOT_0;
    let small = START + RANGE + SLOT_0;
    let rows = [
        (0, 1, small, 248),
        (0, 62, small + SMALL_SLOT_BYTES, 249),
        (1, 1, small + 247 * SMALL_SLOT_BYTES, 495),
        (1, 248, large + 61 * SLOT_BYTES, 61),
        // After the last slot, into the middle of a slot, and at what would be a slot of the other class.
        (0, 1, small + 248 * SMALL_SLOT_BYTES, NOWHERE),
        (0, 1, small + 8, NOWHERE),
        (1, 1, large + SMALL_SLOT_BYTES, NOWHERE),
        (1, 1, large + 62 * SLOT_BYTES, NOWHERE),
    ];
    each_leads(&rt, &MIXED, &rows);
}

/// Two large puddles with the same base.
fn alike(base: u64) -> [Placed; 2] {
    let puddle = Puddle {
        number: 7,
        base,
        old_base: START,
        frontier: 63,
        class: LARGE,
    };
    [(1, puddle), (2, puddle)]
}

// No sum of addresses wraps around. If two puddles have one base, the first counts.
#[test]
fn where_a_pointer_leads_over_bases_that_are_none(rt: HostRuntime) {
    let last = u64::MAX - 767;
    let rows = [
        (last, u64::MAX - 255, 0),
        (last, u64::MAX, NOWHERE),
        (last, 256, NOWHERE),
        (u64::MAX, 511, NOWHERE),
        (u64::MAX - 511, 256, NOWHERE),
        (7, 519, 0),
        (0, 512, 0),
    ];
    for (base, value, want) in rows {
        each_leads(&rt, &alike(base), &[(1, 5, value, want)]);
    }
}
