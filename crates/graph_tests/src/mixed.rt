//! Tests on a pool with a large puddle and a small one. An object stands in a slot of its puddle's class, and has room
//! there.
use crate::moved::MIXED;
use crate::pools::{
    Answer, Asked, FRAME_1, FRAME_2, RANGE, Row, SLOT_0, SLOT_BYTES, SMALL_SLOT_BYTES, START,
    asked_of, index_of,
};
use std::process::Abort;

/// The address of slot 1 of the large puddle.
const LARGE_SLOT: u64 = START + SLOT_0 + SLOT_BYTES;

/// The address of slot 247 of the small puddle, which is its last.
const SMALL_SLOT: u64 = START + RANGE + SLOT_0 + 247 * SMALL_SLOT_BYTES;

/// Object 1 in slot 1 of the large puddle and object 2 in the last slot of the small one, which name each other. The
/// root is object 2. Type 2 is defined with this number of fields, which are all numbers, and object 3 in slot 0 of the
/// small puddle is of the type `third`.
fn pair(fields: u64, third: u64) -> [Row; 16] {
    [
        (1_090, 2),
        (1_091, fields << 32),
        (FRAME_1 + 3, 4),
        (FRAME_1 + 4, SMALL_SLOT),
        (FRAME_1 + 96, 1),
        (FRAME_1 + 97, 1),
        (FRAME_1 + 98, 10),
        (FRAME_1 + 99, SMALL_SLOT),
        (FRAME_2 + 2_040, 2),
        (FRAME_2 + 2_041, 1),
        (FRAME_2 + 2_042, 20),
        (FRAME_2 + 2_043, LARGE_SLOT),
        (FRAME_2 + 64, 3),
        (FRAME_2 + 65, third),
        (FRAME_2 + 66, 30),
        (FRAME_2 + 67, 0),
    ]
}

#[test]
fn objects_in_slots_of_both_classes(rt: HostRuntime) {
    let alloc = rt.alloc();
    let rows = [
        (6, 1, Asked::Sound, Answer::Yes),
        (6, 2, Asked::Sound, Answer::Yes),
        (6, 1, Asked::Field(1, 1), Answer::Pointer(2)),
        (6, 1, Asked::Field(2, 1), Answer::Pointer(1)),
        (6, 1, Asked::Field(2, 0), Answer::Number(20)),
        (6, 2, Asked::Field(3, 0), Answer::Number(30)),
        (6, 1, Asked::Held(1), Answer::Yes),
        (6, 1, Asked::Held(3), Answer::No),
        // An object of seven fields has no room in a small slot.
        (7, 1, Asked::Sound, Answer::Yes),
        (7, 2, Asked::Sound, Answer::No),
        (7, 2, Asked::Field(3, 0), Answer::NoField),
    ];
    for (fields, third, asked, want) in rows {
        let got = asked_of(&rt, alloc, &MIXED, &pair(fields, third), asked);
        assert!(rt; got == want, "{fields} {third}");
    }
}

#[test]
fn an_index_of_both_classes(rt: HostRuntime) {
    let index = index_of(&rt, rt.alloc(), &MIXED, &pair(6, 1));
    assert!(rt; index.find(1) == Some((0, 1)));
    assert!(rt; index.find(2) == Some((1, 247)));
    assert!(rt; index.find(3) == Some((1, 0)));
    assert!(rt; index.references(1) == 1);
    assert!(rt; index.references(2) == 2);
    assert!(rt; index.references(3) == 0);
}
