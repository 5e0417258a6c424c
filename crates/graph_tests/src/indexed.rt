//! Tests of the index of a pool: where its objects are, and their reference counts.
use crate::moved::{NEW, moved, words};
use crate::pools::{FRAME_1, Placed, Row, SLOT_0, SLOT_BYTES, START, index_of};
use pud_defs::records::Puddle;
use pud_defs::space::LARGE;
use std::process::Abort;

/// The only puddle of a pool, a large one. Its base and its old base are both the first base of the space.
const ALONE: Placed = (
    1,
    Puddle {
        number: 7,
        base: START,
        old_base: START,
        frontier: 63,
        class: LARGE,
    },
);

/// Objects 1 and 2, which name each other. The root is object 1.
const PAIR: [Row; 10] = [
    (FRAME_1 + 3, 3),
    (FRAME_1 + 4, START + SLOT_0),
    (FRAME_1 + 64, 1),
    (FRAME_1 + 65, 1),
    (FRAME_1 + 66, 10),
    (FRAME_1 + 67, START + SLOT_0 + SLOT_BYTES),
    (FRAME_1 + 96, 2),
    (FRAME_1 + 97, 1),
    (FRAME_1 + 98, 0),
    (FRAME_1 + 99, START + SLOT_0),
];

#[test]
fn a_pair_that_holds_each_other(rt: HostRuntime) {
    let mut index = index_of(&rt, rt.alloc(), &[ALONE], &PAIR);
    assert!(rt; index.find(1) == Some((0, 0)));
    assert!(rt; index.find(2) == Some((0, 1)));
    assert!(rt; index.find(3) == None);
    assert!(rt; index.references(1) == 2);
    assert!(rt; index.references(2) == 1);
    assert!(rt; index.references(3) == 0);
    assert!(rt; index.insert(3, (0, 2)));
    assert!(rt; index.find(3) == Some((0, 2)));
    index.remove(2);
    assert!(rt; index.find(2) == None);
}

#[test]
fn an_object_that_all_name(rt: HostRuntime) {
    let index = index_of(&rt, rt.alloc(), &moved(63, 63), &words(NEW));
    assert!(rt; index.find(3) == Some((1, 0)));
    assert!(rt; index.references(3) == 4);
    assert!(rt; index.references(1) == 0);
    assert!(rt; index.references(0) == 0);
}
