//! Changed files: which of them are still files, by the grammar and by both readers.
use crate::files::{
    AT_3, AT_4, AT_5, AT_8, BASE_0, BASE_1, FRAME_0, FRAME_1, Row, SLOT_3, SLOT_4, SLOT_5, SLOT_8,
    WORDS, changed,
};
use crate::readers;
use std::alloc::Global;
use std::process::Abort;

/// How many bytes the file has.
const SIZE: usize = 8 * WORDS;

/// Whether the file, with these words changed and cut or filled up to `size` bytes, is a file by both readers.
fn is_file(rt: &impl Abort, alloc: Global, rows: &[Row], size: usize) -> bool {
    readers::is_file(rt, &changed(alloc, rows, size).expect(rt, "memory"))
}

/// Asserts, for each change by itself, whether the file with it is still a file.
fn assert_each(rt: &impl Abort, alloc: Global, rows: &[(Row, bool)]) {
    for (row, wanted) in rows {
        assert_eq!(rt;
            is_file(rt, alloc, &[*row], SIZE),
            *wanted,
            "word {}",
            row.0
        );
    }
}

#[test]
fn what_the_header_says(rt: HostRuntime) {
    let alloc = rt.alloc();
    assert!(rt; is_file(&rt, alloc, &[], SIZE));
    let rows = [
        ((0, 0x3130_5058_4544_5551), false),
        ((0, 0), false),
        // The first version has no classes, so such a file would be shorter.
        ((1, 0), false),
        ((1, 1), false),
        ((1, 3), false),
        ((1, 0x1_0000_0002), false),
        ((2, 1), false),
        ((2, 3), false),
        ((2, 65), false),
        ((2, 0x1_0000_0002), false),
        ((2, 0xffff_ffff_ffff_ffff), false),
        ((3, 0), false),
        ((3, 1), false),
        ((3, 3), false),
        ((3, 17), false),
        ((3, 0x1_0000_0002), false),
        // It is not judged who wrote the file, or from which pool.
        ((4, 0), true),
        ((4, 0xffff_ffff_ffff_ffff), true),
        ((5, 0), true),
        ((6, 1), false),
        ((7, 0x8000_0000_0000_0000), false),
    ];
    assert_each(&rt, alloc, &rows);
}

#[test]
fn how_many_bytes_there_are(rt: HostRuntime) {
    let alloc = rt.alloc();
    for size in [
        0,
        7,
        8,
        63,
        64,
        112,
        128,
        SIZE / 2,
        SIZE - 16_384,
        SIZE - 8,
        SIZE - 1,
        SIZE + 1,
        SIZE + 8,
        SIZE + 16_400,
        263_488,
        263_489,
        300_000,
    ] {
        assert!(rt; !is_file(&rt, alloc, &[], size), "{size} bytes");
    }
}

#[test]
fn types_bases_and_classes(rt: HostRuntime) {
    let alloc = rt.alloc();
    let rows = [
        // Type 1 is used only under this id.
        ((8, 0), false),
        ((8, 2), false),
        ((8, 7), false),
        ((8, 8), false),
        ((8, 65_536), false),
        ((8, 0x1_0000_0001), false),
        ((10, 1), false),
        ((10, 8), false),
        // One field fewer, or one more; a field that is no pointer any more, and one that is a pointer now.
        ((9, 0), false),
        ((9, 0x1_0000_0000), false),
        ((9, 0x1_0000_0001), false),
        ((9, 0x2_0000_0000), true),
        ((9, 0x2_0000_0003), false),
        ((9, 0x2_0000_0006), false),
        ((9, 0x3_0000_0002), true),
        ((9, 0x3_0000_0006), true),
        ((9, 0x1e_0000_0002), true),
        ((9, 0x1f_0000_0002), false),
        ((9, 0x22_0000_0002), false),
        ((11, 0x1_0000_0001), false),
        ((11, 0x2_0000_0002), true),
        // Pointers stand over the bases.
        ((12, BASE_1), false),
        ((12, BASE_0 + 8), false),
        ((12, BASE_0 + 16_384), false),
        ((12, 0), false),
        ((13, BASE_0), false),
        ((13, BASE_1 + 16_384), false),
        // Each class is one that is known. Slots 0, 1 and 61 of a large puddle begin where slots 0, 4 and 244 of a small
        // one do, and the objects have no more than two fields.
        ((14, 1), true),
        ((14, 2), false),
        ((15, 1), true),
        ((15, 2), false),
        ((15, 0x1_0000_0000), false),
        ((15, 0xffff_ffff_ffff_ffff), false),
    ];
    assert_each(&rt, alloc, &rows);
}

#[test]
fn headers_of_frames(rt: HostRuntime) {
    let alloc = rt.alloc();
    let rows = [
        ((FRAME_0, 0), false),
        ((FRAME_1, 0x3130_454c_4444_5551), false),
        // A frame's number is not judged.
        ((FRAME_0 + 1, 0), true),
        ((FRAME_1 + 1, 72), true),
        ((FRAME_0 + 2, 1), false),
        ((FRAME_1 + 2, 0), false),
        ((FRAME_1 + 2, 0x1_0000_0001), false),
        ((FRAME_0 + 3, 0), false),
        ((FRAME_0 + 3, 8), false),
        ((FRAME_0 + 3, 10), true),
        ((FRAME_0 + 3, 0x8000_0000_0000_0000), true),
        ((FRAME_0 + 3, 0x8000_0000_0000_0001), false),
        ((FRAME_0 + 4, 0), true),
        ((FRAME_0 + 4, AT_4), true),
        ((FRAME_0 + 4, AT_5), true),
        ((FRAME_0 + 4, AT_8), true),
        ((FRAME_0 + 4, 1), false),
        ((FRAME_0 + 4, AT_3 + 8), false),
        ((FRAME_0 + 4, AT_3 + 128), false),
        ((FRAME_0 + 4, BASE_0), false),
        ((FRAME_0 + 4, AT_5 - 256), false),
        ((FRAME_0 + 4, AT_5 + 256), false),
        ((FRAME_0 + 4, AT_8 + 256), false),
        ((FRAME_0 + 4, BASE_0 + 16_384), false),
        ((FRAME_0 + 5, 1), false),
        ((FRAME_0 + 63, 1), false),
        ((FRAME_1 + 3, 1), false),
        ((FRAME_1 + 3, 9), false),
        ((FRAME_1 + 4, AT_3), false),
        ((FRAME_1 + 5, 1), false),
        ((FRAME_1 + 63, 1), false),
    ];
    assert_each(&rt, alloc, &rows);
}

#[test]
fn slots(rt: HostRuntime) {
    let alloc = rt.alloc();
    let rows = [
        // The serial of another object, in the same puddle and in the other one; the next serial; and a serial that no
        // object has.
        ((SLOT_5, 8), false),
        ((SLOT_5, 3), false),
        ((SLOT_5, 9), false),
        ((SLOT_5, 0xffff_ffff_ffff_ffff), false),
        ((SLOT_5, 7), true),
        // A free slot has no other words, and no pointer leads to it.
        ((SLOT_5, 0), false),
        ((SLOT_4, 0), false),
        ((SLOT_8, 0), false),
        ((SLOT_5 + 1, 0), false),
        ((SLOT_5 + 1, 2), false),
        ((SLOT_5 + 1, 7), false),
        // Object 4 as an object of type 1: its second field is null.
        ((SLOT_4 + 1, 1), true),
        ((SLOT_5 + 2, 0), true),
        ((SLOT_5 + 2, 0xffff_ffff_ffff_ffff), true),
        ((SLOT_5 + 3, 0), true),
        ((SLOT_5 + 3, AT_4), true),
        ((SLOT_5 + 3, AT_5), true),
        ((SLOT_5 + 3, AT_8), true),
        ((SLOT_5 + 3, 1), false),
        ((SLOT_5 + 3, AT_3 + 8), false),
        ((SLOT_5 + 3, AT_3 + 255), false),
        ((SLOT_5 + 3, AT_4 + 256), false),
        ((SLOT_5 + 3, BASE_1), false),
        ((SLOT_5 + 4, 1), false),
        ((SLOT_5 + 31, 1), false),
        ((SLOT_8 + 3, 1), false),
        ((SLOT_8 + 31, 1), false),
        // Slot 1 of the first puddle is free.
        ((SLOT_5 + 32, 6), false),
        ((SLOT_5 + 33, 1), false),
        ((SLOT_5 + 34, 1), false),
        ((SLOT_5 + 63, 1), false),
        ((WORDS - 1, 1), false),
        ((WORDS - 32, 6), false),
    ];
    assert_each(&rt, alloc, &rows);
}

#[test]
fn changes_together(rt: HostRuntime) {
    let alloc = rt.alloc();
    // One more object, in a slot that was free.
    assert!(rt; is_file(&rt, alloc, &[(SLOT_5 + 32, 6), (SLOT_5 + 33, 7)], SIZE));
    // Object 4 is gone with all its words; then object 8 is gone too, so that no object has type 7.
    let gone = [(SLOT_4, 0), (SLOT_4 + 1, 0), (SLOT_4 + 2, 0)];
    assert!(rt; is_file(&rt, alloc, &gone, SIZE));
    let unused = [
        (SLOT_4, 0),
        (SLOT_4 + 1, 0),
        (SLOT_4 + 2, 0),
        (SLOT_8, 0),
        (SLOT_8 + 1, 0),
        (SLOT_8 + 2, 0),
        (SLOT_3 + 3, 0),
    ];
    assert!(rt; !is_file(&rt, alloc, &unused, SIZE));
    // Type 7 under another id, which its objects have too.
    let renamed = [(10, 65_535), (SLOT_8 + 1, 65_535), (SLOT_4 + 1, 65_535)];
    assert!(rt; is_file(&rt, alloc, &renamed, SIZE));
    let beyond = [(10, 65_536), (SLOT_8 + 1, 65_536), (SLOT_4 + 1, 65_536)];
    assert!(rt; !is_file(&rt, alloc, &beyond, SIZE));
    // The second puddle at the last base of the space, and at the base after it, each time with the pointers to it.
    let last = 0x1100_0000_0000 - 16_384;
    let moved = [
        (13, last),
        (FRAME_0 + 4, last + 512),
        (SLOT_5 + 3, last + 512),
    ];
    assert!(rt; is_file(&rt, alloc, &moved, SIZE));
    let outside = [
        (13, last + 16_384),
        (FRAME_0 + 4, last + 16_896),
        (SLOT_5 + 3, last + 16_896),
    ];
    assert!(rt; !is_file(&rt, alloc, &outside, SIZE));
}

#[test]
fn small_puddles(rt: HostRuntime) {
    let alloc = rt.alloc();
    // Both puddles are small.
    assert!(rt; is_file(&rt, alloc, &[(14, 1), (15, 1)], SIZE));
    // Type 1 has six fields, and then seven, which have no room in a small slot.
    assert!(rt; is_file(&rt, alloc, &[(14, 1), (15, 1), (9, 0x6_0000_0002)], SIZE));
    assert!(rt; !is_file(&rt, alloc, &[(14, 1), (9, 0x7_0000_0002)], SIZE));
    assert!(rt; !is_file(&rt, alloc, &[(15, 1), (9, 0x7_0000_0002)], SIZE));
    // One more object, in slot 1 and in slot 247 of a small puddle. A large one has no slot there.
    for begins in [SLOT_5 + 8, FRAME_1 - 8] {
        let more = [(14, 1), (begins, 6), (begins + 1, 7)];
        assert!(rt; is_file(&rt, alloc, &more, SIZE), "word {begins}");
        let large = [(begins, 6), (begins + 1, 7)];
        assert!(rt; !is_file(&rt, alloc, &large, SIZE), "word {begins}");
    }
    // The root is the object in slot 1, and then an address within this slot, and the address of slot 2, which is free.
    for (root, wanted) in [(AT_5 + 64, true), (AT_5 + 72, false), (AT_5 + 128, false)] {
        let rows = [
            (14, 1),
            (SLOT_5 + 8, 6),
            (SLOT_5 + 9, 7),
            (FRAME_0 + 4, root),
        ];
        assert_eq!(rt; is_file(&rt, alloc, &rows, SIZE), wanted, "root {root}");
    }
    // A word after the last field of an object, in its slot and in the next one.
    for word in [SLOT_5 + 4, SLOT_5 + 7, SLOT_5 + 8] {
        assert!(rt;
            !is_file(&rt, alloc, &[(14, 1), (word, 1)], SIZE),
            "word {word}"
        );
    }
}

#[test]
fn each_word_with_each_value(rt: HostRuntime) {
    let alloc = rt.alloc();
    let mut files = 0u32;
    let mut others = 0u32;
    for k in [
        0,
        1,
        2,
        3,
        4,
        5,
        6,
        7,
        8,
        9,
        10,
        11,
        12,
        13,
        14,
        15,
        FRAME_0,
        FRAME_0 + 1,
        FRAME_0 + 2,
        FRAME_0 + 3,
        FRAME_0 + 4,
        FRAME_0 + 5,
        FRAME_1,
        FRAME_1 + 1,
        FRAME_1 + 2,
        FRAME_1 + 3,
        FRAME_1 + 4,
        SLOT_5,
        SLOT_5 + 1,
        SLOT_5 + 2,
        SLOT_5 + 3,
        SLOT_5 + 4,
        SLOT_8,
        SLOT_8 + 1,
        SLOT_8 + 2,
        SLOT_8 + 3,
        SLOT_3,
        SLOT_3 + 1,
        SLOT_3 + 2,
        SLOT_3 + 3,
        SLOT_4,
        SLOT_4 + 1,
        SLOT_4 + 2,
        SLOT_4 + 3,
    ] {
        for v in [
            0,
            1,
            2,
            7,
            9,
            AT_3,
            AT_5 + 8,
            BASE_1 + 16_384,
            0x2_0000_0000,
        ] {
            if is_file(&rt, alloc, &[(k, v)], SIZE) {
                files = files.saturating_add(1);
            } else {
                others = others.saturating_add(1);
            }
        }
    }
    assert!(rt; files > 50 && others > 200, "{files} and {others}");
}
