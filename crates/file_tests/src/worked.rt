//! A file of one pool in both versions and with both classes, byte by byte and word by word: its prefixes, and each of
//! its words with four values.
use crate::files::{Row, bytes_of};
use crate::plain;
use crate::readers::is_file;
use std::alloc::{AllocError, Global};
use std::process::Abort;

/// How many words the file has in version 1: a type and a puddle.
const WORDS: usize = 8 + 2 + 1 + 2048;

/// The word of the class of its puddle, in version 2.
const CLASS: usize = 11;

const BASE: u64 = 0x1000_0000_0000;

/// A file of version 1 with type 1 (a number and a pointer) and two objects: 1, which is the root, and 2. Each word that
/// is not listed is 0.
const FILE: [Row; 20] = [
    (0, 0x3130_5058_4544_5550),
    (1, 1),
    (2, 1),
    (3, 1),
    (4, 7),
    (5, 1),
    (8, 1),
    (9, 0x2_0000_0002),
    (10, BASE),
    (11, 0x3130_454c_4444_5550),
    (12, 2),
    (14, 3),
    (15, BASE + 512),
    (75, 1),
    (76, 1),
    (77, 10),
    (78, BASE + 768),
    (107, 2),
    (108, 1),
    (110, BASE + 512),
];

/// The file in one of the versions, with one word changed. In version 2 the class comes after the base, and the other
/// words are the same.
fn file(alloc: Global, version: u64, row: Row) -> Result<Vec<u8>, AllocError> {
    if version == 1 {
        return bytes_of(alloc, WORDS, &FILE, &[row]);
    }
    let mut rows = FILE;
    for listed in rows.iter_mut() {
        if listed.0 >= CLASS {
            listed.0 = listed.0.saturating_add(1);
        }
    }
    bytes_of(alloc, WORDS + 1, &rows, &[(1, version), row])
}

/// A file of version 2 whose puddle is small, with the same objects in its slots 0 and 1.
const SMALL_FILE: [Row; 21] = [
    (0, 0x3130_5058_4544_5550),
    (1, 2),
    (2, 1),
    (3, 1),
    (4, 7),
    (5, 1),
    (8, 1),
    (9, 0x2_0000_0002),
    (10, BASE),
    (11, 1),
    (12, 0x3130_454c_4444_5550),
    (13, 2),
    (15, 3),
    (16, BASE + 512),
    (76, 1),
    (77, 1),
    (78, 10),
    (79, BASE + 576),
    (84, 2),
    (85, 1),
    (87, BASE + 512),
];

/// The file with the small puddle, with one word changed.
fn small_file(alloc: Global, row: Row) -> Result<Vec<u8>, AllocError> {
    bytes_of(alloc, WORDS + 1, &SMALL_FILE, &[row])
}

/// A change that changes nothing: the machine's number.
const SAME: Row = (4, 7);

/// Asserts that these bytes are a file of this size, that no prefix of them is one, and that they are none with one byte
/// more.
fn assert_whole(rt: &impl Abort, mut bytes: Vec<u8>, size: usize) {
    assert!(rt; is_file(rt, &bytes));
    assert_eq!(rt; bytes.len(), size);
    for size in 0..bytes.len() {
        let front = bytes.get(..size).unwrap_or(&[]);
        assert!(rt; !is_file(rt, front), "{size} bytes");
    }
    bytes.push(0).expect(rt, "memory");
    assert!(rt; !is_file(rt, &bytes));
}

#[test]
fn no_prefix_of_a_file_is_one(rt: HostRuntime) {
    let alloc = rt.alloc();
    let first = file(alloc, 1, SAME).expect(&rt, "memory");
    assert_whole(&rt, first, 16_472);
    let second = file(alloc, 2, SAME).expect(&rt, "memory");
    assert_whole(&rt, second, 16_480);
    let small = small_file(alloc, SAME).expect(&rt, "memory");
    assert_whole(&rt, small, 16_480);
}

/// One of the three files.
#[derive(Clone, Copy)]
enum Kind {
    /// That of version 1 or 2 with a large puddle.
    Large(u64),
    /// That with a small puddle.
    Small,
}

/// The file of this kind, with one word changed.
fn file_of(alloc: Global, kind: Kind, row: Row) -> Result<Vec<u8>, AllocError> {
    match kind {
        Kind::Large(version) => file(alloc, version, row),
        Kind::Small => small_file(alloc, row),
    }
}

/// How many files there are among those that have one word changed, each word in turn to one of four values.
fn files_among(rt: &impl Abort, alloc: Global, kind: Kind, words: usize) -> u32 {
    let bytes = file_of(alloc, kind, SAME).expect(rt, "memory");
    let mut files = 0u32;
    for k in 0..words {
        let old = plain::word(&bytes, k as u64);
        for v in [0, 1, old.wrapping_add(1), u64::MAX] {
            let changed = file_of(alloc, kind, (k, v)).expect(rt, "memory");
            if is_file(rt, &changed) {
                files = files.saturating_add(1);
            }
        }
    }
    files
}

// Five words may have each of the four values: the two that tell who wrote the file, the puddle's number, and the
// number fields of both objects. Of the others, 2,045 have 0 or 1 and may have only that. Both pointers and the root
// may be 0, and the next serial may be one more. In version 2 the version is neither 0 nor 1, and there is one word
// more, the class. It may be 0, and 1 as two of the four values, since these objects are in slots 0 and 4 of a small
// puddle then. If it is 1 it may only be that, since the second object is in no slot of a large puddle.
#[test]
fn each_word_with_four_values(rt: HostRuntime) {
    let alloc = rt.alloc();
    assert_eq!(rt; files_among(&rt, alloc, Kind::Large(1), WORDS), 2_069);
    assert_eq!(rt; files_among(&rt, alloc, Kind::Large(2), WORDS + 1), 2_071);
    assert_eq!(rt; files_among(&rt, alloc, Kind::Small, WORDS + 1), 2_069);
}

// The serials change places. The second object has the next serial, which is one more. The type has a third field. The
// first field is a pointer, and null.
#[test]
fn two_words_together(rt: HostRuntime) {
    let alloc = rt.alloc();
    for (first, second) in [
        ((75, 2), (107, 1)),
        ((107, 3), (14, 4)),
        ((79, 5), (9, 0x3_0000_0002)),
        ((9, 0x2_0000_0003), (77, 0)),
    ] {
        let alone = bytes_of(alloc, WORDS, &FILE, &[first]).expect(&rt, "memory");
        assert!(rt; !is_file(&rt, &alone), "word {}", first.0);
        let both = bytes_of(alloc, WORDS, &FILE, &[first, second]).expect(&rt, "memory");
        assert!(rt; is_file(&rt, &both), "word {}", first.0);
    }
}
