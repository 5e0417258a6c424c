//! The file that is changed, and files of its size.

use std::alloc::{AllocError, Global};

/// A word and its value.
pub type Row = (usize, u64);

/// How many words the file has: two types and two puddles.
pub const WORDS: usize = 8 + 4 + 4 + 4096;

/// The first words of its frames, of slots 0 and 61 of the first puddle, and of slots 0 and 1 of the second.
pub const FRAME_0: usize = 16;

pub const FRAME_1: usize = 16 + 2048;

pub const SLOT_5: usize = 16 + 64;

pub const SLOT_8: usize = 16 + 64 + 32 * 61;

pub const SLOT_3: usize = 16 + 2048 + 64;

pub const SLOT_4: usize = 16 + 2048 + 64 + 32;

/// The bases of its puddles, and the addresses of the four slots.
pub const BASE_0: u64 = 0x1000_0000_0000 + 5 * 16_384;

pub const BASE_1: u64 = 0x1000_0000_0000;

pub const AT_5: u64 = BASE_0 + 512;

pub const AT_8: u64 = BASE_0 + 512 + 256 * 61;

pub const AT_3: u64 = BASE_1 + 512;

pub const AT_4: u64 = BASE_1 + 512 + 256;

/// A file of version 2 with type 1 (a number and a pointer) and type 7 (a number). The first puddle has objects 5 and 8.
/// The second has objects 3, which is the root, and 4. Each word that is not listed is 0, so both puddles are large.
const FILE: [Row; 34] = [
    (0, 0x3130_5058_4544_5550),
    (1, 2),
    (2, 2),
    (3, 2),
    (4, 70),
    (5, 71),
    (8, 1),
    (9, 0x2_0000_0002),
    (10, 7),
    (11, 0x1_0000_0000),
    (12, BASE_0),
    (13, BASE_1),
    (FRAME_0, 0x3130_454c_4444_5550),
    (FRAME_0 + 1, 72),
    (FRAME_0 + 2, 0),
    (FRAME_0 + 3, 9),
    (FRAME_0 + 4, AT_3),
    (FRAME_1, 0x3130_454c_4444_5550),
    (FRAME_1 + 1, 73),
    (FRAME_1 + 2, 1),
    (SLOT_5, 5),
    (SLOT_5 + 1, 1),
    (SLOT_5 + 2, 10),
    (SLOT_5 + 3, AT_3),
    (SLOT_8, 8),
    (SLOT_8 + 1, 7),
    (SLOT_8 + 2, 3),
    (SLOT_3, 3),
    (SLOT_3 + 1, 1),
    (SLOT_3 + 2, 20),
    (SLOT_3 + 3, AT_8),
    (SLOT_4, 4),
    (SLOT_4 + 1, 7),
    (SLOT_4 + 2, 0xffff_ffff_ffff_ffff),
];

/// Sets the words that are there.
fn set(words: &mut Vec<u64>, rows: &[Row]) {
    for (k, v) in rows {
        if let Some(word) = words.get_mut(*k) {
            *word = *v;
        }
    }
}

/// `count` words, each as eight bytes. A word that no row lists is 0.
pub fn bytes_of(
    alloc: Global,
    count: usize,
    listed: &[Row],
    rows: &[Row],
) -> Result<Vec<u8>, AllocError> {
    let mut words = Vec::new(alloc);
    for _ in 0..count {
        words.push(0u64)?;
    }
    set(&mut words, listed);
    set(&mut words, rows);
    let mut bytes = Vec::new(alloc);
    for word in &words {
        bytes.extend_from_slice(&word.to_le_bytes())?;
    }
    Ok(bytes)
}

/// The first `size` bytes of the file with these words changed; bytes after its last one are 0.
pub fn changed(alloc: Global, rows: &[Row], size: usize) -> Result<Vec<u8>, AllocError> {
    let mut bytes = bytes_of(alloc, WORDS, &FILE, rows)?;
    bytes.resize(size, 0u8)?;
    Ok(bytes)
}
