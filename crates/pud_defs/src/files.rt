//! The layout of export files: what each word stores, and how many words there are.
//!
//! A file is a row of words. Each word is eight bytes, the lowest first. The file has a header, the types of its
//! objects, the bases and the classes of its puddles by ordinals, and the frames of these puddles. A file of the first
//! version has no classes: each of its puddles is large.

ghost use Rattle.std.specs.Prelude.{◌≡◌, ◌≤◌};
ghost use Rattle.pud_defs.specs.PoolGraphs.ExportFile.{file_type_at, file_bases_at, file_classes_at, file_frames_at, file_frame_at, file_words};

use crate::layout::{FRAME_WORDS, TYPE_RECORD_WORDS, TYPE_RECORDS};
use crate::records::MAX_PUDDLES;

/// The value of word 0 of an export file: the eight bytes `PUDEXP01`, lowest first.
pub const FILE_MAGIC: u64 = 0x3130_5058_4544_5550;

/// The value of word 1 of an export file that is written now.
pub const FILE_VERSION: u64 = 2;

/// The value of word 1 of a file of the first version, which is still read.
pub const FIRST_FILE_VERSION: u64 = 1;

/// The word that stores the file magic.
pub const FILE_MAGIC_WORD: u32 = 0;

/// The word that stores the version.
pub const FILE_VERSION_WORD: u32 = 1;

/// The word that stores the number of types.
pub const FILE_TYPES_WORD: u32 = 2;

/// The word that stores the number of puddles.
pub const FILE_PUDDLES_WORD: u32 = 3;

/// The word that stores the id of the machine that wrote the file.
pub const FILE_MACHINE_WORD: u32 = 4;

/// The word that stores the UUID number that the pool has on that machine.
pub const FILE_NUMBER_WORD: u32 = 5;

/// How many words the header of an export file has.
pub const FILE_HEADER_WORDS: u32 = 8;

/// The first word of type `i`. It stores the type's id, and the type's map follows it.
pub const fn file_type_at(i: u32) -> u32
    requires { i ≤ TYPE_RECORDS }
    ensures { result ≡ file_type_at i }
{
    FILE_HEADER_WORDS + TYPE_RECORD_WORDS * i
}

/// The word of the base of ordinal 0, in a file with `types` types.
pub const fn file_bases_at(types: u32) -> u32
    requires { types ≤ TYPE_RECORDS }
    ensures { result ≡ file_bases_at types }
{
    file_type_at(types)
}

/// The word of the class of ordinal 0, in a file with `types` types and `puddles` puddles that has classes.
pub const fn file_classes_at(types: u32, puddles: u32) -> u32
    requires few_types { types ≤ TYPE_RECORDS }
    requires few_puddles { puddles ≤ MAX_PUDDLES }
    ensures { result ≡ file_classes_at types puddles }
{
    file_bases_at(types) + puddles
}

/// The first word of the frame of ordinal 0, in a file of this version with `types` types and `puddles` puddles.
pub const fn file_frames_at(version: u64, types: u32, puddles: u32) -> u32
    requires few_types { types ≤ TYPE_RECORDS }
    requires few_puddles { puddles ≤ MAX_PUDDLES }
    ensures { result ≡ file_frames_at version types puddles }
{
    if version == FIRST_FILE_VERSION {
        file_classes_at(types, puddles)
    } else {
        file_classes_at(types, puddles) + puddles
    }
}

/// The first word of the frame of an ordinal, in a file of this version with `types` types and `puddles` puddles.
pub const fn file_frame_at(version: u64, types: u32, puddles: u32, ordinal: u32) -> u32
    requires few_types { types ≤ TYPE_RECORDS }
    requires few_puddles { puddles ≤ MAX_PUDDLES }
    requires known { ordinal ≤ MAX_PUDDLES }
    ensures { result ≡ file_frame_at version types puddles ordinal }
{
    file_frames_at(version, types, puddles) + FRAME_WORDS * ordinal
}

/// How many words an export file of this version with `types` types and `puddles` puddles has.
pub const fn file_words(version: u64, types: u32, puddles: u32) -> u32
    requires few_types { types ≤ TYPE_RECORDS }
    requires few_puddles { puddles ≤ MAX_PUDDLES }
    ensures { result ≡ file_words version types puddles }
{
    file_frame_at(version, types, puddles, puddles)
}
