//! The header of a file, how many words it states, and the classes of the puddles.

ghost use Rattle.std.specs.Prelude.{◌≡◌, ◌≤◌, ◌*◌, ◌&&◌, ◌==◌, nat_le, length, is_some, IfSome};
ghost use Rattle.pud_defs.specs.PoolGraphs.ExportFile.{is_file_version, has_file_header};
ghost use Rattle.pud_import.specs.Contents.{file_image, version_read, type_count_read, puddle_count_read, is_sized};

use crate::classes::has_legal_classes;
use crate::sized_file::SizedFile;
use crate::words::{WORD, word_at};
use pud_defs::files::{
    FILE_HEADER_WORDS, FILE_MAGIC, FILE_MAGIC_WORD, FILE_PUDDLES_WORD, FILE_TYPES_WORD,
    FILE_VERSION, FILE_VERSION_WORD, FIRST_FILE_VERSION, file_words,
};
use pud_defs::layout::TYPE_RECORDS;
use pud_defs::records::MAX_PUDDLES;

/// Whether files of this version are read: the present version, or the first.
fn is_file_version(version: u64) -> bool
    ensures { result ≡ is_file_version version }
{
    version == FILE_VERSION || version == FIRST_FILE_VERSION
}

/// Whether these words may stand in a header. They are the words that may not have any value: the magic, the version,
/// the counts, and the two words that are 0.
fn is_header(magic: u64, version: u64, types: u64, puddles: u64, sixth: u64, seventh: u64) -> bool
    ensures { result ≡ (magic == FILE_MAGIC && is_file_version version && nat_le types TYPE_RECORDS && nat_le 1 puddles && nat_le puddles MAX_PUDDLES && sixth == 0 && seventh == 0) }
{
    magic == FILE_MAGIC
        && is_file_version(version)
        && types <= u64::from(TYPE_RECORDS)
        && puddles >= 1
        && puddles <= u64::from(MAX_PUDDLES)
        && sixth == 0
        && seventh == 0
}

/// Whether the bytes have the header of an export file of this version with these numbers of types and puddles.
fn has_header(bytes: &[u8], version: u64, types: u64, puddles: u64) -> bool
    requires { 8 * FILE_HEADER_WORDS ≤ length bytes.now }
    ensures { result ≡ has_file_header (file_image bytes.now) version types puddles }
{
    is_header(
        word_at(bytes, FILE_MAGIC_WORD),
        version,
        types,
        puddles,
        word_at(bytes, 6),
        word_at(bytes, 7),
    )
}

/// The bytes with their version and their counts, or None if they have no header, not as many words as it states, or a
/// class that is not legal. Six words of the header are read, each once.
pub(crate) fn sized(bytes: &[u8]) -> Option<SizedFile<'_>>
    ensures sized { is_some result ≡ is_sized bytes.now }
    ensures bytes { IfSome result (λ file. file.bytes.now ≡ bytes.now) }
    ensures version { IfSome result (λ file. file.version ≡ version_read bytes.now) }
    ensures types { IfSome result (λ file. file.types ≡ type_count_read bytes.now) }
    ensures puddles { IfSome result (λ file. file.puddles ≡ puddle_count_read bytes.now) }
{
    if bytes.len() < WORD * FILE_HEADER_WORDS as usize {
        return None;
    }
    let version = word_at(bytes, FILE_VERSION_WORD);
    let types = word_at(bytes, FILE_TYPES_WORD);
    let puddles = word_at(bytes, FILE_PUDDLES_WORD);
    if !has_header(bytes, version, types, puddles) {
        return None;
    }
    let (types, puddles) = (types as u32, puddles as u32);
    if bytes.len() != WORD * file_words(version, types, puddles) as usize {
        return None;
    }
    if !has_legal_classes(bytes, version, types, puddles) {
        return None;
    }
    Some(SizedFile {
        bytes,
        version,
        types,
        puddles,
    })
}
