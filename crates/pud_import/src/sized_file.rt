//! Bytes that have the header of an export file, as many words as it states, and legal classes.

ghost use Rattle.std.specs.Prelude.{◌≡◌, ◌≤◌, ◌*◌, true, length};
ghost use Rattle.pud_defs.specs.declared.layout.TheConstants.{TYPE_RECORDS};
ghost use Rattle.pud_defs.specs.declared.records.TheConstants.{MAX_PUDDLES};
ghost use Rattle.pud_defs.specs.PoolGraphs.ExportFile.{file_words, file_stored, are_file_classes};
ghost use Rattle.pud_import.specs.Contents.{file_image};

use pud_defs::layout::TYPE_RECORDS;
use pud_defs::records::MAX_PUDDLES;

/// Bytes that have the header of an export file of this version with these counts of types and puddles, and as many words
/// as it states. The class of each puddle is legal.
#[derive(Clone, Copy)]
pub(crate) struct SizedFile<'a> {
    pub(crate) bytes: &'a [u8],
    pub(crate) version: u64,
    pub(crate) types: u32,
    pub(crate) puddles: u32,
    ghost few_types: { types ≤ TYPE_RECORDS },
    ghost some_puddles: { 1 ≤ puddles },
    ghost few_puddles: { puddles ≤ MAX_PUDDLES },
    ghost whole: { length bytes.now ≡ 8 * file_words version types puddles },
    ghost legal_classes: { are_file_classes (file_stored (file_image bytes.now) version types puddles).puddles ≡ true },
}
