//! The classes of the puddles of a file.

ghost use Rattle.std.specs.Prelude.{◌≡◌, ◌*◌, ◌<◌, ◌≤◌, length};
ghost use Rattle.pud_defs.specs.declared.layout.TheConstants.{TYPE_RECORDS};
ghost use Rattle.pud_defs.specs.declared.records.TheConstants.{MAX_PUDDLES};
ghost use Rattle.pud_defs.specs.PoolGraphs.ExportFile.{file_words, file_class, file_stored, are_file_classes};
ghost use Rattle.pud_import.specs.Contents.{file_image};

use crate::words::word_at;
use pud_defs::files::{FIRST_FILE_VERSION, file_classes_at};
use pud_defs::layout::TYPE_RECORDS;
use pud_defs::records::MAX_PUDDLES;
use pud_defs::space::{CLASSES, LARGE};

/// The class of the puddle of an ordinal, as the file of this version has it. In a file of the first version each puddle
/// is large.
pub(crate) fn class_word(bytes: &[u8], version: u64, types: u32, puddles: u32, ordinal: u32) -> u64
    requires few_types { types ≤ TYPE_RECORDS }
    requires few_puddles { puddles ≤ MAX_PUDDLES }
    requires whole { length bytes.now ≡ 8 * file_words version types puddles }
    requires known { ordinal < puddles }
    ensures { result ≡ file_class (file_image bytes.now) version types puddles ordinal }
{
    if version == FIRST_FILE_VERSION {
        return u64::from(LARGE);
    }
    word_at(bytes, file_classes_at(types, puddles) + ordinal)
}

/// Whether each class is one that a device may have.
pub(crate) fn has_legal_classes(bytes: &[u8], version: u64, types: u32, puddles: u32) -> bool
    requires few_types { types ≤ TYPE_RECORDS }
    requires few_puddles { puddles ≤ MAX_PUDDLES }
    requires whole { length bytes.now ≡ 8 * file_words version types puddles }
    ensures { result ≡ are_file_classes (file_stored (file_image bytes.now) version types puddles).puddles }
{
    for ordinal in 0..puddles {
        let class = class_word(bytes, version, types, puddles, ordinal);
        if class >= u64::from(CLASSES) {
            return false;
        }
    }
    true
}
