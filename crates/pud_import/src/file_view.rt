//! An export file that was read.

ghost use Rattle.std.specs.Prelude.{◌≡◌, ◌+◌, ◌<◌, ◌≤◌, slice_get, option_map, is_some, IfOk};
ghost use Rattle.std.specs.Result.{is_ok};
ghost use Rattle.pud_defs.specs.declared.layout.TheConstants.{FRAME_WORDS, TYPE_RECORDS};
ghost use Rattle.pud_defs.specs.declared.records.TheConstants.{MAX_PUDDLES};
ghost use Rattle.pud_defs.specs.PoolGraphs.ExportFile.{file_type, file_bases_at, file_graph};
ghost use Rattle.pud_defs.specs.PoolGraphs.Exported.{IsExportable};
ghost use Rattle.pud_defs.specs.PoolGraphs.Graph.{graph_of};
ghost use Rattle.pud_defs.specs.PoolGraphs.Stored.{class_of};
ghost use Rattle.pud_import.specs.Contents.{file_image, type_count_read, puddle_count_read, types_held, stored_held, contents_read};

use crate::header::sized;
use crate::sized_file::SizedFile;
use std::marker::Model;

/// The bytes are no export file.
#[derive(Clone, Copy, Debug, PartialEq, Eq, thiserror::Error)]
#[error("the bytes are not an export file")]
pub struct BadFile;

/// An export file. Contracts see it as its bytes.
#[derive(Drop)]
pub struct FileView<'a> {
    file: SizedFile<'a>,
}

impl<'a> Model for FileView<'a> {
    ghost use Rattle.std.specs.Prelude.{◌≡◌, ℕ, true, List, is_some};
    ghost use Rattle.pud_defs.specs.PoolGraphs.ExportFile.{file_graph};
    ghost use Rattle.pud_import.specs.Contents.{version_read, type_count_read, puddle_count_read};

    ghost Value = { List ℕ };

    ghost view = { λ v. v.file.bytes.now };

    ghost invariant = { λ v. (is_some (file_graph v.file.bytes.now) ≡ true) × (v.file.version ≡ version_read v.file.bytes.now) × (v.file.types ≡ type_count_read v.file.bytes.now) × (v.file.puddles ≡ puddle_count_read v.file.bytes.now) };
}

/// Reads bytes as an export file. The bytes may be anything; `BadFile` comes exactly if they are no export file.
///
/// Nothing is allocated. How much is read depends on the two counts of the header alone, of at most 64 types and 16
/// puddles. If there are not as many bytes as these counts and the version state, only the header is read. Each word of
/// a frame is read once, with these exceptions: its number is read twice; the serial and the type id in a slot are read
/// twice, and once more for each type that is listed.
pub fn read_file(bytes: &[u8]) -> Result<FileView<'_>, BadFile>
    ensures file { is_ok result ≡ is_some (file_graph bytes.now) }
    ensures view { IfOk result (λ view. view ≡ bytes.now) }
    ensures contents { IfOk result (λ view. file_graph bytes.now ≡ option_map (contents_read view) (graph_of (types_held view) (stored_held view))) }
    ensures legal { IfOk result (λ view. IsExportable (types_held view) (stored_held view)) }
{
    match sized(bytes) {
        Some(file) if file.is_sound() => Ok(FileView { file }),
        _ => Err(BadFile),
    }
}

impl<'a> FileView<'a> {
    /// How many types the file lists, at most 64.
    pub fn types(&self) -> u32
        ensures counted { result ≡ type_count_read self.now }
        ensures most { result ≤ TYPE_RECORDS }
    {
        self.file.types
    }

    /// The id and the map of type `i`. The types stand in the order of their ids.
    pub fn type_at(&self, i: u32) -> (u32, u64)
        requires { i < type_count_read self.now }
        ensures { result ≡ file_type (file_image self.now) i }
    {
        let (id, map) = self.file.type_at(i);
        (id as u32, map)
    }

    /// How many puddles the file has, 1 to 16.
    pub fn puddles(&self) -> u32
        ensures counted { result ≡ puddle_count_read self.now }
        ensures some { 1 ≤ result }
        ensures most { result ≤ MAX_PUDDLES }
    {
        self.file.puddles
    }

    /// The base of the puddle of an ordinal. The file's pointers stand over these bases.
    pub fn base(&self, ordinal: u32) -> u64
        requires { ordinal < puddle_count_read self.now }
        ensures { result ≡ file_image self.now (file_bases_at (type_count_read self.now) + ordinal) }
    {
        self.file.base(ordinal)
    }

    /// The class of the puddle of an ordinal.
    pub fn class(&self, ordinal: u32) -> u32
        requires { ordinal < puddle_count_read self.now }
        ensures { result ≡ class_of (slice_get (stored_held self.now).puddles ordinal) }
    {
        self.file.class(ordinal)
    }

    /// Word `w` of the frame of an ordinal.
    pub fn frame_word(&self, ordinal: u32, w: u32) -> u64
        requires known { ordinal < puddle_count_read self.now }
        requires within { w < FRAME_WORDS }
        ensures { result ≡ (stored_held self.now).word ordinal w }
    {
        self.file.frame_word(ordinal, w)
    }
}
