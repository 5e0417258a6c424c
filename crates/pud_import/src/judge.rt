//! Whether the words after the header are those of a file.

ghost use Rattle.std.specs.Prelude.{◌≡◌, ◌&&◌};
ghost use Rattle.pud_import.specs.Contents.{is_sound_file};
ghost use Rattle.pud_import.specs.Sized.{image_of_file};

use crate::bases::has_legal_bases;
use crate::sized_file::SizedFile;

/// Whether all of these are true: the types are legal, the bases are legal, each word that is not read is 0, the frames
/// store a graph, and each type is used.
fn are_all(types: bool, bases: bool, plain: bool, graph: bool, used: bool) -> bool
    ensures { result ≡ (types && bases && plain && graph && used) }
{
    types && bases && plain && graph && used
}

impl<'a> SizedFile<'a> {
    /// Whether the words after the header are those of a file.
    pub(crate) fn is_sound(&self) -> bool
        ensures { result ≡ is_sound_file (image_of_file self.now) self.now.version self.now.types self.now.puddles }
    {
        let types = self.has_legal_types();
        let pool = self.pool();
        let pool = &pool[..self.puddles as usize];
        let bases = has_legal_bases(pool);
        let plain = self.is_plain();
        let graph = self.has_graph(pool);
        let used = self.uses_types();
        are_all(types, bases, plain, graph, used)
    }
}
