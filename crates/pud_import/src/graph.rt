//! Whether what a file's frames store is a graph.

ghost use Rattle.std.specs.Prelude.{◌≡◌, is_some};
ghost use Rattle.pud_defs.specs.PoolGraphs.Graph.{graph_of};
ghost use Rattle.pud_defs.specs.PoolGraphs.Stored.{IsOnDevice, stored_in};
ghost use Rattle.pud_defs.specs.RegistryTables.Types.{types_of};
ghost use Rattle.pud_import.specs.Answers.{as_device};
ghost use Rattle.pud_import.specs.Sized.{image_of_file};

use crate::sized_file::SizedFile;
use graph_read::pool_is_sound;
use pud_defs::records::Puddle;

impl<'a> SizedFile<'a> {
    /// Whether what these puddles store is a graph, on the device that the file answers as. It is judged in the same
    /// way as a pool on a device.
    pub(crate) fn has_graph(&self, pool: &[(u32, Puddle)]) -> bool
        requires { IsOnDevice self.now.puddles pool.now }
        ensures { let image = as_device (image_of_file self.now) self.now.version self.now.types self.now.puddles in
            result ≡ is_some (graph_of (types_of image) (stored_in self.now.puddles pool.now image)) }
    {
        let mut words = *self;
        match pool_is_sound(&mut words, self.puddles, pool) {
            Ok(sound) => sound,
            Err(_) => false,
        }
    }
}
