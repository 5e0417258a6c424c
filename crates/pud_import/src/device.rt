//! A file that answers like a device, so that code which reads a device can read a file.

ghost use Rattle.std.specs.Prelude.{◌≡◌, ◌<◌};
ghost use Rattle.pud_defs.specs.Formats.Layout.{device_words};
ghost use Rattle.pud_import.specs.Answers.{as_device};
ghost use Rattle.pud_import.specs.Sized.{image_of_file};

use crate::sized_file::SizedFile;
use pm_model::{HostFault, Loads};
use pud_defs::files::{FILE_HEADER_WORDS, file_frames_at};
use pud_defs::layout::{TYPE_TABLE, frames_at, type_record_at};

impl<'a> SizedFile<'a> {
    /// Word `w` of the device that the file answers as. That device has the file's types in its type table, from the
    /// first record on, and one frame for each puddle. All its other words are 0.
    fn device_word(&self, w: u32) -> u64
        requires { w < device_words self.now.puddles }
        ensures { result ≡ as_device (image_of_file self.now) self.now.version self.now.types self.now.puddles w }
    {
        let frames = frames_at(self.puddles);
        if w >= frames {
            return self.word(file_frames_at(self.version, self.types, self.puddles) + (w - frames));
        }
        let end = type_record_at(self.types);
        if w >= TYPE_TABLE && w < end {
            return self.word(FILE_HEADER_WORDS + (w - TYPE_TABLE));
        }
        0
    }
}

impl<'a> Loads for SizedFile<'a> {
    ghost use Rattle.std.specs.Prelude.{slice_index};
    ghost use Rattle.pm_model.specs.Counts.{fresh_counts};
    ghost use Rattle.pud_defs.specs.PoolGraphs.ExportFile.{words_in};
    ghost use Rattle.pud_defs.specs.Formats.Layout.{device_words};
    ghost use Rattle.pud_import.specs.Answers.{as_device, holding};

    ghost tells = { Unit {0} };

    ghost state = { λ f. holding (as_device (slice_index (words_in f.bytes.now)) f.version f.types f.puddles) };

    ghost counts = { λ f. fresh_counts (device_words f.puddles) };

    fn load_word(&mut self, w: u32) -> Result<u64, HostFault> {
        Ok(self.device_word(w))
    }
}
