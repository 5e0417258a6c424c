//! A run of neighbouring lines that are written to the device's file together.
ghost use Rattle.std.specs.Prelude.{◌≡◌, ◌+◌, ◌-◌, ◌*◌, ◌<◌, ◌≤◌, ◌++◌, true, length, take, drop, OnOk};
ghost use Rattle.std.specs.List.{flat_map};
ghost use Rattle.std.specs.Int.{to_le_bytes};
ghost use mir.Syntax.{w64};

use std::io;
use std::os::unix::fs::FileExt;

/// The bytes of a line: eight words of eight bytes, each with its lowest byte first.
pub(crate) const LINE_BYTES: usize = 64;

const RUN_LINES: usize = 64;

const RUN_BYTES: usize = LINE_BYTES * RUN_LINES;

/// Up to 64 neighbouring lines that wait to be written.
#[derive(Drop)]
pub(crate) struct LineRun {
    first: u32,
    lines: usize,
    bytes: [u8; RUN_BYTES],
    ghost within: { lines ≤ 64 },
}

impl LineRun {
    /// A run without lines.
    pub(crate) fn new() -> LineRun
        ensures { result.lines ≡ 0 }
    {
        LineRun {
            first: 0,
            lines: 0,
            bytes: [0; RUN_BYTES],
        }
    }

    /// Drops the lines that wait.
    pub(crate) fn clear(&mut self)
        ensures { self.new.lines ≡ 0 }
    {
        self.lines = 0;
    }

    /// Whether a line directly follows the run, and there is room for it.
    fn continues_at(&self, line: u32) -> bool
        ensures room { result ≡ true → self.now.lines < 64 }
        ensures next { result ≡ true → line ≡ self.now.first + self.now.lines }
    {
        self.lines < RUN_LINES && u64::from(line) == u64::from(self.first) + self.lines as u64
    }

    /// Adds one more line. If the line does not follow the run, or the run is full, the lines that wait are written
    /// first.
    ///
    /// # Errors
    ///
    /// The lines that wait could not be written.
    pub(crate) fn put<F: FileExt>(
        &mut self,
        file: &F,
        line: u32,
        words: &[u64; 8],
    ) -> io::Result<()>
        ensures place { OnOk result (self.new.first + self.new.lines ≡ line + 1) }
        ensures bytes { OnOk result (drop (64 * self.new.lines - 64) (take (64 * self.new.lines) self.new.bytes)
            ≡ flat_map (to_le_bytes w64) words.now) }
    {
        if !self.continues_at(line) {
            if self.lines > 0 {
                self.write(file)?;
            }
            self.first = line;
        }
        self.push(words);
        Ok(())
    }

    // Adds the words of the next line.
    fn push(&mut self, words: &[u64; 8])
        requires { self.old.lines < 64 }
        ensures bytes { take (64 * self.new.lines) self.new.bytes
            ≡ take (64 * self.old.lines) self.old.bytes ++ flat_map (to_le_bytes w64) words.now }
        ensures lines { self.new.lines ≡ self.old.lines + 1 }
        ensures first { self.new.first ≡ self.old.first }
    {
        let at = self.lines * LINE_BYTES;
        spell(words, &mut self.bytes[at..at + LINE_BYTES]);
        self.lines += 1;
    }

    /// Writes the lines that wait, at their place in the file. After that no line waits, even if the write failed.
    pub(crate) fn write<F: FileExt>(&mut self, file: &F) -> io::Result<()>
        ensures { self.new.lines ≡ 0 }
    {
        let count = self.lines * LINE_BYTES;
        self.lines = 0;
        if count > 0 {
            let offset = u64::from(self.first) * LINE_BYTES as u64;
            file.write_all_at(&self.bytes[..count], offset)?;
        }
        Ok(())
    }
}

// Writes the bytes of a line's words into `bytes`.
fn spell(words: &[u64; 8], bytes: &mut [u8])
    requires { length bytes.old ≡ 64 }
    ensures { bytes.new ≡ flat_map (to_le_bytes w64) words.now }
{
    for (place, word) in words.iter().enumerate() {
        let at = place * 8;
        bytes[at..at + 8].copy_from_slice(&word.to_le_bytes());
    }
}
