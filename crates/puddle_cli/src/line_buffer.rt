//! A buffer for the bytes of one line that were read so far.
ghost use Rattle.std.specs.Prelude.{◌≡◌, ◌↔◌, ◌++◌, ◌∷◌, [], ℕ, take, length, IsTrue};

use pud_defs::layout::LINE_LIMIT;
use std::marker::Model;

/// How many bytes of a line are kept: one more than a line may have. So a longer line is seen to be too long.
pub const KEPT: usize = LINE_LIMIT + 1;

/// The first bytes of the line that is being read. The buffer allocates nothing.
#[derive(Drop)]
pub struct LineBuffer {
    bytes: [u8; KEPT],
    length: usize,
}

impl Model for LineBuffer {
    ghost use Rattle.std.specs.Prelude.{◌≤◌, List, ℕ, take};
    ghost use Rattle.puddle_cli.specs.declared.line_buffer.TheConstants.{KEPT};

    ghost Value = { List ℕ };

    ghost view = { λ p. take p.length p.bytes };

    ghost invariant = { λ p. p.length ≤ KEPT };
}

impl LineBuffer {
    /// An empty buffer.
    pub fn new() -> Self
        ensures { result ≡ [] }
    {
        LineBuffer {
            bytes: [0; KEPT],
            length: 0,
        }
    }

    /// Adds a byte. If [`KEPT`] bytes are there already, nothing changes.
    pub fn push(&mut self, byte: u8)
        ensures { self.new ≡ take KEPT (self.old ++ byte ∷ []) }
    {
        if self.length < KEPT {
            self.bytes[self.length] = byte;
            self.length += 1;
        }
    }

    /// Removes all bytes.
    pub fn clear(&mut self)
        ensures { self.new ≡ [] }
    {
        self.length = 0;
    }

    pub fn is_empty(&self) -> bool
        ensures { IsTrue result ↔ (self.now ≡ []) }
    {
        self.length == 0
    }

    /// The bytes that are kept.
    pub fn bytes(&self) -> &[u8]
        ensures { result.now ≡ self.now }
    {
        &self.bytes[..self.length]
    }
}
