//! The lines of a generated script, byte by byte.
ghost use Rattle.std.specs.Prelude.{◌≡◌, ◌<◌, ◌^◌};
ghost use Rattle.gen_work.specs.GenLines.{gen_lines, line_count};
ghost use Rattle.puddle_cli.specs.Generated.{bytes_of, TakesFirst};

use gen_work::Generated;
use pud_defs::layout::LINE_LIMIT;
use std::marker::Model;

/// The bytes of the generated lines that are still to come. Each line ends with a newline. The bytes are made one line
/// at a time, without allocation.
#[derive(Drop)]
pub struct GeneratedBytes {
    lines: Generated,
    line: [u8; LINE_LIMIT],
    length: usize,
    at: usize,
}

impl Model for GeneratedBytes {
    ghost use Rattle.std.specs.Prelude.{◌≤◌, ◌++◌, List, ℕ, take, drop};
    ghost use Rattle.pud_defs.specs.declared.layout.TheConstants.{LINE_LIMIT};
    ghost use Rattle.puddle_cli.specs.Generated.{bytes_of};

    ghost Value = { List ℕ };

    ghost view = { λ g. drop g.at (take g.length g.line) ++ bytes_of g.lines };

    ghost invariant = { λ g. (g.at ≤ g.length) × (g.length ≤ LINE_LIMIT) };
}

impl GeneratedBytes {
    /// All bytes of the script for this seed and for `count` objects.
    pub fn new(seed: u32, count: u32) -> Self
        requires seed { seed < 65536 }
        requires few { line_count count < 2 ^ 32 }
        ensures { result ≡ bytes_of (gen_lines seed count) }
    {
        GeneratedBytes {
            lines: Generated::new(seed, count),
            line: [0; LINE_LIMIT],
            length: 0,
            at: 0,
        }
    }

    /// Takes the next byte. Returns None after the last one.
    pub fn next(&mut self) -> Option<u8>
        ensures { TakesFirst result self.old self.new }
    {
        if self.at == self.length {
            let length = self.lines.next_line(&mut self.line)?;
            self.line[length] = b'\n';
            self.length = length + 1;
            self.at = 0;
        }
        let byte = self.line[self.at];
        self.at += 1;
        Some(byte)
    }
}
