//! The script that the mode `gen` carries out instead of one that is read. Its lines are made one by one from a seed
//! and a number of objects, without allocating memory.
#![tactic(auto)]

mod lines;
mod places;

ghost use Rattle.std.specs.Prelude.{◌≡◌, ◌<◌, ◌^◌, ℕ, [], ◌∷◌, length, take, slice_get, Some, IfSome, IfNone};
ghost use Rattle.pud_defs.specs.declared.layout.TheConstants.{LINE_LIMIT};
ghost use Rattle.gen_work.specs.GenLines.{gen_lines, line_count};

use places::Place;
use pud_defs::layout::LINE_LIMIT;
use std::marker::Model;

/// How many lines the script for `count` objects has.
pub fn line_count(count: u32) -> u32
    requires { line_count count < 2 ^ 32 }
    ensures { (seed : ℕ) → length (gen_lines seed count) ≡ result }
{
    5 * count + 11
}

/// Writes line number `line` of the script, counted from 0, at the start of `out`, without its newline. Returns the
/// number of its bytes. It promises nothing about the bytes of `out` after the line. It computes the number of each
/// object before the line, but makes none of their lines.
pub fn gen_line(seed: u32, count: u32, line: u32, out: &mut [u8; LINE_LIMIT]) -> usize
    requires seed { seed < 65536 }
    requires few { line_count count < 2 ^ 32 }
    requires known { line < line_count count }
    ensures within { result < LINE_LIMIT }
    ensures line { slice_get (gen_lines seed count) line ≡ Some (take result out.new) }
{
    Generated::from_line(seed, count, line)
        .next_line(out)
        .unwrap_or(0)
}

/// The lines of a generated script that are still to come. Making a line costs only the writing of its bytes.
#[derive(Drop)]
pub struct Generated {
    place: Place,
}

impl Model for Generated {
    ghost use Rattle.std.specs.Prelude.{List, ℕ};
    ghost use Rattle.gen_work.specs.Parts.{to_come};

    ghost Value = { List (List ℕ) };

    ghost view = { λ g. to_come g.place.count g.place.part g.place.number g.place.step };
}

impl Generated {
    ghost use Rattle.std.specs.Prelude.{◌≤◌, drop};

    /// All lines of the script for this seed, from 0 to 65,535, and `count` objects.
    pub fn new(seed: u32, count: u32) -> Self
        requires seed { seed < 65536 }
        requires few { line_count count < 2 ^ 32 }
        ensures { result ≡ gen_lines seed count }
    {
        Self::from_line(seed, count, 0)
    }

    /// The lines of the script from line number `line` on, counted from 0.
    fn from_line(seed: u32, count: u32, line: u32) -> Self
        requires seed { seed < 65536 }
        requires few { line_count count < 2 ^ 32 }
        requires known { line ≤ line_count count }
        ensures { result ≡ drop line (gen_lines seed count) }
    {
        Generated {
            place: Place::before(seed, count, line),
        }
    }

    /// Writes the next line at the start of `out`, without its newline, and returns the number of its bytes. After the
    /// last line it returns None and writes nothing. It promises nothing about the bytes of `out` after the line.
    pub fn next_line(&mut self, out: &mut [u8; LINE_LIMIT]) -> Option<usize>
        ensures within { IfSome result (λ bytes. bytes < LINE_LIMIT) }
        ensures line { IfSome result (λ bytes. self.old ≡ take bytes out.new ∷ self.new) }
        ensures end { IfNone result (self.old ≡ []) }
        ensures ended { IfNone result (self.new ≡ []) }
    {
        let place = self.place.ahead()?;
        self.place = place.advanced();
        Some(place.write(out))
    }
}
