//! Places in a generated script, and the numbers of its objects.

ghost use Rattle.std.specs.Prelude.{◌≡◌, ◌<◌, ◌≤◌, ◌+◌, ◌^◌, ℕ, length, take, drop, slice_get, Some, [], IfSome, IfNone};
ghost use Rattle.pud_defs.specs.declared.layout.TheConstants.{LINE_LIMIT};
ghost use Rattle.gen_work.specs.GenLines.{next_number, number_at, gen_lines, line_count};
ghost use Rattle.gen_work.specs.Parts.{part_lines, to_come, lines_before};

use crate::lines::{write_closing_line, write_object_line, write_opening_line};
use pud_defs::layout::LINE_LIMIT;

/// How many lines come before the objects.
const OPENING_LINES: u32 = 3;

/// How many lines each object has.
const OBJECT_LINES: u32 = 5;

/// How many lines come after the objects.
const CLOSING_LINES: u32 = 8;

/// The number of the next object, from the number of the object before it.
fn next_number(number: u32) -> u32
    requires { number < 65536 }
    ensures next { result ≡ next_number number }
    ensures within { result < 65536 }
{
    (25_173 * number + 13_849) % 65_536
}

/// The number of the object. At 0 it is the seed.
fn number_at(seed: u32, object: u32) -> u32
    requires { seed < 65536 }
    ensures number { result ≡ number_at seed object }
    ensures within { result < 65536 }
{
    let mut number = seed;
    for _object in 0..object {
        number = next_number(number);
    }
    number
}

/// A place in the script: the first lines of one part are done, and all lines after them are still to come.
#[derive(Clone, Copy)]
pub(crate) struct Place {
    /// How many objects the script has.
    count: u32,
    /// The part: 0 is before the objects, then comes each object, and one more part comes after them.
    part: u32,
    /// The number of the object that the part is. The other parts have a number too, but do not use it.
    number: u32,
    /// How many lines of the part are done.
    step: u32,
    ghost few: { line_count count < 2 ^ 32 },
    ghost known: { part ≤ count + 1 },
    ghost short: { number < 65536 },
    ghost within: { step ≤ length (part_lines count part number) },
}

/// How many lines the part has.
fn part_length(count: u32, part: u32) -> u32
    ensures { (number : ℕ) → length (part_lines count part number) ≡ result }
{
    if part == 0 {
        OPENING_LINES
    } else if part <= count {
        OBJECT_LINES
    } else {
        CLOSING_LINES
    }
}

/// The part that contains the line, and how many lines of this part come before the line.
fn part_of(count: u32, line: u32) -> (u32, u32)
    requires few { line_count count < 2 ^ 32 }
    requires known { line ≤ line_count count }
    ensures line { lines_before result.0 + result.1 ≡ line }
    ensures known { result.0 ≤ count + 1 }
    ensures within { (number : ℕ) → result.1 ≤ length (part_lines count result.0 number) }
{
    if line < OPENING_LINES {
        return (0, line);
    }
    let object = ((line - OPENING_LINES) / OBJECT_LINES).min(count);
    (object + 1, line - OPENING_LINES - OBJECT_LINES * object)
}

impl Place {
    /// The place before line number `line`, counted from 0.
    pub(crate) fn before(seed: u32, count: u32, line: u32) -> Place
        requires seed { seed < 65536 }
        requires few { line_count count < 2 ^ 32 }
        requires known { line ≤ line_count count }
        ensures { to_come result.count result.part result.number result.step ≡ drop line (gen_lines seed count) }
    {
        let (part, step) = part_of(count, line);
        Place {
            count,
            part,
            number: number_at(seed, part),
            step,
        }
    }

    /// The place before the next line, within the part that contains this line. None if no line is left.
    pub(crate) fn ahead(self) -> Option<Place>
        ensures same { IfSome result (λ p. to_come p.count p.part p.number p.step ≡ to_come self.count self.part self.number self.step) }
        ensures left { IfSome result (λ p. p.step < length (part_lines p.count p.part p.number)) }
        ensures none { IfNone result (to_come self.count self.part self.number self.step ≡ []) }
    {
        if self.step < part_length(self.count, self.part) {
            Some(self)
        } else if self.part <= self.count {
            Some(Place {
                count: self.count,
                part: self.part + 1,
                number: next_number(self.number),
                step: 0,
            })
        } else {
            None
        }
    }

    /// Writes the line that follows this place at the start of `out`, and returns the number of its bytes.
    pub(crate) fn write(self, out: &mut [u8; LINE_LIMIT]) -> usize
        requires left { self.step < length (part_lines self.count self.part self.number) }
        ensures within { result < LINE_LIMIT }
        ensures line { slice_get (part_lines self.count self.part self.number) self.step ≡ Some (take result out.new) }
    {
        if self.part == 0 {
            write_opening_line(self.step, out)
        } else if self.part <= self.count {
            write_object_line(self.part, self.number, self.step, out)
        } else {
            write_closing_line(self.step, out)
        }
    }

    /// The place after the line that follows this place.
    pub(crate) fn advanced(self) -> Place
        requires left { self.step < length (part_lines self.count self.part self.number) }
        ensures { to_come result.count result.part result.number result.step ≡ to_come self.count self.part self.number (self.step + 1) }
    {
        Place {
            count: self.count,
            part: self.part,
            number: self.number,
            step: self.step + 1,
        }
    }
}
