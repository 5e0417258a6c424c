//! Writes the lines of each part of a generated script, one by one.

ghost use Rattle.std.specs.Prelude.{◌≡◌, ◌<◌, ◌≤◌, ◌+◌, ◌%◌, ◌++◌, length, take, codes, decimal, slice_get, Some};
ghost use Rattle.pud_defs.specs.declared.layout.TheConstants.{LINE_LIMIT};
ghost use Rattle.gen_work.specs.GenLines.{opening_lines, object_lines, closing_lines};

use arrayvec::ArrayString;
use itoa::Buffer;
use pud_defs::layout::LINE_LIMIT;

/// The bytes of a line.
type Text = ArrayString<LINE_LIMIT>;

/// Writes the line at the start of `out`, and returns the number of its bytes.
fn write(line: &str, out: &mut [u8; LINE_LIMIT]) -> usize
    requires short { length line.now < LINE_LIMIT }
    ensures within { result < LINE_LIMIT }
    ensures line { take result out.new ≡ line.now }
{
    out[..line.len()].copy_from_slice(line.as_bytes());
    line.len()
}

/// Writes line number `step` of those before the objects, and returns the number of its bytes.
pub(crate) fn write_opening_line(step: u32, out: &mut [u8; LINE_LIMIT]) -> usize
    requires known { step < length opening_lines }
    ensures within { result < LINE_LIMIT }
    ensures line { slice_get opening_lines step ≡ Some (take result out.new) }
{
    match step {
        0 => write("client 0 0 0", out),
        1 => write("type 1 2 0", out),
        _ => write("pool 0 gen 600", out),
    }
}

/// The beginning of a line that sets a field of the object, up to the object's serial.
fn set_line(object: u32) -> Text
    ensures line { result.bytes ≡ codes "set 0 gen " ++ decimal object }
    ensures short { length result.bytes ≤ 20 }
{
    let mut text = Text::new();
    text.push_str("set 0 gen ");
    text.push_str(Buffer::new().format(object));
    text
}

/// The line that sets the object's first field to a pointer. The object's number decides which object it names, from 1
/// to this one.
fn pointer_line(object: u32, number: u32) -> Text
    requires first { 1 ≤ object }
    ensures line { result.bytes ≡ codes "set 0 gen " ++ decimal object ++ codes ".0 @" ++ decimal (number % object + 1) }
    ensures short { length result.bytes < LINE_LIMIT }
{
    let mut text = set_line(object);
    text.push_str(".0 @");
    text.push_str(Buffer::new().format(number % object + 1));
    text
}

/// The line that sets the object's second field to the object's number.
fn number_line(object: u32, number: u32) -> Text
    ensures line { result.bytes ≡ codes "set 0 gen " ++ decimal object ++ codes ".1 " ++ decimal number }
    ensures short { length result.bytes < LINE_LIMIT }
{
    let mut text = set_line(object);
    text.push_str(".1 ");
    text.push_str(Buffer::new().format(number));
    text
}

/// Writes line number `step` of an object with this number, and returns the number of its bytes.
pub(crate) fn write_object_line(
    object: u32,
    number: u32,
    step: u32,
    out: &mut [u8; LINE_LIMIT],
) -> usize
    requires first { 1 ≤ object }
    requires known { step < length (object_lines object number) }
    ensures within { result < LINE_LIMIT }
    ensures line { slice_get (object_lines object number) step ≡ Some (take result out.new) }
{
    match step {
        0 => write("begin 0 gen", out),
        1 => write("new 0 gen 1", out),
        2 => write(pointer_line(object, number).as_str(), out),
        3 => write(number_line(object, number).as_str(), out),
        _ => write("commit 0 gen", out),
    }
}

/// Writes line number `step` of those after the objects, and returns the number of its bytes.
pub(crate) fn write_closing_line(step: u32, out: &mut [u8; LINE_LIMIT]) -> usize
    requires known { step < length closing_lines }
    ensures within { result < LINE_LIMIT }
    ensures line { slice_get closing_lines step ≡ Some (take result out.new) }
{
    match step {
        0 => write("begin 0 gen", out),
        1 => write("root 0 gen 1", out),
        2 => write("commit 0 gen", out),
        3 => write("cut 0", out),
        4 => write("client 0 0 0", out),
        5 => write("export 0 gen gen", out),
        6 => write("import 0 copy gen 600", out),
        _ => write("rewrite copy 1008", out),
    }
}
