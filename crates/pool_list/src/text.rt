//! Texts of pools and puddles, made part by part: bytes on the stack, to which names, numbers, modes and identifiers
//! are added.

ghost use Rattle.std.specs.Prelude.{◌≡◌, ◌+◌, ◌≤◌, ◌++◌, length, decimal};
ghost use Rattle.arrayvec.specs.ArrayVec.{array_vec_len};
ghost use Rattle.pud_defs.specs.declared.records.TheConstants.{NAME_BYTES};
ghost use Rattle.pud_defs.specs.Formats.Identifiers.{puddle_uuid, uuid_text};
ghost use Rattle.pud_defs.specs.Output.Listing.{octal_digit, mode_text, name_text};
ghost use Rattle.pool_list.specs.declared.text.TheConstants.{TEXT_LIMIT};
ghost use Rattle.pool_list.specs.Listed.{field_text, rights_text, puddles_text, record_text};

use arrayvec::ArrayVec;
use itoa::Buffer;
use pud_defs::records::{Name, PoolRecord};
use uid_make::{print_uuid, puddle_uuid};

/// How many bytes a text has at most. That of a pool in the list has at most 91, and the line of a puddle at most 103.
pub const TEXT_LIMIT: usize = 128;

/// The bytes of a text, at most [`TEXT_LIMIT`].
pub type Text = ArrayVec<u8, TEXT_LIMIT>;

/// Adds the bytes. The text has room for them.
pub fn add(text: &mut Text, bytes: &[u8])
    requires { array_vec_len text.old + length bytes.now ≤ TEXT_LIMIT }
    ensures { text.new.items ≡ text.old.items ++ bytes.now }
{
    for byte in bytes {
        text.push(*byte);
    }
}

/// Adds the name without the zeros that fill it, at most 16 bytes. The text has room for 16.
pub fn add_name(text: &mut Text, name: &Name)
    requires { array_vec_len text.old + NAME_BYTES ≤ TEXT_LIMIT }
    ensures name { text.new.items ≡ text.old.items ++ name_text name.now }
    ensures within { array_vec_len text.new ≤ array_vec_len text.old + NAME_BYTES }
{
    for byte in name {
        if *byte != 0 {
            text.push(*byte);
        }
    }
}

/// Adds the decimal digits of the number, at most 10. The text has room for 10.
pub fn add_number(text: &mut Text, number: u32)
    requires { array_vec_len text.old + 10 ≤ TEXT_LIMIT }
    ensures number { text.new.items ≡ text.old.items ++ decimal number }
    ensures within { array_vec_len text.new ≤ array_vec_len text.old + 10 }
{
    add(text, Buffer::new().format(number).as_bytes());
}

/// Adds the decimal digits of a number of 64 bits, at most 20. The text has room for 20.
pub fn add_long(text: &mut Text, number: u64)
    requires { array_vec_len text.old + 20 ≤ TEXT_LIMIT }
    ensures number { text.new.items ≡ text.old.items ++ decimal number }
    ensures within { array_vec_len text.new ≤ array_vec_len text.old + 20 }
{
    add(text, Buffer::new().format(number).as_bytes());
}

/// The code of the lowest octal digit of the number.
fn octal_digit(number: u32) -> u8
    ensures { result ≡ octal_digit number }
{
    b'0' + (number % 8) as u8
}

/// Adds the lowest nine bits of the mode as three octal digits. The text has room for them.
pub fn add_mode(text: &mut Text, mode: u32)
    requires { array_vec_len text.old + 3 ≤ TEXT_LIMIT }
    ensures { text.new.items ≡ text.old.items ++ mode_text mode }
{
    let digits = [
        octal_digit(mode / 64),
        octal_digit(mode / 8),
        octal_digit(mode),
    ];
    add(text, &digits);
}

/// Adds the identifier of the UUID number on the machine of this id, 36 bytes. The text has room for them.
pub fn add_identifier(text: &mut Text, id: u64, number: u64)
    requires { array_vec_len text.old + 36 ≤ TEXT_LIMIT }
    ensures { text.new.items ≡ text.old.items ++ uuid_text (puddle_uuid id number) }
{
    let mut identifier = [0; 36];
    print_uuid(puddle_uuid(id, number), &mut identifier);
    add(text, &identifier);
}

/// Adds a colon and the number.
fn add_field(text: &mut Text, number: u32)
    requires { array_vec_len text.old + 11 ≤ TEXT_LIMIT }
    ensures field { text.new.items ≡ text.old.items ++ field_text number }
    ensures within { array_vec_len text.new ≤ array_vec_len text.old + 11 }
{
    text.push(b':');
    add_number(text, number);
}

/// Adds owner, group and mode, with a colon before each.
fn add_rights(text: &mut Text, uid: u32, gid: u32, mode: u32)
    requires { array_vec_len text.old + 26 ≤ TEXT_LIMIT }
    ensures rights { text.new.items ≡ text.old.items ++ rights_text uid gid mode }
    ensures within { array_vec_len text.new ≤ array_vec_len text.old + 26 }
{
    add_field(text, uid);
    add_field(text, gid);
    text.push(b':');
    add_mode(text, mode);
}

/// Adds how many puddles the pool has and its identifier, with a colon before each.
fn add_puddles(text: &mut Text, id: u64, number: u64, puddles: u32)
    requires { array_vec_len text.old + 48 ≤ TEXT_LIMIT }
    ensures { text.new.items ≡ text.old.items ++ puddles_text id number puddles }
{
    add_field(text, puddles);
    text.push(b':');
    add_identifier(text, id, number);
}

/// The text of the pool of this record, with so many puddles, on the machine of this id.
#[tactic(auto, unfolding(pud_defs::specs::Output::Listing::described))]
pub(crate) fn pool_text(id: u64, rec: &PoolRecord, puddles: u32) -> Text
    ensures { result.items ≡ record_text id rec.now puddles }
{
    let mut text = Text::new();
    text.push(b' ');
    add_name(&mut text, &rec.name);
    add_rights(&mut text, rec.uid, rec.gid, rec.mode);
    add_puddles(&mut text, id, rec.number, puddles);
    text
}
