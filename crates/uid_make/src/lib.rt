//! The identifiers of pools and puddles: numbers of 128 bits, and their text.
#![tactic(auto)]

ghost use Rattle.std.specs.Prelude.{◌≡◌};
ghost use Rattle.pud_defs.specs.Formats.Identifiers.{puddle_uuid, uuid_text};

use uuid::Uuid;

/// The identifier of UUID number `n` on the machine `id`. Its high 64 bits are the machine, and its low 64 bits are the
/// number. Both are used unchanged: no version and no variant is set.
pub fn puddle_uuid(id: u64, n: u64) -> u128
    ensures { result ≡ puddle_uuid id n }
{
    (u128::from(id) << 64) + u128::from(n)
}

/// Writes the text of the identifier `u` as RFC 9562 has it: 32 hexadecimal digits in lower case, in groups of 8, 4, 4,
/// 4 and 12 with hyphens between them.
pub fn print_uuid(u: u128, out: &mut [u8; 36])
    ensures { out.new ≡ uuid_text u }
{
    let mut buffer = Uuid::encode_buffer();
    let text = Uuid::from_u128(u).hyphenated().encode_lower(&mut buffer);
    out.copy_from_slice(text.as_bytes());
}
