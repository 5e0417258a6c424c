//! Reads the names and the modes of pools.

ghost use Rattle.std.specs.Prelude.{◌≡◌, ◌-◌, ◌≤◌, ◌++◌, ◌&&◌, nat_le, cond, length, replicate, Some, None};
ghost use Rattle.std.specs.List.{list_all};
ghost use Rattle.pud_defs.specs.StateMachine.Grammar.{is_mode_digit, pool_mode, pool_name};
ghost use Rattle.pud_defs.specs.Formats.Names.{is_name_byte};

use pud_defs::records::{NAME_BYTES, Name, is_name_byte};

/// Whether each of the bytes may be part of a name.
fn are_name_bytes(bytes: &[u8]) -> bool
    ensures { result ≡ list_all is_name_byte bytes.now }
{
    bytes.iter().all(|byte| is_name_byte(*byte))
}

/// Whether the bytes are a name: 1 to 16 bytes, each of which may be part of a name.
fn is_name(bytes: &[u8]) -> bool
    ensures { result
        ≡ (nat_le 1 (length bytes.now) && nat_le (length bytes.now) NAME_BYTES
        && list_all is_name_byte bytes.now) }
{
    (1..=NAME_BYTES).contains(&bytes.len()) && are_name_bytes(bytes)
}

/// The bytes, filled up with zeros to 16 bytes.
fn filled(bytes: &[u8]) -> Name
    requires { length bytes.now ≤ NAME_BYTES }
    ensures { result ≡ bytes.now ++ replicate (NAME_BYTES - length bytes.now) 0 }
{
    let mut name = [0; NAME_BYTES];
    name[..bytes.len()].copy_from_slice(bytes);
    name
}

/// Reads the bytes as a name, filled up with zeros to 16 bytes. None if they are no name.
#[tactic(auto, unfolding(pud_defs::specs::StateMachine::Grammar::pool_name))]
pub(crate) fn read_name(bytes: &[u8]) -> Option<Name>
    ensures { result ≡ pool_name bytes.now }
{
    if !is_name(bytes) {
        return None;
    }
    Some(filled(bytes))
}

/// Reads the byte as a digit of a mode: 0, 2, 4 or 6. None if it is another byte.
fn mode_digit(byte: u8) -> Option<u32>
    ensures { result ≡ cond (is_mode_digit byte) (Some (byte - 48)) None }
{
    match byte {
        b'0' | b'2' | b'4' | b'6' => Some(u32::from(byte - b'0')),
        _ => None,
    }
}

/// Reads the bytes as a mode: three such digits, for the owner, the group and others. None if they are no mode.
#[tactic(auto, unfolding(pud_defs::specs::StateMachine::Grammar::pool_mode))]
pub(crate) fn read_mode(bytes: &[u8]) -> Option<u32>
    ensures { result ≡ pool_mode bytes.now }
{
    let [owner, group, others] = bytes else {
        return None;
    };
    Some(mode_digit(*owner)? * 64 + mode_digit(*group)? * 8 + mode_digit(*others)?)
}
