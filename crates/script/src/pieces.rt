//! Cuts a line into the pieces between its separators.

ghost use Rattle.std.specs.Prelude.{◌≡◌, ◌∷◌, ◌<◌, ◌==◌, length, position, IfSome};
ghost use Rattle.pud_defs.specs.StateMachine.Grammar.{split_at};
ghost use Rattle.script.specs.Pieces.{pieces_of};

/// The index of the first separator. None if there is none.
fn first_separator(bytes: &[u8], separator: u8) -> Option<usize>
    ensures { result ≡ position (λ b. b == separator) bytes.now }
{
    bytes.iter().position(|byte| *byte == separator)
}

/// The bytes before the first separator, and the bytes after it. If there is no separator: all bytes, and None.
#[tactic(auto, using(crate::proofs::Cuts::cut_there, crate::proofs::Cuts::cut_nowhere, crate::proofs::Cuts::is_within))]
pub(crate) fn cut(bytes: &[u8], separator: u8) -> (&[u8], Option<&[u8]>)
    ensures pieces { split_at separator bytes.now ≡ result.0.now ∷ pieces_of separator result.1 }
    ensures shorter { IfSome result.1 (λ rest. length rest.now < length bytes.now) }
{
    match first_separator(bytes, separator) {
        Some(end) => (&bytes[..end], Some(&bytes[end + 1..])),
        None => (bytes, None),
    }
}
