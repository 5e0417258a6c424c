//! The words of a file, read piece by piece.
ghost use Rattle.std.specs.Prelude.{◌≡◌, ℕ, ◌+◌, ◌*◌, ◌/◌, ◌<◌, ◌≤◌, ◌^◌, true, length, take, slice_index, vec_len, IfOk, OnOk};
ghost use Rattle.std.specs.Io.KnownBytes.{ReadConsumes};
ghost use Rattle.pm_file.specs.Reach.{TakesWord};
ghost use Rattle.pm_file.specs.Spelling.{word_of, Fills, GoesOn, ReadsWords};

use crate::storage_fault::StorageFault;
use std::alloc::AllocError;
use std::io;
use std::io::{Error, ErrorKind, Read};

const WORD_BYTES: usize = 8;

const PIECE_WORDS: usize = 8_192;

const PIECE_BYTES: usize = WORD_BYTES * PIECE_WORDS;

/// Reads `count` words into an empty row, or as many as the file has. The row ends with the last word that is not
/// zero.
///
/// # Errors
///
/// `Memory` if allocation failed. `Failed` if the file failed.
pub(crate) fn read_words<F: Read>(
    file: &mut F,
    count: usize,
    words: &mut Vec<u64>,
) -> Result<(), StorageFault>
    requires { vec_len words.old ≡ 0 }
    ensures words { OnOk result (ReadsWords count
        (F.remaining file.old) (F.remaining file.new) words.new.items) }
    ensures len { vec_len words.new ≤ count }
{
    let mut piece = [0u8; PIECE_BYTES];
    let mut first = 0;
    while first < count {
        let more = PIECE_WORDS.min(count - first);
        let bytes = more * WORD_BYTES;
        if read_piece(file, &mut piece[..bytes], first, words)? < bytes {
            return Ok(());
        }
        first += more;
    }
    Ok(())
}

// Reads a piece, puts its words into the row, and returns how many of its bytes the file gave.
fn read_piece<F: Read>(
    file: &mut F,
    piece: &mut [u8],
    first: usize,
    words: &mut Vec<u64>,
) -> Result<usize, StorageFault>
    requires before { vec_len words.old ≤ first }
    requires fits { first + length piece.old / 8 < 2 ^ 64 }
    ensures bytes { IfOk result (λ filled. Fills
        (F.remaining file.old) (F.remaining file.new) filled piece.new) }
    ensures words { OnOk result (GoesOn first (length piece.new / 8)
        piece.new words.old.items words.new.items) }
    ensures len { vec_len words.new ≤ first + length piece.new / 8 }
{
    let filled = fill(file, piece)?;
    take_words(piece, first, words)?;
    Ok(filled)
}

// Puts the words of a piece into the row, from `first` on. The row then ends with the last word that is not zero.
fn take_words(piece: &[u8], first: usize, words: &mut Vec<u64>) -> Result<(), AllocError>
    requires before { vec_len words.old ≤ first }
    requires fits { first + length piece.now / 8 < 2 ^ 64 }
    ensures words { OnOk result (GoesOn first (length piece.now / 8)
        piece.now words.old.items words.new.items) }
    ensures len { vec_len words.new ≤ first + length piece.now / 8 }
{
    if is_blank(piece) {
        return Ok(());
    }
    for place in 0..piece.len() / WORD_BYTES {
        let word = word_at(piece, place);
        if word != 0 {
            put_word(words, first + place, word)?;
        }
    }
    Ok(())
}

// Whether each word of the piece is zero. All of its bytes are read, since a loop without an early end takes several
// at once.
fn is_blank(piece: &[u8]) -> bool
    ensures { result ≡ true → (place : ℕ) → place < length piece.now / 8 → word_of piece.now place ≡ 0 }
{
    let mut any = 0;
    for byte in piece {
        any |= *byte;
    }
    any == 0
}

fn word_at(piece: &[u8], place: usize) -> u64
    requires { 8 * place + 8 ≤ length piece.now }
    ensures { result ≡ word_of piece.now place }
{
    let mut bytes = [0u8; WORD_BYTES];
    let from = place * WORD_BYTES;
    bytes.copy_from_slice(&piece[from..from + WORD_BYTES]);
    u64::from_le_bytes(bytes)
}

// Puts a word after the row's end, with zeroes before it.
fn put_word(words: &mut Vec<u64>, at: usize, word: u64) -> Result<(), AllocError>
    requires { vec_len words.old ≤ at }
    ensures put { OnOk result (TakesWord at word words.old.items words.new.items) }
    ensures len { vec_len words.new ≤ at + 1 }
{
    words.resize(at, 0)?;
    words.push(word)?;
    Ok(())
}

// Fills the piece from the file, with zeroes after the file's end. Returns how many bytes the file gave.
fn fill<F: Read>(file: &mut F, piece: &mut [u8]) -> io::Result<usize>
    ensures { IfOk result (λ filled. Fills
        (F.remaining file.old) (F.remaining file.new) filled piece.new) }
{
    let mut filled = 0;
    while filled < piece.len() {
        let count = read_once(file, &mut piece[filled..])?;
        if count == 0 {
            clear_from(piece, filled);
            return Ok(filled);
        }
        filled += count;
    }
    Ok(filled)
}

/// Reads into the piece, and returns how many bytes came: 0 at the end.
///
/// # Errors
///
/// The file failed, or it was interrupted each time.
pub(crate) fn read_once<F: Read>(file: &mut F, piece: &mut [u8]) -> io::Result<usize>
    ensures within { IfOk result (λ count. count ≤ length piece.new) }
    ensures bytes { ReadConsumes (F.remaining file.old) (F.remaining file.new) result piece.new }
{
    for _ in 0..u64::MAX {
        match file.read(piece) {
            Err(error) if error.kind() == ErrorKind::Interrupted => {}
            answer => return answer,
        }
    }
    Err(Error::from(ErrorKind::Interrupted))
}

// Puts zeroes from a place on.
fn clear_from(piece: &mut [u8], from: usize)
    requires { from ≤ length piece.old }
    ensures before { take from piece.new ≡ take from piece.old }
    ensures zeroes { (at : ℕ) → from ≤ at → slice_index piece.new at ≡ 0 }
{
    piece[from..].fill(0);
}
