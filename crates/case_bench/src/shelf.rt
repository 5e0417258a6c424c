//! Changes files on the shelf from outside, and reads their words.
use crate::bench::Bench;
use crate::layouts::Layout;
use crate::numbers::numbers_of;
use crate::places::{check_room, place_of};
use case_text::lines::first_word;
use case_text::trouble::{Trouble, amiss};
use pud_defs::files::FILE_VERSION_WORD;

impl Bench {
    /// Gives a file on the shelf the length that follows its name, in bytes. If the file becomes longer, zeroes follow
    /// what it had.
    pub(crate) fn set_length(&mut self, number: u32, said: &str) -> Result<(), Trouble> {
        let (name, rest) = first_word(said);
        let numbers = numbers_of(self.alloc, number, rest)?;
        let [length] = numbers.as_slice() else {
            return Err(amiss(number, format!(in self.alloc; "the length is missing")));
        };
        let length = usize::try_from(*length).unwrap_or(usize::MAX);
        let mut bytes = self.file_bytes(number, name)?;
        bytes.truncate(length);
        for _ in bytes.len()..length {
            bytes.push(0)?;
        }
        Ok(self.host.put_shelf(self.alloc, name, bytes.as_slice())?)
    }

    /// Gives words of a file on the shelf other values. Its name is followed by the number of the first word and the
    /// values, or by the name of the words, ` = ` and the values. No value may come after the last whole word of the
    /// file.
    pub(crate) fn set_words(&mut self, number: u32, said: &str) -> Result<(), Trouble> {
        let (name, rest) = first_word(said);
        let old = self.file_bytes(number, name)?;
        let Some((words, values)) = rest.split_once(" = ") else {
            let numbers = numbers_of(self.alloc, number, rest)?;
            let [first, values @ ..] = numbers.as_slice() else {
                return Err(amiss(number, format!(in self.alloc; "a word is missing")));
            };
            return self.write_words(number, name, &old, *first, values);
        };
        let place = place_of(self.alloc, number, file_layout(&old), words)?;
        let values = numbers_of(self.alloc, number, values)?;
        check_room(self.alloc, number, words, place, values.len())?;
        self.write_words(number, name, &old, place.first, &values)
    }

    /// Gives the words of this file, from the first one on, these values. `old` are the bytes that the file had.
    fn write_words(
        &mut self,
        number: u32,
        name: &str,
        old: &[u8],
        first: u64,
        values: &[u64],
    ) -> Result<(), Trouble> {
        let first = usize::try_from(first).unwrap_or(usize::MAX);
        let words = old.len() / 8;
        if first.saturating_add(values.len()) > words {
            let at = first.max(words);
            return Err(amiss(
                number,
                format!(in self.alloc; "there is no word {at} of {name}"),
            ));
        }
        let mut bytes = Vec::new(self.alloc);
        for (at, word) in old.chunks(8).enumerate() {
            match at.checked_sub(first).and_then(|place| values.get(place)) {
                Some(value) => bytes.extend_from_slice(&value.to_le_bytes())?,
                None => bytes.extend_from_slice(word)?,
            }
        }
        Ok(self.host.put_shelf(self.alloc, name, bytes.as_slice())?)
    }
}

/// The word that eight bytes make, the lowest byte first.
pub fn word_of(bytes: &[u8]) -> u64 {
    u64::from_le_bytes(bytes.try_into().unwrap_or([0; 8]))
}

/// Where the records of an export file stand, by the version and the numbers of types and puddles that its words give.
pub fn file_layout(bytes: &[u8]) -> Layout {
    let mut words = bytes.chunks_exact(8).skip(FILE_VERSION_WORD as usize);
    let version = words.next().map_or(0, word_of);
    let types = words.next().map_or(0, word_of);
    let puddles = words.next().map_or(0, word_of);
    Layout::File {
        version,
        types,
        puddles,
    }
}
