//! Names with numbers in them. A name is made of words with `#` for each number, as in `puddle # slot # field #`. A
//! text with that name has numbers there.
use crate::counters::number_of;
use std::alloc::{AllocError, Global};

/// What stands for a number in a name.
const NUMBER: &str = "#";

/// The most numbers that a name has.
pub const NUMBERS: usize = 3;

/// A text that is taken apart.
#[derive(Drop)]
pub struct Said {
    /// The text with `#` for each of its numbers.
    pub name: String,
    /// Its numbers, and zeroes after them. If it has more numbers than a name may have, only the first ones are here.
    pub numbers: [u64; NUMBERS],
}

/// Takes a text apart.
pub fn taken_apart(alloc: Global, text: &str) -> Result<Said, AllocError> {
    let mut name = String::new(alloc);
    let mut numbers = [0; NUMBERS];
    let mut places = numbers.iter_mut();
    for word in text.split(' ') {
        if !name.is_empty() {
            name.push_str(" ")?;
        }
        match number_of(word) {
            Some(number) => {
                name.push_str(NUMBER)?;
                if let Some(place) = places.next() {
                    *place = number;
                }
            }
            None => name.push_str(word)?,
        }
    }
    Ok(Said { name, numbers })
}

/// Whether the text has the words of the name, in turn, whatever numbers stand between them.
pub fn has_words_of(name: &str, text: &str) -> bool {
    let mut words = text.split(' ').filter(|word| number_of(word).is_none());
    for wanted in name.split(' ') {
        if wanted != NUMBER && words.next() != Some(wanted) {
            return false;
        }
    }
    words.next().is_none()
}
