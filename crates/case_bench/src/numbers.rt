//! Reads the numbers in a line.
use case_text::counters::number_of;
use case_text::trouble::{Trouble, amiss};
use std::alloc::Global;

/// The numbers that a text lists, with a space between two. An empty text has none. A word that is no number is a
/// trouble.
pub fn numbers_of(alloc: Global, line: u32, text: &str) -> Result<Vec<u64>, Trouble> {
    let mut numbers = Vec::new(alloc);
    for word in text.split_whitespace() {
        match number_of(word) {
            Some(number) => numbers.push(number)?,
            None => return Err(amiss(line, format!(in alloc; "{word} is no number"))),
        }
    }
    Ok(numbers)
}

/// The number, if it is below 2^32. Any other number is a trouble.
pub fn small(alloc: Global, line: u32, number: u64) -> Result<u32, Trouble> {
    match u32::try_from(number) {
        Ok(number) => Ok(number),
        Err(_) => Err(amiss(line, format!(in alloc; "{number} is too large"))),
    }
}
