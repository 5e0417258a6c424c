//! The lines of a case file, with the repeated lines written out.
use crate::trouble::Trouble;
use crate::writing::Writing;
use std::alloc::{AllocError, Global};

/// A line of a case file.
#[derive(Drop)]
pub struct Line {
    /// Its number in the file, counted from 1.
    pub number: u32,
    /// Its text, with the counters of its blocks filled in.
    pub text: String,
}

/// The first word of a text, and what follows the space after it.
pub fn first_word(text: &str) -> (&str, &str) {
    text.split_once(' ').unwrap_or((text, ""))
}

/// The lines of a case file that ask for something, in turn. `let NAME` to `end` names lines, and `use NAME` stands for
/// them. `repeat NAME A B` to `end` stands for its lines with each value from A to B. Empty lines, and lines that begin
/// with `#`, ask for nothing.
pub fn written_out(alloc: Global, text: &str) -> Result<Vec<Line>, Trouble> {
    let source = numbered(alloc, text)?;
    Writing::new(alloc).write_all(&source)
}

fn numbered(alloc: Global, text: &str) -> Result<Vec<Line>, AllocError> {
    let mut lines = Vec::new(alloc);
    let mut number = 0u32;
    for text in text.lines() {
        number = number.saturating_add(1);
        if !text.is_empty() && !text.starts_with('#') {
            let text = String::from_str(alloc, text)?;
            lines.push(Line { number, text })?;
        }
    }
    Ok(lines)
}
