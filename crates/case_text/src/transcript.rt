//! A script with the wanted reply beside each line.
use crate::counters::number_of;
use crate::lines::{Line, first_word};
use crate::trouble::{Trouble, unknown};
use crate::wanted::around_arrow;
use std::alloc::Global;

/// The reply that is wanted to a line of a script without an arrow.
pub const OK: &str = "ok";

/// What has to be printed at one place.
#[derive(Drop)]
pub struct Want {
    /// The number of the line that wants it.
    pub number: u32,
    /// The wanted text, one for all outcomes or one for each.
    pub cells: String,
}

/// A script, and what has to be printed for it, in turn.
#[derive(Drop)]
pub struct Transcript {
    /// What the program reads.
    pub script: String,
    /// What the program has to print, line by line.
    pub wants: Vec<Want>,
}

impl Transcript {
    /// The script without a line, for which nothing is printed.
    pub fn new(alloc: Global) -> Transcript {
        Transcript {
            script: String::new(alloc),
            wants: Vec::new(alloc),
        }
    }

    /// Adds a line. The program reads it and replies to it. If the line begins with its arrow, the program prints it
    /// and does not read it. `newlines N` stands for N empty lines, which have no reply. After `unended` the last line
    /// has no newline. A line that is written in no known way is a trouble.
    pub fn add(&mut self, alloc: Global, line: &Line) -> Result<(), Trouble> {
        let (word, rest) = first_word(&line.text);
        match (word, rest, number_of(rest)) {
            ("newlines", _, Some(count)) => {
                for _ in 0..count {
                    self.script.push_str("\n")?;
                }
                return Ok(());
            }
            ("unended", "", _) => {
                let _newline = self.script.pop();
                return Ok(());
            }
            _ => {}
        }
        let Some(text) = line.text.strip_prefix("  ") else {
            return Err(unknown(alloc, line.number));
        };
        let (read, cells) = around_arrow(text);
        if !read.is_empty() {
            self.script.push_str(read)?;
            self.script.push_str("\n")?;
        }
        let cells = String::from_str(alloc, cells.unwrap_or(OK))?;
        self.wants.push(Want {
            number: line.number,
            cells,
        })?;
        Ok(())
    }
}
