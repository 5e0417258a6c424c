//! Blocks of lines, written out one line after the other.
use crate::counters::{Counters, number_of};
use crate::lines::{Line, first_word};
use crate::trouble::{Trouble, amiss};
use std::alloc::Global;

/// How many steps it may take to write out a file.
const STEPS: u32 = 1_000_000;

/// A block that is being written out. Its places are counted in the lines that ask for something.
#[derive(Drop)]
enum Block {
    /// Lines that were named, and the place at which to go on after them.
    Used(usize),
    /// Lines that are repeated: the place of the first line, and the last value of their counter.
    Repeated(usize, u64),
}

/// What is written out so far.
#[derive(Drop)]
pub struct Writing {
    alloc: Global,
    /// The place of the line that comes next.
    place: usize,
    /// The blocks in which that line stands, the innermost last.
    blocks: Vec<Block>,
    /// A counter for each block that is repeated.
    counters: Counters,
    /// The places of the blocks that were used.
    used: Vec<usize>,
    lines: Vec<Line>,
}

impl Writing {
    /// The state in which nothing is written out.
    pub fn new(alloc: Global) -> Writing {
        Writing {
            alloc,
            place: 0,
            blocks: Vec::new(alloc),
            counters: Counters::new(alloc),
            used: Vec::new(alloc),
            lines: Vec::new(alloc),
        }
    }

    /// Writes out all of the source. It is a trouble if that takes too many steps.
    pub fn write_all(mut self, source: &[Line]) -> Result<Vec<Line>, Trouble> {
        for _step in 0..STEPS {
            let Some(line) = source.get(self.place) else {
                return self.finish(source);
            };
            self.write(source, line)?;
        }
        let why = format!(in self.alloc; "there are too many lines");
        Err(amiss(1, why))
    }

    /// What is written out. It is a trouble if a block with a name was not used.
    fn finish(self, source: &[Line]) -> Result<Vec<Line>, Trouble> {
        for (place, line) in source.iter().enumerate() {
            if first_word(&line.text).0 == "let" && !self.used.contains(&place) {
                let why = format!(in self.alloc; "these lines are not used");
                return Err(amiss(line.number, why));
            }
        }
        Ok(self.lines)
    }

    fn write(&mut self, source: &[Line], line: &Line) -> Result<(), Trouble> {
        let (word, rest) = first_word(&line.text);
        match word {
            "let" => self.place = self.place_after(source, line)?,
            "use" => self.go_to(source, line, rest)?,
            "repeat" => self.repeat(line, rest)?,
            "end" if rest.is_empty() => self.end(line)?,
            _ => {
                let text = self.counters.fill(&line.text)?;
                let number = line.number;
                self.lines.push(Line { number, text })?;
                self.place = self.place.saturating_add(1);
            }
        }
        Ok(())
    }

    /// The place after the block that this line begins. This line is the next one.
    fn place_after(&self, source: &[Line], begin: &Line) -> Result<usize, Trouble> {
        let mut depth = 0u32;
        for (place, line) in source.iter().enumerate().skip(self.place) {
            match first_word(&line.text).0 {
                "let" | "repeat" => depth = depth.saturating_add(1),
                "end" => depth = depth.saturating_sub(1),
                _ => {}
            }
            if depth == 0 {
                return Ok(place.saturating_add(1));
            }
        }
        let why = format!(in self.alloc; "there is no end");
        Err(amiss(begin.number, why))
    }

    /// Goes on with the lines that have this name.
    fn go_to(&mut self, source: &[Line], line: &Line, name: &str) -> Result<(), Trouble> {
        let mut found: Option<usize> = None;
        for (place, named) in source.iter().enumerate() {
            if first_word(&named.text) == ("let", name) && found.replace(place).is_some() {
                let why = format!(in self.alloc; "several blocks have this name");
                return Err(amiss(line.number, why));
            }
        }
        let Some(place) = found else {
            let why = format!(in self.alloc; "no lines have this name");
            return Err(amiss(line.number, why));
        };
        self.used.push(place)?;
        self.blocks.push(Block::Used(self.place.saturating_add(1)))?;
        self.place = place.saturating_add(1);
        Ok(())
    }

    /// Goes on with the lines below, with the first value of the counter.
    fn repeat(&mut self, line: &Line, counter: &str) -> Result<(), Trouble> {
        let counter = self.counters.fill(counter)?;
        let (name, range) = first_word(&counter);
        let (first, last) = first_word(range);
        let (Some(first), Some(last)) = (number_of(first), number_of(last)) else {
            let why = format!(in self.alloc;
                "the counter, its first and its last value are missing"
            );
            return Err(amiss(line.number, why));
        };
        if first > last {
            let why = format!(in self.alloc; "the first value is above the last");
            return Err(amiss(line.number, why));
        }
        self.place = self.place.saturating_add(1);
        self.counters.push(line.number, name, first)?;
        self.blocks.push(Block::Repeated(self.place, last))?;
        Ok(())
    }

    /// Goes on at the end of a block: with its lines once more, or after the block.
    fn end(&mut self, line: &Line) -> Result<(), Trouble> {
        self.place = self.place.saturating_add(1);
        match self.blocks.pop() {
            Some(Block::Used(after)) => self.place = after,
            Some(Block::Repeated(first, last)) => {
                if self.counters.count_by(1, last)? {
                    self.place = first;
                    self.blocks.push(Block::Repeated(first, last))?;
                }
            }
            None => {
                let why = format!(in self.alloc; "no block ends here");
                return Err(amiss(line.number, why));
            }
        }
        Ok(())
    }
}
