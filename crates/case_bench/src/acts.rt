//! What the lines of a case do, except the lines of scripts.
use crate::bench::Bench;
use crate::device::{Copied, Room, poke};
use crate::numbers::{numbers_of, small};
use crate::places::{check_room, fill_names};
use crate::runs::{PROGRAM, Run};
use case_text::counters::number_of;
use case_text::lines::{Line, first_word};
use case_text::transcript::Transcript;
use case_text::trouble::{Trouble, amiss, unknown};
use case_text::wanted::around_arrow;
use pm_mem::Plan;
use pm_model::Host;

/// The status that is wanted of a run that has no arrow.
const DONE: &str = "0";

impl Bench {
    /// Does what the line asks for.
    pub(crate) fn act(&mut self, line: &Line) -> Result<(), Trouble> {
        let number = line.number;
        let (said, cells) = around_arrow(&line.text);
        let (word, rest) = first_word(said);
        match (word, cells) {
            ("$", cells) => self.begin_run(number, rest, cells.unwrap_or(DONE)),
            (_, Some(cells)) => self.check(number, word, rest, cells),
            (_, None) => self.change(number, word, rest),
        }
    }

    /// Compares what the word names with what is wanted.
    fn check(&mut self, number: u32, word: &str, rest: &str, cells: &str) -> Result<(), Trouble> {
        match (word, rest) {
            ("loads", "") => {
                let loads = u64::from(self.host.watched());
                self.check_numbers(number, cells, &[loads])
            }
            (_, "") => Err(unknown(self.alloc, number)),
            ("words", place) => self.check_words(number, place, cells),
            ("bytes", name) if !name.contains(' ') => self.check_length(number, name, cells),
            ("file", _) => {
                let (name, place) = first_word(rest);
                self.check_file(number, name, place, cells)
            }
            _ => Err(unknown(self.alloc, number)),
        }
    }

    /// Changes the device or a file from outside, or remembers or checks the words that have to be kept.
    fn change(&mut self, number: u32, word: &str, rest: &str) -> Result<(), Trouble> {
        match (word, rest) {
            ("words" | "loads" | "bytes" | "file", _) => {
                Err(amiss(number, format!(in self.alloc; "an arrow is missing")))
            }
            ("poke", _) => self.poke_said(number, rest),
            ("watch", place) if !place.is_empty() => {
                let first = self.place_on_device(number, place)?.first;
                self.host.watch(small(self.alloc, number, first)?);
                Ok(())
            }
            ("resize-file", _) => self.set_length(number, rest),
            ("poke-file", _) => self.set_words(number, rest),
            ("plan", _) if !rest.is_empty() => {
                let plan = self.plan_of(number, rest)?;
                let device = Copied::of(self.alloc, &self.host)?;
                self.take(&device, plan)
            }
            ("remember", "") => {
                self.remembered = self.host.read_back(self.alloc)?;
                Ok(())
            }
            ("kept", "") => self.check_kept(number, &[]),
            ("kept", _) => {
                let ranges = self.ranges_of(number, rest)?;
                self.check_kept(number, &ranges)
            }
            _ => {
                let numbers = numbers_of(self.alloc, number, rest)?;
                self.set_up(number, word, &numbers)
            }
        }
    }

    /// Begins to write down a run with these words. The first word, if there is one, is the name of the program.
    fn begin_run(&mut self, number: u32, words: &str, status: &str) -> Result<(), Trouble> {
        if !["", PROGRAM].contains(&first_word(words).0) {
            return Err(unknown(self.alloc, number));
        }
        let mut run = Run {
            number,
            words: Vec::new(self.alloc),
            status: String::from_str(self.alloc, status)?,
            transcript: Transcript::new(self.alloc),
        };
        for word in words.split_whitespace() {
            run.words.push(String::from_str(self.alloc, word)?)?;
        }
        self.run = Some(run);
        Ok(())
    }

    /// Makes a device, or changes it from outside.
    fn set_up(&mut self, number: u32, word: &str, numbers: &[u64]) -> Result<(), Trouble> {
        match (word, numbers) {
            ("device", [frames, id]) => {
                let frames = small(self.alloc, number, *frames)?;
                let device = Copied::formatted(self.alloc, frames, *id)?;
                self.take(&device, Plan::none(self.alloc))
            }
            ("zeroes", [frames]) => {
                let frames = small(self.alloc, number, *frames)?;
                let device = Copied::zeroes(self.alloc, frames);
                self.take(&device, Plan::none(self.alloc))
            }
            ("room", [steps, bytes]) => {
                self.room = Room {
                    steps: small(self.alloc, number, *steps)?,
                    bytes: small(self.alloc, number, *bytes)?,
                };
                Ok(())
            }
            ("cut", [pick]) => {
                self.host.cut(*pick);
                Ok(())
            }
            ("arm", [steps, pick]) => {
                let steps = small(self.alloc, number, *steps)?;
                self.host.arm(steps.max(1), *pick);
                Ok(())
            }
            _ => Err(unknown(self.alloc, number)),
        }
    }

    /// Gives words one durable value each. `W V V ..` gives the number of the first word and the values. `PLACE = V V
    /// ..` gives the name of the words and the values. There, the values may not be more than the words from the first
    /// named one to the end of what the name is a part of.
    fn poke_said(&mut self, number: u32, said: &str) -> Result<(), Trouble> {
        let Some((name, values)) = said.split_once(" = ") else {
            let numbers = numbers_of(self.alloc, number, said)?;
            let [first, values @ ..] = numbers.as_slice() else {
                return Err(unknown(self.alloc, number));
            };
            return self.poke_all(number, *first, values);
        };
        let place = self.place_on_device(number, name)?;
        let values = fill_names(self.alloc, number, self.layout(), values)?;
        let values = numbers_of(self.alloc, number, &values)?;
        check_room(self.alloc, number, name, place, values.len())?;
        self.poke_all(number, place.first, &values)
    }

    /// Gives each word from this one on one durable value.
    fn poke_all(&mut self, number: u32, first: u64, values: &[u64]) -> Result<(), Trouble> {
        let mut at = small(self.alloc, number, first)?;
        for value in values {
            if !poke(&mut self.host, at, *value) {
                return Err(amiss(number, format!(in self.alloc; "there is no word {at}")));
            }
            at = at.saturating_add(1);
        }
        Ok(())
    }

    /// The plan that the words list: each `cut` with a step and a pick, each `fail` with a call, or `nothing`.
    fn plan_of(&self, number: u32, words: &str) -> Result<Plan, Trouble> {
        let mut plan = Plan::none(self.alloc);
        if words == "nothing" {
            return Ok(plan);
        }
        let words: Vec<&str> = words.split_whitespace().collect(self.alloc)?;
        for part in words.chunk_by(|_, next| number_of(next).is_some()) {
            let word = part.first().copied().unwrap_or("");
            let mut numbers = part.iter().skip(1).filter_map(|said| number_of(said));
            match (word, part.len(), numbers.next(), numbers.next()) {
                ("cut", 3, Some(step), Some(pick)) => {
                    let step = small(self.alloc, number, step)?;
                    plan.cuts.push((step, pick))?;
                }
                ("fail", 2, Some(call), None) => {
                    plan.fails.push(small(self.alloc, number, call)?)?;
                }
                _ => {
                    let why = format!(in self.alloc; "{word} cannot be planned like this");
                    return Err(amiss(number, why));
                }
            }
        }
        Ok(plan)
    }

    /// The ranges of words after `but`: names with a comma between two, or numbers and ranges `A..B` with a space
    /// between two.
    fn ranges_of(&self, number: u32, text: &str) -> Result<Vec<(u64, u64)>, Trouble> {
        let mut ranges = Vec::new(self.alloc);
        let Some(said) = text.strip_prefix("but ") else {
            return Err(unknown(self.alloc, number));
        };
        for part in said.split(", ") {
            if part.starts_with(|letter: char| letter.is_ascii_digit()) {
                for word in part.split_whitespace() {
                    let (first, last) = word.split_once("..").unwrap_or((word, word));
                    match (number_of(first), number_of(last)) {
                        (Some(first), Some(last)) => ranges.push((first, last))?,
                        _ => return Err(unknown(self.alloc, number)),
                    }
                }
            } else {
                let place = self.place_on_device(number, part)?;
                ranges.push((place.first, place.last()))?;
            }
        }
        Ok(ranges)
    }
}
