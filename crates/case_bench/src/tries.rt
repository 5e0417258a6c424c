//! Loops of tries: lines that are carried out again and again, each time on a copy of the device, with counters that
//! stand for the step that is cut or the call that fails.
use crate::bench::Bench;
use crate::device::Copied;
use crate::program::Program;
use case_text::counters::{Counters, number_of};
use case_text::lines::{Line, first_word};
use case_text::trouble::{Trouble, amiss};
use case_text::wanted::{around_arrow, cell_of, count_cells};
use pm_mem::Plan;
use std::alloc::Global;

/// How many tries a loop may have. A loop with more tries would not end within the time of a test.
const TRIES: u32 = 50_000;

/// A loop of tries.
#[derive(Drop)]
pub struct Loop {
    alloc: Global,
    /// The number of its line.
    number: u32,
    /// The counters of the try that comes next. The counter that counts is the last one.
    counters: Counters,
    /// By how much that counter counts.
    step: u64,
    /// The last value of that counter, or `None` if the first try that meets nothing is the last one.
    last: Option<u64>,
    /// How often each outcome is to come.
    counts: String,
    /// Whether no outcome may come again after a later one.
    is_ordered: bool,
    /// How often each outcome came.
    came: Vec<u64>,
    /// Whether a try met a fault.
    is_met: bool,
}

impl Loop {
    /// The loop for which a line asks: `for K A..B by N P V in any order -> counts`.
    pub fn of(alloc: Global, line: &Line) -> Result<Loop, Trouble> {
        let (said, counts) = around_arrow(&line.text);
        let said = said.strip_prefix("for ").unwrap_or(said);
        let ordered = said.strip_suffix(" in any order");
        let counts = String::from_str(alloc, counts.unwrap_or("+"))?;
        let mut tries = Loop {
            alloc,
            number: line.number,
            counters: Counters::new(alloc),
            step: 1,
            last: None,
            came: vec![in alloc; 0u64; count_cells(&counts)]?,
            counts,
            is_ordered: ordered.is_none(),
            is_met: false,
        };
        tries.read(ordered.unwrap_or(said))?;
        Ok(tries)
    }

    /// Reads the counters: the one that counts, with its range, and then each of the others with its value.
    fn read(&mut self, said: &str) -> Result<(), Trouble> {
        let (name, rest) = first_word(said);
        let (range, rest) = first_word(rest);
        let (first, last) = range.split_once("..").unwrap_or((range, range));
        self.last = number_of(last);
        let first = number_of(first).filter(|_| last.is_empty() || self.last.is_some());
        let Some(first) = first else {
            return Err(self.amiss("the counter and its range are missing"));
        };
        if self.last.is_some_and(|last| last < first) {
            return Err(self.amiss("the first value is above the last"));
        }
        let words: Vec<&str> = rest.split_whitespace().collect(self.alloc)?;
        for pair in words.chunks(2) {
            match (pair.first(), pair.get(1).and_then(|value| number_of(value))) {
                (Some(&"by"), Some(step)) => self.step = step.max(1),
                (Some(name), Some(value)) => self.counters.push(self.number, name, value)?,
                _ => return Err(self.amiss("the counter and its value are missing")),
            }
        }
        self.counters.push(self.number, name, first)
    }

    /// Carries out all tries, each on a copy of the device.
    pub fn run<P: Program>(
        &mut self,
        program: &P,
        bench: &mut Bench,
        device: &Copied,
        lines: &[Line],
    ) -> Result<(), Trouble> {
        let mut latest = 0usize;
        for _try in 0..TRIES {
            let outcome = self.carry_out(program, bench, device, lines)?;
            if self.is_ordered && outcome < latest {
                return Err(self.amiss("an outcome came again after a later one"));
            }
            latest = outcome;
            if let Some(came) = self.came.get_mut(outcome) {
                *came = came.saturating_add(1);
            }
            self.is_met |= bench.is_met;
            let goes_on = bench.is_met || self.last.is_some();
            let last = self.last.unwrap_or(u64::MAX);
            if !goes_on || !self.counters.count_by(self.step, last)? {
                return self.check(outcome);
            }
        }
        Err(self.amiss("there is no end"))
    }

    /// Carries out one try. The result is the number of its outcome.
    fn carry_out<P: Program>(
        &self,
        program: &P,
        bench: &mut Bench,
        device: &Copied,
        lines: &[Line],
    ) -> Result<usize, Trouble> {
        let mut filled = Vec::new(self.alloc);
        for line in lines {
            let text = self.counters.fill(&line.text)?;
            let number = line.number;
            filled.push(Line { number, text })?;
        }
        bench.take(device, Plan::none(self.alloc))?;
        bench.outcomes = self.came.len();
        bench.agreeing = (0..bench.outcomes).collect(self.alloc)?;
        bench.is_met = false;
        match bench.carry_out(program, &filled) {
            Ok(()) => Ok(bench.agreeing.first().copied().unwrap_or(0)),
            Err(Trouble::At(number, why)) => {
                let told = self.counters.told()?;
                Err(amiss(number, format!(in self.alloc; "{why}{told}")))
            }
            Err(Trouble::Memory) => Err(Trouble::Memory),
        }
    }

    /// Checks that a try met a fault, and that each outcome came as often as it is wanted. If the loop ends at the try
    /// that met nothing, this try must have the last outcome.
    fn check(&self, latest: usize) -> Result<(), Trouble> {
        if !self.is_met {
            return Err(self.amiss("nothing was met"));
        }
        if self.last.is_none() && latest.saturating_add(1) != self.came.len() {
            return Err(self.amiss("the try that met nothing does not have the last outcome"));
        }
        for (outcome, came) in self.came.iter().enumerate() {
            let wanted = cell_of(&self.counts, outcome);
            let is_so = match wanted {
                "*" => true,
                "+" => *came > 0,
                _ => number_of(wanted) == Some(*came),
            };
            if !is_so {
                let why = format!(in self.alloc; "the outcomes came {:?} times", self.came);
                return Err(amiss(self.number, why));
            }
        }
        Ok(())
    }

    fn amiss(&self, why: &str) -> Trouble {
        amiss(self.number, String::from_str(self.alloc, why))
    }
}
