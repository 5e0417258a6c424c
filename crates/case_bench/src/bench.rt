//! A bench: a device in memory, the run that is being written down for it, and the outcomes that agree so far.
use crate::device::{Copied, Room};
use crate::layouts::Layout;
use crate::places::{Place, place_of};
use crate::program::Program;
use crate::runs::{CUT, Run};
use case_text::lines::Line;
use case_text::trouble::{Trouble, amiss};
use case_text::wanted::{around_arrow, count_cells};
use pm_mem::{MemHost, Plan};
use pm_model::Host;
use pud_defs::layout::{FRAME_WORDS, PUDDLE_RECORD_WORDS, device_words};
use std::alloc::Global;

/// The statuses of a run that met a fault: a call failed, or power was lost while the program started.
const FAULTS: [u8; 2] = [5, 6];

/// How many frames the device has with which a case begins.
const FRAMES: u32 = 4;

/// The machine id of this device.
const MACHINE: u64 = 7;

/// The room that this device has.
const ROOM: Room = Room {
    steps: 65_536,
    bytes: 65_536,
};

/// How many words a device has for each of its frames: the frame, and the record of its puddle.
const FRAME_SHARE: u32 = FRAME_WORDS + PUDDLE_RECORD_WORDS;

/// A device in memory, with what is to be done on it and what was seen.
#[derive(Drop)]
pub struct Bench {
    pub(crate) alloc: Global,
    pub(crate) host: MemHost,
    pub(crate) room: Room,
    /// How many of the printed bytes were compared.
    pub(crate) heard: usize,
    /// The newest value that each word had when the words were remembered.
    pub(crate) remembered: Vec<u64>,
    /// The outcomes that agree with all that was seen, by their numbers.
    pub(crate) agreeing: Vec<usize>,
    /// How many outcomes there are.
    pub(crate) outcomes: usize,
    /// The run whose script is being written down.
    pub(crate) run: Option<Run>,
    /// How often the program was run.
    pub(crate) runs: u32,
    /// Whether a run met a fault, or power was lost in a line.
    pub(crate) is_met: bool,
}

impl Bench {
    /// A bench with a formatted device of four frames, and with one outcome.
    pub fn new(alloc: Global) -> Result<Bench, Trouble> {
        let device = Copied::formatted(alloc, FRAMES, MACHINE)?;
        Ok(Bench {
            alloc,
            host: device.host(alloc, ROOM, Plan::none(alloc))?,
            room: ROOM,
            heard: 0,
            remembered: Vec::new(alloc),
            agreeing: Vec::from_array(alloc, [0])?,
            outcomes: 1,
            run: None,
            runs: 0,
            is_met: false,
        })
    }

    /// Carries out the lines, in turn.
    pub fn carry_out<P: Program>(&mut self, program: &P, lines: &[Line]) -> Result<(), Trouble> {
        for line in lines {
            self.check_line(line)?;
            if !self.is_of_script(line)? {
                self.finish(program)?;
                self.act(line)?;
            }
        }
        self.finish(program)
    }

    /// Checks that no counter is left in the line, and that it has one cell for each outcome or one for all.
    fn check_line(&self, line: &Line) -> Result<(), Trouble> {
        if line.text.contains('<') {
            let why = format!(in self.alloc; "no counter has this name");
            return Err(amiss(line.number, why));
        }
        let cells = around_arrow(&line.text).1.map_or(1, count_cells);
        if cells != 1 && cells != self.outcomes {
            let why = format!(in self.alloc; "a cell for each outcome is missing");
            return Err(amiss(line.number, why));
        }
        Ok(())
    }

    /// Where the records of the device stand. The device has as many frames as it was made with, whatever its words
    /// are.
    pub(crate) fn layout(&self) -> Layout {
        let frames = self.host.words().saturating_sub(device_words(0)) / FRAME_SHARE;
        Layout::Device {
            frames: u64::from(frames),
        }
    }

    /// The words of the device that a text in the line with this number names.
    pub(crate) fn place_on_device(&self, number: u32, text: &str) -> Result<Place, Trouble> {
        place_of(self.alloc, number, self.layout(), text)
    }

    /// Takes another device, with this plan.
    pub(crate) fn take(&mut self, device: &Copied, plan: Plan) -> Result<(), Trouble> {
        self.host = device.host(self.alloc, self.room, plan)?;
        self.heard = 0;
        Ok(())
    }

    /// Adds the line to the run that is being written down, if it is a line of a script. The result tells whether it is
    /// one.
    fn is_of_script(&mut self, line: &Line) -> Result<bool, Trouble> {
        let word = line.text.split(' ').next().unwrap_or("");
        if !["", "newlines", "unended"].contains(&word) {
            return Ok(false);
        }
        let Some(run) = &mut self.run else {
            let why = format!(in self.alloc; "this line belongs to no run");
            return Err(amiss(line.number, why));
        };
        run.transcript.add(self.alloc, line)?;
        Ok(true)
    }

    /// Carries out the run that was written down, if there is one.
    fn finish<P: Program>(&mut self, program: &P) -> Result<(), Trouble> {
        let Some(run) = self.run.take() else {
            return Ok(());
        };
        self.host
            .refill(self.alloc, run.transcript.script.as_bytes())?;
        let status = program.run(self.alloc, &run.words, &mut self.host);
        self.runs = self.runs.saturating_add(1);
        let said = self.listen(run.number)?;
        if FAULTS.contains(&status) || said.lines().any(|line| line == CUT) {
            self.is_met = true;
        }
        self.check_said(&run, &said)?;
        if run.may_fault() {
            return Ok(());
        }
        self.check_numbers(run.number, &run.status, &[u64::from(status)])
    }

    /// What was printed since the last run.
    fn listen(&mut self, number: u32) -> Result<String, Trouble> {
        let said = self.host.said();
        let news = said.get(self.heard..).unwrap_or(&[]);
        self.heard = said.len();
        match str::from_utf8(news) {
            Ok(news) => Ok(String::from_str(self.alloc, news)?),
            Err(_) => Err(amiss(number, format!(in self.alloc; "the output is not text"))),
        }
    }
}
