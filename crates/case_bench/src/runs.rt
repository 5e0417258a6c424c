//! Runs of the program, and what they have to print.
use case_text::transcript::Transcript;
use case_text::wanted::cell_of;

/// What is wanted if nothing is to be printed, and what is found if nothing was printed.
pub const NOTHING: &str = "nothing";

/// The reply to a line in which power was lost.
pub const CUT: &str = "cut";

/// The name of the program, with which the words of a run begin.
pub const PROGRAM: &str = "puddle";

/// The wanted status of a run that may meet a fault.
const ANY: &str = "any";

/// What is wanted if any text may be printed.
const ANY_TEXT: &str = "*";

/// A run of the program that is still to come, with its script.
#[derive(Drop)]
pub struct Run {
    /// The number of the line that begins it.
    pub number: u32,
    /// The words of the command line.
    pub words: Vec<String>,
    /// The wanted status, one for all outcomes or one for each, or `any`.
    pub status: String,
    /// What it reads, and what it has to print.
    pub transcript: Transcript,
}

/// What was printed at a place where something else is wanted.
#[derive(Clone, Copy)]
pub struct Difference<'a> {
    /// How many texts agreed before it.
    pub place: usize,
    /// What was printed there.
    pub found: &'a str,
}

impl Run {
    /// Whether the run may meet a fault. Then what it prints is compared only up to the fault.
    pub fn may_fault(&self) -> bool {
        self.status.as_str() == ANY
    }

    /// Where what was printed first differs from what is wanted in the outcome with this number, or `None` if it does
    /// not differ.
    pub fn difference<'a>(&self, said: &'a str, outcome: usize) -> Option<Difference<'a>> {
        let mut lines = said.lines();
        for (place, want) in self.transcript.wants.iter().enumerate() {
            let cell = cell_of(&want.cells, outcome);
            if cell != NOTHING {
                let found = lines.next().unwrap_or(NOTHING);
                if found != cell && (cell != ANY_TEXT || found == NOTHING) {
                    if self.may_fault() && (found == NOTHING || found == CUT) {
                        return None;
                    }
                    return Some(Difference { place, found });
                }
            }
        }
        let found = lines.next()?;
        let place = self.transcript.wants.len();
        Some(Difference { place, found })
    }
}
