//! Compares what is seen with what is wanted.
use crate::bench::Bench;
use crate::numbers::numbers_of;
use crate::places::{Place, fill_names, place_of};
use crate::runs::{Difference, NOTHING, Run};
use crate::shelf::{file_layout, word_of};
use case_text::trouble::{Trouble, amiss};
use case_text::wanted::cell_of;
use pm_model::{FileFault, Host};

impl Bench {
    /// Checks that the run printed what is wanted of it in one of the outcomes that agreed so far.
    pub(crate) fn check_said(&mut self, run: &Run, said: &str) -> Result<(), Trouble> {
        let mut agreeing = Vec::new(self.alloc);
        let mut furthest = Difference {
            place: 0,
            found: NOTHING,
        };
        for outcome in self.agreeing.iter() {
            match run.difference(said, *outcome) {
                None => agreeing.push(*outcome)?,
                Some(difference) if difference.place >= furthest.place => furthest = difference,
                Some(_) => {}
            }
        }
        if agreeing.is_empty() {
            let found = furthest.found;
            let (number, cells) = match run.transcript.wants.get(furthest.place) {
                Some(want) => (want.number, want.cells.as_str()),
                None => (run.number, NOTHING),
            };
            return Err(amiss(
                number,
                format!(in self.alloc; "printed {found}, expected {cells}"),
            ));
        }
        self.agreeing = agreeing;
        Ok(())
    }

    /// Checks that the found numbers begin with the wanted numbers of one of the outcomes that agreed so far.
    pub(crate) fn check_numbers(
        &mut self,
        number: u32,
        cells: &str,
        found: &[u64],
    ) -> Result<(), Trouble> {
        let mut agreeing = Vec::new(self.alloc);
        let mut most = 0usize;
        for outcome in self.agreeing.iter() {
            let wanted = numbers_of(self.alloc, number, cell_of(cells, *outcome))?;
            if wanted.is_empty() {
                return Err(amiss(number, format!(in self.alloc; "numbers are missing")));
            }
            if found.starts_with(&wanted) {
                agreeing.push(*outcome)?;
            }
            most = most.max(wanted.len());
        }
        if agreeing.is_empty() {
            let found = found.get(..most).unwrap_or(found);
            let why = format!(in self.alloc; "found {found:?}, expected {cells}");
            return Err(amiss(number, why));
        }
        self.agreeing = agreeing;
        Ok(())
    }

    /// Checks that the newest values from the first word of this name on begin with the wanted values.
    pub(crate) fn check_words(
        &mut self,
        number: u32,
        name: &str,
        cells: &str,
    ) -> Result<(), Trouble> {
        let place = self.place_on_device(number, name)?;
        let cells = fill_names(self.alloc, number, self.layout(), cells)?;
        let newest = self.host.read_back(self.alloc)?;
        self.check_numbers(number, &cells, words_from(&newest, place))
    }

    /// The bytes of the file on the shelf. If there is no such file, there are none.
    pub(crate) fn file_bytes(&mut self, number: u32, name: &str) -> Result<Vec<u8>, Trouble> {
        match self.host.file_get(self.alloc, name) {
            Ok(found) => Ok(found.unwrap_or(Vec::new(self.alloc))),
            Err(FileFault::Memory) => Err(Trouble::Memory),
            Err(FileFault::Host(_)) => Err(amiss(
                number,
                format!(in self.alloc; "the shelf failed"),
            )),
        }
    }

    /// Checks that the file on the shelf has the wanted number of bytes.
    pub(crate) fn check_length(
        &mut self,
        number: u32,
        name: &str,
        cells: &str,
    ) -> Result<(), Trouble> {
        let bytes = self.file_bytes(number, name)?;
        let length = u64::try_from(bytes.len()).unwrap_or(u64::MAX);
        self.check_numbers(number, cells, &[length])
    }

    /// Checks that the words of the file on the shelf, from the first word of this name on, begin with the wanted
    /// words.
    pub(crate) fn check_file(
        &mut self,
        number: u32,
        name: &str,
        words: &str,
        cells: &str,
    ) -> Result<(), Trouble> {
        let bytes = self.file_bytes(number, name)?;
        let place = place_of(self.alloc, number, file_layout(&bytes), words)?;
        let mut found = Vec::new(self.alloc);
        for word in bytes.chunks_exact(8) {
            found.push(word_of(word))?;
        }
        self.check_numbers(number, cells, words_from(&found, place))
    }

    /// Checks that each word is as it was remembered, except the words in these ranges.
    pub(crate) fn check_kept(&mut self, number: u32, ranges: &[(u64, u64)]) -> Result<(), Trouble> {
        let newest = self.host.read_back(self.alloc)?;
        if newest.len() != self.remembered.len() {
            return Err(amiss(number, format!(in self.alloc; "nothing was remembered")));
        }
        for (at, (new, old)) in (0u64..).zip(newest.iter().zip(self.remembered.iter())) {
            let is_free = ranges
                .iter()
                .any(|(first, last)| *first <= at && at <= *last);
            if new != old && !is_free {
                let why = format!(in self.alloc; "word {at} was {old} and is {new}");
                return Err(amiss(number, why));
            }
        }
        Ok(())
    }
}

/// The words from the first one of this place to the end of what the place is a part of.
fn words_from(words: &[u64], place: Place) -> &[u64] {
    let first = usize::try_from(place.first).unwrap_or(usize::MAX);
    let room = usize::try_from(place.room).unwrap_or(usize::MAX);
    let found = words.get(first..).unwrap_or(&[]);
    found.get(..room).unwrap_or(found)
}
