//! The words that a text names: by a name of the table, or by the number of the first word.
use crate::layouts::{Layout, Span};
use crate::names::{NAMES, TABLES};
use case_text::counters::number_of;
use case_text::names::{NUMBERS, Said, has_words_of, taken_apart};
use case_text::trouble::{Trouble, amiss};
use std::alloc::{AllocError, Global};

/// Words in a row that have a name.
#[derive(Clone, Copy)]
pub struct Place {
    /// The number of the first word.
    pub first: u64,
    /// How many words have the name.
    pub words: u64,
    /// How many words there are from the first one to the end of what the name is a part of.
    pub room: u64,
}

impl Place {
    /// The word with this number.
    fn at(first: u64) -> Place {
        Place {
            first,
            words: 1,
            room: u64::MAX,
        }
    }

    /// The number of the last word that has the name.
    pub fn last(self) -> u64 {
        self.first.saturating_add(self.words.saturating_sub(1))
    }

    /// The word of this place with this number, or the words from one number to another, as in `8` and `8..15`. The
    /// numbers are counted in the place.
    fn part(self, part: &str) -> Result<Place, NoPlace> {
        let (first, last) = part.split_once("..").unwrap_or((part, part));
        let (Some(first), Some(last)) = (number_of(first), number_of(last)) else {
            return Err(NoPlace::Unknown);
        };
        if last < first || last >= self.words {
            return Err(NoPlace::Past);
        }
        Ok(Place {
            first: self.first.saturating_add(first),
            words: (last - first).saturating_add(1),
            room: self.words.saturating_sub(first),
        })
    }
}

/// Why a text names no words.
#[derive(Clone, Copy)]
enum NoPlace {
    /// Nothing has this name.
    Unknown,
    /// The numbers in the text do not stand where this name has them.
    Unwritten(&'static str),
    /// A number in the text is past the last one.
    Past,
}

/// The words that a text in this line names. A text that names none is a trouble.
pub fn place_of(alloc: Global, line: u32, layout: Layout, text: &str) -> Result<Place, Trouble> {
    let (whole, part) = match text.split_once(" word ") {
        Some((whole, part)) => (whole, Some(part)),
        None => (text, None),
    };
    let said = taken_apart(alloc, whole)?;
    let found = match (number_of(text), part) {
        (Some(first), _) => Ok(Place::at(first)),
        (None, None) => named(layout, whole, &said),
        (None, Some(part)) => named(layout, whole, &said).and_then(|place| place.part(part)),
    };
    let why = match found {
        Ok(place) => return Ok(place),
        Err(NoPlace::Unknown) => format!(in alloc; "{text} names no word"),
        Err(NoPlace::Unwritten(name)) => format!(in alloc; "{text} must be written as {name}"),
        Err(NoPlace::Past) => format!(in alloc; "there is no {text}"),
    };
    Err(amiss(line, why))
}

/// Checks that there are enough words for the values, from the place of this name to the end of what it is a part of.
pub fn check_room(
    alloc: Global,
    line: u32,
    name: &str,
    place: Place,
    values: usize,
) -> Result<(), Trouble> {
    if u64::try_from(values).is_ok_and(|values| values <= place.room) {
        return Ok(());
    }
    let why = format!(in alloc; "{name} has no room for {values} values");
    Err(amiss(line, why))
}

/// The text in which each name between `[` and `]` is replaced by the number of its first word.
pub fn fill_names(alloc: Global, line: u32, layout: Layout, text: &str) -> Result<String, Trouble> {
    let mut filled = String::new(alloc);
    let mut pieces = text.split('[');
    filled.push_str(pieces.next().unwrap_or(""))?;
    for piece in pieces {
        let (name, rest) = piece.split_once(']').unwrap_or((piece, ""));
        let first = place_of(alloc, line, layout, name)?.first;
        filled.push_str(&format!(in alloc; "{first}")?)?;
        filled.push_str(rest)?;
    }
    Ok(filled)
}

/// The words that a text without `word` names. `said` is the text, taken apart.
fn named(layout: Layout, text: &str, said: &Said) -> Result<Place, NoPlace> {
    for (name, records, at, words) in NAMES.iter() {
        if said.name.as_str() == *name && !text.contains('#') {
            if let Some(span) = layout.span(*records) {
                return place_in(span, &said.numbers, *at, *words);
            }
        }
    }
    for (name, records) in TABLES.iter() {
        if *name == text {
            let span = layout.span(*records).ok_or(NoPlace::Unknown)?;
            return Ok(all_of(span));
        }
    }
    let mut near = NAMES.iter().filter(|name| has_words_of(name.0, text));
    match near.next() {
        Some(name) => Err(NoPlace::Unwritten(name.0)),
        None => Err(NoPlace::Unknown),
    }
}

/// This many words, from word `at` on, of the record that these numbers tell from the others.
fn place_in(span: Span, numbers: &[u64; NUMBERS], at: u32, words: u32) -> Result<Place, NoPlace> {
    let mut first = span.first;
    let mut room = span.words;
    for (number, step) in numbers.iter().zip(span.steps.iter()) {
        if *number >= step.count {
            return Err(NoPlace::Past);
        }
        first = first.saturating_add(number.saturating_mul(step.words));
        if step.words == 1 {
            room = step.count - *number;
        }
    }
    let at = u64::from(at);
    Ok(Place {
        first: first.saturating_add(at),
        words: u64::from(words),
        room: room.saturating_sub(at),
    })
}

/// All records that one number tells apart.
fn all_of(span: Span) -> Place {
    let words = span.words.saturating_mul(span.steps[0].count);
    Place {
        first: span.first,
        words,
        room: words,
    }
}
