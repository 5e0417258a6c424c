//! The three values of each word of the device: durable, marked by a flush, and newest.
ghost use Rattle.std.specs.Prelude.{All, ◌≡◌, ℕ, ◌+◌, ◌*◌, ◌/◌, ◌^◌, ◌<◌, ◌≤◌, ◌==◌, ◌||◌, true, false, [], slice_index, slice_range, slice_set, vec_len, IfOk};
ghost use Rattle.pm_rows.specs.Rows.{is_listed, TakesLine, TakesLines, AreSame, AreSameOutside, Loses, LosesLine, LosesLines};

use crate::line_set::LineSet;
use pm_model::keeps_newest;
use std::alloc::{AllocError, Global};

/// The words of a line.
pub const LINE_WORDS: usize = 8;

/// Three rows of words in whole lines, and the lines in which the rows may differ. All room that its calls need is
/// there from the start.
#[derive(Drop)]
pub struct DeviceRows {
    /// How many lines there are.
    pub lines: u32,
    /// The words that outlive a power loss.
    pub durable: Vec<u64>,
    /// The words that the next fence makes durable.
    pub marked: Vec<u64>,
    /// The words that a load reads.
    pub newest: Vec<u64>,
    /// The lines in which a word may have more than one value.
    pub unsettled: LineSet,
    ghost durable_len: { vec_len durable ≡ 8 * lines },
    ghost marked_len: { vec_len marked ≡ 8 * lines },
    ghost newest_len: { vec_len newest ≡ 8 * lines },
    ghost limit: { vec_len unsettled.marks ≡ lines },
    ghost few: { lines < 2 ^ 29 },
    ghost settled_marks: { AreSameOutside unsettled.lines.items marked.items durable.items },
    ghost settled_newest: { AreSameOutside unsettled.lines.items newest.items durable.items },
}

impl DeviceRows {
    /// A device of that many lines at rest. Each of its words is durable.
    pub fn new(alloc: Global, lines: u32, durable: Vec<u64>) -> Result<DeviceRows, AllocError>
        requires whole_lines { vec_len durable ≡ 8 * lines }
        requires few { lines < 2 ^ 29 }
        ensures size { IfOk result (λ rows. rows.lines ≡ lines) }
        ensures durable { IfOk result (λ rows. rows.durable ≡ durable) }
        ensures marked { IfOk result (λ rows. rows.marked.items ≡ durable.items) }
        ensures newest { IfOk result (λ rows. rows.newest.items ≡ durable.items) }
        ensures rested { IfOk result (λ rows. rows.unsettled.lines.items ≡ []) }
    {
        let marked = durable.clone()?;
        let newest = durable.clone()?;
        let unsettled = LineSet::new(alloc, lines as usize)?;
        Ok(DeviceRows {
            lines,
            durable,
            marked,
            newest,
            unsettled,
        })
    }

    /// The number of words.
    pub fn words(&self) -> u32
        ensures { result ≡ 8 * self.now.lines }
    {
        self.lines * 8
    }

    /// The newest value of a word.
    pub fn load(&self, word: u32) -> u64
        requires { word < 8 * self.now.lines }
        ensures { result ≡ slice_index self.now.newest.items word }
    {
        self.newest[word as usize]
    }

    /// Gives a word a new newest value. Its line is no longer settled.
    pub fn store(&mut self, word: u32, value: u64)
        requires { word < 8 * self.old.lines }
        ensures newest { self.new.newest.items ≡ slice_set self.old.newest.items word value }
        ensures unsettled { (line : ℕ) → is_listed line self.new.unsettled.lines.items
            ≡ (is_listed line self.old.unsettled.lines.items || line == word / 8) }
        ensures size { self.new.lines ≡ self.old.lines }
        ensures durable { self.new.durable ≡ self.old.durable }
        ensures marked { self.new.marked ≡ self.old.marked }
    {
        self.unsettled.add(word / LINE_WORDS as u32);
        self.newest[word as usize] = value;
    }

    /// Marks the newest values of a line.
    pub fn flush(&mut self, line: u32)
        requires { line < self.old.lines }
        ensures marked { TakesLine line self.old.newest.items self.old.marked.items self.new.marked.items }
        ensures unsettled { self.new.unsettled ≡ self.old.unsettled }
        ensures size { self.new.lines ≡ self.old.lines }
        ensures durable { self.new.durable ≡ self.old.durable }
        ensures newest { self.new.newest ≡ self.old.newest }
    {
        copy_line(&self.newest, &mut self.marked, line);
    }

    /// Makes all marked values durable.
    pub fn take_marked(&mut self)
        ensures durable { AreSame self.new.durable.items self.old.marked.items }
        ensures unsettled { self.new.unsettled ≡ self.old.unsettled }
        ensures size { self.new.lines ≡ self.old.lines }
        ensures marked { self.new.marked ≡ self.old.marked }
        ensures newest { self.new.newest ≡ self.old.newest }
    {
        copy_lines(&self.marked, &mut self.durable, self.unsettled.as_slice());
    }

    /// Forgets the unsettled lines, if each of their words has one value.
    pub fn forget_settled(&mut self)
        requires { AreSame self.old.marked.items self.old.durable.items }
        ensures size { self.new.lines ≡ self.old.lines }
        ensures durable { self.new.durable ≡ self.old.durable }
        ensures marked { self.new.marked ≡ self.old.marked }
        ensures newest { self.new.newest ≡ self.old.newest }
    {
        if are_same(&self.newest, &self.durable, self.unsettled.as_slice()) {
            self.unsettled.clear();
        }
    }

    /// Loses power, except for the durable row, which takes the marked values afterwards. Each word of the other two
    /// rows keeps its durable or its newest value, by the pick, and no other.
    pub fn choose(&mut self, pick: u64)
        ensures marked { Loses pick self.old.durable.items self.old.newest.items self.new.marked.items }
        ensures newest { Loses pick self.old.durable.items self.old.newest.items self.new.newest.items }
        ensures unsettled { self.new.unsettled ≡ self.old.unsettled }
        ensures size { self.new.lines ≡ self.old.lines }
        ensures durable { self.new.durable ≡ self.old.durable }
    {
        lose_lines(
            pick,
            &self.durable,
            &mut self.newest,
            self.unsettled.as_slice(),
        );
        copy_lines(&self.newest, &mut self.marked, self.unsettled.as_slice());
    }

    /// Gives a word one value and no other.
    pub fn poke(&mut self, word: u32, value: u64)
        requires { word < 8 * self.old.lines }
        ensures newest { self.new.newest.items ≡ slice_set self.old.newest.items word value }
        ensures marked { self.new.marked.items ≡ slice_set self.old.marked.items word value }
        ensures durable { self.new.durable.items ≡ slice_set self.old.durable.items word value }
        ensures unsettled { self.new.unsettled ≡ self.old.unsettled }
        ensures size { self.new.lines ≡ self.old.lines }
    {
        self.newest[word as usize] = value;
        self.marked[word as usize] = value;
        self.durable[word as usize] = value;
    }

    /// Whether the next fence changes a durable word of a line.
    pub fn is_due(&self, line: u32) -> bool
        requires { line < self.now.lines }
        ensures { result ≡ false → (place : ℕ) → place < 8
            → slice_index self.now.marked.items (8 * line + place) ≡ slice_index self.now.durable.items (8 * line + place) }
    {
        !is_same_line(&self.marked, &self.durable, line)
    }

    /// The marked words of a line.
    pub fn marked_line(&self, line: u32) -> [u64; LINE_WORDS]
        requires { line < self.now.lines }
        ensures { result ≡ slice_range self.now.marked.items (8 * line) (8 * line + 8) }
    {
        let first = line as usize * LINE_WORDS;
        let mut words = [0; LINE_WORDS];
        words.copy_from_slice(&self.marked[first..first + LINE_WORDS]);
        words
    }

    /// Puts the unsettled lines in rising order.
    pub fn sort_unsettled(&mut self)
        ensures unsettled { (line : ℕ) → is_listed line self.new.unsettled.lines.items
            ≡ is_listed line self.old.unsettled.lines.items }
        ensures size { self.new.lines ≡ self.old.lines }
        ensures durable { self.new.durable ≡ self.old.durable }
        ensures marked { self.new.marked ≡ self.old.marked }
        ensures newest { self.new.newest ≡ self.old.newest }
    {
        self.unsettled.sort();
    }
}

// Copies a line from one row to another.
fn copy_line(from: &Vec<u64>, to: &mut Vec<u64>, line: u32)
    requires from_line { 8 * line + 8 ≤ vec_len from.now }
    requires to_line { 8 * line + 8 ≤ vec_len to.old }
    ensures taken { TakesLine line from.now.items to.old.items to.new.items }
    ensures len { vec_len to.new ≡ vec_len to.old }
{
    let first = line as usize * LINE_WORDS;
    let row = to.as_mut_slice();
    row[first..first + LINE_WORDS].copy_from_slice(&from[first..first + LINE_WORDS]);
}

// Copies lines from one row to another.
fn copy_lines(from: &Vec<u64>, to: &mut Vec<u64>, lines: &[u32])
    requires from_lines { All (λ line. 8 * line + 8 ≤ vec_len from.now) lines.now }
    requires to_lines { All (λ line. 8 * line + 8 ≤ vec_len to.old) lines.now }
    ensures taken { TakesLines lines.now from.now.items to.old.items to.new.items }
    ensures len { vec_len to.new ≡ vec_len to.old }
{
    for line in lines {
        copy_line(from, to, *line);
    }
}

// Gives each word of a line its durable value, unless the pick keeps the newest.
fn lose_line(pick: u64, durable: &Vec<u64>, newest: &mut Vec<u64>, line: u32)
    requires durable_line { 8 * line + 8 ≤ vec_len durable.now }
    requires newest_line { 8 * line + 8 ≤ vec_len newest.old }
    ensures lost { LosesLine line pick durable.now.items newest.old.items newest.new.items }
    ensures len { vec_len newest.new ≡ vec_len newest.old }
{
    let first = line as usize * LINE_WORDS;
    for word in first..first + LINE_WORDS {
        if !keeps_newest(pick, word) {
            newest[word] = durable[word];
        }
    }
}

// The same for several lines.
fn lose_lines(pick: u64, durable: &Vec<u64>, newest: &mut Vec<u64>, lines: &[u32])
    requires durable_lines { All (λ line. 8 * line + 8 ≤ vec_len durable.now) lines.now }
    requires newest_lines { All (λ line. 8 * line + 8 ≤ vec_len newest.old) lines.now }
    ensures lost { LosesLines lines.now pick durable.now.items newest.old.items newest.new.items }
    ensures len { vec_len newest.new ≡ vec_len newest.old }
{
    for line in lines {
        lose_line(pick, durable, newest, *line);
    }
}

// Whether a line has the same words in both rows.
fn is_same_line(a: &Vec<u64>, b: &Vec<u64>, line: u32) -> bool
    requires a_line { 8 * line + 8 ≤ vec_len a.now }
    requires b_line { 8 * line + 8 ≤ vec_len b.now }
    ensures same { result ≡ true → (place : ℕ) → place < 8
        → slice_index a.now.items (8 * line + place) ≡ slice_index b.now.items (8 * line + place) }
{
    let first = line as usize * LINE_WORDS;
    for place in 0..LINE_WORDS {
        if a[first + place] != b[first + place] {
            return false;
        }
    }
    true
}

// Whether each of the lines has the same words in both rows.
fn are_same(a: &Vec<u64>, b: &Vec<u64>, lines: &[u32]) -> bool
    requires a_lines { All (λ line. 8 * line + 8 ≤ vec_len a.now) lines.now }
    requires b_lines { All (λ line. 8 * line + 8 ≤ vec_len b.now) lines.now }
    ensures same { result ≡ true → (word : ℕ) → is_listed (word / 8) lines.now ≡ true
        → slice_index a.now.items word ≡ slice_index b.now.items word }
{
    for line in lines {
        if !is_same_line(a, b, *line) {
            return false;
        }
    }
    true
}
