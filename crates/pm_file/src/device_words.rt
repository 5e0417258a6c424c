//! The words of the device. They are kept as far as a word was stored; the others are zero.
ghost use Rattle.std.specs.Prelude.{◌≡◌, ◌+◌, ◌-◌, ◌*◌, ◌<◌, ◌≤◌, ◌^◌, ◌++◌, false, replicate, slice_index, vec_len, vec_capacity, IfOk, OnOk, OnErr};
ghost use Rattle.pm_rows.specs.Rows.{AreSame, TakesLine};
ghost use Rattle.pm_file.specs.Reach.{KeepsWords, HasRowRoom, TakesWord};

use pm_rows::{DeviceRows, LINE_WORDS};
use std::alloc::{AllocError, Global};

/// The words of a device: rows that reach as far as a word was read or stored, and zeroes after them. The room for all
/// words is reserved at the start, and the part that the rows do not reach is not touched.
#[derive(Drop)]
pub(crate) struct DeviceWords {
    /// How many lines the device has.
    pub(crate) lines: u32,
    /// The rows of its first lines.
    pub(crate) rows: DeviceRows,
    ghost few: { lines < 2 ^ 29 },
    ghost within: { rows.lines ≤ lines },
}

impl DeviceWords {
    /// The words of a device of that many lines at rest. The first words are these, and the others are zero.
    pub(crate) fn new(
        alloc: Global,
        lines: u32,
        mut first: Vec<u64>,
    ) -> Result<DeviceWords, AllocError>
        requires few { lines < 2 ^ 29 }
        requires within { vec_len first ≤ 8 * lines }
        ensures size { IfOk result (λ words. words.lines ≡ lines) }
        ensures durable { IfOk result (λ words. AreSame words.rows.durable.items first.items) }
        ensures marked { IfOk result (λ words. AreSame words.rows.marked.items first.items) }
        ensures newest { IfOk result (λ words. AreSame words.rows.newest.items first.items) }
    {
        let reached = first.len().div_ceil(LINE_WORDS);
        first.resize(reached * LINE_WORDS, 0)?;
        let mut rows = DeviceRows::new(alloc, reached as u32, first)?;
        make_room(&mut rows, lines)?;
        Ok(DeviceWords { lines, rows })
    }

    /// The number of words.
    pub(crate) fn count(&self) -> u32
        ensures { result ≡ 8 * self.now.lines }
    {
        self.lines * 8
    }

    /// The newest value of a word.
    pub(crate) fn load(&self, word: u32) -> u64
        requires { word < 8 * self.now.lines }
        ensures { result ≡ slice_index self.now.rows.newest.items word }
    {
        if word < self.rows.words() {
            self.rows.load(word)
        } else {
            0
        }
    }

    /// Gives a word a new newest value.
    ///
    /// # Errors
    ///
    /// Allocation failed. No word changes.
    pub(crate) fn store(&mut self, word: u32, value: u64) -> Result<(), AllocError>
        requires { word < 8 * self.old.lines }
        ensures newest { OnOk result (TakesWord word value
            self.old.rows.newest.items self.new.rows.newest.items) }
        ensures marked { AreSame self.new.rows.marked.items self.old.rows.marked.items }
        ensures durable { AreSame self.new.rows.durable.items self.old.rows.durable.items }
        ensures kept { OnErr result (KeepsWords self.old.rows self.new.rows) }
        ensures size { self.new.lines ≡ self.old.lines }
    {
        if word / LINE_WORDS as u32 >= self.rows.lines {
            return self.store_beyond(word, value);
        }
        self.rows.store(word, value);
        Ok(())
    }

    // The same for a word that the rows do not reach. It is a function of its own, so that most stores stay short.
    #[inline(never)]
    fn store_beyond(&mut self, word: u32, value: u64) -> Result<(), AllocError>
        requires { word < 8 * self.old.lines }
        ensures newest { OnOk result (TakesWord word value
            self.old.rows.newest.items self.new.rows.newest.items) }
        ensures marked { AreSame self.new.rows.marked.items self.old.rows.marked.items }
        ensures durable { AreSame self.new.rows.durable.items self.old.rows.durable.items }
        ensures kept { OnErr result (KeepsWords self.old.rows self.new.rows) }
        ensures size { self.new.lines ≡ self.old.lines }
    {
        self.reach(word / LINE_WORDS as u32)?;
        self.rows.store(word, value);
        Ok(())
    }

    /// Marks the newest values of a line.
    pub(crate) fn flush(&mut self, line: u32)
        requires { line < self.old.lines }
        ensures marked { TakesLine line self.old.rows.newest.items
            self.old.rows.marked.items self.new.rows.marked.items }
        ensures durable { self.new.rows.durable ≡ self.old.rows.durable }
        ensures newest { self.new.rows.newest ≡ self.old.rows.newest }
        ensures size { self.new.lines ≡ self.old.lines }
    {
        if line < self.rows.lines {
            self.rows.flush(line);
        }
    }

    // Makes the rows reach a line.
    fn reach(&mut self, line: u32) -> Result<(), AllocError>
        requires { line < self.old.lines }
        ensures reached { OnOk result (line < self.new.rows.lines) }
        ensures kept { KeepsWords self.old.rows self.new.rows }
        ensures size { self.new.lines ≡ self.old.lines }
    {
        if line >= self.rows.lines {
            make_room(&mut self.rows, line + 1)?;
            lengthen(&mut self.rows, line + 1);
        }
        Ok(())
    }
}

// Reserves the room of so many lines in all. It touches none of this room.
fn make_room(rows: &mut DeviceRows, lines: u32) -> Result<(), AllocError>
    ensures room { OnOk result (HasRowRoom lines rows.new) }
    ensures durable { rows.new.durable.items ≡ rows.old.durable.items }
    ensures marked { rows.new.marked.items ≡ rows.old.marked.items }
    ensures newest { rows.new.newest.items ≡ rows.old.newest.items }
    ensures size { rows.new.lines ≡ rows.old.lines }
{
    let lines = lines as usize;
    reserve_to(&mut rows.durable, lines * LINE_WORDS)?;
    reserve_to(&mut rows.marked, lines * LINE_WORDS)?;
    reserve_to(&mut rows.newest, lines * LINE_WORDS)?;
    reserve_to(&mut rows.unsettled.marks, lines)?;
    reserve_to(&mut rows.unsettled.lines, lines)
}

// Reserves room for so many elements in all.
fn reserve_to<T>(row: &mut Vec<T>, length: usize) -> Result<(), AllocError>
    ensures room { OnOk result (length ≤ vec_capacity row.new) }
    ensures items { row.new.items ≡ row.old.items }
    ensures len { vec_len row.new ≡ vec_len row.old }
    ensures capacity { vec_capacity row.old ≤ vec_capacity row.new }
{
    row.reserve(length.saturating_sub(row.len()))
}

// Adds lines of zeroes, up to so many lines in all.
fn lengthen(rows: &mut DeviceRows, lines: u32)
    requires few { lines < 2 ^ 29 }
    requires longer { rows.old.lines ≤ lines }
    requires room { HasRowRoom lines rows.old }
    ensures size { rows.new.lines ≡ lines }
    ensures kept { KeepsWords rows.old rows.new }
{
    let words = lines as usize * LINE_WORDS;
    pad(&mut rows.durable, words, 0);
    pad(&mut rows.marked, words, 0);
    pad(&mut rows.newest, words, 0);
    pad(&mut rows.unsettled.marks, lines as usize, false);
    rows.lines = lines;
}

// Fills a row up to a length. There is room for it.
fn pad<T: Copy>(row: &mut Vec<T>, length: usize, filler: T)
    requires longer { vec_len row.old ≤ length }
    requires room { length ≤ vec_capacity row.old }
    ensures items { row.new.items ≡ row.old.items ++ replicate (length - vec_len row.old) filler }
    ensures len { vec_len row.new ≡ length }
{
    while row.len() < length {
        row.push_reserved(filler);
    }
}
