//! Tests of the entries of a log: they are written as words and read one by one.
use crate::device::device_with_log;
use log_entry::{Entry, EntryReader, encode, well_formed};
use pm_model::{Host, HostFault};
use pud_defs::layout::LOG_WORDS;
use pud_defs::log_words::{REDO_ORDER, REDO_SEQ, UNDO_ORDER, UNDO_SEQ};
use std::alloc::Global;
use std::process::Abort;

/// The word that is the gate of the log. The devices here end with this log.
const LOG: u32 = 8;

/// A place that entries name.
const ADDRESS: u64 = 17_592_186_044_944;

/// Whether an entry was found that has this address, number of values, sequence number, order and word of its first
/// value.
fn is_entry(found: Result<Option<Entry>, HostFault>, row: &[u64; 5]) -> bool {
    match found {
        Ok(Some(entry)) => {
            [
                entry.addr,
                u64::from(entry.n),
                u64::from(entry.seq),
                u64::from(entry.order),
                u64::from(entry.at),
            ] == *row
        }
        _ => false,
    }
}

/// Checks that the log is well formed exactly if `well` tells so, and that a reader reads these entries and no more.
fn read<H: Host>(rt: &impl Abort, host: &mut H, well: bool, rows: &[[u64; 5]]) {
    assert!(rt; LOG + LOG_WORDS <= host.words());
    assert!(rt; well_formed(host, LOG) == Ok(well));
    let mut reader = EntryReader::new(LOG);
    for row in rows {
        assert!(rt; LOG + LOG_WORDS <= host.words());
        assert!(rt; is_entry(reader.next(host), row));
    }
    assert!(rt; LOG + LOG_WORDS <= host.words());
    assert!(rt; matches!(reader.next(host), Ok(None)));
}

/// Checks how a log with this gate and these first entry words is read.
fn is_read(
    rt: &impl Abort,
    alloc: Global,
    gate: u64,
    words: &[u64],
    well: bool,
    rows: &[[u64; 5]],
) {
    let mut host = device_with_log(rt, alloc, 1_032, LOG, gate, words);
    read(rt, &mut host, well, rows);
}

/// Checks that the words of an entry are `want`.
fn spell(rt: &impl Abort, addr: u64, seq: u32, order: u32, vals: &[u64], want: &[u64]) {
    assert!(rt; 1 <= vals.len() && vals.len() <= 32 && seq < 65_536);
    let mut words = [7; 34];
    let count = encode(addr, seq, order, vals, &mut words);
    assert!(rt; words.get(..count) == Some(want));
}

#[test]
fn an_entry_is_its_address_its_word_and_its_values(rt: HostRuntime) {
    spell(
        &rt,
        ADDRESS,
        UNDO_SEQ,
        UNDO_ORDER,
        &[99],
        &[ADDRESS, 65_537, 99],
    );
    spell(
        &rt,
        ADDRESS,
        REDO_SEQ,
        REDO_ORDER,
        &[99],
        &[ADDRESS, 4_295_163_905, 99],
    );
    let mut longest = [3; 34];
    longest[0] = 0;
    longest[1] = 4_294_901_792;
    spell(&rt, 0, 65_535, 0, &[3; 32], &longest);
}

#[test]
fn a_reader_gives_the_entries_in_their_order(rt: HostRuntime) {
    let words = [1_088, 65_537, 5, ADDRESS, 4_295_163_906, 6, 7];
    let rows = [[1_088, 1, 1, 0, 18], [ADDRESS, 2, 3, 1, 21]];
    is_read(&rt, rt.alloc(), 7 << 16, &words, true, &rows);
}

/// The entries of the words 1,088, 65,537, 5, 1,089, 65,537, 6, and the first one if it has 32 values.
const FIRST: [u64; 5] = [1_088, 1, 1, 0, 18];

const SECOND: [u64; 5] = [1_089, 1, 1, 0, 21];

const LONG: [u64; 5] = [1_088, 32, 1, 0, 18];

#[test]
fn logs_and_what_is_read_of_them(rt: HostRuntime) {
    let rows: [(u64, u64, bool, &[[u64; 5]]); 13] = [
        (0, 65_537, true, &[]),
        (512 + (3 << 16), 65_537, true, &[FIRST]),
        (6 << 16, 65_537, true, &[FIRST, SECOND]),
        (34 << 16, 65_568, true, &[LONG]),
        // No values, 33 values, order 2.
        (3 << 16, 65_536, false, &[]),
        (35 << 16, 65_569, false, &[]),
        (3 << 16, 8_590_000_129, false, &[]),
        // Upper bits of the gate, and more words than a log has.
        ((1 << 32) + (3 << 16), 65_537, false, &[FIRST]),
        (1_017 << 16, 65_537, false, &[]),
        // Cut short within the first entry and within the second, and one word after two entries.
        (1 << 16, 65_537, false, &[]),
        (2 << 16, 65_537, false, &[]),
        (5 << 16, 65_537, false, &[FIRST]),
        (7 << 16, 65_537, false, &[FIRST, SECOND]),
    ];
    for (gate, word, well, entries) in rows {
        let words = [1_088, word, 5, 1_089, 65_537, 6];
        is_read(&rt, rt.alloc(), gate, &words, well, entries);
    }
}
