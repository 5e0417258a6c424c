//! Finds which words the undo entries of a log already cover. One pass over the log finds this, and addresses alone
//! tell it.

ghost use Rattle.std.specs.Prelude.{◌≡◌, ◌+◌, ◌*◌, ◌<◌, ◌≤◌, ◌^◌, ℕ, false, IfOk};
ghost use Rattle.pm_model.specs.Words.{reads};
ghost use Rattle.pm_model.specs.Counts.{fault_of};
ghost use Rattle.pm_model.specs.Reads.{OnlyReads};
ghost use Rattle.pud_defs.specs.declared.layout.TheConstants.{LOG_WORDS, LOG_ENTRY_WORDS, MAX_ENTRY_VALUES};
ghost use Rattle.pud_defs.specs.declared.space.TheConstants.{WORD_BYTES};
ghost use Rattle.pud_defs.specs.Formats.Image.{Image};
ghost use Rattle.pud_defs.specs.RegistryTables.Spaces.{all_below};
ghost use Rattle.log_entry.specs.Reading.{entry_from};
ghost use Rattle.word_transaction.specs.Coverage.{covers, are_covered, is_marked, MarksCovered};
ghost use Rattle.word_transaction.specs.Promises.{OfEntriesAfter};

use crate::TxMark;
use log_entry::{Entry, EntryReader};
use pm_model::{Host, HostFault};
use pud_defs::layout::MAX_ENTRY_VALUES;
use pud_defs::log_words::UNDO_ORDER;
use pud_defs::space::WORD_BYTES;

/// The number of bytes that a word takes in the address space.
const ONE_WORD: u64 = WORD_BYTES as u64;

/// Which of 32 words in a row are covered.
type Marks = [bool; MAX_ENTRY_VALUES as usize];

/// Tests whether an entry covers the word of an address: it is an undo entry, and one of its values is that of this
/// word.
fn covers(entry: &Entry, address: u64) -> bool
    ensures { (image : Image) → result ≡ covers address (entry_from image entry.now) }
{
    if entry.order != UNDO_ORDER {
        return false;
    }
    if address < entry.addr {
        return false;
    }
    let offset = address - entry.addr;
    offset % ONE_WORD == 0 && offset / ONE_WORD < u64::from(entry.n)
}

/// Tests whether the words of an entry overlap the `count` words from that of an address on. If they do not, the entry
/// covers none of these.
fn reaches(entry: &Entry, address: u64, count: u32) -> bool
    ensures { result ≡ false → (image : Image) → address + WORD_BYTES * count ≤ 2 ^ 64 → (i : ℕ) → i < count → covers (address + WORD_BYTES * i) (entry_from image entry.now) ≡ false }
{
    if entry.addr < address {
        address - entry.addr < u64::from(entry.n) * ONE_WORD
    } else {
        entry.addr - address < u64::from(count) * ONE_WORD
    }
}

/// Marks each of the `count` words from that of an address on that the entry covers. `count` is at most 32.
fn mark_covered(marks: &mut Marks, entry: &Entry, address: u64, count: u32)
    requires { count ≤ MAX_ENTRY_VALUES }
    ensures { (image : Image) → address + WORD_BYTES * count ≤ 2 ^ 64 → MarksCovered address count (entry_from image entry.now) marks.old marks.new }
{
    if !reaches(entry, address, count) {
        return;
    }
    for i in 0..count {
        let word = address.wrapping_add(u64::from(i) * ONE_WORD);
        if covers(entry, word) {
            marks[i as usize] = true;
        }
    }
}

/// Tests whether each of the first `count` words is marked. `count` is at most 32.
fn all_marked(marks: &Marks, count: u32) -> bool
    requires { count ≤ MAX_ENTRY_VALUES }
    ensures { result ≡ all_below count (is_marked marks.now) }
{
    for i in 0..count {
        if !marks[i as usize] {
            return false;
        }
    }
    true
}

/// Tests whether undo entries of the log whose gate is word `at` cover each of the `count` words from that of an
/// address on, at most 32. This is the first answer. The second tells whether they cover the word of `address2`. Only
/// entries after `since` count.
///
/// The log must lie within the device. It is read once, from `since` up to the entry with which all of these words are
/// covered. The call changes nothing. The only errors are the host's own.
pub(crate) fn find_covered<H: Host>(
    h: &mut H,
    at: u32,
    since: TxMark,
    address: u64,
    count: u32,
    address2: u64,
) -> Result<(bool, bool), HostFault>
    requires log { at + LOG_WORDS ≤ (H.counts h.old).size }
    requires counted { since.used ≤ LOG_ENTRY_WORDS }
    requires no_more { count ≤ MAX_ENTRY_VALUES }
    ensures covered { H.tells → (image : Image) → reads (H.state h.old).now.words ≡ image → OfEntriesAfter since.used at image (λ back.
        address + WORD_BYTES * count ≤ 2 ^ 64 → IfOk result (λ found. found.0 ≡ are_covered back address count)) }
    ensures other { H.tells → (image : Image) → reads (H.state h.old).now.words ≡ image → OfEntriesAfter since.used at image (λ back.
        IfOk result (λ found. found.1 ≡ are_covered back address2 1)) }
    ensures only_reads { OnlyReads H.tells H.state H.counts (fault_of result) h.old h.new }
{
    let mut reader = EntryReader::after(at, u32::from(since.used));
    let mut marks: Marks = [false; MAX_ENTRY_VALUES as usize];
    let mut other = false;
    while let Some(entry) = reader.next(h)? {
        mark_covered(&mut marks, &entry, address, count);
        other = other | covers(&entry, address2);
        if other && all_marked(&marks, count) {
            return Ok((true, true));
        }
    }
    Ok((all_marked(&marks, count), other))
}
