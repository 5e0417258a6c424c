//! The packed words of a log: its gate, and the second word of an entry.
//!
//! A gate has the range: `lo` in bits 0 to 7, and `hi` in bits 8 to 15. In bits 16 to 31 it has `used`, the number of
//! entry words that count. The second word of an entry has the number of values that follow in bits 0 to 15, the
//! sequence number in bits 16 to 31, and the order in bits 32 to 63. The readers answer for every word, legal or not.

ghost use Rattle.std.specs.Prelude.{◌≡◌, ◌<◌, ◌^◌};
ghost use Rattle.pud_defs.specs.Logging.Entries.{gate_lo, gate_hi, gate_used, gate_word, entry_n, entry_seq, entry_order, entry_word, is_legal_gate, is_legal_entry_word};
ghost use Rattle.pud_defs.specs.RegistryTables.Spaces.{is_closed_range};

use crate::layout::{LOG_ENTRY_WORDS, MAX_ENTRY_VALUES};

/// The sequence number of an undo entry.
pub const UNDO_SEQ: u32 = 1;

/// The sequence number of a redo entry, and of an entry of a batch.
pub const REDO_SEQ: u32 = 3;

/// The order of an undo entry. A replay applies the undo entries in range, the newest first.
pub const UNDO_ORDER: u32 = 0;

/// The order of a redo entry. A replay applies the redo entries in range, the oldest first, after all undo entries.
pub const REDO_ORDER: u32 = 1;

/// The lower end of the range of a running log. Undo entries lie in this range.
pub const RUNNING_LO: u32 = 0;

/// The upper end of the range of a running log.
pub const RUNNING_HI: u32 = 2;

/// The lower end of the range of a committing log. Redo entries lie in this range.
pub const COMMITTING_LO: u32 = 2;

/// The upper end of the range of a committing log, and both ends of the range of a closed log.
pub const COMMITTING_HI: u32 = 4;

/// The gate of a running log without an entry. Its range is (0,2), and no entry word is used.
pub const RUNNING_GATE: u64 = RUNNING_LO as u64 + ((RUNNING_HI as u64) << 8);

/// The gate of a closed log. Its range is (4,4), in which no entry lies, and no entry word is used.
pub const CLOSED_GATE: u64 = COMMITTING_HI as u64 + ((COMMITTING_HI as u64) << 8);

/// The lower end of the gate's range, 0 to 255. An entry is in range if its sequence number is above this end and below
/// the upper end.
pub fn gate_lo(v: u64) -> u32
    ensures { result ≡ gate_lo v }
{
    (v & 0xff) as u32
}

/// The upper end of the gate's range, 0 to 255.
pub fn gate_hi(v: u64) -> u32
    ensures { result ≡ gate_hi v }
{
    ((v >> 8) & 0xff) as u32
}

/// How many entry words the gate counts, 0 to 65,535.
pub fn gate_used(v: u64) -> u32
    ensures { result ≡ gate_used v }
{
    ((v >> 16) & 0xffff) as u32
}

/// The gate with this range that counts `used` entry words. Each part must fit its bits.
pub fn gate_word(lo: u32, hi: u32, used: u32) -> u64
    requires lo_fits { lo < 2 ^ 8 }
    requires hi_fits { hi < 2 ^ 8 }
    requires used_fits { used < 2 ^ 16 }
    ensures { result ≡ gate_word lo hi used }
{
    u64::from(lo) + (u64::from(hi) << 8) + (u64::from(used) << 16)
}

/// Whether the word is a gate: its upper half is 0, and it counts at most as many entry words as a log has.
pub fn is_legal_gate(v: u64) -> bool
    ensures { result ≡ is_legal_gate v }
{
    v >> 32 == 0 && gate_used(v) <= LOG_ENTRY_WORDS
}

/// Whether the gate has the range of a closed log: (4,4), or (0,0) as after formatting.
pub fn is_closed_range(v: u64) -> bool
    ensures { result ≡ is_closed_range v }
{
    let hi = gate_hi(v);
    gate_lo(v) == hi && (hi == COMMITTING_HI || hi == 0)
}

/// How many values follow the second word of an entry, 0 to 65,535.
pub fn entry_n(v: u64) -> u32
    ensures { result ≡ entry_n v }
{
    (v & 0xffff) as u32
}

/// The sequence number of an entry, 0 to 65,535.
pub fn entry_seq(v: u64) -> u32
    ensures { result ≡ entry_seq v }
{
    ((v >> 16) & 0xffff) as u32
}

/// The order of an entry.
pub fn entry_order(v: u64) -> u32
    ensures { result ≡ entry_order v }
{
    (v >> 32) as u32
}

/// The second word of an entry of `n` values with this sequence number and order. Each part must fit its bits.
pub fn entry_word(n: u32, seq: u32, order: u32) -> u64
    requires n_fits { n < 2 ^ 16 }
    requires seq_fits { seq < 2 ^ 16 }
    ensures { result ≡ entry_word n seq order }
{
    u64::from(n) + (u64::from(seq) << 16) + (u64::from(order) << 32)
}

/// Whether the word is the second word of an entry: it has 1 to 32 values, and the order of undo or redo entries.
pub fn is_legal_entry_word(v: u64) -> bool
    ensures { result ≡ is_legal_entry_word v }
{
    let n = entry_n(v);
    n >= 1 && n <= MAX_ENTRY_VALUES && entry_order(v) <= REDO_ORDER
}
