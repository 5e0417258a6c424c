//! Tests of the packed words of logs.
use pud_defs::log_words::{
    CLOSED_GATE, REDO_ORDER, REDO_SEQ, RUNNING_GATE, UNDO_ORDER, UNDO_SEQ, entry_n, entry_order,
    entry_seq, entry_word, gate_hi, gate_lo, gate_used, gate_word, is_closed_range,
    is_legal_entry_word, is_legal_gate,
};
use std::process::Abort;

/// Asserts that each gate's range and count are packed into this word, and that the word is read as them again.
fn are_gates(rt: &impl Abort, rows: &[(u32, u32, u32, u64)]) {
    for (lo, hi, used, word) in rows {
        assert!(rt; *lo < 256 && *hi < 256 && *used < 65_536);
        assert!(rt; gate_word(*lo, *hi, *used) == *word, "gate {word}");
        assert!(rt;
            [gate_lo(*word), gate_hi(*word), gate_used(*word)] == [*lo, *hi, *used],
            "gate {word}"
        );
        assert!(rt; is_legal_gate(*word), "gate {word}");
    }
}

/// Asserts that the parts of each entry's second word are packed into this word, that the word is read as them again,
/// and whether it is legal.
fn are_entry_words(rt: &impl Abort, rows: &[(u32, u32, u32, u64, bool)]) {
    for (n, seq, order, word, legal) in rows {
        assert!(rt; *n < 65_536 && *seq < 65_536);
        assert!(rt; entry_word(*n, *seq, *order) == *word, "entry word {word}");
        assert!(rt;
            [entry_n(*word), entry_seq(*word), entry_order(*word)] == [*n, *seq, *order],
            "entry word {word}"
        );
        assert!(rt; is_legal_entry_word(*word) == *legal, "entry word {word}");
    }
}

#[test]
fn gates_and_their_parts(rt: HostRuntime) {
    are_gates(
        &rt,
        &[
            (0, 2, 6, 393_728),
            (0, 2, 3, 197_120),
            (0, 2, 0, 512),
            (4, 4, 0, 1_028),
            (2, 4, 1_016, 66_585_602),
        ],
    );
    assert!(rt; RUNNING_GATE == 512 && CLOSED_GATE == 1_028);
}

#[test]
fn gates_with_bits_or_counts_too_high(rt: HostRuntime) {
    for word in [1_017 << 16, 1 << 32] {
        assert!(rt; !is_legal_gate(word), "gate {word}");
    }
}

#[test]
fn closed_ranges(rt: HostRuntime) {
    for (word, closed) in [
        (0, true),
        (CLOSED_GATE, true),
        (RUNNING_GATE, false),
        (514, false),
        (771, false),
    ] {
        assert!(rt; is_closed_range(word) == closed, "gate {word}");
    }
}

#[test]
fn second_words_of_entries(rt: HostRuntime) {
    are_entry_words(
        &rt,
        &[
            (1, UNDO_SEQ, UNDO_ORDER, 65_537, true),
            (1, REDO_SEQ, REDO_ORDER, 4_295_163_905, true),
            (0, 65_535, 0, 4_294_901_760, false),
            (1, 65_535, 0, 4_294_901_761, true),
            (32, 65_535, 1, 8_589_869_088, true),
            (33, 65_535, 1, 8_589_869_089, false),
            (1, 65_535, 2, 12_884_836_353, false),
        ],
    );
}

#[test]
fn bytes_of_gates_and_entries(rt: HostRuntime) {
    for (word, bytes) in [
        (gate_word(0, 2, 6), [0, 2, 6, 0, 0, 0, 0, 0]),
        (gate_word(0, 2, 3), [0, 2, 3, 0, 0, 0, 0, 0]),
        (
            entry_word(1, UNDO_SEQ, UNDO_ORDER),
            [1, 0, 1, 0, 0, 0, 0, 0],
        ),
        (
            entry_word(1, REDO_SEQ, REDO_ORDER),
            [1, 0, 3, 0, 1, 0, 0, 0],
        ),
    ] {
        assert!(rt; word.to_le_bytes() == bytes, "bytes of {word}");
    }
}
