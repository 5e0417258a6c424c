//! Tests of batches: the words that they write, how much they take, and what a power loss leaves.
use crate::device::{EVERY_OTHER, NEWEST, OLDEST, device_with, has, is_lost, word};
use batch::Batch;
use log_replay::{Target, replay_range};
use pm_model::Host;
use pud_defs::layout::{DAEMON_LOG, LOG_WORDS};
use pud_defs::log_words::{COMMITTING_HI, COMMITTING_LO, gate_hi, gate_lo};
use std::alloc::Global;
use std::process::Abort;

/// How many words the devices here have.
const WORDS: u32 = 1_200;

/// Commits a batch. It has `full` entries for the words from word 1,095 on, each with 32 values that are its number,
/// and then the entries of the rows. A row tells whether its entry has to be added or to be too big. The result is
/// whether power was lost.
fn is_cut<H: Host>(rt: &impl Abort, host: &mut H, full: u64, rows: &[(u32, &[u64], bool)]) -> bool {
    let mut batch = Batch::new();
    for round in 0..full {
        assert!(rt; batch.add(1_095, &[round; 32]).is_ok());
    }
    for (w, vals, fits) in rows {
        assert!(rt; 1 <= vals.len() && vals.len() <= 32);
        assert!(rt; batch.add(*w, vals).is_ok() == *fits, "word {w}");
    }
    assert!(rt; DAEMON_LOG + LOG_WORDS <= host.words());
    is_lost(rt, batch.commit(host))
}

/// Replays the daemon log if its range is that of a committing log.
fn replay<H: Host>(rt: &impl Abort, host: &mut H) {
    let gate = word(rt, host, DAEMON_LOG);
    if gate_lo(gate) == COMMITTING_LO && gate_hi(gate) == COMMITTING_HI {
        assert!(rt; DAEMON_LOG + LOG_WORDS <= host.words());
        assert!(rt; replay_range(host, DAEMON_LOG, Target::Words).is_ok());
    }
}

/// Commits each batch, with `full` entries before its own, then replays the daemon log if it has to, and then loses
/// power. At the end the words of `left` have to be there, from each of its places on.
fn commit_all<H: Host>(
    rt: &impl Abort,
    host: &mut H,
    full: u64,
    batches: &[&[(u32, &[u64], bool)]],
    left: &[(u32, &[u64])],
) {
    for rows in batches {
        assert!(rt; !is_cut(rt, host, full, rows));
        replay(rt, host);
        host.cut(OLDEST);
    }
    for (from, words) in left {
        has(rt, host, *from, words);
    }
}

/// Commits the batches on a device whose words are 0, except for word 1,095, which is 4.
fn commit(
    rt: &impl Abort,
    alloc: Global,
    full: u64,
    batches: &[&[(u32, &[u64], bool)]],
    left: &[(u32, &[u64])],
) {
    let mut host = device_with(rt, alloc, WORDS, &[(1_095, 4)]);
    commit_all(rt, &mut host, full, batches, left);
}

#[test]
fn a_batch_is_written_and_what_is_added_later_counts(rt: HostRuntime) {
    let first: [(u32, &[u64], bool); 4] = [
        (1_095, &[5, 6, 7], true),
        (3, &[u64::MAX], true),
        (1_096, &[8], true),
        (1_098, &[9], true),
    ];
    let left: [(u32, &[u64]); 3] = [
        (1_094, &[0, 5, 8, 7, 9, 0]),
        (2, &[0, u64::MAX, 0]),
        (64, &[1_028]),
    ];
    commit(&rt, rt.alloc(), 0, &[&first], &left);
    // Another batch can follow.
    let second: [(u32, &[u64], bool); 1] = [(1_097, &[1, 2], true)];
    let left: [(u32, &[u64]); 1] = [(1_094, &[0, 5, 8, 1, 2, 0])];
    commit(&rt, rt.alloc(), 0, &[&first, &second], &left);
}

#[test]
fn a_batch_of_no_words_changes_none(rt: HostRuntime) {
    let left: [(u32, &[u64]); 2] = [(1_094, &[0, 4, 0, 0, 0, 0]), (64, &[1_028])];
    commit(&rt, rt.alloc(), 0, &[&[]], &left);
}

// 29 entries of 32 values take 986 words. So 28 values and the two words before them fill the log.
#[test]
fn a_batch_takes_1016_entry_words(rt: HostRuntime) {
    let rows: [(u32, &[u64], bool); 4] = [
        (1_095, &[7; 32], false),
        (1_095, &[7; 29], false),
        (1_098, &[9; 28], true),
        (1_095, &[7], false),
    ];
    let left: [(u32, &[u64]); 3] = [
        (1_094, &[0, 28, 28, 28, 9, 9]),
        (1_125, &[9, 28, 0]),
        (64, &[1_028]),
    ];
    commit(&rt, rt.alloc(), 29, &[&rows], &left);
}

/// Commits a batch of three words on two lines, with a power loss at this step, and then replays the daemon log. There
/// are 28 steps. The entries are ten words on two lines and take thirteen. The gate that makes them count takes the
/// next three. Then there are four stores, four flushes and a fence, and three steps for the gate of the closed log.
/// From step `new_from` on the words are the new ones, else they are as they were.
fn batch_cut<H: Host>(rt: &impl Abort, host: &mut H, step: u32, pick: u64, new_from: u32) {
    assert!(rt; step >= 1);
    host.arm(step, pick);
    let rows: [(u32, &[u64], bool); 3] = [
        (1_098, &[4], true),
        (1_095, &[1, 2], true),
        (1_098, &[3], true),
    ];
    assert!(rt; is_cut(rt, host, 0, &rows) == (step <= 28), "step {step}");
    host.cut(pick);
    replay(rt, host);
    host.cut(pick);
    if step >= new_from {
        has(rt, host, 1_094, &[1_094, 1, 2, 1_097, 3, 1_099]);
    } else {
        has(rt, host, 1_094, &[1_094, 1_095, 1_096, 1_097, 1_098, 1_099]);
    }
}

/// The words of that batch, and those next to them, before the batch.
const OLD: [(u32, u64); 6] = [
    (1_094, 1_094),
    (1_095, 1_095),
    (1_096, 1_096),
    (1_097, 1_097),
    (1_098, 1_098),
    (1_099, 1_099),
];

/// The same on a new device.
fn batch_cut_at(rt: &impl Abort, alloc: Global, step: u32, pick: u64, new_from: u32) {
    let mut host = device_with(rt, alloc, WORDS, &OLD);
    batch_cut(rt, &mut host, step, pick, new_from);
}

// A power loss at the fifteenth step may leave the gate by which the entries count. One at the seventeenth step does
// leave it. The 29th step comes after the batch.
#[test]
fn a_batch_cut_at_a_step_is_written_whole_or_not_at_all(rt: HostRuntime) {
    for step in 1..30 {
        batch_cut_at(&rt, rt.alloc(), step, OLDEST, 17);
        batch_cut_at(&rt, rt.alloc(), step, NEWEST, 15);
        batch_cut_at(&rt, rt.alloc(), step, EVERY_OTHER, 15);
    }
}
