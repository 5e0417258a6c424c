//! Tests of replays: which words they make durable, and that a replay that is cut off can be done again.
use crate::device::{EVERY_OTHER, NEWEST, OLDEST, device_with_log, has, is_lost, leaves};
use log_replay::{Target, replay_range};
use pm_model::Host;
use pud_defs::layout::{DAEMON_LOG, LOG_WORDS};
use std::alloc::Global;
use std::process::Abort;
use test_device::poke;

// The second words of entries with one value and with two.
const UNDO: u64 = 65_537;

const UNDO_TWO: u64 = 65_538;

const REDO: u64 = 4_295_163_905;

const REDO_TWO: u64 = 4_295_163_906;

/// The values of the words that the entries name: two at the end of a line, two at the start of the next, and the last
/// word of the device.
const NAMED: [(u32, u64); 5] = [
    (1_094, 10),
    (1_095, 11),
    (1_096, 12),
    (1_097, 13),
    (2_047, 14),
];

/// Replays the log. The result is whether power was lost.
fn is_cut<H: Host>(rt: &impl Abort, host: &mut H) -> bool {
    assert!(rt; DAEMON_LOG + LOG_WORDS <= host.words());
    is_lost(rt, replay_range(host, DAEMON_LOG, Target::Words))
}

/// Replays the log, with a power loss at this step unless the replay is shorter, as `is_short` tells. If it was cut
/// off, it is replayed again. Then power is lost, so that each word keeps its durable value. The named words and the
/// last one have to be these.
fn replay_cut<H: Host>(
    rt: &impl Abort,
    host: &mut H,
    (step, pick): (u32, u64),
    is_short: bool,
    (named, last): (&[u64], u64),
) {
    assert!(rt; step >= 1);
    host.arm(step, pick);
    assert!(rt; is_cut(rt, host) != is_short, "step {step}");
    assert!(rt; is_short || !is_cut(rt, host));
    leaves(rt, host, 1_094, named);
    has(rt, host, 2_047, &[last]);
}

/// Does this with a log of this range that counts these words, on a new device.
fn replay_at(
    rt: &impl Abort,
    alloc: Global,
    (range, words): (u64, &[u64]),
    (loss, is_short): ((u32, u64), bool),
    left: (&[u64], u64),
) {
    assert!(rt; range < 65_536 && words.len() < 65_536);
    let gate = range + ((words.len() as u64) << 16);
    let mut host = device_with_log(rt, alloc, 2_048, DAEMON_LOG, gate, words);
    assert!(rt; poke(&mut host, &NAMED));
    replay_cut(rt, &mut host, loss, is_short, left);
}

/// No replay here takes that many steps.
const NO_LOSS: (u32, u64) = (100, OLDEST);

#[test]
fn what_a_replay_makes_durable(rt: HostRuntime) {
    let rows: [(u64, &[u64], [u64; 4], u64); 13] = [
        // One word is named twice. Of undo entries the oldest value counts, of redo entries the last one, and of both
        // the redo entry's.
        (512, &[1_094, UNDO, 1, 1_094, UNDO, 2], [1, 11, 12, 13], 14),
        (
            1_026,
            &[1_094, REDO, 1, 1_094, REDO, 2],
            [2, 11, 12, 13],
            14,
        ),
        (
            1_024,
            &[1_094, UNDO, 1, 1_094, REDO, 2],
            [2, 11, 12, 13],
            14,
        ),
        (
            1_024,
            &[1_094, REDO, 1, 1_094, UNDO, 2],
            [1, 11, 12, 13],
            14,
        ),
        // The ranges (0,2), (2,4), (1,3) and the closed one, with the sequence numbers 1 and 3.
        (512, &[1_094, UNDO, 1, 1_095, REDO, 2], [1, 11, 12, 13], 14),
        (
            1_026,
            &[1_094, UNDO, 1, 1_095, REDO, 2],
            [10, 2, 12, 13],
            14,
        ),
        (769, &[1_094, UNDO, 1, 1_095, REDO, 2], [10, 11, 12, 13], 14),
        (
            1_028,
            &[1_094, UNDO, 1, 1_095, REDO, 2],
            [10, 11, 12, 13],
            14,
        ),
        // The last word of the device, and the word after it, which does not exist.
        (512, &[2_047, UNDO, 1, 2_048, UNDO, 2], [10, 11, 12, 13], 1),
        // Two values each. One word is named twice.
        (
            512,
            &[1_094, UNDO_TWO, 1, 2, 1_095, UNDO_TWO, 3, 4],
            [1, 2, 4, 13],
            14,
        ),
        (
            1_026,
            &[1_094, REDO_TWO, 1, 2, 1_095, REDO_TWO, 3, 4],
            [1, 3, 4, 13],
            14,
        ),
        (
            1_028,
            &[1_094, UNDO_TWO, 1, 2, 1_095, UNDO_TWO, 3, 4],
            [10, 11, 12, 13],
            14,
        ),
        // A closed log that counts no words.
        (1_028, &[], [10, 11, 12, 13], 14),
    ];
    for (range, words, named, last) in rows {
        replay_at(
            &rt,
            rt.alloc(),
            (range, words),
            (NO_LOSS, true),
            (&named, last),
        );
    }
}

// Eight stores, six flushes and the fence are 15 steps. Power is lost at each of them, and then what this left is
// replayed. The 16th step comes after the replay.
#[test]
fn a_replay_that_is_cut_off_is_done_again(rt: HostRuntime) {
    let words = [
        1_094, UNDO, 1, 1_095, UNDO_TWO, 2, 3, 1_094, UNDO_TWO, 4, 5, 1_096, REDO_TWO, 6, 7, 1_097,
        REDO, 8,
    ];
    for pick in [OLDEST, NEWEST, EVERY_OTHER] {
        for step in 1..17 {
            let loss = ((step, pick), step > 15);
            replay_at(&rt, rt.alloc(), (1_024, &words), loss, (&[1, 2, 6, 8], 14));
        }
    }
}
