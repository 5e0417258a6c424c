//! Tests of replays of a client's log, whose addresses are those of puddles.
use crate::device::{EVERY_OTHER, NEWEST, OLDEST, device_with_log, has, is_lost, leaves};
use log_replay::{Target, replay_range, settle_log};
use pm_mem::MemHost;
use pm_model::Host;
use pud_defs::layout::LOG_WORDS;
use std::alloc::Global;
use std::process::Abort;
use test_device::poke;

// The second words of entries with one value and with two.
const UNDO: u64 = 65_537;

const UNDO_TWO: u64 = 65_538;

const REDO: u64 = 4_295_163_905;

const REDO_TWO: u64 = 4_295_163_906;

/// How many frames the device has.
const FRAMES: u32 = 4;

/// How many words the device has.
const WORDS: u32 = 42_528;

/// The word that is the gate of the first client's first log.
const LOG: u32 = 1_568;

/// The words of the puddle table: the puddle of frame 1 has the first range of the space, and that of frame 3 the third
/// one.
const TABLE: [(u32, u64); 4] = [
    (1_544, 1),
    (1_546, 17_592_186_044_416),
    (1_560, 4_294_967_297),
    (1_562, 17_592_186_077_184),
];

/// The values of the words that the entries name: two words of frame 1, on two lines, and the last word of frame 3,
/// which is the last one of the device.
const NAMED: [(u32, u64); 3] = [(36_455, 10), (36_456, 11), (42_527, 12)];

// The addresses of these words.
const FIRST: u64 = 17_592_186_044_984;

const SECOND: u64 = 17_592_186_044_992;

const LAST: u64 = 17_592_186_093_560;

/// A device of two puddles whose log has this range and these entry words.
fn device(rt: &impl Abort, alloc: Global, range: u64, words: &[u64]) -> MemHost {
    assert!(rt; range < 65_536 && words.len() < 65_536);
    let gate = range + ((words.len() as u64) << 16);
    let mut host = device_with_log(rt, alloc, WORDS, LOG, gate, words);
    assert!(rt; poke(&mut host, &TABLE) && poke(&mut host, &NAMED));
    host
}

/// Loses power, so that each word keeps its durable value, and checks these words, and that the table is as it was.
fn leaves_named<H: Host>(rt: &impl Abort, host: &mut H, named: &[u64; 3]) {
    leaves(rt, host, 36_455, &[named[0], named[1]]);
    has(rt, host, 42_527, &[named[2]]);
    has(rt, host, 1_544, &[1, 0, 17_592_186_044_416, 0]);
}

/// Replays the log, and checks that it leaves these words.
fn replay<H: Host>(rt: &impl Abort, host: &mut H, named: &[u64; 3]) {
    assert!(rt; LOG + LOG_WORDS <= host.words());
    assert!(rt; !is_lost(rt, replay_range(host, LOG, Target::Puddles(FRAMES))));
    leaves_named(rt, host, named);
}

/// The same on a new device.
fn replay_on(rt: &impl Abort, alloc: Global, range: u64, words: &[u64], named: &[u64; 3]) {
    let mut host = device(rt, alloc, range, words);
    replay(rt, &mut host, named);
}

#[test]
fn what_a_replay_to_puddles_makes_durable(rt: HostRuntime) {
    let rows: [(u64, &[u64], [u64; 3]); 8] = [
        // Undo entries name one word twice: its oldest value counts.
        (512, &[FIRST, UNDO, 1, FIRST, UNDO, 2], [1, 11, 12]),
        // Redo entries in both puddles. One word is named twice.
        (
            1_026,
            &[FIRST, REDO_TWO, 3, 4, LAST, REDO, 5, SECOND, REDO, 6],
            [3, 6, 5],
        ),
        // An undo entry and a redo entry name one word: the redo entry's value counts.
        (1_024, &[FIRST, REDO, 1, FIRST, UNDO, 2], [1, 11, 12]),
        // A closed log.
        (1_028, &[FIRST, UNDO, 1, LAST, REDO, 2], [10, 11, 12]),
        // An address in the range between the two puddles, and one before the space: such an entry is left out.
        (
            512,
            &[17_592_186_060_800, UNDO, 1, SECOND, UNDO, 2],
            [10, 2, 12],
        ),
        (
            512,
            &[17_592_186_044_408, UNDO, 1, SECOND, UNDO, 2],
            [10, 2, 12],
        ),
        // Numbers of device words are no addresses: one is of the puddle table, and one of a word of frame 1.
        (512, &[1_546, UNDO, 1, 36_455, UNDO, 2], [10, 11, 12]),
        // The last word of the device and the one after it, which does not exist.
        (512, &[LAST, UNDO_TWO, 1, 2], [10, 11, 12]),
    ];
    for (range, words, named) in rows {
        replay_on(&rt, rt.alloc(), range, words, &named);
    }
}

/// Replays and closes the log. The result is whether power was lost.
fn is_settling_cut<H: Host>(rt: &impl Abort, host: &mut H) -> bool {
    assert!(rt; LOG + LOG_WORDS <= host.words());
    is_lost(rt, settle_log(host, LOG, Target::Puddles(FRAMES)))
}

/// Replays and closes the log with a power loss at this step, and again if it was cut off. Then the log has to be
/// closed, and these words left.
fn settle_cut<H: Host>(rt: &impl Abort, host: &mut H, step: u32, pick: u64, named: &[u64; 3]) {
    assert!(rt; step >= 1);
    host.arm(step, pick);
    let is_cut = is_settling_cut(rt, host);
    assert!(rt; is_cut == (step <= 14), "step {step}");
    assert!(rt; !is_cut || !is_settling_cut(rt, host));
    leaves_named(rt, host, named);
    has(rt, host, LOG, &[1_028]);
}

/// The same on a new device.
fn settle_cut_on(rt: &impl Abort, alloc: Global, step: u32, pick: u64) {
    let words = [
        FIRST, UNDO_TWO, 1, 2, FIRST, UNDO, 7, LAST, REDO, 3, SECOND, REDO, 4,
    ];
    let mut host = device(rt, alloc, 1_024, &words);
    settle_cut(rt, &mut host, step, pick, &[1, 4, 3]);
}

// Five stores, five flushes and a fence, and three steps for the gate of the closed log: 14 in all. The 15th step comes
// after that.
#[test]
fn a_client_s_log_that_is_cut_off_is_settled_again(rt: HostRuntime) {
    for pick in [OLDEST, NEWEST, EVERY_OTHER] {
        for step in 1..16 {
            settle_cut_on(&rt, rt.alloc(), step, pick);
        }
    }
}
