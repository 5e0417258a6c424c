//! Tests of a log that grows: its gates, how much it takes, and what a power loss leaves of an append.
ghost use Rattle.std.specs.Prelude.{◌≡◌};

use crate::device::{EVERY_OTHER, NEWEST, OLDEST, device_with, has, leaves};
use log_store::{AppendFault, Log};
use pm_model::{Host, HostFault};
use pud_defs::layout::{DAEMON_LOG, LOG_WORDS};
use pud_defs::log_words::{REDO_ORDER, REDO_SEQ};
use std::alloc::Global;
use std::process::Abort;

/// The number of words of a device that ends with the daemon log.
const WORDS: u32 = 1_088;

/// The place that the entries name.
const ADDRESS: u64 = 17_592_186_044_944;

/// The result of an append that was done.
const DONE: u32 = 0;

/// The result of an append that is too big.
const TOO_BIG: u32 = 1;

/// The result of an append in which power was lost.
const LOST: u32 = 2;

/// Appends an entry with these values.
fn append<H: Host>(rt: &impl Abort, host: &mut H, log: &mut Log, vals: &[u64]) -> u32
    requires { log.old.gate_at ≡ 64 }
    ensures { log.new.gate_at ≡ 64 }
{
    assert!(rt; DAEMON_LOG + LOG_WORDS <= host.words() && 1 <= vals.len() && vals.len() <= 32);
    match log.append(host, ADDRESS, REDO_SEQ, REDO_ORDER, vals) {
        Ok(()) => DONE,
        Err(AppendFault::TooBig) => TOO_BIG,
        Err(AppendFault::Host(HostFault::Cut)) => LOST,
        Err(AppendFault::Host(HostFault::Failed)) => 3,
    }
}

/// Appends two undo entries: one with these values, and one with a single value.
fn append_two<H: Host>(rt: &impl Abort, host: &mut H, log: &mut Log, vals: &[u64]) -> u32
    requires { log.old.gate_at ≡ 64 }
    ensures { log.new.gate_at ≡ 64 }
{
    assert!(rt; DAEMON_LOG + LOG_WORDS <= host.words() && 1 <= vals.len() && vals.len() <= 32);
    match log.append_two(host, ADDRESS, vals, ADDRESS + 8, 98) {
        Ok(()) => DONE,
        Err(AppendFault::TooBig) => TOO_BIG,
        Err(AppendFault::Host(HostFault::Cut)) => LOST,
        Err(AppendFault::Host(HostFault::Failed)) => 3,
    }
}

/// Opens a log, and appends `full` entries of 32 values. Then it appends an entry for each row: the row tells its
/// values, the result, and the gate after it. Then the log moves to committing, with the gate `committed`, and is
/// closed.
fn grow<H: Host>(
    rt: &impl Abort,
    host: &mut H,
    full: u32,
    rows: &[(&[u64], u32, u64)],
    committed: u64,
) {
    assert!(rt; DAEMON_LOG + LOG_WORDS <= host.words());
    let mut log = Log::open_running(host, DAEMON_LOG).expect(rt, "no fault");
    leaves(rt, host, DAEMON_LOG, &[512]);
    for _ in 0..full {
        assert!(rt; append(rt, host, &mut log, &[7; 32]) == DONE);
    }
    for (vals, want, gate) in rows {
        assert!(rt; append(rt, host, &mut log, vals) == *want, "gate {gate}");
        leaves(rt, host, DAEMON_LOG, &[*gate]);
    }
    assert!(rt; DAEMON_LOG + LOG_WORDS <= host.words());
    log.to_committing(host).expect(rt, "no fault");
    leaves(rt, host, DAEMON_LOG, &[committed]);
    assert!(rt; DAEMON_LOG + LOG_WORDS <= host.words());
    log.close(host).expect(rt, "no fault");
    leaves(rt, host, DAEMON_LOG, &[1_028]);
}

/// Grows a log on a new device, and checks that the words from word `from` on are `want`.
fn leave_grown(
    rt: &impl Abort,
    alloc: Global,
    (full, rows, committed): (u32, &[(&[u64], u32, u64)], u64),
    from: u32,
    want: &[u64],
) {
    let mut host = device_with(rt, alloc, WORDS, &[]);
    grow(rt, &mut host, full, rows, committed);
    has(rt, &mut host, from, want);
}

#[test]
fn each_gate_is_durable(rt: HostRuntime) {
    let rows: [(&[u64], u32, u64); 2] = [(&[99], DONE, 197_120), (&[98], DONE, 393_728)];
    let entry_words = [ADDRESS, 4_295_163_905, 99, ADDRESS, 4_295_163_905, 98, 0];
    leave_grown(&rt, rt.alloc(), (0, &rows, 394_242), 72, &entry_words);
}

// 29 entries of 34 words leave room for 30 words.
#[test]
fn an_entry_is_too_big_from_1_017_words_on(rt: HostRuntime) {
    let rows: [(&[u64], u32, u64); 3] = [
        (&[7; 29], TOO_BIG, 64_619_008),
        (&[7; 28], DONE, 66_585_088),
        (&[7], TOO_BIG, 66_585_088),
    ];
    leave_grown(&rt, rt.alloc(), (29, &rows, 66_585_602), 1_087, &[7]);
}

/// Appends an entry of six values after another one, with a power loss at this step of the append. The append takes 14
/// steps: eight stores, two flushes and a fence, and then a store of the gate, a flush and a fence. From step
/// `counted_from` on the gate counts the entry, and its words are there. They lie on both sides of the start of a line,
/// which is word 80.
fn append_cut<H: Host>(rt: &impl Abort, host: &mut H, step: u32, pick: u64, counted_from: u32) {
    assert!(rt; DAEMON_LOG + LOG_WORDS <= host.words() && step >= 1);
    let mut log = Log::open_running(host, DAEMON_LOG).expect(rt, "no fault");
    assert!(rt; append(rt, host, &mut log, &[99]) == DONE);
    host.arm(step, pick);
    let answer = if step <= 14 { LOST } else { DONE };
    assert!(rt;
        append(rt, host, &mut log, &[1, 2, 3, 4, 5, 6]) == answer,
        "step {step}"
    );
    if step >= counted_from {
        has(rt, host, DAEMON_LOG, &[721_408]);
        has(rt, host, 75, &[ADDRESS, 4_295_163_910, 1, 2, 3, 4, 5, 6]);
    } else {
        has(rt, host, DAEMON_LOG, &[197_120]);
    }
}

/// The same on a new device.
fn append_cut_at(rt: &impl Abort, alloc: Global, step: u32, pick: u64, counted_from: u32) {
    let mut host = device_with(rt, alloc, WORDS, &[]);
    append_cut(rt, &mut host, step, pick, counted_from);
}

// A power loss at the thirteenth step may leave the new gate. The fifteenth step comes after the append.
#[test]
fn a_cut_leaves_the_log_as_it_was_or_with_the_entry(rt: HostRuntime) {
    for step in 1..16 {
        append_cut_at(&rt, rt.alloc(), step, OLDEST, 15);
        append_cut_at(&rt, rt.alloc(), step, NEWEST, 13);
        append_cut_at(&rt, rt.alloc(), step, EVERY_OTHER, 13);
    }
}

/// Appends two entries of one value each to a log without entries, with a power loss at this step of the append. The
/// append takes 11 steps: six stores, a flush and a fence, and then a store of the gate, a flush and a fence. From step
/// `counted_from` on the gate counts both.
fn two_cut<H: Host>(rt: &impl Abort, host: &mut H, step: u32, pick: u64, counted_from: u32) {
    assert!(rt; DAEMON_LOG + LOG_WORDS <= host.words() && step >= 1);
    let mut log = Log::open_running(host, DAEMON_LOG).expect(rt, "no fault");
    host.arm(step, pick);
    let answer = if step <= 11 { LOST } else { DONE };
    assert!(rt;
        append_two(rt, host, &mut log, &[99]) == answer,
        "step {step}"
    );
    if step >= counted_from {
        has(rt, host, DAEMON_LOG, &[393_728]);
        has(
            rt,
            host,
            72,
            &[ADDRESS, 65_537, 99, ADDRESS + 8, 65_537, 98],
        );
    } else {
        has(rt, host, DAEMON_LOG, &[512]);
    }
}

/// The same on a new device.
fn two_cut_at(rt: &impl Abort, alloc: Global, step: u32, pick: u64, counted_from: u32) {
    let mut host = device_with(rt, alloc, WORDS, &[]);
    two_cut(rt, &mut host, step, pick, counted_from);
}

// A power loss at the tenth step may leave the new gate. The twelfth step comes after the append.
#[test]
fn a_cut_leaves_the_log_as_it_was_or_with_both_entries(rt: HostRuntime) {
    for step in 1..13 {
        two_cut_at(&rt, rt.alloc(), step, OLDEST, 12);
        two_cut_at(&rt, rt.alloc(), step, NEWEST, 10);
        two_cut_at(&rt, rt.alloc(), step, EVERY_OTHER, 10);
    }
}

/// Appends two entries to a log with `full` entries of 32 values: one with `vals`, and one with a single value. The
/// result has to be `want`, and the gate `gate`.
fn two_after(rt: &impl Abort, alloc: Global, full: u32, vals: &[u64], want: u32, gate: u64) {
    let mut host = device_with(rt, alloc, WORDS, &[]);
    assert!(rt; DAEMON_LOG + LOG_WORDS <= host.words());
    let mut log = Log::open_running(&mut host, DAEMON_LOG).expect(rt, "no fault");
    for _ in 0..full {
        assert!(rt; append(rt, &mut host, &mut log, &[7; 32]) == DONE);
    }
    assert!(rt;
        append_two(rt, &mut host, &mut log, vals) == want,
        "gate {gate}"
    );
    leaves(rt, &mut host, DAEMON_LOG, &[gate]);
}

// 29 entries of 34 words leave room for 30 words.
#[test]
fn two_entries_are_too_big_from_1_017_words_on(rt: HostRuntime) {
    two_after(&rt, rt.alloc(), 29, &[7; 26], TOO_BIG, 64_619_008);
    two_after(&rt, rt.alloc(), 29, &[7; 25], DONE, 66_585_088);
}
