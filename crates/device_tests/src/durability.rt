//! Tests of a word, a range and a range of zeroes that are made durable. The ranges lie on both sides of the line that
//! begins at word 8.
use pm_mem::{MemHost, Plan};
use pm_model::{Host, HostFault};
use pm_persist::{persist_range, persist_word, write_range, zero_range};
use std::alloc::Global;
use std::process::Abort;
use test_device::zero_device;

/// A call on a device of three lines.
#[derive(Clone, Copy)]
enum Call {
    PersistWord(u32, u64),
    WriteRange(u32, &'static [u64]),
    Fence,
    PersistRange(u32, &'static [u64]),
    ZeroRange(u32, u32),
}

/// Makes the call on any host.
fn made<H: Host>(rt: &impl Abort, host: &mut H, call: Call) -> Result<(), HostFault> {
    assert!(rt; host.words() == 24);
    match call {
        Call::PersistWord(w, v) => {
            assert!(rt; w < 24);
            persist_word(host, w, v)
        }
        Call::WriteRange(w, vals) => {
            assert!(rt; w <= 16 && vals.len() <= 8);
            write_range(host, w, vals)
        }
        Call::Fence => host.fence(),
        Call::PersistRange(w, vals) => {
            assert!(rt; w <= 16 && vals.len() <= 8);
            persist_range(host, w, vals)
        }
        Call::ZeroRange(w, n) => {
            assert!(rt; w <= 16 && n <= 8);
            zero_range(host, w, n)
        }
    }
}

/// The words 6 to 9 have to be these.
fn has_words(rt: &impl Abort, alloc: Global, host: &MemHost, want: &[u64]) {
    let words = host.read_back(alloc).expect(rt, "memory");
    assert!(rt; words.get(6..10) == Some(want), "{want:?}");
}

/// Makes the calls in turn on any host. Each has to succeed. Then power is lost, and each word keeps its durable
/// value.
fn make_all<H: Host>(rt: &impl Abort, host: &mut H, calls: &[Call]) {
    for (at, call) in calls.iter().enumerate() {
        assert!(rt; made(rt, host, *call).is_ok(), "call {at}");
    }
    host.cut(0);
}

/// The words 6 to 9 of a device of zero words have to be these once the calls are made and power is lost.
fn leave(rt: &impl Abort, alloc: Global, calls: &[Call], want: &[u64]) {
    let mut host = zero_device(alloc, 24, b"", Plan::none(alloc)).expect(rt, "memory");
    make_all(rt, &mut host, calls);
    has_words(rt, alloc, &host, want);
}

#[test]
fn a_persisted_word_is_durable(rt: HostRuntime) {
    leave(&rt, rt.alloc(), &[Call::PersistWord(8, 5)], &[0, 0, 5, 0]);
}

#[test]
fn a_written_range_is_durable_after_the_next_fence(rt: HostRuntime) {
    let write = Call::WriteRange(6, &[1, 2, 3]);
    leave(&rt, rt.alloc(), &[write], &[0, 0, 0, 0]);
    leave(&rt, rt.alloc(), &[write, Call::Fence], &[1, 2, 3, 0]);
}

#[test]
fn a_persisted_and_a_zeroed_range_are_durable(rt: HostRuntime) {
    let range = Call::PersistRange(6, &[1, 2, 3, 4]);
    leave(&rt, rt.alloc(), &[range], &[1, 2, 3, 4]);
    leave(
        &rt,
        rt.alloc(),
        &[range, Call::ZeroRange(7, 2)],
        &[1, 0, 0, 4],
    );
}

/// The device steps that persisting the words 6 to 9 takes: four stores, two flushes and a fence.
const RANGE_STEPS: u32 = 7;

/// Persists 1 to 4 at the words 6 to 9, with a cut at this step. Then power is lost with the same pick. The call has
/// to fail if the step is one of its own.
fn cut_range<H: Host>(rt: &impl Abort, host: &mut H, step: u32, pick: u64) {
    let range = Call::PersistRange(6, &[1, 2, 3, 4]);
    assert!(rt; step >= 1);
    host.arm(step, pick);
    assert!(rt;
        made(rt, host, range).is_err() == (step <= RANGE_STEPS),
        "step {step}"
    );
    host.cut(pick);
}

/// The words 6 to 9 of a device of zero words have to be these after 1 to 4 are persisted there. There is a cut at
/// each step in turn, and at the first step after them.
fn cut_at_each_step(rt: &impl Abort, alloc: Global, pick: u64, rows: &[[u64; 4]; 8]) {
    for (step, want) in (1..RANGE_STEPS + 2).zip(rows) {
        let mut host = zero_device(alloc, 24, b"", Plan::none(alloc)).expect(rt, "memory");
        cut_range(rt, &mut host, step, pick);
        has_words(rt, alloc, &host, want);
    }
}

const OLD: [u64; 4] = [0; 4];

const NEW: [u64; 4] = [1, 2, 3, 4];

// The picks keep the oldest values, the newest values, and the newest value of each even word. Each store comes after
// the one before.
#[test]
fn a_range_that_is_cut_off_has_old_and_new_words(rt: HostRuntime) {
    let (one, two, three, odd) = ([1, 0, 0, 0], [1, 2, 0, 0], [1, 2, 3, 0], [1, 0, 3, 0]);
    for (pick, rows) in [
        (0, [OLD, OLD, OLD, OLD, OLD, OLD, OLD, NEW]),
        (1, [OLD, one, two, three, NEW, NEW, NEW, NEW]),
        (
            0x5555_5555_5555_5555,
            [OLD, one, one, odd, odd, odd, odd, NEW],
        ),
    ] {
        cut_at_each_step(&rt, rt.alloc(), pick, &rows);
    }
}
