//! Devices whose words are 0 except for some, and checks of the words that are found on them.
use pm_mem::{MemHost, Plan};
use pm_model::{Host, HostFault};
use std::alloc::Global;
use std::process::Abort;
use test_device::{poke, zero_device};

/// The picks of a power loss: each word has its durable value, or its newest one, or every other word has its newest
/// one and the rest their durable ones.
pub const OLDEST: u64 = 0;

pub const NEWEST: u64 = 1;

pub const EVERY_OTHER: u64 = 0x5555_5555_5555_5555;

/// A device of `words` words. Those in `rows` have these values, and all others are 0.
pub fn device_with(rt: &impl Abort, alloc: Global, words: u32, rows: &[(u32, u64)]) -> MemHost {
    let mut host = zero_device(alloc, words, b"", Plan::none(alloc)).expect(rt, "memory");
    assert!(rt; poke(&mut host, rows));
    host
}

/// A device of `words` words. The log whose gate is word `log` has this gate and these first entry words. All other
/// words are 0.
pub fn device_with_log(
    rt: &impl Abort,
    alloc: Global,
    words: u32,
    log: u32,
    gate: u64,
    entries: &[u64],
) -> MemHost {
    let mut host = device_with(rt, alloc, words, &[(log, gate)]);
    for (at, value) in (log.saturating_add(8)..words).zip(entries) {
        assert!(rt; poke(&mut host, &[(at, *value)]));
    }
    host
}

/// Whether power was lost in the call. The call must not have failed otherwise.
pub fn is_lost(rt: &impl Abort, outcome: Result<(), HostFault>) -> bool {
    assert!(rt; outcome != Err(HostFault::Failed));
    outcome.is_err()
}

/// The newest value of a word.
pub fn word<H: Host>(rt: &impl Abort, host: &mut H, at: u32) -> u64 {
    assert!(rt; at < host.words());
    host.load(at).expect(rt, "no fault")
}

/// Checks that the words from word `from` on have these newest values.
pub fn has<H: Host>(rt: &impl Abort, host: &mut H, from: u32, want: &[u64]) {
    for (at, value) in (from..u32::MAX).zip(want) {
        assert!(rt; word(rt, host, at) == *value, "word {at}");
    }
}

/// Loses power, so that each word keeps its durable value, and checks that the words from word `from` on have these
/// values.
pub fn leaves<H: Host>(rt: &impl Abort, host: &mut H, from: u32, want: &[u64]) {
    host.cut(OLDEST);
    has(rt, host, from, want);
}
