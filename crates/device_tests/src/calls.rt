//! Calls on any host, and their answers as numbers.
use pm_model::{Host, HostFault};
use std::alloc::Global;
use std::process::Abort;

/// A call of the host.
#[derive(Clone, Copy)]
pub(crate) enum Call {
    Load(u32),
    Store(u32, u64),
    Flush(u32),
    Fence,
    Cut(u64),
    Arm(u32, u64),
    Read,
}

/// The answer of a call that returns nothing.
pub(crate) const DONE: u64 = 0;

/// The answer of a call that failed.
pub(crate) const FAILED: u64 = 1_001;

/// The answer of a call in which power was lost.
pub(crate) const LOST: u64 = 1_002;

/// The answer of a read at the end of the script.
pub(crate) const END: u64 = 1_003;

pub(crate) fn number(outcome: Result<u64, HostFault>) -> u64 {
    match outcome {
        Ok(value) => value,
        Err(HostFault::Failed) => FAILED,
        Err(HostFault::Cut) => LOST,
    }
}

pub(crate) fn done(outcome: Result<(), HostFault>) -> u64 {
    match outcome {
        Ok(()) => DONE,
        Err(fault) => number(Err(fault)),
    }
}

/// What the call answers on any host, as a number.
pub(crate) fn answer<H: Host>(rt: &impl Abort, host: &mut H, call: Call) -> u64 {
    let words = host.words();
    match call {
        Call::Load(w) => {
            assert!(rt; w < words);
            number(host.load(w))
        }
        Call::Store(w, v) => {
            assert!(rt; w < words);
            done(host.store(w, v))
        }
        Call::Flush(line) => {
            assert!(rt; line < words / 8);
            done(host.flush(line))
        }
        Call::Fence => done(host.fence()),
        Call::Cut(pick) => {
            host.cut(pick);
            DONE
        }
        Call::Arm(steps, pick) => {
            assert!(rt; steps >= 1);
            host.arm(steps, pick);
            DONE
        }
        Call::Read => number(next_byte(host.read())),
    }
}

fn next_byte(outcome: Result<Option<u8>, HostFault>) -> Result<u64, HostFault> {
    match outcome {
        Ok(Some(byte)) => Ok(u64::from(byte)),
        Ok(None) => Ok(END),
        Err(fault) => Err(fault),
    }
}

/// Makes the calls in turn. Each has to answer this.
pub(crate) fn answers<H: Host>(rt: &impl Abort, host: &mut H, rows: &[(Call, u64)]) {
    for (at, (call, want)) in rows.iter().enumerate() {
        assert!(rt; answer(rt, host, *call) == *want, "call {at}");
    }
}

/// The shelf has to have a file of that name with these bytes, or none.
pub(crate) fn has_file<H: Host>(
    rt: &impl Abort,
    alloc: Global,
    host: &mut H,
    name: &str,
    want: Option<&[u8]>,
) {
    let found = host.file_get(alloc, name).expect(rt, "no fault");
    match (found, want) {
        (Some(bytes), Some(want)) => assert!(rt; bytes.as_slice() == want, "{name}"),
        (found, want) => assert!(rt; found.is_none() && want.is_none(), "{name}"),
    }
}
