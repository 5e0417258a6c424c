//! Devices that tests begin with. Each is a host in memory whose words have one durable value each. It has room for
//! more device steps and printed bytes than a test takes, so only a test's own plan makes it fail.
//!
//! A test asserts what it gets from here. So nothing here has a contract, and a call that relies on a contract makes
//! sure itself of what that contract requires.
#![tactic(auto)]

use pm_mem::{MemHost, Plan};
use pm_model::Host;
use pud_defs::layout::{
    DEVICE_MAGIC, FRAMES_WORD, MACHINE_WORD, MAGIC_WORD, MAX_FRAMES, MIN_FRAMES, NEXT_NUMBER_WORD,
    VERSION, VERSION_WORD, device_words,
};
use std::alloc::Global;

/// How many device steps there is room for. Formatting the smallest device takes 38,638.
pub const STEPS: u32 = 65_536;

/// How many printed bytes there is room for.
pub const ROOM: u32 = 4_096;

/// The machine id of a blank device.
pub const MACHINE: u64 = 7;

/// A device of zero words, with that script to read. It has the whole lines that `words` words fill. None if
/// allocation fails.
pub fn zero_device(alloc: Global, words: u32, script: &[u8], plan: Plan) -> Option<MemHost> {
    let lines = words / 8;
    MemHost::new(alloc, lines * 8, script, STEPS, ROOM, plan).ok()
}

/// A device of `frames` frames with the machine id [`MACHINE`], as it is after formatting, with room for so many
/// device steps and printed bytes. Its words are enough for at most [`MAX_FRAMES`] frames. None if allocation fails.
pub fn blank_of(
    alloc: Global,
    frames: u32,
    (steps, room): (u32, u32),
    script: &[u8],
    plan: Plan,
) -> Option<MemHost> {
    let lines = device_words(frames.min(MAX_FRAMES)) / 8;
    let mut host = MemHost::new(alloc, lines * 8, script, steps, room, plan).ok()?;
    let described = [
        (MAGIC_WORD, DEVICE_MAGIC),
        (VERSION_WORD, VERSION),
        (MACHINE_WORD, MACHINE),
        (FRAMES_WORD, u64::from(frames)),
        (NEXT_NUMBER_WORD, 1),
    ];
    poke(&mut host, &described).then_some(host)
}

/// The smallest device, as it is after formatting. None if allocation fails.
pub fn blank_device(alloc: Global, script: &[u8], plan: Plan) -> Option<MemHost> {
    blank_of(alloc, MIN_FRAMES, (STEPS, ROOM), script, plan)
}

/// Gives each of these words one durable value, in order. Stops at a word that the device does not have. Returns
/// whether it has all of them.
pub fn poke(host: &mut MemHost, rows: &[(u32, u64)]) -> bool {
    for (word, value) in rows {
        if *word >= host.words() {
            return false;
        }
        host.poke(*word, *value);
    }
    true
}

/// The plan by which power is lost at these device steps, each with its pick. None if allocation fails.
pub fn cuts(alloc: Global, cuts: &[(u32, u64)]) -> Option<Plan> {
    Some(Plan {
        fails: Vec::new(alloc),
        cuts: Vec::from_slice(alloc, cuts).ok()?,
    })
}

/// The plan by which the calls of these numbers fail. None if allocation fails.
pub fn failures(alloc: Global, calls: &[u32]) -> Option<Plan> {
    Some(Plan {
        fails: Vec::from_slice(alloc, calls).ok()?,
        cuts: Vec::new(alloc),
    })
}
