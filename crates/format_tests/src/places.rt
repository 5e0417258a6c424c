//! Tests of where things lie. The expected numbers were worked out apart from the code.
use pud_defs::layout::{
    CLIENT_LOGS, CLIENTS, DEVICE_MAGIC, LOG_WORDS, MAX_FRAMES, device_words, frames_at, log_at,
    tables_end,
};
use std::process::Abort;

/// Asserts at which words a device with this many frames has the end of its tables, its first frame and its end.
fn lies(rt: &impl Abort, frames: u32, tables: u32, first_frame: u32, words: u32) {
    assert!(rt; frames <= MAX_FRAMES);
    assert!(rt; tables_end(frames) == tables, "tables of {frames}");
    assert!(rt; frames_at(frames) == first_frame, "frames of {frames}");
    assert!(rt; device_words(frames) == words, "words of {frames}");
}

/// Asserts that the client's log with this number lies at this word on a device of four frames.
fn has_log(rt: &impl Abort, client: u32, number: u32, at: u32) {
    assert!(rt; client < CLIENTS && number < CLIENT_LOGS);
    assert!(rt; log_at(4, client, number) == at, "log {number} of {client}");
}

#[test]
fn magic_is_its_eight_letters(rt: HostRuntime) {
    assert!(rt; DEVICE_MAGIC.to_le_bytes() == *b"PUDDEV01");
}

#[test]
fn smallest_and_largest_device(rt: HostRuntime) {
    lies(&rt, 4, 1_568, 34_336, 42_528);
    lies(&rt, 1_024, 9_728, 42_496, 2_139_648);
}

#[test]
fn first_and_last_log_of_a_client(rt: HostRuntime) {
    has_log(&rt, 0, 0, 1_568);
    has_log(&rt, 1, 0, 5_664);
    has_log(&rt, 7, 3, 33_312);
    assert!(rt; 33_312 + LOG_WORDS == frames_at(4));
}
