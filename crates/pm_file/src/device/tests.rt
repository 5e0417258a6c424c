use super::Device;
use crate::device_file::DeviceFile;
use crate::device_words::DeviceWords;
use crate::fake_file::{BYTES, FakeFile, NEVER_WRITTEN};
use pm_model::HostFault;
use std::alloc::Global;
use std::fs::OpenFile;
use std::os::unix::fs::FileExt;
use std::process::Abort;

fn fake_device(rt: &impl Abort, alloc: Global) -> Device<FakeFile> {
    let words = DeviceWords::new(alloc, 16, Vec::new(alloc)).expect(rt, "memory");
    Device::new(DeviceFile::new(FakeFile::new([0; BYTES]), false), words)
}

/// What a test does to the device or to its file.
#[derive(Clone, Copy, Debug)]
enum Call {
    /// Stores a word and flushes its line.
    Put(u32, u64),
    Flush(u32),
    Load(u32),
    Fence,
    Cut(u64),
    RefuseWrite(bool),
    RefuseSync(bool),
    /// Reads a byte of the file.
    Byte(usize),
    /// Reads a byte of the disk that the file is on.
    Disk(usize),
}

/// The answer of a call that returns nothing.
const DONE: u64 = 0;

/// The answer of a call that failed.
const FAILED: u64 = 1_001;

fn number(outcome: Result<u64, HostFault>) -> u64 {
    match outcome {
        Ok(value) => value,
        Err(_) => FAILED,
    }
}

fn done(outcome: Result<(), HostFault>) -> u64 {
    match outcome {
        Ok(()) => DONE,
        Err(_) => FAILED,
    }
}

fn put<F: FileExt + OpenFile>(
    rt: &impl Abort,
    device: &mut Device<F>,
    word: u32,
    value: u64,
) -> u64 {
    assert!(rt; word < device.words.count());
    let stored = done(device.store(word, value));
    assert!(rt; word / 8 < device.words.count() / 8);
    stored.max(done(device.flush(word / 8)))
}

fn load<F: FileExt + OpenFile>(rt: &impl Abort, device: &mut Device<F>, word: u32) -> u64 {
    assert!(rt; word < device.words.count());
    number(device.load(word))
}

fn answer(rt: &impl Abort, device: &mut Device<FakeFile>, call: Call) -> u64 {
    match call {
        Call::Put(word, value) => put(rt, device, word, value),
        Call::Flush(line) => {
            assert!(rt; line < device.words.count() / 8);
            done(device.flush(line))
        }
        Call::Load(word) => load(rt, device, word),
        Call::Fence => done(device.fence()),
        Call::Cut(pick) => {
            device.cut(pick);
            DONE
        }
        Call::RefuseWrite(refuses) => {
            device.file.file.refuses_write = refuses;
            DONE
        }
        Call::RefuseSync(refuses) => {
            device.file.file.refuses_sync = refuses;
            DONE
        }
        Call::Byte(at) => {
            assert!(rt; at < BYTES);
            u64::from(device.file.file.bytes.get()[at])
        }
        Call::Disk(at) => {
            assert!(rt; at < BYTES);
            u64::from(device.file.file.disk.get()[at])
        }
    }
}

/// Makes the calls in turn on a new device. Each has to answer this.
fn answers(rt: &impl Abort, alloc: Global, rows: &[(Call, u64)]) {
    let mut device = fake_device(rt, alloc);
    for (at, (call, want)) in rows.iter().enumerate() {
        assert!(rt;
            answer(rt, &mut device, *call) == *want,
            "call {at}: {call:?}"
        );
    }
}

// After a sync that failed it is open what is on the disk. A later sync that succeeds does not tell.
#[test]
fn no_fence_succeeds_after_one_that_failed(rt: HostRuntime) {
    for refuses_sync in [false, true] {
        let rows = [
            (Call::Put(0, 1), DONE),
            (Call::RefuseSync(refuses_sync), DONE),
            (Call::RefuseWrite(!refuses_sync), DONE),
            (Call::Fence, FAILED),
            (Call::RefuseSync(false), DONE),
            (Call::RefuseWrite(false), DONE),
            (Call::Fence, FAILED),
            (Call::Put(8, 2), DONE),
            (Call::Fence, FAILED),
            (Call::Byte(64), 0),
            (Call::Cut(0), DONE),
            (Call::Load(0), FAILED),
            (Call::Load(0), 0),
            (Call::Fence, FAILED),
        ];
        answers(&rt, rt.alloc(), &rows);
    }
}

#[test]
fn a_cut_that_is_not_written_fails_the_next_call(rt: HostRuntime) {
    let rows = [
        (Call::Put(0, 1), DONE),
        (Call::RefuseWrite(true), DONE),
        (Call::Cut(1), DONE),
        (Call::Load(0), FAILED),
        (Call::Load(0), 1),
        (Call::RefuseWrite(false), DONE),
        (Call::Byte(0), 0),
        (Call::Fence, FAILED),
        (Call::Byte(0), 0),
    ];
    answers(&rt, rt.alloc(), &rows);
}

#[test]
fn a_fence_with_nothing_to_write_does_not_sync(rt: HostRuntime) {
    let rows = [
        (Call::RefuseSync(true), DONE),
        (Call::Put(0, 0), DONE),
        (Call::Fence, DONE),
    ];
    answers(&rt, rt.alloc(), &rows);
}

// Of each word, 1 is the durable value and 2 the newest. The words 0 and 64 have the same bit of a pick. The file has
// what is left.
#[test]
fn a_cut_keeps_values_by_its_pick(rt: HostRuntime) {
    let cases = [(0, 1, 1), (1, 2, 2), (2, 1, 2), (5, 2, 1)];
    for (pick, even, odd) in cases {
        let rows = [
            (Call::Put(0, 1), DONE),
            (Call::Put(1, 1), DONE),
            (Call::Put(64, 1), DONE),
            (Call::Put(65, 1), DONE),
            (Call::Fence, DONE),
            (Call::Put(0, 2), DONE),
            (Call::Put(1, 2), DONE),
            (Call::Put(64, 2), DONE),
            (Call::Put(65, 2), DONE),
            (Call::Cut(pick), DONE),
            (Call::Load(0), even),
            (Call::Load(1), odd),
            (Call::Load(64), even),
            (Call::Load(65), odd),
            (Call::Byte(0), even),
            (Call::Byte(8), odd),
            (Call::Byte(512), even),
            (Call::Byte(520), odd),
        ];
        answers(&rt, rt.alloc(), &rows);
    }
}

// Bytes before a word that were never written are written with it. Bytes after its line are not.
#[test]
fn a_fence_leaves_no_hole_before_what_it_writes(rt: HostRuntime) {
    let never = u64::from(NEVER_WRITTEN);
    let rows = [
        (Call::Put(40, 3), DONE),
        (Call::Disk(0), never),
        (Call::Fence, DONE),
        (Call::Disk(0), 0),
        (Call::Disk(319), 0),
        (Call::Disk(320), 3),
        (Call::Disk(384), never),
    ];
    answers(&rt, rt.alloc(), &rows);
}

#[test]
fn a_word_is_zero_until_it_is_stored(rt: HostRuntime) {
    let rows = [
        (Call::Load(127), 0),
        (Call::Put(40, 3), DONE),
        (Call::Load(127), 0),
        (Call::Flush(15), DONE),
        (Call::Put(120, 4), DONE),
        (Call::Load(41), 0),
        (Call::Load(127), 0),
        (Call::Put(127, 5), DONE),
        (Call::Load(40), 3),
        (Call::Load(120), 4),
        (Call::Load(127), 5),
        (Call::Fence, DONE),
        (Call::Cut(0), DONE),
        (Call::Load(40), 3),
        (Call::Load(127), 5),
        (Call::Byte(320), 3),
        (Call::Byte(960), 4),
        (Call::Byte(1016), 5),
    ];
    answers(&rt, rt.alloc(), &rows);
}
