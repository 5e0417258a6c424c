//! Tests of the host over the file `puddles.pm` of the current folder. What is durable is in the file and is read
//! again, and the shelf is the files beside it.
use crate::calls::{Call, DONE, END, LOST, answers, has_file};
use pm_file::FileHost;
use pm_model::{FILE_READ_LIMIT, FileFault, Host, HostFault};
use std::alloc::Global;
use std::fs;
use std::fs::File;
use std::io::{Seek, SeekFrom, Write};
use std::process::Abort;
use std::rt::{Files, Runtime};

const DEVICE: &str = "puddles.pm";

const DEVICE_BYTES: usize = 17_117_184;

const LAST_WORD: u32 = 2_139_647;

const LAST_LINE: u32 = LAST_WORD / 8;

/// Opens the device, and makes the calls in turn. Each has to answer this.
fn opened<R: Runtime + Files<File = File> + Abort>(rt: &R, alloc: Global, rows: &[(Call, u64)]) {
    let mut host = FileHost::open(rt, alloc).expect(rt, "the device opens");
    answers(rt, &mut host, rows);
}

/// Removes the device's file, if there is one.
fn without_device<R: Runtime>(rt: &R) {
    let _ = fs::remove_file(rt, DEVICE);
}

/// There have to be `length` bytes, and from byte `at` on they have to begin with these.
fn are_bytes(rt: &impl Abort, bytes: &[u8], length: usize, at: usize, want: &[u8]) {
    assert!(rt; bytes.len() == length, "{length} bytes");
    let rest = bytes.get(at..).expect(rt, "bytes there");
    assert!(rt; rest.starts_with(want), "the bytes from {at} on");
}

/// The device's file has to have `length` bytes, and from byte `at` on they have to begin with these.
fn has_bytes<R: Runtime + Abort>(rt: &R, length: usize, at: usize, want: &[u8]) {
    let bytes = fs::read(rt, DEVICE).expect(rt, "the file of the device");
    are_bytes(rt, &bytes, length, at, want);
}

/// Writes more bytes after the device in its file.
fn append<R: Runtime + Abort>(rt: &R, bytes: &[u8]) {
    let mut file = File::options()
        .write(true)
        .open(rt, DEVICE)
        .expect(rt, "the file of the device");
    file.seek(SeekFrom::Start(DEVICE_BYTES as u64))
        .expect(rt, "its end");
    file.write_all(bytes).expect(rt, "more bytes");
}

#[test]
fn what_is_fenced_is_read_again(rt: HostRuntime) {
    without_device(&rt);
    opened(
        &rt,
        rt.alloc(),
        &[
            (Call::Load(LAST_WORD), 0),
            (Call::Store(0, 0x0102_0304_0506_0708), DONE),
            (Call::Store(8, 9), DONE),
            (Call::Store(LAST_WORD, 5), DONE),
            (Call::Flush(LAST_LINE), DONE),
            (Call::Flush(0), DONE),
            (Call::Fence, DONE),
            (Call::Store(1, 6), DONE),
            (Call::Flush(0), DONE),
            (Call::Load(8), 9),
        ],
    );
    // Word 1 was flushed and not fenced, word 8 was not flushed.
    opened(
        &rt,
        rt.alloc(),
        &[
            (Call::Load(0), 0x0102_0304_0506_0708),
            (Call::Load(1), 0),
            (Call::Load(8), 0),
            (Call::Load(LAST_WORD), 5),
        ],
    );
    has_bytes(&rt, DEVICE_BYTES, 0, &[8, 7, 6, 5, 4, 3, 2, 1, 0]);
    without_device(&rt);
}

/// Opening a second host on the device has to fail.
fn is_taken<R: Runtime + Files<File = File> + Abort>(rt: &R, alloc: Global) {
    assert!(rt;
        matches!(
            FileHost::open(rt, alloc),
            Err(FileFault::Host(HostFault::Failed))
        ),
        "the device is open already"
    );
}

#[test]
fn a_device_is_open_once_at_a_time(rt: HostRuntime) {
    let alloc = rt.alloc();
    without_device(&rt);
    for _ in 0..2 {
        let mut host = FileHost::open(&rt, alloc).expect(&rt, "the device opens");
        is_taken(&rt, alloc);
        answers(&rt, &mut host, &[(Call::Store(0, 1), DONE)]);
        is_taken(&rt, alloc);
    }
    without_device(&rt);
}

// A file that is only read keeps its length, and the bytes past the device do not change.
#[test]
fn short_and_long_files_are_taken_as_they_are(rt: HostRuntime) {
    let short: &[u8] = &[1, 0, 0, 0, 0, 0, 0, 2, 3, 0, 4];
    assert!(rt; fs::write(&rt, DEVICE, short).is_ok());
    let rows = [
        (Call::Load(0), 0x0200_0000_0000_0001),
        (Call::Load(1), 0x0004_0003),
        (Call::Load(2), 0),
        (Call::Fence, DONE),
        (Call::Cut(1), DONE),
    ];
    opened(&rt, rt.alloc(), &rows);
    has_bytes(&rt, short.len(), 0, short);
    let rows = [
        (Call::Store(2, 5), DONE),
        (Call::Flush(0), DONE),
        (Call::Fence, DONE),
    ];
    opened(&rt, rt.alloc(), &rows);
    has_bytes(&rt, DEVICE_BYTES, 8, &[3, 0, 4, 0, 0, 0, 0, 0, 5, 0]);
    append(&rt, b"kept");
    let rows = [
        (Call::Store(LAST_WORD, 7), DONE),
        (Call::Flush(LAST_LINE), DONE),
        (Call::Fence, DONE),
    ];
    opened(&rt, rt.alloc(), &rows);
    let end = b"\x07\0\0\0\0\0\0\0kept";
    has_bytes(&rt, DEVICE_BYTES + 4, DEVICE_BYTES - 8, end);
    without_device(&rt);
}

// A power loss also writes, if a word changes.
#[test]
fn a_loss_at_once_makes_a_short_file_long(rt: HostRuntime) {
    assert!(rt; fs::write(&rt, DEVICE, b"").is_ok());
    let rows = [(Call::Store(9, 6), DONE), (Call::Cut(0), DONE)];
    opened(&rt, rt.alloc(), &rows);
    has_bytes(&rt, 0, 0, &[]);
    let rows = [(Call::Store(9, 6), DONE), (Call::Cut(1), DONE)];
    opened(&rt, rt.alloc(), &rows);
    has_bytes(&rt, DEVICE_BYTES, 72, &[6, 0]);
    without_device(&rt);
}

#[test]
fn an_armed_cut_fires_once_at_its_step(rt: HostRuntime) {
    without_device(&rt);
    // The second arming replaces the first, and it outlives a power loss at once. The step that it falls on is not
    // done.
    opened(
        &rt,
        rt.alloc(),
        &[
            (Call::Arm(3, 0), DONE),
            (Call::Arm(2, 1), DONE),
            (Call::Store(0, 1), DONE),
            (Call::Cut(1), DONE),
            (Call::Store(0, 2), LOST),
            (Call::Load(0), 1),
            (Call::Store(0, 3), DONE),
        ],
    );
    opened(&rt, rt.alloc(), &[(Call::Load(0), 1)]);
    without_device(&rt);
}

/// Puts each file, which has to succeed or not, and then looks at what is there.
fn puts<H: Host>(
    rt: &impl Abort,
    alloc: Global,
    host: &mut H,
    rows: &[(&str, &[u8], bool, Option<&[u8]>)],
) {
    for (name, bytes, is_put, want) in rows {
        let outcome = host.file_put(alloc, name, bytes);
        assert!(rt; outcome.is_ok() == *is_put, "{name}");
        has_file(rt, alloc, host, name, *want);
    }
}

// A file that is longer than the limit of a read is read up to that limit.
#[test]
fn files_of_the_shelf_are_replaced_whole(rt: HostRuntime) {
    let alloc = rt.alloc();
    without_device(&rt);
    let mut host = FileHost::open(&rt, alloc).expect(&rt, "the device opens");
    let name = "device_tests_shelf";
    let read = vec![in alloc; 7u8; FILE_READ_LIMIT].expect(&rt, "memory");
    let long = vec![in alloc; 7u8; FILE_READ_LIMIT + 1].expect(&rt, "memory");
    has_file(&rt, alloc, &mut host, name, None);
    let rows: [(&str, &[u8], bool, Option<&[u8]>); 3] = [
        (name, &long, true, Some(&read)),
        (name, b"abc", true, Some(b"abc")),
        ("no_such_folder/file", b"abc", false, None),
    ];
    puts(&rt, alloc, &mut host, &rows);
    assert!(rt; fs::remove_file(&rt, "device_tests_shelf.pud.new").is_err());
    assert!(rt; fs::remove_file(&rt, "device_tests_shelf.pud").is_ok());
    without_device(&rt);
}

#[test]
fn a_new_device_is_whole_and_an_empty_input_ends(rt: HostRuntime) {
    without_device(&rt);
    opened(&rt, rt.alloc(), &[(Call::Read, END)]);
    has_bytes(&rt, DEVICE_BYTES, DEVICE_BYTES - 1, &[0]);
    without_device(&rt);
}
