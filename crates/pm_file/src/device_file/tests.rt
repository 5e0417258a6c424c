use super::{DeviceFile, read_device};
use crate::device_words::DeviceWords;
use crate::fake_file::{BYTES, FakeFile, NEVER_WRITTEN};
use crate::storage_fault::StorageFault;
use std::alloc::Global;
use std::process::Abort;

/// A file whose words 0, 1, 5 and 9 are not zero.
fn written_file() -> FakeFile {
    let mut bytes = [0; BYTES];
    bytes[..10].copy_from_slice(&[1, 2, 3, 4, 5, 6, 7, 8, 9, 10]);
    bytes[40] = 11;
    bytes[79] = 12;
    FakeFile::new(bytes)
}

/// Of a device of so many lines these words have to be read, up to the last that is not zero. Its file has to be
/// shorter or not.
fn are_read(rt: &impl Abort, alloc: Global, lines: u32, want: &[u64], is_short: bool) {
    let mut words = Vec::new(alloc);
    assert!(rt; words.is_empty());
    match read_device(written_file(), lines, &mut words) {
        Ok(file) => assert!(rt; file.is_short == is_short, "{lines} lines"),
        Err(_) => assert!(rt; false, "{lines} lines"),
    }
    assert!(rt; words.as_slice() == want, "{words:?}");
}

#[test]
fn words_are_read_up_to_the_last_that_is_not_zero(rt: HostRuntime) {
    let all = [
        0x0807_0605_0403_0201,
        0x0a09,
        0,
        0,
        0,
        11,
        0,
        0,
        0,
        12 << 56,
    ];
    are_read(&rt, rt.alloc(), 1, &all[..6], false);
    are_read(&rt, rt.alloc(), 2, &all, false);
    are_read(&rt, rt.alloc(), 16, &all, false);
    are_read(&rt, rt.alloc(), 17, &all, true);
    are_read(&rt, rt.alloc(), 2_000, &all, true);
}

/// What a start makes of a file, for a device of so many lines, at most 2,000.
fn started(
    alloc: Global,
    file: FakeFile,
    lines: u32,
) -> Result<DeviceFile<FakeFile>, StorageFault> {
    let lines = lines.min(2_000);
    let mut first = Vec::new(alloc);
    if !first.is_empty() {
        return Err(StorageFault::Failed);
    }
    let mut file = read_device(file, lines, &mut first)?;
    let words = DeviceWords::new(alloc, lines, first)?;
    file.write_again(&words)?;
    Ok(file)
}

/// The disk has to have the file's bytes up to this one, and nothing was written from there on.
fn are_on_disk(rt: &impl Abort, file: &FakeFile, end: usize) {
    let bytes = file.bytes.get();
    let disk = file.disk.get();
    for at in 0..BYTES {
        let want = if at < end { bytes[at] } else { NEVER_WRITTEN };
        assert!(rt; disk[at] == want, "byte {at} of {end}");
    }
}

// No sync has told about any byte of the file. So each byte of the device has to reach the disk. Bytes past the device
// stay.
#[test]
fn what_is_read_reaches_the_disk(rt: HostRuntime) {
    for (lines, end) in [(1, 64), (2, 128), (8, 512), (16, BYTES), (17, BYTES)] {
        match started(rt.alloc(), written_file(), lines) {
            Ok(file) => {
                assert!(&rt;
                    file.file.bytes.get() == written_file().bytes.get(),
                    "{lines} lines"
                );
                are_on_disk(&rt, &file.file, end);
            }
            Err(_) => assert!(&rt; false, "{lines} lines"),
        }
    }
}

// The file's words count as durable, so they have to be read, written and synced.
#[test]
fn a_file_that_does_not_take_its_words_is_refused(rt: HostRuntime) {
    for refused in 0..3 {
        let mut file = written_file();
        file.refuses_read = refused == 0;
        file.refuses_write = refused == 1;
        file.refuses_sync = refused == 2;
        assert!(&rt;
            matches!(started(rt.alloc(), file, 16), Err(StorageFault::Failed)),
            "refuses {refused}"
        );
    }
}
