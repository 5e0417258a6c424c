//! A file in memory, for tests.
use std::cell::Cell;
use std::fs::{Metadata, OpenFile};
use std::io;
use std::io::{ErrorKind, Read};
use std::os::unix::fs::FileExt;

pub(crate) const BYTES: usize = 1024;

/// What each byte of the disk is before it is written.
pub(crate) const NEVER_WRITTEN: u8 = 99;

/// A file of 16 lines that refuses to read, to write or to sync when it is told to. It gives ten bytes at a time, and
/// is interrupted between them. A sync brings to the disk what was written since the sync before. A sync that is
/// refused brings nothing, and forgets what was written.
#[derive(Drop)]
pub(crate) struct FakeFile {
    pub(crate) bytes: Cell<[u8; BYTES]>,
    pub(crate) disk: Cell<[u8; BYTES]>,
    is_unsynced: Cell<[bool; BYTES]>,
    length: Cell<usize>,
    at: usize,
    is_interrupted: bool,
    pub(crate) refuses_read: bool,
    pub(crate) refuses_write: bool,
    pub(crate) refuses_sync: bool,
}

impl FakeFile {
    /// A file that reads as these bytes. None of them is on the disk.
    pub(crate) fn new(bytes: [u8; BYTES]) -> FakeFile {
        FakeFile {
            bytes: Cell::new(bytes),
            disk: Cell::new([NEVER_WRITTEN; BYTES]),
            is_unsynced: Cell::new([false; BYTES]),
            length: Cell::new(BYTES),
            at: 0,
            is_interrupted: false,
            refuses_read: false,
            refuses_write: false,
            refuses_sync: false,
        }
    }

    // Brings to the disk what was written since the last sync.
    fn bring(&self) {
        let bytes = self.bytes.get();
        let is_unsynced = self.is_unsynced.get();
        let mut disk = self.disk.get();
        for at in 0..BYTES {
            if is_unsynced[at] {
                disk[at] = bytes[at];
            }
        }
        self.disk.set(disk);
    }
}

impl Read for FakeFile {
    fn read(&mut self, buf: &mut [u8]) -> io::Result<usize> {
        let at = self.at;
        let length = self.length.get().min(BYTES);
        if self.refuses_read || at > length {
            return Err(io::Error::from(ErrorKind::Other));
        }
        self.is_interrupted = !self.is_interrupted;
        if self.is_interrupted {
            return Err(io::Error::from(ErrorKind::Interrupted));
        }
        let count = buf.len().min(length - at).min(10);
        let bytes = self.bytes.get();
        buf[..count].copy_from_slice(&bytes[at..at + count]);
        self.at = at + count;
        Ok(count)
    }
}

impl FileExt for FakeFile {
    fn read_at(&self, _buf: &mut [u8], _offset: u64) -> io::Result<usize> {
        Err(io::Error::from(ErrorKind::Unsupported))
    }

    fn write_at(&self, buf: &[u8], offset: u64) -> io::Result<usize> {
        if self.refuses_write || offset > BYTES as u64 {
            return Err(io::Error::from(ErrorKind::Other));
        }
        let at = offset as usize;
        let count = buf.len().min(BYTES - at);
        let mut bytes = self.bytes.get();
        bytes[at..at + count].copy_from_slice(&buf[..count]);
        self.bytes.set(bytes);
        let mut is_unsynced = self.is_unsynced.get();
        is_unsynced[at..at + count].fill(true);
        self.is_unsynced.set(is_unsynced);
        self.length.set(self.length.get().max(at + count));
        Ok(count)
    }
}

impl OpenFile for FakeFile {
    fn metadata(&self) -> io::Result<Metadata> {
        Ok(Metadata::of_file(self.length.get() as u64))
    }

    fn set_len(&self, size: u64) -> io::Result<()> {
        if self.refuses_write || size > BYTES as u64 {
            return Err(io::Error::from(ErrorKind::Other));
        }
        let length = size as usize;
        let mut bytes = self.bytes.get();
        bytes[length..].fill(0);
        self.bytes.set(bytes);
        let mut is_unsynced = self.is_unsynced.get();
        is_unsynced[length..].fill(true);
        self.is_unsynced.set(is_unsynced);
        self.length.set(length);
        Ok(())
    }

    fn sync_all(&self) -> io::Result<()> {
        Err(io::Error::from(ErrorKind::Unsupported))
    }

    fn sync_data(&self) -> io::Result<()> {
        if !self.refuses_sync {
            self.bring();
        }
        self.is_unsynced.set([false; BYTES]);
        if self.refuses_sync {
            Err(io::Error::from(ErrorKind::Other))
        } else {
            Ok(())
        }
    }
}
