//! The file that keeps the device's durable words, each as eight bytes with the lowest byte first.
ghost use Rattle.std.specs.Prelude.{◌≡◌, ◌*◌, ◌<◌, ◌≤◌, vec_len, IfOk};
ghost use Rattle.pm_file.specs.Spelling.{ReadsWords};

use crate::device_words::DeviceWords;
use crate::folder;
use crate::line_run::{LINE_BYTES, LineRun};
use crate::reading::read_words;
use crate::storage_fault::StorageFault;
use pm_rows::{DeviceRows, LINE_WORDS};
use std::fs::{File, OpenFile};
use std::io;
use std::io::{ErrorKind, Read};
use std::os::unix::fs::FileExt;
use std::rt::Files;

/// The open file of the device.
#[derive(Drop)]
pub(crate) struct DeviceFile<F> {
    pub(crate) file: F,
    /// Whether the file is shorter than the device. The first write makes it as long as the device.
    is_short: bool,
    /// The lines up to which the file has no hole. Zeroes that were never written need no room on the disk until a
    /// later word is written.
    filled: u32,
    /// Room for lines that are written together. It is made once, since it has many bytes and a fence has few lines.
    run: LineRun,
}

impl<F> DeviceFile<F> {
    /// An open file, which is shorter than the device or not.
    pub(crate) fn new(file: F, is_short: bool) -> DeviceFile<F>
        ensures { result.file ≡ file }
    {
        DeviceFile {
            file,
            is_short,
            filled: 0,
            run: LineRun::new(),
        }
    }
}

/// Opens the file of a device of so many lines, locks it, and reads its words into an empty row, up to the last word
/// that is not zero. A missing file is made, as long as the device. A shorter file reads as zero beyond its end. Bytes
/// past the device are not read. The lock ends when the file is closed.
///
/// # Errors
///
/// `Memory` if allocation failed for the words. `Failed` if the file could not be opened, made, locked or read, or is
/// no plain file. A file that is already open as a device cannot be locked.
pub(crate) fn open<R: Files<File = File>>(
    runtime: &R,
    path: &str,
    lines: u32,
    words: &mut Vec<u64>,
) -> Result<DeviceFile<File>, StorageFault>
    requires { vec_len words.old ≡ 0 }
    ensures { vec_len words.new ≤ 8 * lines }
{
    match File::options().read(true).write(true).open(runtime, path) {
        Ok(file) => read_device(hold(file)?, lines, words),
        Err(error) if error.kind() == ErrorKind::NotFound => make(runtime, path, lines),
        Err(error) => Err(StorageFault::from(error)),
    }
}

// Makes the file, with that many lines of zero bytes, if there is none yet.
fn make<R: Files<File = File>>(
    runtime: &R,
    path: &str,
    lines: u32,
) -> Result<DeviceFile<File>, StorageFault> {
    let file = hold(folder::make_file(runtime, path)?)?;
    file.set_len(device_bytes(lines))?;
    Ok(DeviceFile::new(file, false))
}

// Locks the file, and keeps only a second handle to it. A file that is opened gets the lowest descriptor that is free.
// If a standard stream is closed, that is the stream's descriptor, and then replies would be written into the device.
// A second handle never gets one of these descriptors.
fn hold(opened: File) -> Result<File, StorageFault> {
    let file = opened.try_clone()?;
    file.try_lock()?;
    Ok(file)
}

// The number of bytes of a device of so many lines.
fn device_bytes(lines: u32) -> u64
    ensures { result ≡ 64 * lines }
{
    u64::from(lines) * LINE_BYTES as u64
}

// Reads the words of the file. It has to be a plain file: a pipe has no end and no places.
fn read_device<F: Read + OpenFile + Drop>(
    mut file: F,
    lines: u32,
    words: &mut Vec<u64>,
) -> Result<DeviceFile<F>, StorageFault>
    requires { vec_len words.old ≡ 0 }
    ensures words { IfOk result (λ read. ReadsWords (8 * lines)
        (F.remaining file) (F.remaining read.file) words.new.items) }
    ensures len { vec_len words.new ≤ 8 * lines }
{
    let about = file.metadata()?;
    if !about.is_file() {
        return Err(StorageFault::Failed);
    }
    read_words(&mut file, lines as usize * LINE_WORDS, words)?;
    Ok(DeviceFile::new(file, about.len() < device_bytes(lines)))
}

impl<F: FileExt + OpenFile> DeviceFile<F> {
    /// Writes each word of the device again, as it was read, and syncs the file's data. Bytes that are read from a
    /// file need not be on the disk. If an earlier sync failed, the system may keep the bytes in memory and count them
    /// as written. The next sync then succeeds and writes nothing. Only what is written before a sync that succeeds is
    /// durable.
    ///
    /// # Errors
    ///
    /// A write or the sync failed, or the file's length could not be read or set.
    pub(crate) fn write_again(&mut self, words: &DeviceWords) -> io::Result<()> {
        let length = self.file.metadata()?.len();
        self.run.clear();
        self.fill(&words.rows, words.rows.lines)?;
        self.run.write(&self.file)?;
        self.write_zeroes(words.rows.lines, words.lines, length)?;
        self.file.sync_data()
    }

    // Makes the bytes zero from a line on, up to the end of the device. The file is cut off there and then gets its
    // old length again. So zeroes that were never written need no room on the disk. If the file has bytes past the
    // device, these are kept, and the zeroes are written.
    fn write_zeroes(&mut self, first: u32, lines: u32, length: u64) -> io::Result<()> {
        if length <= device_bytes(lines) {
            self.file.set_len(device_bytes(first))?;
            return self.file.set_len(length);
        }
        for line in first..lines {
            self.run.put(&self.file, line, &[0; LINE_WORDS])?;
        }
        self.run.write(&self.file)
    }

    /// Writes the marked words of each unsettled line that is due, neighbours together, and syncs the file's data. If
    /// no line is due, it does nothing. Holes before a line are filled together with the line. So a start, which
    /// writes all of them, needs no room that this call did not have.
    ///
    /// # Errors
    ///
    /// A write or the sync failed. For each of the lines the file may have its marked words or not.
    pub(crate) fn write_due(&mut self, words: &DeviceWords) -> io::Result<()> {
        let rows = &words.rows;
        self.run.clear();
        let mut is_written = false;
        for line in rows.unsettled.as_slice() {
            if rows.is_due(*line) {
                self.put_filled(rows, *line)?;
                is_written = true;
            }
        }
        if is_written {
            self.run.write(&self.file)?;
            self.finish(words.lines)?;
        }
        Ok(())
    }

    // Puts a line among those that wait to be written, and before it the lines that are not filled.
    fn put_filled(&mut self, rows: &DeviceRows, line: u32) -> io::Result<()>
        requires { line < rows.now.lines }
    {
        if line < self.filled {
            self.run.put(&self.file, line, &rows.marked_line(line))
        } else {
            self.fill(rows, line + 1)
        }
    }

    // Puts the lines that are not filled, up to this end, among those that wait to be written.
    fn fill(&mut self, rows: &DeviceRows, end: u32) -> io::Result<()>
        requires { end ≤ rows.now.lines }
    {
        for line in self.filled..end {
            self.run.put(&self.file, line, &rows.marked_line(line))?;
        }
        self.filled = end;
        Ok(())
    }

    // Ends a write. The file then has at least that many lines, and its data is synced.
    fn finish(&mut self, lines: u32) -> io::Result<()> {
        if self.is_short {
            self.file.set_len(device_bytes(lines))?;
            self.is_short = false;
        }
        self.file.sync_data()
    }
}

#[cfg(test)]
mod tests;
