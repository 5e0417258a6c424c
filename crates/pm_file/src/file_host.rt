//! The host over real files.
ghost use Rattle.std.specs.Prelude.{◌≡◌, ◌≢◌, ◌*◌, ◌<◌, Option, Result, IfOk};
ghost use Rattle.pm_model.specs.Counts.{counts_of, fresh_counts};
ghost use Rattle.pm_file.specs.Silence.{silent};

use crate::device::Device;
use crate::device_words::DeviceWords;
use crate::script::Script;
use crate::storage_fault::StorageFault;
use crate::{device_file, folder, shelf};
use pm_model::{FileFault, Host, HostFault};
use pm_rows::LINE_WORDS;
use std::alloc::Global;
use std::fs::File;
use std::io::{BufReader, Input};
use std::rt::Files;

/// The file of the device, in the current folder.
const DEVICE_PATH: &str = "puddles.pm";

/// The lines of the device: 2,139,648 words, eight to a line, in 17,117,184 bytes.
const DEVICE_LINES: u32 = 267_456;

/// The host over real files. Its device is the file `puddles.pm` of the current folder. Its shelf is the files
/// `<name>.pud` there. Its streams are standard input and output. It tells no content, and keeps the counts.
#[derive(Drop)]
pub struct FileHost<R: Files + Input + Print> {
    runtime: R,
    script: Script<R::Reader>,
    device: Device<R::File>,
}

impl<R: Files<File = File> + Input + Print + Clone + Drop> FileHost<R> {
    /// Opens the device. If its file is missing, a file of zero words is made. The file is locked while the device is
    /// open.
    ///
    /// # Errors
    ///
    /// `Memory` if allocation failed. `Host(Failed)` if the file could not be opened, made, locked, read, written or
    /// synced. A file that is already open as a device cannot be locked.
    pub fn open(runtime: &R, alloc: Global) -> Result<FileHost<R>, FileFault>
        ensures fresh { IfOk result (λ host. ⟦<FileHost<R> as Host>⟧.counts host ≡ fresh_counts 2139648) }
        ensures never_cut { result ≢ Result.Err (FileFault.Host HostFault.Cut) }
    {
        match FileHost::open_files(runtime, alloc) {
            Ok(host) => Ok(host),
            Err(StorageFault::Memory) => Err(FileFault::Memory),
            Err(StorageFault::Failed) => Err(FileFault::Host(HostFault::Failed)),
        }
    }

    // Opens the device's file, and prepares to read the script.
    fn open_files(runtime: &R, alloc: Global) -> Result<FileHost<R>, StorageFault>
        ensures { IfOk result (λ host. counts_of (8 * host.device.words.lines) host.device.tally
            ≡ fresh_counts 2139648) }
    {
        let runtime = runtime.clone()?;
        let mut words = Vec::with_capacity(alloc, DEVICE_LINES as usize * LINE_WORDS)?;
        let mut file = device_file::open(&runtime, DEVICE_PATH, DEVICE_LINES, &mut words)?;
        folder::sync(&runtime)?;
        let words = DeviceWords::new(alloc, DEVICE_LINES, words)?;
        file.write_again(&words)?;
        let script = Script::new(alloc, runtime.reader())?;
        Ok(FileHost {
            runtime,
            script,
            device: Device::new(file, words),
        })
    }
}

impl<R: Files<File = File> + Input + Print + Clone + Drop> Host for FileHost<R> {
    ghost tells = { ⊥ };

    ghost state = { λ _. silent };

    ghost armed = { λ host. host.device.armed };

    ghost counts = { λ host. counts_of (8 * host.device.words.lines) host.device.tally };

    fn words(&self) -> u32 {
        self.device.words.count()
    }

    fn load(&mut self, w: u32) -> Result<u64, HostFault> {
        self.device.load(w)
    }

    fn store(&mut self, w: u32, v: u64) -> Result<(), HostFault> {
        self.device.store(w, v)
    }

    fn flush(&mut self, line: u32) -> Result<(), HostFault> {
        self.device.flush(line)
    }

    fn fence(&mut self) -> Result<(), HostFault> {
        self.device.fence()
    }

    fn cut(&mut self, pick: u64) {
        self.device.cut(pick);
    }

    fn arm(&mut self, steps: u32, pick: u64) {
        self.device.arm(steps, pick);
    }

    fn read(&mut self) -> Result<Option<u8>, HostFault> {
        match self.script.next_byte() {
            Ok(byte) => Ok(byte),
            Err(_) => Err(self.device.fail()),
        }
    }

    fn say(&mut self, bytes: &[u8]) -> Result<(), HostFault> {
        match self.runtime.write_all(bytes) {
            Ok(()) => Ok(()),
            Err(_) => Err(self.device.fail()),
        }
    }

    fn file_get(&mut self, alloc: Global, name: &str) -> Result<Option<Vec<u8>>, FileFault> {
        match shelf::get(&self.runtime, alloc, name) {
            Ok(found) => Ok(found),
            Err(StorageFault::Memory) => Err(FileFault::Memory),
            Err(StorageFault::Failed) => Err(FileFault::Host(self.device.fail())),
        }
    }

    fn file_put(&mut self, alloc: Global, name: &str, bytes: &[u8]) -> Result<(), FileFault> {
        match shelf::put(&self.runtime, alloc, name, bytes) {
            Ok(()) => Ok(()),
            Err(StorageFault::Memory) => Err(FileFault::Memory),
            Err(StorageFault::Failed) => Err(FileFault::Host(self.device.fail())),
        }
    }
}
