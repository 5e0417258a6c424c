//! The host trait: the only access to a device, its script, its reply stream and its files.
ghost use Rattle.std.specs.Prelude.{◌≡◌, ◌≢◌, ◌<◌, ◌≤◌, ◌/◌, ◌%◌, Option, Result, option_map, take, IfOk, OnErr, IsSome};
ghost use Rattle.pm_model.specs.Words.{after_store, after_flush, after_fence};
ghost use Rattle.pm_model.specs.Moments.{State, with_shelf};
ghost use Rattle.pm_model.specs.Counts.{Counts, after_fault, after_arm, after_loss_of, fault_of, file_fault_of};
ghost use Rattle.pm_model.specs.Reads.{OnlyReads};
ghost use Rattle.pm_model.specs.declared.losses.Armed.{Armed};
ghost use Rattle.pm_model.specs.Calls.{Steps, CountsDown, LosesAtOnce, TakesByte, Says, shelved, LeavesFile};

use std::alloc::Global;

/// Why a call of a host failed.
#[derive(Clone, Copy, Debug, PartialEq, Eq, thiserror::Error)]
pub enum HostFault {
    /// The device, a stream or a file failed. The host counts it as a fault.
    #[error("the device, a stream or a file failed")]
    Failed,
    /// Power was lost at this device step, and the host did not carry the step out. The host counts it as a cut.
    #[error("power was lost")]
    Cut,
}

/// Why a call on a file failed.
#[derive(Clone, Copy, Debug, PartialEq, Eq, thiserror::Error)]
pub enum FileFault {
    /// Allocation failed. Nothing changed.
    #[error("an allocation failed")]
    Memory,
    /// The host's own fault.
    #[error("the host failed")]
    Host(HostFault),
}

/// The most bytes that [`Host::file_get`] returns of a file. It is one more than the largest file that any format here
/// allows, so that a caller sees when a file is too long.
pub const FILE_READ_LIMIT: usize = 263_489;

/// A device with a script to read, a reply stream and a shelf of files. A word of the device has 64 bits, and a line
/// has eight words.
///
/// Device and reply stream are one trait, because what is printed and what is durable are ordered with each other. A
/// store appends a value to its word. A flush marks the newest value of each word of its line. A fence drops the values
/// before the marks. A power loss leaves each word with one of its values.
pub trait Host {
    /// Whether the host tells the contents of its words, streams and files.
    ghost tells: { Type 0 };

    /// What the host tells: the words and the printed bytes at each moment so far, the bytes left to read, and the
    /// shelf.
    ghost state: { Self → State };

    /// The armed cut, if there is one.
    ghost armed: { Self → Option Armed };

    /// What every host tells: its size in words, its counts of faults and cuts, and what was armed and lost.
    ghost counts: { Self → Counts };

    /// The number of words. It is a multiple of 8 and never changes.
    fn words(&self) -> u32
        ensures size { result ≡ (counts self.now).size }
        ensures whole_lines { result % 8 ≡ 0 };

    /// Returns the newest value of word `w`, which lies in the device. A load is no device step and is never cut.
    fn load(&mut self, w: u32) -> Result<u64, HostFault>
        requires { w < (counts self.old).size }
        ensures value { tells → IfOk result (λ v. v ≡ ((state self.old).now.words w).newest) }
        ensures only_reads { OnlyReads tells state counts (fault_of result) self.old self.new }
        ensures armed { tells → armed self.new ≡ armed self.old };

    /// Appends value `v` to word `w`, which lies in the device. This is a device step.
    fn store(&mut self, w: u32, v: u64) -> Result<(), HostFault>
        requires { w < (counts self.old).size }
        ensures state { tells → Steps (after_store w v) (fault_of result) (state self.old) (state self.new) }
        ensures armed { tells → CountsDown (fault_of result) (armed self.old) (armed self.new) }
        ensures cause { counts self.new ≡ after_fault (fault_of result) (counts self.old) };

    /// Marks the newest value of each word of line `line`: the words `8 * line` to `8 * line + 7`. The line lies in the
    /// device. This is a device step.
    fn flush(&mut self, line: u32) -> Result<(), HostFault>
        requires { line < (counts self.old).size / 8 }
        ensures state { tells → Steps (after_flush line) (fault_of result) (state self.old) (state self.new) }
        ensures armed { tells → CountsDown (fault_of result) (armed self.old) (armed self.new) }
        ensures cause { counts self.new ≡ after_fault (fault_of result) (counts self.old) };

    /// Drops all values before its mark, for each word. This is a device step.
    fn fence(&mut self) -> Result<(), HostFault>
        ensures state { tells → Steps after_fence (fault_of result) (state self.old) (state self.new) }
        ensures armed { tells → CountsDown (fault_of result) (armed self.old) (armed self.new) }
        ensures cause { counts self.new ≡ after_fault (fault_of result) (counts self.old) };

    /// Loses power now. An armed cut stays armed. Each word keeps one of its values. The host itself reads from `pick`
    /// which one that is.
    fn cut(&mut self, pick: u64)
        ensures state { tells → LosesAtOnce (state self.old) (state self.new) }
        ensures armed { tells → armed self.new ≡ armed self.old }
        ensures counted { counts self.new ≡ after_loss_of pick (counts self.old) };

    /// Arms a cut at the `steps`-th device step from now. `steps` is at least 1. The new cut replaces one that is
    /// armed.
    fn arm(&mut self, steps: u32, pick: u64)
        requires { 1 ≤ steps }
        ensures state { tells → state self.new ≡ state self.old }
        ensures armed { tells → armed self.new ≡ Option.Some (record { steps = steps; pick = pick }) }
        ensures counted { counts self.new ≡ after_arm steps pick (counts self.old) };

    /// Takes the next byte of the script and returns it, or returns None at the script's end. If it fails, no byte is
    /// taken. It is never cut.
    fn read(&mut self) -> Result<Option<u8>, HostFault>
        ensures taken { tells → IfOk result (λ byte. TakesByte byte (state self.old) (state self.new)) }
        ensures failed { tells → OnErr result (state self.new ≡ state self.old) }
        ensures armed { tells → armed self.new ≡ armed self.old }
        ensures cause { counts self.new ≡ after_fault (fault_of result) (counts self.old) }
        ensures never_cut { fault_of result ≢ Option.Some HostFault.Cut };

    /// Prints the bytes to the reply stream. If it fails, a prefix of them may be printed. It is never cut.
    fn say(&mut self, bytes: &[u8]) -> Result<(), HostFault>
        ensures said { tells → Says bytes.now (fault_of result) (state self.old) (state self.new) }
        ensures armed { tells → armed self.new ≡ armed self.old }
        ensures cause { counts self.new ≡ after_fault (fault_of result) (counts self.old) }
        ensures never_cut { fault_of result ≢ Option.Some HostFault.Cut };

    /// Returns the first [`FILE_READ_LIMIT`] bytes of the file with that name, or None exactly if the shelf has no such
    /// file. `Memory` comes only if the shelf has the file.
    fn file_get(&mut self, alloc: Global, name: &str) -> Result<Option<Vec<u8>>, FileFault>
        ensures found { tells → IfOk result (λ found.
            option_map (λ bytes. bytes.items) found ≡ option_map (take FILE_READ_LIMIT) ((state self.old).shelf name.now)) }
        ensures memory { tells → result ≡ Result.Err FileFault.Memory → IsSome ((state self.old).shelf name.now) }
        ensures state { tells → state self.new ≡ state self.old }
        ensures armed { tells → armed self.new ≡ armed self.old }
        ensures cause { counts self.new ≡ after_fault (file_fault_of result) (counts self.old) }
        ensures never_cut { file_fault_of result ≢ Option.Some HostFault.Cut };

    /// Replaces the whole file with that name, or creates it. After `Memory` nothing changed. Another fault may leave
    /// this file in any state, and no other file changes.
    fn file_put(&mut self, alloc: Global, name: &str, bytes: &[u8]) -> Result<(), FileFault>
        ensures put { tells → IfOk result (λ _. state self.new
            ≡ with_shelf (shelved name.now (Option.Some bytes.now) (state self.old).shelf) (state self.old)) }
        ensures memory { tells → result ≡ Result.Err FileFault.Memory → state self.new ≡ state self.old }
        ensures failed { tells → LeavesFile name.now (state self.old) (state self.new) }
        ensures armed { tells → armed self.new ≡ armed self.old }
        ensures cause { counts self.new ≡ after_fault (file_fault_of result) (counts self.old) }
        ensures never_cut { file_fault_of result ≢ Option.Some HostFault.Cut };
}
