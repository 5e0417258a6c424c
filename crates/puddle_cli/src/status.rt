//! The status that the program ends with, and the line that it then prints to standard error.
ghost use Rattle.std.specs.Prelude.{◌≡◌, Option};
ghost use Rattle.puddle_cli.specs.Status.{status_fault, status_at, IsStatusOfMode};

use pm_model::HostFault;
use puddled::RunFault;

/// The mode is done, or the script was read to its end.
pub const DONE: u8 = 0;
/// The words ask for none of the modes.
pub const USAGE: u8 = 2;
/// Allocation failed while the words were read or the device file was opened.
pub const NO_MEMORY: u8 = 3;
/// The device is not sound, or may not be formatted. No word was changed, unless this was `run` or `gen` on a device
/// that was not rested at entry.
pub const NOT_USABLE: u8 = 4;
/// The host failed.
pub const DEVICE_FAULT: u8 = 5;
/// Power was lost.
pub const POWER_LOST: u8 = 6;
/// 2^20 bytes of the script were taken before its end was read.
pub const TOO_LONG: u8 = 7;

/// The status for a host's fault.
pub fn status_of(fault: HostFault) -> u8
    ensures fault { status_fault result ≡ Option.Some fault }
    ensures status { IsStatusOfMode result }
{
    match fault {
        HostFault::Failed => DEVICE_FAULT,
        HostFault::Cut => POWER_LOST,
    }
}

/// The status of a run that cannot go on.
pub fn status_of_run(fault: RunFault) -> u8
    ensures status { result ≡ status_at fault }
{
    match fault {
        RunFault::Failed => DEVICE_FAULT,
        RunFault::CutInStart => POWER_LOST,
        RunFault::NotSound => NOT_USABLE,
    }
}

/// The line that the program prints to standard error at this status. At status 0 it prints none.
pub fn message_of(status: u8) -> Option<&'static str> {
    match status {
        USAGE => Some("puddle: usage"),
        NO_MEMORY => Some("puddle: no memory"),
        NOT_USABLE => Some("puddle: device not usable"),
        DEVICE_FAULT => Some("puddle: device fault"),
        POWER_LOST => Some("puddle: power lost while starting"),
        TOO_LONG => Some("puddle: script too long"),
        _ => None,
    }
}
