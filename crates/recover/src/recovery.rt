//! The recovery of a device: what a start does before it prints anything.

ghost use Rattle.std.specs.Prelude.{◌≡◌, ◌↔◌, ◌<◌, ◌≤◌, ℕ, slice_index_or, Option, Result, IfOk};
ghost use Rattle.pm_model.specs.Words.{IsRested, reads};
ghost use Rattle.pm_model.specs.Counts.{after_fault, fault_of};
ghost use Rattle.pm_model.specs.Changes.{Changes};
ghost use Rattle.pud_defs.specs.declared.layout.TheConstants.{DAEMON_LOG, MAX_FRAMES};
ghost use Rattle.pud_defs.specs.Formats.Image.{Image};
ghost use Rattle.pud_defs.specs.Formats.Layout.{device_words};
ghost use Rattle.pud_defs.specs.Logging.Replay.{settled_by};
ghost use Rattle.pud_defs.specs.RegistryTables.Registry.{frames_of};
ghost use Rattle.pud_defs.specs.Logging.Settled.{ALL_LOGS, is_refused_log};
ghost use Rattle.pud_defs.specs.StateMachine.World.{StoredWorld, world_of};
ghost use Rattle.soundness.specs.Judging.{IsRoomFor};
ghost use Rattle.log_replay.specs.Replaying.{Anything};
ghost use Rattle.recover.specs.Verdicts.{verdict_of, mark_of, is_refused_mark};
ghost use Rattle.recover.specs.RecoveredLogs.{RecoversLogs, RecoversLogsAtEachMoment};
ghost use Rattle.recover.specs.Recovery.{recover_fault, ReplaysLogs, RecoversDevice};

use crate::client_logs::recover_logs;
use crate::judge::Mark;
use pm_model::{Host, HostFault};
use pud_defs::layout::LOGS;
use registry::{LoadFault, load_sound};

/// What a recovery found.
#[derive(Clone, Copy, Debug, PartialEq, Eq)]
pub struct Report {
    /// The number of the device's frames, 4 to 1,024.
    pub frames: u32,
    /// What was found out about each client's log, by its log number: log `k` of client `c` has the log number `4 * c +
    /// k`.
    pub marks: [Mark; LOGS],
}

/// Why a device was not recovered.
#[derive(Clone, Copy, Debug, PartialEq, Eq, thiserror::Error)]
pub enum RecoverFault {
    /// The device is not a sound registry. Nothing changed.
    #[error("the device is not a sound registry")]
    NotSound,
    /// The host's own fault.
    #[error("the host failed")]
    Host(HostFault),
}

impl From<HostFault> for RecoverFault {
    ghost use Rattle.recover.specs.declared.recovery.RecoverFault.TheVariants.{Host};

    ghost from_gives = { λ fault e. e ≡ Host fault };

    fn from(fault: HostFault) -> Self {
        RecoverFault::Host(fault)
    }
}

impl From<LoadFault> for RecoverFault {
    ghost use Rattle.recover.specs.Recovery.{of_load};

    ghost from_gives = { λ fault e. e ≡ of_load fault };

    fn from(fault: LoadFault) -> Self {
        match fault {
            LoadFault::NotSound => RecoverFault::NotSound,
            LoadFault::Host(fault) => RecoverFault::Host(fault),
        }
    }
}

/// Recovers the device: applies its daemon log, and then replays and closes each registered log that is allowed, in the
/// order of their log numbers. It allocates nothing. It may be cut off anywhere and run again. The logs stay
/// registered: a start reports about them before it forgets them.
///
/// If the host does not fail first, `NotSound` comes exactly if the device is not a sound registry. On such a device
/// nothing changes, even if the host fails. Clients' logs may have any content. A log is refused as a whole, and no
/// word of it changes, if it is not well formed, or if an entry in its range names anything but words of one puddle
/// that its owner may write. At `Ok` the tables and the frames read as in the settled image, and each log that was
/// replayed or had nothing to replay has the gate of a closed log. If the device is rested, a start makes of whatever a
/// power loss leaves the same as it makes of the device. The only other errors are the host's own.
pub fn recover<H: Host>(h: &mut H) -> Result<Report, RecoverFault>
    ensures not_sound { H.tells → recover_fault result ≡ Option.None
        → (result ≡ Result.Err RecoverFault.NotSound) ↔ (world_of (H.counts h.old).size (reads (H.state h.old).now.words) ≡ Option.None) }
    ensures unsound_stays { H.tells → world_of (H.counts h.old).size (reads (H.state h.old).now.words) ≡ Option.None → H.state h.new ≡ H.state h.old }
    ensures replays { H.tells → (size : ℕ) → size ≡ (H.counts h.old).size → (s : StoredWorld)
        → world_of size (reads (H.state h.old).now.words) ≡ Option.Some s → ReplaysLogs s.frames (recover_fault result) (H.state h.old) (H.state h.new) }
    ensures recovers { H.tells → (size : ℕ) → size ≡ (H.counts h.old).size → (s : StoredWorld) → IsRested (H.state h.old).now.words
        → world_of size (reads (H.state h.old).now.words) ≡ Option.Some s → RecoversDevice size s (recover_fault result) (H.state h.old) (H.state h.new) }
    ensures marks { H.tells → (image : Image) → reads (H.state h.old).now.words ≡ image
        → IfOk result (λ report. (number : ℕ) → number < ALL_LOGS
        → slice_index_or report.marks number Mark.Closed ≡ mark_of (verdict_of (frames_of image) (settled_by DAEMON_LOG image) number)) }
    ensures refused { H.tells → (image : Image) → reads (H.state h.old).now.words ≡ image
        → IfOk result (λ report. (number : ℕ) → number < ALL_LOGS
        → is_refused_mark (slice_index_or report.marks number Mark.Closed) ≡ is_refused_log (frames_of image) (settled_by DAEMON_LOG image) number) }
    ensures frames { H.tells → IfOk result (λ report. report.frames ≡ frames_of (reads (H.state h.old).now.words)) }
    ensures room { IfOk result (λ report. IsRoomFor (H.counts h.old).size report.frames) }
    ensures any { H.tells → Changes Anything (recover_fault result) (H.state h.old) (H.state h.new) }
    ensures cause { H.counts h.new ≡ after_fault (recover_fault result) (H.counts h.old) }
{
    let frames = load_sound(h)?;
    let marks = recover_logs(h, frames)?;
    Ok(Report { frames, marks })
}
