//! The registry of a device: it is judged and brought up to date by its daemon log, and its pools are made, placed,
//! changed and dropped.
#![tactic(auto)]

ghost use Rattle.std.specs.Prelude.{◌≡◌, ◌≢◌, ◌↔◌, ℕ, Option, Result, IfOk};
ghost use Rattle.pm_model.specs.Words.{IsRested, reads};
ghost use Rattle.pm_model.specs.Counts.{after_fault};
ghost use Rattle.pm_model.specs.Changes.{Changes};
ghost use Rattle.log_replay.specs.declared.Target.TheVariants as targets;
ghost use Rattle.log_replay.specs.Replaying.{Anything, SettlesLog};
ghost use Rattle.pud_defs.specs.declared.layout.TheConstants.{DAEMON_LOG};
ghost use Rattle.pud_defs.specs.RegistryTables.Registry.{frames_of};
ghost use Rattle.pud_defs.specs.StateMachine.World.{StoredWorld, world_of};
ghost use Rattle.soundness.specs.Judging.{IsRoomFor};
ghost use Rattle.registry.specs.Registry.{load_fault, AppliesLog};

mod adding;
mod changing;
mod frames;
mod growing;
mod making;
mod placing;
mod puts;

pub use adding::NewPuddle;
pub use changing::{change_mode, drop_pool};
pub use growing::{find_growth, grow_pool};
use log_replay::settle_copy;
pub use making::{MakeFault, make_pool};
pub use placing::{NewType, place_pool};
use pm_model::{Host, HostFault};
use pud_defs::layout::DAEMON_LOG;
use soundness::judge_device;

/// Why a registry was not loaded.
#[derive(Clone, Copy, Debug, PartialEq, Eq, thiserror::Error)]
pub enum LoadFault {
    /// The device is not a sound registry. Nothing changed.
    #[error("the device is not a sound registry")]
    NotSound,
    /// The host's own fault.
    #[error("the host failed")]
    Host(HostFault),
}

impl From<HostFault> for LoadFault {
    ghost use Rattle.registry.specs.declared.LoadFault.TheVariants.{Host};

    ghost from_gives = { λ fault e. e ≡ Host fault };

    fn from(fault: HostFault) -> Self {
        LoadFault::Host(fault)
    }
}

/// Judges the device and brings it up to date: its daemon log is applied and closed, durably at `Ok`.
///
/// If the host does not fail first, `NotSound` comes exactly if the device, with that log replayed, is not a sound
/// registry. On such a device nothing changes, even if the host fails. On any other device only the words change that
/// the log's entries in range name, and the log's gate. At `Ok` each of these words has its new value and no other, and
/// what is read stands for the same world as before. The answer is the number of frames, 4 to 1,024.
///
/// If the device was rested, whatever a power loss leaves stands for that world too, and is the same with the daemon
/// log replayed. At `Ok` that log counts nothing in any image. The clients' logs may have any content; none of them is
/// read.
pub fn load_sound<H: Host>(h: &mut H) -> Result<u32, LoadFault>
    ensures not_sound { H.tells → load_fault result ≡ Option.None
        → (result ≡ Result.Err LoadFault.NotSound) ↔ (world_of (H.counts h.old).size (reads (H.state h.old).now.words) ≡ Option.None) }
    ensures unsound_stays { H.tells → world_of (H.counts h.old).size (reads (H.state h.old).now.words) ≡ Option.None → H.state h.new ≡ H.state h.old }
    ensures room { IfOk result (IsRoomFor (H.counts h.old).size) }
    ensures frames { H.tells → IfOk result (λ frames. frames ≡ frames_of (reads (H.state h.old).now.words)) }
    ensures settles { H.tells → result ≢ Result.Err LoadFault.NotSound → SettlesLog targets.Words DAEMON_LOG (load_fault result) (H.state h.old) (H.state h.new) }
    ensures stands { H.tells → (size : ℕ) → size ≡ (H.counts h.old).size
        → IfOk result (λ frames. world_of size (reads (H.state h.new).now.words) ≡ world_of size (reads (H.state h.old).now.words)) }
    ensures applies { H.tells → (size : ℕ) → size ≡ (H.counts h.old).size → (s : StoredWorld) → IsRested (H.state h.old).now.words
        → world_of size (reads (H.state h.old).now.words) ≡ Option.Some s → AppliesLog size s (load_fault result) (H.state h.old) (H.state h.new) }
    ensures any { H.tells → Changes Anything (load_fault result) (H.state h.old) (H.state h.new) }
    ensures cause { H.counts h.new ≡ after_fault (load_fault result) (H.counts h.old) }
{
    let Some(sound) = judge_device(h)? else {
        return Err(LoadFault::NotSound);
    };
    settle_copy(h, &sound.log, DAEMON_LOG)?;
    Ok(sound.frames)
}
