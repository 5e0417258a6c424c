//! Prints what a device stores: the modes `layout` and `check`.
ghost use Rattle.std.specs.Prelude.{◌≡◌, ◌≢◌, ◌↔◌, ◌++◌, ◌≤◌, ℕ, IsOk, Option, Result};
ghost use Rattle.pm_model.specs.Words.{IsRested, reads};
ghost use Rattle.pm_model.specs.Counts.{after_fault, fault_of};
ghost use Rattle.pm_model.specs.Calls.{Says};
ghost use Rattle.pm_model.specs.Changes.{Leaves};
ghost use Rattle.pud_defs.specs.declared.layout.TheConstants.{MAX_FRAMES};
ghost use Rattle.pud_defs.specs.Formats.Image.{Image};
ghost use Rattle.pud_defs.specs.Formats.Layout.{device_words};
ghost use Rattle.pud_defs.specs.RegistryTables.Registry.{frames_of};
ghost use Rattle.pud_defs.specs.Logging.Settled.{settled};
ghost use Rattle.pud_defs.specs.RegistryTables.SoundTables.{HasSoundTables};
ghost use Rattle.pud_defs.specs.RegistryTables.Tables.{tables_of};
ghost use Rattle.pud_defs.specs.Output.StartText.{start_text};
ghost use Rattle.pud_defs.specs.StateMachine.World.{StoredWorld, world_of};
ghost use Rattle.puddled.specs.Faults.{start_fault};
ghost use Rattle.daemon_memory.specs.Ready.{KeepsInput};
ghost use Rattle.puddled.specs.Saying.{SaysPart};
ghost use Rattle.puddled.specs.Starting.{HasTablesOf};
ghost use Rattle.puddle_cli.specs.Status.{status_fault, IsStatusOfMode};
ghost use Rattle.puddle_cli.specs.Views.{text_of, SaysSome};
ghost use Rattle.puddle_cli.specs.Headline.{StartMoments, StartsAndSays};

use crate::status::{DONE, NOT_USABLE, TOO_LONG, status_of};
use pm_model::{Host, HostFault};
use pud_check::{check_pools, say_layout};
use puddled::{Daemon, StartFault};

/// What a mode shows of a device.
#[derive(Clone, Copy)]
pub enum View {
    /// Which pools it has, and where their puddles are.
    Layout,
    /// Which of its pools are sound, and how many objects they have.
    Check,
}

/// Prints this view of a device of `frames` frames.
fn say_view<H: Host>(h: &mut H, frames: u32, view: View) -> Result<(), HostFault>
    requires few { frames ≤ MAX_FRAMES }
    requires room { device_words frames ≤ (H.counts h.old).size }
    ensures says { H.tells → SaysSome (fault_of result) (H.state h.old) (H.state h.new) }
    ensures sound { H.tells → (image : Image) → reads (H.state h.old).now.words ≡ image → (next : ℕ) → HasSoundTables next (tables_of frames image)
        → frames ≡ frames_of image → Says (text_of view image) (fault_of result) (H.state h.old) (H.state h.new) }
    ensures cause { H.counts h.new ≡ after_fault (fault_of result) (H.counts h.old) }
{
    match view {
        View::Layout => say_layout(h, frames),
        View::Check => check_pools(h, frames),
    }
}

/// Starts a daemon on the device, stops it, and prints this view of the device.
fn start_and_say<H: Host>(h: &mut H, view: View) -> Result<(), StartFault>
    ensures not_sound { H.tells → start_fault result ≡ Option.None
        → (result ≡ Result.Err StartFault.NotSound) ↔ (world_of (H.counts h.old).size (reads (H.state h.old).now.words) ≡ Option.None) }
    ensures unchanged { H.tells → result ≡ Result.Err StartFault.NotSound → H.state h.new ≡ H.state h.old }
    ensures says { H.tells → IsRested (H.state h.old).now.words → result ≢ Result.Err StartFault.NotSound
        → SaysPart (start_text (reads (H.state h.old).now.words) ++ text_of view (settled (frames_of (reads (H.state h.old).now.words)) (reads (H.state h.old).now.words))) (start_fault result) (H.state h.old) (H.state h.new) }
    ensures in_the_end { H.tells → IsRested (H.state h.old).now.words → IsOk result
        → text_of view (reads (H.state h.new).now.words) ≡ text_of view (settled (frames_of (reads (H.state h.old).now.words)) (reads (H.state h.old).now.words)) }
    ensures moments { H.tells → (size : ℕ) → size ≡ (H.counts h.old).size → IsRested (H.state h.old).now.words → (s : StoredWorld)
        → world_of size (reads (H.state h.old).now.words) ≡ Option.Some s → Leaves (λ bytes image. world_of size image ≡ Option.Some s) (H.state h.old) (H.state h.new) }
    ensures tables { H.tells → (size : ℕ) → size ≡ (H.counts h.old).size → IsRested (H.state h.old).now.words → (s : StoredWorld)
        → world_of size (reads (H.state h.old).now.words) ≡ Option.Some s → Leaves (λ bytes image. HasTablesOf s.frames (reads (H.state h.old).now.words) image) (H.state h.old) (H.state h.new) }
    ensures in_start { H.tells → (size : ℕ) → size ≡ (H.counts h.old).size → IsRested (H.state h.old).now.words → (s : StoredWorld)
        → world_of size (reads (H.state h.old).now.words) ≡ Option.Some s → StartMoments s.frames (H.state h.old) (H.state h.new) }
    ensures does { H.tells → (size : ℕ) → size ≡ (H.counts h.old).size → IsRested (H.state h.old).now.words → (s : StoredWorld)
        → world_of size (reads (H.state h.old).now.words) ≡ Option.Some s → StartsAndSays size s (H.state h.old) (H.state h.new) }
    ensures rest { H.tells → KeepsInput (H.state h.old) (H.state h.new) }
    ensures cause { H.counts h.new ≡ after_fault (start_fault result) (H.counts h.old) }
{
    let daemon = Daemon::start(h)?;
    let frames = daemon.frames();
    daemon.stop();
    say_view(h, frames, view)?;
    Ok(())
}

/// The mode that shows this view of the device. Returns the program's status, which is never 7.
pub fn show<H: Host>(h: &mut H, view: View) -> u8
    ensures status { IsStatusOfMode result }
    ensures not_usable { H.tells → status_fault result ≡ Option.None
        → (result ≡ NOT_USABLE) ↔ (world_of (H.counts h.old).size (reads (H.state h.old).now.words) ≡ Option.None) }
    ensures unchanged { H.tells → result ≡ NOT_USABLE → H.state h.new ≡ H.state h.old }
    ensures says { H.tells → IsRested (H.state h.old).now.words → result ≢ NOT_USABLE
        → SaysPart (start_text (reads (H.state h.old).now.words) ++ text_of view (settled (frames_of (reads (H.state h.old).now.words)) (reads (H.state h.old).now.words))) (status_fault result) (H.state h.old) (H.state h.new) }
    ensures in_the_end { H.tells → IsRested (H.state h.old).now.words → result ≡ DONE
        → text_of view (reads (H.state h.new).now.words) ≡ text_of view (settled (frames_of (reads (H.state h.old).now.words)) (reads (H.state h.old).now.words)) }
    ensures moments { H.tells → (size : ℕ) → size ≡ (H.counts h.old).size → IsRested (H.state h.old).now.words → (s : StoredWorld)
        → world_of size (reads (H.state h.old).now.words) ≡ Option.Some s → Leaves (λ bytes image. world_of size image ≡ Option.Some s) (H.state h.old) (H.state h.new) }
    ensures tables { H.tells → (size : ℕ) → size ≡ (H.counts h.old).size → IsRested (H.state h.old).now.words → (s : StoredWorld)
        → world_of size (reads (H.state h.old).now.words) ≡ Option.Some s → Leaves (λ bytes image. HasTablesOf s.frames (reads (H.state h.old).now.words) image) (H.state h.old) (H.state h.new) }
    ensures in_start { H.tells → (size : ℕ) → size ≡ (H.counts h.old).size → IsRested (H.state h.old).now.words → (s : StoredWorld)
        → world_of size (reads (H.state h.old).now.words) ≡ Option.Some s → StartMoments s.frames (H.state h.old) (H.state h.new) }
    ensures does { H.tells → (size : ℕ) → size ≡ (H.counts h.old).size → IsRested (H.state h.old).now.words → (s : StoredWorld)
        → world_of size (reads (H.state h.old).now.words) ≡ Option.Some s → StartsAndSays size s (H.state h.old) (H.state h.new) }
    ensures rest { H.tells → KeepsInput (H.state h.old) (H.state h.new) }
    ensures never_too_long { result ≢ TOO_LONG }
    ensures cause { H.counts h.new ≡ after_fault (status_fault result) (H.counts h.old) }
{
    match start_and_say(h, view) {
        Ok(()) => DONE,
        Err(StartFault::NotSound) => NOT_USABLE,
        Err(StartFault::Host(fault)) => status_of(fault),
    }
}
