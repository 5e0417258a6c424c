//! Closes the logs of a client.

ghost use Rattle.std.specs.Prelude.{◌≡◌, ◌<◌, ◌≤◌, ℕ};
ghost use Rattle.pm_model.specs.Counts.{after_fault, fault_of};
ghost use Rattle.pm_model.specs.Changes.{Changes};
ghost use Rattle.pud_defs.specs.declared.layout.TheConstants.{CLIENTS, CLIENT_LOGS, MAX_FRAMES};
ghost use Rattle.pud_defs.specs.Formats.Layout.{device_words};
ghost use Rattle.pud_defs.specs.StateMachine.World.{StoredWorld};
ghost use Rattle.log_replay.specs.Replaying.{Anything};
ghost use Rattle.batch.specs.Worlds.{WhileQuiescent};
ghost use Rattle.log_space.specs.Closed.{ByClosing, WritesGates, ClosesGates, ClosesClientLogs};

use pm_model::{Host, HostFault};
use pm_persist::write_range;
use pud_defs::layout::{CLIENT_LOGS, log_at};
use pud_defs::log_words::CLOSED_GATE;

/// Writes the value of a closed log's gate to the gates of the client's logs, and marks them: they are durable after
/// the next fence. The device has `frames` frames.
fn write_gates<H: Host>(h: &mut H, frames: u32, slot: u32) -> Result<(), HostFault>
    requires few { frames ≤ MAX_FRAMES }
    requires room { device_words frames ≤ (H.counts h.old).size }
    requires known { slot < CLIENTS }
    ensures writes { H.tells → WritesGates frames slot CLIENT_LOGS (fault_of result) (H.state h.old) (H.state h.new) }
    ensures cause { H.counts h.new ≡ after_fault (fault_of result) (H.counts h.old) }
{
    for number in 0..CLIENT_LOGS {
        write_range(h, log_at(frames, slot, number), &[CLOSED_GATE])?;
    }
    Ok(())
}

/// Closes the client's logs durably, with one fence. The device has `frames` frames.
fn close_gates<H: Host>(h: &mut H, frames: u32, slot: u32) -> Result<(), HostFault>
    requires few { frames ≤ MAX_FRAMES }
    requires room { device_words frames ≤ (H.counts h.old).size }
    requires known { slot < CLIENTS }
    ensures closes { H.tells → ClosesGates frames slot (fault_of result) (H.state h.old) (H.state h.new) }
    ensures cause { H.counts h.new ≡ after_fault (fault_of result) (H.counts h.old) }
{
    write_gates(h, frames, slot)?;
    h.fence()
}

/// Closes the four logs of client `slot` durably, with one fence, whatever they store. Nothing in them is replayed. The
/// device has `frames` frames, at most 1,024, and `slot` is 0 to 7.
///
/// The device must have the words that so many frames need. Whatever it stores, only the four gates are written, and on
/// `Ok` each of them has only the value of a closed log's gate. If each image stands for a world, and the daemon log
/// counts nothing in it, then each image left meanwhile stands for that world, too. This holds also with words masked,
/// if none of them is one of the gates. The only errors are the host's own.
pub fn close_logs<H: Host>(h: &mut H, frames: u32, slot: u32) -> Result<(), HostFault>
    requires few { frames ≤ MAX_FRAMES }
    requires room { device_words frames ≤ (H.counts h.old).size }
    requires known { slot < CLIENTS }
    ensures gates { H.tells → ClosesGates frames slot (fault_of result) (H.state h.old) (H.state h.new) }
    ensures closes { H.tells → (size : ℕ) → size ≡ (H.counts h.old).size → (s : StoredWorld) → frames ≡ s.frames
        → WhileQuiescent size s (ByClosing frames slot) (H.state h.old) (H.state h.new) (ClosesClientLogs size s slot (fault_of result)) }
    ensures any { H.tells → Changes Anything (fault_of result) (H.state h.old) (H.state h.new) }
    ensures cause { H.counts h.new ≡ after_fault (fault_of result) (H.counts h.old) }
{
    close_gates(h, frames, slot)
}
