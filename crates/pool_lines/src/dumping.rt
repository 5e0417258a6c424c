//! The line that asks for a pool's graph as a text.
ghost use Rattle.daemon_memory.specs.Premises.{WhenReady};
ghost use Rattle.daemon_memory.specs.CarryingOut.{CarriesOutWith};
ghost use Rattle.daemon_memory.specs.Leading.{IsStill};
ghost use Rattle.daemon_memory.specs.Doing.{ChangesNothing};
ghost use Rattle.daemon_memory.specs.Counted.{IsUncut};
ghost use Rattle.daemon_memory.specs.LineAnswers.{IsOneLine};
ghost use Rattle.std.specs.Prelude.{◌≡◌, ◌<◌, ◌≤◌, IfOk};
ghost use Rattle.pm_model.specs.Counts.{fault_of};
ghost use Rattle.pm_model.specs.Reads.{OnlyReads};
ghost use Rattle.pud_defs.specs.declared.layout.TheConstants.{CLIENTS};
ghost use Rattle.pud_defs.specs.declared.machine.Command.TheVariants.{Dump};
ghost use Rattle.pud_defs.specs.Formats.Layout.{device_words};

use daemon_memory::{DaemonMemory, LineAnswer, Need, Text};
use graph_dump::{DumpFault, dump_json};
use pm_model::{Host, HostFault};
use pud_defs::machine::{Refusal, Reply};
use pud_defs::records::Name;
use std::alloc::Global;

/// Reads the graph of the pool of this name for the client, 0 to 7, as a text, or refuses to. All of the text is
/// built before any of it is printed.
///
/// If a transaction is open on the pool, the graph is read as the transaction has it, and only by its client.
/// Nothing on the device changes. The pool is judged if it is not known to have a graph.
///
/// The answer is the text, or the first of these refusals that holds:
/// - `Client`: the client is not present.
/// - `Pool`: no pool has the name.
/// - `Wild`: the pool has no graph.
/// - `Denied`: the pool's mode does not let the client read it.
/// - `Busy`: another client's transaction is open on the pool.
/// - `Memory`: an allocation fails.
///
/// The only error is the host's own, `Failed`.
// Not inlined: its buffers would lie on the stack of every line.
#[inline(never)]
pub fn dump_for<H: Host>(
    memory: &mut DaemonMemory,
    alloc: Global,
    h: &mut H,
    client: u8,
    name: Name,
) -> Result<LineAnswer, HostFault>
    requires known { client < CLIENTS }
    requires room { device_words (memory.old).frames ≤ (H.counts h.old).size }
    ensures carries { H.tells → WhenReady (H.counts h.old).size memory.old (H.state h.old) (λ size w.
        CarriesOutWith IsStill ChangesNothing size w memory.new (Dump client name) result (H.counts h.old) (H.counts h.new) (H.state h.old) (H.state h.new)) }
    // Whatever the device stores: a text is one line.
    ensures one_line { IfOk result IsOneLine }
    ensures uncut { IfOk result IsUncut }
    ensures frames { (memory.new).frames ≡ (memory.old).frames }
    ensures only_reads { OnlyReads H.tells H.state H.counts (fault_of result) h.old h.new }
{
    let found = match memory.find_pool(h, client, name, Need::Read)? {
        Err(refusal) => return Ok(LineAnswer::Reply(Reply::No(refusal))),
        Ok(found) => found,
    };
    match dump_json(alloc, h, memory.frames, memory.puddles_of(found.slot)) {
        Ok(bytes) => Ok(LineAnswer::Text(Text::new(bytes))),
        Err(DumpFault::Memory) => Ok(LineAnswer::Reply(Reply::No(Refusal::Memory))),
        Err(DumpFault::Host(fault)) => Err(fault),
    }
}
