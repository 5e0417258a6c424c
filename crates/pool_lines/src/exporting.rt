//! The line that writes a pool into an export file.
ghost use Rattle.daemon_memory.specs.Premises.{WhenReady};
ghost use Rattle.daemon_memory.specs.CarryingOut.{CarriesOutWith, KeepsAllBut};
ghost use Rattle.daemon_memory.specs.Leading.{IsStill};
ghost use Rattle.daemon_memory.specs.Counted.{IsUncut};
ghost use Rattle.daemon_memory.specs.LineAnswers.{IsOneLine};
ghost use Rattle.pool_lines.specs.Files.{WritesFile, file_answer, HoldsPool, HoldsOneOf};
ghost use Rattle.std.specs.Prelude.{◌≡◌, ◌≢◌, ◌<◌, ◌≤◌, IsTrue, ℕ, Option, Result, IfOk};
ghost use Rattle.pm_model.specs.Words.{reads};
ghost use Rattle.pm_model.specs.Counts.{after_fault, fault_of, file_fault_of};
ghost use Rattle.pm_model.specs.Moments.{with_shelf};
ghost use Rattle.pm_model.specs.Calls.{shelved, LeavesFile};
ghost use Rattle.pud_defs.specs.declared.layout.TheConstants.{CLIENTS, MAX_FRAMES};
ghost use Rattle.pud_defs.specs.declared.records.Puddle.{Puddle};
ghost use Rattle.pud_defs.specs.declared.machine.Command.TheVariants.{Export};
ghost use Rattle.pud_defs.specs.Formats.Image.{Image};
ghost use Rattle.pud_defs.specs.Formats.Layout.{device_words};
ghost use Rattle.pud_defs.specs.Formats.Names.{is_legal_name};
ghost use Rattle.pud_defs.specs.RegistryTables.Types.{types_of};
ghost use Rattle.pud_defs.specs.PoolGraphs.Stored.{IsOnDevice, stored_in};
ghost use Rattle.pud_defs.specs.PoolGraphs.Graph.{Graph, graph_of};
ghost use Rattle.pud_defs.specs.PoolGraphs.Exported.{IsExportable};
ghost use Rattle.pud_defs.specs.Output.Listing.{name_text};
ghost use Rattle.pud_defs.specs.StateMachine.Changing.{file_of};
ghost use Rattle.pud_defs.specs.StateMachine.World.{World};
ghost use Rattle.daemon_memory.specs.Ready.{IsReady};

use daemon_memory::{DaemonMemory, LineAnswer, Need};
use pm_model::{FileFault, Host, HostFault};
use pool_list::text::{self, add_name};
use pud_defs::machine::{Refusal, Reply};
use pud_defs::records::{Name, Puddle};
use pud_export::{ExportFault, export_pool};
use std::alloc::Global;
use std::str;

/// Replaces the whole file on the shelf whose name is `file` without the zeros that fill it. At `Memory` nothing
/// changes; another fault may leave the file in any state.
fn put_file<H: Host>(alloc: Global, h: &mut H, file: Name, bytes: &[u8]) -> Result<(), FileFault>
    requires { IsTrue (is_legal_name file) }
    ensures put { H.tells → IfOk result (λ _. H.state h.new ≡ with_shelf (shelved (name_text file) (Option.Some bytes.now) (H.state h.old).shelf) (H.state h.old)) }
    ensures memory { H.tells → result ≡ Result.Err FileFault.Memory → H.state h.new ≡ H.state h.old }
    ensures failed { H.tells → LeavesFile (name_text file) (H.state h.old) (H.state h.new) }
    ensures cause { H.counts h.new ≡ after_fault (file_fault_of result) (H.counts h.old) }
    ensures never_cut { file_fault_of result ≢ Option.Some HostFault.Cut }
{
    let mut name = text::Text::new();
    add_name(&mut name, &file);
    match str::from_utf8(name.as_slice()) {
        Ok(name) => h.file_put(alloc, name, bytes),
        // A legal name is ASCII.
        Err(_) => unreachable!(),
    }
}

/// Writes the pool with the UUID number `number` into the file on the shelf. Unless the host fails, the file is written
/// whole or not at all. The puddles are in the order of their ordinals, each with its frame.
fn write_file<H: Host>(
    alloc: Global,
    h: &mut H,
    frames: u32,
    number: u64,
    puddles: &[(u32, Puddle)],
    file: Name,
) -> Result<(), FileFault>
    requires few { frames ≤ MAX_FRAMES }
    requires room { device_words frames ≤ (H.counts h.old).size }
    requires known { IsOnDevice frames puddles.now }
    requires name { IsTrue (is_legal_name file) }
    ensures written { H.tells → (image : Image) → reads (H.state h.old).now.words ≡ image → (g : Graph) → graph_of (types_of image) (stored_in frames puddles.now image) ≡ Option.Some g
        → IsExportable (types_of image) (stored_in frames puddles.now image)
        → IfOk result (λ _. HoldsPool frames number puddles.now g image (name_text file) (H.state h.old) (H.state h.new)) }
    ensures memory { H.tells → result ≡ Result.Err FileFault.Memory → H.state h.new ≡ H.state h.old }
    ensures failed { H.tells → LeavesFile (name_text file) (H.state h.old) (H.state h.new) }
    ensures cause { H.counts h.new ≡ after_fault (file_fault_of result) (H.counts h.old) }
    ensures never_cut { file_fault_of result ≢ Option.Some HostFault.Cut }
{
    match export_pool(alloc, h, frames, number, puddles) {
        Ok(bytes) => put_file(alloc, h, file, bytes.as_slice()),
        Err(ExportFault::Memory) => Err(FileFault::Memory),
        Err(ExportFault::Host(fault)) => Err(FileFault::Host(fault)),
    }
}

/// The answer to a line that was to write a file, by what became of it.
fn answer_written(done: Result<(), FileFault>) -> Result<LineAnswer, HostFault>
    ensures { result ≡ file_answer done }
{
    match done {
        Ok(()) => Ok(LineAnswer::Reply(Reply::Ok)),
        Err(FileFault::Memory) => Ok(LineAnswer::Reply(Reply::No(Refusal::Memory))),
        Err(FileFault::Host(fault)) => Err(fault),
    }
}

/// Writes the pool of this name for the client, 0 to 7, into the export file `file` on the shelf, or refuses to.
///
/// Nothing on the device changes. The pool is judged if it is not known to have a graph. If the answer is `Ok`, the
/// file is replaced; otherwise it is as it was. But if the host fails, the file may be left in any state.
///
/// The answer is `Ok`, or the first of these refusals that holds:
/// - `Client`: the client is not present.
/// - `Pool`: no pool has the name.
/// - `Wild`: the pool has no graph.
/// - `Denied`: the pool's mode does not let the client read it.
/// - `Busy`: another client's transaction is open on the pool.
/// - `OpenHere`: the client's own transaction is open on the pool.
/// - `Memory`: an allocation fails.
///
/// The only error is the host's own, `Failed`.
// Not inlined: its buffers would lie on the stack of every line.
#[inline(never)]
pub fn export_for<H: Host>(
    memory: &mut DaemonMemory,
    alloc: Global,
    h: &mut H,
    client: u8,
    name: Name,
    file: Name,
) -> Result<LineAnswer, HostFault>
    requires known { client < CLIENTS }
    requires room { device_words (memory.old).frames ≤ (H.counts h.old).size }
    requires name { IsTrue (is_legal_name file) }
    ensures carries { H.tells → WhenReady (H.counts h.old).size memory.old (H.state h.old) (λ size w.
        CarriesOutWith IsStill (WritesFile w name file) size w memory.new (Export client name file) result (H.counts h.old) (H.counts h.new) (H.state h.old) (H.state h.new)) }
    // Stated word by word: the file is the one that is written for what the pool stores.
    ensures words { H.tells → (size : ℕ) → (w : World) → IsReady size w memory.old (H.state h.old)
        → IfOk result (λ answered. answered ≡ LineAnswer.Reply Reply.Ok → HoldsOneOf w name (reads (H.state h.old).now.words) (name_text file) (H.state h.old) (H.state h.new)) }
    ensures one_line { IfOk result IsOneLine }
    ensures uncut { IfOk result IsUncut }
    ensures frames { (memory.new).frames ≡ (memory.old).frames }
    ensures rest { H.tells → KeepsAllBut (file_of (Export client name file)) (H.state h.old) (H.state h.new) }
    ensures cause { H.counts h.new ≡ after_fault (fault_of result) (H.counts h.old) }
    ensures never_cut { fault_of result ≢ Option.Some HostFault.Cut }
{
    let found = match memory.find_pool(h, client, name, Need::Read)? {
        Err(refusal) => return Ok(LineAnswer::Reply(Reply::No(refusal))),
        Ok(found) => found,
    };
    if found.own.is_some() {
        return Ok(LineAnswer::Reply(Reply::No(Refusal::OpenHere)));
    }
    let puddles = memory.known_pools.puddles(found.slot);
    let done = write_file(alloc, h, memory.frames, found.number, puddles, file);
    answer_written(done)
}
