//! The line that reads a field of an object.
ghost use Rattle.std.specs.Prelude.{◌≡◌, ◌≢◌, ◌<◌, ◌≤◌, ℕ, Option, IfOk};
ghost use Rattle.pm_model.specs.Counts.{fault_of};
ghost use Rattle.pm_model.specs.Reads.{OnlyReads};
ghost use Rattle.pud_defs.specs.declared.layout.TheConstants.{CLIENTS, MAX_FIELDS};
ghost use Rattle.pud_defs.specs.declared.machine.Command.TheVariants.{Get};
ghost use Rattle.pud_defs.specs.Formats.Layout.{device_words};
ghost use Rattle.pud_defs.specs.StateMachine.World.{World};
ghost use Rattle.pud_defs.specs.StateMachine.Step.{answer_by, world_by};
ghost use Rattle.pud_defs.specs.StateMachine.Step.Answer.{of_reply};
ghost use Rattle.pool_lines.specs.Reading.{reply_of_read};
ghost use Rattle.daemon_memory.specs.Ready.{IsReady, Applies};

use daemon_memory::{DaemonMemory, Need};
use graph_read::FieldRead;
use pm_model::{Host, HostFault};
use pud_defs::machine::{Refusal, Reply};
use pud_defs::objects::FieldValue;
use pud_defs::records::Name;
use std::alloc::Global;

/// The reply, by what was read of the field.
fn reply_of_read(read: FieldRead) -> Reply
    ensures { result ≡ reply_of_read read }
{
    match read {
        FieldRead::NoObject => Reply::No(Refusal::Object),
        FieldRead::NoField => Reply::No(Refusal::Field),
        FieldRead::Value(FieldValue::Num(v)) => Reply::Num(v),
        FieldRead::Value(FieldValue::Ref(serial)) => Reply::Ref(serial),
    }
}

/// Reads field `f`, 0 to 29, of the object of serial `s` in the pool of this name for the client, or refuses to.
///
/// Nothing on the device changes. The pool is judged if it is not known to have a graph. An index of it is built if
/// none is kept, as `KnownPools::build` states. If a transaction is open on the pool, the field is read as the
/// transaction has it, and only by its client.
///
/// The reply is the field's value, or the first of these refusals that holds:
/// - `Client`: the client is not present.
/// - `Pool`: no pool has the name.
/// - `Wild`: the pool has no graph.
/// - `Denied`: the pool's mode does not let the client read it.
/// - `Busy`: another client's transaction is open on the pool.
/// - `Object`: no object has the serial.
/// - `Field`: the object has no such field.
pub fn get_for<H: Host>(
    memory: &mut DaemonMemory,
    alloc: Global,
    h: &mut H,
    client: u8,
    name: Name,
    s: u64,
    f: u32,
) -> Result<Reply, HostFault>
    requires known { client < CLIENTS }
    requires room { device_words (memory.old).frames ≤ (H.counts h.old).size }
    requires field { f < MAX_FIELDS }
    ensures reply { H.tells → (size : ℕ) → (w : World) → IsReady size w memory.old (H.state h.old)
        → IfOk result (λ reply. of_reply reply ≡ answer_by w (Option.Some (Get client name s f))) }
    ensures applies { H.tells → (size : ℕ) → (w : World) → IsReady size w memory.old (H.state h.old)
        → Applies size w (world_by w (Option.Some (Get client name s f))) memory.new (fault_of result) (H.state h.old) (H.state h.new) }
    ensures uncut { IfOk result (λ reply. reply ≢ Reply.Cut) }
    ensures active { (memory.new).active ≡ (memory.old).active }
    ensures sessions { (memory.new).sessions ≡ (memory.old).sessions }
    ensures frames { (memory.new).frames ≡ (memory.old).frames }
    ensures only_reads { OnlyReads H.tells H.state H.counts (fault_of result) h.old h.new }
{
    let found = match memory.find_pool(h, client, name, Need::Read)? {
        Err(refusal) => return Ok(Reply::No(refusal)),
        Ok(found) => found,
    };
    memory
        .known_pools
        .build(alloc, h, memory.frames, found.slot, false)?;
    let read = memory
        .known_pools
        .read_field(h, memory.frames, found.slot, s, f)?;
    Ok(reply_of_read(read))
}
