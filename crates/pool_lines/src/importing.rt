//! The line that makes a pool from an export file.
ghost use Rattle.daemon_memory.specs.Premises.{ForReady};
ghost use Rattle.pool_lines.specs.Promises.{CarriesOutImport};
ghost use Rattle.std.specs.Prelude.{◌≡◌, ◌≢◌, ◌<◌, ◌≤◌, IsTrue, IsSome, ℕ, List, Option, Result, IfOk, option_map, take};
ghost use Rattle.pm_model.specs.declared.host.TheConstants.{FILE_READ_LIMIT};
ghost use Rattle.pm_model.specs.Words.{IsRested};
ghost use Rattle.pm_model.specs.Counts.{after_fault, fault_of, file_fault_of};
ghost use Rattle.pm_model.specs.Reads.{OnlyReads};
ghost use Rattle.pud_defs.specs.declared.layout.TheConstants.{CLIENTS, MAX_FRAMES, PUDDLE_TABLE};
ghost use Rattle.pud_defs.specs.declared.machine.Refusal.{Refusal};
ghost use Rattle.pud_defs.specs.declared.machine.Command.TheVariants.{Import};
ghost use Rattle.pud_defs.specs.Formats.Layout.{device_words};
ghost use Rattle.pud_defs.specs.Output.Listing.{name_text};
ghost use Rattle.pud_defs.specs.Formats.Names.{is_legal_name};
ghost use Rattle.pud_defs.specs.StateMachine.Grammar.{IsLegalCommand};
ghost use Rattle.pud_defs.specs.StateMachine.Step.{refusal_of};
ghost use Rattle.pud_defs.specs.StateMachine.World.{World};
ghost use Rattle.daemon_memory.specs.Memory.{Memory};
ghost use Rattle.daemon_memory.specs.Ready.{KeepsRest, IsReady};
ghost use Rattle.pool_lines.specs.Importing.{MayMakeNamed, IsPrefixOf, reply_of_placing};

use log_space::owner;
use pm_model::{FileFault, Host, HostFault};
use pool_list::text::{self, add_name};
use pool_table::find;
use pud_defs::machine::{Refusal, Reply};
use pud_defs::records::{Name, Owner};
use pud_import::{PlaceFault, place, read_file};
use std::alloc::Global;
use std::str;

/// The reply to a line that was to place a file, by what became of it.
fn reply_of_placing(done: Result<(), PlaceFault>) -> Result<Reply, HostFault>
    ensures { result ≡ reply_of_placing done }
{
    match done {
        Ok(()) => Ok(Reply::Ok),
        Err(PlaceFault::Clash) => Ok(Reply::No(Refusal::Clash)),
        Err(PlaceFault::Full) => Ok(Reply::No(Refusal::Full)),
        Err(PlaceFault::NoSpace) => Ok(Reply::No(Refusal::Space)),
        Err(PlaceFault::Host(fault)) => Err(fault),
    }
}

/// What the host gives of the file on the shelf whose name is `file` without the zeros that fill it. `None` if there is
/// no such file.
fn get_file<H: Host>(alloc: Global, h: &mut H, file: Name) -> Result<Option<Vec<u8>>, FileFault>
    requires { IsTrue (is_legal_name file) }
    ensures found { H.tells → IfOk result (λ found.
        option_map (λ bytes. bytes.items) found ≡ option_map (take FILE_READ_LIMIT) ((H.state h.old).shelf (name_text file))) }
    ensures memory { H.tells → result ≡ Result.Err FileFault.Memory → IsSome ((H.state h.old).shelf (name_text file)) }
    ensures only_reads { OnlyReads H.tells H.state H.counts (file_fault_of result) h.old h.new }
{
    let mut name = text::Text::new();
    add_name(&mut name, &file);
    match str::from_utf8(name.as_slice()) {
        Ok(name) => h.file_get(alloc, name),
        // A legal name is ASCII.
        Err(_) => unreachable!(),
    }
}

/// Makes the pool of this name, with this owner and mode, from what these bytes store, or refuses to. A refusal changes
/// nothing. No pool may have the name yet. `frames` is the device's number of frames.
fn place_bytes<H: Host>(
    h: &mut H,
    frames: u32,
    bytes: &[u8],
    name: Name,
    uid: u32,
    gid: u32,
    mode: u32,
) -> Result<Reply, HostFault>
    requires few { frames ≤ MAX_FRAMES }
    requires room { device_words frames ≤ (H.counts h.old).size }
    ensures carries { H.tells → ForReady (H.counts h.old).size frames (H.state h.old) (λ size w memory.
        (client : ℕ) → (file : List ℕ) → IsLegalCommand (Import client name file mode) → MayMakeNamed w client name uid gid → IsPrefixOf w file bytes.now
        → CarriesOutImport size w memory client name file mode result (H.counts h.old) (H.counts h.new) (H.state h.old) (H.state h.new)) }
    ensures unchanged { H.tells → (size : ℕ) → (w : World) → (memory : Memory) → memory.frames ≡ frames → IsReady size w memory (H.state h.old)
        → (client : ℕ) → MayMakeNamed w client name uid gid → IfOk result (λ reply. reply ≢ Reply.Ok → H.state h.new ≡ H.state h.old) }
    ensures uncut { IfOk result (λ reply. reply ≢ Reply.Cut) }
    ensures rest { H.tells → KeepsRest (H.state h.old) (H.state h.new) }
    ensures rested { H.tells → fault_of result ≡ Option.Some HostFault.Cut → IsRested (H.state h.new).now.words }
    ensures cause { H.counts h.new ≡ after_fault (fault_of result) (H.counts h.old) }
{
    let Ok(view) = read_file(bytes) else {
        return Ok(Reply::No(Refusal::BadFile));
    };
    reply_of_placing(place(h, frames, &view, name, uid, gid, mode))
}

/// Does the same from what the file `file` on the shelf stores. The whole file is read before any device step.
fn place_file<H: Host>(
    alloc: Global,
    h: &mut H,
    frames: u32,
    file: Name,
    name: Name,
    uid: u32,
    gid: u32,
    mode: u32,
) -> Result<Reply, HostFault>
    requires few { frames ≤ MAX_FRAMES }
    requires room { device_words frames ≤ (H.counts h.old).size }
    requires name { IsTrue (is_legal_name file) }
    ensures carries { H.tells → ForReady (H.counts h.old).size frames (H.state h.old) (λ size w memory.
        (client : ℕ) → IsLegalCommand (Import client name file mode) → MayMakeNamed w client name uid gid
        → CarriesOutImport size w memory client name file mode result (H.counts h.old) (H.counts h.new) (H.state h.old) (H.state h.new)) }
    ensures unchanged { H.tells → (size : ℕ) → (w : World) → (memory : Memory) → memory.frames ≡ frames → IsReady size w memory (H.state h.old)
        → (client : ℕ) → MayMakeNamed w client name uid gid → IfOk result (λ reply. reply ≢ Reply.Ok → H.state h.new ≡ H.state h.old) }
    ensures uncut { IfOk result (λ reply. reply ≢ Reply.Cut) }
    ensures rest { H.tells → KeepsRest (H.state h.old) (H.state h.new) }
    ensures rested { H.tells → fault_of result ≡ Option.Some HostFault.Cut → IsRested (H.state h.new).now.words }
    ensures cause { H.counts h.new ≡ after_fault (fault_of result) (H.counts h.old) }
{
    match get_file(alloc, h, file) {
        Ok(Some(bytes)) => place_bytes(h, frames, bytes.as_slice(), name, uid, gid, mode),
        Ok(None) => Ok(Reply::No(Refusal::File)),
        Err(FileFault::Memory) => Ok(Reply::No(Refusal::Memory)),
        Err(FileFault::Host(fault)) => Err(fault),
    }
}

/// The owner as which the client acts, if it may make a pool of this name. Otherwise why not: `Client`, the client is
/// not present; `Exists`, a pool has the name.
fn find_maker<H: Host>(
    h: &mut H,
    client: u32,
    name: Name,
) -> Result<Result<Owner, Refusal>, HostFault>
    requires known { client < CLIENTS }
    requires room { PUDDLE_TABLE ≤ (H.counts h.old).size }
    ensures maker { H.tells → (size : ℕ) → (w : World) → (memory : Memory) → IsReady size w memory (H.state h.old)
        → IfOk result (λ found. IfOk found (λ who. MayMakeNamed w client name who.uid who.gid)) }
    ensures refused { H.tells → (size : ℕ) → (w : World) → (memory : Memory) → IsReady size w memory (H.state h.old)
        → IfOk result (λ found. (refusal : Refusal) → found ≡ Result.Err refusal → (file : List ℕ) → (mode : ℕ) → refusal_of w (Import client name file mode) ≡ Option.Some refusal) }
    ensures only_reads { OnlyReads H.tells H.state H.counts (fault_of result) h.old h.new }
{
    let Some(who) = owner(h, client)? else {
        return Ok(Err(Refusal::Client));
    };
    let there = find(h, name)?;
    if there.is_some() {
        return Ok(Err(Refusal::Exists));
    }
    Ok(Ok(who))
}

/// Makes the pool of this name with this mode, for the client, 0 to 7, from what the export file `file` on the shelf
/// stores, or refuses to. The client owns the pool. A refusal changes nothing. The whole file is read before any device
/// step. `frames` is the device's number of frames.
///
/// The reply is `Ok`, or the first of these refusals that holds:
/// - `Client`: the client is not present.
/// - `Exists`: a pool has the name.
/// - `File`: the shelf has no such file.
/// - `Memory`: an allocation fails.
/// - `BadFile`: it is no export file.
/// - `Clash`: one of its types is defined with another map.
/// - `Full`: a table has no room for it, or too few UUID numbers are left.
/// - `Space`: too few frames are free.
// Not inlined: its buffers would lie on the stack of every line.
#[inline(never)]
pub fn import<H: Host>(
    alloc: Global,
    h: &mut H,
    frames: u32,
    client: u32,
    name: Name,
    file: Name,
    mode: u32,
) -> Result<Reply, HostFault>
    requires known { client < CLIENTS }
    requires few { frames ≤ MAX_FRAMES }
    requires room { device_words frames ≤ (H.counts h.old).size }
    requires name { IsTrue (is_legal_name file) }
    ensures carries { H.tells → ForReady (H.counts h.old).size frames (H.state h.old) (λ size w memory.
        IsLegalCommand (Import client name file mode)
        → CarriesOutImport size w memory client name file mode result (H.counts h.old) (H.counts h.new) (H.state h.old) (H.state h.new)) }
    ensures unchanged { H.tells → (size : ℕ) → (w : World) → (memory : Memory) → memory.frames ≡ frames → IsReady size w memory (H.state h.old)
        → IfOk result (λ reply. reply ≢ Reply.Ok → H.state h.new ≡ H.state h.old) }
    ensures uncut { IfOk result (λ reply. reply ≢ Reply.Cut) }
    ensures rest { H.tells → KeepsRest (H.state h.old) (H.state h.new) }
    ensures rested { H.tells → fault_of result ≡ Option.Some HostFault.Cut → IsRested (H.state h.new).now.words }
    ensures cause { H.counts h.new ≡ after_fault (fault_of result) (H.counts h.old) }
{
    let who = match find_maker(h, client, name)? {
        Err(refusal) => return Ok(Reply::No(refusal)),
        Ok(who) => who,
    };
    place_file(alloc, h, frames, file, name, who.uid, who.gid, mode)
}
