//! Prints the list of the pools as one line.
#![tactic(auto)]

mod laws;
pub mod text;

ghost use Rattle.std.specs.Prelude.{◌≡◌, ◌≢◌, ◌≤◌, ◌++◌, Option, All, codes, slice_index};
ghost use Rattle.pm_model.specs.Words.{reads};
ghost use Rattle.pm_model.specs.Counts.{after_fault, fault_of};
ghost use Rattle.pm_model.specs.Calls.{Says};
ghost use Rattle.pud_defs.specs.declared.layout.TheConstants.{MAX_FRAMES, MACHINE_WORD};
ghost use Rattle.pud_defs.specs.Formats.Image.{Image};
ghost use Rattle.pud_defs.specs.Formats.Layout.{tables_end};
ghost use Rattle.pud_defs.specs.RegistryTables.Tables.{tables_of};
ghost use Rattle.pud_defs.specs.Output.Texts.{line_of};
ghost use Rattle.pool_table.specs.InOrder.{IsInSlot};
ghost use Rattle.pool_list.specs.Listed.{record_text, records_text, listed_text};

pub use laws::sound_tables_list_their_pools;
use pm_model::{Host, HostFault};
use pool_table::in_order;
use pud_defs::layout::MACHINE_WORD;
use pud_defs::records::{POOL_RECORDS, PoolRecord};
use puddle_table::count_by_pool;
use text::pool_text;

/// Prints the pool of this record, with so many puddles.
fn say_pool<H: Host>(h: &mut H, id: u64, rec: &PoolRecord, puddles: u32) -> Result<(), HostFault>
    ensures says { H.tells → Says (record_text id rec.now puddles) (fault_of result) (H.state h.old) (H.state h.new) }
    ensures cause { H.counts h.new ≡ after_fault (fault_of result) (H.counts h.old) }
    ensures never_cut { fault_of result ≢ Option.Some HostFault.Cut }
{
    let text = pool_text(id, rec, puddles);
    h.say(text.as_slice())
}

/// Prints the pools of these records in order. Each record comes with its slot.
fn say_each<H: Host>(
    h: &mut H,
    id: u64,
    records: &[(u32, PoolRecord)],
    counts: &[u32; POOL_RECORDS as usize],
) -> Result<(), HostFault>
    requires { All IsInSlot records.now }
    ensures says { H.tells
        → Says (records_text id (slice_index counts.now) records.now) (fault_of result) (H.state h.old) (H.state h.new) }
    ensures cause { H.counts h.new ≡ after_fault (fault_of result) (H.counts h.old) }
    ensures never_cut { fault_of result ≢ Option.Some HostFault.Cut }
{
    for (slot, rec) in records {
        say_pool(h, id, rec, counts[*slot as usize])?;
    }
    Ok(())
}

/// Prints the line of the pools of these records. Each record comes with its slot.
fn say_list<H: Host>(
    h: &mut H,
    id: u64,
    records: &[(u32, PoolRecord)],
    counts: &[u32; POOL_RECORDS as usize],
) -> Result<(), HostFault>
    requires { All IsInSlot records.now }
    ensures says { H.tells
        → Says (line_of (codes "ok" ++ records_text id (slice_index counts.now) records.now)) (fault_of result) (H.state h.old) (H.state h.new) }
    ensures cause { H.counts h.new ≡ after_fault (fault_of result) (H.counts h.old) }
    ensures never_cut { fault_of result ≢ Option.Some HostFault.Cut }
{
    h.say(b"ok")?;
    say_each(h, id, records, counts)?;
    h.say(b"\n")
}

/// Prints one line: `ok`, and then ` name:uid:gid:mode:puddles:identifier` for each used pool record, by ascending
/// names. The number of puddles is that of the used puddle records that name the pool. If several pool records have one
/// name, that in the lowest slot counts.
///
/// The device has the tables of `frames` frames, at most 1,024, whatever they store. The call writes nothing to the
/// device and allocates no memory. The only errors are the host's own. A prefix of the line may then be printed.
pub fn say_pools<H: Host>(h: &mut H, frames: u32) -> Result<(), HostFault>
    requires few { frames ≤ MAX_FRAMES }
    requires table { tables_end frames ≤ (H.counts h.old).size }
    ensures says { H.tells → (image : Image) → reads (H.state h.old).now.words ≡ image
        → Says (line_of (codes "ok" ++ listed_text (image MACHINE_WORD) (tables_of frames image))) (fault_of result) (H.state h.old) (H.state h.new) }
    ensures cause { H.counts h.new ≡ after_fault (fault_of result) (H.counts h.old) }
    ensures never_cut { fault_of result ≢ Option.Some HostFault.Cut }
{
    let records = in_order(h)?;
    let counts = count_by_pool(h, frames)?;
    let id = h.load(MACHINE_WORD)?;
    say_list(h, id, records.as_slice(), &counts)
}
