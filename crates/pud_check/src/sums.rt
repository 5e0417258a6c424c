//! Prints how many objects a pool has, and the sum of the numbers in them.

ghost use Rattle.std.specs.Prelude.{◌≡◌, ◌≢◌, ◌≤◌, ℕ, Option, IfOk};
ghost use Rattle.pm_model.specs.Words.{reads};
ghost use Rattle.pm_model.specs.Counts.{after_fault, fault_of};
ghost use Rattle.pm_model.specs.Calls.{Says};
ghost use Rattle.pm_model.specs.Reads.{OnlyReads};
ghost use Rattle.pud_defs.specs.PoolGraphs.Holdings.{holding_in};
ghost use Rattle.pud_defs.specs.Formats.Image.{Image};
ghost use Rattle.pud_defs.specs.Formats.Layout.{device_words};
ghost use Rattle.pud_defs.specs.RegistryTables.Registry.{frames_of};
ghost use Rattle.pud_defs.specs.RegistryTables.SoundTables.{HasSoundTables};
ghost use Rattle.pud_defs.specs.PoolGraphs.Stored.{IsOnDevice};
ghost use Rattle.pud_defs.specs.RegistryTables.Tables.{tables_of};
ghost use Rattle.pud_defs.specs.RegistryTables.Types.{types_of};
ghost use Rattle.pud_defs.specs.StateMachine.World.{stored_by};
ghost use Rattle.pud_check.specs.Summary.{summed, sum_line, summary_text};
ghost use Rattle.pud_check.specs.SummaryListed.{listed_summed, listed_sum, listed_summary};

use crate::text::{refused_line, summed_line};
use graph_read::pool_totals;
use pm_model::{Host, HostFault};
use pool_table::find;
use pud_defs::layout::MAX_FRAMES;
use pud_defs::records::{Name, Puddle};
use puddle_table::find_puddles;

/// The pool that a generated run makes.
const GEN_POOL: Name = *b"gen\0\0\0\0\0\0\0\0\0\0\0\0\0";

/// The pool that a generated run imports.
const COPY_POOL: Name = *b"copy\0\0\0\0\0\0\0\0\0\0\0\0";

/// What a pool holds, summed up.
#[derive(Clone, Copy)]
pub(crate) enum Summed {
    /// No pool has the name.
    Absent,
    /// Its puddles store no graph.
    Wild,
    /// Its graph has so many objects, and this is the sum of their number fields, modulo 2^64.
    Objects(u32, u64),
}

/// Sums up what the puddles of a pool hold. Each serial and each field is read once.
fn sum_up<H: Host>(h: &mut H, frames: u32, pool: &[(u32, Puddle)]) -> Result<Summed, HostFault>
    requires few { frames ≤ MAX_FRAMES }
    requires room { device_words frames ≤ (H.counts h.old).size }
    requires known { IsOnDevice frames pool.now }
    ensures summed { H.tells → (image : Image) → reads (H.state h.old).now.words ≡ image
        → IfOk result (λ what. what ≡ summed (Option.Some (holding_in (types_of image) frames image pool.now))) }
    ensures only_reads { OnlyReads H.tells H.state H.counts (fault_of result) h.old h.new }
{
    match pool_totals(h, frames, pool)? {
        None => Ok(Summed::Wild),
        Some(totals) => Ok(Summed::Objects(totals.objects, totals.sum)),
    }
}

/// Sums up the pool of this name.
fn sum_named<H: Host>(h: &mut H, frames: u32, name: &Name) -> Result<Summed, HostFault>
    requires few { frames ≤ MAX_FRAMES }
    requires room { device_words frames ≤ (H.counts h.old).size }
    ensures summed { H.tells → (image : Image) → reads (H.state h.old).now.words ≡ image
        → IfOk result (λ what. what ≡ listed_summed frames image name.now) }
    ensures only_reads { OnlyReads H.tells H.state H.counts (fault_of result) h.old h.new }
{
    match find(h, *name)? {
        None => Ok(Summed::Absent),
        Some((slot, _)) => {
            let puddles = find_puddles(h, frames, slot)?;
            sum_up(h, frames, puddles.as_slice())
        }
    }
}

/// Prints what the pool of this name holds. It prints `NAME objects O sum V` with the sum of all number fields of its
/// objects, modulo 2^64, `NAME wild` if its puddles store no graph, or `NAME absent` if there is no such pool.
///
/// If several pool records have one name, that in the lowest slot counts. The puddles of a pool are those of the
/// ordinals from 0 up to the first that no record has. If the tables are sound, these are all its puddles.
///
/// The device has the words that `frames` frames need, at most 1,024, whatever they store. The call writes nothing to
/// the device and allocates no memory. The only errors are the host's own. A prefix of the line may then be printed.
pub fn say_sum<H: Host>(h: &mut H, frames: u32, name: &Name) -> Result<(), HostFault>
    requires few { frames ≤ MAX_FRAMES }
    requires room { device_words frames ≤ (H.counts h.old).size }
    ensures says { H.tells → (image : Image) → reads (H.state h.old).now.words ≡ image
        → Says (listed_sum frames image name.now) (fault_of result) (H.state h.old) (H.state h.new) }
    ensures sound { H.tells → (image : Image) → reads (H.state h.old).now.words ≡ image → (next : ℕ) → HasSoundTables next (tables_of frames image)
        → frames ≡ frames_of image → Says (sum_line name.now (stored_by image)) (fault_of result) (H.state h.old) (H.state h.new) }
    ensures cause { H.counts h.new ≡ after_fault (fault_of result) (H.counts h.old) }
    ensures never_cut { fault_of result ≢ Option.Some HostFault.Cut }
{
    let summed = sum_named(h, frames, name)?;
    h.say(summed_line(name, summed).as_slice())
}

/// Prints the summary of a generated run of `lines` lines, of which `refused` were refused: `lines L refused R`, and
/// then what `say_sum` prints for the pools `gen` and `copy`.
///
/// The device has the words that `frames` frames need, at most 1,024, whatever they store. The call writes nothing to
/// the device and allocates no memory. The only errors are the host's own. A prefix of the text may then be printed.
pub fn say_summary<H: Host>(
    h: &mut H,
    frames: u32,
    lines: u32,
    refused: u32,
) -> Result<(), HostFault>
    requires few { frames ≤ MAX_FRAMES }
    requires room { device_words frames ≤ (H.counts h.old).size }
    ensures says { H.tells → (image : Image) → reads (H.state h.old).now.words ≡ image
        → Says (listed_summary frames image lines refused) (fault_of result) (H.state h.old) (H.state h.new) }
    ensures sound { H.tells → (image : Image) → reads (H.state h.old).now.words ≡ image → (next : ℕ) → HasSoundTables next (tables_of frames image)
        → frames ≡ frames_of image → Says (summary_text lines refused (stored_by image)) (fault_of result) (H.state h.old) (H.state h.new) }
    ensures cause { H.counts h.new ≡ after_fault (fault_of result) (H.counts h.old) }
    ensures never_cut { fault_of result ≢ Option.Some HostFault.Cut }
{
    h.say(refused_line(lines, refused).as_slice())?;
    say_sum(h, frames, &GEN_POOL)?;
    say_sum(h, frames, &COPY_POOL)
}
