//! Whether no two pools have the same name once the daemon log is replayed.
ghost use Rattle.std.specs.Prelude.{◌≡◌, ◌≤◌, ℕ, IfOk};
ghost use Rattle.std.specs.List.{list_any};
ghost use Rattle.pm_model.specs.Words.{reads};
ghost use Rattle.pm_model.specs.Counts.{fault_of};
ghost use Rattle.pm_model.specs.Reads.{OnlyReads};
ghost use Rattle.pud_defs.specs.declared.layout.TheConstants.{DAEMON_LOG, SPACE_TABLE};
ghost use Rattle.pud_defs.specs.Formats.Image.{Image};
ghost use Rattle.pud_defs.specs.Logging.Replay.{settled_by};
ghost use Rattle.pud_defs.specs.RegistryTables.Tables.{tables_of};
ghost use Rattle.pud_defs.specs.RegistryTables.SoundTables.{has_distinct_names};
ghost use Rattle.soundness.specs.Overlaying.{IsOverlay};
ghost use Rattle.soundness.specs.Named.{is_same_name, are_apart, HoldsNames};

use crate::overlay::Overlay;
use pm_model::{Host, HostFault};
use pud_defs::layout::pool_record_at;
use pud_defs::records::POOL_RECORDS;

/// The two words of a pool record that spell its name. If the first is 0, the record is free.
#[derive(Clone, Copy)]
struct NameWords {
    low: u64,
    high: u64,
}

/// Whether the name is one of these.
fn contains(names: &[NameWords], name: NameWords) -> bool
    ensures { result ≡ list_any (is_same_name name) names.now }
{
    match names {
        [] => false,
        [first, rest @ ..] => {
            let same = first.low == name.low && first.high == name.high;
            same || contains(rest, name)
        }
    }
}

/// Whether no two used records have the same name.
fn are_apart(names: &[NameWords]) -> bool
    ensures { result ≡ are_apart names.now }
{
    match names {
        [] => true,
        [first, rest @ ..] => {
            let apart = first.low == 0 || !contains(rest, *first);
            apart && are_apart(rest)
        }
    }
}

/// The names of all pool records, by their slots.
fn read_names<H: Host>(
    h: &mut H,
    overlay: &Overlay,
) -> Result<[NameWords; POOL_RECORDS as usize], HostFault>
    requires { SPACE_TABLE ≤ (H.counts h.old).size }
    ensures names { H.tells → (image : Image) → reads (H.state h.old).now.words ≡ image → IsOverlay overlay.now image
        → IfOk result (λ names. HoldsNames (settled_by DAEMON_LOG image) names) }
    ensures only_reads { OnlyReads H.tells H.state H.counts (fault_of result) h.old h.new }
{
    let mut names = [NameWords { low: 0, high: 0 }; POOL_RECORDS as usize];
    for slot in 0..POOL_RECORDS {
        let at = pool_record_at(slot);
        let low = overlay.word(h, at)?;
        let high = overlay.word(h, at + 1)?;
        names[slot as usize] = NameWords { low, high };
    }
    Ok(names)
}

/// Whether no two used pool records have the same name.
pub fn has_distinct_names<H: Host>(h: &mut H, overlay: &Overlay) -> Result<bool, HostFault>
    requires { SPACE_TABLE ≤ (H.counts h.old).size }
    ensures distinct { H.tells → (image : Image) → reads (H.state h.old).now.words ≡ image → IsOverlay overlay.now image
        → (F : ℕ) → IfOk result (λ distinct. distinct ≡ has_distinct_names (tables_of F (settled_by DAEMON_LOG image))) }
    ensures only_reads { OnlyReads H.tells H.state H.counts (fault_of result) h.old h.new }
{
    let names = read_names(h, overlay)?;
    Ok(are_apart(&names))
}
