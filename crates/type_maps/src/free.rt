//! Free records of the type table.

ghost use Rattle.std.specs.Prelude.{◌≡◌, ◌<◌, ◌≤◌, All, length, take, IfOk, IfSome, IfNone};
ghost use Rattle.pm_model.specs.Words.{reads};
ghost use Rattle.pm_model.specs.Counts.{fault_of};
ghost use Rattle.pm_model.specs.Reads.{OnlyReads};
ghost use Rattle.pud_defs.specs.declared.layout.TheConstants.{POOL_TABLE};
ghost use Rattle.pud_defs.specs.Formats.Image.{Image};
ghost use Rattle.type_maps.specs.FreeRecords.{free_records};

use arrayvec::ArrayVec;
use pm_model::{HostFault, Loads};
use pud_defs::layout::{TYPE_RECORDS, type_record_at};

/// Records of the table by their numbers, at most the 64 of the table.
pub type FreeRecords = ArrayVec<u32, 64>;

/// Returns the lowest `count` free records of the table in ascending order, or None exactly if fewer are free.
///
/// The device has the whole type table. The only errors are the host's own. The call takes one load for each record.
pub fn free_records<H: Loads>(h: &mut H, count: u32) -> Result<Option<FreeRecords>, HostFault>
    requires { POOL_TABLE ≤ (H.counts h.old).size }
    ensures records { H.tells → (image : Image) → reads (H.state h.old).now.words ≡ image
        → IfOk result (λ found. IfSome found (λ records. records.items ≡ take count (free_records image))) }
    ensures none { H.tells → (image : Image) → reads (H.state h.old).now.words ≡ image
        → IfOk result (λ found. IfNone found (length (free_records image) < count)) }
    ensures count { IfOk result (λ found. IfSome found (λ records. length records.items ≡ count)) }
    ensures within { IfOk result (λ found. IfSome found (λ records. All (λ n. n < TYPE_RECORDS) records.items)) }
    ensures only_reads { OnlyReads H.tells H.state H.counts (fault_of result) h.old h.new }
{
    let mut free = ArrayVec::new();
    for record in 0..TYPE_RECORDS {
        let used_by = h.load_word(type_record_at(record))?;
        if used_by == 0 && (free.len() as u32) < count {
            free.push(record);
        }
    }
    if (free.len() as u32) < count {
        return Ok(None);
    }
    Ok(Some(free))
}
