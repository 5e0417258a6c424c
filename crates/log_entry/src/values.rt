//! The read of as many words as one entry can have values.

ghost use Rattle.std.specs.Prelude.{◌≡◌, ◌+◌, ◌≤◌, IfOk, length, take};
ghost use Rattle.pm_model.specs.Words.{reads};
ghost use Rattle.pm_model.specs.Counts.{fault_of};
ghost use Rattle.pm_model.specs.Reads.{OnlyReads};
ghost use Rattle.pud_defs.specs.Logging.Entries.{words_from};

use pm_model::{Host, HostFault};
use pud_defs::layout::MAX_ENTRY_VALUES;

/// Reads the `n` words from word `from` on. `n` is at most 32, as many as an entry can have values. The words are at
/// the start of the array that is returned.
///
/// The words must lie within the device. The only errors are the host's own.
pub fn read_values<H: Host>(
    h: &mut H,
    from: u32,
    n: u32,
) -> Result<[u64; MAX_ENTRY_VALUES as usize], HostFault>
    requires few { n ≤ MAX_ENTRY_VALUES }
    requires within { from + n ≤ (H.counts h.old).size }
    ensures taken { H.tells → IfOk result (λ values. take n values ≡ words_from (reads (H.state h.old).now.words) from n) }
    ensures room { IfOk result (λ values. length values ≡ MAX_ENTRY_VALUES) }
    ensures only_reads { OnlyReads H.tells H.state H.counts (fault_of result) h.old h.new }
{
    let words = h.words();
    prove!(n <= words - from);
    let mut values = [0u64; MAX_ENTRY_VALUES as usize];
    for i in 0..n {
        values[i as usize] = h.load(from + i)?;
    }
    Ok(values)
}
