//! Makes words durable: one word, a range of words, or a range of zeroes.
//!
//! Until a call answers `Ok`, each word of its range has an old value or its new one. A power loss may leave any
//! mixture of these. No other word gets a value. To make a range durable costs one store for each word, one flush for
//! each line and one fence.
#![tactic(auto)]

ghost use Rattle.std.specs.Prelude.{◌≡◌, ◌+◌, ◌/◌, ◌<◌, ◌≤◌, length};
ghost use Rattle.pm_model.specs.Counts.{after_fault, fault_of};
ghost use Rattle.pm_model.specs.Changes.{only, placed, Writes, Persists};
ghost use Rattle.pm_persist.specs.Ranges.{zeroed, StoresBelow, FlushesLines};

use pm_model::{Host, HostFault};

/// The line of word `w`. A device has whole lines only, so the line of a word of the device lies in the device too.
fn line_of<H: Host>(h: &H, w: u32) -> u32
    requires { w < (H.counts h.now).size }
    ensures line { result ≡ w / 8 }
    ensures within { result < (H.counts h.now).size / 8 }
{
    // This call tells the proof that the number of words fits in 32 bits, and so does the number of each word.
    let _words = h.words();
    w / 8
}

/// Writes value `v` to word `w` and makes it durable. At `Ok` the word has that value and no other.
///
/// `w` lies in the device. The only errors are the host's own.
pub fn persist_word<H: Host>(h: &mut H, w: u32, v: u64) -> Result<(), HostFault>
    requires { w < (H.counts h.old).size }
    ensures persists { H.tells → Persists (only w v) (fault_of result) (H.state h.old) (H.state h.new) }
    ensures cause { H.counts h.new ≡ after_fault (fault_of result) (H.counts h.old) }
{
    let line = line_of(h, w);
    h.store(w, v)?;
    h.flush(line)?;
    h.fence()
}

/// Marks the newest value of each word of the lines `from` to `to - 1`.
fn flush_lines<H: Host>(h: &mut H, from: u32, to: u32) -> Result<(), HostFault>
    requires { to ≤ (H.counts h.old).size / 8 }
    ensures flushes { H.tells → FlushesLines from to (fault_of result) (H.state h.old) (H.state h.new) }
    ensures cause { H.counts h.new ≡ after_fault (fault_of result) (H.counts h.old) }
{
    for line in from..to {
        h.flush(line)?;
    }
    Ok(())
}

/// Stores the values in turn from word `w` on.
fn store_all<H: Host>(h: &mut H, w: u32, vals: &[u64]) -> Result<(), HostFault>
    requires { w + length vals.now ≤ (H.counts h.old).size }
    ensures stores { H.tells → StoresBelow (placed w vals.now) (w + length vals.now) (fault_of result) (H.state h.old) (H.state h.new) }
    ensures cause { H.counts h.new ≡ after_fault (fault_of result) (H.counts h.old) }
{
    let words = h.words();
    prove!(vals.len() <= (words - w) as usize);
    let mut at = w;
    for value in vals {
        h.store(at, *value)?;
        at += 1;
    }
    Ok(())
}

/// Stores 0 to the words `w` to `w + n - 1`.
fn store_zeroes<H: Host>(h: &mut H, w: u32, n: u32) -> Result<(), HostFault>
    requires { w + n ≤ (H.counts h.old).size }
    ensures stores { H.tells → StoresBelow (zeroed w n) (w + n) (fault_of result) (H.state h.old) (H.state h.new) }
    ensures cause { H.counts h.new ≡ after_fault (fault_of result) (H.counts h.old) }
{
    let words = h.words();
    prove!(n <= words - w);
    for at in w..w + n {
        h.store(at, 0)?;
    }
    Ok(())
}

/// Writes these values in turn to the words from `w` on, and marks them. They are durable after the next fence.
///
/// The range lies in the device. The only errors are the host's own.
pub fn write_range<H: Host>(h: &mut H, w: u32, vals: &[u64]) -> Result<(), HostFault>
    requires { w + length vals.now ≤ (H.counts h.old).size }
    ensures writes { H.tells → Writes (placed w vals.now) (fault_of result) (H.state h.old) (H.state h.new) }
    ensures cause { H.counts h.new ≡ after_fault (fault_of result) (H.counts h.old) }
{
    if vals.is_empty() {
        return Ok(());
    }
    let words = h.words();
    prove!(vals.len() <= (words - w) as usize);
    let last = w + (vals.len() - 1) as u32;
    let from = line_of(h, w);
    let to = line_of(h, last) + 1;
    store_all(h, w, vals)?;
    flush_lines(h, from, to)
}

/// Writes these values in turn to the words from `w` on, and makes them durable.
///
/// The range lies in the device. The only errors are the host's own.
pub fn persist_range<H: Host>(h: &mut H, w: u32, vals: &[u64]) -> Result<(), HostFault>
    requires { w + length vals.now ≤ (H.counts h.old).size }
    ensures persists { H.tells → Persists (placed w vals.now) (fault_of result) (H.state h.old) (H.state h.new) }
    ensures cause { H.counts h.new ≡ after_fault (fault_of result) (H.counts h.old) }
{
    write_range(h, w, vals)?;
    h.fence()
}

/// Writes 0 to the words `w` to `w + n - 1`, and makes them durable.
///
/// The range lies in the device. The only errors are the host's own.
pub fn zero_range<H: Host>(h: &mut H, w: u32, n: u32) -> Result<(), HostFault>
    requires { w + n ≤ (H.counts h.old).size }
    ensures persists { H.tells → Persists (zeroed w n) (fault_of result) (H.state h.old) (H.state h.new) }
    ensures cause { H.counts h.new ≡ after_fault (fault_of result) (H.counts h.old) }
{
    if n == 0 {
        return Ok(());
    }
    let from = line_of(h, w);
    let words = h.words();
    prove!(n <= words - w);
    let to = line_of(h, w + (n - 1)) + 1;
    store_zeroes(h, w, n)?;
    flush_lines(h, from, to)?;
    h.fence()
}
