//! The words of a device as the replay of its daemon log would make them. Nothing is replayed: for each word that is
//! read, the entries of a copy of the log are read.
ghost use Rattle.std.specs.Prelude.{◌≡◌, ◌+◌, ◌<◌, ◌≤◌, ◌==◌, false, cond, List, Option, IfOk, ◌&&◌, nat_lt, nat_le};
ghost use Rattle.std.specs.Option.{option_or};
ghost use Rattle.pm_model.specs.Words.{reads};
ghost use Rattle.pm_model.specs.Counts.{fault_of};
ghost use Rattle.pm_model.specs.Reads.{OnlyReads};
ghost use Rattle.pud_defs.specs.declared.layout.TheConstants.{DAEMON_LOG, LOG_WORDS};
ghost use Rattle.pud_defs.specs.declared.log_words.TheConstants.{UNDO_ORDER, REDO_ORDER};
ghost use Rattle.pud_defs.specs.Formats.Image.{Image};
ghost use Rattle.pud_defs.specs.Logging.Entries.{Entry as LoggedEntry, log_of};
ghost use Rattle.pud_defs.specs.Logging.Replay.{is_in_log, settled_by};
ghost use Rattle.log_entry.specs.Reading.{entry_from};
ghost use Rattle.log_entry.specs.Copying.{image_of_copy, log_copied, IsOfCopy};
ghost use Rattle.soundness.specs.Overlaying.{IsOverlay, GivesWordMore, GivesWord};

use log_entry::{CopyReader, Entry, LogCopy};
use pm_model::{Host, HostFault};
use pud_defs::layout::DAEMON_LOG;
use pud_defs::log_words::{REDO_ORDER, UNDO_ORDER};

/// What entries give to a word. Of the undo entries that name it the oldest decides, and of the redo entries the
/// newest.
#[derive(Clone, Copy)]
struct Given {
    undo: Option<u64>,
    redo: Option<u64>,
}

impl Given {
    /// The same with one more value after the others, from an entry of this order.
    fn with(self, order: u32, value: u64) -> Given
        ensures undo { result.undo ≡ option_or self.undo (cond (order == UNDO_ORDER) (Option.Some value) Option.None) }
        ensures redo { result.redo ≡ option_or (cond (order == REDO_ORDER) (Option.Some value) Option.None) self.redo }
    {
        if order == UNDO_ORDER {
            return Given {
                undo: self.undo.or(Some(value)),
                redo: self.redo,
            };
        }
        if order == REDO_ORDER {
            return Given {
                undo: self.undo,
                redo: Some(value),
            };
        }
        self
    }
}

/// The words of a device, seen through its daemon log.
#[derive(Drop)]
pub struct Overlay {
    /// A copy of the daemon log.
    pub log: LogCopy,
}

impl Overlay {
    /// The overlay of the daemon log as it is now. The gate is loaded once, and so is each entry word that it counts.
    pub fn of<H: Host>(h: &mut H) -> Result<Overlay, HostFault>
        requires { DAEMON_LOG + LOG_WORDS ≤ (H.counts h.old).size }
        ensures log { H.tells → (image : Image) → reads (H.state h.old).now.words ≡ image → IfOk result (λ overlay. log_copied overlay.log ≡ log_of image DAEMON_LOG) }
        ensures only_reads { OnlyReads H.tells H.state H.counts (fault_of result) h.old h.new }
    {
        let mut log = LogCopy::new();
        log.load(h, DAEMON_LOG)?;
        Ok(Overlay { log })
    }

    /// Adds what an entry gives to word `w`.
    fn add(&self, entry: &Entry, w: u32, given: Given) -> Given
        requires { IsOfCopy self.now.log entry.now }
        ensures { GivesWordMore (log_copied self.now.log) (entry_from (image_of_copy self.now.log) entry.now) w given result }
    {
        if !self.log.range().counts(entry) || !names(entry, w) {
            return given;
        }
        let values = self.log.values(entry);
        given.with(entry.order, values[(w - entry.addr as u32) as usize])
    }

    /// What the entries of the daemon log give to word `w`.
    fn given(&self, w: u32) -> Given
        ensures { (es : List LoggedEntry) → (log_copied self.now.log).entries ≡ Option.Some es → GivesWord (log_copied self.now.log) es w result }
    {
        let mut given = Given {
            undo: None,
            redo: None,
        };
        let mut reader = CopyReader::new();
        while let Some(entry) = reader.next(&self.log) {
            given = self.add(&entry, w, given);
        }
        given
    }

    /// The value of word `w` with the daemon log replayed. The word must lie outside that log.
    pub fn word<H: Host>(&self, h: &mut H, w: u32) -> Result<u64, HostFault>
        requires { w < (H.counts h.old).size }
        ensures value { H.tells → (image : Image) → reads (H.state h.old).now.words ≡ image → IsOverlay self.now image → is_in_log DAEMON_LOG w ≡ false
            → IfOk result (λ v. v ≡ settled_by DAEMON_LOG image w) }
        ensures only_reads { OnlyReads H.tells H.state H.counts (fault_of result) h.old h.new }
    {
        let before = h.load(w)?;
        if self.log.range().counts_none() {
            return Ok(before);
        }
        let given = self.given(w);
        Ok(given.redo.or(given.undo).unwrap_or(before))
    }
}

/// Whether an entry names word `w`.
fn names(entry: &Entry, w: u32) -> bool
    ensures { result ≡ (nat_le entry.now.addr w && nat_lt w (entry.now.addr + entry.now.n)) }
{
    let w = u64::from(w);
    entry.addr <= w && w - entry.addr < u64::from(entry.n)
}
