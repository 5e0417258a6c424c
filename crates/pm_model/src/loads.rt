//! The part of a host that only reads: words that can be loaded.
ghost use Rattle.std.specs.Prelude.{◌≡◌, ◌<◌, IfOk};
ghost use Rattle.pm_model.specs.Moments.{State};
ghost use Rattle.pm_model.specs.Counts.{Counts, fault_of};
ghost use Rattle.pm_model.specs.Reads.{OnlyReads};

use crate::{Host, HostFault};

/// Words that can be read and not written: those of a host, or of anything else that answers like its device.
///
/// Code that only reads is written for this trait. So the same code judges a device and words that are kept elsewhere.
pub trait Loads {
    /// Whether it tells the contents of its words.
    ghost tells: { Type 0 };

    /// What it tells, in the form in which a host tells it.
    ghost state: { Self → State };

    /// Its size in words, and its counts of faults.
    ghost counts: { Self → Counts };

    /// Returns the newest value of word `w`, which is below the size. It is never cut.
    fn load_word(&mut self, w: u32) -> Result<u64, HostFault>
        requires { w < (counts self.old).size }
        ensures value { tells → IfOk result (λ v. v ≡ ((state self.old).now.words w).newest) }
        ensures only_reads { OnlyReads tells state counts (fault_of result) self.old self.new };
}

impl<H: Host> Loads for H {
    ghost tells = { H.Host.tells };

    ghost state = { H.Host.state };

    ghost counts = { H.Host.counts };

    fn load_word(&mut self, w: u32) -> Result<u64, HostFault> {
        self.load(w)
    }
}
