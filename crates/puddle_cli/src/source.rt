//! Where the lines of a run come from: the host's script, or a generator.
ghost use Rattle.std.specs.Prelude.{◌≡◌, ◌≢◌, false, IfOk, OnErr, Option};
ghost use Rattle.pm_model.specs.Counts.{after_fault, fault_of};
ghost use Rattle.puddle_cli.specs.Source.{is_aloud, bytes_left, TakesNext};

use crate::generated::GeneratedBytes;
use pm_model::{Host, HostFault};

/// Where the lines of a run come from.
#[derive(Drop)]
pub enum Source {
    /// The host's script. The replies are printed.
    Script,
    /// Generated lines. The replies are not printed.
    Generated(GeneratedBytes),
}

impl Source {
    /// Whether the replies to the lines are printed.
    pub fn is_aloud(&self) -> bool
        ensures { result ≡ is_aloud self.now }
    {
        match self {
            Source::Script => true,
            Source::Generated(_) => false,
        }
    }

    /// Takes the next byte. Returns None if no byte is left.
    ///
    /// # Errors
    ///
    /// The host failed to read its script. No byte was taken then.
    pub fn next<H: Host>(&mut self, h: &mut H) -> Result<Option<u8>, HostFault>
        ensures aloud { is_aloud self.new ≡ is_aloud self.old }
        ensures taken { H.tells → IfOk result (λ byte. TakesNext byte (bytes_left self.old (H.state h.old)) (bytes_left self.new (H.state h.new)) (H.state h.old) (H.state h.new)) }
        ensures failed { H.tells → OnErr result ((H.state h.new ≡ H.state h.old) × (self.new ≡ self.old)) }
        ensures unread { H.tells → is_aloud self.old ≡ false → H.state h.new ≡ H.state h.old }
        ensures cause { H.counts h.new ≡ after_fault (fault_of result) (H.counts h.old) }
        ensures never_cut { fault_of result ≢ Option.Some HostFault.Cut }
    {
        match self {
            Source::Script => h.read(),
            Source::Generated(bytes) => Ok(bytes.next()),
        }
    }
}
