//! The counts that every host keeps.
ghost use Rattle.std.specs.Prelude.{◌≡◌};
ghost use Rattle.pm_model.specs.Counts.{risen};

use crate::HostFault;

/// How often calls failed and were cut, how often a cut was armed and power was lost at once, and the numbers of the
/// last arm and of the last loss. A count that reaches 2^64 - 1 stays there.
#[derive(Clone, Copy, Debug)]
pub struct Tally {
    pub faults: u64,
    pub cuts: u64,
    pub arms: u64,
    pub arm_steps: u32,
    pub arm_pick: u64,
    pub losses: u64,
    pub loss_pick: u64,
}

impl Tally {
    /// A tally that has counted nothing yet.
    pub fn new() -> Tally
        ensures { result ≡ record { faults = 0; cuts = 0; arms = 0; arm_steps = 0; arm_pick = 0; losses = 0; loss_pick = 0 } }
    {
        Tally {
            faults: 0,
            cuts: 0,
            arms: 0,
            arm_steps: 0,
            arm_pick: 0,
            losses: 0,
            loss_pick: 0,
        }
    }

    /// Counts a fault and returns it.
    pub fn fault(&mut self) -> HostFault
        ensures is { result ≡ HostFault.Failed }
        ensures counted { self.new ≡ record self.old { faults = risen self.old.faults } }
    {
        rise(&mut self.faults);
        HostFault::Failed
    }

    /// Counts a cut and returns it.
    pub fn cut(&mut self) -> HostFault
        ensures is { result ≡ HostFault.Cut }
        ensures counted { self.new ≡ record self.old { cuts = risen self.old.cuts } }
    {
        rise(&mut self.cuts);
        HostFault::Cut
    }

    /// Counts an arm, and keeps its steps and its pick.
    pub fn arm(&mut self, steps: u32, pick: u64)
        ensures { self.new ≡ record self.old { arms = risen self.old.arms; arm_steps = steps; arm_pick = pick } }
    {
        rise(&mut self.arms);
        self.arm_steps = steps;
        self.arm_pick = pick;
    }

    /// Counts a power loss at once, and keeps its pick.
    pub fn loss(&mut self, pick: u64)
        ensures { self.new ≡ record self.old { losses = risen self.old.losses; loss_pick = pick } }
    {
        rise(&mut self.losses);
        self.loss_pick = pick;
    }
}

// Adds one to a count, unless the count is 2^64 - 1.
fn rise(count: &mut u64)
    ensures { count.new ≡ risen count.old }
{
    if *count < u64::MAX {
        *count += 1;
    }
}
