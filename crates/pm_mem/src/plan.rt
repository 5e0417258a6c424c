//! Which calls of a host in memory fail, and which of its device steps are cut.
ghost use Rattle.std.specs.Prelude.{◌≡◌, []};

use std::alloc::Global;

/// Which calls fail, and at which device steps power is lost.
#[derive(Debug, Drop)]
pub struct Plan {
    /// The calls that fail, counted from 1 over all calls that may answer `Failed`. The count of calls stops at
    /// 2^32 - 1, so an entry 2^32 - 1 has no effect.
    pub fails: Vec<u32>,
    /// The device steps that are cut, counted from 1, each with its pick. If a step is listed twice, the first
    /// entry counts.
    pub cuts: Vec<(u32, u64)>,
}

impl Plan {
    /// The plan that lists nothing. It allocates nothing.
    pub fn none(alloc: Global) -> Plan
        ensures fails { result.fails.items ≡ [] }
        ensures cuts { result.cuts.items ≡ [] }
    {
        Plan {
            fails: Vec::new(alloc),
            cuts: Vec::new(alloc),
        }
    }
}
