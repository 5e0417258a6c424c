//! The laws. Each function here does nothing; its contract is the law.

ghost use Rattle.std.specs.Prelude.{List, map};
ghost use Rattle.pud_defs.specs.StateMachine.World.{World};
ghost use Rattle.pud_defs.specs.StateMachine.Run.{Turn, IsTurn, IsRun};
ghost use Rattle.independence.specs.Independence.{LeavesOthers, AreIndependent, IsPoolByItself};

/// A line names a pool outside a set, defines no type, and is not cut off by a power loss. Then it changes no pool of
/// the set (UUID numbers aside), and no transaction that is open on such a pool.
pub fn line_leaves_other_pools()
    ensures { (w : World) (t : Turn) → IsTurn w t → LeavesOthers w t }
{}

/// A run over all lines and each run over a set's own lines answer the lines that name a pool of the set the same, and
/// leave the same pools of the set. In neither run may an own line of the set meet a shared limit. The other lines must
/// not be cut off by a power loss, define a type, or change a file that the set imports.
pub fn pools_are_independent()
    ensures { (w : World) (turns : List Turn) → IsRun w turns → AreIndependent w (map (λ t. t.line) turns) turns }
{}

/// The same for one pool. No line of either run may meet a shared limit. No line of another pool may define a type or
/// write a file that the pool imports.
pub fn pool_is_by_itself()
    ensures { (w : World) (turns : List Turn) → IsRun w turns → IsPoolByItself w (map (λ t. t.line) turns) turns }
{}
