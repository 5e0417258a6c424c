//! The line that defines a type.
ghost use Rattle.std.specs.Prelude.{◌≡◌, ◌≢◌, ◌≤◌, ℕ, true, IfOk, Option};
ghost use Rattle.pm_model.specs.Words.{IsRested};
ghost use Rattle.pm_model.specs.Counts.{after_fault, fault_of};
ghost use Rattle.pud_defs.specs.declared.layout.TheConstants.{POOL_TABLE};
ghost use Rattle.pud_defs.specs.Formats.TypeMap.{is_legal_type_id, is_legal_map};
ghost use Rattle.pud_defs.specs.StateMachine.World.{World};
ghost use Rattle.pud_defs.specs.StateMachine.Step.{answer_by, world_by};
ghost use Rattle.pud_defs.specs.StateMachine.Step.Answer.{of_reply};
ghost use Rattle.pud_defs.specs.declared.machine.Command.TheVariants.{Define};
ghost use Rattle.daemon_memory.specs.Memory.{Memory};
ghost use Rattle.daemon_memory.specs.Defined.{reply_of_definition};
ghost use Rattle.daemon_memory.specs.Ready.{KeepsRest, IsReady, Applies};
ghost use Rattle.daemon_memory.specs.LineAnswers.{as_line_answer};
ghost use Rattle.puddled.specs.Acts.{ActsAs};

use pm_model::{Host, HostFault};
use pud_defs::machine::{Refusal, Reply};
use type_maps::{TypeFault, define};

/// The reply to a definition, by what became of it.
fn reply_of_definition(done: Result<(), TypeFault>) -> Result<Reply, HostFault>
    ensures { result ≡ reply_of_definition done }
{
    match done {
        Ok(()) => Ok(Reply::Ok),
        Err(TypeFault::Clash) => Ok(Reply::No(Refusal::Clash)),
        Err(TypeFault::Full) => Ok(Reply::No(Refusal::Full)),
        Err(TypeFault::Host(fault)) => Err(fault),
    }
}

/// Defines a type, or refuses to. A refusal changes nothing.
///
/// The reply is `Ok`, `Clash` if the type is defined with another map, or `Full` if it is not defined and no record is
/// free.
// Not inlined: its buffers would lie on the stack of every line.
#[inline(never)]
pub(crate) fn define_type<H: Host>(h: &mut H, id: u32, map: u64) -> Result<Reply, HostFault>
    requires { POOL_TABLE ≤ (H.counts h.old).size }
    ensures reply { H.tells → (size : ℕ) → size ≡ (H.counts h.old).size → (w : World) → (memory : Memory) → IsReady size w memory (H.state h.old)
        → IfOk result (λ reply. of_reply reply ≡ answer_by w (Option.Some (Define id map))) }
    ensures applies { H.tells → (size : ℕ) → size ≡ (H.counts h.old).size → (w : World) → (memory : Memory) → IsReady size w memory (H.state h.old)
        → is_legal_type_id id ≡ true → is_legal_map map ≡ true
        → Applies size w (world_by w (Option.Some (Define id map))) memory (fault_of result) (H.state h.old) (H.state h.new) }
    ensures acts { H.tells → (size : ℕ) → size ≡ (H.counts h.old).size → (w : World) → (memory : Memory) → IsReady size w memory (H.state h.old)
        → ActsAs w (Option.Some (Define id map)) (as_line_answer result) (H.state h.old) (H.state h.new) }
    ensures uncut { IfOk result (λ reply. reply ≢ Reply.Cut) }
    ensures rest { H.tells → KeepsRest (H.state h.old) (H.state h.new) }
    ensures rested { H.tells → fault_of result ≡ Option.Some HostFault.Cut → IsRested (H.state h.new).now.words }
    ensures cause { H.counts h.new ≡ after_fault (fault_of result) (H.counts h.old) }
{
    reply_of_definition(define(h, id, map))
}
