//! Runs generated lines and prints a summary: the mode `gen`.
ghost use Rattle.std.specs.Prelude.{◌≡◌, ◌≢◌, ◌⊎◌, ◌↔◌, ◌≤◌, ℕ, [], length, Option, Result};
ghost use Rattle.pm_model.specs.Words.{IsRested, reads};
ghost use Rattle.pm_model.specs.Counts.{Rose};
ghost use Rattle.pud_defs.specs.Formats.Layout.{device_words};
ghost use Rattle.pud_defs.specs.Output.StartText.{start_text};
ghost use Rattle.pud_defs.specs.StateMachine.World.{World, no_clients, nothing_open, world_of, closed};
ghost use Rattle.gen_work.specs.GenLines.{gen_lines};
ghost use Rattle.command_line.specs.declared.modes.TheConstants.{MAX_SEED, MAX_OBJECTS};
ghost use Rattle.daemon_memory.specs.Ready.{IsReady};
ghost use Rattle.puddled.specs.Faults.{run_fault, CountsToEnd};
ghost use Rattle.puddle_cli.specs.Status.{status_fault, run_fault_at, IsStatusOfMode, Causes};
ghost use Rattle.puddle_cli.specs.Serving.{KeepsScript, IsUnsoundAfterLoss};
ghost use Rattle.puddle_cli.specs.Generating.{SumsUp, RunsLines, SaysSummary};

use crate::generated::GeneratedBytes;
use crate::run::serve;
use crate::source::Source;
use crate::status::{DONE, NOT_USABLE, TOO_LONG, status_of, status_of_run};
use gen_work::line_count;
use pm_model::Host;
use pud_check::say_summary;
use puddled::{Daemon, RunFault, StartFault};
use std::alloc::Global;

/// Answers the generated lines and prints no reply. Then stops the daemon, also if the run cannot go on. If the run
/// went on to its end, prints the summary.
fn sum_up<H: Host>(
    alloc: Global,
    daemon: Daemon,
    h: &mut H,
    seed: u32,
    count: u32,
) -> Result<(), RunFault>
    requires device { device_words daemon.frames ≤ (H.counts h.old).size }
    requires seed { seed ≤ MAX_SEED }
    requires few { count ≤ MAX_OBJECTS }
    ensures sums { H.tells → (size : ℕ) → size ≡ (H.counts h.old).size → (w : World) → IsReady size w daemon (H.state h.old)
        → SumsUp size w (gen_lines seed count) (run_fault result) (H.counts h.old) (H.counts h.new) (H.state h.old) (H.state h.new) }
    ensures says { H.tells → SaysSummary [] (length (gen_lines seed count)) (run_fault result ≡ Option.None) (H.state h.old) (H.state h.new) }
    ensures not_sound { H.tells → result ≡ Result.Err RunFault.NotSound → IsUnsoundAfterLoss (H.counts h.old) (H.counts h.new) (H.state h.new) }
    ensures rest { H.tells → KeepsScript (H.state h.old) (H.state h.new) }
    ensures cause { CountsToEnd (run_fault result) (H.counts h.old) (H.counts h.new) }
{
    let frames = daemon.frames();
    let mut source = Source::Generated(GeneratedBytes::new(seed, count));
    let served = serve(alloc, daemon, h, &mut source)?;
    say_summary(h, frames, line_count(count), served.refused)?;
    Ok(())
}

/// The mode `gen S N` for this seed, at most 65,535, and for `count` objects, at most 992. Returns the program's
/// status, which is never 7.
pub fn generate<H: Host>(alloc: Global, h: &mut H, seed: u32, count: u32) -> u8
    requires seed { seed ≤ MAX_SEED }
    requires few { count ≤ MAX_OBJECTS }
    ensures status { IsStatusOfMode result }
    ensures never_too_long { result ≢ TOO_LONG }
    ensures not_usable { H.tells → IsRested (H.state h.old).now.words → status_fault result ≡ Option.None
        → (result ≡ NOT_USABLE) ↔ (world_of (H.counts h.old).size (reads (H.state h.old).now.words) ≡ Option.None) }
    ensures not_sound { H.tells → result ≡ NOT_USABLE
        → (world_of (H.counts h.old).size (reads (H.state h.old).now.words) ≡ Option.None) ⊎ IsUnsoundAfterLoss (H.counts h.old) (H.counts h.new) (H.state h.new) }
    ensures unchanged { H.tells → IsRested (H.state h.old).now.words → result ≡ NOT_USABLE → H.state h.new ≡ H.state h.old }
    ensures stays_counted { H.tells → world_of (H.counts h.old).size (reads (H.state h.old).now.words) ≡ Option.None → result ≡ NOT_USABLE → H.counts h.new ≡ H.counts h.old }
    ensures completes { H.tells → IsRested (H.state h.old).now.words → world_of (H.counts h.old).size (reads (H.state h.old).now.words) ≢ Option.None
        → (Rose (H.counts h.old).faults (H.counts h.new).faults → ⊥) → (Rose (H.counts h.old).cuts (H.counts h.new).cuts → ⊥) → result ≡ DONE }
    ensures rest { H.tells → KeepsScript (H.state h.old) (H.state h.new) }
    // Whatever the device stores: what is printed is a prefix of the start's text followed by the summary, which lists
    // the pools as the device's tables have them. At status 0 all of it is printed.
    ensures speaks { H.tells → SaysSummary (start_text (reads (H.state h.old).now.words)) (length (gen_lines seed count)) (run_fault_at result ≡ Option.None) (H.state h.old) (H.state h.new) }
    ensures runs { H.tells → (w : World) → w.clients ≡ no_clients → w.transactions ≡ nothing_open → IsRested (H.state h.old).now.words → (H.state h.old).shelf ≡ w.shelf
        → world_of (H.counts h.old).size (reads (H.state h.old).now.words) ≡ Option.Some (closed w)
        → RunsLines (H.counts h.old).size w (gen_lines seed count) result (H.counts h.old) (H.counts h.new) (H.state h.old) (H.state h.new) }
    ensures cause { Causes result (H.counts h.old) (H.counts h.new) }
{
    match Daemon::start(h) {
        Err(StartFault::NotSound) => NOT_USABLE,
        Err(StartFault::Host(fault)) => status_of(fault),
        Ok(daemon) => match sum_up(alloc, daemon, h, seed, count) {
            Ok(()) => DONE,
            Err(fault) => status_of_run(fault),
        },
    }
}
