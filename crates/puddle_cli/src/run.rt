//! Answers lines as they come: the lines of a run's script, or generated lines.
ghost use Rattle.puddle_cli.specs.Serving.{WhileServing, KeepsScript, IsQuiet, IsUnsoundAfterLoss, Takes, TakesOne, TakesBy, AnswersLine, Serves, HasServed, HasServedBy};
ghost use Rattle.std.specs.Prelude.{◌≡◌, ◌≢◌, ◌⊎◌, ◌↔◌, ◌+◌, ◌≤◌, ℕ, List, [], take, true, false, IfOk, IfErr, OnOk, Option, Result};
ghost use Rattle.pm_model.specs.Words.{IsRested, reads};
ghost use Rattle.pm_model.specs.Moments.{State};
ghost use Rattle.pm_model.specs.Counts.{Rose};
ghost use Rattle.pud_defs.specs.declared.layout.TheConstants.{SCRIPT_LIMIT};
ghost use Rattle.pud_defs.specs.Formats.Layout.{device_words};
ghost use Rattle.pud_defs.specs.StateMachine.World.{World, no_clients, nothing_open, world_of, closed};
ghost use Rattle.puddled.specs.Faults.{run_fault, CountsToEnd};
ghost use Rattle.daemon_memory.specs.Ready.{IsReady};
ghost use Rattle.puddle_cli.specs.declared.line_buffer.TheConstants.{KEPT};
ghost use Rattle.puddle_cli.specs.Status.{status_fault, status_to, IsStatusOfMode, Causes};
ghost use Rattle.puddle_cli.specs.Source.{is_aloud, bytes_left};
ghost use Rattle.puddle_cli.specs.Replying.{HearsLine, Hears, Heard, HeardBy, RunSays};
ghost use Rattle.puddle_cli.specs.Headline.{TakesScript, Headline};

use crate::line_buffer::LineBuffer;
use crate::source::Source;
use crate::status::{DONE, NOT_USABLE, TOO_LONG, status_of, status_of_run};
use pm_model::Host;
use pud_defs::layout::SCRIPT_LIMIT;
use puddled::{Daemon, RunFault, StartFault};
use std::alloc::Global;

/// How the lines of a source were answered.
#[derive(Clone, Copy)]
pub struct Served {
    /// Whether the source came to its end. If not, 2^20 of its bytes were taken.
    pub ended: bool,
    /// The number of replies that do not begin with `ok`.
    pub refused: u32,
}

/// Answers the line that was read, if it is not empty, and prints the reply if `aloud`. Returns the number of replies
/// that do not begin with `ok`: 0 or 1.
fn answer<H: Host>(
    alloc: Global,
    daemon: &mut Daemon,
    h: &mut H,
    piece: &mut LineBuffer,
    aloud: bool,
) -> Result<u32, RunFault>
    requires { device_words daemon.old.frames ≤ (H.counts h.old).size }
    ensures answers { H.tells → (size : ℕ) → size ≡ (H.counts h.old).size → (w : World) → IsReady size w daemon.old (H.state h.old)
        → (line : List ℕ) → piece.old ≡ take KEPT line
        → AnswersLine size w aloud line result daemon.new (H.counts h.old) (H.counts h.new) (H.state h.old) (H.state h.new) }
    // Whatever the device stores: if `aloud`, one answer is printed to a line that is not empty. With a fault only a
    // prefix of the answer may be printed.
    ensures hears { H.tells → aloud ≡ true → (line : List ℕ) → piece.old ≡ take KEPT line → HearsLine line (run_fault result) (H.state h.old) (H.state h.new) }
    ensures quiet { H.tells → aloud ≡ false → (H.state h.new).now.said ≡ (H.state h.old).now.said }
    ensures piece { OnOk result (piece.new ≡ []) }
    ensures one { IfOk result (λ count. count ≤ 1) }
    ensures not_sound { H.tells → result ≡ Result.Err RunFault.NotSound → IsUnsoundAfterLoss (H.counts h.old) (H.counts h.new) (H.state h.new) }
    ensures room { device_words daemon.new.frames ≤ (H.counts h.old).size }
    ensures rest { H.tells → KeepsScript (H.state h.old) (H.state h.new) }
    ensures cause { CountsToEnd (run_fault result) (H.counts h.old) (H.counts h.new) }
{
    if piece.is_empty() {
        return Ok(0);
    }
    let ok = daemon.exec(alloc, h, piece.bytes(), aloud)?;
    piece.clear();
    Ok(u32::from(!ok))
}

/// Takes one byte. If it is a newline, answers the line that it ends. Returns whether there was a byte. `refused`
/// counts the replies so far that do not begin with `ok`.
fn serve_byte<H: Host>(
    alloc: Global,
    daemon: &mut Daemon,
    h: &mut H,
    source: &mut Source,
    piece: &mut LineBuffer,
    refused: &mut u32,
) -> Result<bool, RunFault>
    requires device { device_words daemon.old.frames ≤ (H.counts h.old).size }
    requires few { refused.old ≤ SCRIPT_LIMIT }
    ensures serves { H.tells → WhileServing (H.counts h.old).size (is_aloud source.old) (H.counts h.old) daemon.old (H.state h.old) (bytes_left source.old (H.state h.old)) piece.old refused.old (λ size w aloud all before start.
        IfOk result (λ more. Serves size w aloud all before start (H.counts h.new) daemon.new (H.state h.new) (bytes_left source.new (H.state h.new)) piece.new refused.new)) }
    ensures ended { H.tells → IfOk result (λ more. more ≡ false → bytes_left source.new (H.state h.new) ≡ []) }
    ensures answered { H.tells → WhileServing (H.counts h.old).size (is_aloud source.old) (H.counts h.old) daemon.old (H.state h.old) (bytes_left source.old (H.state h.old)) piece.old refused.old (λ size w aloud all before start.
        IfErr result (λ fault. HasServed size w aloud all false (Option.Some fault) before (H.counts h.new) start (H.state h.new) (bytes_left source.new (H.state h.new)) 0)) }
    ensures aloud { is_aloud source.new ≡ is_aloud source.old }
    ensures hears { H.tells → is_aloud source.old ≡ true → (start : State) → Hears start (H.state h.old) piece.old → IfOk result (λ more. Hears start (H.state h.new) piece.new) }
    ensures heard { H.tells → is_aloud source.old ≡ true → (start : State) → Hears start (H.state h.old) piece.old → IfErr result (λ fault. Heard false (Option.Some fault) start (H.state h.new)) }
    ensures quiet { H.tells → is_aloud source.old ≡ false → IsQuiet (H.state h.old) (H.state h.new) }
    ensures takes { H.tells → (all : List ℕ) → (count : ℕ) → (start : State) → Takes all count start (H.state h.old) (bytes_left source.old (H.state h.old))
        → TakesOne all result count start (H.state h.new) (bytes_left source.new (H.state h.new)) }
    ensures one_more { refused.new ≤ refused.old + 1 }
    ensures not_sound { H.tells → result ≡ Result.Err RunFault.NotSound → IsUnsoundAfterLoss (H.counts h.old) (H.counts h.new) (H.state h.new) }
    ensures room { device_words daemon.new.frames ≤ (H.counts h.old).size }
    ensures cause { CountsToEnd (run_fault result) (H.counts h.old) (H.counts h.new) }
{
    match source.next(h)? {
        None => Ok(false),
        Some(b'\n') => {
            *refused += answer(alloc, daemon, h, piece, source.is_aloud())?;
            Ok(true)
        }
        Some(byte) => {
            piece.push(byte);
            Ok(true)
        }
    }
}

/// Answers the lines that the source gives, until it ends or until 2^20 bytes were taken.
fn serve_lines<H: Host>(
    alloc: Global,
    daemon: &mut Daemon,
    h: &mut H,
    source: &mut Source,
) -> Result<Served, RunFault>
    requires { device_words daemon.old.frames ≤ (H.counts h.old).size }
    ensures answered { H.tells → (size : ℕ) → size ≡ (H.counts h.old).size → (w : World) → IsReady size w daemon.old (H.state h.old)
        → HasServedBy size w (is_aloud source.old) (bytes_left source.old (H.state h.old)) result (H.counts h.old) (H.counts h.new) (H.state h.old) (H.state h.new) (bytes_left source.new (H.state h.new)) }
    ensures aloud { is_aloud source.new ≡ is_aloud source.old }
    ensures heard { H.tells → is_aloud source.old ≡ true → HeardBy result (H.state h.old) (H.state h.new) }
    ensures quiet { H.tells → is_aloud source.old ≡ false → IsQuiet (H.state h.old) (H.state h.new) }
    ensures takes { H.tells → TakesBy (bytes_left source.old (H.state h.old)) result (H.state h.old) (H.state h.new) (bytes_left source.new (H.state h.new)) }
    ensures not_sound { H.tells → result ≡ Result.Err RunFault.NotSound → IsUnsoundAfterLoss (H.counts h.old) (H.counts h.new) (H.state h.new) }
    ensures cause { CountsToEnd (run_fault result) (H.counts h.old) (H.counts h.new) }
{
    let mut piece = LineBuffer::new();
    let mut refused = 0;
    for _taken in 0..SCRIPT_LIMIT {
        if !serve_byte(alloc, daemon, h, source, &mut piece, &mut refused)? {
            refused += answer(alloc, daemon, h, &mut piece, source.is_aloud())?;
            return Ok(Served {
                ended: true,
                refused,
            });
        }
    }
    Ok(Served {
        ended: false,
        refused,
    })
}

/// Answers the lines that the source gives, as `serve_lines` does. Then stops the daemon, also if the run cannot go
/// on.
pub fn serve<H: Host>(
    alloc: Global,
    daemon: Daemon,
    h: &mut H,
    source: &mut Source,
) -> Result<Served, RunFault>
    requires { device_words daemon.frames ≤ (H.counts h.old).size }
    ensures answered { H.tells → (size : ℕ) → size ≡ (H.counts h.old).size → (w : World) → IsReady size w daemon (H.state h.old)
        → HasServedBy size w (is_aloud source.old) (bytes_left source.old (H.state h.old)) result (H.counts h.old) (H.counts h.new) (H.state h.old) (H.state h.new) (bytes_left source.new (H.state h.new)) }
    ensures aloud { is_aloud source.new ≡ is_aloud source.old }
    ensures heard { H.tells → is_aloud source.old ≡ true → HeardBy result (H.state h.old) (H.state h.new) }
    ensures quiet { H.tells → is_aloud source.old ≡ false → IsQuiet (H.state h.old) (H.state h.new) }
    ensures takes { H.tells → TakesBy (bytes_left source.old (H.state h.old)) result (H.state h.old) (H.state h.new) (bytes_left source.new (H.state h.new)) }
    ensures not_sound { H.tells → result ≡ Result.Err RunFault.NotSound → IsUnsoundAfterLoss (H.counts h.old) (H.counts h.new) (H.state h.new) }
    ensures cause { CountsToEnd (run_fault result) (H.counts h.old) (H.counts h.new) }
{
    let mut daemon = daemon;
    let served = serve_lines(alloc, &mut daemon, h, source);
    daemon.stop();
    served
}

/// The status of a run that could go on: 0 if its script was read to its end, else 7.
fn status_of_end(ended: bool) -> u8
    ensures { result ≡ status_to ended }
{
    if ended { DONE } else { TOO_LONG }
}

/// The mode `run`: answers the script. Returns the program's status.
pub fn run<H: Host>(alloc: Global, h: &mut H) -> u8
    ensures status { IsStatusOfMode result }
    ensures not_usable { H.tells → IsRested (H.state h.old).now.words → status_fault result ≡ Option.None
        → (result ≡ NOT_USABLE) ↔ (world_of (H.counts h.old).size (reads (H.state h.old).now.words) ≡ Option.None) }
    ensures not_sound { H.tells → result ≡ NOT_USABLE
        → (world_of (H.counts h.old).size (reads (H.state h.old).now.words) ≡ Option.None) ⊎ IsUnsoundAfterLoss (H.counts h.old) (H.counts h.new) (H.state h.new) }
    ensures unchanged { H.tells → IsRested (H.state h.old).now.words → result ≡ NOT_USABLE → H.state h.new ≡ H.state h.old }
    ensures stays_counted { H.tells → world_of (H.counts h.old).size (reads (H.state h.old).now.words) ≡ Option.None → result ≡ NOT_USABLE → H.counts h.new ≡ H.counts h.old }
    ensures completes { H.tells → IsRested (H.state h.old).now.words → world_of (H.counts h.old).size (reads (H.state h.old).now.words) ≢ Option.None
        → (Rose (H.counts h.old).faults (H.counts h.new).faults → ⊥) → (Rose (H.counts h.old).cuts (H.counts h.new).cuts → ⊥)
        → (result ≡ DONE) ⊎ (result ≡ TOO_LONG) }
    ensures takes { H.tells → TakesScript result (H.state h.old) (H.state h.new) }
    // Whatever the device stores: the start's text is printed, and then one answer to each line taken, in order. If
    // something breaks off the run, the start's text or the last answer may be printed in part or not at all.
    ensures speaks { H.tells → RunSays result (H.state h.old) (H.state h.new) }
    ensures headline { H.tells → (w : World) → w.clients ≡ no_clients → w.transactions ≡ nothing_open → IsRested (H.state h.old).now.words → (H.state h.old).shelf ≡ w.shelf
        → world_of (H.counts h.old).size (reads (H.state h.old).now.words) ≡ Option.Some (closed w)
        → Headline (H.counts h.old).size w result (H.counts h.old) (H.counts h.new) (H.state h.old) (H.state h.new) }
    ensures cause { Causes result (H.counts h.old) (H.counts h.new) }
{
    match Daemon::start(h) {
        Err(StartFault::NotSound) => NOT_USABLE,
        Err(StartFault::Host(fault)) => status_of(fault),
        Ok(daemon) => match serve(alloc, daemon, h, &mut Source::Script) {
            Ok(served) => status_of_end(served.ended),
            Err(fault) => status_of_run(fault),
        },
    }
}
