//! The daemon's own calls: start, one line, stop.
ghost use Rattle.daemon_memory.specs.Premises.{WhenReady};
ghost use Rattle.puddled.specs.Premises.{WhenCarriedOut, IfRewrites};
ghost use Rattle.std.specs.Prelude.{◌≡◌, ◌≢◌, ◌≤◌, ◌↔◌, ℕ, true, List, IsOk, IfOk, Option, Result};
ghost use Rattle.pm_model.specs.Words.{IsRested, reads};
ghost use Rattle.pm_model.specs.Counts.{Counts, after_fault, after_arm, after_loss_of, fault_of};
ghost use Rattle.pm_model.specs.Moments.{State};
ghost use Rattle.pud_defs.specs.declared.layout.TheConstants.{MIN_FRAMES};
ghost use Rattle.pud_defs.specs.Formats.Layout.{device_words};
ghost use Rattle.pud_defs.specs.RegistryTables.Registry.{frames_of};
ghost use Rattle.pud_defs.specs.StateMachine.World.{World, world_of, closed, restart};
ghost use Rattle.puddled.specs.Faults.{start_fault, CountsReply, CountsAnswer, answer_after_loss, HasLostPower};
ghost use Rattle.daemon_memory.specs.Counted.{kind_of, IsUncut, CountsCommand};
ghost use Rattle.pud_defs.specs.StateMachine.Grammar.{command_of, IsLegalCommand};
ghost use Rattle.pud_defs.specs.StateMachine.Changing.{file_of, file_in};
ghost use Rattle.daemon_memory.specs.Memory.{Memory};
ghost use Rattle.daemon_memory.specs.Ready.{KeepsRest, KeepsInput, IsReady, Applies};
ghost use Rattle.pud_defs.specs.declared.machine.Command.TheVariants as commands;
ghost use Rattle.pud_defs.specs.StateMachine.Step.{refusal_of};
ghost use Rattle.puddled.specs.Frontiers.{LeadFrontiers, MoveOnTheWay};
ghost use Rattle.pool_lines.specs.Rewriting.{DoesSteps};
ghost use Rattle.daemon_memory.specs.LineAnswers.{IsOneLine};
ghost use Rattle.puddled.specs.Starting.{IsReplayed, Recovers, started};
ghost use Rattle.puddled.specs.Daemon.{KeepsLine, CarriesOut, CarriesOutLine};
ghost use Rattle.daemon_memory.specs.CarryingOut.{KeepsAllBut};

use crate::answers::say_answer;
use crate::clients::{leave, register_client};
use crate::starting::{say_ready, say_refused};
use crate::types::define_type;
use daemon_memory::{DaemonMemory, LineAnswer, with_reply};
use log_space::clear_spaces;
use pm_model::{Host, HostFault};
use pool_lines::{
    create_pool, drop_for, dump_for, export_for, get_for, import, rewrite_for, set_mode_for,
};
use pool_transaction::{Change, Update, abort, begin, change_own, commit};
use pud_defs::machine::{Command, Refusal, Reply};
use recover::{RecoverFault, recover, upgrade};
use script::parse_line;
use std::alloc::Global;
use std::marker::Model;
use std::mem;

/// Why the daemon did not start.
#[derive(Clone, Copy, Debug, PartialEq, Eq, thiserror::Error)]
pub enum StartFault {
    /// The device is not a sound registry. No word was changed and nothing was printed.
    #[error("the device is not a sound registry")]
    NotSound,
    /// A fault of the host.
    #[error("the host failed")]
    Host(HostFault),
}

impl From<HostFault> for StartFault {
    ghost use Rattle.puddled.specs.declared.daemon.StartFault.TheVariants.{Host};

    ghost from_gives = { λ fault e. e ≡ Host fault };

    fn from(fault: HostFault) -> Self {
        StartFault::Host(fault)
    }
}

/// Why the run cannot go on after a line. The daemon must not be given another line.
#[derive(Clone, Copy, Debug, PartialEq, Eq, thiserror::Error)]
pub enum RunFault {
    /// A call of the host failed.
    #[error("a call of the host failed")]
    Failed,
    /// Power was lost in the restart that followed a power loss.
    #[error("power was lost in the restart that followed a power loss")]
    CutInStart,
    /// The restart found that the device is not a sound registry.
    #[error("the device is not a sound registry after a power loss")]
    NotSound,
}

impl From<HostFault> for RunFault {
    ghost use Rattle.puddled.specs.Faults.{of_host};

    ghost from_gives = { λ fault e. e ≡ of_host fault };

    fn from(fault: HostFault) -> Self {
        match fault {
            HostFault::Failed => RunFault::Failed,
            HostFault::Cut => RunFault::CutInStart,
        }
    }
}

impl From<StartFault> for RunFault {
    ghost use Rattle.puddled.specs.Faults.{of_start};

    ghost from_gives = { λ fault e. e ≡ of_start fault };

    fn from(fault: StartFault) -> Self {
        match fault {
            StartFault::NotSound => RunFault::NotSound,
            StartFault::Host(fault) => RunFault::from(fault),
        }
    }
}

/// A daemon that has started on a device. It is spent by `stop` alone.
pub struct Daemon {
    /// What it keeps in memory between two lines.
    memory: DaemonMemory,
}

impl Model for Daemon {
    ghost use Rattle.daemon_memory.specs.Memory.{Memory};

    ghost Value = { Memory };

    ghost view = { λ d. d.memory };
}

impl From<RecoverFault> for StartFault {
    ghost use Rattle.puddled.specs.Faults.{of_recover};

    ghost from_gives = { λ fault e. e ≡ of_recover fault };

    fn from(fault: RecoverFault) -> Self {
        match fault {
            RecoverFault::NotSound => StartFault::NotSound,
            RecoverFault::Host(fault) => StartFault::Host(fault),
        }
    }
}

/// Starts again after a power loss and prints nothing, not even the lines on refused logs. Without a fault, what was
/// kept in memory is given up.
// Not inlined: its buffers would lie on the stack of every line.
#[inline(never)]
fn restart<H: Host>(memory: &mut DaemonMemory, h: &mut H) -> Result<(), StartFault>
    requires { device_words memory.old.frames ≤ (H.counts h.old).size }
    ensures not_sound { H.tells → start_fault result ≡ Option.None
        → (result ≡ Result.Err StartFault.NotSound) ↔ (world_of (H.counts h.old).size (reads (H.state h.old).now.words) ≡ Option.None) }
    ensures unchanged { H.tells → result ≡ Result.Err StartFault.NotSound → H.state h.new ≡ H.state h.old }
    ensures unsound_stays { H.tells → world_of (H.counts h.old).size (reads (H.state h.old).now.words) ≡ Option.None → H.state h.new ≡ H.state h.old }
    ensures recovers { H.tells → (size : ℕ) → size ≡ (H.counts h.old).size → (w : World) → IsRested (H.state h.old).now.words
        → world_of size (reads (H.state h.old).now.words) ≡ Option.Some (closed w) → (H.state h.old).shelf ≡ w.shelf
        → Recovers size w (started memory.new result) (H.state h.old) (H.state h.new) }
    ensures replays { H.tells → IsRested (H.state h.old).now.words → IfOk result (λ _. IsReplayed (reads (H.state h.old).now.words) (reads (H.state h.new).now.words)) }
    ensures sound { H.tells → IsRested (H.state h.old).now.words → IfOk result (λ _. world_of (H.counts h.old).size (reads (H.state h.new).now.words) ≢ Option.None) }
    ensures room { device_words memory.new.frames ≤ (H.counts h.old).size }
    ensures rest { H.tells → KeepsRest (H.state h.old) (H.state h.new) }
    ensures cause { H.counts h.new ≡ after_fault (start_fault result) (H.counts h.old) }
{
    let report = recover(h)?;
    clear_spaces(h)?;
    upgrade(h)?;
    let lost = mem::replace(memory, DaemonMemory::with_frames(report.frames));
    lost.lose();
    Ok(())
}

/// Loses power at once. The daemon is to start again after it, as after each power loss.
fn lose_power<H: Host>(h: &mut H, pick: u64) -> Result<Reply, HostFault>
    ensures lost { result ≡ Result.Err HostFault.Cut }
    ensures applies { H.tells → (size : ℕ) → (w : World) → (kept : Memory) → IsReady size w kept (H.state h.old)
        → Applies size w (restart w) kept (Option.Some HostFault.Cut) (H.state h.old) (H.state h.new) }
    ensures rest { H.tells → KeepsRest (H.state h.old) (H.state h.new) }
    ensures rested { H.tells → IsRested (H.state h.new).now.words }
    ensures cause { H.counts h.new ≡ after_loss_of pick (H.counts h.old) }
{
    h.cut(pick);
    Err(HostFault::Cut)
}

/// Arms a loss of power: it comes at the `step`-th device step from now on.
fn arm<H: Host>(h: &mut H, step: u32, pick: u64) -> Result<Reply, HostFault>
    requires { 1 ≤ step }
    ensures done { result ≡ Result.Ok Reply.Ok }
    ensures stays { H.tells → H.state h.new ≡ H.state h.old }
    ensures cause { H.counts h.new ≡ after_arm step pick (H.counts h.old) }
{
    h.arm(step, pick);
    Ok(Reply::Ok)
}

/// Carries out the command or refuses it, and prints nothing.
#[tactic(auto, using(daemon_memory::proofs::Commands::CarriedOut::keeps_line))]
fn apply<H: Host>(
    memory: &mut DaemonMemory,
    alloc: Global,
    h: &mut H,
    command: Command,
) -> Result<LineAnswer, HostFault>
    requires legal { IsLegalCommand command }
    requires room { device_words memory.old.frames ≤ (H.counts h.old).size }
    ensures carries { H.tells → WhenReady (H.counts h.old).size memory.old (H.state h.old) (λ size w.
        CarriesOut size w memory.new (Option.Some command) result (H.counts h.old) (H.counts h.new) (H.state h.old) (H.state h.new)) }
    ensures steps { H.tells → WhenReady (H.counts h.old).size memory.old (H.state h.old) (λ size w. (name : List ℕ) (n : ℕ) → command ≡ commands.Rewrite name n
        → refusal_of w command ≡ Option.None → IfOk result (λ _. DoesSteps w.stored.frames name n (reads (H.state h.old).now.words) (reads (H.state h.new).now.words))) }
    // Whatever the device stores: a text in an answer is one line, and no command is answered `cut` before a restart.
    ensures one_line { IfOk result IsOneLine }
    ensures uncut { IfOk result IsUncut }
    ensures room { device_words memory.new.frames ≤ (H.counts h.old).size }
    ensures rest { H.tells → KeepsAllBut (file_of command) (H.state h.old) (H.state h.new) }
    ensures rested { H.tells → fault_of result ≡ Option.Some HostFault.Cut → IsRested (H.state h.new).now.words }
    ensures cause { CountsCommand (kind_of (Option.Some command)) (fault_of result) (H.counts h.old) (H.counts h.new) }
{
    match command {
        Command::Client { client, uid, gid } => {
            with_reply(register_client(h, memory.frames, u32::from(client), uid, gid))
        }
        Command::Leave { client } => with_reply(leave(memory, h, client)),
        Command::Define { t, map } => with_reply(define_type(h, t, map)),
        Command::Pool { client, name, mode } => {
            with_reply(create_pool(h, memory.frames, u32::from(client), name, mode))
        }
        Command::Chmod { client, name, mode } => {
            with_reply(set_mode_for(memory, h, client, name, mode))
        }
        Command::Drop { client, name } => with_reply(drop_for(memory, h, client, name)),
        Command::Get { client, name, s, f } => {
            with_reply(get_for(memory, alloc, h, client, name, s, f))
        }
        Command::Begin { client, name } => with_reply(begin(memory, h, client, name)),
        Command::Commit { client, name } => with_reply(commit(memory, h, client, name)),
        Command::Abort { client, name } => with_reply(abort(memory, h, client, name)),
        Command::New { client, name, t } => {
            with_reply(change_own(memory, alloc, h, client, name, Change::New { t }))
        }
        Command::Set {
            client,
            name,
            s,
            f,
            x,
        } => with_reply(change_own(
            memory,
            alloc,
            h,
            client,
            name,
            Change::Update(Update::Set { s, f, x }),
        )),
        Command::Later {
            client,
            name,
            s,
            f,
            x,
        } => with_reply(change_own(
            memory,
            alloc,
            h,
            client,
            name,
            Change::Update(Update::Later { s, f, x }),
        )),
        Command::Root { client, name, s } => {
            with_reply(change_own(
                memory,
                alloc,
                h,
                client,
                name,
                Change::Update(Update::Root { s }),
            ))
        }
        Command::Free { client, name, s } => {
            with_reply(change_own(
                memory,
                alloc,
                h,
                client,
                name,
                Change::Update(Update::Free { s }),
            ))
        }
        Command::Dump { client, name } => dump_for(memory, alloc, h, client, name),
        Command::Export { client, name, file } => {
            export_for(memory, alloc, h, client, name, file)
        }
        Command::Import {
            client,
            name,
            file,
            mode,
        } => with_reply(import(alloc, h, memory.frames, u32::from(client), name, file, mode)),
        Command::Rewrite { name, n } => with_reply(rewrite_for(memory, h, name, n)),
        Command::Pools => Ok(LineAnswer::Pools),
        Command::Cut { pick } => with_reply(lose_power(h, pick)),
        Command::Arm { step, pick } => with_reply(arm(h, step, pick)),
    }
}

/// The reply after the restart that follows a power loss: `Ok` if the command asks for the power loss, otherwise `Cut`.
fn reply_after_loss(command: Command) -> Reply
    ensures { result ≡ answer_after_loss (kind_of (Option.Some command)) }
{
    match command {
        Command::Cut { .. } => Reply::Ok,
        _ => Reply::Cut,
    }
}

/// Restarts the daemon if power was lost in the command.
fn restart_if_cut<H: Host>(
    memory: &mut DaemonMemory,
    h: &mut H,
    command: Command,
    done: Result<LineAnswer, HostFault>,
) -> Result<LineAnswer, RunFault>
    requires { device_words memory.old.frames ≤ (H.counts h.old).size }
    // The command began in the state `before`, with the counts `counted`.
    ensures settles { H.tells → WhenCarriedOut (H.counts h.old).size memory.old command done (H.counts h.old) (H.state h.old) (λ size w line counted before.
        CarriesOutLine size w line result memory.new counted (H.counts h.new) before (H.state h.new)) }
    // Each frontier is on the way to where the command leads it. If the answer is not `cut`, each is there.
    ensures frontiers { H.tells → WhenCarriedOut (H.counts h.old).size memory.old command done (H.counts h.old) (H.state h.old) (λ size w line counted before.
        IfOk result (λ answered. LeadFrontiers w (command_of line) (answered ≡ LineAnswer.Reply Reply.Cut → ⊥) (reads before.now.words) (reads (H.state h.new).now.words))) }
    // At every moment each frontier is on that way, even if no answer comes.
    ensures moves { H.tells → WhenCarriedOut (H.counts h.old).size memory.old command done (H.counts h.old) (H.state h.old) (λ size w line counted before.
        MoveOnTheWay w (command_of line) (result ≡ Result.Err RunFault.Failed) before (H.state h.new)) }
    // If the answer is not `cut`, a line that rewrites has done its steps.
    ensures steps { H.tells → (F : ℕ) (name : List ℕ) (n : ℕ) (before : State) → IfOk done (λ _. DoesSteps F name n (reads before.now.words) (reads (H.state h.old).now.words))
        → command ≡ commands.Rewrite name n → IfOk result (λ answered. (answered ≡ LineAnswer.Reply Reply.Cut → ⊥) → DoesSteps F name n (reads before.now.words) (reads (H.state h.new).now.words)) }
    // Whatever the device stores: if power was lost and no fault came, it then reads as a sound registry.
    ensures restarted { H.tells → (fault_of done ≡ Option.Some HostFault.Cut → IsRested (H.state h.old).now.words) → (counted : Counts)
        → CountsCommand (kind_of (Option.Some command)) (fault_of done) counted (H.counts h.old) → IsOk result → HasLostPower (Option.Some command) counted (H.counts h.new)
        → world_of (H.counts h.old).size (reads (H.state h.new).now.words) ≢ Option.None }
    ensures not_sound { H.tells → result ≡ Result.Err RunFault.NotSound
        → world_of (H.counts h.old).size (reads (H.state h.new).now.words) ≡ Option.None }
    ensures rest { H.tells → KeepsRest (H.state h.old) (H.state h.new) }
    ensures room { device_words memory.new.frames ≤ (H.counts h.old).size }
    ensures one_line { IfOk done IsOneLine → IfOk result IsOneLine }
    ensures cause { (counted : Counts) → CountsCommand (kind_of (Option.Some command)) (fault_of done) counted (H.counts h.old) → IfOk done IsUncut
        → CountsReply (Option.Some command) result counted (H.counts h.new) }
{
    match done {
        Ok(answered) => Ok(answered),
        Err(HostFault::Failed) => Err(RunFault::Failed),
        Err(HostFault::Cut) => {
            restart(memory, h)?;
            Ok(LineAnswer::Reply(reply_after_loss(command)))
        }
    }
}

/// Carries out one line and prints nothing. If power is lost in the line, the daemon starts again.
fn carry_out_line<H: Host>(
    memory: &mut DaemonMemory,
    alloc: Global,
    h: &mut H,
    line: &[u8],
) -> Result<LineAnswer, RunFault>
    requires { device_words memory.old.frames ≤ (H.counts h.old).size }
    ensures settles { H.tells → WhenReady (H.counts h.old).size memory.old (H.state h.old) (λ size w.
        CarriesOutLine size w line.now result memory.new (H.counts h.old) (H.counts h.new) (H.state h.old) (H.state h.new)) }
    ensures frontiers { H.tells → WhenReady (H.counts h.old).size memory.old (H.state h.old) (λ size w.
        IfOk result (λ answered. LeadFrontiers w (command_of line.now) (answered ≡ LineAnswer.Reply Reply.Cut → ⊥) (reads (H.state h.old).now.words) (reads (H.state h.new).now.words))) }
    ensures moves { H.tells → WhenReady (H.counts h.old).size memory.old (H.state h.old) (λ size w.
        MoveOnTheWay w (command_of line.now) (result ≡ Result.Err RunFault.Failed) (H.state h.old) (H.state h.new)) }
    ensures steps { H.tells → WhenReady (H.counts h.old).size memory.old (H.state h.old) (λ size w. IfRewrites w line.now (λ name n.
        IfOk result (λ answered. (answered ≡ LineAnswer.Reply Reply.Cut → ⊥) → DoesSteps w.stored.frames name n (reads (H.state h.old).now.words) (reads (H.state h.new).now.words)))) }
    // Whatever the device stores: if power was lost, as counted or at once, and no fault came, it reads as a sound
    // registry after the restart.
    ensures restarted { H.tells → IsOk result → HasLostPower (command_of line.now) (H.counts h.old) (H.counts h.new)
        → world_of (H.counts h.old).size (reads (H.state h.new).now.words) ≢ Option.None }
    ensures not_sound { H.tells → result ≡ Result.Err RunFault.NotSound
        → world_of (H.counts h.old).size (reads (H.state h.new).now.words) ≡ Option.None }
    ensures room { device_words memory.new.frames ≤ (H.counts h.old).size }
    ensures rest { H.tells → KeepsAllBut (file_in (command_of line.now)) (H.state h.old) (H.state h.new) }
    ensures one_line { IfOk result IsOneLine }
    ensures cause { CountsReply (command_of line.now) result (H.counts h.old) (H.counts h.new) }
{
    let Ok(command) = parse_line(line) else {
        return Ok(LineAnswer::Reply(Reply::No(Refusal::Bad)));
    };
    let done = apply(memory, alloc, h, command);
    restart_if_cut(memory, h, command, done)
}

impl Daemon {
    ghost use Rattle.pud_defs.specs.declared.layout.TheConstants.{MAX_FRAMES};
    ghost use Rattle.pud_defs.specs.Output.StartText.{start_text};
    ghost use Rattle.pud_defs.specs.StateMachine.Step.Answer.{of_reply};
    ghost use Rattle.puddled.specs.Saying.{EndsIn, SaysPart};
    ghost use Rattle.puddled.specs.Starting.{Starts};
    ghost use Rattle.daemon_memory.specs.Memory.{first_memory};
    ghost use Rattle.puddled.specs.Daemon.{spoken, SaysAnswer, Answers};

    /// Starts on the device and prints `ready`.
    ///
    /// The start applies what the daemon log names. It replays and closes each registered log that is allowed to its
    /// owner, and prints a line for each registered log that is refused. It empties the log-space table, makes the
    /// present version durable if the device has the first one, and prints `ready`.
    ///
    /// The error is `NotSound` exactly if the device is not a sound registry, unless the host fails first. On such a
    /// device no word changes and nothing is printed, even if the host fails.
    ///
    /// On a rested device that is sound, each image left at any moment stands for what the device stood for. After a
    /// start without a fault, the device has the present version, and each other word except those of the logs and of
    /// the log-space table reads as the settled image has it. If not all lines on refused logs were printed, the next
    /// start prints them. Once `ready` is printed, no log is refused.
    pub fn start<H: Host>(h: &mut H) -> Result<Daemon, StartFault>
        ensures not_sound { H.tells → start_fault result ≡ Option.None
            → (result ≡ Result.Err StartFault.NotSound) ↔ (world_of (H.counts h.old).size (reads (H.state h.old).now.words) ≡ Option.None) }
        ensures unchanged { H.tells → result ≡ Result.Err StartFault.NotSound → H.state h.new ≡ H.state h.old }
        ensures unsound_stays { H.tells → world_of (H.counts h.old).size (reads (H.state h.old).now.words) ≡ Option.None → H.state h.new ≡ H.state h.old }
        ensures starts { H.tells → (size : ℕ) → size ≡ (H.counts h.old).size → (w : World) → IsRested (H.state h.old).now.words
            → world_of size (reads (H.state h.old).now.words) ≡ Option.Some (closed w) → (H.state h.old).shelf ≡ w.shelf
            → Starts size w result (H.state h.old) (H.state h.new) }
        ensures replays { H.tells → IsRested (H.state h.old).now.words → IfOk result (λ daemon. IsReplayed (reads (H.state h.old).now.words) (reads (H.state h.new).now.words)) }
        ensures frames { H.tells → IsRested (H.state h.old).now.words → IfOk result (λ daemon. daemon.frames ≡ frames_of (reads (H.state h.new).now.words)) }
        // Whatever the device stores, this is what was printed.
        ensures says { H.tells → result ≢ Result.Err StartFault.NotSound → SaysPart (start_text (reads (H.state h.old).now.words)) (start_fault result) (H.state h.old) (H.state h.new) }
        ensures enough { IfOk result (λ daemon. MIN_FRAMES ≤ daemon.frames) }
        ensures room { IfOk result (λ daemon. device_words daemon.frames ≤ (H.counts h.old).size) }
        ensures rest { H.tells → KeepsInput (H.state h.old) (H.state h.new) }
        ensures cause { H.counts h.new ≡ after_fault (start_fault result) (H.counts h.old) }
    {
        let report = recover(h)?;
        say_refused(h, &report.marks)?;
        clear_spaces(h)?;
        upgrade(h)?;
        say_ready(h)?;
        Ok(Daemon {
            memory: DaemonMemory::with_frames(report.frames),
        })
    }

    /// How many frames the device has, 4 to 1,024, as the start found it.
    pub fn frames(&self) -> u32
        ensures frames { result ≡ self.now.frames }
        ensures some { MIN_FRAMES ≤ result }
        ensures no_more { result ≤ MAX_FRAMES }
    {
        self.memory.frames
    }

    /// Carries out one line, which is given without its newline, and prints the reply if `aloud`. Returns whether the
    /// reply begins with `ok`.
    ///
    /// If power is lost in the line, the daemon starts again within the call, and the reply is `cut`. The device then
    /// stands for the world before the line or for the one that the line gives, and no client is present. Rewriting
    /// steps change no world, so after a `cut` some of them may be done in either case: steps that the line asks for,
    /// or steps by which it finishes a puddle before it writes an object there.
    ///
    /// At a line `cut N` power is lost at once, the daemon starts again, and the reply is `ok`. If a line removes a
    /// client, each of the client's logs is closed in every image in which its record is free. The device must be the
    /// one that this daemon started on: it has the words that `frames` need.
    ///
    /// The error is `Failed` if a host call failed, `CutInStart` if power was lost in the restart too, and `NotSound`
    /// if the restart read a registry that is not sound. After an error the daemon must not be given another line.
    pub fn exec<H: Host>(
        &mut self,
        alloc: Global,
        h: &mut H,
        line: &[u8],
        aloud: bool,
    ) -> Result<bool, RunFault>
        requires { device_words self.old.frames ≤ (H.counts h.old).size }
        ensures answers { H.tells → (size : ℕ) → size ≡ (H.counts h.old).size → (w : World) → IsReady size w self.old (H.state h.old)
            → Answers size w line.now aloud result self.new (H.counts h.old) (H.counts h.new) (H.state h.old) (H.state h.new) }
        // After the line each frontier is on the way to where the line leads it, even if power was lost in the line.
        // With its `ok` each frontier is there, and so is that of a puddle that was added. A line that rewrites leads
        // frontiers to where its steps end. A line that writes objects leads those of the puddles that it writes to
        // their ends. No other line moves a frontier, nor does a refused line, and none moves a frontier of another
        // pool. A line that drops its pool leaves each of the pool's puddle records as it was, or free; with its `ok`
        // all of them are free.
        ensures frontiers { H.tells → (size : ℕ) → size ≡ (H.counts h.old).size → (w : World) → IsReady size w self.old (H.state h.old)
            → IfOk result (λ ok. LeadFrontiers w (command_of line.now) (ok ≡ true) (reads (H.state h.old).now.words) (reads (H.state h.new).now.words)) }
        // At every moment each frontier is on that way, in each image that a power loss may leave, once the daemon log
        // is replayed. A line without a reply has moved a part of what its `ok` would have moved; or nothing, if the
        // host itself failed before it was known what that is.
        ensures moves { H.tells → (size : ℕ) → size ≡ (H.counts h.old).size → (w : World) → IsReady size w self.old (H.state h.old)
            → MoveOnTheWay w (command_of line.now) (result ≡ Result.Err RunFault.Failed) (H.state h.old) (H.state h.new) }
        // With its `ok` a line that rewrites has done its next n steps, or all that were left.
        ensures steps { H.tells → (size : ℕ) → size ≡ (H.counts h.old).size → (w : World) → IsReady size w self.old (H.state h.old) → (name : List ℕ) (n : ℕ)
            → command_of line.now ≡ Option.Some (commands.Rewrite name n) → refusal_of w (commands.Rewrite name n) ≡ Option.None
            → IfOk result (λ ok. ok ≡ true → DoesSteps w.stored.frames name n (reads (H.state h.old).now.words) (reads (H.state h.new).now.words)) }
        // Whatever the device stores: if power was lost, as counted or at once, and no fault came, it then reads as a
        // sound registry. At `NotSound` it does not.
        ensures restarted { H.tells → IsOk result → HasLostPower (command_of line.now) (H.counts h.old) (H.counts h.new)
            → world_of (H.counts h.old).size (reads (H.state h.new).now.words) ≢ Option.None }
        ensures not_sound { H.tells → result ≡ Result.Err RunFault.NotSound
            → world_of (H.counts h.old).size (reads (H.state h.new).now.words) ≡ Option.None }
        // The device has the words that the daemon's number of frames needs.
        ensures room { device_words self.new.frames ≤ (H.counts h.old).size }
        // The script does not change, nor does any file except one that the line names.
        ensures rest { H.tells → KeepsLine (file_in (command_of line.now)) (H.state h.old) (H.state h.new) }
        // Whatever the device stores: if a cut was counted and no fault came, what was printed last is the reply `cut`,
        // if `aloud`.
        ensures told { H.tells → IsOk result → (H.counts h.new).cuts ≢ (H.counts h.old).cuts → EndsIn (spoken aloud (of_reply Reply.Cut)) (H.state h.new).now.said }
        // Whatever the device stores: if `aloud`, one answer is printed, in one line, and nothing else. The result is
        // whether the answer begins with `ok`. With a fault a prefix of an answer is printed, or nothing. The answer is
        // `cut` only if a cut was counted.
        ensures speaks { H.tells → SaysAnswer self.new.frames (command_of line.now) aloud result (H.counts h.old) (H.counts h.new) (H.state h.old) (H.state h.new) }
        // What is counted, whatever the host tells. Without a fault this is nothing, or one cut, exactly if the reply
        // is `cut`. But a line `cut N` counts that loss, and a line `arm K N` that arming.
        ensures cause { CountsAnswer (command_of line.now) result (H.counts h.old) (H.counts h.new) }
    {
        let answered = carry_out_line(&mut self.memory, alloc, h, line)?;
        if aloud {
            say_answer(h, self.memory.frames, &answered)?;
        }
        Ok(answered.is_ok())
    }

    /// Ends the daemon. It touches no device: the next start does what remains to be done.
    pub fn stop(self) {
        let Daemon { memory } = self;
        memory.lose();
    }
}
