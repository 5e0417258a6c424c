//! Judges, replays and closes the clients' logs, one after the other. The entries of each log are read once, into a
//! copy.

ghost use Rattle.std.specs.Prelude.{◌≡◌, ◌<◌, ◌≤◌, ℕ, slice_index_or, Option, IfOk};
ghost use Rattle.pm_model.specs.Words.{IsRested, reads};
ghost use Rattle.pm_model.specs.Counts.{after_fault, fault_of};
ghost use Rattle.pm_model.specs.Changes.{Changes};
ghost use Rattle.pud_defs.specs.Formats.Image.{Image};
ghost use Rattle.pud_defs.specs.Formats.Layout.{device_words};
ghost use Rattle.pud_defs.specs.Logging.Settled.{ALL_LOGS};
ghost use Rattle.log_replay.specs.Replaying.{Anything};
ghost use Rattle.recover.specs.Verdicts.{verdict_of, mark_of};
ghost use Rattle.recover.specs.Judging.{IfJudged};
ghost use Rattle.recover.specs.RecoveredLogs.{RecoversLog, RecoversLogAtEachMoment, RecoversLogs, RecoversLogsAtEachMoment};

use crate::judge::{JudgedLog, Mark, judge_log};
use log_replay::settle_copy;
use pm_model::{Host, HostFault};
use pm_persist::persist_word;
use pud_defs::layout::{LOGS, LogNumber, MAX_FRAMES, log_number_at};
use pud_defs::log_words::CLOSED_GATE;

/// Closes a log that has no entry in range, durably. A log that already has the gate of a closed log is not written.
fn close_idle<H: Host>(h: &mut H, frames: u32, number: LogNumber) -> Result<(), HostFault>
    requires few { frames ≤ MAX_FRAMES }
    requires known { number < ALL_LOGS }
    requires room { device_words frames ≤ (H.counts h.old).size }
    ensures takes { H.tells → (image : Image) → reads (H.state h.old).now.words ≡ image
        → verdict_of frames image number ≡ Option.Some Mark.Closed → RecoversLog frames number image (fault_of result) (H.state h.old) (H.state h.new) }
    ensures leaves { H.tells → (image : Image) → IsRested (H.state h.old).now.words → reads (H.state h.old).now.words ≡ image
        → verdict_of frames image number ≡ Option.Some Mark.Closed → RecoversLogAtEachMoment frames number image (fault_of result) (H.state h.old) (H.state h.new) }
    ensures any { H.tells → Changes Anything (fault_of result) (H.state h.old) (H.state h.new) }
    ensures cause { H.counts h.new ≡ after_fault (fault_of result) (H.counts h.old) }
{
    let at = log_number_at(frames, number);
    let gate = h.load(at)?;
    if gate == CLOSED_GATE {
        return Ok(());
    }
    persist_word(h, at, CLOSED_GATE)
}

/// Replays an allowed log from its copy, and closes it. If the log is refused, nothing changes.
fn settle_judged<H: Host>(
    h: &mut H,
    frames: u32,
    number: LogNumber,
    judged: &JudgedLog,
) -> Result<(), HostFault>
    requires few { frames ≤ MAX_FRAMES }
    requires known { number < ALL_LOGS }
    requires room { device_words frames ≤ (H.counts h.old).size }
    ensures takes { H.tells → (image : Image) → reads (H.state h.old).now.words ≡ image
        → IfJudged frames image number judged.now (RecoversLog frames number image (fault_of result) (H.state h.old) (H.state h.new)) }
    ensures leaves { H.tells → (image : Image) → IsRested (H.state h.old).now.words → reads (H.state h.old).now.words ≡ image
        → IfJudged frames image number judged.now (RecoversLogAtEachMoment frames number image (fault_of result) (H.state h.old) (H.state h.new)) }
    ensures any { H.tells → Changes Anything (fault_of result) (H.state h.old) (H.state h.new) }
    ensures cause { H.counts h.new ≡ after_fault (fault_of result) (H.counts h.old) }
{
    match judged.mark {
        Mark::Refused => Ok(()),
        Mark::Closed => close_idle(h, frames, number),
        Mark::Replayed => settle_copy(h, &judged.copy, log_number_at(frames, number)),
    }
}

/// Recovers a log: judges it, and then replays and closes it if it is allowed. The result is what was found out about
/// the log, or None if it is not registered. If it is not registered or is refused, nothing changes.
fn recover_log<H: Host>(
    h: &mut H,
    frames: u32,
    number: LogNumber,
) -> Result<Option<Mark>, HostFault>
    requires few { frames ≤ MAX_FRAMES }
    requires known { number < ALL_LOGS }
    requires room { device_words frames ≤ (H.counts h.old).size }
    ensures mark { H.tells → (image : Image) → reads (H.state h.old).now.words ≡ image → IfOk result (λ mark. mark ≡ verdict_of frames image number) }
    ensures takes { H.tells → (image : Image) → reads (H.state h.old).now.words ≡ image → RecoversLog frames number image (fault_of result) (H.state h.old) (H.state h.new) }
    ensures leaves { H.tells → (image : Image) → IsRested (H.state h.old).now.words → reads (H.state h.old).now.words ≡ image
        → RecoversLogAtEachMoment frames number image (fault_of result) (H.state h.old) (H.state h.new) }
    ensures any { H.tells → Changes Anything (fault_of result) (H.state h.old) (H.state h.new) }
    ensures cause { H.counts h.new ≡ after_fault (fault_of result) (H.counts h.old) }
{
    let Some(judged) = judge_log(h, frames, number)? else {
        return Ok(None);
    };
    settle_judged(h, frames, number, &judged)?;
    Ok(Some(judged.mark))
}

/// Recovers the logs in the order of their log numbers: each is judged, and is replayed and closed if it is allowed.
/// The result has the mark of each log by its log number. The marks are those by what the device reads at the start.
/// Nothing is allocated.
///
/// A log that is not registered takes one load. A log that counts no word and is closed takes five. Of any other log
/// each entry word is loaded once, and a log that is replayed takes two fences.
pub(crate) fn recover_logs<H: Host>(h: &mut H, frames: u32) -> Result<[Mark; LOGS], HostFault>
    requires few { frames ≤ MAX_FRAMES }
    requires room { device_words frames ≤ (H.counts h.old).size }
    ensures marks { H.tells → (image : Image) → reads (H.state h.old).now.words ≡ image
        → IfOk result (λ marks. (number : ℕ) → number < ALL_LOGS → slice_index_or marks number Mark.Closed ≡ mark_of (verdict_of frames image number)) }
    ensures takes { H.tells → (image : Image) → reads (H.state h.old).now.words ≡ image
        → RecoversLogs frames ALL_LOGS image (fault_of result) (H.state h.old) (H.state h.new) }
    ensures leaves { H.tells → (image : Image) → IsRested (H.state h.old).now.words → reads (H.state h.old).now.words ≡ image
        → RecoversLogsAtEachMoment frames image (fault_of result) (H.state h.old) (H.state h.new) }
    ensures any { H.tells → Changes Anything (fault_of result) (H.state h.old) (H.state h.new) }
    ensures cause { H.counts h.new ≡ after_fault (fault_of result) (H.counts h.old) }
{
    let mut marks = [Mark::Closed; LOGS];
    for number in 0..LOGS as u32 {
        marks[number as usize] = mark_of(recover_log(h, frames, number)?);
    }
    Ok(marks)
}

/// The mark of a log by what was found out about it. A log that is not registered counts as closed.
fn mark_of(found: Option<Mark>) -> Mark
    ensures { result ≡ mark_of found }
{
    found.unwrap_or(Mark::Closed)
}
