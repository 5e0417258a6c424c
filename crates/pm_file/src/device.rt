//! The device: its words, the file that keeps them, the armed cut and the counts.
ghost use Rattle.std.specs.Prelude.{◌≡◌, ◌≢◌, ◌*◌, ◌<◌, true, false, not, Option, IfOk, slice_index};
ghost use Rattle.pm_model.specs.Counts.{counts_of, fresh_counts, after_fault, after_arm, after_loss_of, fault_of};
ghost use Rattle.pm_model.specs.Calls.{IsDue, CountsDown, counted_down};
ghost use Rattle.pm_rows.specs.Rows.{TakesLine, AreSame};
ghost use Rattle.pm_file.specs.Reach.{TakesWord};
ghost use Rattle.pm_file.specs.Steps.{LosesWords, Stops};

use crate::device_file::DeviceFile;
use crate::device_words::DeviceWords;
use pm_model::{Armed, HostFault, Tally, counted_down};
use std::fs::OpenFile;
use std::os::unix::fs::FileExt;

/// A device over an open file.
#[derive(Drop)]
pub(crate) struct Device<F> {
    file: DeviceFile<F>,
    pub(crate) words: DeviceWords,
    /// Whether a write or a sync of the file failed. After that no fence succeeds. The system may count bytes as
    /// written that never reached the disk, and a later sync that succeeds does not tell this.
    pub(crate) has_failed: bool,
    pub(crate) armed: Option<Armed>,
    /// Whether a power loss could not be written. The next device call reports this.
    pub(crate) owes_fault: bool,
    pub(crate) tally: Tally,
}

impl<F: FileExt + OpenFile> Device<F> {
    /// A device at rest with these words. The file has the same words.
    pub(crate) fn new(file: DeviceFile<F>, words: DeviceWords) -> Device<F>
        ensures words { result.words ≡ words }
        ensures counts { counts_of (8 * result.words.lines) result.tally
            ≡ fresh_counts (8 * words.lines) }
    {
        Device {
            file,
            words,
            has_failed: false,
            armed: None,
            owes_fault: false,
            tally: Tally::new(),
        }
    }

    /// Counts a fault, and returns it.
    pub(crate) fn fail(&mut self) -> HostFault
        ensures failed { result ≡ HostFault.Failed }
        ensures cause { counts_of (8 * self.new.words.lines) self.new.tally
            ≡ after_fault (Option.Some result) (counts_of (8 * self.old.words.lines) self.old.tally) }
        ensures words { self.new.words ≡ self.old.words }
        ensures armed { self.new.armed ≡ self.old.armed }
        ensures owed { self.new.owes_fault ≡ self.old.owes_fault }
        ensures lasting { self.new.has_failed ≡ self.old.has_failed }
    {
        self.tally.fault()
    }

    /// The newest value of a word.
    ///
    /// # Errors
    ///
    /// `Failed` if an earlier power loss could not be written.
    pub(crate) fn load(&mut self, word: u32) -> Result<u64, HostFault>
        requires { word < 8 * self.old.words.lines }
        ensures cause { counts_of (8 * self.new.words.lines) self.new.tally
            ≡ after_fault (fault_of result) (counts_of (8 * self.old.words.lines) self.old.tally) }
        ensures never_cut { fault_of result ≢ Option.Some HostFault.Cut }
        ensures value { IfOk result (λ value. value
            ≡ slice_index self.old.words.rows.newest.items word) }
        ensures words { self.new.words ≡ self.old.words }
        ensures armed { self.new.armed ≡ self.old.armed }
        ensures lasting { self.new.has_failed ≡ self.old.has_failed }
    {
        self.pay_fault()?;
        Ok(self.words.load(word))
    }

    /// Stores a value in a word. A device step.
    ///
    /// # Errors
    ///
    /// `Failed` if an earlier power loss could not be written, or if allocation failed, although room was reserved at
    /// the start. `Cut` if the armed cut falls on this step.
    pub(crate) fn store(&mut self, word: u32, value: u64) -> Result<(), HostFault>
        requires { word < 8 * self.old.words.lines }
        ensures cause { counts_of (8 * self.new.words.lines) self.new.tally
            ≡ after_fault (fault_of result) (counts_of (8 * self.old.words.lines) self.old.tally) }
        ensures armed { CountsDown (fault_of result) self.old.armed self.new.armed }
        ensures stopped { Stops (fault_of result) self.old.armed self.old.words self.new.words }
        ensures stored { fault_of result ≡ Option.None → TakesWord word value
            self.old.words.rows.newest.items self.new.words.rows.newest.items }
        ensures lasting { self.old.has_failed ≡ true → self.new.has_failed ≡ true }
    {
        self.begin_step()?;
        if self.words.store(word, value).is_err() {
            return Err(self.fail());
        }
        self.count_step();
        Ok(())
    }

    /// Flushes a line. A device step.
    ///
    /// # Errors
    ///
    /// `Failed` if an earlier power loss could not be written. `Cut` if the armed cut falls on this step.
    pub(crate) fn flush(&mut self, line: u32) -> Result<(), HostFault>
        requires { line < self.old.words.lines }
        ensures cause { counts_of (8 * self.new.words.lines) self.new.tally
            ≡ after_fault (fault_of result) (counts_of (8 * self.old.words.lines) self.old.tally) }
        ensures armed { CountsDown (fault_of result) self.old.armed self.new.armed }
        ensures stopped { Stops (fault_of result) self.old.armed self.old.words self.new.words }
        ensures marked { fault_of result ≡ Option.None → TakesLine line
            self.old.words.rows.newest.items
            self.old.words.rows.marked.items self.new.words.rows.marked.items }
        ensures lasting { self.old.has_failed ≡ true → self.new.has_failed ≡ true }
    {
        self.begin_step()?;
        self.words.flush(line);
        self.count_step();
        Ok(())
    }

    /// Makes the marked values durable. A device step.
    ///
    /// # Errors
    ///
    /// Those of `flush`, and `Failed` if the file could not be written or synced, in this call or in an earlier one.
    pub(crate) fn fence(&mut self) -> Result<(), HostFault>
        ensures cause { counts_of (8 * self.new.words.lines) self.new.tally
            ≡ after_fault (fault_of result) (counts_of (8 * self.old.words.lines) self.old.tally) }
        ensures armed { CountsDown (fault_of result) self.old.armed self.new.armed }
        ensures stopped { Stops (fault_of result) self.old.armed self.old.words self.new.words }
        ensures durable { fault_of result ≡ Option.None
            → AreSame self.new.words.rows.durable.items self.old.words.rows.marked.items }
        ensures whole { fault_of result ≡ Option.None → self.new.has_failed ≡ false }
        ensures lasting { self.old.has_failed ≡ true → self.new.has_failed ≡ true }
    {
        self.begin_step()?;
        if !self.settle() {
            return Err(self.fail());
        }
        self.count_step();
        Ok(())
    }

    /// Loses power at once. If the file could not be written, the next device call fails.
    pub(crate) fn cut(&mut self, pick: u64)
        ensures counted { counts_of (8 * self.new.words.lines) self.new.tally
            ≡ after_loss_of pick (counts_of (8 * self.old.words.lines) self.old.tally) }
        ensures armed { self.new.armed ≡ self.old.armed }
        ensures lost { LosesWords pick self.old.words self.new.words }
        ensures lasting { self.old.has_failed ≡ true → self.new.has_failed ≡ true }
    {
        self.lose(pick);
        self.tally.loss(pick);
    }

    /// Arms a cut, in place of one that is armed.
    pub(crate) fn arm(&mut self, steps: u32, pick: u64)
        ensures counted { counts_of (8 * self.new.words.lines) self.new.tally
            ≡ after_arm steps pick (counts_of (8 * self.old.words.lines) self.old.tally) }
        ensures armed { self.new.armed ≡ Option.Some (record { steps = steps; pick = pick }) }
        ensures words { self.new.words ≡ self.old.words }
        ensures lasting { self.new.has_failed ≡ self.old.has_failed }
    {
        self.armed = Some(Armed { steps, pick });
        self.tally.arm(steps, pick);
    }

    // Reports the fault of a power loss that could not be written, once.
    fn pay_fault(&mut self) -> Result<(), HostFault>
        ensures cause { counts_of (8 * self.new.words.lines) self.new.tally
            ≡ after_fault (fault_of result) (counts_of (8 * self.old.words.lines) self.old.tally) }
        ensures never_cut { fault_of result ≢ Option.Some HostFault.Cut }
        ensures owed { self.old.owes_fault ≡ true → fault_of result ≡ Option.Some HostFault.Failed }
        ensures paid { self.new.owes_fault ≡ false }
        ensures words { self.new.words ≡ self.old.words }
        ensures armed { self.new.armed ≡ self.old.armed }
        ensures lasting { self.new.has_failed ≡ self.old.has_failed }
    {
        if self.owes_fault {
            self.owes_fault = false;
            return Err(self.fail());
        }
        Ok(())
    }

    // Begins a device step. It fails if a fault is owed, and it is cut if the armed cut falls on it.
    fn begin_step(&mut self) -> Result<(), HostFault>
        ensures cause { counts_of (8 * self.new.words.lines) self.new.tally
            ≡ after_fault (fault_of result) (counts_of (8 * self.old.words.lines) self.old.tally) }
        ensures size { self.new.words.lines ≡ self.old.words.lines }
        ensures not_due { fault_of result ≡ Option.None → IsDue self.old.armed → ⊥ }
        ensures waits { fault_of result ≢ Option.Some HostFault.Cut → self.new.armed ≡ self.old.armed }
        ensures fires { fault_of result ≡ Option.Some HostFault.Cut → self.new.armed ≡ Option.None }
        ensures kept { fault_of result ≡ Option.None → self.new.words ≡ self.old.words }
        ensures stopped { Stops (fault_of result) self.old.armed self.old.words self.new.words }
        ensures lasting { self.old.has_failed ≡ true → self.new.has_failed ≡ true }
    {
        self.pay_fault()?;
        match self.armed {
            Some(cut) if cut.steps <= 1 => {
                self.armed = None;
                self.lose(cut.pick);
                Err(self.tally.cut())
            }
            _ => Ok(()),
        }
    }

    // Counts an armed cut down by one step that was carried out.
    fn count_step(&mut self)
        ensures words { self.new.words ≡ self.old.words }
        ensures tally { self.new.tally ≡ self.old.tally }
        ensures armed { self.new.armed ≡ counted_down self.old.armed }
        ensures lasting { self.new.has_failed ≡ self.old.has_failed }
    {
        if self.armed.is_some() {
            self.armed = counted_down(self.armed);
        }
    }

    // Loses power. The file takes each line in which a durable word changes.
    fn lose(&mut self, pick: u64)
        ensures size { self.new.words.lines ≡ self.old.words.lines }
        ensures tally { self.new.tally ≡ self.old.tally }
        ensures armed { self.new.armed ≡ self.old.armed }
        ensures lost { LosesWords pick self.old.words self.new.words }
        ensures lasting { self.old.has_failed ≡ true → self.new.has_failed ≡ true }
    {
        self.words.rows.choose(pick);
        if !self.settle() {
            self.words.rows.take_marked();
            self.owes_fault = true;
        }
    }

    // Makes the marked values durable once the file has them. If the file failed, now or earlier, nothing becomes
    // durable. Returns whether the file has them.
    fn settle(&mut self) -> bool
        ensures size { self.new.words.lines ≡ self.old.words.lines }
        ensures tally { self.new.tally ≡ self.old.tally }
        ensures armed { self.new.armed ≡ self.old.armed }
        ensures marked { self.new.words.rows.marked ≡ self.old.words.rows.marked }
        ensures newest { self.new.words.rows.newest ≡ self.old.words.rows.newest }
        ensures written { result ≡ true
            → AreSame self.new.words.rows.durable.items self.old.words.rows.marked.items }
        ensures unwritten { result ≡ false
            → self.new.words.rows.durable ≡ self.old.words.rows.durable }
        ensures failed { self.new.has_failed ≡ not result }
        ensures lasting { self.old.has_failed ≡ true → self.new.has_failed ≡ true }
    {
        let is_written = self.write();
        if is_written {
            self.words.rows.take_marked();
            self.words.rows.forget_settled();
        }
        is_written
    }

    // Writes the marked words of the unsettled lines. Returns whether the file surely has them. After a failure it
    // writes no more.
    fn write(&mut self) -> bool
        ensures size { self.new.words.lines ≡ self.old.words.lines }
        ensures tally { self.new.tally ≡ self.old.tally }
        ensures armed { self.new.armed ≡ self.old.armed }
        ensures durable { self.new.words.rows.durable ≡ self.old.words.rows.durable }
        ensures marked { self.new.words.rows.marked ≡ self.old.words.rows.marked }
        ensures newest { self.new.words.rows.newest ≡ self.old.words.rows.newest }
        ensures failed { self.new.has_failed ≡ not result }
        ensures lasting { self.old.has_failed ≡ true → self.new.has_failed ≡ true }
    {
        self.words.rows.sort_unsettled();
        if !self.has_failed {
            self.has_failed = self.file.write_due(&self.words).is_err();
        }
        !self.has_failed
    }
}

#[cfg(test)]
mod tests;
