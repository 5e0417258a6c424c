//! A host in memory, which tells everything.
ghost use Rattle.std.specs.Prelude.{◌≡◌, ℕ, ◌+◌, ◌-◌, ◌*◌, ◌/◌, ◌%◌, ◌<◌, ◌≤◌, cond, Some, OnOk, OnErr, vec_len, vec_capacity};
ghost use Rattle.pm_model.specs.Calls.{shelved};
ghost use Rattle.pm_mem.specs.Shelves.{shelf_of};

use crate::device::Device;
use crate::plan::Plan;
use crate::turns::{Turn, Turns};
use crate::watch::Watch;
use pm_model::{Armed, FILE_READ_LIMIT, FileFault, Host, HostFault, Tally};
use std::alloc::{AllocError, Global};
use std::collections::BTreeMap;

/// A host in memory. Its device tells the values of each word at each moment. The room for its device steps and its
/// printed bytes is reserved at the start. So these fail only if the plan lists them or if they need more than was
/// reserved. Calls on files allocate, and may also fail with `Memory`.
///
/// A power loss with pick 0 leaves each word's durable value, and with pick 1 each word's newest value. With any other
/// pick it leaves the newest value of word `i` if bit `i % 64` of the pick is set, and else the durable one.
#[derive(Drop)]
pub struct MemHost {
    device: Device,
    turns: Turns,
    script: Vec<u8>,
    /// How many bytes of the script were read.
    taken: usize,
    shelf: BTreeMap<String, Vec<u8>>,
    tally: Tally,
    watch: Watch,
    ghost whole_lines: { device.words % 8 ≡ 0 },
    ghost step_room: { turns.steps ≤ turns.limit },
    ghost reply_room: { vec_len device.said + turns.room ≤ vec_capacity device.said },
    /// Each device step to come takes one moment, and a power loss after it takes one more.
    ghost moment_room: { vec_len device.events + 2 * (turns.limit - turns.steps) + turns.room + cond device.moved 1 0 ≤ vec_capacity device.events },
}

impl MemHost {
    ghost use Rattle.std.specs.Prelude.{None, IfOk, slice_index};
    ghost use Rattle.pm_model.specs.Moments.{with_script, with_shelf};
    ghost use Rattle.pm_model.specs.Counts.{fresh_counts, after_fault, fault_of};
    ghost use Rattle.pm_mem.specs.Events.{fresh_state, always};
    ghost use Rattle.pm_mem.specs.Turns.{call_fails, after_call, turn_of, turn_fault, after_step, before_step};
    ghost use Rattle.pm_mem.specs.MemHost.{mem_state, mem_counts, mem_turns, mem_watch, call_result, KeepsCounts, HasStepRoom};

    /// A host with a device of zero words, all of them durable, and with that script to read. There is room for
    /// `steps` device steps and `room` printed bytes. What goes beyond either fails.
    pub fn new(
        alloc: Global,
        words: u32,
        script: &[u8],
        steps: u32,
        room: u32,
        plan: Plan,
    ) -> Result<MemHost, AllocError>
        requires { words % 8 ≡ 0 }
        ensures state { IfOk result (λ host. mem_state host ≡ fresh_state script.now) }
        ensures turns { IfOk result (λ host. mem_turns host ≡ record { plan = plan; calls = 0; steps = 0; limit = steps; room = room; armed = None }) }
        ensures watch { IfOk result (λ host. mem_watch host ≡ record { word = None; count = 0 }) }
        ensures counts { IfOk result (λ host. mem_counts host ≡ fresh_counts words) }
    {
        let moments = 2 * steps as usize + room as usize;
        Ok(MemHost {
            device: Device::new(alloc, words, moments, room as usize)?,
            turns: Turns::new(plan, steps, room),
            script: Vec::from_slice(alloc, script)?,
            taken: 0,
            shelf: BTreeMap::new(alloc),
            tally: Tally::new(),
            watch: Watch::new(),
        })
    }

    /// Gives a new script to read. If allocation fails, nothing changes.
    pub fn refill(&mut self, alloc: Global, script: &[u8]) -> Result<(), AllocError>
        ensures ok { OnOk result (mem_state self.new ≡ with_script script.now (mem_state self.old)) }
        ensures err { OnErr result (mem_state self.new ≡ mem_state self.old) }
        ensures kept { KeepsCounts self.old self.new }
    {
        self.script = Vec::from_slice(alloc, script)?;
        self.taken = 0;
        Ok(())
    }

    /// Puts a file on the shelf, in place of one of that name. If allocation fails, nothing changes.
    pub fn put_shelf(&mut self, alloc: Global, name: &str, bytes: &[u8]) -> Result<(), AllocError>
        ensures ok { OnOk result (mem_state self.new ≡ with_shelf (shelved name.now (Some bytes.now) (mem_state self.old).shelf) (mem_state self.old)) }
        ensures err { OnErr result (mem_state self.new ≡ mem_state self.old) }
        ensures kept { KeepsCounts self.old self.new }
    {
        put(alloc, &mut self.shelf, name, bytes)
    }

    /// The newest value of each word.
    pub fn read_back(&self, alloc: Global) -> Result<Vec<u64>, AllocError>
        ensures len { IfOk result (λ row. vec_len row ≡ (mem_counts self.now).size) }
        ensures newest { IfOk result (λ row. (k : ℕ) → slice_index row.items k ≡ ((mem_state self.now).now.words k).newest) }
    {
        Vec::from_slice(alloc, &self.device.rows.newest)
    }

    /// Gives a word one durable value. The word then reads as if it had always had that value: at each moment that is
    /// the word's only value. The clock, the other words and what was printed do not change.
    pub fn poke(&mut self, w: u32, v: u64)
        requires { w < (mem_counts self.old).size }
        ensures told { mem_state self.new ≡ always w v (mem_state self.old) }
        ensures kept { KeepsCounts self.old self.new }
    {
        self.device.poke(w, v);
    }

    /// The bytes printed so far.
    pub fn said(&self) -> &[u8]
        ensures { result.now ≡ (mem_state self.now).now.said }
    {
        &self.device.said
    }

    /// Begins a new count of the loads of word `w` that succeed.
    pub fn watch(&mut self, w: u32)
        ensures watch { mem_watch self.new ≡ record { word = Some w; count = 0 } }
        ensures state { mem_state self.new ≡ mem_state self.old }
        ensures counts { mem_counts self.new ≡ mem_counts self.old }
        ensures turns { mem_turns self.new ≡ mem_turns self.old }
    {
        self.watch = Watch {
            word: Some(w),
            count: 0,
        };
    }

    /// How often the watched word was loaded since [`MemHost::watch`], or 0 before that. The count stops at 2^32 - 1.
    pub fn watched(&self) -> u32
        ensures { result ≡ (mem_watch self.now).count }
    {
        self.watch.count
    }

    // Counts a call that is no device step. The call fails if the plan lists it.
    fn call(&mut self) -> Result<(), HostFault>
        ensures answer { result ≡ call_result (call_fails (mem_turns self.old)) tt }
        ensures turns { mem_turns self.new ≡ after_call (mem_turns self.old) }
        ensures state { mem_state self.new ≡ mem_state self.old }
        ensures watch { mem_watch self.new ≡ mem_watch self.old }
        ensures counts { mem_counts self.new ≡ after_fault (fault_of result) (mem_counts self.old) }
    {
        if self.turns.call() {
            return Err(self.tally.fault());
        }
        Ok(())
    }

    // Counts a device step. The step fails, or power is lost in its place, if the plan, the room or an armed cut calls
    // for that. If the step is to be carried out, there is room for its moment.
    fn step(&mut self) -> Result<(), HostFault>
        ensures answer { fault_of result ≡ turn_fault (turn_of (mem_turns self.old)) }
        ensures turns { mem_turns self.new ≡ after_step (turn_of (mem_turns self.old)) (mem_turns self.old) }
        ensures state { mem_state self.new ≡ before_step (turn_of (mem_turns self.old)) (mem_state self.old) }
        ensures watch { mem_watch self.new ≡ mem_watch self.old }
        ensures counts { mem_counts self.new ≡ after_fault (fault_of result) (mem_counts self.old) }
        ensures room { OnOk result (HasStepRoom self.new) }
    {
        match self.turns.step() {
            Turn::Done => Ok(()),
            Turn::Failed => Err(self.tally.fault()),
            Turn::Cut(pick) => {
                self.device.lose(pick);
                Err(self.tally.cut())
            }
        }
    }
}

impl Host for MemHost {
    ghost use Rattle.std.specs.Prelude.{◌≢◌, IfOk, IsSome, take, option_map, length};
    ghost use Rattle.pm_model.specs.declared.host.HostFault.TheVariants as faults;
    ghost use Rattle.pm_model.specs.Words.{after_store, after_flush, after_fence, after_loss};
    ghost use Rattle.pm_model.specs.Moments.{all_said, with_script, with_shelf};
    ghost use Rattle.pm_model.specs.Counts.{after_fault, after_arm, after_loss_of, fault_of, file_fault_of};
    ghost use Rattle.pm_model.specs.Reads.{OnlyReads};
    ghost use Rattle.pm_model.specs.Calls.{Steps, CountsDown, LosesAtOnce, TakesByte, Says, LeavesFile};
    ghost use Rattle.pm_mem.specs.Events.{image_picked};
    ghost use Rattle.pm_mem.specs.Turns.{call_fails, after_call, call_fault, turn_of, turn_fault, after_step, after_turn, say_fails, after_say};
    ghost use Rattle.pm_mem.specs.Watches.{after_load};
    ghost use Rattle.pm_mem.specs.MemHost.{mem_tells, mem_state, mem_counts, mem_turns, mem_armed, mem_watch, call_result, next_byte, after_byte};

    ghost tells = { mem_tells };

    ghost state = { mem_state };

    ghost armed = { mem_armed };

    ghost counts = { mem_counts };

    fn words(&self) -> u32 {
        self.device.words
    }

    fn load(&mut self, w: u32) -> Result<u64, HostFault>
        requires { w < (mem_counts self.old).size }
        ensures value { mem_tells → IfOk result (λ v. v ≡ ((mem_state self.old).now.words w).newest) }
        ensures only_reads { OnlyReads mem_tells mem_state mem_counts (fault_of result) self.old self.new }
        ensures armed { mem_tells → mem_armed self.new ≡ mem_armed self.old }

        // The load fails exactly if the plan lists it. Only a load that succeeds is watched.
        ensures answer { result ≡ call_result (call_fails (mem_turns self.old)) ((mem_state self.old).now.words w).newest }
        ensures turns { mem_turns self.new ≡ after_call (mem_turns self.old) }
        ensures watch { mem_watch self.new ≡ cond (call_fails (mem_turns self.old)) (mem_watch self.old) (after_load w (mem_watch self.old)) }
    {
        self.call()?;
        self.watch.load(w);
        Ok(self.device.rows.load(w))
    }

    fn store(&mut self, w: u32, v: u64) -> Result<(), HostFault>
        requires { w < (mem_counts self.old).size }
        ensures state { mem_tells → Steps (after_store w v) (fault_of result) (mem_state self.old) (mem_state self.new) }
        ensures armed { mem_tells → CountsDown (fault_of result) (mem_armed self.old) (mem_armed self.new) }
        ensures cause { mem_counts self.new ≡ after_fault (fault_of result) (mem_counts self.old) }

        // The state before the step decides what becomes of the step and what is left of the words.
        ensures answer { fault_of result ≡ turn_fault (turn_of (mem_turns self.old)) }
        ensures left { mem_state self.new ≡ after_turn (after_store w v) (turn_of (mem_turns self.old)) (mem_state self.old) }
        ensures turns { mem_turns self.new ≡ after_step (turn_of (mem_turns self.old)) (mem_turns self.old) }
        ensures watch { mem_watch self.new ≡ mem_watch self.old }
    {
        self.step()?;
        self.device.store(w, v);
        Ok(())
    }

    fn flush(&mut self, line: u32) -> Result<(), HostFault>
        requires { line < (mem_counts self.old).size / 8 }
        ensures state { mem_tells → Steps (after_flush line) (fault_of result) (mem_state self.old) (mem_state self.new) }
        ensures armed { mem_tells → CountsDown (fault_of result) (mem_armed self.old) (mem_armed self.new) }
        ensures cause { mem_counts self.new ≡ after_fault (fault_of result) (mem_counts self.old) }

        ensures answer { fault_of result ≡ turn_fault (turn_of (mem_turns self.old)) }
        ensures left { mem_state self.new ≡ after_turn (after_flush line) (turn_of (mem_turns self.old)) (mem_state self.old) }
        ensures turns { mem_turns self.new ≡ after_step (turn_of (mem_turns self.old)) (mem_turns self.old) }
        ensures watch { mem_watch self.new ≡ mem_watch self.old }
    {
        self.step()?;
        self.device.flush(line);
        Ok(())
    }

    fn fence(&mut self) -> Result<(), HostFault>
        ensures state { mem_tells → Steps after_fence (fault_of result) (mem_state self.old) (mem_state self.new) }
        ensures armed { mem_tells → CountsDown (fault_of result) (mem_armed self.old) (mem_armed self.new) }
        ensures cause { mem_counts self.new ≡ after_fault (fault_of result) (mem_counts self.old) }

        ensures answer { fault_of result ≡ turn_fault (turn_of (mem_turns self.old)) }
        ensures left { mem_state self.new ≡ after_turn after_fence (turn_of (mem_turns self.old)) (mem_state self.old) }
        ensures turns { mem_turns self.new ≡ after_step (turn_of (mem_turns self.old)) (mem_turns self.old) }
        ensures watch { mem_watch self.new ≡ mem_watch self.old }
    {
        self.step()?;
        self.device.fence();
        Ok(())
    }

    fn cut(&mut self, pick: u64)
        ensures state { mem_tells → LosesAtOnce (mem_state self.old) (mem_state self.new) }
        ensures armed { mem_tells → mem_armed self.new ≡ mem_armed self.old }
        ensures counted { mem_counts self.new ≡ after_loss_of pick (mem_counts self.old) }

        // If no step came since the last power loss, each word already has only the value that is left, so this loss
        // changes none.
        ensures left { (mem_state self.new).now.words ≡ after_loss (image_picked pick (mem_state self.old).now.words) (mem_state self.old).now.words }
        ensures turns { mem_turns self.new ≡ mem_turns self.old }
        ensures watch { mem_watch self.new ≡ mem_watch self.old }
    {
        self.tally.loss(pick);
        if self.device.moved {
            self.device.lose(pick);
        }
    }

    fn arm(&mut self, steps: u32, pick: u64)
        requires { 1 ≤ steps }
        ensures state { mem_tells → mem_state self.new ≡ mem_state self.old }
        ensures armed { mem_tells → mem_armed self.new ≡ Some (record { steps = steps; pick = pick }) }
        ensures counted { mem_counts self.new ≡ after_arm steps pick (mem_counts self.old) }

        ensures turns { mem_turns self.new ≡ record (mem_turns self.old) { armed = Some (record { steps = steps; pick = pick }) } }
        ensures watch { mem_watch self.new ≡ mem_watch self.old }
    {
        self.tally.arm(steps, pick);
        self.turns.armed = Some(Armed { steps, pick });
    }

    fn read(&mut self) -> Result<Option<u8>, HostFault>
        ensures taken { mem_tells → IfOk result (λ byte. TakesByte byte (mem_state self.old) (mem_state self.new)) }
        ensures failed { mem_tells → OnErr result (mem_state self.new ≡ mem_state self.old) }
        ensures armed { mem_tells → mem_armed self.new ≡ mem_armed self.old }
        ensures cause { mem_counts self.new ≡ after_fault (fault_of result) (mem_counts self.old) }
        ensures never_cut { fault_of result ≢ Some faults.Cut }

        ensures answer { result ≡ call_result (call_fails (mem_turns self.old)) (next_byte (mem_state self.old).script) }
        ensures left { mem_state self.new ≡ cond (call_fails (mem_turns self.old)) (mem_state self.old) (with_script (after_byte (mem_state self.old).script) (mem_state self.old)) }
        ensures turns { mem_turns self.new ≡ after_call (mem_turns self.old) }
        ensures watch { mem_watch self.new ≡ mem_watch self.old }
    {
        self.call()?;
        if self.taken < self.script.len() {
            let byte = self.script[self.taken];
            self.taken += 1;
            Ok(Some(byte))
        } else {
            Ok(None)
        }
    }

    /// Prints the bytes, all of them or none.
    fn say(&mut self, bytes: &[u8]) -> Result<(), HostFault>
        ensures said { mem_tells → Says bytes.now (fault_of result) (mem_state self.old) (mem_state self.new) }
        ensures armed { mem_tells → mem_armed self.new ≡ mem_armed self.old }
        ensures cause { mem_counts self.new ≡ after_fault (fault_of result) (mem_counts self.old) }
        ensures never_cut { fault_of result ≢ Some faults.Cut }

        ensures answer { result ≡ call_result (say_fails (length bytes.now) (mem_turns self.old)) tt }
        ensures left { mem_state self.new ≡ cond (say_fails (length bytes.now) (mem_turns self.old)) (mem_state self.old) (all_said bytes.now (mem_state self.old)) }
        ensures turns { mem_turns self.new ≡ after_say (length bytes.now) (mem_turns self.old) }
        ensures watch { mem_watch self.new ≡ mem_watch self.old }
    {
        if self.turns.say(bytes.len()) {
            return Err(self.tally.fault());
        }
        self.device.say(bytes);
        Ok(())
    }

    fn file_get(&mut self, alloc: Global, name: &str) -> Result<Option<Vec<u8>>, FileFault>
        ensures found { mem_tells → IfOk result (λ found.
            option_map (λ bytes. bytes.items) found ≡ option_map (take FILE_READ_LIMIT) ((mem_state self.old).shelf name.now)) }
        ensures memory { mem_tells → result ≡ Err FileFault.Memory → IsSome ((mem_state self.old).shelf name.now) }
        ensures state { mem_tells → mem_state self.new ≡ mem_state self.old }
        ensures armed { mem_tells → mem_armed self.new ≡ mem_armed self.old }
        ensures cause { mem_counts self.new ≡ after_fault (file_fault_of result) (mem_counts self.old) }
        ensures never_cut { file_fault_of result ≢ Some faults.Cut }

        ensures answer { file_fault_of result ≡ call_fault (call_fails (mem_turns self.old)) }
        ensures turns { mem_turns self.new ≡ after_call (mem_turns self.old) }
        ensures watch { mem_watch self.new ≡ mem_watch self.old }
    {
        if let Err(fault) = self.call() {
            return Err(FileFault::Host(fault));
        }
        match self.shelf.get(name) {
            None => Ok(None),
            Some(file) => {
                let len = FILE_READ_LIMIT.min(file.len());
                match Vec::from_slice(alloc, &file[..len]) {
                    Ok(bytes) => Ok(Some(bytes)),
                    Err(_) => Err(FileFault::Memory),
                }
            }
        }
    }

    /// Replaces the whole file of that name. At an error no file changes.
    fn file_put(&mut self, alloc: Global, name: &str, bytes: &[u8]) -> Result<(), FileFault>
        ensures put { mem_tells → IfOk result (λ _. mem_state self.new
            ≡ with_shelf (shelved name.now (Some bytes.now) (mem_state self.old).shelf) (mem_state self.old)) }
        ensures memory { mem_tells → result ≡ Err FileFault.Memory → mem_state self.new ≡ mem_state self.old }
        ensures failed { mem_tells → LeavesFile name.now (mem_state self.old) (mem_state self.new) }
        ensures armed { mem_tells → mem_armed self.new ≡ mem_armed self.old }
        ensures cause { mem_counts self.new ≡ after_fault (file_fault_of result) (mem_counts self.old) }
        ensures never_cut { file_fault_of result ≢ Some faults.Cut }

        ensures answer { file_fault_of result ≡ call_fault (call_fails (mem_turns self.old)) }
        ensures kept { OnErr result (mem_state self.new ≡ mem_state self.old) }
        ensures turns { mem_turns self.new ≡ after_call (mem_turns self.old) }
        ensures watch { mem_watch self.new ≡ mem_watch self.old }
    {
        if let Err(fault) = self.call() {
            return Err(FileFault::Host(fault));
        }
        match put(alloc, &mut self.shelf, name, bytes) {
            Ok(()) => Ok(()),
            Err(_) => Err(FileFault::Memory),
        }
    }
}

// Puts a file into a map. If allocation fails, the map does not change.
fn put(
    alloc: Global,
    shelf: &mut BTreeMap<String, Vec<u8>>,
    name: &str,
    bytes: &[u8],
) -> Result<(), AllocError>
    ensures ok { OnOk result (shelf_of shelf.new ≡ shelved name.now (Some bytes.now) (shelf_of shelf.old)) }
    ensures err { OnErr result (shelf_of shelf.new ≡ shelf_of shelf.old) }
{
    let key = String::from_str(alloc, name)?;
    let file = Vec::from_slice(alloc, bytes)?;
    shelf.insert(key, file)?;
    Ok(())
}
