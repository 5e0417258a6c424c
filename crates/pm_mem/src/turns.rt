//! Which call comes next, and what becomes of it by the plan, the room and an armed cut.
ghost use Rattle.std.specs.Prelude.{◌≡◌, ◌≤◌};
ghost use Rattle.pm_mem.specs.Turns.{planned, armed_now, call_fails, after_call, say_fails, after_say, turn_of, after_step};

use crate::plan::Plan;
use pm_model::{Armed, counted_down};

/// What becomes of a device step.
#[derive(Clone, Copy, Debug)]
pub enum Turn {
    Done,
    Failed,
    /// Power is lost, with that pick.
    Cut(u64),
}

/// How many calls and device steps there were, and what is to become of later ones.
#[derive(Debug, Drop)]
pub struct Turns {
    pub plan: Plan,
    /// The calls so far that might fail. The count stops at 2^32 - 1.
    pub calls: u32,
    /// The device steps so far.
    pub steps: u32,
    /// The number of device steps that there is room for.
    pub limit: u32,
    /// The number of bytes that may still be printed.
    pub room: u32,
    pub armed: Option<Armed>,
}

impl Turns {
    /// The state before the first call.
    pub fn new(plan: Plan, limit: u32, room: u32) -> Turns
        ensures { result ≡ record { plan = plan; calls = 0; steps = 0; limit = limit; room = room; armed = None } }
    {
        Turns {
            plan,
            calls: 0,
            steps: 0,
            limit,
            room,
            armed: None,
        }
    }

    /// Counts a call that may fail. Returns whether it fails by the plan.
    pub fn call(&mut self) -> bool
        ensures fails { result ≡ call_fails self.old }
        ensures counted { self.new ≡ after_call self.old }
    {
        self.calls = self.calls.saturating_add(1);
        self.plan.fails.contains(&self.calls) && self.calls < u32::MAX
    }

    /// Counts a call that prints so many bytes. Returns whether it fails by the plan or for lack of room.
    pub fn say(&mut self, len: usize) -> bool
        ensures fails { result ≡ say_fails len self.old }
        ensures counted { self.new ≡ after_say len self.old }
    {
        if self.call() || (self.room as usize) < len {
            return true;
        }
        self.room -= len as u32;
        false
    }

    /// Counts a call that is a device step. Returns what becomes of it.
    pub fn step(&mut self) -> Turn
        requires { self.old.steps ≤ self.old.limit }
        ensures turn { result ≡ turn_of self.old }
        ensures counted { self.new ≡ after_step (turn_of self.old) self.old }
    {
        if self.call() || self.steps == self.limit {
            return Turn::Failed;
        }
        self.steps += 1;
        match pick_at(&self.plan.cuts, self.steps).or(pick_now(self.armed)) {
            Some(pick) => {
                self.armed = None;
                Turn::Cut(pick)
            }
            None => {
                self.armed = counted_down(self.armed);
                Turn::Done
            }
        }
    }
}

// The pick of the first entry that lists the step.
fn pick_at(cuts: &[(u32, u64)], step: u32) -> Option<u64>
    ensures { result ≡ planned cuts.now step }
{
    for cut in cuts {
        if cut.0 == step {
            return Some(cut.1);
        }
    }
    None
}

// The pick of an armed cut that is due at the next step.
fn pick_now(armed: Option<Armed>) -> Option<u64>
    ensures { result ≡ armed_now armed }
{
    match armed {
        Some(arm) if arm.steps <= 1 => Some(arm.pick),
        _ => None,
    }
}
