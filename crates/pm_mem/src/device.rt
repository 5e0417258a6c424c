//! A device in memory: its words, the bytes printed, and what happened at each moment.
ghost use Rattle.std.specs.Prelude.{◌≡◌, ℕ, ◌+◌, ◌*◌, ◌/◌, ◌%◌, ◌<◌, ◌≤◌, false, true, map, IfOk, slice_index, vec_len, vec_capacity};
ghost use Rattle.pm_mem.specs.Events.{told_events, blanked};
ghost use Rattle.pm_mem.specs.Rows.{AreOf, AreSingle};

use crate::event::Event;
use pm_rows::DeviceRows;
use std::alloc::{AllocError, Global};

/// The words, the printed bytes and the events since the start, from which each past moment can be told. The rows have
/// what the events made of the words, so that a load or a step need not go through the events.
#[derive(Drop)]
pub struct Device {
    pub words: u32,
    pub initial: Vec<u64>,
    pub rows: DeviceRows,
    pub said: Vec<u8>,
    pub events: Vec<Event>,
    /// Whether a device step came since power was last lost.
    pub moved: bool,
    ghost initial_len: { vec_len initial ≡ words },
    ghost lines: { words ≡ 8 * rows.lines },
    ghost follows: { AreOf rows.newest.items rows.marked.items rows.durable.items (told_events initial.items events.items).now.words },
    ghost replies: { said.items ≡ (told_events initial.items events.items).now.said },
    ghost single: { moved ≡ false → AreSingle (told_events initial.items events.items).now.words },
}

impl Device {
    ghost use Rattle.std.specs.Prelude.{[], length};
    ghost use Rattle.pm_model.specs.Words.{after_store, after_flush, after_fence};
    ghost use Rattle.pm_model.specs.Moments.{stepped, one_said, all_said};
    ghost use Rattle.pm_mem.specs.Events.{after_pick, always, fresh_state};
    ghost use Rattle.pm_mem.specs.Device.{device_state, GoesTo};

    /// A device of zero words, with room for so many moments and so many printed bytes.
    pub fn new(
        alloc: Global,
        words: u32,
        moments: usize,
        replies: usize,
    ) -> Result<Device, AllocError>
        requires { words % 8 ≡ 0 }
        ensures words { IfOk result (λ device. device.words ≡ words) }
        ensures state { IfOk result (λ device. device_state device ≡ fresh_state []) }
        ensures events { IfOk result (λ device. vec_len device.events ≡ 0) }
        ensures said { IfOk result (λ device. vec_len device.said ≡ 0) }
        ensures moment_room { IfOk result (λ device. vec_capacity device.events ≡ moments) }
        ensures reply_room { IfOk result (λ device. vec_capacity device.said ≡ replies) }
        ensures moved { IfOk result (λ device. device.moved ≡ false) }
    {
        Ok(Device {
            words,
            initial: zeroes(alloc, words)?,
            rows: DeviceRows::new(alloc, words / 8, zeroes(alloc, words)?)?,
            said: Vec::with_capacity(alloc, replies)?,
            events: Vec::with_capacity(alloc, moments)?,
            moved: false,
        })
    }

    pub fn store(&mut self, word: u32, value: u64)
        requires within { word < self.old.words }
        requires room { vec_len self.old.events < vec_capacity self.old.events }
        ensures { GoesTo (stepped (after_store word value) (device_state self.old)) true 1 0 self.old self.new }
    {
        self.rows.store(word, value);
        self.events.push_reserved(Event::Store(word, value));
        self.moved = true;
    }

    pub fn flush(&mut self, line: u32)
        requires within { 8 * line + 8 ≤ self.old.words }
        requires room { vec_len self.old.events < vec_capacity self.old.events }
        ensures { GoesTo (stepped (after_flush line) (device_state self.old)) true 1 0 self.old self.new }
    {
        self.rows.flush(line);
        self.events.push_reserved(Event::Flush(line));
        self.moved = true;
    }

    pub fn fence(&mut self)
        requires { vec_len self.old.events < vec_capacity self.old.events }
        ensures { GoesTo (stepped after_fence (device_state self.old)) true 1 0 self.old self.new }
    {
        self.rows.take_marked();
        self.rows.forget_settled();
        self.events.push_reserved(Event::Fence);
        self.moved = true;
    }

    /// Loses power, with that pick.
    pub fn lose(&mut self, pick: u64)
        requires { vec_len self.old.events < vec_capacity self.old.events }
        ensures { GoesTo (after_pick pick (device_state self.old)) false 1 0 self.old self.new }
    {
        self.rows.choose(pick);
        self.rows.take_marked();
        self.rows.forget_settled();
        self.events.push_reserved(Event::Lost(pick));
        self.moved = false;
    }

    pub fn say(&mut self, bytes: &[u8])
        requires room { vec_len self.old.events + length bytes.now ≤ vec_capacity self.old.events }
        requires reply_room { vec_len self.old.said + length bytes.now ≤ vec_capacity self.old.said }
        ensures { GoesTo (all_said bytes.now (device_state self.old)) self.old.moved (length bytes.now) (length bytes.now) self.old self.new }
    {
        for byte in bytes {
            self.say_one(*byte);
        }
    }

    fn say_one(&mut self, byte: u8)
        requires room { vec_len self.old.events < vec_capacity self.old.events }
        requires reply_room { vec_len self.old.said < vec_capacity self.old.said }
        ensures { GoesTo (one_said byte (device_state self.old)) self.old.moved 1 1 self.old self.new }
    {
        self.said.push_reserved(byte);
        self.events.push_reserved(Event::Said(byte));
    }

    /// Gives a word one durable value, as if it had always had that value and no other.
    pub fn poke(&mut self, word: u32, value: u64)
        requires { word < self.old.words }
        ensures { GoesTo (always word value (device_state self.old)) self.old.moved 0 0 self.old self.new }
    {
        blank(&mut self.events, word);
        self.initial[word as usize] = value;
        self.rows.poke(word, value);
    }
}

// A row of zeroes.
fn zeroes(alloc: Global, words: u32) -> Result<Vec<u64>, AllocError>
    ensures len { IfOk result (λ row. vec_len row ≡ words) }
    ensures zero { IfOk result (λ row. (k : ℕ) → slice_index row.items k ≡ 0) }
{
    vec![in alloc; 0; words as usize]
}

// Replaces each store to that word by an event that changes nothing.
fn blank(events: &mut Vec<Event>, word: u32)
    ensures items { events.new.items ≡ map (blanked word) events.old.items }
    ensures len { vec_len events.new ≡ vec_len events.old }
    ensures capacity { vec_capacity events.new ≡ vec_capacity events.old }
{
    for at in 0..events.len() {
        events[at] = blanked(events[at], word);
    }
}

fn blanked(event: Event, word: u32) -> Event
    ensures { result ≡ blanked word event }
{
    match event {
        Event::Store(stored, _) if stored == word => Event::Blank,
        _ => event,
    }
}
