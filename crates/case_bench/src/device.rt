//! The devices in memory with which cases begin. Each word has one durable value. Nothing fails except what a plan
//! lists and what there is no room for.
use pm_mem::{MemHost, Plan};
use pm_model::Host;
use pud_defs::layout::{
    DEVICE_MAGIC, FRAMES_WORD, MACHINE_WORD, MAGIC_WORD, MAX_FRAMES, NEXT_NUMBER_WORD, VERSION,
    VERSION_WORD, device_words,
};
use std::alloc::{AllocError, Global};

/// How many device steps, and how many printed bytes, a device has room for.
#[derive(Clone, Copy)]
pub struct Room {
    pub steps: u32,
    pub bytes: u32,
}

/// The size of a device in words, and its words that are not zero, each with its newest value.
#[derive(Drop)]
pub struct Copied {
    size: u32,
    words: Vec<(u32, u64)>,
}

impl Copied {
    /// A device of zeroes with the words that this many frames take, or the most frames that a device has, if that is
    /// less.
    pub fn zeroes(alloc: Global, frames: u32) -> Copied {
        Copied {
            size: device_words(frames.min(MAX_FRAMES)),
            words: Vec::new(alloc),
        }
    }

    /// A device with this many frames and this machine id, as it is after it is formatted.
    pub fn formatted(alloc: Global, frames: u32, id: u64) -> Result<Copied, AllocError> {
        let mut device = Copied::zeroes(alloc, frames);
        device.words = Vec::from_array(
            alloc,
            [
                (MAGIC_WORD, DEVICE_MAGIC),
                (VERSION_WORD, VERSION),
                (MACHINE_WORD, id),
                (FRAMES_WORD, u64::from(frames)),
                (NEXT_NUMBER_WORD, 1),
            ],
        )?;
        Ok(device)
    }

    /// A copy of the device of this host.
    pub fn of(alloc: Global, host: &MemHost) -> Result<Copied, AllocError> {
        let newest = host.read_back(alloc)?;
        let size = host.words();
        let mut words = Vec::new(alloc);
        for (at, value) in (0..size).zip(newest.iter()) {
            if *value != 0 {
                words.push((at, *value))?;
            }
        }
        Ok(Copied { size, words })
    }

    /// A host with this device, all of it durable, and with this plan. Device steps and calls are counted from here.
    pub fn host(&self, alloc: Global, room: Room, plan: Plan) -> Result<MemHost, AllocError> {
        let lines = self.size / 8;
        let mut host = MemHost::new(alloc, lines * 8, &[], room.steps, room.bytes, plan)?;
        for (at, value) in self.words.iter() {
            let _is_there = poke(&mut host, *at, *value);
        }
        Ok(host)
    }
}

/// Gives a word one durable value. The result tells whether there is such a word.
pub fn poke(host: &mut MemHost, at: u32, value: u64) -> bool {
    if at >= host.words() {
        return false;
    }
    host.poke(at, value);
    true
}
