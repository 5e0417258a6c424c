//! Where the puddles of all pools are, as one pass over the table finds them.

ghost use Rattle.std.specs.Prelude.{◌≡◌, ◌+◌, ◌*◌, ◌<◌, ◌≤◌, ℕ, List, [], ◌∷◌, ◌++◌, length, Option, IfOk, IfSome, replicate, slice_get, set};
ghost use Rattle.arrayvec.specs.ArrayVec.{array_vec_len};
ghost use Rattle.pm_model.specs.Words.{reads};
ghost use Rattle.pm_model.specs.Counts.{fault_of};
ghost use Rattle.pm_model.specs.Reads.{OnlyReads};
ghost use Rattle.pud_defs.specs.declared.layout.TheConstants.{MAX_FRAMES};
ghost use Rattle.pud_defs.specs.declared.records.TheConstants.{POOL_RECORDS, MAX_PUDDLES};
ghost use Rattle.pud_defs.specs.declared.records.Puddle.{Puddle};
ghost use Rattle.pud_defs.specs.Formats.Image.{Image};
ghost use Rattle.pud_defs.specs.Formats.Layout.{tables_end};
ghost use Rattle.pud_defs.specs.RegistryTables.Puddles.{moved_to};
ghost use Rattle.pud_defs.specs.RegistryTables.Tables.{tables_of, puddle_in, puddles_in_turn};
ghost use Rattle.pud_defs.specs.PoolGraphs.Stored.{IsOnDevice};
ghost use Rattle.puddle_table.specs.declared.places.TheConstants.{PLACES};
ghost use Rattle.puddle_table.specs.Records.{IsFrame};
ghost use Rattle.puddle_table.specs.Placed.{Placed, AreFramesBelow, PutsFrame, PutsMember, HoldsPlaces};

use crate::{read_puddle, read_record};
use arrayvec::ArrayVec;
use pm_model::{Host, HostFault};
use pud_defs::layout::puddle_record_at;
use pud_defs::records::{
    MAX_PUDDLES, POOL_RECORDS, Puddle, PuddleRecord, member_ordinal, member_pool,
};
use std::marker::Model;

/// How many puddles all pools together may have, 512.
const PLACES: usize = (POOL_RECORDS * MAX_PUDDLES) as usize;

/// Which frame has which puddle of which pool, and how many of the frames have one.
#[derive(Drop)]
pub struct Places {
    /// How many frames the device has.
    count: u32,
    /// How many of them have a puddle, whatever its pool is.
    used: u32,
    /// The frames of the puddles, by the pool's slot and then by the puddle's ordinal.
    frames: [Option<u32>; PLACES],
}

impl Model for Places {
    ghost Value = { Placed };

    ghost view = { λ p. record { count = p.count; used = p.used; frames = p.frames } };

    ghost invariant = { λ p. (p.count ≤ MAX_FRAMES) × (p.used ≤ p.count) × AreFramesBelow p.count p.frames };
}

/// The puddles of one pool as they are read, each with its frame, in the order of their ordinals from 0 on: at most 16.
#[derive(Drop)]
pub struct Puddles {
    puddles: ArrayVec<(u32, Puddle), 16>,
}

impl Model for Puddles {
    ghost Value = { List (ℕ × Puddle) };

    ghost view = { λ p. p.puddles.items };

    ghost invariant = { λ p. array_vec_len p.puddles ≤ MAX_PUDDLES };
}

impl Puddles {
    /// No puddle was read yet.
    fn none() -> Puddles
        ensures { result ≡ [] }
    {
        Puddles {
            puddles: ArrayVec::new(),
        }
    }

    /// Adds the puddle of the next ordinal and its frame after the others. There are at most 15 others.
    pub fn push(&mut self, frame: u32, puddle: Puddle)
        requires { length self.old < MAX_PUDDLES }
        ensures { self.new ≡ self.old ++ (frame, puddle) ∷ [] }
    {
        self.puddles.push((frame, puddle));
    }

    /// Sets the frontier of the puddle of an ordinal to `to`.
    pub fn move_frontier(&mut self, ordinal: u32, to: u32)
        requires { ordinal < length self.old }
        ensures { (e : ℕ × Puddle) → slice_get self.old ordinal ≡ Option.Some e → self.new ≡ set self.old ordinal (e.0, moved_to to e.1) }
    {
        let (frame, puddle) = self.puddles.as_slice()[ordinal as usize];
        let moved = Puddle {
            frontier: to,
            ..puddle
        };
        self.puddles.as_mut_slice()[ordinal as usize] = (frame, moved);
    }

    /// The puddles, each with its frame, in the order of their ordinals.
    pub fn as_slice(&self) -> &[(u32, Puddle)]
        ensures puddles { result.now ≡ self.now }
        ensures few { length result.now ≤ MAX_PUDDLES }
    {
        self.puddles.as_slice()
    }
}

/// The place of this ordinal of the pool in this slot.
const fn place(pool: u32, ordinal: u32) -> usize
    requires pool { pool < POOL_RECORDS }
    requires ordinal { ordinal < MAX_PUDDLES }
    ensures place { result ≡ MAX_PUDDLES * pool + ordinal }
    ensures within { result < PLACES }
{
    (MAX_PUDDLES * pool + ordinal) as usize
}

/// The places of `count` frames, before one of them is put.
const fn no_places(count: u32) -> Places
    requires { count ≤ MAX_FRAMES }
    ensures { result ≡ record { count = count; used = 0; frames = replicate PLACES Option.None } }
{
    Places {
        count,
        used: 0,
        frames: [None; PLACES],
    }
}

/// Puts the frame into the place that the member word names, if it names one.
fn put_frame(frames: &mut [Option<u32>; PLACES], frame: u32, member: u64)
    ensures put { PutsFrame frame member frames.old frames.new }
    ensures within { (count : ℕ) → frame < count → AreFramesBelow count frames.old → AreFramesBelow count frames.new }
{
    let pool = member_pool(member);
    let ordinal = member_ordinal(member);
    if pool >= 1 && pool <= POOL_RECORDS && ordinal < MAX_PUDDLES {
        frames[place(pool - 1, ordinal)] = Some(frame);
    }
}

impl Places {
    /// How many records of the table are used, whatever they name.
    pub fn used(&self) -> u32
        ensures { result ≡ (self.now).used }
    {
        self.used
    }

    /// Counts the frame if its record is used, which means that the member word is not 0. Puts the frame into the place
    /// that the member word names, if it names one, and so replaces a frame that was put there before.
    fn put(&mut self, frame: u32, member: u64)
        requires frame { frame < (self.old).count }
        requires room { (self.old).used < (self.old).count }
        ensures { PutsMember frame member self.old self.new }
    {
        if member != 0 {
            self.used += 1;
        }
        put_frame(&mut self.frames, frame, member);
    }

    /// Returns the frame and the record of the puddle of this ordinal of the pool in this slot, or None if no used
    /// record has them. The call loads at most the words of one record and searches nothing.
    ///
    /// The device has the table whose places these are. The only errors are the host's own.
    pub fn puddle<H: Host>(
        &self,
        h: &mut H,
        pool: u32,
        ordinal: u32,
    ) -> Result<Option<(u32, PuddleRecord)>, HostFault>
        requires pool { pool < POOL_RECORDS }
        requires ordinal { ordinal < MAX_PUDDLES }
        requires table { tables_end (self.now).count ≤ (H.counts h.old).size }
        ensures found { H.tells → (image : Image) → reads (H.state h.old).now.words ≡ image → HoldsPlaces (tables_of (self.now).count image) self.now
            → IfOk result (λ found. found ≡ puddle_in (tables_of (self.now).count image) pool ordinal) }
        ensures within { IfOk result (λ found. IfSome found (IsFrame (self.now).count)) }
        ensures only_reads { OnlyReads H.tells H.state H.counts (fault_of result) h.old h.new }
    {
        match self.frames[place(pool, ordinal)] {
            None => Ok(None),
            Some(frame) => Ok(Some((frame, read_record(h, frame, pool, ordinal)?))),
        }
    }

    /// Returns the puddles of the pool in this slot, each with its frame, in the order of their ordinals from 0 up to
    /// the first ordinal that no used record has. If the tables are sound, these are all its puddles. The call loads
    /// four words for each puddle and searches nothing.
    ///
    /// The device has the table whose places these are. The only errors are the host's own.
    pub fn of_pool<H: Host>(&self, h: &mut H, pool: u32) -> Result<Puddles, HostFault>
        requires pool { pool < POOL_RECORDS }
        requires table { tables_end (self.now).count ≤ (H.counts h.old).size }
        ensures found { H.tells → (image : Image) → reads (H.state h.old).now.words ≡ image → HoldsPlaces (tables_of (self.now).count image) self.now
            → IfOk result (λ puddles. puddles ≡ puddles_in_turn (tables_of (self.now).count image) pool) }
        ensures known { IfOk result (IsOnDevice (self.now).count) }
        ensures only_reads { OnlyReads H.tells H.state H.counts (fault_of result) h.old h.new }
    {
        let mut found = Puddles::none();
        for ordinal in 0..MAX_PUDDLES {
            match self.frames[place(pool, ordinal)] {
                None => return Ok(found),
                Some(frame) => found.push(frame, read_puddle(h, frame)?),
            }
        }
        Ok(found)
    }
}

/// Finds where the puddles of all pools are, in the frames below `frames`. The call loads one word of each frame's
/// record. If several records have one pool and ordinal, the lowest frame counts.
///
/// The device has the puddle table of `frames` frames, whatever it stores. The only errors are the host's own.
pub fn find_places<H: Host>(h: &mut H, frames: u32) -> Result<Places, HostFault>
    requires few { frames ≤ MAX_FRAMES }
    requires table { tables_end frames ≤ (H.counts h.old).size }
    ensures places { H.tells → (image : Image) → reads (H.state h.old).now.words ≡ image → IfOk result (HoldsPlaces (tables_of frames image)) }
    ensures count { IfOk result (λ places. places.count ≡ frames) }
    ensures only_reads { OnlyReads H.tells H.state H.counts (fault_of result) h.old h.new }
{
    let mut found = no_places(frames);
    for frame in (0..frames).rev() {
        let member = h.load(puddle_record_at(frame))?;
        found.put(frame, member);
    }
    Ok(found)
}

/// Returns the puddles of the pool in this slot, each with its frame below `frames`, in the order of their ordinals
/// from 0 up to the first ordinal that no used record has. If the tables are sound, these are all its puddles. The call
/// loads one word for each frame and four words for each puddle.
///
/// The device has the puddle table of `frames` frames, whatever it stores. The only errors are the host's own.
pub fn find_puddles<H: Host>(h: &mut H, frames: u32, pool: u32) -> Result<Puddles, HostFault>
    requires pool { pool < POOL_RECORDS }
    requires few { frames ≤ MAX_FRAMES }
    requires table { tables_end frames ≤ (H.counts h.old).size }
    ensures found { H.tells → (image : Image) → reads (H.state h.old).now.words ≡ image → IfOk result (λ puddles. puddles ≡ puddles_in_turn (tables_of frames image) pool) }
    ensures known { IfOk result (IsOnDevice frames) }
    ensures only_reads { OnlyReads H.tells H.state H.counts (fault_of result) h.old h.new }
{
    find_places(h, frames)?.of_pool(h, pool)
}
