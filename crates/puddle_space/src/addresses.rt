//! Finds the frame and the word in which an address lies.

ghost use Rattle.std.specs.Prelude.{◌≡◌, ◌+◌, ◌-◌, ◌/◌, ◌<◌, ◌≤◌, ℕ, Option, option_map, IfOk, IfSome};
ghost use Rattle.pm_model.specs.Words.{Image, reads};
ghost use Rattle.pm_model.specs.Counts.{fault_of};
ghost use Rattle.pm_model.specs.Reads.{OnlyReads};
ghost use Rattle.pud_defs.specs.declared.layout.TheConstants.{FRAME_WORDS};
ghost use Rattle.pud_defs.specs.declared.space.TheConstants.{WORD_BYTES};
ghost use Rattle.pud_defs.specs.Formats.Layout.{tables_end};
ghost use Rattle.pud_defs.specs.RegistryTables.Puddles.{puddle_at};
ghost use Rattle.pud_defs.specs.RegistryTables.Tables.{Tables, tables_of};
ghost use Rattle.pud_defs.specs.RegistryTables.Places.{word_in, located};
ghost use Rattle.puddle_space.specs.Within.{IsPlaceIn};
ghost use Rattle.puddle_space.specs.Nearby.{base_of_member, IsInGap, AreNeighbours, IsNearby};

use pm_model::{Host, HostFault};
use pud_defs::layout::{MAX_FRAMES, puddle_record_at};
use pud_defs::records::{MAX_PUDDLES, PUDDLE_BASE_WORD};
use pud_defs::space::{RANGE_BYTES, WORD_BYTES};

/// The word in which the address lies, if the range that begins at `base` contains it.
fn word_in(base: u64, address: u64) -> Option<u32>
    ensures word { result ≡ word_in base address }
    ensures within { IfSome result (λ word. word < FRAME_WORDS) }
{
    if address < base || address - base >= RANGE_BYTES {
        return None;
    }
    Some(((address - base) / u64::from(WORD_BYTES)) as u32)
}

/// Loads the base of the frame's puddle, or returns None if the frame has none.
fn base_of<H: Host>(h: &mut H, frame: u32) -> Result<Option<u64>, HostFault>
    requires known { frame < MAX_FRAMES }
    requires table { tables_end (frame + 1) ≤ (H.counts h.old).size }
    ensures base { H.tells → (image : Image) → reads (H.state h.old).now.words ≡ image → IfOk result (λ base. base ≡ option_map base_of_member (puddle_at image frame)) }
    ensures only_reads { OnlyReads H.tells H.state H.counts (fault_of result) h.old h.new }
{
    let record = puddle_record_at(frame);
    if h.load(record)? == 0 {
        return Ok(None);
    }
    let base = h.load(record + PUDDLE_BASE_WORD)?;
    Ok(Some(base))
}

/// The addresses around one that lie in no range of the frames passed so far: from `low` to before `high`.
#[derive(Clone, Copy)]
struct Gap {
    low: u64,
    high: u64,
}

impl Gap {
    /// The part of the gap that lies on the address's side of the range that begins at `base`. This range does not
    /// contain the address.
    fn beside(self, base: u64, address: u64) -> Gap
        ensures { (x : ℕ) → IsInGap result x → IsInGap self x × (word_in base x ≡ Option.None) }
    {
        if address < base {
            return Gap {
                low: self.low,
                high: self.high.min(base),
            };
        }
        Gap {
            low: self.low.max(base.saturating_add(RANGE_BYTES)),
            high: self.high,
        }
    }

    /// The part of the gap that lies in the range that begins at `base`, which is the range of this frame.
    fn inside(self, base: u64, frame: u32) -> Neighbours
        ensures frame { result.frame ≡ frame }
        ensures each { (x : ℕ) → result.from ≤ x → x < result.end → IsInGap self x × (word_in base x ≡ Option.Some ((x - result.base) / WORD_BYTES)) }
    {
        Neighbours {
            from: self.low.max(base),
            end: self.high.min(base.saturating_add(RANGE_BYTES)),
            base,
            frame,
        }
    }
}

/// The addresses around one that was located: from `from` to before `end`. They lie in the same puddle, so their places
/// are known.
#[derive(Clone, Copy)]
struct Neighbours {
    from: u64,
    end: u64,
    base: u64,
    frame: u32,
}

impl Neighbours {
    /// No addresses: nothing was located.
    fn none() -> Neighbours
        ensures { (t : Tables) → AreNeighbours t result }
    {
        Neighbours {
            from: 0,
            end: 0,
            base: 0,
            frame: 0,
        }
    }

    /// The place of the address, if it is one of these and the frame is below `frames`.
    fn place(&self, frames: u32, address: u64) -> Option<(u32, u32)>
        ensures place { (t : Tables) → AreNeighbours t self.now → IfSome result (λ place. located t address ≡ Option.Some place) }
        ensures within { IfSome result (IsPlaceIn frames) }
    {
        if address < self.from || address >= self.end || self.frame >= frames {
            return None;
        }
        match word_in(self.base, address) {
            Some(word) => Some((self.frame, word)),
            None => None,
        }
    }
}

/// The neighbours of the last 16 addresses that a search found, as many as a pool may have puddles. The place of an
/// address among them costs no search. If the puddle table is sound, the neighbours of an address are all addresses of
/// its puddle's range.
#[derive(Drop)]
pub struct Nearby {
    known: [Neighbours; MAX_PUDDLES as usize],
    next: u32,
}

impl Nearby {
    /// No neighbours: nothing was searched yet.
    pub fn none() -> Nearby
        ensures { (t : Tables) → IsNearby t result }
    {
        Nearby {
            known: [Neighbours::none(); MAX_PUDDLES as usize],
            next: 0,
        }
    }

    /// The place of the address, if it is one of these and the frame is below `frames`.
    fn place(&self, frames: u32, address: u64) -> Option<(u32, u32)>
        ensures place { (t : Tables) → IsNearby t self.now → IfSome result (λ place. located t address ≡ Option.Some place) }
        ensures within { IfSome result (IsPlaceIn frames) }
    {
        for neighbours in &self.known {
            if let Some(place) = neighbours.place(frames, address) {
                return Some(place);
            }
        }
        None
    }

    /// Keeps these neighbours in place of the oldest ones.
    fn keep(&mut self, neighbours: Neighbours)
        ensures { (t : Tables) → IsNearby t self.old → AreNeighbours t neighbours → IsNearby t self.new }
    {
        let at = self.next % MAX_PUDDLES;
        self.known[at as usize] = neighbours;
        self.next = at + 1;
    }

    /// Returns the frame and the word in which the address lies, or None exactly if no puddle's range contains the
    /// address. An address that is no multiple of 8 lies in the word into which it falls. If the puddle table is not
    /// sound and the ranges of several puddles contain the address, the lowest frame counts.
    ///
    /// By the table that the device has now, the kept addresses must be neighbours of some that were located. This then
    /// stays true, and the call also keeps the neighbours of this address if it has a place. For an address among the
    /// kept ones no word is loaded. For any other address the call takes one load for each frame and one more for each
    /// puddle, up to the puddle that contains it.
    pub fn locate<H: Host>(
        &mut self,
        h: &mut H,
        frames: u32,
        address: u64,
    ) -> Result<Option<(u32, u32)>, HostFault>
        requires few { frames ≤ MAX_FRAMES }
        requires table { tables_end frames ≤ (H.counts h.old).size }
        ensures located { H.tells → (image : Image) → reads (H.state h.old).now.words ≡ image → IsNearby (tables_of frames image) self.old
            → IfOk result (λ found. found ≡ located (tables_of frames image) address) }
        ensures nearby { H.tells → (image : Image) → reads (H.state h.old).now.words ≡ image → IsNearby (tables_of frames image) self.old
            → IsNearby (tables_of frames image) self.new }
        ensures within { IfOk result (λ found. IfSome found (IsPlaceIn frames)) }
        ensures only_reads { OnlyReads H.tells H.state H.counts (fault_of result) h.old h.new }
    {
        if let Some(place) = self.place(frames, address) {
            return Ok(Some(place));
        }
        let mut neighbours = Neighbours::none();
        let place = search(h, frames, address, &mut neighbours)?;
        if place.is_some() {
            self.keep(neighbours);
        }
        Ok(place)
    }
}

/// Searches the puddle table for the place of an address. If there is one, the call also gives the addresses around it.
fn search<H: Host>(
    h: &mut H,
    frames: u32,
    address: u64,
    neighbours: &mut Neighbours,
) -> Result<Option<(u32, u32)>, HostFault>
    requires few { frames ≤ MAX_FRAMES }
    requires table { tables_end frames ≤ (H.counts h.old).size }
    ensures located { H.tells → (image : Image) → reads (H.state h.old).now.words ≡ image → IfOk result (λ found. found ≡ located (tables_of frames image) address) }
    ensures neighbours { H.tells → (image : Image) → reads (H.state h.old).now.words ≡ image → AreNeighbours (tables_of frames image) neighbours.old
        → AreNeighbours (tables_of frames image) neighbours.new }
    ensures within { IfOk result (λ found. IfSome found (IsPlaceIn frames)) }
    ensures only_reads { OnlyReads H.tells H.state H.counts (fault_of result) h.old h.new }
{
    let mut gap = Gap {
        low: 0,
        high: u64::MAX,
    };
    for frame in 0..frames {
        let Some(base) = base_of(h, frame)? else {
            continue;
        };
        if let Some(word) = word_in(base, address) {
            *neighbours = gap.inside(base, frame);
            return Ok(Some((frame, word)));
        }
        gap = gap.beside(base, address);
    }
    Ok(None)
}
