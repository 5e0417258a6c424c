//! The serials of a pool's slots, each read once.

ghost use Rattle.std.specs.Prelude.{◌≡◌, ◌≤◌, slice_index, Option, IfOk};
ghost use Rattle.pm_model.specs.Words.{reads};
ghost use Rattle.pm_model.specs.Counts.{fault_of};
ghost use Rattle.pm_model.specs.Reads.{OnlyReads};
ghost use Rattle.pud_defs.specs.PoolGraphs.Graph.{named_by};
ghost use Rattle.pud_defs.specs.Formats.Image.{Image};
ghost use Rattle.pud_defs.specs.Formats.Layout.{device_words};
ghost use Rattle.pud_defs.specs.PoolGraphs.Stored.{IsOnDevice, stored_in};
ghost use Rattle.graph_read.specs.Checking.{content_of, serials_in, HasSerialsInSlots};

use crate::places::slots_end;
use pm_model::{HostFault, Loads};
use pud_defs::layout::MAX_FRAMES;
use pud_defs::objects::Pointee;
use pud_defs::records::Puddle;
use pud_defs::space::{MAX_PLACES, place_at, places_among};
use puddle_header::serial_at;

/// The most places that a pool has.
pub(crate) const PLACES: usize = MAX_PLACES as usize;

/// The serials of a pool by place: 0 for a free slot, 0 for a place that is no slot, and 0 after the last place.
pub(crate) type Serials = [u64; PLACES];

/// Reads the serials of a pool.
pub(crate) fn read_serials<H: Loads>(
    h: &mut H,
    frames: u32,
    pool: &[(u32, Puddle)],
) -> Result<Serials, HostFault>
    requires few { frames ≤ MAX_FRAMES }
    requires room { device_words frames ≤ (H.counts h.old).size }
    requires known { IsOnDevice frames pool.now }
    ensures serials { H.tells → (image : Image) → reads (H.state h.old).now.words ≡ image
        → IfOk result (λ serials. slice_index serials ≡ serials_in (stored_in frames pool.now image)) }
    ensures slots { IfOk result (λ serials. HasSerialsInSlots pool.now (slice_index serials)) }
    ensures only_reads { OnlyReads H.tells H.state H.counts (fault_of result) h.old h.new }
{
    let mut serials = [0; PLACES];
    for ordinal in 0..pool.len() as u32 {
        for place in places_among(ordinal)..slots_end(pool, ordinal) {
            serials[place as usize] = serial_at(h, frames, pool, place)?;
        }
    }
    Ok(serials)
}

/// The serial of the object to which a pointer leads, or 0 if it leads to none.
pub(crate) fn named(serials: &Serials, pointee: Option<Pointee>) -> u64
    ensures { result ≡ named_by (slice_index serials.now) (content_of pointee) }
{
    match pointee {
        Some(Pointee::At { ordinal, slot }) => {
            let place = place_at(ordinal, slot) as usize;
            serials.get(place).copied().unwrap_or(0)
        }
        Some(Pointee::Null) | None => 0,
    }
}
