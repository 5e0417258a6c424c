//! Finds the map of the type of an object, if the object has room in its slot.

ghost use Rattle.std.specs.Prelude.{◌≡◌, ◌<◌, ◌≤◌, true, IfOk, IfSome};
ghost use Rattle.pm_model.specs.Words.{Image, reads};
ghost use Rattle.pm_model.specs.Counts.{fault_of};
ghost use Rattle.pm_model.specs.Reads.{OnlyReads};
ghost use Rattle.pud_defs.specs.Formats.Layout.{device_words};
ghost use Rattle.pud_defs.specs.Formats.Geometry.{ordinal_of};
ghost use Rattle.pud_defs.specs.RegistryTables.Types.{types_of, map_of};
ghost use Rattle.pud_defs.specs.PoolGraphs.Stored.{IsOnDevice, stored_in};
ghost use Rattle.pud_defs.specs.PoolGraphs.Graph.{fits_class, fitting, place_map};
ghost use Rattle.puddle_header.specs.Places.{places_in, is_slot_in};
ghost use Rattle.graph_read.specs.Reading.{class_in};

use crate::checking::type_at;
use pm_model::{HostFault, Loads};
use pud_defs::layout::{MAX_FIELDS, MAX_FRAMES, POOL_TABLE};
use pud_defs::records::Puddle;
use pud_defs::space::{SLOT_FIELDS_WORD, class_slot_words, ordinal_of};
use pud_defs::type_map::map_fields;
use type_maps::find;

/// Whether an object of a type with this map has room in a slot of a puddle of a class.
pub fn fits_class(class: u32, map_word: u64) -> bool
    ensures { result ≡ fits_class class map_word }
{
    SLOT_FIELDS_WORD + map_fields(map_word).min(MAX_FIELDS) <= class_slot_words(class)
}

/// Finds the map of the type with this id, if the type is defined and an object of it has room in a slot of a puddle of
/// this class. Only the type table is searched.
pub fn find_fitting<H: Loads>(h: &mut H, id: u64, class: u32) -> Result<Option<u64>, HostFault>
    requires { POOL_TABLE ≤ (H.counts h.old).size }
    ensures map { H.tells → (image : Image) → reads (H.state h.old).now.words ≡ image → IfOk result (λ map. map ≡ fitting class (map_of id (types_of image))) }
    ensures fits { IfOk result (λ map. IfSome map (λ m. fits_class class m ≡ true)) }
    ensures only_reads { OnlyReads H.tells H.state H.counts (fault_of result) h.old h.new }
{
    match find(h, id)? {
        Some(map_word) if fits_class(class, map_word) => Ok(Some(map_word)),
        _ => Ok(None),
    }
}

/// Finds the map of the type of the slot at a place, if the type is defined and an object of it has room in the slot.
pub(crate) fn map_at<H: Loads>(
    h: &mut H,
    frames: u32,
    pool: &[(u32, Puddle)],
    place: u32,
) -> Result<Option<u64>, HostFault>
    requires few { frames ≤ MAX_FRAMES }
    requires room { device_words frames ≤ (H.counts h.old).size }
    requires known { IsOnDevice frames pool.now }
    requires within { place < places_in pool.now }
    requires slot { is_slot_in pool.now place ≡ true }
    ensures map { H.tells → (image : Image) → reads (H.state h.old).now.words ≡ image
        → IfOk result (λ map. map ≡ place_map (types_of image) (stored_in frames pool.now image) place) }
    ensures fits { IfOk result (λ map. IfSome map (λ m. fits_class (class_in pool.now (ordinal_of place)) m ≡ true)) }
    ensures only_reads { OnlyReads H.tells H.state H.counts (fault_of result) h.old h.new }
{
    let id = type_at(h, frames, pool, place)?;
    let (_, puddle) = pool[ordinal_of(place) as usize];
    find_fitting(h, id, puddle.class)
}
