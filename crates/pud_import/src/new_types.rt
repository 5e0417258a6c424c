//! The types that a file brings, and free records for them.

ghost use Rattle.std.specs.Prelude.{◌≡◌, ◌<◌, ◌≤◌, Option, IfOk, All, cond, is_none, length, map};
ghost use Rattle.pm_model.specs.Words.{Image, reads};
ghost use Rattle.pm_model.specs.Reads.{OnlyReads};
ghost use Rattle.pud_defs.specs.declared.layout.TheConstants.{TYPE_RECORDS};
ghost use Rattle.pud_defs.specs.StateMachine.Imports.{types_missing};
ghost use Rattle.pud_defs.specs.StateMachine.Step.{is_clash, clashes_with};
ghost use Rattle.pud_defs.specs.RegistryTables.Types.{map_of, type_at, types_of};
ghost use Rattle.registry.specs.Placing.{type_of, HasFreeRecords};
ghost use Rattle.pud_import.specs.Contents.{types_held};
ghost use Rattle.pud_import.specs.Placing.{place_fault, refusal_in, types_refusal};

use crate::file_view::FileView;
use crate::placing::PlaceFault;
use arrayvec::ArrayVec;
use pm_model::Host;
use pud_defs::layout::{POOL_TABLE, TYPE_RECORDS};
use registry::NewType;
use type_maps::{find, free_records};

/// How many types a file has at most.
const TYPES: usize = TYPE_RECORDS as usize;

/// Types, each an id and its map.
pub(crate) type Types = ArrayVec<(u32, u64), { TYPES }>;

/// Types in free records.
pub(crate) type NewTypes = ArrayVec<NewType, { TYPES }>;

/// Whether the type is not defined. `Clash` comes exactly if it is defined with another map, unless the host fails
/// first.
fn is_missing<H: Host>(h: &mut H, id: u32, map: u64) -> Result<bool, PlaceFault>
    requires { POOL_TABLE ≤ (H.counts h.old).size }
    ensures refusal { H.tells → (image : Image) → reads (H.state h.old).now.words ≡ image → place_fault result ≡ Option.None
        → refusal_in result ≡ cond (is_clash (types_of image) id map) (Option.Some PlaceFault.Clash) Option.None }
    ensures missing { H.tells → (image : Image) → reads (H.state h.old).now.words ≡ image
        → IfOk result (λ missing. missing ≡ is_none (map_of id (types_of image))) }
    ensures only_reads { OnlyReads H.tells H.state H.counts (place_fault result) h.old h.new }
{
    match find(h, u64::from(id))? {
        None => Ok(true),
        Some(known) => {
            if known == map {
                Ok(false)
            } else {
                Err(PlaceFault::Clash)
            }
        }
    }
}

/// The types of a file that are not defined, by ascending ids. `Clash` comes exactly if one of the file's types is
/// defined with another map, unless the host fails first.
fn missing_types<H: Host>(h: &mut H, view: &FileView<'_>) -> Result<Types, PlaceFault>
    requires { POOL_TABLE ≤ (H.counts h.old).size }
    ensures refusal { H.tells → (image : Image) → reads (H.state h.old).now.words ≡ image → place_fault result ≡ Option.None
        → refusal_in result ≡ cond (clashes_with (types_of image) (types_held view.now)) (Option.Some PlaceFault.Clash) Option.None }
    ensures missing { H.tells → (image : Image) → reads (H.state h.old).now.words ≡ image
        → IfOk result (λ types. types.items ≡ types_missing (types_of image) (types_held view.now)) }
    ensures only_reads { OnlyReads H.tells H.state H.counts (place_fault result) h.old h.new }
{
    let mut types = Types::new();
    for i in 0..view.types() {
        let (id, map) = view.type_at(i);
        if is_missing(h, id, map)? {
            types.push((id, map));
        }
    }
    Ok(types)
}

/// The types, each in the record that stands at the same place of the list.
fn in_records(types: &[(u32, u64)], records: &[u32]) -> NewTypes
    requires few { length types.now ≤ TYPE_RECORDS }
    requires same { length records.now ≡ length types.now }
    ensures types { map type_of result.items ≡ types.now }
    ensures records { map (λ t. t.record_number) result.items ≡ records.now }
{
    let mut new = NewTypes::new();
    for i in 0..types.len() {
        let (id, map) = types[i];
        let record_number = records[i];
        new.push(NewType {
            record_number,
            id,
            map,
        });
    }
    new
}

/// The types of a file that are not defined, by ascending ids, each with a free record: the lowest ones, in order. If
/// the host does not fail first, `Clash` comes exactly if a type of the file is defined with another map, and `Full`
/// exactly if none is but too few records are free.
pub(crate) fn find_types<H: Host>(h: &mut H, view: &FileView<'_>) -> Result<NewTypes, PlaceFault>
    requires { POOL_TABLE ≤ (H.counts h.old).size }
    ensures refusal { H.tells → (image : Image) → reads (H.state h.old).now.words ≡ image → place_fault result ≡ Option.None
        → refusal_in result ≡ types_refusal image (types_held view.now) }
    ensures types { H.tells → (image : Image) → reads (H.state h.old).now.words ≡ image
        → IfOk result (λ types. map type_of types.items ≡ types_missing (types_of image) (types_held view.now)) }
    ensures records { H.tells → (image : Image) → reads (H.state h.old).now.words ≡ image → IfOk result (λ types. HasFreeRecords (type_at image) 0 types.items) }
    ensures within { IfOk result (λ types. All (λ t. t.record_number < TYPE_RECORDS) types.items) }
    ensures only_reads { OnlyReads H.tells H.state H.counts (place_fault result) h.old h.new }
{
    let missing = missing_types(h, view)?;
    let types = missing.as_slice();
    match free_records(h, types.len() as u32)? {
        Some(records) => Ok(in_records(types, records.as_slice())),
        None => Err(PlaceFault::Full),
    }
}
