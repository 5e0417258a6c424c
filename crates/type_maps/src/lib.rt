//! The type table: the pointer map of each defined type, by its id.
#![tactic(auto)]

ghost use Rattle.std.specs.Prelude.{◌≡◌, ◌+◌, ◌*◌, ◌<◌, ◌≤◌, ℕ, Option, IfOk};
ghost use Rattle.pm_model.specs.Words.{IsRested, reads};
ghost use Rattle.pm_model.specs.Counts.{after_fault, fault_of};
ghost use Rattle.pm_model.specs.Reads.{OnlyReads};
ghost use Rattle.pud_defs.specs.declared.layout.TheConstants.{POOL_TABLE};
ghost use Rattle.pud_defs.specs.Formats.Image.{Image};
ghost use Rattle.pud_defs.specs.StateMachine.Imports.{type_put};
ghost use Rattle.pud_defs.specs.RegistryTables.Types.{map_of, types_of};
ghost use Rattle.type_maps.specs.Define.{fault_in, refusal_in, table_refusal, place_for, lookup_of, IsInTable, Defines};

mod free;

pub use free::{FreeRecords, free_records};
use pm_model::{Host, HostFault, Loads};
use pm_persist::persist_word;
use pud_defs::layout::{TYPE_RECORD_WORDS, TYPE_RECORDS, type_record_at};
use pud_defs::records::Put;

/// Why a type was not defined. Nothing changed, except after a fault of the host.
#[derive(Clone, Copy, Debug, PartialEq, Eq, thiserror::Error)]
pub enum TypeFault {
    /// The id is defined with another map.
    #[error("the type is defined with another map")]
    Clash,
    /// The id is not defined, and each record is used.
    #[error("the type table is full")]
    Full,
    /// The host's own fault.
    #[error("the host failed")]
    Host(HostFault),
}

impl From<HostFault> for TypeFault {
    ghost use Rattle.type_maps.specs.declared.TypeFault.TheVariants.{Host};

    ghost from_gives = { λ fault e. e ≡ Host fault };

    fn from(fault: HostFault) -> Self {
        TypeFault::Host(fault)
    }
}

/// Where a type is in the table, or would be.
#[derive(Clone, Copy)]
enum Lookup {
    /// It is defined, with this map.
    Defined(u64),
    /// It is not defined. This is the lowest free record.
    Free(u32),
    /// It is not defined, and no record is free.
    Full,
}

/// Looks the type up, record by record.
fn look_up<H: Loads>(h: &mut H, id: u64) -> Result<Lookup, HostFault>
    requires { POOL_TABLE ≤ (H.counts h.old).size }
    ensures place { H.tells → IfOk result (λ place. place ≡ lookup_of (reads (H.state h.old).now.words) id) }
    ensures within { IfOk result IsInTable }
    ensures only_reads { OnlyReads H.tells H.state H.counts (fault_of result) h.old h.new }
{
    let mut free = None;
    for record in 0..TYPE_RECORDS {
        let at = type_record_at(record);
        let used_by = h.load_word(at)?;
        if used_by == 0 {
            free = free.or(Some(record));
        } else if used_by == id {
            return Ok(Lookup::Defined(h.load_word(at + 1)?));
        }
    }
    match free {
        Some(record) => Ok(Lookup::Free(record)),
        None => Ok(Lookup::Full),
    }
}

/// Returns the map of the type with this id, or None exactly if no used record of the table has the id. The map may
/// have any value.
///
/// The device has the whole type table. The only errors are the host's own.
pub fn find<H: Loads>(h: &mut H, id: u64) -> Result<Option<u64>, HostFault>
    requires { POOL_TABLE ≤ (H.counts h.old).size }
    ensures map { H.tells → (image : Image) → reads (H.state h.old).now.words ≡ image → IfOk result (λ map. map ≡ map_of id (types_of image)) }
    ensures only_reads { OnlyReads H.tells H.state H.counts (fault_of result) h.old h.new }
{
    match look_up(h, id)? {
        Lookup::Defined(map) => Ok(Some(map)),
        Lookup::Free(_) | Lookup::Full => Ok(None),
    }
}

/// Returns the words that put the type into the record, whatever is stored there.
pub fn record_put(record_number: u32, id: u32, map: u64) -> Put
    requires { record_number < TYPE_RECORDS }
    ensures { result ≡ type_put record_number id map }
{
    Put {
        w: type_record_at(record_number),
        n: TYPE_RECORD_WORDS as usize,
        vals: [u64::from(id), map, 0, 0, 0, 0, 0, 0],
    }
}

/// Writes a record. The map word is durable before the id word is written, because the id word makes the record a used
/// one.
fn write_record<H: Host>(h: &mut H, place: u32, id: u32, map: u64) -> Result<(), HostFault>
    requires table { POOL_TABLE ≤ (H.counts h.old).size }
    requires within { place < TYPE_RECORDS }
    ensures defines { H.tells → Defines place id map (fault_of result) (H.state h.old) (H.state h.new) }
    ensures cause { H.counts h.new ≡ after_fault (fault_of result) (H.counts h.old) }
{
    let at = type_record_at(place);
    persist_word(h, at + 1, map)?;
    persist_word(h, at, u64::from(id))
}

/// Defines type `id` with the map word `map` in the lowest free record. At `Ok` the definition is durable. If the type
/// has this map already, nothing changes.
///
/// The device has the whole type table. If the host does not fail first, the error is `Clash` exactly if the id has
/// another map, and `Full` exactly if the id has no map and all records are used.
pub fn define<H: Host>(h: &mut H, id: u32, map: u64) -> Result<(), TypeFault>
    requires { POOL_TABLE ≤ (H.counts h.old).size }
    ensures refusal { H.tells → fault_in result ≡ Option.None
        → refusal_in result ≡ table_refusal (reads (H.state h.old).now.words) id map }
    ensures idle { H.tells → place_for (reads (H.state h.old).now.words) id ≡ Option.None → H.state h.new ≡ H.state h.old }
    ensures defines { H.tells → (r : ℕ) → place_for (reads (H.state h.old).now.words) id ≡ Option.Some r
        → Defines r id map (fault_in result) (H.state h.old) (H.state h.new) }
    ensures rested { H.tells → fault_in result ≡ Option.Some HostFault.Cut → IsRested (H.state h.new).now.words }
    ensures cause { H.counts h.new ≡ after_fault (fault_in result) (H.counts h.old) }
{
    match look_up(h, u64::from(id))? {
        Lookup::Defined(defined) => {
            if defined == map {
                Ok(())
            } else {
                Err(TypeFault::Clash)
            }
        }
        Lookup::Full => Err(TypeFault::Full),
        Lookup::Free(record) => Ok(write_record(h, record, id, map)?),
    }
}
