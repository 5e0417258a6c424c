//! Dumps a pool: reads its graph from the device and writes it as a text.

ghost use Rattle.std.specs.Prelude.{◌≡◌, ◌++◌, ◌≤◌, Option, All, IfOk, OnOk, codes, decimal, map};
ghost use Rattle.std.specs.BTreeMap.{values};
ghost use Rattle.pm_model.specs.Words.{Image, reads};
ghost use Rattle.pm_model.specs.Reads.{OnlyReads};
ghost use Rattle.pud_defs.specs.Formats.Layout.{device_words};
ghost use Rattle.pud_defs.specs.RegistryTables.Types.{types_of};
ghost use Rattle.pud_defs.specs.PoolGraphs.Stored.{IsOnDevice, stored_in};
ghost use Rattle.pud_defs.specs.PoolGraphs.Graph.{Graph, graph_of};
ghost use Rattle.pud_defs.specs.Output.DumpText.{dump_text, pointer_text, joined};
ghost use Rattle.pud_defs.specs.Output.Texts.{in_one_line};
ghost use Rattle.graph_dump.specs.Faults.{fault_in};
ghost use Rattle.graph_dump.specs.Read.{entry_text, IsSlotPlace};
ghost use Rattle.graph_dump.specs.Spelled.{separator};
ghost use Rattle.graph_dump.specs.Written.{AppendsObject, AppendsObjects};

use crate::fault::DumpFault;
use crate::places::{Places, live_places};
use crate::reading::read_object;
use crate::values::{pointer_value, put_object};
use graph_read::pointed_serial;
use pm_model::{Host, HostFault};
use pud_defs::layout::MAX_FRAMES;
use pud_defs::records::Puddle;
use puddle_header::{next_serial, root_value};
use std::alloc::{AllocError, Global};

/// Makes the first part of the text, before the objects.
fn front(alloc: Global, next: u64) -> Result<Vec<u8>, AllocError>
    ensures { IfOk result (λ text. text.items ≡ codes "{\"next\":" ++ (decimal next ++ codes ",\"objects\":[")) }
{
    Ok(format!(in alloc; "{{\"next\":{next},\"objects\":[")?.into_bytes())
}

/// Appends the part of the text that follows the objects.
fn put_root(alloc: Global, text: &mut Vec<u8>, root: u64) -> Result<(), AllocError>
    ensures { OnOk result (text.new.items ≡ text.old.items ++ (codes "],\"root\":" ++ (pointer_text root ++ codes "}"))) }
{
    let written = pointer_value(alloc, root)?.to_vec(alloc)?;
    text.extend_from_slice(b"],\"root\":")?;
    text.extend_from_slice(&written)?;
    text.push(b'}')?;
    Ok(())
}

/// Reads the object at the entry's place, which is a slot. Appends its text with the entry's serial, after a comma if
/// it is not the first.
fn dump_object<H: Host>(
    alloc: Global,
    h: &mut H,
    frames: u32,
    pool: &[(u32, Puddle)],
    text: &mut Vec<u8>,
    is_first: bool,
    entry: (u64, u32),
) -> Result<(), DumpFault>
    requires few { frames ≤ MAX_FRAMES }
    requires room { device_words frames ≤ (H.counts h.old).size }
    requires known { IsOnDevice frames pool.now }
    requires within { IsSlotPlace pool.now entry.1 }
    ensures text { H.tells → (image : Image) → reads (H.state h.old).now.words ≡ image
        → OnOk result (text.new.items ≡ text.old.items ++ (separator is_first ++ entry_text frames pool.now image entry)) }
    ensures some { OnOk result (AppendsObject is_first text.old.items text.new.items) }
    ensures only_reads { OnlyReads H.tells H.state H.counts (fault_in result) h.old h.new }
{
    let (serial, place) = entry;
    let object = read_object(h, frames, pool, place)?;
    put_object(alloc, text, is_first, serial, &object)?;
    Ok(())
}

/// Appends the texts of the objects at these places, which are slots, with commas between them.
fn dump_objects<H: Host>(
    alloc: Global,
    h: &mut H,
    frames: u32,
    pool: &[(u32, Puddle)],
    text: &mut Vec<u8>,
    places: &Places,
) -> Result<(), DumpFault>
    requires few { frames ≤ MAX_FRAMES }
    requires room { device_words frames ≤ (H.counts h.old).size }
    requires known { IsOnDevice frames pool.now }
    requires within { All (IsSlotPlace pool.now) (values places.now) }
    ensures text { H.tells → (image : Image) → reads (H.state h.old).now.words ≡ image
        → OnOk result (text.new.items ≡ text.old.items ++ joined (map (entry_text frames pool.now image) (places.now).entries)) }
    ensures some { OnOk result (AppendsObjects text.old.items text.new.items) }
    ensures only_reads { OnlyReads H.tells H.state H.counts (fault_in result) h.old h.new }
{
    let mut is_first = true;
    for (serial, place) in places {
        dump_object(alloc, h, frames, pool, text, is_first, (*serial, *place))?;
        is_first = false;
    }
    Ok(())
}

/// Returns the graph of a pool as the compact text of one JSON object, `{"next":n,"objects":[..],"root":r}`. Each
/// object is `{"fields":[..],"serial":s,"type":t}`, and they come by ascending serials. A field is a number, `"@s"` for
/// a pointer to the object of serial s, or null.
///
/// The device has the words that `frames` frames need, at most 1,024. The pool is given by the frames and the records
/// of its puddles in the order of their ordinals, at most 16. Whatever the device stores, the text has no newline. If
/// the frames store no graph, the text may otherwise be any. The text of a pool without puddles is empty. Each word of
/// the frames is loaded at most once. For each pointer the call also loads the serial of the slot to which it leads.
/// Only the type table is searched.
///
/// The error is `Memory` if allocation failed and `Host` if the host failed. Nothing has changed then except what the
/// host counts.
pub fn dump_json<H: Host>(
    alloc: Global,
    h: &mut H,
    frames: u32,
    pool: &[(u32, Puddle)],
) -> Result<Vec<u8>, DumpFault>
    requires few { frames ≤ MAX_FRAMES }
    requires room { device_words frames ≤ (H.counts h.old).size }
    requires known { IsOnDevice frames pool.now }
    ensures text { H.tells → (image : Image) → reads (H.state h.old).now.words ≡ image
        → (g : Graph) → graph_of (types_of image) (stored_in frames pool.now image) ≡ Option.Some g
        → IfOk result (λ text. text.items ≡ dump_text g) }
    ensures one_line { IfOk result (λ text. in_one_line text.items ≡ text.items) }
    ensures only_reads { OnlyReads H.tells H.state H.counts (fault_in result) h.old h.new }
{
    if pool.is_empty() {
        return Ok(Vec::new(alloc));
    }
    let (first, _) = pool[0];
    let next = next_serial(h, frames, first)?;
    let root = root_value(h, frames, first)?;
    let root = pointed_serial(h, frames, pool, 0, 0, root)?;
    let places = live_places(alloc, h, frames, pool)?;
    let mut text = front(alloc, next)?;
    dump_objects(alloc, h, frames, pool, &mut text, &places)?;
    put_root(alloc, &mut text, root)?;
    Ok(text)
}
