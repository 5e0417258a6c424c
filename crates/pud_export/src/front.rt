//! What comes before the frames in an export file: its header, its types, and the bases and the classes of its puddles.

ghost use Rattle.std.specs.Prelude.{◌≡◌, ◌≤◌, [], ◌∷◌, ◌++◌, length, map, flat_map, IfOk, OnOk};
ghost use Rattle.pud_defs.specs.PoolGraphs.Exported.{type_words};
ghost use Rattle.pud_export.specs.Exporting.{front_words};

use crate::words::WordBytes;
use pud_defs::files::{FILE_MAGIC, FILE_VERSION, file_words};
use pud_defs::layout::TYPE_RECORDS;
use pud_defs::records::{MAX_PUDDLES, Puddle};
use std::alloc::{AllocError, Global};

/// Adds the types, each as its id and its map.
fn push_types(types: &[(u64, u64)], words: &mut WordBytes) -> Result<(), AllocError>
    ensures { OnOk result (words.new ≡ words.old ++ flat_map type_words types.now) }
{
    for (id, type_map) in types {
        words.push_all(&[*id, *type_map])?;
    }
    Ok(())
}

/// Adds the bases of the puddles in the order of their ordinals.
fn push_bases(pool: &[(u32, Puddle)], words: &mut WordBytes) -> Result<(), AllocError>
    ensures { OnOk result (words.new ≡ words.old ++ map (λ e. e.1.base) pool.now) }
{
    for (_, puddle) in pool {
        words.push(puddle.base)?;
    }
    Ok(())
}

/// Adds the classes of the puddles in the order of their ordinals.
fn push_classes(pool: &[(u32, Puddle)], words: &mut WordBytes) -> Result<(), AllocError>
    ensures { OnOk result (words.new ≡ words.old ++ map (λ e. e.1.class) pool.now) }
{
    for (_, puddle) in pool {
        words.push(u64::from(puddle.class))?;
    }
    Ok(())
}

/// Adds the header of the file of a pool with this UUID number, with the counts of these types and puddles.
fn push_header(
    machine: u64,
    number: u64,
    pool: &[(u32, Puddle)],
    types: &[(u64, u64)],
    words: &mut WordBytes,
) -> Result<(), AllocError>
    ensures { OnOk result (words.new ≡ words.old ++ FILE_MAGIC ∷ FILE_VERSION ∷ length types.now ∷ length pool.now ∷ machine ∷ number ∷ 0 ∷ 0 ∷ []) }
{
    let (used, puddles) = (types.len() as u64, pool.len() as u64);
    words.push_all(&[
        FILE_MAGIC,
        FILE_VERSION,
        used,
        puddles,
        machine,
        number,
        0,
        0,
    ])
}

/// Adds what comes before the frames in the file of a pool with this UUID number and these types.
fn push_front(
    machine: u64,
    number: u64,
    pool: &[(u32, Puddle)],
    types: &[(u64, u64)],
    words: &mut WordBytes,
) -> Result<(), AllocError>
    ensures { OnOk result (words.new ≡ words.old ++ front_words machine number types.now (map (λ e. e.1) pool.now)) }
{
    push_header(machine, number, pool, types, words)?;
    push_types(types, words)?;
    push_bases(pool, words)?;
    push_classes(pool, words)
}

/// What comes before the frames in the file of a pool with this UUID number and these types. The result has room for
/// the frames too.
pub(crate) fn front(
    alloc: Global,
    machine: u64,
    number: u64,
    pool: &[(u32, Puddle)],
    types: &[(u64, u64)],
) -> Result<WordBytes, AllocError>
    requires few_types { length types.now ≤ TYPE_RECORDS }
    requires few_puddles { length pool.now ≤ MAX_PUDDLES }
    ensures { IfOk result (λ words. words ≡ front_words machine number types.now (map (λ e. e.1) pool.now)) }
{
    let room = file_words(FILE_VERSION, types.len() as u32, pool.len() as u32);
    let mut words = WordBytes::with_room(alloc, room)?;
    push_front(machine, number, pool, types, &mut words)?;
    Ok(words)
}
