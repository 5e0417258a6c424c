//! The puddles of a file, and whether their bases are legal.

ghost use Rattle.std.specs.Prelude.{◌≡◌, ◌<◌, ◌≤◌, ◌==◌, length, map, take};
ghost use Rattle.std.specs.List.{list_all, list_any};
ghost use Rattle.std.specs.Ordering.{nat_cmp};
ghost use Rattle.pud_defs.specs.Formats.Bases.{is_legal_base};
ghost use Rattle.pud_defs.specs.PoolGraphs.ExportFile.{file_puddle, under_base, are_file_bases};
ghost use Rattle.pud_defs.specs.RegistryTables.Keyed.{are_distinct};
ghost use Rattle.pud_import.specs.Answers.{file_pool};
ghost use Rattle.pud_import.specs.Sized.{image_of_file};

use crate::sized_file::SizedFile;
use pud_defs::records::{MAX_PUDDLES, Puddle};
use pud_defs::space::{FRAME_NUMBER_WORD, LARGE, class_steps, is_legal_base};

/// How many puddles a file has at most.
pub(crate) const PUDDLES: usize = MAX_PUDDLES as usize;

/// The frames and the records of puddles by their ordinals. What comes after the last puddle may be anything.
pub(crate) type Pool = [(u32, Puddle); PUDDLES];

/// A frame and a record that stand for no puddle.
fn no_puddle() -> (u32, Puddle) {
    (
        0,
        Puddle {
            number: 0,
            base: 0,
            old_base: 0,
            frontier: 0,
            class: LARGE,
        },
    )
}

impl<'a> SizedFile<'a> {
    /// The puddle of an ordinal. Its base is also its old base, and all of its steps count as rewritten.
    fn puddle(&self, ordinal: u32) -> Puddle
        requires { ordinal < self.now.puddles }
        ensures { result ≡ file_puddle (image_of_file self.now) self.now.version self.now.types self.now.puddles ordinal }
    {
        let base = self.base(ordinal);
        let class = self.class(ordinal);
        Puddle {
            number: self.frame_word(ordinal, FRAME_NUMBER_WORD),
            base,
            old_base: base,
            frontier: class_steps(class),
            class,
        }
    }

    /// The puddles, each in the frame of its ordinal.
    pub(crate) fn pool(&self) -> Pool
        ensures { take self.now.puddles result ≡ file_pool (image_of_file self.now) self.now.version self.now.types self.now.puddles }
    {
        let mut pool = [no_puddle(); PUDDLES];
        for ordinal in 0..self.puddles {
            pool[ordinal as usize] = (ordinal, self.puddle(ordinal));
        }
        pool
    }
}

/// Whether one of the puddles has the base.
fn has_base(pool: &[(u32, Puddle)], base: u64) -> bool
    ensures { result ≡ list_any (λ e. e.1.base == base) pool.now }
{
    for (_, puddle) in pool {
        if puddle.base == base {
            return true;
        }
    }
    false
}

/// Whether each base is legal.
fn are_legal(pool: &[(u32, Puddle)]) -> bool
    ensures { result ≡ list_all (λ e. is_legal_base e.1.base) pool.now }
{
    for (_, puddle) in pool {
        if !is_legal_base(puddle.base) {
            return false;
        }
    }
    true
}

/// Whether no two puddles have the same base.
fn are_apart(pool: &[(u32, Puddle)]) -> bool
    requires { length pool.now ≤ MAX_PUDDLES }
    ensures { result ≡ are_distinct nat_cmp (under_base (map (λ e. e.1) pool.now)) 0 (length pool.now) }
{
    for ordinal in 0..pool.len() {
        let (_, puddle) = pool[ordinal];
        if has_base(&pool[ordinal + 1..], puddle.base) {
            return false;
        }
    }
    true
}

/// Whether each base is legal, and no two are the same.
pub(crate) fn has_legal_bases(pool: &[(u32, Puddle)]) -> bool
    requires { length pool.now ≤ MAX_PUDDLES }
    ensures { result ≡ are_file_bases (map (λ e. e.1) pool.now) }
{
    let legal = are_legal(pool);
    let apart = are_apart(pool);
    legal && apart
}
