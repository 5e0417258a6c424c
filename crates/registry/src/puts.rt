//! Changes of records, put into a batch.

ghost use Rattle.std.specs.Prelude.{◌≡◌, ◌+◌, ◌≤◌, [], ◌∷◌, ◌++◌};
ghost use Rattle.pud_defs.specs.declared.layout.TheConstants.{LOG_ENTRY_WORDS, ENTRY_HEADER_WORDS};
ghost use Rattle.batch.specs.Batches.{word_count_of};
ghost use Rattle.registry.specs.Puts.{put_entry, number_put};

use batch::Batch;
use pud_defs::layout::NEXT_NUMBER_WORD;
use pud_defs::records::Put;

/// How many words a change writes at most.
const PUT_WORDS: usize = 8;

/// Adds the change to the batch, if its words fit.
pub(crate) fn add_put(batch: &mut Batch, put: &Put)
    requires some { 1 ≤ put.now.n }
    requires few { put.now.n ≤ PUT_WORDS }
    ensures { word_count_of batch.old + (put.now.n + ENTRY_HEADER_WORDS) ≤ LOG_ENTRY_WORDS → batch.new ≡ batch.old ++ put_entry put.now ∷ [] }
{
    let _fits = batch.add(put.w, &put.vals[..put.n]);
}

/// The change that makes this UUID number the next one.
pub(crate) fn number_put(number: u64) -> Put
    ensures { result ≡ number_put number }
{
    Put {
        w: NEXT_NUMBER_WORD,
        n: 1,
        vals: [number, 0, 0, 0, 0, 0, 0, 0],
    }
}
