//! The count of the loads of a watched word.
ghost use Rattle.std.specs.Prelude.{◌≡◌};
ghost use Rattle.pm_mem.specs.Watches.{after_load};

/// A word whose loads are counted, if there is one. The count stops at 2^32 - 1.
#[derive(Clone, Copy, Debug)]
pub struct Watch {
    pub word: Option<u32>,
    pub count: u32,
}

impl Watch {
    /// No word is watched.
    pub fn new() -> Watch
        ensures { result ≡ record { word = None; count = 0 } }
    {
        Watch {
            word: None,
            count: 0,
        }
    }

    /// Counts a load of that word, if it is the watched one.
    pub fn load(&mut self, w: u32)
        ensures { self.new ≡ after_load w self.old }
    {
        if self.word == Some(w) {
            self.count = self.count.saturating_add(1);
        }
    }
}
