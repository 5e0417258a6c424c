//! The places from which free slots are looked for, by the class of the slots.

ghost use Rattle.std.specs.Prelude.{◌≡◌};
ghost use Rattle.known_pool.specs.Searches.{none_full, full_of, with_full};

use pud_defs::space::{LARGE, SMALL};

/// For each class, a place before which each slot of the class is live.
#[derive(Clone, Copy)]
pub struct FullBelow {
    /// The place for large slots.
    pub large: u32,
    /// The place for small slots.
    pub small: u32,
}

impl FullBelow {
    /// Each search begins at the first place.
    pub fn none() -> FullBelow
        ensures { result ≡ none_full }
    {
        FullBelow { large: 0, small: 0 }
    }

    /// The place for the slots of a class. It is 0 if there is no such class.
    pub fn of(self, class: u32) -> u32
        ensures { result ≡ full_of class self }
    {
        if class == SMALL {
            self.small
        } else if class == LARGE {
            self.large
        } else {
            0
        }
    }

    /// The same with this place for the slots of a class. Nothing changes if there is no such class.
    pub fn with(self, class: u32, place: u32) -> FullBelow
        ensures { result ≡ with_full class place self }
    {
        FullBelow {
            large: if class == LARGE { place } else { self.large },
            small: if class == SMALL { place } else { self.small },
        }
    }
}
