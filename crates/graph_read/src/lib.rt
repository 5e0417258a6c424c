//! Reads the graph of a pool from the words of its frames: where an object stands, where a pointer leads, what the
//! value of a field is, and the totals of the objects. Only an index allocates memory.
//!
//! Each call that reads the device takes the number of the device's frames, at most 1,024. The device has all the words
//! that so many frames need. The call also takes the pool: the frames and the records of its puddles by their ordinals,
//! at most 16. It answers whatever the device stores. Nothing on the device changes, and the only errors are the host's
//! own.
#![tactic(auto)]

mod addresses;
mod checking;
mod fields;
mod index;
mod index_build;
mod judge;
mod maps;
mod places;
mod pointers;
mod references;
mod serials;

pub use addresses::address_of;
pub use checking::{field_word, type_at};
pub use fields::{FieldRead, field_at, pointed_serial, read_field, value_at};
pub use index::{Index, Kept};
pub use judge::{Totals, pool_is_sound, pool_totals};
pub use maps::{find_fitting, fits_class};
pub use places::{find_place, find_serial};
pub use pointers::read_pointer;
pub use references::is_referenced;
