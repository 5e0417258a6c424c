//! The events of a device, one for each moment.

/// What happened at one moment of the clock.
#[derive(Clone, Copy, Debug)]
pub enum Event {
    /// A store of that value to the word of that number.
    Store(u32, u64),
    /// A flush of the line of that number.
    Flush(u32),
    Fence,
    /// Power was lost, with that pick.
    Lost(u64),
    /// That byte was printed.
    Said(u8),
    /// A store to a word that was later given one value from outside.
    Blank,
}
