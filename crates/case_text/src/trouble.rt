//! Why a case file is not carried out to its end.
use std::alloc::{AllocError, AllocFailed, Global};

/// Why a case file is not carried out to its end.
#[derive(Debug, Drop)]
pub enum Trouble {
    /// An allocation failed.
    Memory,
    /// What is wrong with the line that has this number, counted from 1.
    At(u32, String),
}

impl From<AllocError> for Trouble {
    fn from(_error: AllocError) -> Trouble {
        Trouble::Memory
    }
}

impl<T: Drop> From<AllocFailed<T>> for Trouble {
    fn from(_error: AllocFailed<T>) -> Trouble {
        Trouble::Memory
    }
}

/// The trouble that the line with this number is written in no known way.
pub fn unknown(alloc: Global, number: u32) -> Trouble {
    amiss(number, format!(in alloc; "this form of line is unknown"))
}

/// The trouble that this is wrong with the line with this number, or that the allocation of the reason failed.
pub fn amiss(number: u32, why: Result<String, AllocError>) -> Trouble {
    match why {
        Ok(why) => Trouble::At(number, why),
        Err(_) => Trouble::Memory,
    }
}
