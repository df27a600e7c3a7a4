//! Why a check ends early.

use rule_tables::ReadFault;
use search_parts::context::NoMemory;
use std::alloc::{AllocError, AllocFailed};
use thiserror::Error;

/// Why a check found nothing, or what it found.
#[derive(Clone, Copy, Debug, PartialEq, Eq, Error)]
pub enum Failed {
    /// What was found is not as it has to be.
    #[error("{0}")]
    Wrong(&'static str),
    /// Memory was out for the check itself, so that nothing was found.
    #[error("out of memory")]
    Memory,
    /// The input is malformed.
    #[error("malformed")]
    Malformed,
}

impl From<NoMemory> for Failed {
    fn from(_error: NoMemory) -> Failed {
        Failed::Memory
    }
}

impl From<AllocError> for Failed {
    fn from(_error: AllocError) -> Failed {
        Failed::Memory
    }
}

impl<T: Drop> From<AllocFailed<T>> for Failed {
    fn from(_error: AllocFailed<T>) -> Failed {
        Failed::Memory
    }
}

impl From<ReadFault> for Failed {
    fn from(fault: ReadFault) -> Failed {
        match fault {
            ReadFault::BadLine(_) => Failed::Malformed,
            ReadFault::Memory => Failed::Memory,
        }
    }
}

/// Asks that something is so, and says what is wrong if it is not.
pub fn ensure(is_so: bool, otherwise: &'static str) -> Result<(), Failed> {
    if is_so {
        Ok(())
    } else {
        Err(Failed::Wrong(otherwise))
    }
}
