//! Why reading data ends early.
use std::alloc::{AllocError, AllocFailed};

/// Why data could not be read.
#[derive(Clone, Copy, Debug)]
pub enum DataFault {
    /// Before this byte of the text something stands that is not wanted there.
    BadData(usize),
    /// Memory is out.
    Memory,
}

impl From<AllocError> for DataFault {
    ghost use Rattle.std.specs.Prelude.{◌≡◌};
    ghost use Rattle.graph_data.specs.declared.fault.DataFault.TheVariants.{Memory};

    ghost from_gives = { λ _ fault. fault ≡ Memory };

    fn from(_error: AllocError) -> DataFault {
        DataFault::Memory
    }
}

impl<T: Drop> From<AllocFailed<T>> for DataFault {
    ghost use Rattle.std.specs.Prelude.{◌≡◌};
    ghost use Rattle.graph_data.specs.declared.fault.DataFault.TheVariants.{Memory};

    ghost from_gives = { λ _ fault. fault ≡ Memory };

    fn from(_error: AllocFailed<T>) -> DataFault {
        DataFault::Memory
    }
}
