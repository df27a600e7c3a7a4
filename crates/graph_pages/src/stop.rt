//! Why a program ended early, and the exit status.
ghost use Rattle.std.specs.Prelude.{◌≡◌};
ghost use Rattle.graph_pages.specs.Stop.{status_after};

use graph_data::DataFault;
use line_texts::InputFault;
use rule_tables::ReadFault;
use search_context::context::NoMemory;
use std::alloc::{AllocError, AllocFailed};
use std::io;
use std::io::Write;
use thiserror::Error;

/// Why the program ended early.
#[derive(Clone, Copy, Debug, Error)]
pub enum Stop {
    #[error("line {0}: bad line")]
    BadLine(usize),
    #[error("byte {0}: bad data")]
    BadData(usize),
    #[error("input or output failed")]
    InputOrOutput,
    #[error("out of memory")]
    Memory,
}

impl Stop {
    ghost use Rattle.graph_pages.specs.Stop.{status_of};

    // The exit status.
    fn status(self) -> u8
        ensures { result ≡ status_of self }
    {
        match self {
            Stop::BadLine(_) | Stop::BadData(_) => 2,
            Stop::InputOrOutput => 3,
            Stop::Memory => 4,
        }
    }
}

impl From<AllocError> for Stop {
    ghost use Rattle.graph_pages.specs.declared.stop.Stop.TheVariants.{Memory};

    ghost from_gives = { λ _ stop. stop ≡ Memory };

    fn from(_error: AllocError) -> Stop {
        Stop::Memory
    }
}

impl<T: Drop> From<AllocFailed<T>> for Stop {
    ghost use Rattle.graph_pages.specs.declared.stop.Stop.TheVariants.{Memory};

    ghost from_gives = { λ _ stop. stop ≡ Memory };

    fn from(_error: AllocFailed<T>) -> Stop {
        Stop::Memory
    }
}

impl From<NoMemory> for Stop {
    ghost use Rattle.graph_pages.specs.declared.stop.Stop.TheVariants.{Memory};

    ghost from_gives = { λ _ stop. stop ≡ Memory };

    fn from(_error: NoMemory) -> Stop {
        Stop::Memory
    }
}

impl From<DataFault> for Stop {
    ghost use Rattle.graph_pages.specs.Stop.{stopped_data};

    ghost from_gives = { λ fault stop. stop ≡ stopped_data fault };

    fn from(fault: DataFault) -> Stop {
        match fault {
            DataFault::BadData(place) => Stop::BadData(place),
            DataFault::Memory => Stop::Memory,
        }
    }
}

impl From<io::Error> for Stop {
    ghost use Rattle.graph_pages.specs.declared.stop.Stop.TheVariants.{InputOrOutput};

    ghost from_gives = { λ _ stop. stop ≡ InputOrOutput };

    fn from(_error: io::Error) -> Stop {
        Stop::InputOrOutput
    }
}

impl From<InputFault> for Stop {
    ghost use Rattle.graph_pages.specs.Stop.{stopped_input};

    ghost from_gives = { λ fault stop. stop ≡ stopped_input fault };

    fn from(fault: InputFault) -> Stop {
        match fault {
            InputFault::Failed => Stop::InputOrOutput,
            InputFault::Memory => Stop::Memory,
        }
    }
}

impl From<ReadFault> for Stop {
    ghost use Rattle.graph_pages.specs.Stop.{stop_of};

    ghost from_gives = { λ fault stop. stop ≡ stop_of fault };

    fn from(fault: ReadFault) -> Stop {
        match fault {
            ReadFault::BadLine(number) => Stop::BadLine(number),
            ReadFault::Memory => Stop::Memory,
        }
    }
}

/// The exit status. The reason of an early end is told.
pub fn status_told<E: Write + Drop>(came: Result<bool, Stop>, mut err: E) -> u8
    ensures { result ≡ status_after came }
{
    match came {
        Ok(true) => 0,
        Ok(false) => 1,
        Err(stop) => {
            let _ = writeln!(err, "{stop}");
            stop.status()
        }
    }
}
