//! Why a program ends early, and its exit status.
ghost use Rattle.std.specs.Prelude.{◌≡◌};
ghost use Rattle.trait_pages.specs.Stop.{status_after};

use graph_data::DataFault;
use graph_pages::Stop as PageStop;
use line_texts::InputFault;
use search_context::context::NoMemory;
use std::alloc::{AllocError, AllocFailed};
use std::io;
use std::io::Write;

/// Why a program over declarations ended early.
#[derive(Drop)]
pub enum Stop {
    /// The texts are refused, for this reason.
    Refused(Vec<u8>),
    /// The words of the command line are no call.
    Usage,
    /// So many bytes of the data are as they have to be.
    BadData(usize),
    /// A file was not opened, for this reason.
    NotOpened(Vec<u8>),
    /// Reading or writing failed.
    InputOrOutput,
    /// Memory was out.
    Memory,
}

impl From<AllocError> for Stop {
    fn from(_error: AllocError) -> Stop {
        Stop::Memory
    }
}

impl<T: Drop> From<AllocFailed<T>> for Stop {
    fn from(_error: AllocFailed<T>) -> Stop {
        Stop::Memory
    }
}

impl From<NoMemory> for Stop {
    fn from(_error: NoMemory) -> Stop {
        Stop::Memory
    }
}

impl From<io::Error> for Stop {
    fn from(_error: io::Error) -> Stop {
        Stop::InputOrOutput
    }
}

impl From<InputFault> for Stop {
    fn from(fault: InputFault) -> Stop {
        match fault {
            InputFault::Failed => Stop::InputOrOutput,
            InputFault::Memory => Stop::Memory,
        }
    }
}

impl From<DataFault> for Stop {
    fn from(fault: DataFault) -> Stop {
        match fault {
            DataFault::BadData(place) => Stop::BadData(place),
            DataFault::Memory => Stop::Memory,
        }
    }
}

impl From<PageStop> for Stop {
    fn from(stop: PageStop) -> Stop {
        match stop {
            PageStop::BadLine(place) | PageStop::BadData(place) => Stop::BadData(place),
            PageStop::InputOrOutput => Stop::InputOrOutput,
            PageStop::Memory => Stop::Memory,
        }
    }
}

impl Stop {
    ghost use Rattle.std.specs.Prelude.{◌≡◌};
    ghost use Rattle.trait_pages.specs.Stop.{status_of};

    // The exit status.
    fn status(&self) -> u8
        ensures { result ≡ status_of self.now }
    {
        match self {
            Stop::Refused(_) | Stop::Usage | Stop::BadData(_) => 2,
            Stop::NotOpened(_) | Stop::InputOrOutput => 3,
            Stop::Memory => 4,
        }
    }

    // Tells the reason on a line.
    fn tell<E: Write>(&self, usage: &[u8], err: &mut E) -> io::Result<()> {
        match self {
            Stop::Refused(reason) | Stop::NotOpened(reason) => err.write_all(reason.as_slice())?,
            Stop::Usage => err.write_all(usage)?,
            Stop::BadData(place) => write!(err, "byte {place}: bad data")?,
            Stop::InputOrOutput => err.write_all(b"input or output failed")?,
            Stop::Memory => err.write_all(b"out of memory")?,
        }
        err.write_all(b"\n")
    }
}

/// The exit status, where `Ok` says whether all was well. Why the program ended early is told; where it was not called as it is
/// used, how it is. A failure to tell it changes nothing.
pub fn status_told<E: Write + Drop>(came: Result<bool, Stop>, usage: &[u8], mut err: E) -> u8
    ensures { result ≡ status_after came }
{
    match came {
        Ok(true) => 0,
        Ok(false) => 1,
        Err(stop) => {
            let _ = stop.tell(usage, &mut err);
            stop.status()
        }
    }
}
