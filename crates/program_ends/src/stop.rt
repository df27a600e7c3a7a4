//! Why a program ends early.
ghost use Rattle.std.specs.Prelude.{◌≡◌};
ghost use Rattle.program_ends.specs.Stop.{status_after};

use line_texts::InputFault;
use path_kinds::memory::NoMemory;
use std::alloc::{AllocError, AllocFailed};
use std::fmt::Display;
use std::io;
use std::io::Write;

/// Why a program ended early.
#[derive(Clone, Copy, Debug)]
pub enum Stop<F> {
    /// The text has this fault.
    Text(F),
    /// Reading or writing failed.
    InputOrOutput,
    /// There was no memory for what is read, made or written.
    Memory,
}

impl<F> From<AllocError> for Stop<F> {
    ghost use Rattle.program_ends.specs.declared.stop.Stop.TheVariants.{Memory};

    ghost from_gives = { λ _ stop. stop ≡ Memory };

    fn from(_error: AllocError) -> Stop<F> {
        Stop::Memory
    }
}

impl<F, T: Drop> From<AllocFailed<T>> for Stop<F> {
    ghost use Rattle.program_ends.specs.declared.stop.Stop.TheVariants.{Memory};

    ghost from_gives = { λ _ stop. stop ≡ Memory };

    fn from(_error: AllocFailed<T>) -> Stop<F> {
        Stop::Memory
    }
}

impl<F> From<NoMemory> for Stop<F> {
    ghost use Rattle.program_ends.specs.declared.stop.Stop.TheVariants.{Memory};

    ghost from_gives = { λ _ stop. stop ≡ Memory };

    fn from(_error: NoMemory) -> Stop<F> {
        Stop::Memory
    }
}

impl<F> From<io::Error> for Stop<F> {
    ghost use Rattle.program_ends.specs.declared.stop.Stop.TheVariants.{InputOrOutput};

    ghost from_gives = { λ _ stop. stop ≡ InputOrOutput };

    fn from(_error: io::Error) -> Stop<F> {
        Stop::InputOrOutput
    }
}

impl<F> From<InputFault> for Stop<F> {
    ghost use Rattle.program_ends.specs.Stop.{stopped_input};

    ghost from_gives = { λ fault stop. stop ≡ stopped_input fault };

    fn from(fault: InputFault) -> Stop<F> {
        match fault {
            InputFault::Failed => Stop::InputOrOutput,
            InputFault::Memory => Stop::Memory,
        }
    }
}

/// The exit status: 0 where all is fine, 1 where something is not, and where the program ended early, 2 for a fault of the text,
/// 3 where reading or writing failed, and 4 where memory was out. Why it ended early is told.
pub fn status_told<F: Display + Drop, E: Write + Drop>(
    came: Result<bool, Stop<F>>,
    mut err: E,
) -> u8
    ensures { result ≡ status_after came }
{
    match came {
        Ok(true) => 0,
        Ok(false) => 1,
        Err(Stop::Text(fault)) => {
            let _ = writeln!(err, "{fault}");
            2
        }
        Err(Stop::InputOrOutput) => {
            let _ = writeln!(err, "input or output failed");
            3
        }
        Err(Stop::Memory) => {
            let _ = writeln!(err, "out of memory");
            4
        }
    }
}
