//! Why a program over a table ends early.
ghost use Rattle.std.specs.Prelude.{◌≡◌};

use crate::reading::ReadFault;
use program_ends::Stop;
use thiserror::Error;

/// What is wrong with a text of rules: its first malformed line. Lines are counted from 1.
#[derive(Clone, Copy, Debug, PartialEq, Eq, Error)]
#[error("line {number}: bad line")]
pub struct BadLine {
    pub number: usize,
}

impl From<ReadFault> for Stop<BadLine> {
    ghost use Rattle.rule_tables.specs.Stop.{stop_of};

    ghost from_gives = { λ fault stop. stop ≡ stop_of fault };

    fn from(fault: ReadFault) -> Stop<BadLine> {
        match fault {
            ReadFault::BadLine(number) => Stop::Text(BadLine { number }),
            ReadFault::Memory => Stop::Memory,
        }
    }
}
