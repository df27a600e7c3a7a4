//! Reading a whole input.
ghost use Rattle.std.specs.Prelude.{◌≡◌, ◌<◌, ℕ, List, Option, Ok, true, length, IfOk, IfSome, OnOk};
ghost use Rattle.std.specs.Io.KnownBytes.{Consumes};

use std::alloc::{AllocError, Global};
use std::io;
use std::io::Read;

/// The most bytes that are read at a time at first, and how many reads these are: to clear a long piece takes longer than to
/// read a short text.
const SHORT_PIECE: usize = 256;

const SHORT_READS: u32 = 4;

/// The most bytes that are read at a time from then on.
const PIECE: usize = 4096;

/// The most reads in which the input must have come to its end.
const READS: u32 = 1048576;

/// Why an input was not read.
#[derive(Clone, Copy, Debug, PartialEq, Eq)]
pub enum InputFault {
    /// A read failed, or more than 4 GiB came.
    Failed,
    /// There was no memory for it.
    Memory,
}

impl From<AllocError> for InputFault {
    ghost use Rattle.line_texts.specs.declared.input.InputFault.TheVariants.{Memory};

    ghost from_gives = { λ _ fault. fault ≡ Memory };

    fn from(_error: AllocError) -> InputFault {
        InputFault::Memory
    }
}

impl From<io::Error> for InputFault {
    ghost use Rattle.line_texts.specs.declared.input.InputFault.TheVariants.{Failed};

    ghost from_gives = { λ _ fault. fault ≡ Failed };

    fn from(_error: io::Error) -> InputFault {
        InputFault::Failed
    }
}

/// The whole input.
pub fn read_input<R: Read>(alloc: Global, input: &mut R) -> Result<Vec<u8>, InputFault>
    ensures { IfOk result (λ text. IfSome (R.remaining input.old) (λ bytes. text.items ≡ bytes)) }
{
    let mut text = Vec::new(alloc);
    let mut short = [0; SHORT_PIECE];
    if read_pieces(input, &mut text, &mut short, SHORT_READS)? {
        return Ok(text);
    }
    let mut piece = [0; PIECE];
    if read_pieces(input, &mut text, &mut piece, READS)? {
        return Ok(text);
    }
    Err(InputFault::Failed)
}

// Appends what the input has to the text, by so many reads at most, and says whether it has come to its end.
fn read_pieces<R: Read>(
    input: &mut R,
    text: &mut Vec<u8>,
    piece: &mut [u8],
    reads: u32,
) -> Result<bool, InputFault>
    requires { 0 < length piece.old }
    ensures read { (all : Option (List ℕ)) → Consumes all (R.remaining input.old) text.old.items →
        OnOk result (Consumes all (R.remaining input.new) text.new.items) }
    ensures whole { (all : Option (List ℕ)) → Consumes all (R.remaining input.old) text.old.items →
        result ≡ Ok true → IfSome all (λ bytes. text.new.items ≡ bytes) }
{
    for _ in 0..reads {
        let count = input.read(piece)?;
        if count == 0 {
            return Ok(true);
        }
        text.extend_from_slice(&piece[..count])?;
    }
    Ok(false)
}
