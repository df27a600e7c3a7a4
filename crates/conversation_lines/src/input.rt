//! Reading one line after another.
ghost use Rattle.std.specs.Prelude.{◌≡◌, ℕ, List, true, IfOk};
ghost use Rattle.std.specs.Io.BufRead.{ends_with_byte, strip_last};
ghost use Rattle.conversation_lines.specs.Taken.{PassesLine, TakesLine};

use std::io;
use std::io::{BufRead, ErrorKind};

/// The byte that ends a line.
const NEWLINE: u8 = b'\n';

/// How a line ended.
#[derive(Clone, Copy, Debug, PartialEq, Eq)]
pub struct LineEnd {
    /// There was memory for all of it.
    pub is_whole: bool,
    /// No newline followed it, but the end of the input.
    pub is_last: bool,
}

/// Reads a line into the list, in place of what is there, without its newline. Behind the last newline stands the last line,
/// which may be empty.
///
/// Where memory is refused, the rest of the line is passed over, so that the next one to be read is the one behind it. Then
/// the list has none of it. An error where a read fails, but for one that was interrupted, which is tried again.
pub fn next_line<R: BufRead>(input: &mut R, line: &mut Vec<u8>) -> io::Result<LineEnd>
    ensures taken { IfOk result (λ end. (bytes : List ℕ)
        × TakesLine (R.remaining input.old) (R.remaining input.new) bytes end.is_last
        × (end.is_whole ≡ true → line.new.items ≡ bytes)) }
{
    line.clear();
    let came = input.read_until(NEWLINE, line);
    let has_newline = take_newline(line);
    match came {
        Ok(_) => Ok(LineEnd {
            is_whole: true,
            is_last: !has_newline,
        }),
        Err(error) => {
            if error.kind() != ErrorKind::OutOfMemory {
                return Err(error);
            }
            line.clear();
            let is_last = if has_newline {
                false
            } else {
                pass_over(input)?
            };
            Ok(LineEnd {
                is_whole: false,
                is_last,
            })
        }
    }
}

// Takes off the newline at the end, if there is one. Returns whether there was.
fn take_newline(line: &mut Vec<u8>) -> bool
    ensures value { result ≡ ends_with_byte 10 line.old.items }
    ensures line { line.new.items ≡ strip_last 10 line.old.items }
{
    if line.last().copied() == Some(NEWLINE) {
        line.pop();
        true
    } else {
        false
    }
}

// Passes over the bytes to the end of the line. Returns whether that is the end of the input.
fn pass_over<R: BufRead>(input: &mut R) -> io::Result<bool>
    ensures { IfOk result (PassesLine (R.remaining input.old) (R.remaining input.new)) }
{
    let mut byte = [0; 1];
    for _ in 0..u64::MAX {
        match input.read(&mut byte) {
            Ok(0) => return Ok(true),
            Ok(_) => {
                if byte[0] == NEWLINE {
                    return Ok(false);
                }
            }
            Err(error) => {
                if error.kind() != ErrorKind::Interrupted {
                    return Err(error);
                }
            }
        }
    }
    Err(io::Error::from(ErrorKind::TimedOut))
}
