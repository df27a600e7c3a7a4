//! Buffers of the caller, which take what a call comes to.
ghost use Rattle.std.specs.Prelude.{◌≡◌, ◌≤◌};
ghost use Rattle.mirfodwel.specs.Handed.{IsHandedOut, IsToldAs, IsThis};

use crate::status::{BAD_INPUT, NO_MEMORY, NO_ROOM};

/// Hands out all of this by the buffer, with the status that it came with. Where the buffer is too small, nothing is
/// written to it, and the status is `NO_ROOM`. `used` says how many there are.
pub(crate) fn hand_out<T: Copy>(status: u8, all: &[T], out: &mut [T], used: &mut usize) -> u8
    ensures { IsHandedOut (IsThis status all.now) out.old out.new used.new result }
{
    let count = all.len();
    *used = count;
    if out.len() < count {
        return NO_ROOM;
    }
    out[..count].copy_from_slice(all);
    status
}

/// Hands out what a program told: its lines, or the reason for which it ended early. What it read and wrote was in
/// memory, so that nothing else can fail.
pub(crate) fn hand_out_told(
    status: u8,
    lines: &[u8],
    reason: &[u8],
    out: &mut [u8],
    used: &mut usize,
) -> u8
    ensures { IsHandedOut (IsToldAs status lines.now) out.old out.new used.new result }
{
    match status {
        0 | 1 => hand_out(status, lines, out, used),
        2 => hand_out(BAD_INPUT, reason, out, used),
        _ => hand_out(NO_MEMORY, b"out of memory\n", out, used),
    }
}
