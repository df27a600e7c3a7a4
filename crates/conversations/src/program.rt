//! A conversation with a reader and a writer.
ghost use Rattle.std.specs.Prelude.{◌≡◌, ◌≢◌, ◌≤◌, ◌<◌, ◌==◌};
ghost use Rattle.conversations.specs.Conversation.{IsBrokenOff, IsHeld, MayCome};

use crate::known::{Conversation, Lending};
use crate::turns::hold;
use delegate_parts::Outcome;
use line_texts::Flush;
use open_tables::{OpenDelegate, OpenTable};
use program_ends::status_told;
use rule_tables::Goal;
use search_context::context::{Cx, Delegate};
use std::alloc::Global;
use std::io::{Read, Write};

/// Holds a conversation: reads lines, does what each says by the rules as they stand, and writes what is told of it, flushed,
/// before it reads the next one.
///
/// A line is `rule NAME = K:NAME ..`, `rule ~NAME = ..`, `forget NAME` or `ask DEPTH NAME`; lines without words and comments are
/// passed over. An `ask` is told as `goals` tells it, `NAME yes 3 checked`; a line that is malformed as `line 7: malformed`, and
/// one for which memory was refused as `line 7: out of memory`. Neither changes anything, and the conversation goes on. Nothing is
/// told of other lines.
///
/// The answer is the exit status. At the end of the input it is 0, and 1 where a question met a fault or was unchecked, or a
/// line was malformed or refused. It is 3 where a read or write failed, and 4 where there was no memory to begin with, or for what
/// is told of a line: then the conversation ends there, the reason stands on the second writer, and a failure to write
/// that changes nothing.
pub fn converse<R: Read + Drop, W: Write, E: Write + Drop>(
    alloc: Global,
    input: R,
    out: &mut W,
    err: E,
) -> u8
    ensures status { result ≤ 4 }
    ensures never_two { result ≢ 2 }

    // All lines were taken in turn, each by the rules as they stood, and what is told of them was written; 0 says that all
    // were fine.
    ensures held { result ≤ 1 → IsHeld (MayCome
        ⟦<OpenDelegate<&'static OpenTable> as Delegate>⟧ ⟦<Lending<'static> as Cx>⟧
        ⟦<Goal as PartialEq>⟧.eq ⟦<Outcome as PartialEq>⟧.eq)
        (R.remaining input) (W.contents out.old) (W.contents out.new) (result == 0) }

    // What was written before a failure is a beginning of that.
    ensures broken_off { 1 < result → IsBrokenOff (MayCome
        ⟦<OpenDelegate<&'static OpenTable> as Delegate>⟧ ⟦<Lending<'static> as Cx>⟧
        ⟦<Goal as PartialEq>⟧.eq ⟦<Outcome as PartialEq>⟧.eq)
        (R.remaining input) (W.contents out.old) (W.contents out.new) }
{
    converse_with(alloc, input, out, err)
}

fn converse_with<R: Read + Drop, W: Flush, E: Write + Drop>(
    alloc: Global,
    input: R,
    out: &mut W,
    err: E,
) -> u8
    ensures status { result ≤ 4 }
    ensures never_two { result ≢ 2 }
    ensures held { result ≤ 1 → IsHeld (MayCome
        ⟦<OpenDelegate<&'static OpenTable> as Delegate>⟧ ⟦<Lending<'static> as Cx>⟧
        ⟦<Goal as PartialEq>⟧.eq ⟦<Outcome as PartialEq>⟧.eq)
        (R.remaining input) (W.contents out.old) (W.contents out.new) (result == 0) }
    ensures broken_off { 1 < result → IsBrokenOff (MayCome
        ⟦<OpenDelegate<&'static OpenTable> as Delegate>⟧ ⟦<Lending<'static> as Cx>⟧
        ⟦<Goal as PartialEq>⟧.eq ⟦<Outcome as PartialEq>⟧.eq)
        (R.remaining input) (W.contents out.old) (W.contents out.new) }
{
    let came = hold(alloc, Conversation::new(alloc), input, out);
    status_told(came, err)
}
