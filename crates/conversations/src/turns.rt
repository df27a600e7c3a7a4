//! Lines that are taken in turn, whatever takes them.
ghost use Rattle.std.specs.Prelude.{◌≡◌, ◌⊎◌, ℕ, List, [], true, IfErr, IfOk, OnErr, OnOk};
ghost use Rattle.std.specs.Io.Buffered.{reader_remaining};
ghost use Rattle.std.specs.Io.KnownBytes.{Appends};
ghost use Rattle.conversations.specs.Below.{Change, IsOpenTableOf, Table};
ghost use Rattle.conversations.specs.Conversation.{Came, IsBrokenOff, IsHeld};
ghost use Rattle.conversations.specs.Known.{Takes, TurnBroke, Turned};
ghost use Rattle.line_texts.specs.Writing.{AppendsBeginning};

use conversation_lines::{LineEnd, next_line};
use line_texts::{Flush, write_bytes};
use program_ends::Stop;
use rule_tables::BadLine;
use std::alloc::Global;
use std::io::{BufRead, BufReader, Read};

/// Room for what is told of a line. It grows where more is wanted.
const ROOM: usize = 128;

/// What takes lines, by rules that they change.
pub(super) trait TakesLines: Drop {
    /// The rules as they stand.
    ghost table: { Self → Table };

    /// What may come of a line, where the rules have these changes.
    ghost may_come: { List Change → List ℕ → Came → Type 0 };

    /// Takes the line of this number, which ended so, and puts into the list what is told of it. Of one for which memory was
    /// refused `line` has nothing. Returns whether it is fine. An error where there was no memory for what is told.
    fn take(
        &mut self,
        number: u64,
        end: LineEnd,
        line: &[u8],
        told: &mut Vec<u8>,
    ) -> Result<bool, Stop<BadLine>>
        ensures took { (bytes : List ℕ) → (end.is_whole ≡ true → line.now ≡ bytes) →
            IfOk result (Takes may_come (table self.old) (table self.new) number bytes told.new.items) }
        ensures fault { IfErr result (λ stop. stop ≡ Stop.Memory) };
}

/// Reads all lines, takes each in turn, and writes what is told of it, flushed, before the next one is read. Returns whether all
/// were fine. An error where a read or write failed, or memory was out to begin with or for what is told of a line.
pub(super) fn hold<K: TakesLines, R: Read + Drop, W: Flush>(
    alloc: Global,
    mut known: K,
    input: R,
    out: &mut W,
) -> Result<bool, Stop<BadLine>>
    requires { IsOpenTableOf [] (K.table known) }
    ensures held { IfOk result (IsHeld K.may_come
        (R.remaining input) (W.contents out.old) (W.contents out.new)) }
    ensures broken_off { OnErr result (IsBrokenOff K.may_come
        (R.remaining input) (W.contents out.old) (W.contents out.new)) }
    ensures fault { IfErr result (λ stop. (stop ≡ Stop.InputOrOutput) ⊎ (stop ≡ Stop.Memory)) }
{
    let mut input = buffered(alloc, input)?;
    let mut told = Vec::with_capacity(alloc, ROOM)?;
    let mut line = Vec::new(alloc);
    let mut all_fine = true;
    for before in 0..u64::MAX {
        let end = take_turn(
            &mut input,
            &mut line,
            &mut known,
            before + 1,
            &mut told,
            out,
        )?;
        all_fine &= end.is_fine;
        if end.is_last {
            return Ok(all_fine);
        }
    }
    Err(Stop::InputOrOutput)
}

// The reader with a buffer, of which nothing was read yet.
fn buffered<R: Read + Drop>(alloc: Global, input: R) -> Result<BufReader<R>, Stop<BadLine>>
    ensures unread { IfOk result (λ reader. reader_remaining R.remaining reader ≡ R.remaining input) }
    ensures fault { IfErr result (λ stop. stop ≡ Stop.Memory) }
{
    match BufReader::new(alloc, input) {
        Ok(reader) => Ok(reader),
        Err(_) => Err(Stop::Memory),
    }
}

// What came of a turn.
#[derive(Clone, Copy)]
struct TurnEnd {
    // No question met a fault, no graph was refused, and the line was neither malformed nor refused.
    is_fine: bool,
    // No line follows.
    is_last: bool,
}

// Reads the line of this number into the list, takes it by the rules as they stand, and writes what is told of it, flushed. The
// lists are room for the line and what is told of it, whatever they have. An error where a read or write failed, or there was
// no memory for what is told.
fn take_turn<K: TakesLines, R: BufRead, W: Flush>(
    input: &mut R,
    line: &mut Vec<u8>,
    known: &mut K,
    number: u64,
    told: &mut Vec<u8>,
    out: &mut W,
) -> Result<TurnEnd, Stop<BadLine>>
    ensures turned { IfOk result (λ end. Turned K.may_come
        (Appends (W.contents out.old) (W.contents out.new)) (R.remaining input.old) (R.remaining input.new)
        (K.table known.old) (K.table known.new) number end.is_fine end.is_last) }

    // What is told is flushed before the next line is read.
    ensures flushed { OnOk result (W.is_flushed out.new) }
    ensures broke { OnErr result (TurnBroke K.may_come
        (W.contents out.old) (W.contents out.new) (R.remaining input.old) (R.remaining input.new)
        (K.table known.old) (K.table known.new) number) }
    ensures fault { IfErr result (λ stop. (stop ≡ Stop.InputOrOutput) ⊎ (stop ≡ Stop.Memory)) }
{
    let end = next_line(input, line)?;
    let is_fine = known.take(number, end, line.as_slice(), told)?;
    tell(out, told.as_slice())?;
    Ok(TurnEnd {
        is_fine,
        is_last: end.is_last,
    })
}

// Writes what is told of a line, at once.
fn tell<W: Flush>(out: &mut W, told: &[u8]) -> Result<(), Stop<BadLine>>
    ensures written { OnOk result (Appends (W.contents out.old) (W.contents out.new) told.now) }
    ensures flushed { OnOk result (W.is_flushed out.new) }
    ensures beginning { OnErr result
        (AppendsBeginning (W.contents out.old) (W.contents out.new) told.now) }
    ensures fault { IfErr result (λ stop. stop ≡ Stop.InputOrOutput) }
{
    write_bytes(out, told)?;
    out.flush_all()?;
    Ok(())
}
