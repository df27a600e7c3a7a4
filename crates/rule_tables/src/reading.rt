//! Reading a table of rules.
ghost use Rattle.std.specs.Prelude.{◌≡◌, ℕ, IfOk, OnOk};
ghost use Rattle.rule_tables.specs.Words.{Statement, Says, IsMalformed, Adds, Reads, IsFirstBadLine};

mod depth;
pub(super) mod line;
pub(super) mod question;

use crate::draft::Draft;
use crate::rules::Rules;
use line::{FEW, LineFault, Said, said_by};
use question::Question;
use search_context::context::NoMemory;
use smallvec::SmallVec;
use std::alloc::Global;
use thiserror::Error;

/// Why a text was not read.
#[derive(Clone, Copy, Debug, PartialEq, Eq, Error)]
pub enum ReadFault {
    /// The first malformed line. Lines are counted from 1.
    #[error("line {0}: bad line")]
    BadLine(usize),
    /// The table could not grow.
    #[error("out of memory")]
    Memory,
}

impl Rules {
    /// Reads rules and questions, one a line:
    ///
    /// - `rule NAME = K:NAME K:NAME ..` is one candidate of the first name, with these questions in
    ///   order, none or more; a mark `~` before the first name marks the candidate;
    /// - `ask DEPTH NAME` is a question to be answered.
    ///
    /// Words are parted by one or more spaces. A name is 1 to 16 ASCII letters, digits and `_`. `K`
    /// is `i` (inductive), `u` (unknown), `c` (coinductive) or `f` (forced ambiguity). A depth is 1 to
    /// 7 decimal digits. A line without words, and one whose first word begins with `#`, is passed
    /// over. Newlines end the lines, and the last one may lack it.
    ///
    /// `BadLine` gives the first line of another form, unless memory runs out before it is reached.
    pub fn read(alloc: Global, text: &[u8]) -> Result<Rules, ReadFault>
        ensures ok { IfOk result (Reads text.now) }
        ensures bad_line { (n : ℕ) → result ≡ Err (ReadFault.BadLine n) →
            IsFirstBadLine text.now n }
    {
        let Ok(mut draft) = Draft::new(alloc) else {
            return Err(ReadFault::Memory);
        };
        let mut questions = SmallVec::new(alloc);
        for (before, line) in text.split(|byte| *byte == b'\n').enumerate() {
            match read_line(line, &mut questions, &mut draft) {
                Ok(()) => {}
                Err(LineFault::Malformed) => return Err(ReadFault::BadLine(before + 1)),
                Err(LineFault::Memory) => return Err(ReadFault::Memory),
            }
        }
        match draft.finish(alloc) {
            Ok(rules) => Ok(rules),
            Err(NoMemory) => Err(ReadFault::Memory),
        }
    }
}

// The list has room for the questions of a line.
fn read_line<'a>(
    line: &'a [u8],
    questions: &mut SmallVec<Question<'a>, FEW>,
    draft: &mut Draft,
) -> Result<(), LineFault>
    ensures ok { OnOk result ((s : Statement) × Says line.now s × Adds s draft.old draft.new) }
    ensures malformed { result ≡ Err LineFault.Malformed → IsMalformed line.now }
{
    match said_by(line, questions)? {
        Said::PassedOver => {}
        Said::Rule { is_marked, name } => draft.add_rule(is_marked, name, questions.as_slice())?,
        Said::Ask { depth, name } => draft.add_question(depth, name)?,
    }
    Ok(())
}
