//! One line of a conversation.
ghost use Rattle.std.specs.Prelude.{◌≡◌, ◌≤◌, ℕ, List, All, false, IfErr, IfOk, OnOk, length, map};
ghost use Rattle.conversation_lines.specs.Grammar.{Forget, OfTable, Says};
ghost use Rattle.conversations.specs.Conversation.{Malformed, MayCome, Refused, words_of};
ghost use Rattle.conversations.specs.Known.{Takes};
ghost use Rattle.rule_tables.specs.Grammar as table;
ghost use Rattle.rule_tables.specs.Question.{HasShortName, named};

use crate::known::{Conversation, Lending};
use crate::turns::TakesLines;
use answer_lines::goals::write_line;
use conversation_lines::{LineEnd, Said, said_by};
use delegate_parts::Outcome;
use open_tables::{OpenDelegate, OpenTable};
use program_ends::Stop;
use rule_tables::{BadLine, Goal, Line, LineFault, Question};
use search_context::context::{Cx, Delegate, NoMemory};
use std::io::Write;
use table_runs::came_fine;

impl TakesLines for Conversation {
    ghost use Rattle.conversations.specs.Conversation.{MayCome};

    ghost table = { λ table. table };

    ghost may_come = { MayCome ⟦<OpenDelegate<&'static OpenTable> as Delegate>⟧ ⟦<Lending<'static> as Cx>⟧ ⟦<Goal as PartialEq>⟧.eq ⟦<Outcome as PartialEq>⟧.eq };

    fn take(
        &mut self,
        number: u64,
        end: LineEnd,
        line: &[u8],
        told: &mut Vec<u8>,
    ) -> Result<bool, Stop<BadLine>> {
        if end.is_whole {
            take_line(self, number, line, told)
        } else {
            tell_refused(told, number)
        }
    }
}

// Takes the line, and puts into the list what is told of it. Returns whether it is fine.
fn take_line(
    known: &mut Conversation,
    number: u64,
    line: &[u8],
    told: &mut Vec<u8>,
) -> Result<bool, Stop<BadLine>>
    ensures took { IfOk result (Takes (MayCome ⟦<OpenDelegate<&'static OpenTable> as Delegate>⟧
        ⟦<Lending<'static> as Cx>⟧ ⟦<Goal as PartialEq>⟧.eq ⟦<Outcome as PartialEq>⟧.eq)
        known.old known.new number line.now told.new.items) }
    ensures fault { IfErr result (λ stop. stop ≡ Stop.Memory) }
{
    match said_by(known.allocator(), line) {
        Ok(Said::OfTable(Line::PassedOver)) => {
            told.clear();
            Ok(true)
        }
        Ok(
            Said::OfTable(
                Line::Rule {
                    is_marked,
                    name,
                    questions,
                },
            ),
        ) => add_rule(known, number, is_marked, name, questions.as_slice(), told),
        Ok(Said::OfTable(Line::Ask { depth, name })) => ask(known, number, depth, name, told),
        Ok(Said::Forget { name }) => forget(known, number, name, told),
        Err(LineFault::Malformed) => tell_malformed(told, number),
        Err(LineFault::Memory) => tell_refused(told, number),
    }
}

// Takes a line that says one more rule of the name.
fn add_rule(
    known: &mut Conversation,
    number: u64,
    is_marked: bool,
    name: &[u8],
    questions: &[Question<'_>],
    told: &mut Vec<u8>,
) -> Result<bool, Stop<BadLine>>
    requires name { length name.now ≤ 16 }
    requires questions { All HasShortName questions.now }
    ensures took { (line : List ℕ) → Says line (OfTable (table.Rule is_marked name.now (map named questions.now))) →
        IfOk result (Takes (MayCome ⟦<OpenDelegate<&'static OpenTable> as Delegate>⟧
        ⟦<Lending<'static> as Cx>⟧ ⟦<Goal as PartialEq>⟧.eq ⟦<Outcome as PartialEq>⟧.eq)
        known.old known.new number line told.new.items) }
    ensures fault { IfErr result (λ stop. stop ≡ Stop.Memory) }
{
    told.clear();
    match known.add_rule(is_marked, name, questions) {
        Ok(()) => Ok(true),
        Err(NoMemory) => tell_refused(told, number),
    }
}

// Takes a line that asks the name at this depth.
fn ask(
    known: &mut Conversation,
    number: u64,
    depth: usize,
    name: &[u8],
    told: &mut Vec<u8>,
) -> Result<bool, Stop<BadLine>>
    requires name { length name.now ≤ 16 }
    ensures took { (line : List ℕ) → Says line (OfTable (table.Ask depth name.now)) →
        IfOk result (Takes (MayCome ⟦<OpenDelegate<&'static OpenTable> as Delegate>⟧
        ⟦<Lending<'static> as Cx>⟧ ⟦<Goal as PartialEq>⟧.eq ⟦<Outcome as PartialEq>⟧.eq)
        known.old known.new number line told.new.items) }
    ensures fault { IfErr result (λ stop. stop ≡ Stop.Memory) }
{
    told.clear();
    match known.ask(depth, name) {
        Ok(came) => match write_line(told, name, came) {
            Ok(()) => Ok(came_fine(came)),
            Err(_) => Err(Stop::Memory),
        },
        Err(NoMemory) => tell_refused(told, number),
    }
}

// Takes a line that says that the rules of the name go.
fn forget(
    known: &mut Conversation,
    number: u64,
    name: &[u8],
    told: &mut Vec<u8>,
) -> Result<bool, Stop<BadLine>>
    requires name { length name.now ≤ 16 }
    ensures took { (line : List ℕ) → Says line (Forget name.now) →
        IfOk result (Takes (MayCome ⟦<OpenDelegate<&'static OpenTable> as Delegate>⟧
        ⟦<Lending<'static> as Cx>⟧ ⟦<Goal as PartialEq>⟧.eq ⟦<Outcome as PartialEq>⟧.eq)
        known.old known.new number line told.new.items) }
    ensures fault { IfErr result (λ stop. stop ≡ Stop.Memory) }
{
    told.clear();
    match known.forget(name) {
        Ok(()) => Ok(true),
        Err(NoMemory) => tell_refused(told, number),
    }
}

// Puts into the list that the line of this number is malformed, which is not fine.
fn tell_malformed(told: &mut Vec<u8>, number: u64) -> Result<bool, Stop<BadLine>>
    ensures words { OnOk result (told.new.items ≡ words_of number Malformed) }
    ensures not_fine { IfOk result (λ fine. fine ≡ false) }
    ensures fault { IfErr result (λ stop. stop ≡ Stop.Memory) }
{
    told.clear();
    writeln!(told, "line {number}: malformed").map_err(|_| Stop::Memory)?;
    Ok(false)
}

// Puts into the list that memory was refused for the line of this number, which is not fine.
fn tell_refused(told: &mut Vec<u8>, number: u64) -> Result<bool, Stop<BadLine>>
    ensures words { OnOk result (told.new.items ≡ words_of number Refused) }
    ensures not_fine { IfOk result (λ fine. fine ≡ false) }
    ensures fault { IfErr result (λ stop. stop ≡ Stop.Memory) }
{
    told.clear();
    writeln!(told, "line {number}: out of memory").map_err(|_| Stop::Memory)?;
    Ok(false)
}
