//! Texts go in, and the lines of their answers come out, as the programs write them. No call keeps anything.
ghost use Rattle.std.specs.Prelude.{◌≡◌, ◌≤◌, ◌<◌, ◌==◌, ℕ, [], IfSome, None, Some};
ghost use Rattle.graph_data.specs.Page.{IsPageText};
ghost use Rattle.graph_pages.specs.Program.{IsJudgedPage, ShowsAnswers};
ghost use Rattle.mirfodwel.specs.Handed.{IsHandedOut};
ghost use Rattle.mirfodwel.specs.Texts.{IsWorkedThrough, form_of};
ghost use Rattle.table_runs.specs.Below.{IsFirstBadLine};
ghost use Rattle.table_runs.specs.Program.{IsAllTold};
ghost use Rattle.type_runs.specs.Program as types;

use crate::buffers::hand_out_told;
use crate::status::UNKNOWN;
use search_context::context::{Cx, Delegate};
use shown_graphs::{Form, NoProgress};
use std::alloc::Global;
use table_runs::delegate::Table;
use table_runs::{Checks, Goal, Outcome, Rules, TableDelegate};

/// Answers the questions of the text, and checks the graph of each yes and no, as the program `goals` does. Its lines
/// are written to the front of `out`, and `used` says how many bytes they have. The status is `DONE` where all
/// questions were answered, and `FAULT` where one met a fault.
///
/// `BAD_INPUT` where a line is malformed, and `NO_MEMORY`: `out` has the reason in words. `NO_ROOM`: nothing was
/// written to `out`, and `used` says how many bytes are wanted.
#[unsafe(no_mangle)]
pub extern "C" fn mirfodwel_goals(
    alloc: Global,
    text: &[u8],
    out: &mut [u8],
    used: &mut usize,
) -> u8
    ensures { IsHandedOut (IsWorkedThrough (λ lines. IsAllTold
        ⟦<TableDelegate<'static, 8, 1> as Delegate>⟧ ⟦<Table<&'static Rules> as Cx>⟧
        ⟦<Goal as PartialEq>⟧.eq ⟦<Outcome as PartialEq>⟧.eq Checks.EachGraph
        (Some text.now) (Some []) (Some lines)) ((n : ℕ) × IsFirstBadLine text.now n))
        out.old out.new used.new result }
{
    let mut lines = Vec::new(alloc);
    let mut reason = Vec::new(alloc);
    let status = table_runs::run(alloc, text, &mut lines, &mut reason);
    hand_out_told(status, lines.as_slice(), reason.as_slice(), out, used)
}

/// The same without checks, as the program `answers` does.
#[unsafe(no_mangle)]
pub extern "C" fn mirfodwel_answers(
    alloc: Global,
    text: &[u8],
    out: &mut [u8],
    used: &mut usize,
) -> u8
    ensures { IsHandedOut (IsWorkedThrough (λ lines. IsAllTold
        ⟦<TableDelegate<'static, 8, 1> as Delegate>⟧ ⟦<Table<&'static Rules> as Cx>⟧
        ⟦<Goal as PartialEq>⟧.eq ⟦<Outcome as PartialEq>⟧.eq Checks.Nothing
        (Some text.now) (Some []) (Some lines)) ((n : ℕ) × IsFirstBadLine text.now n))
        out.old out.new used.new result }
{
    let mut lines = Vec::new(alloc);
    let mut reason = Vec::new(alloc);
    let status = table_runs::answer(alloc, text, &mut lines, &mut reason);
    hand_out_told(status, lines.as_slice(), reason.as_slice(), out, used)
}

/// Shows of each question of the text what it came to, with its graph, as the program `explain` does: 0 as text, 1 in
/// the language of Graphviz, 2 as data. `FAULT` where a question met a fault or its graph was refused; else as
/// `mirfodwel_goals`.
///
/// `UNKNOWN` where there is no such form: nothing is changed.
#[unsafe(no_mangle)]
pub extern "C" fn mirfodwel_explain(
    alloc: Global,
    form: u8,
    text: &[u8],
    out: &mut [u8],
    used: &mut usize,
) -> u8
    ensures told { form ≤ 2 → IsHandedOut (IsWorkedThrough (λ lines. ShowsAnswers
        ⟦<TableDelegate<'static, 8, 1> as Delegate>⟧ ⟦<Table<&'static Rules> as Cx>⟧
        (Some text.now) (Some []) (Some lines) (form_of form)) ((n : ℕ) × IsFirstBadLine text.now n))
        out.old out.new used.new result }
    ensures unknown { 2 < form → result ≡ 7 }
    ensures kept { 2 < form → out.new ≡ out.old }
    ensures kept_used { 2 < form → used.new ≡ used.old }
{
    let Some(form) = form_of(form) else {
        return UNKNOWN;
    };
    let mut lines = Vec::new(alloc);
    let mut reason = Vec::new(alloc);
    let status = shown_graphs::explain(alloc, form, text, &mut lines, &mut reason, NoProgress);
    hand_out_told(status, lines.as_slice(), reason.as_slice(), out, used)
}

/// The form of this number. In text, goals stand that lie no more than 100 steps below the question's.
pub(crate) fn form_of(number: u8) -> Option<Form>
    ensures known { number ≤ 2 → result ≡ Some (form_of number) }
    ensures its { IfSome result (λ form. (number ≤ 2) × (form ≡ form_of number)) }
    ensures unknown { 2 < number → result ≡ None }
{
    match number {
        0 => Some(Form::Text { depth: 100 }),
        1 => Some(Form::Dot),
        2 => Some(Form::Data),
        _ => None,
    }
}

/// Checks graphs as data, as `mirfodwel_explain` writes them in the form 2, and says of each on a line whether it is
/// accepted. `FAULT` where one is refused, and `BAD_INPUT` for data of another form; else as `mirfodwel_goals`.
#[unsafe(no_mangle)]
pub extern "C" fn mirfodwel_check(
    alloc: Global,
    text: &[u8],
    out: &mut [u8],
    used: &mut usize,
) -> u8
    ensures { IsHandedOut (IsWorkedThrough (λ lines. IsJudgedPage
        ⟦<TableDelegate<'static, 8, 1> as Delegate>⟧ ⟦<Table<&'static Rules> as Cx>⟧
        (Some text.now) (Some []) (Some lines)) (¬ (IsPageText text.now)))
        out.old out.new used.new result }
{
    let mut lines = Vec::new(alloc);
    let mut reason = Vec::new(alloc);
    let status = shown_graphs::check(alloc, text, &mut lines, &mut reason, NoProgress);
    hand_out_told(status, lines.as_slice(), reason.as_slice(), out, used)
}

/// Answers which types of the text are below which, as the program `subtypes` does. `FAULT` where a question met a
/// fault, and `BAD_INPUT` where a line is malformed or its names are not in order; else as `mirfodwel_goals`.
#[unsafe(no_mangle)]
pub extern "C" fn mirfodwel_subtypes(
    alloc: Global,
    text: &[u8],
    out: &mut [u8],
    used: &mut usize,
) -> u8
    ensures { IsHandedOut (IsWorkedThrough
        (λ lines. types.IsAllTold (Some text.now) (Some []) (Some lines)) (types.IsRefused text.now))
        out.old out.new used.new result }
{
    let mut lines = Vec::new(alloc);
    let mut reason = Vec::new(alloc);
    let status = type_runs::run(alloc, text, &mut lines, &mut reason);
    hand_out_told(status, lines.as_slice(), reason.as_slice(), out, used)
}
