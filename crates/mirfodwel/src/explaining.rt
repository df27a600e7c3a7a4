//! Goals are asked, and shown with their graphs.
ghost use Rattle.std.specs.Prelude.{◌≡◌, ◌<◌, ◌≤◌, ◌==◌, [], IfErr, IfOk, MatchOption, Some};
ghost use Rattle.graph_pages.specs.Program.{ShowsAnswers};
ghost use Rattle.mirfodwel.specs.Given.{Explains, IsRefused};
ghost use Rattle.mirfodwel.specs.Rows.{goals_in, rows_in};
ghost use Rattle.mirfodwel.specs.TableText.{text_asking};
ghost use Rattle.mirfodwel.specs.Texts.{IsForMemory, form_of};

use crate::buffers::hand_out;
use crate::handle::Handle;
use crate::inside::Inside;
use crate::labels::labels_of;
use crate::status::{DONE, FAULT, NO_MEMORY, UNKNOWN, WRONG_STATE};
use crate::table_text::table_text;
use crate::texts::form_of;
use search_context::context::{Cx, Delegate};
use shown_graphs::{Form, NoProgress, Stop, show_text};
use std::alloc::Global;
use table_runs::delegate::Table;
use table_runs::{Rules, TableDelegate};

// A page, and how it went.
#[derive(Drop)]
struct Page {
    status: u8,
    text: Vec<u8>,
}

/// Asks the goal of this number at this depth, or at 9999999 where it is greater, over a cache of its own, and shows
/// what it came to with its graph, in a form as for `mirfodwel_explain`. A goal is called by its line of `names`, and
/// by its number where that is empty or there is none; as data always by its number.
///
/// `FAULT` where the question met a fault or its graph was refused. `UNKNOWN` where there is no such goal or form.
/// `NO_ROOM`: nothing was written to `out`, and `used` says how many bytes are wanted. `NO_MEMORY`. `WRONG_STATE` where
/// the session is not open.
#[unsafe(no_mangle)]
pub extern "C" fn mirfodwel_explain_goal(
    alloc: Global,
    handle: &mut Handle,
    form: u8,
    depth: usize,
    goal: u32,
    names: &[u8],
    out: &mut [u8],
    used: &mut usize,
) -> u8
    ensures explained { MatchOption handle.old.address.inside (IsRefused 6 out.old out.new used.old used.new result)
        (λ inside. Explains (λ page. ShowsAnswers
        ⟦<TableDelegate<'static, 8, 1> as Delegate>⟧ ⟦<Table<&'static Rules> as Cx>⟧
        (Some (text_asking (rows_in inside) depth goal)) (Some []) (Some page) (form_of form))
        inside form goal out.old out.new used.old used.new result) }
    ensures same { handle.new.address.inside ≡ handle.old.address.inside }
{
    let Some(inside) = handle.take(alloc) else {
        return WRONG_STATE;
    };
    let status = give_page(alloc, &inside, form, depth, goal, names, out, used);
    *handle = Handle::of(inside);
    status
}

fn give_page(
    alloc: Global,
    inside: &Inside,
    form: u8,
    depth: usize,
    goal: u32,
    names: &[u8],
    out: &mut [u8],
    used: &mut usize,
) -> u8
    ensures { Explains (λ page. ShowsAnswers
        ⟦<TableDelegate<'static, 8, 1> as Delegate>⟧ ⟦<Table<&'static Rules> as Cx>⟧
        (Some (text_asking (rows_in inside.now) depth goal)) (Some []) (Some page) (form_of form))
        inside.now form goal out.old out.new used.old used.new result }
{
    let Some(form) = form_of(form) else {
        return UNKNOWN;
    };
    if !inside.has_goal(goal) {
        return UNKNOWN;
    }
    match shown(alloc, inside, form, depth, goal, names) {
        Ok(Page { status, text }) => hand_out(status, text.as_slice(), out, used),
        // The text of rows is in order, so that each line of it is read.
        Err(Stop::BadLine(_) | Stop::BadData(_)) => unreachable!(),
        Err(Stop::InputOrOutput | Stop::Memory) => NO_MEMORY,
    }
}

// What the goal came to: `FAULT` where the question met a fault or its graph was refused, and else `DONE`.
fn shown(
    alloc: Global,
    inside: &Inside,
    form: Form,
    depth: usize,
    goal: u32,
    names: &[u8],
) -> Result<Page, Stop>
    ensures page { IfOk result (λ page. (page.status ≤ 1) × ShowsAnswers
        ⟦<TableDelegate<'static, 8, 1> as Delegate>⟧ ⟦<Table<&'static Rules> as Cx>⟧
        (Some (text_asking (rows_in inside.now) depth goal)) (Some []) (Some page.text.items) form
        (page.status == 0)) }
    ensures memory { goal < goals_in inside.now → IfErr result IsForMemory }
{
    let rules = table_text(alloc, inside.session.lender(), depth, goal)?;
    let labels = labels_of(alloc, names)?;
    let mut text = Vec::new(alloc);
    let is_fine = show_text::<8, Vec<u8>, NoProgress>(
        alloc,
        form,
        rules.as_slice(),
        labels.as_slice(),
        &mut text,
        NoProgress,
    )?;
    let status = if is_fine { DONE } else { FAULT };
    Ok(Page { status, text })
}
