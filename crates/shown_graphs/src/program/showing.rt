//! How the questions of a text are shown.
ghost use Rattle.std.specs.Prelude.{◌≡◌, ◌⊎◌, IfErr, IfOk, Some};
ghost use Rattle.shown_graphs.specs.Below.{verdicts};
ghost use Rattle.graph_pages.specs.Program.{EndsShowing, ShowsAnswers};
ghost use Rattle.graph_pages.specs.Shown.{AreShown};

use crate::answer::ask;
use delegate_parts::{Builder, Outcomes};
use graph_pages::{Form, Page, Stop};
use graph_texts::Labelled;
use line_texts::read_input;
use rule_tables::delegate::Table;
use rule_tables::{Goal, Rules, TableDelegate};
use search_context::context::{Cx, Delegate};
use search_parts::global_cache::GlobalCache;
use std::alloc::Global;
use std::io::{Read, Write};
use watched_runs::{Progress, Watcher, Watching};

/// Whether each question was answered, and no graph refused.
pub(super) fn show_input<const LIMIT: usize, R: Read, W: Write, P: Progress>(
    alloc: Global,
    form: Form,
    input: &mut R,
    out: &mut W,
    progress: P,
) -> Result<bool, Stop>
    ensures told { IfOk result (ShowsAnswers ⟦<TableDelegate<'static, LIMIT, 1> as Delegate>⟧
        ⟦<Table<&'static Rules> as Cx>⟧ (R.remaining input.old)
        (W.contents out.old) (W.contents out.new) form) }
    ensures ended { IfErr result (EndsShowing (R.remaining input.old)
        (W.contents out.old) (W.contents out.new)) }
{
    let text = read_input(alloc, input)?;
    show_text::<LIMIT, W, P>(alloc, form, text.as_slice(), &[], out, progress)
}

/// Shows how the questions of a text are answered, as `explain_within` does. Goals whose names are numbers are called by the labels
/// of these numbers, where there are such, but in data. Whether each question was answered, and no graph refused.
pub fn show_text<const LIMIT: usize, W: Write, P: Progress>(
    alloc: Global,
    form: Form,
    text: &[u8],
    labels: &[Vec<u8>],
    out: &mut W,
    progress: P,
) -> Result<bool, Stop>
    ensures told { IfOk result (ShowsAnswers ⟦<TableDelegate<'static, LIMIT, 1> as Delegate>⟧
        ⟦<Table<&'static Rules> as Cx>⟧ (Some text.now)
        (W.contents out.old) (W.contents out.new) form) }
    ensures ended { IfErr result (EndsShowing (Some text.now)
        (W.contents out.old) (W.contents out.new)) }
{
    let rules = Rules::read(alloc, text)?;
    let page = Page::new(alloc, form, text)?;
    show_questions::<Table<&Rules>, TableDelegate<'_, LIMIT, 1>, W, P>(
        alloc,
        Table { lender: &rules },
        Labelled {
            rules: &rules,
            labels,
        },
        page,
        out,
        progress,
    )
}

// Each question is asked on a graph of its own, over one cache, and shown.
fn show_questions<X, D, W, P>(
    alloc: Global,
    cx: X,
    shown: Labelled<'_>,
    mut page: Page,
    out: &mut W,
    progress: P,
) -> Result<bool, Stop>
where
    X: Outcomes<Input = Goal>,
    D: Delegate<Cx = X, ProofTreeBuilder = Builder>,
    W: Write,
    P: Progress,
    ensures shown { IfOk result (AreShown (verdicts X.Cx) (D.script cx) shown.entry.rules.now page
        (W.contents out.old) (W.contents out.new)) }
    ensures fault { IfErr result (λ stop. (stop ≡ Stop.InputOrOutput) ⊎ (stop ≡ Stop.Memory)) }
{
    let mut cache = GlobalCache::<Watching<X, D, P>>::new(alloc, cx);
    let mut watcher = Watcher::new(alloc, progress);
    let mut all_fine = true;
    let questions = shown.rules.questions();
    for (done, question) in questions.iter().enumerate() {
        let (depth, goal) = *question;
        watcher.begin(done);
        let came = ask::<X, D, P>(alloc, &mut cache, &mut watcher, depth, goal);
        all_fine &= came.is_fine();
        page.add(alloc, shown, goal, &came)?;
        page.pass_on(out)?;
    }
    page.finish(out)?;
    Ok(all_fine)
}
