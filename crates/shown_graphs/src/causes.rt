//! Why questions are answered neither yes nor no.

use crate::answer::ask;
use delegate_parts::{Builder, Outcomes};
use graph_pages::{Came, Stop};
use rule_tables::delegate::Table;
use rule_tables::{Goal, Rules, TableDelegate};
use search_context::context::{Delegate, NoMemory};
use search_parts::global_cache::GlobalCache;
use std::alloc::Global;
use watched_runs::{Cause, NoProgress, Watcher, Watching};

/// Asks the questions of a text, as `explain_within` does, and says of each that was answered neither yes nor no where its goal was
/// cut off first, as far as that was seen. They are in the order of the text.
pub fn causes_within<const LIMIT: usize>(
    alloc: Global,
    text: &[u8],
) -> Result<Vec<Option<Cause>>, Stop> {
    let rules = Rules::read(alloc, text)?;
    let table = Table { lender: &rules };
    let causes = causes_of::<Table<&Rules>, TableDelegate<'_, LIMIT, 1>>(
        alloc,
        table,
        rules.questions(),
    )?;
    Ok(causes)
}

// Each question is asked on a graph of its own, over one cache.
fn causes_of<X, D>(
    alloc: Global,
    cx: X,
    questions: &[(usize, Goal)],
) -> Result<Vec<Option<Cause>>, NoMemory>
where
    X: Outcomes<Input = Goal>,
    D: Delegate<Cx = X, ProofTreeBuilder = Builder>,
{
    let mut cache = GlobalCache::<Watching<X, D, NoProgress>>::new(alloc, cx);
    let mut watcher = Watcher::new(alloc, NoProgress);
    let mut causes = Vec::new(alloc);
    for question in questions {
        let (depth, goal) = *question;
        watcher.begin(0);
        let came = ask::<X, D, NoProgress>(alloc, &mut cache, &mut watcher, depth, goal);
        let cause = match came {
            Came::NoGraph { reason, .. } => watcher.first_cause(goal, reason),
            Came::Graph { .. } | Came::Unchecked(_) | Came::Fault(_) => None,
        };
        causes.push(cause)?;
    }
    Ok(causes)
}
