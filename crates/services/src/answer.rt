//! Which services can run, in words of services alone.
ghost use Rattle.std.specs.Prelude.{◌≡◌, Ok};
ghost use Rattle.services.specs.Below.{No, Yes};
ghost use Rattle.services.specs.Running.{CanRun};

use crate::delegate::{RunsOf, ServicesDelegate};
use crate::service::Service;
use delegate_parts::{Builder, Lends, Outcome};
use question_lists::{ContextOf, Listed};
use search_graph::graph::SearchGraph;
use search_parts::context::{Fault, Verdict};
use search_parts::global_cache::GlobalCache;
use search_parts::path::PathKind;
use std::alloc::Global;

/// Whether the service with this number can run: `Yes` or `No`, and `Neither` where a limit was met. The depth is how many
/// services may stand below this one on the way to an answer; as many as there are suffice.
///
/// `Fault::Memory` where memory is out.
pub fn can_run<S: Lends<Vec<Service>>>(
    alloc: Global,
    services: S,
    number: usize,
    depth: usize,
) -> Result<Verdict, Fault<usize, Outcome>>
    ensures yes { result ≡ Ok Yes → CanRun (S.lent_by services).items number }
    ensures no { result ≡ Ok No → CanRun (S.lent_by services).items number → ⊥ }
{
    let context = ContextOf(Listed(RunsOf { lender: services }));
    let mut cache = GlobalCache::<ServicesDelegate<S>>::new(alloc, context);
    let mut graph = SearchGraph::<ServicesDelegate<S>>::new(alloc, depth);
    let mut builder = Builder::new(true);
    let answer = graph.evaluate_goal(&mut cache, number, PathKind::Inductive, &mut builder);
    Ok(answer?.result.verdict())
}
