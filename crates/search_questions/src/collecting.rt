//! Nodes that a call wrote are let go once nothing leads to them any more.
ghost use Rattle.std.specs.Prelude.{◌≡◌, [], IfOk, None, OnErr, OnOk};
ghost use Rattle.graph_nodes.specs.Collected.{StayBefore};
ghost use Rattle.search_questions.specs.Below.{AreNotedNodes};
ghost use Rattle.search_questions.specs.Collecting.{HasRoots, LetsGo, LetsGoAtEnd};

use global_cache::GlobalCache;
use search_context::context::{Delegate, NoMemory, NodeId};
use search_state::evaluation::Evaluation;

/// Lets go of the call's nodes to which nothing leads any more, if it wrote so many since it did that the last time
/// that it is worth it. `target` is the node of the reply for the newest goal. Where there is no memory to
/// find out which these are, all stay.
pub fn collect_drafts<D: Delegate>(
    evaluation: &mut Evaluation<D>,
    cache: &mut GlobalCache<D>,
    target: Option<NodeId>,
)
    requires before { StayBefore evaluation.old.drafts.first cache.old.nodes }
    requires noted { AreNotedNodes D.Cx.Input.eq cache.old evaluation.old.drafts }
    ensures lets_go { LetsGo D.Cx.Input.eq evaluation.old target cache.old cache.new }
    ensures first { evaluation.new.drafts.first ≡ evaluation.old.drafts.first }
    ensures stored { evaluation.new.drafts.stored ≡ evaluation.old.drafts.stored }
    ensures rest { evaluation.new ≡ record evaluation.old { drafts = evaluation.new.drafts } }
{
    if evaluation.drafts.are_many(cache.nodes_in_memory()) {
        let _ = collect(evaluation, cache, target);
        evaluation.drafts.looked_through(cache.nodes_in_memory());
    }
}

/// Lets go of the call's nodes to which nothing leads any more.
fn collect<D: Delegate>(
    evaluation: &Evaluation<D>,
    cache: &mut GlobalCache<D>,
    target: Option<NodeId>,
) -> Result<(), NoMemory>
    requires before { StayBefore evaluation.now.drafts.first cache.old.nodes }
    requires noted { AreNotedNodes D.Cx.Input.eq cache.old evaluation.now.drafts }
    ensures lets_go { LetsGo D.Cx.Input.eq evaluation.now target cache.old cache.new }
{
    let roots = roots(evaluation)?;
    cache.collect(evaluation.drafts.first, &roots, target)
}

/// The nodes that stay with all that they lead to: those of stored results, of goals under evaluation and of
/// provisional entries.
fn roots<D: Delegate>(evaluation: &Evaluation<D>) -> Result<Vec<NodeId>, NoMemory>
    ensures { IfOk result (λ roots. HasRoots D.Cx.Input.eq evaluation.now None roots.items) }
{
    let stored = evaluation.drafts.stored.as_slice();
    let mut roots = Vec::with_capacity(evaluation.goals.allocator(), stored.len())?;
    roots.extend_from_slice(stored)?;
    evaluation.goals.push_nodes(&mut roots)?;
    evaluation.provisional.push_nodes(&mut roots)?;
    Ok(roots)
}

/// Lets go of the call's nodes to which neither its answer leads, whose node is `target`, nor a stored result.
/// `NoMemory` where there is none to find out which these are, and then all stay.
pub fn collect_at_end<D: Delegate>(
    evaluation: &Evaluation<D>,
    cache: &mut GlobalCache<D>,
    target: Option<NodeId>,
) -> Result<(), NoMemory>
    requires before { StayBefore evaluation.now.drafts.first cache.old.nodes }
    requires noted { AreNotedNodes D.Cx.Input.eq cache.old evaluation.now.drafts }
    ensures settles { OnOk result
        (LetsGoAtEnd D.Cx.Input.eq evaluation.now target cache.old cache.new) }
    ensures refused { OnErr result (cache.new ≡ cache.old) }
{
    let stored = evaluation.drafts.stored.as_slice();
    cache.collect(evaluation.drafts.first, stored, target)
}

/// Gives up the goals under evaluation, after a fault, and lets go of the call's nodes to which no node leads that is
/// noted. The goals, the scopes and the entries are let go first, so that there is room to find out which nodes these are.
/// `NoMemory` where there is none even so, and then all stay.
pub fn give_up<D: Delegate>(
    evaluation: &mut Evaluation<D>,
    cache: &mut GlobalCache<D>,
) -> Result<(), NoMemory>
    requires before { StayBefore evaluation.old.drafts.first cache.old.nodes }
    requires noted { AreNotedNodes D.Cx.Input.eq cache.old evaluation.old.drafts }
    ensures settles { OnOk result
        (LetsGoAtEnd D.Cx.Input.eq evaluation.old None cache.old cache.new) }
    ensures refused { OnErr result (cache.new ≡ cache.old) }
    ensures rest { evaluation.new
        ≡ record evaluation.old { goals = []; scopes = []; provisional = [] } }
{
    evaluation.release();
    collect_at_end(evaluation, cache, None)
}
