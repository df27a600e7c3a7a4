//! What is stored of a goal that is done.
ghost use Rattle.std.specs.Prelude.{◌≡◌, ◌≢◌, ◌<◌, ℕ, [], Err, false, is_some, length, IfErr, IfSome, IsTrue, OnOk, OnErr};
ghost use Rattle.search_ends.specs.Below.{highest, IfCompared, IsExpected, IsPlainTo, IsPlainValue, place_of, Memory, Success, IsStored, entry_of, verdicts};
ghost use Rattle.search_rules.specs.Fates.{is_compared};
ghost use Rattle.provisional_cache.specs.Provisional.{AppendsEntry};
ghost use Rattle.search_ends.specs.Words.{Fails, FailsToStore, IsStorable, MayStore, Notes, PutsAnswer, Stores};

use global_cache::GlobalCache;
use path_kinds::path::PathKind;
use provisional_cache::{ProvisionalCache, ProvisionalCacheEntry};
use run_records::runs::Fate;
use search_context::context::{Cx, Delegate, Fault, NoMemory};
use search_stack::depth::StackDepth;
use search_stack::result::EvaluationResult;
use search_stack::stack::Stack;
use search_state::drafts::Drafts;
use search_state::evaluation::Evaluation;

/// Stores the result of a goal that is done, which was asked over the step, in the global cache, or compares it
/// with the one that is stored, as its fate is; or, where it rests on goals of the stack, makes it a provisional
/// entry, if the delegate lets such entries be used. A scope in which the result is compared is held till then.
pub(crate) fn store_answer<D: Delegate>(
    evaluation: &mut Evaluation<D>,
    cache: &mut GlobalCache<D>,
    step: PathKind,
    input: <D::Cx as Cx>::Input,
    answer: EvaluationResult<D::Cx>,
    fate: Fate<<D::Cx as Cx>::Result>,
    _scope: Option<&D::ValidationScope>,
) -> Result<(), Fault<<D::Cx as Cx>::Input, <D::Cx as Cx>::Result>>
    requires may { MayStore D.Delegate D.Cx.Cx D.Cx.Input.eq cache.old input answer fate }
    requires in_scope { is_some _scope ≡ is_compared fate }
    requires on_stack { IfSome (highest answer.heads) (λ head.
        head.0.0 < length evaluation.old.goals) }
    ensures puts { PutsAnswer D.Cx.Input.eq input answer fate cache.old cache.new }
    ensures noted { Notes (verdicts D.Cx.Cx) D.Cx.Input.eq cache.old evaluation.old.drafts result
        cache.new evaluation.new.drafts }
    ensures stores { OnOk result (Stores D.Delegate D.Cx.Cx D.Cx.Input.eq step input
        answer fate evaluation.old evaluation.new cache.new) }
    ensures rest { evaluation.new ≡ record evaluation.old {
      provisional = evaluation.new.provisional;
      drafts = evaluation.new.drafts;
    } }
    ensures fails { IfErr result (Fails D.Delegate D.Cx.Cx D.Cx.Input.eq answer.result cache.old
        cache.new evaluation.new.drafts) }
    ensures whose { IfErr result (FailsToStore D.Cx.Input.eq cache.old.results input
        (place_of answer)) }
    ensures plain { (n : ℕ) → IsPlainTo (D.script cache.old.cx) n input →
        place_of answer ≡ Success → IfCompared fate (IsPlainValue (D.script cache.old.cx) n input) →
        IfErr result (λ fault. fault ≡ Memory) }
{
    // An answer with heads rests on provisional results of goals under evaluation, which may still change.
    let Some(head) = answer.heads.opt_highest_cycle_head_index() else {
        return match fate {
            Fate::Stored => store_for_good::<D>(cache, &mut evaluation.drafts, input, answer),
            Fate::NotStored => Ok(()),
            Fate::Compared(stored) => {
                compare::<D>(cache, &mut evaluation.drafts, input, stored, &answer)
            }
        };
    };
    if D::ENABLE_PROVISIONAL_CACHE {
        let stack = evaluation.goals.stack();
        insert_entry::<D>(
            &mut evaluation.provisional,
            stack,
            step,
            input,
            answer,
            head,
        )?;
    }
    Ok(())
}

/// Makes a provisional entry of the answer of a goal that is done, which was asked over the step and rests on the
/// goal at `head` and perhaps on others below that. Ports a part of
/// `SearchGraph::evaluate_goal`.
fn insert_entry<D: Delegate>(
    provisional: &mut ProvisionalCache<D>,
    stack: &Stack<D::Cx>,
    step: PathKind,
    input: <D::Cx as Cx>::Input,
    answer: EvaluationResult<D::Cx>,
    head: StackDepth,
) -> Result<(), NoMemory>
    requires some { answer.heads ≢ [] }
    requires on_stack { head.0 < length stack.now }
    ensures kept { OnOk result (AppendsEntry D.Cx.Input.eq provisional.old provisional.new input
        (entry_of stack.now head.0 step answer)) }
{
    let path_from_head = stack.path_kind(step, head);
    provisional.push(
        input,
        ProvisionalCacheEntry {
            encountered_overflow: answer.encountered_overflow,
            heads: answer.heads,
            path_from_head,
            result: answer.result,
            node: answer.node,
        },
    )
}

/// Stores a result that rests on no goal of the stack. Ports `SearchGraph::insert_global_cache`.
fn store_for_good<D: Delegate>(
    cache: &mut GlobalCache<D>,
    drafts: &mut Drafts,
    input: <D::Cx as Cx>::Input,
    answer: EvaluationResult<D::Cx>,
) -> Result<(), Fault<<D::Cx as Cx>::Input, <D::Cx as Cx>::Result>>
    requires no_heads { answer.heads ≡ [] }
    requires storable { IsStorable D.Delegate D.Cx.Cx cache.old input answer }
    ensures puts { PutsAnswer D.Cx.Input.eq input answer Fate.Stored cache.old cache.new }
    ensures is_stored { OnOk result (
        IsStored D.Cx.Input.eq (D.Cx.token cache.old.cx) cache.new.results input answer) }
    ensures noted { Notes (verdicts D.Cx.Cx) D.Cx.Input.eq cache.old drafts.old result
        cache.new drafts.new }
    ensures fails { IfErr result (Fails D.Delegate D.Cx.Cx D.Cx.Input.eq answer.result cache.old
        cache.new drafts.new) }
    ensures whose { IfErr result (FailsToStore D.Cx.Input.eq cache.old.results input
        (place_of answer)) }
    ensures plain { (n : ℕ) → IsPlainTo (D.script cache.old.cx) n input →
        place_of answer ≡ Success →
        IfErr result (λ fault. fault ≡ Memory) }
{
    let token = cache.cx().dep_node(input);
    // It is noted first: a node that is stored and not noted would be let go. Where another result is stored, it stays
    // noted, since the fault tells what it shows.
    let known = drafts.stored.as_slice().len();
    drafts.note_stored(answer.node)?;
    cache.has_runs();
    cache.has_sound_results();
    let stored = cache.insert(input, answer, token);
    if wants_memory(&stored) {
        drafts.stored.truncate(known);
    }
    stored
}

/// Whether a result could not be stored for want of memory.
fn wants_memory<I, R>(done: &Result<(), Fault<I, R>>) -> bool
    ensures memory { IsTrue result → done.now ≡ Err Memory }
    ensures other { result ≡ false → IfErr done.now (λ fault. fault ≢ Memory) }
{
    match done {
        Err(Fault::Memory) => true,
        Ok(())
        | Err(Fault::Protocol(_))
        | Err(Fault::Conflict { .. })
        | Err(Fault::Validation { .. }) => false,
    }
}

/// Compares the result of a goal in a scope with the one that is stored. `Fault::Validation` where they differ; then
/// its node is noted, since the fault tells what it shows.
fn compare<D: Delegate>(
    cache: &GlobalCache<D>,
    drafts: &mut Drafts,
    input: <D::Cx as Cx>::Input,
    stored: <D::Cx as Cx>::Result,
    answer: &EvaluationResult<D::Cx>,
) -> Result<(), Fault<<D::Cx as Cx>::Input, <D::Cx as Cx>::Result>>
    requires no_heads { answer.now.heads ≡ [] }
    requires storable { IsStorable D.Delegate D.Cx.Cx cache.now input answer.now }
    requires expected { IsExpected (D.scoped cache.now.cx) D.Cx.Input.eq cache.now.results input
        stored }
    ensures same { OnOk result (answer.now.result ≡ stored) }
    ensures noted { Notes (verdicts D.Cx.Cx) D.Cx.Input.eq cache.now drafts.old result
        cache.now drafts.new }
    ensures fails { IfErr result (Fails D.Delegate D.Cx.Cx D.Cx.Input.eq answer.now.result cache.now
        cache.now drafts.new) }
    ensures whose { IfErr result (FailsToStore D.Cx.Input.eq cache.now.results input
        (place_of answer.now)) }
    ensures differs { OnErr result (answer.now.result ≢ stored) }
{
    cache.has_runs();
    cache.has_sound_results();
    let found = answer.result;
    if found == stored {
        return Ok(());
    }
    drafts.note_stored(answer.node)?;
    Err(Fault::Validation {
        input,
        stored,
        found,
    })
}
