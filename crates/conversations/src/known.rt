//! What a conversation has: the rules as they stand, and what is known by them.
ghost use Rattle.std.specs.Prelude.{◌≡◌, ◌≤◌, ℕ, List, [], All, IfOk, OnErr, OnOk, Some, length, map};
ghost use Rattle.conversations.specs.Answer.{IsAnswer};
ghost use Rattle.conversations.specs.Below.{Add, Change, Clear, HasChange, HasNoChange, IsOpenTableOf, name_of};
ghost use Rattle.conversations.specs.Known.{IsKnown, IsKnownSince};
ghost use Rattle.rule_tables.specs.Question.{HasShortName, named};

use answer_lines::goals::Told;
use candidate_lists::{AnyOf, CandidatesContext, ContextOf};
use delegate_parts::Outcome;
use global_cache::{Findings, GlobalCache};
use open_tables::{OpenDelegate, OpenRules, OpenTable};
use rule_tables::{Goal, Question};
use search_context::context::{Cx, Delegate, Fault, NoMemory};
use search_graph::graph::SearchGraph;
use search_graph::law::is_sound;
use std::alloc::Global;
use std::collections::HashSet;
use std::marker::Model;
use std::mem::replace;
use table_runs::{Checks, ShownNodes, ask};

/// The context of the rules that are lent.
pub(crate) type Lending<'a> = CandidatesContext<OpenRules<&'a OpenTable>>;

/// The rules as they stand, and what is known by them: what was found out, and which answers were shown by their graphs.
#[derive(Drop)]
pub struct Conversation {
    alloc: Global,
    table: OpenTable,
    found: Findings<Goal, Outcome, ()>,
    shown: ShownNodes,
    /// Whether a goal was asked. Before that there is nothing to forget.
    was_asked: bool,
    /// The goals whose rules changed since one was asked. What is known is that of the rules before, and what rests on these is
    /// forgotten when one is asked next, in one walk for them all.
    changed: Vec<Goal>,
}

impl Model for Conversation {
    ghost use Rattle.conversations.specs.Below.{Table};
    ghost use Rattle.conversations.specs.Known.{IsKnownSince};

    ghost Value = { Table };

    ghost view = { λ c. c.table };

    ghost invariant = { λ c. IsKnownSince ⟦<Lending<'static> as Cx>⟧ ⟦<Goal as PartialEq>⟧.eq c.changed.items c.table
        c.found c.shown };
}

impl Conversation {
    /// There are no rules. It takes no memory yet.
    pub fn new(alloc: Global) -> Conversation
        ensures { IsOpenTableOf [] result }
    {
        Conversation {
            alloc,
            table: OpenTable::new(alloc),
            found: Findings::new(alloc),
            shown: ShownNodes::new(alloc),
            was_asked: false,
            changed: Vec::new(alloc),
        }
    }

    /// What memory is taken from.
    pub(crate) fn allocator(&self) -> Global {
        self.alloc
    }

    /// One more rule of the name, behind its others. What rests on this is forgotten before the next answer. `NoMemory` changes
    /// no rule.
    pub fn add_rule(
        &mut self,
        is_marked: bool,
        name: &[u8],
        questions: &[Question<'_>],
    ) -> Result<(), NoMemory>
        requires name { length name.now ≤ 16 }
        requires questions { All HasShortName questions.now }
        ensures added { OnOk result
            (HasChange (Add is_marked name.now (map named questions.now)) self.old self.new) }
        ensures refused { OnErr result (HasNoChange self.old self.new) }
    {
        let goal = self.table.goal_named(name)?;
        if !self.was_asked {
            self.table.add_rule(goal, is_marked, questions)?;
            self.found = Findings::new(self.alloc);
            self.shown = ShownNodes::new(self.alloc);
            return Ok(());
        }
        self.changed.push(goal)?;
        self.table.add_rule(goal, is_marked, questions)?;
        Ok(())
    }

    /// The rules of the name go. What rests on them is forgotten before the next answer. `NoMemory` changes no rule.
    pub fn forget(&mut self, name: &[u8]) -> Result<(), NoMemory>
        requires { length name.now ≤ 16 }
        ensures forgotten { OnOk result (HasChange (Clear name.now) self.old self.new) }
        ensures refused { OnErr result (HasNoChange self.old self.new) }
    {
        let goal = self.table.goal_named(name)?;
        if !self.was_asked {
            self.table.clear(goal);
            self.found = Findings::new(self.alloc);
            self.shown = ShownNodes::new(self.alloc);
            return Ok(());
        }
        self.changed.push(goal)?;
        self.table.clear(goal);
        Ok(())
    }

    /// Asks the goal of this name at this depth, by the rules as they stand, and checks the graph of a definite answer. A name
    /// that was never mentioned is a goal without rules. `NoMemory` where there was none for such a name, or to find out what
    /// rests on changes; else what the question came to, which may be a fault. No rule changes.
    pub fn ask(
        &mut self,
        depth: usize,
        name: &[u8],
    ) -> Result<Result<Told, Fault<Goal, Outcome>>, NoMemory>
        requires { length name.now ≤ 16 }
        ensures answered { IfOk result (λ came. (changes : List Change) → IsOpenTableOf changes self.old →
            IsAnswer ⟦<OpenDelegate<&'static OpenTable> as Delegate>⟧ ⟦<Lending<'static> as Cx>⟧
            ⟦<Goal as PartialEq>⟧.eq ⟦<Outcome as PartialEq>⟧.eq changes depth name.now came) }
        ensures table { HasNoChange self.old self.new }
    {
        let goal = self.table.goal_named(name)?;
        forget_changed(
            &self.table,
            self.changed.as_slice(),
            &mut self.found,
            &mut self.shown,
        )?;
        self.changed.clear();
        self.was_asked = true;
        let found = replace(&mut self.found, Findings::new(self.alloc));
        let (found, came) = ask_over(self.alloc, &self.table, found, &mut self.shown, depth, goal);
        self.found = found;
        Ok(came)
    }
}

// Forgets what rests on the rules of the goals that changed. `NoMemory` forgets nothing.
fn forget_changed(
    table: &OpenTable,
    changed: &[Goal],
    found: &mut Findings<Goal, Outcome, ()>,
    shown: &mut ShownNodes,
) -> Result<(), NoMemory>
    requires known { IsKnownSince ⟦<Lending<'static> as Cx>⟧ ⟦<Goal as PartialEq>⟧.eq changed.now table.now
        found.old shown.old }
    ensures known { OnOk result (IsKnown ⟦<Lending<'static> as Cx>⟧ ⟦<Goal as PartialEq>⟧.eq table.now
        found.new shown.new) }
    ensures kept { OnErr result (found.new ≡ found.old) }
    ensures kept_shown { OnErr result (shown.new ≡ shown.old) }
{
    if changed.is_empty() {
        return Ok(());
    }
    let gone = table.concerned(changed)?;
    found.forget(&gone);
    shown.forget::<Lending<'_>>(&gone);
    Ok(())
}

// Asks the goal over what is known by the rules of the table. Returns what was found out then, and what it came to.
fn ask_over(
    alloc: Global,
    table: &OpenTable,
    found: Findings<Goal, Outcome, ()>,
    shown: &mut ShownNodes,
    depth: usize,
    goal: Goal,
) -> (
    Findings<Goal, Outcome, ()>,
    Result<Told, Fault<Goal, Outcome>>,
)
    requires known { IsKnown ⟦<Lending<'static> as Cx>⟧ ⟦<Goal as PartialEq>⟧.eq table.now found shown.old }
    ensures known { IsKnown ⟦<Lending<'static> as Cx>⟧ ⟦<Goal as PartialEq>⟧.eq
        table.now result.0 shown.new }
    ensures answered { (changes : List Change) (name : List ℕ) → IsOpenTableOf changes table.now →
        name_of table.now goal ≡ Some name → IsAnswer ⟦<OpenDelegate<&'static OpenTable> as Delegate>⟧
        ⟦<Lending<'static> as Cx>⟧ ⟦<Goal as PartialEq>⟧.eq ⟦<Outcome as PartialEq>⟧.eq
        changes depth name result.1 }
{
    let cx = ContextOf(AnyOf(OpenRules { lender: table }));
    let mut cache = GlobalCache::<OpenDelegate<&OpenTable>>::over(cx, found);
    let mut graph = SearchGraph::<OpenDelegate<&OpenTable>>::new(alloc, 0);
    let came = ask::<Lending<'_>, OpenDelegate<&OpenTable>>(
        alloc,
        &mut graph,
        &mut cache,
        depth,
        goal,
        Checks::EachGraph,
        shown,
    );
    is_sound(&cache);
    (cache.into_findings(), came)
}
