//! The candidates of the newest goal: each is opened, finished, and may be ignored.
ghost use Rattle.std.specs.Prelude.{◌≡◌, ◌<◌, ◌∷◌, [], length, is_some, true, IfSome, OnOk, Some};
ghost use Rattle.std.specs.Option.{option_map};
ghost use Rattle.goal_changes.specs.Words.{enters, records_candidate, leaves, CanIgnoreNewest, CanIgnoreUsages, CanNote, IgnoresNewest, IgnoresUsages, NotesCandidate, newest, change_newest};

use crate::goals::OpenGoals;
use crate::update;
use cycle_heads::candidates::CandidateHeadUsages;
use run_records::spare::SpareMemory;
use search_context::context::{Cx, NoMemory, Request};
use search_stack::depth::StackDepth;

impl<X: Cx, F: Drop> OpenGoals<X, F> {
    /// Does what the newest goal's frame requested of its candidates; other requests change nothing. After a
    /// refusal the goals may only be cleared.
    pub fn note_candidate(
        &mut self,
        request: Request<X::Input, X::Result>,
        spare: &mut SpareMemory<X::Input, X::Result>,
    ) -> Result<(), NoMemory>
        requires some { 0 < length self.old }
        requires can_note { CanNote request self.old }
        ensures { OnOk result (NotesCandidate request self.old self.new) }
    {
        match request {
            Request::EnterCandidate => self.enter_candidate(spare.new_usages()),
            Request::FinishCandidate => {
                let candidate = self.finish_candidate();
                self.record_candidate(candidate, spare)?;
            }
            Request::Ignore(number) => self.ignore_candidate(number),
            Request::Evaluate(_, _) | Request::Done(_) => {}
        }
        Ok(())
    }

    /// Opens a candidate of the newest goal, which has used nothing.
    pub fn enter_candidate(&mut self, nothing: CandidateHeadUsages)
        requires some { 0 < length self.old }
        requires nothing { nothing ≡ [] }
        ensures { self.new ≡ change_newest enters self.old }
    {
        self.stack.last_mut().candidate_usages = Some(nothing);
    }

    /// Ends the open candidate of the newest goal, and hands out what it used.
    pub fn finish_candidate(&mut self) -> CandidateHeadUsages
        requires some { 0 < length self.old }
        requires is_open { IfSome (newest self.old) (λ s.
            is_some s.0.state.candidate_usages ≡ true) }
        ensures ended { self.new ≡ change_newest leaves self.old }
        ensures used { IfSome (newest self.old) (λ s. s.0.state.candidate_usages ≡ Some result) }
    {
        self.stack.last_mut().candidate_usages.take().unwrap()
    }

    /// Records what a finished candidate of the newest goal used.
    fn record_candidate(
        &mut self,
        candidate: CandidateHeadUsages,
        spare: &mut SpareMemory<X::Input, X::Result>,
    ) -> Result<(), NoMemory>
        requires some { 0 < length self.old }
        ensures { OnOk result (self.new ≡ change_newest (records_candidate candidate) self.old) }
    {
        let last = self.runs.len() - 1;
        let candidates = &mut self.runs[last].candidates;
        spare.lend_candidates(candidates);
        candidates.push(candidate)?;
        Ok(())
    }

    /// Takes away what the newest goal's finished candidate of this number used.
    fn ignore_candidate(&mut self, number: usize)
        requires can { CanIgnoreNewest number self.old }
        ensures { IgnoresNewest number self.old self.new }
    {
        let last = self.runs.len() - 1;
        let candidate = self.runs[last].candidates.take(number);
        self.ignore_usages(&candidate);
    }

    /// Takes away what a candidate of the newest goal used.
    pub fn ignore_usages(&mut self, candidate: &CandidateHeadUsages)
        requires can { CanIgnoreUsages candidate.now self.old }
        ensures { IgnoresUsages candidate.now self.old self.new }
    {
        let parent = StackDepth::new(self.stack.len() - 1);
        update::ignore_usages(self.stack.last_mut(), parent, candidate);
    }
}
