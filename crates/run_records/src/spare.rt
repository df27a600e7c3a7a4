//! The memory of runs that have ended.
ghost use Rattle.std.specs.Prelude.{◌≡◌, []};
ghost use Rattle.run_records.specs.Words.{no_record};

use crate::candidates::FinishedCandidates;
use crate::progress::{Lists, Progress, boxed_bytes};
use cycle_heads::candidates::CandidateHeadUsages;
use heap_room::list_bytes;
use search_context::context::Reply;
use std::alloc::Global;
use std::marker::Model;

/// Of each kind of list so many are kept at most.
const MOST: usize = 32;

/// A list that had more entries than this is let go, since few runs would fill it again.
const LARGEST: usize = 256;

/// The memory of runs that have ended, for others: lists that are empty again, but have their room. Most runs need as
/// much as those before them, so that one seldom takes any. It is lent where it is needed, and not to a run that begins,
/// since very many may wait for their first answer. Clauses see nothing of it.
#[derive(Drop)]
pub struct SpareMemory<I, R> {
    alloc: Global,
    lists: Vec<Box<Lists<I, R>>>,
    candidates: Vec<FinishedCandidates>,
    usages: Vec<CandidateHeadUsages>,
}

impl<I, R> Model for SpareMemory<I, R> {
    ghost use Rattle.std.specs.Prelude.{⊤};

    ghost Value = { ⊤ };

    ghost view = { λ s. tt };
}

impl<I: Copy, R: Copy> SpareMemory<I, R> {
    /// Nothing is spare yet.
    pub fn new(alloc: Global) -> Self {
        SpareMemory {
            alloc,
            lists: Vec::new(alloc),
            candidates: Vec::new(alloc),
            usages: Vec::new(alloc),
        }
    }

    /// How many bytes of the heap it holds.
    pub fn held_bytes(&self) -> usize {
        let mut bytes = list_bytes(&self.lists)
            .saturating_add(list_bytes(&self.candidates))
            .saturating_add(list_bytes(&self.usages));
        for lists in &self.lists {
            bytes = bytes.saturating_add(boxed_bytes(lists));
        }
        for candidates in &self.candidates {
            bytes = bytes.saturating_add(candidates.room_bytes());
        }
        for usages in &self.usages {
            bytes = bytes.saturating_add(usages.held_bytes());
        }
        bytes
    }

    /// Lends the run lists of what it does, if it needs them for the reply that comes now.
    #[inline(always)]
    pub fn lend_lists(&mut self, progress: &mut Progress<I, R>, reply: Reply<R>)
        ensures { progress.new ≡ progress.old }
    {
        if progress.needs_lists(reply) {
            if let Some(lists) = self.lists.pop() {
                progress.take_lists(lists);
            }
        }
    }

    /// Keeps the memory of the lists of what the run did.
    pub fn keep_progress(&mut self, progress: Progress<I, R>) {
        let count = progress.count();
        if let Some(lists) = progress.into_lists() {
            keep(&mut self.lists, lists, count);
        }
    }

    /// Lends a list of candidates, if there is no room for any.
    pub fn lend_candidates(&mut self, candidates: &mut FinishedCandidates)
        ensures { candidates.new ≡ candidates.old }
    {
        if candidates.has_room() {
            return;
        }
        if let Some(emptied) = self.candidates.pop() {
            candidates.take_room(emptied);
        }
    }

    /// Keeps the memory of the list of candidates, and of what each of them used.
    pub fn keep_candidates(&mut self, mut candidates: FinishedCandidates) {
        let count = candidates.len();
        self.keep_usages(&mut candidates);
        keep(&mut self.candidates, candidates, count);
    }

    /// Forgets what the candidates used, and keeps the memory of that.
    pub fn keep_usages(&mut self, candidates: &mut FinishedCandidates)
        ensures { candidates.new ≡ [] }
    {
        for _ in 0..candidates.len() {
            if let Some(usages) = candidates.pop() {
                let count = usages.as_slice().len();
                keep(&mut self.usages, usages, count);
            }
        }
        candidates.clear();
    }

    /// A candidate that used no head.
    pub fn new_usages(&mut self) -> CandidateHeadUsages
        ensures { result ≡ [] }
    {
        match self.usages.pop() {
            Some(mut usages) => {
                usages.clear();
                usages
            }
            None => CandidateHeadUsages::new(self.alloc),
        }
    }
}

/// Keeps a list that had so many entries, if that is not too much. Where there is no memory to keep it, it is let go.
fn keep<T: Drop>(lists: &mut Vec<T>, list: T, count: usize) {
    if lists.len() < MOST && count <= LARGEST {
        let _ = lists.push(list);
    }
}
