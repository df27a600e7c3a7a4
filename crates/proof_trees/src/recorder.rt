//! The builder that records.
ghost use Rattle.std.specs.Prelude.{◌≡◌, [], OnErr, OnOk, IfOk, Some};
ghost use Rattle.proof_trees.specs.Below.{NoMemory};

use crate::entry::Entry;
use crate::run_record::{Place, RunRecord};
use path_kinds::memory::NoMemory;
use search_context::context::{Reply, Request};
use std::alloc::Global;

/// Records what frames do, beside a builder of their own. A recorder is for one root goal: what it records of a second one
/// is no tree of its own.
#[derive(Drop)]
pub struct Recorder<B, I, R> {
    pub(crate) inner: B,
    is_recording: bool,
    /// Where the next run that starts stands.
    next: Place,
    entries: Vec<Entry<I, R>>,
}

impl<B, I: Copy, R: Copy> Recorder<B, I, R> {
    ghost use Rattle.proof_trees.specs.Entries.{entry_of_reply, entry_of_request, entry_of_run, new_record, place_after, root_place};
    ghost use Rattle.proof_trees.specs.Recorder.{entries_of, inner_of, Keeps, next_of, records, with_entry};

    /// A recorder that has seen nothing, beside this builder. One that does not record stays empty, and lets a search use
    /// its cache in full where the builder does. It takes no memory yet.
    pub fn new(alloc: Global, inner: B, is_recording: bool) -> Recorder<B, I, R>
        ensures inner { inner_of result ≡ inner }
        ensures records { records result ≡ is_recording }
        ensures empty { entries_of result ≡ [] }
        ensures next { next_of result ≡ root_place }
    {
        Recorder {
            inner,
            is_recording,
            next: Place::root(),
            entries: Vec::new(alloc),
        }
    }

    /// The entries so far, in the order in which they came.
    pub fn entries(&self) -> &[Entry<I, R>]
        ensures { result.now ≡ entries_of self.now }
    {
        self.entries.as_slice()
    }

    /// The frames' own builder.
    pub fn inner(&self) -> &B
        ensures { result.now ≡ inner_of self.now }
    {
        &self.inner
    }

    /// Whether entries are recorded.
    pub fn is_recording(&self) -> bool
        ensures { result ≡ records self.now }
    {
        self.is_recording
    }

    /// Records the start of a run. A refusal leaves the entries as they were.
    pub(crate) fn note_start(&mut self, goal: I) -> Result<RunRecord<I, R>, NoMemory>
        ensures record { IfOk result (λ run. run ≡ new_record goal (next_of self.old)) }
        ensures entries { OnOk result (entries_of self.new ≡ with_entry self.old
            (Some (entry_of_run (new_record goal (next_of self.old))))) }
        ensures next { next_of self.new ≡ next_of self.old }
        ensures keeps { Keeps self.old self.new }
        ensures err { OnErr result (entries_of self.new ≡ entries_of self.old) }
    {
        let run = RunRecord::new(goal, self.next);
        self.push(Some(run.entry()))?;
        Ok(run)
    }

    /// Records a reply to the last request of a run. A refusal leaves the entries as they were.
    pub(crate) fn note_reply(
        &mut self,
        run: RunRecord<I, R>,
        reply: Reply<R>,
    ) -> Result<(), NoMemory>
        ensures entries { OnOk result (entries_of self.new ≡ with_entry self.old
            (entry_of_reply run run.request reply)) }
        ensures next { next_of self.new ≡ next_of self.old }
        ensures keeps { Keeps self.old self.new }
        ensures err { OnErr result (entries_of self.new ≡ entries_of self.old) }
    {
        self.push(run.reply_entry(reply))
    }

    /// Records a request of a run. A refusal leaves the entries as they were.
    pub(crate) fn note_request(
        &mut self,
        run: RunRecord<I, R>,
        request: Request<I, R>,
    ) -> Result<(), NoMemory>
        ensures entries { OnOk result (entries_of self.new ≡ with_entry self.old
            (entry_of_request run request)) }
        ensures next { OnOk result (next_of self.new ≡ place_after run (next_of self.old) request) }
        ensures keeps { Keeps self.old self.new }
        ensures err { OnErr result (entries_of self.new ≡ entries_of self.old) }
    {
        self.push(run.request_entry(request))?;
        self.next = run.place_after(self.next, request);
        Ok(())
    }

    // One entry more, if there is one and entries are recorded.
    fn push(&mut self, entry: Option<Entry<I, R>>) -> Result<(), NoMemory>
        ensures entries { OnOk result (entries_of self.new ≡ with_entry self.old entry) }
        ensures next { next_of self.new ≡ next_of self.old }
        ensures keeps { Keeps self.old self.new }
        ensures err { OnErr result (entries_of self.new ≡ entries_of self.old) }
    {
        match entry {
            Some(entry) if self.is_recording => {
                self.entries.push(entry)?;
            }
            _ => {}
        }
        Ok(())
    }
}
