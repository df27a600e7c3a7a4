//! A depth-first search that keeps the places of unfinished components in the order of their discovery.
ghost use Rattle.std.specs.Prelude.{◌≡◌, ◌≢◌, ◌<◌, ◌≤◌, ◌+◌, ◌↔◌, ℕ, IsTrue, length, map, IfOk, OnOk};
ghost use Rattle.strong_components.specs.Words.{StaysInside, successor_lists, AreOpened, ClosesFrom, HasLast, IsSearch, Leaves, LooksAt, Opens, PopsAbove, StaySeen, is_new, number_of, state_at, work_of, State};

use std::alloc::{AllocError, Global};

/// What is known of a place.
#[derive(Clone, Copy)]
pub(crate) enum State {
    New,
    /// Found, in a component that may still grow: its position in the list of such places.
    Open(usize),
    /// In a finished component: its number.
    Closed(usize),
}

impl State {
    fn is_new(self) -> bool
        ensures { result ≡ is_new self }
    {
        match self {
            State::New => true,
            State::Open(_) | State::Closed(_) => false,
        }
    }

    // The number of a closed place.
    fn number(self) -> usize
        ensures { result ≡ number_of self }
    {
        match self {
            State::Closed(number) => number,
            State::New | State::Open(_) => 0,
        }
    }
}

/// The search between two steps.
#[derive(Drop)]
pub(crate) struct Search {
    states: Vec<State>,
    // How many successors of each place are still to be looked at, the last ones first.
    left: Vec<usize>,
    // The open places in the order in which they were found.
    opened: Vec<usize>,
    // The positions in `opened` where a component starts.
    starts: Vec<usize>,
    // The positions in `opened` of the places that are being explored.
    path: Vec<usize>,
    // How many components are closed.
    closed: usize,
}

impl Search {
    /// A search that has found nothing yet.
    pub(crate) fn new(alloc: Global, graph: &[Vec<usize>]) -> Result<Search, AllocError>
        ensures ongoing { IfOk result (λ s. IsSearch (successor_lists graph.now) s) }
        ensures idle { IfOk result (λ s. length s.path.items ≡ 0) }
    {
        Ok(Search {
            states: vec![in alloc; State::New; graph.len()]?,
            left: graph
                .iter()
                .map(|successors| successors.len())
                .collect(alloc)?,
            opened: Vec::new(alloc),
            starts: Vec::new(alloc),
            path: Vec::new(alloc),
            closed: 0,
        })
    }

    /// Explores from each place that isn't found before.
    pub(crate) fn explore_all(&mut self, graph: &[Vec<usize>]) -> Result<(), AllocError>
        requires inside { StaysInside (successor_lists graph.now) }
        requires ongoing { IsSearch (successor_lists graph.now) self.old }
        requires idle { length self.old.path.items ≡ 0 }
        ensures ongoing { OnOk result (IsSearch (successor_lists graph.now) self.new) }
        ensures idle { OnOk result (length self.new.path.items ≡ 0) }
        ensures all { OnOk result
            ((a : ℕ) → a < length graph.now → state_at self.new.states.items a ≢ State.New) }
    {
        for place in 0..graph.len() {
            if self.states[place].is_new() {
                self.open_place(place)?;
                self.explore(graph)?;
            }
        }
        Ok(())
    }

    // Goes on until the path is empty.
    fn explore(&mut self, graph: &[Vec<usize>]) -> Result<(), AllocError>
        requires inside { StaysInside (successor_lists graph.now) }
        requires ongoing { IsSearch (successor_lists graph.now) self.old }
        ensures ongoing { OnOk result (IsSearch (successor_lists graph.now) self.new) }
        ensures idle { OnOk result (length self.new.path.items ≡ 0) }
        ensures seen { OnOk result (StaySeen self.old.states.items self.new.states.items) }
    {
        while let Some(&position) = self.path.last() {
            self.step(graph, position)?;
        }
        Ok(())
    }

    // Looks at one more successor of the place at the end of the path, or leaves that place.
    fn step(&mut self, graph: &[Vec<usize>], position: usize) -> Result<(), AllocError>
        requires inside { StaysInside (successor_lists graph.now) }
        requires ongoing { IsSearch (successor_lists graph.now) self.old }
        requires last { HasLast self.old.path.items position }
        ensures ongoing { OnOk result (IsSearch (successor_lists graph.now) self.new) }
        ensures less { OnOk result (work_of self.new < work_of self.old) }
        ensures seen { OnOk result (StaySeen self.old.states.items self.new.states.items) }
    {
        let place = self.opened[position];
        let left = self.left[place];
        if left == 0 {
            self.leave(position);
        } else {
            self.look_at(graph[place][left - 1])?;
            self.left[place] = left - 1;
        }
        Ok(())
    }

    // Opens the place if it is new. If it is open, all components since it was found become one.
    fn look_at(&mut self, place: usize) -> Result<(), AllocError>
        requires inside { place < length self.old.states.items }
        ensures ongoing { OnOk result (LooksAt self.old self.new place) }
        ensures left { OnOk result (self.new.left.items ≡ self.old.left.items) }
        ensures path { OnOk result (length self.new.path.items ≤ length self.old.path.items + 1) }
        ensures seen { OnOk result (StaySeen self.old.states.items self.new.states.items) }
    {
        match self.states[place] {
            State::New => self.open_place(place)?,
            State::Open(position) => pop_above(&mut self.starts, position),
            State::Closed(_) => {}
        }
        Ok(())
    }

    // Puts a new place at the end of the path, in a component of its own.
    fn open_place(&mut self, place: usize) -> Result<(), AllocError>
        requires { place < length self.old.states.items }
        ensures { OnOk result (Opens self.old self.new place) }
    {
        let position = self.opened.len();
        self.opened.push(place)?;
        self.starts.push(position)?;
        self.path.push(position)?;
        self.states[place] = State::Open(position);
        Ok(())
    }

    // Takes the last place from the path. Its component is closed if it starts there.
    fn leave(&mut self, position: usize)
        requires opened { AreOpened self.old.states.items self.old.opened.items }
        requires within { position < length self.old.opened.items }
        requires last { HasLast self.old.path.items position }
        requires room { self.old.closed < usize.MAX }
        ensures ongoing { Leaves self.old self.new position }
        ensures left { self.new.left.items ≡ self.old.left.items }
        ensures path { length self.new.path.items + 1 ≡ length self.old.path.items }
        ensures seen { StaySeen self.old.states.items self.new.states.items }
    {
        self.path.pop();
        if ends_with(&self.starts, position) {
            self.starts.pop();
            self.close_from(position);
        }
    }

    // Closes the places from the position on as one component.
    fn close_from(&mut self, position: usize)
        requires opened { AreOpened self.old.states.items self.old.opened.items }
        requires room { self.old.closed < usize.MAX }
        requires within { position ≤ length self.old.opened.items }
        ensures closes { ClosesFrom self.old self.new position }
        ensures counts { self.new.closed ≡ self.old.closed + 1 }
    {
        'places: while self.opened.len() > position
            && let Some(place) = self.opened.pop()
        {
            self.states[place] = State::Closed(self.closed);
        }
        self.closed += 1;
    }

    /// The numbers of the closed places.
    pub(crate) fn into_numbers(self, alloc: Global) -> Result<Vec<usize>, AllocError>
        ensures { IfOk result (λ numbers. numbers.items ≡ map number_of self.states.items) }
    {
        self.states
            .iter()
            .map(|state| state.number())
            .collect(alloc)
    }
}

// Whether the list ends with the number.
fn ends_with(numbers: &[usize], last: usize) -> bool
    ensures { IsTrue result ↔ HasLast numbers.now last }
{
    match numbers.last() {
        Some(&number) => number == last,
        None => false,
    }
}

// Pops the numbers above the limit from the end of a list.
fn pop_above(numbers: &mut Vec<usize>, limit: usize)
    ensures { PopsAbove numbers.old.items numbers.new.items limit }
{
    while let Some(&number) = numbers.last()
        && number > limit
    {
        numbers.pop();
    }
}
