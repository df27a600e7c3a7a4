//! Goals are made known in about the order in which a search comes to them.
//!
//! A search goes down as far as the depth allows, and where it was cut off it goes only a quarter as deep beside that. So where types
//! grow, it comes to few of the goals that there are within the depth.
ghost use Rattle.std.specs.Prelude.{◌≡◌};
ghost use Rattle.trait_goals.specs.Trying.{Extends};

use crate::goals::Goals;
use search_context::context::NoMemory;
use std::alloc::Global;

/// How many steps are made at most to find a goal that is not known.
const STEPS: usize = 1 << 24;

/// So many goals beside those that there are may come up before it is looked where a search would go.
const FEW: usize = 16;

/// Beside what was cut off, the depth is divided by this.
const PART: usize = 4;

/// A goal that is gone through.
#[derive(Clone, Copy)]
struct Visit {
    goal: usize,
    /// How many goals may stand below it.
    depth: usize,
    /// The candidate whose questions come next.
    candidate: usize,
    /// The place of the next question.
    place: usize,
    /// A question below was cut off.
    is_cut_off: bool,
}

/// How a goal was gone through.
#[derive(Clone, Copy)]
struct Seen {
    /// One more than the depth that it had.
    depth: usize,
    is_cut_off: bool,
}

/// Where a search may be. A goal that is asked itself is not gone into from others: it is gone through with the whole depth anyway.
#[derive(Drop)]
struct Scout {
    /// The goals that are still to be asked, the next one last.
    asked: Vec<usize>,
    depth: usize,
    /// The goals that are gone through, the newest last.
    open: Vec<Visit>,
    /// What was seen of each goal, by its number.
    seen: Vec<Seen>,
}

/// Makes goals known that a search comes to from these at this depth, until there are so many goals.
pub fn make_known(
    alloc: Global,
    goals: &mut Goals,
    asked: &[usize],
    depth: usize,
    most: usize,
) -> Result<(), NoMemory>
    ensures { Extends goals.old goals.new }
{
    let few = goals.len().saturating_add(FEW);
    expand_in_turn(alloc, goals, few.min(most))?;
    if goals.first_unknown(0).is_none() {
        return Ok(());
    }
    go_through(alloc, goals, asked, depth, most)
}

// Makes goals known by their numbers, until there are so many: where the types of a text are asked for, that is mostly all of them.
fn expand_in_turn(alloc: Global, goals: &mut Goals, most: usize) -> Result<(), NoMemory>
    ensures { Extends goals.old goals.new }
{
    for goal in 0..most {
        if goal >= goals.len() || goals.len() >= most {
            return Ok(());
        }
        if goals.candidates(goal).is_none() {
            goals.expand(alloc, goal)?;
        }
    }
    Ok(())
}

// Goes through goals from these on, and makes them known.
fn go_through(
    alloc: Global,
    goals: &mut Goals,
    asked: &[usize],
    depth: usize,
    most: usize,
) -> Result<(), NoMemory>
    ensures { Extends goals.old goals.new }
{
    let mut scout = Scout::new(alloc, asked, depth)?;
    for _ in 0..most {
        if goals.len() >= most {
            return Ok(());
        }
        match scout.next(&*goals)? {
            Some(goal) => goals.expand(alloc, goal)?,
            None => return Ok(()),
        };
    }
    Ok(())
}

impl Visit {
    // Goes on to the next question that is to be gone into, if there is one, and how deep. Those that are passed are counted.
    fn next_question(
        &mut self,
        goals: &Goals,
        seen: &[Seen],
        steps: &mut usize,
    ) -> Option<(usize, usize)> {
        let known = goals.candidates(self.goal)?;
        for candidate in self.candidate..known.all.len() {
            self.candidate = candidate;
            let questions = known.all[candidate].questions.as_slice();
            let next = self.next_of(questions, seen, steps);
            if next.is_some() {
                return next;
            }
            self.place = 0;
        }
        None
    }

    // The same for the questions of its candidate.
    fn next_of(
        &mut self,
        questions: &[usize],
        seen: &[Seen],
        steps: &mut usize,
    ) -> Option<(usize, usize)> {
        for place in self.place..questions.len() {
            let goal = questions[place];
            if let Some(depth) = self.depth_below() {
                match seen.get(goal) {
                    Some(seen) if seen.depth > depth => self.is_cut_off |= seen.is_cut_off,
                    _ => {
                        self.place = place + 1;
                        return Some((goal, depth));
                    }
                }
            }
            *steps = steps.saturating_add(1);
        }
        None
    }

    // How many goals may stand below a question, if it is not cut off, which is noted.
    fn depth_below(&mut self) -> Option<usize> {
        if self.depth == 0 {
            self.is_cut_off = true;
            None
        } else if self.is_cut_off {
            Some(self.depth / PART)
        } else {
            Some(self.depth - 1)
        }
    }
}

impl Scout {
    fn new(alloc: Global, asked: &[usize], depth: usize) -> Result<Scout, NoMemory> {
        let mut scout = Scout {
            asked: Vec::with_capacity(alloc, asked.len())?,
            depth,
            open: Vec::new(alloc),
            seen: Vec::new(alloc),
        };
        for goal in asked.iter().rev() {
            scout.asked.push(*goal)?;
            scout.set_depth(*goal, depth)?;
        }
        Ok(scout)
    }

    // Goes on to the next goal that is not known. It is gone through when this is called again.
    fn next(&mut self, goals: &Goals) -> Result<Option<usize>, NoMemory> {
        let mut steps = 0;
        for _ in 0..STEPS {
            let wanted = match self.open.last_mut() {
                Some(visit) => {
                    let next = visit.next_question(goals, self.seen.as_slice(), &mut steps);
                    self.go_on(goals, next)?
                }
                None => match self.asked.pop() {
                    Some(goal) => self.begin(goals, goal, self.depth)?,
                    None => return Ok(None),
                },
            };
            if steps >= STEPS {
                return Ok(None);
            }
            if wanted.is_some() {
                return Ok(wanted);
            }
            steps += 1;
        }
        Ok(None)
    }

    // Goes into the goal of this question, at this depth, or else back from the newest goal. A goal is returned if it is not known.
    fn go_on(
        &mut self,
        goals: &Goals,
        question: Option<(usize, usize)>,
    ) -> Result<Option<usize>, NoMemory> {
        match question {
            Some((goal, depth)) => {
                self.set_depth(goal, depth)?;
                self.begin(goals, goal, depth)
            }
            None => {
                self.leave();
                Ok(None)
            }
        }
    }

    // Notes that the goal is gone through with this depth.
    fn set_depth(&mut self, goal: usize, depth: usize) -> Result<(), NoMemory> {
        for _ in self.seen.len()..goal.saturating_add(1) {
            self.seen.push(Seen {
                depth: 0,
                is_cut_off: false,
            })?;
        }
        if let Some(seen) = self.seen.get_mut(goal) {
            seen.depth = depth.saturating_add(1);
        }
        Ok(())
    }

    // Goes into the goal.
    fn begin(
        &mut self,
        goals: &Goals,
        goal: usize,
        depth: usize,
    ) -> Result<Option<usize>, NoMemory> {
        self.open.push(Visit {
            goal,
            depth,
            candidate: 0,
            place: 0,
            is_cut_off: false,
        })?;
        match goals.candidates(goal) {
            Some(_) => Ok(None),
            None => Ok(Some(goal)),
        }
    }

    // The newest goal was gone through.
    fn leave(&mut self) {
        let Some(visit) = self.open.pop() else {
            return;
        };
        if let Some(seen) = self.seen.get_mut(visit.goal) {
            seen.is_cut_off = visit.is_cut_off;
        }
        self.note(visit.is_cut_off);
    }

    // Notes of the newest goal whether a question below it was cut off.
    fn note(&mut self, is_cut_off: bool) {
        if let Some(visit) = self.open.last_mut() {
            visit.is_cut_off |= is_cut_off;
        }
    }
}
