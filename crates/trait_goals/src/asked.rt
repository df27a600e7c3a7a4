//! What goals ask, and what they are asked by.
ghost use Rattle.std.specs.Prelude.{◌+◌, ◌*◌, ◌%◌, ◌<◌, ◌^◌, vec_len};
ghost use Rattle.smallvec.specs.SmallVec.{small_vec_len};

use smallvec::SmallVec;
use std::alloc::Global;
use std::default::MadeWith;
use std::hash::{Hash, Hasher};
use trait_rules::Key;

/// The question whether the type of this number implements the trait of this number.
#[derive(Clone, Copy, Debug, PartialEq, Eq, Drop)]
pub struct Asked {
    pub subject: usize,
    pub bound: usize,
}

// Goals are looked for so often that both numbers are hashed as one.
impl Hash for Asked {
    ghost use Rattle.std.specs.Hash.{usize};
    ghost use Rattle.std.proofs.Common.{rules};
    ghost use Rattle.std.specs.Cmp.Rules.{hashing};

    ghost hash_input = { λ asked. usize ((asked.subject * 2 ^ 32 % 2 ^ 64 + asked.bound) % 2 ^ 64) };

    ghost respects_eq = { Prim.search (hashing, rules) };

    fn hash<H: Hasher>(&self, state: &mut H) {
        state.write_usize(self.subject.wrapping_mul(1 << 32).wrapping_add(self.bound));
    }
}

impl Key for Asked {
    ghost use Rattle.std.proofs.Common.{rules};

    ghost same_key = { Prim.search rules };

    // The goals of a type mostly come together, one for each trait in turn.
    fn row(&self) -> usize {
        self.subject
    }

    fn column(&self) -> usize {
        self.bound
    }
}

/// The goals that a rule asks, by their numbers. There are fewer than 2 to the power 32.
#[derive(Debug, Drop)]
pub struct Candidate {
    pub questions: Vec<usize>,
    ghost few: { vec_len questions + 1 < 2 ^ 32 },
}

// A goal's one candidate stands beside its length.
impl MadeWith<Global> for Candidate {
    fn made_with(alloc: Global) -> Candidate {
        Candidate {
            questions: Vec::new(alloc),
        }
    }
}

/// The candidates of a goal, of which there are fewer than 2 to the power 32. Most goals have one.
#[derive(Debug, Drop)]
pub struct Candidates {
    pub all: SmallVec<Candidate, 1>,
    ghost few: { small_vec_len all + 1 < 2 ^ 32 },
}
