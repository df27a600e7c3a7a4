//! Kinds of paths between goals, and sets of paths.
ghost use Rattle.std.specs.Prelude.{◌≡◌, ◌↔◌, ◌+◌, ◌≤◌, ◌||◌, ⊤, IsTrue, Contains, false, length, [], ◌∷◌, codes};
ghost use Rattle.std.specs.Iterator.{YieldsFirst, item_count};
ghost use Rattle.path_kinds.specs.Words.{PathKind, PathsToNested, greater_kind, extended, extended_by_each, has_empty, has_kind, kinds_after, kinds_in, no_paths, paths_of, union};

use bitflags::{Flag, Flags};
use std::marker::Model;

/// How a goal asks another one. The kinds rise in this order, and the kind of a path is that of its
/// greatest step. Ports `PathKind`.
#[derive(Clone, Copy, Debug, PartialEq, Eq, PartialOrd, Ord, Hash)]
pub enum PathKind {
    /// A cycle of such steps alone does not hold.
    Inductive,
    /// Whether a cycle through such a step holds is not known.
    Unknown,
    /// A cycle through such a step holds, unless a greater step is on it.
    Coinductive,
    /// A cycle through such a step is always ambiguous.
    ForcedAmbiguity,
}

impl PathKind {
    /// The kind of this path followed by `rest`: the greater of the two. Ports `PathKind::extend`.
    pub fn extend(self, rest: PathKind) -> PathKind
        ensures { result ≡ greater_kind self rest }
    {
        match (self, rest) {
            (PathKind::ForcedAmbiguity, _) | (_, PathKind::ForcedAmbiguity) => {
                PathKind::ForcedAmbiguity
            }
            (PathKind::Coinductive, _) | (_, PathKind::Coinductive) => PathKind::Coinductive,
            (PathKind::Unknown, _) | (_, PathKind::Unknown) => PathKind::Unknown,
            (PathKind::Inductive, PathKind::Inductive) => PathKind::Inductive,
        }
    }
}

/// The laws of `extend`: paths may be joined in any order and any grouping, a path that is repeated
/// counts once, and an inductive step changes nothing.
pub fn extend_keeps_its_laws()
    ensures associative { (a b c : PathKind)
        → greater_kind (greater_kind a b) c ≡ greater_kind a (greater_kind b c) }
    ensures commutative { (a b : PathKind) → greater_kind a b ≡ greater_kind b a }
    ensures idempotent { (a : PathKind) → greater_kind a a ≡ a }
    ensures neutral { (a : PathKind) → greater_kind PathKind.Inductive a ≡ a }
{}

/// The paths from a goal to one of its nested goals, told apart by their kinds. The bits are those
/// of the flags; bits that no flag has come in by `from_bits_retain` alone. Ports `PathsToNested`.
#[derive(Clone, Copy, Debug, Default, PartialEq, Eq)]
pub struct PathsToNested(u8);

impl PathsToNested {
    /// The path of no step, which a goal has to itself.
    pub const EMPTY: PathsToNested = PathsToNested(1);

    pub const INDUCTIVE: PathsToNested = PathsToNested(2);

    pub const UNKNOWN: PathsToNested = PathsToNested(4);

    pub const COINDUCTIVE: PathsToNested = PathsToNested(8);

    pub const FORCED_AMBIGUITY: PathsToNested = PathsToNested(16);

    const FLAGS: &'static [Flag<PathsToNested>] = &[
        Flag {
            name: "EMPTY",
            value: PathsToNested::EMPTY,
        },
        Flag {
            name: "INDUCTIVE",
            value: PathsToNested::INDUCTIVE,
        },
        Flag {
            name: "UNKNOWN",
            value: PathsToNested::UNKNOWN,
        },
        Flag {
            name: "COINDUCTIVE",
            value: PathsToNested::COINDUCTIVE,
        },
        Flag {
            name: "FORCED_AMBIGUITY",
            value: PathsToNested::FORCED_AMBIGUITY,
        },
    ];

    /// The same paths after one more step: each takes the greater of its kind and the step's, and
    /// the path of no step the step's own. Bits that no flag has stay. Ports `extend_with`.
    pub fn extend_with(self, step: PathKind) -> PathsToNested
        ensures { result ≡ extended self step }
    {
        let weaker = PathsToNested::weaker_than(step);
        let mut paths = self;
        if paths.intersects(weaker) {
            paths.remove(weaker);
            paths.insert(PathsToNested::from(step));
        }
        paths
    }

    /// The same paths, each followed by each path of `paths`. The path of no step in `paths` is
    /// passed over, so a set that holds it alone gives no path at all. Ports `extend_with_paths`.
    pub fn extend_with_paths(self, paths: PathsToNested) -> PathsToNested
        ensures { result ≡ extended_by_each self paths }
    {
        paths
            .iter_paths()
            .map(|step| self.extend_with(step))
            .fold(PathsToNested::empty(), |all, more| all.union(more))
    }

    /// The kinds of the paths, rising. The path of no step is passed over, as are bits that no flag
    /// has. Ports `iter_paths`.
    pub fn iter_paths(self) -> Paths
        ensures { result ≡ kinds_in self }
    {
        Paths { left: self }
    }

    // The flags below that of the kind: its own is a power of two, and they rise with the kinds.
    fn weaker_than(kind: PathKind) -> PathsToNested
        ensures { result.0 + 1 ≡ (paths_of kind).0 }
    {
        PathsToNested(PathsToNested::from(kind).0 - 1)
    }
}

impl Flags for PathsToNested {
    type Bits = u8;

    ghost exact = { ⊤ };

    ghost table = { (codes "EMPTY", 1) ∷ (codes "INDUCTIVE", 2) ∷ (codes "UNKNOWN", 4) ∷ (codes "COINDUCTIVE", 8) ∷ (codes "FORCED_AMBIGUITY", 16) ∷ [] };

    ghost set_of = { λ p. p.0 };

    fn flags<'a>() -> &'a [Flag<PathsToNested>] {
        PathsToNested::FLAGS
    }

    fn bits(&self) -> u8 {
        self.0
    }

    fn from_bits_retain(bits: u8) -> PathsToNested {
        PathsToNested(bits)
    }
}

impl From<PathKind> for PathsToNested {
    ghost from_gives = { λ kind paths. paths ≡ paths_of kind };

    fn from(kind: PathKind) -> PathsToNested {
        match kind {
            PathKind::Inductive => PathsToNested::INDUCTIVE,
            PathKind::Unknown => PathsToNested::UNKNOWN,
            PathKind::Coinductive => PathsToNested::COINDUCTIVE,
            PathKind::ForcedAmbiguity => PathsToNested::FORCED_AMBIGUITY,
        }
    }
}

/// The laws of `extend_with`: it goes through unions and keeps the empty set empty, and a path of
/// the new set is one of the old set after the step. `extend_with_paths` has the paths after each step.
pub fn extend_with_keeps_its_laws()
    ensures union { (some more : PathsToNested) (step : PathKind)
        → extended (union some more) step ≡ union (extended some step) (extended more step) }
    ensures empty_set { (step : PathKind) → extended no_paths step ≡ no_paths }
    ensures members { (paths : PathsToNested) (step kind : PathKind)
        → IsTrue (has_kind (extended paths step) kind) ↔ Contains (kinds_after paths step) kind }
    ensures raised { (paths : PathsToNested) (step kind : PathKind)
        → IsTrue (has_kind paths kind) → IsTrue (has_kind (extended paths step) (greater_kind step kind)) }
    ensures each_step { (paths more : PathsToNested) (kind : PathKind)
        → IsTrue (has_kind (extended_by_each paths more) kind)
        ↔ ((step : PathKind) × IsTrue (has_kind more step) × IsTrue (has_kind (extended paths step) kind)) }
    ensures some_step { (paths : PathsToNested) (step : PathKind)
        → has_empty (extended paths step) ≡ false }
{}

/// A union has the kinds of both sets.
pub fn union_has_both()
    ensures { (some more : PathsToNested) (kind : PathKind)
        → has_kind (union some more) kind ≡ (has_kind some kind || has_kind more kind) }
{}

/// The laws of `iter_paths`: it ends after four kinds at most, and gives exactly those of the set.
pub fn iter_paths_keeps_its_laws()
    ensures ends { (paths : PathsToNested) → length (kinds_in paths) ≤ 4 }
    ensures members { (paths : PathsToNested) (kind : PathKind)
        → Contains (kinds_in paths) kind ↔ IsTrue (has_kind paths kind) }
{}

/// The kinds of the paths of a set, rising.
#[derive(Debug, Drop)]
pub struct Paths {
    left: PathsToNested,
}

impl Model for Paths {
    ghost use Rattle.std.specs.Prelude.{List};
    ghost use Rattle.path_kinds.specs.declared.path.PathKind.{PathKind};
    ghost use Rattle.path_kinds.specs.Paths.{kinds_in};

    ghost Value = { List PathKind };

    ghost view = { λ s. kinds_in s.left };
}

impl Iterator for Paths {
    type Item = PathKind;

    ghost next_gives = { YieldsFirst (λ kinds. kinds) };

    ghost remaining = { item_count (λ kinds. kinds) };

    fn next(&mut self) -> Option<PathKind> {
        let left = self.left;
        let kind = if left.contains(PathsToNested::INDUCTIVE) {
            PathKind::Inductive
        } else if left.contains(PathsToNested::UNKNOWN) {
            PathKind::Unknown
        } else if left.contains(PathsToNested::COINDUCTIVE) {
            PathKind::Coinductive
        } else if left.contains(PathsToNested::FORCED_AMBIGUITY) {
            PathKind::ForcedAmbiguity
        } else {
            return None;
        };
        self.left.remove(PathsToNested::from(kind));
        Some(kind)
    }
}
