//! How often, and by cycles of which kinds, a goal on the stack was used.
ghost use Rattle.std.specs.Prelude.{◌≡◌, ◌≢◌, ◌≤◌, ◌↔◌, IsTrue};
ghost use Rattle.cycle_heads.specs.Words.{count_of, count_without, other_usages, with_nested, with_usage, with_usages, without_usages};
ghost use Rattle.cycle_heads.specs.Below.{PathKind};

use path_kinds::path::PathKind;

/// How often a goal on the stack was used, counted by the kind of the cycle. A count sticks at
/// `u32::MAX` and is never subtracted from then. Ports `HeadUsages`.
///
/// What matters is whether a count is zero: the numbers are there so that an ignored candidate can be
/// subtracted. A count that stuck no longer knows how many usages it stands for. Were it subtracted from, it
/// could come to zero while an answer still rests on the head, and the head would not be rerun for it. A count
/// that stays costs a rerun at most.
#[derive(Clone, Copy, Debug, Default, PartialEq, Eq)]
pub struct HeadUsages {
    pub inductive: u32,
    pub unknown: u32,
    pub coinductive: u32,
    pub forced_ambiguity: u32,
}

impl HeadUsages {
    /// Counts one more cycle of the kind. Ports `HeadUsages::add_usage`.
    pub fn add_usage(&mut self, kind: PathKind)
        ensures { self.new ≡ with_usage self.old kind }
    {
        match kind {
            PathKind::Inductive => self.inductive = self.inductive.saturating_add(1),
            PathKind::Unknown => self.unknown = self.unknown.saturating_add(1),
            PathKind::Coinductive => self.coinductive = self.coinductive.saturating_add(1),
            PathKind::ForcedAmbiguity => {
                self.forced_ambiguity = self.forced_ambiguity.saturating_add(1);
            }
        }
    }

    /// Counts one more cycle of each kind that a nested goal used, however often it did so: the nested goal is
    /// one answer, and is ignored as a whole or not at all. Ports `HeadUsages::add_usages_from_nested`.
    pub fn add_usages_from_nested(&mut self, usages: HeadUsages)
        ensures { self.new ≡ with_nested self.old usages }
    {
        self.add_usages(HeadUsages {
            inductive: usages.inductive.min(1),
            unknown: usages.unknown.min(1),
            coinductive: usages.coinductive.min(1),
            forced_ambiguity: usages.forced_ambiguity.min(1),
        });
    }

    // Adds each count.
    pub(crate) fn add_usages(&mut self, usages: HeadUsages)
        ensures { self.new ≡ with_usages self.old usages }
    {
        self.inductive = self.inductive.saturating_add(usages.inductive);
        self.unknown = self.unknown.saturating_add(usages.unknown);
        self.coinductive = self.coinductive.saturating_add(usages.coinductive);
        self.forced_ambiguity = self
            .forced_ambiguity
            .saturating_add(usages.forced_ambiguity);
    }

    /// Takes away usages that were counted, except from a count that sticks. Ports
    /// `HeadUsages::ignore_usages`.
    pub fn ignore_usages(&mut self, usages: HeadUsages)
        requires { (kind : PathKind) → count_of usages kind ≤ count_of self.old kind }
        ensures { self.new ≡ without_usages self.old usages }
    {
        self.inductive = subtract(self.inductive, usages.inductive);
        self.unknown = subtract(self.unknown, usages.unknown);
        self.coinductive = subtract(self.coinductive, usages.coinductive);
        self.forced_ambiguity = subtract(self.forced_ambiguity, usages.forced_ambiguity);
    }

    /// Whether there was no cycle at all. Ports `HeadUsages::is_empty`.
    pub fn is_empty(self) -> bool
        ensures { IsTrue result ↔ ((kind : PathKind) → count_of self kind ≡ 0) }
    {
        self == HeadUsages::default()
    }

    /// Whether there was no cycle of another kind. Ports `HeadUsages::is_single`.
    pub fn is_single(self, kind: PathKind) -> bool
        ensures { IsTrue result ↔ ((other : PathKind) → other ≢ kind → count_of self other ≡ 0) }
    {
        self.other_usages(kind).is_empty()
    }

    // The counts of the other kinds.
    fn other_usages(self, kind: PathKind) -> HeadUsages
        ensures { result ≡ other_usages self kind }
    {
        match kind {
            PathKind::Inductive => HeadUsages {
                inductive: 0,
                ..self
            },
            PathKind::Unknown => HeadUsages { unknown: 0, ..self },
            PathKind::Coinductive => HeadUsages {
                coinductive: 0,
                ..self
            },
            PathKind::ForcedAmbiguity => HeadUsages {
                forced_ambiguity: 0,
                ..self
            },
        }
    }
}

// A count without those that are ignored, unless it sticks.
fn subtract(count: u32, ignored: u32) -> u32
    requires { ignored ≤ count }
    ensures { result ≡ count_without count ignored }
{
    if count == u32::MAX {
        count
    } else {
        count - ignored
    }
}
