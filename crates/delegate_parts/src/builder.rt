//! What a search records of itself.
ghost use Rattle.std.specs.Prelude.{◌≡◌, ◌^◌, ◌-◌};

/// Counts the frames that are started.
#[derive(Debug, Drop)]
pub struct Builder {
    is_noop: bool,
    started: u64,
}

impl Builder {
    ghost use Rattle.delegate_parts.specs.Below.{CountsOne};
    ghost use Rattle.delegate_parts.specs.Builder.{started_in, is_noop_of};

    /// A builder that has seen no frame. A search may use its cache in full only if the builder is
    /// a no-op.
    pub fn new(noop: bool) -> Builder
        ensures noop { is_noop_of result ≡ noop }
        ensures started { started_in result ≡ 0 }
    {
        Builder {
            is_noop: noop,
            started: 0,
        }
    }

    /// How many frames were started. The count stays at 18446744073709551615.
    pub fn started(&self) -> u64
        ensures { result ≡ started_in self.now }
    {
        self.started
    }

    /// Whether a search may use its cache in full.
    pub fn is_noop(&self) -> bool
        ensures { result ≡ is_noop_of self.now }
    {
        self.is_noop
    }

    /// Counts a frame that is started.
    pub fn note_start(&mut self)
        ensures counted { CountsOne (2 ^ 64 - 1) (started_in self.old) (started_in self.new) }
        ensures same_noop { is_noop_of self.new ≡ is_noop_of self.old }
    {
        self.started = self.started.saturating_add(1);
    }
}
