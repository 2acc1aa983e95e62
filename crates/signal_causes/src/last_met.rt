//! When a node condition was last met.

ghost use Rattle.std.specs.Prelude.{◌≡◌, ℕ, List, [], ◌∷◌, ◌++◌, Some, if◌then◌else◌};
ghost use Rattle.histories.specs.rule.Histories.{recorded};
ghost use Rattle.pressure.specs.rule.Pressures.{Observation};
ghost use Rattle.signal_causes.specs.rule.Stretches.{WasLastMet};

/// The moment at which a node condition was last met: one of its thresholds was active.
#[derive(Clone, Copy, Debug, PartialEq, Eq)]
pub struct LastMet {
    at: Option<u64>,
}

impl LastMet {
    /// A condition that was never observed.
    pub fn new() -> LastMet
        ensures { WasLastMet [] result.at }
    {
        LastMet { at: None }
    }

    /// The condition is met at this moment, in seconds, or isn't.
    pub fn observe(&mut self, at: u64, met: bool)
        ensures { (h : List Observation) → WasLastMet h self.old.at
            → WasLastMet (h ++ recorded at met ∷ []) self.new.at }
    {
        self.at = last_after(self.at, at, met);
    }

    /// The moment at which it was last met, in seconds; none if it never was.
    pub fn at(&self) -> Option<u64>
        ensures { (h : List Observation) → WasLastMet h self.now.at → WasLastMet h result }
    {
        self.at
    }
}

/// When it was last met, after this observation.
fn last_after(before: Option<u64>, at: u64, met: bool) -> Option<u64>
    ensures { result ≡ (if met then Some at else before) }
{
    if met { Some(at) } else { before }
}
