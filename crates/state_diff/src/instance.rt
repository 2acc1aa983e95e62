//! One instance of a container, by the listings so far.

ghost use Rattle.std.specs.Prelude.{◌≡◌, ◌≢◌, ◌↔◌, ◌≤◌, ◌-◌, ℕ, ℤ, List, [], ◌∷◌, ◌++◌, Option, Some, None};
ghost use Rattle.std.specs.Prelude.{IsSomeAnd, IfSome, IsTrue, is_some, unwrap_or};
ghost use Rattle.state_diff.specs.rule.Instances.{Tick, Listed, IsOf, IsEffective};
ghost use Rattle.state_diff.specs.state.Instances.{tick};
ghost use Rattle.state_diff.specs.rule.States.{is_exited as exited, rank};
ghost use Rattle.state_diff.specs.declared.seen.Seen.{Seen};

use crate::seen::{CriState, Seen};

/// The exit code of an instance that is no longer listed: 128 and the number of the signal SIGKILL, 9.
pub const KILLED: i32 = 137;

/// One instance: its state and exit code, and when it started and exited.
#[derive(Clone, Copy, Debug, PartialEq, Eq)]
pub struct Instance {
    pub attempt: u32,
    /// Exited once it has an exit, else the last known state that was listed, else created.
    pub state: CriState,
    pub code: Option<i32>,
    /// The moment of the first listing as running, in seconds.
    pub start: Option<u64>,
    /// The moment of the first listing as exited, or of the first tick that no longer lists it, in
    /// seconds.
    pub exit: Option<u64>,
    ghost code_given: { is_some code ≡ exited state },
}

impl Instance {
    ghost use Rattle.state_diff.specs.state.Instance.{IsInstanceOf};

    /// An attempt that no tick has listed yet.
    pub fn new(attempt: u32) -> Self
        ensures attempt { result.attempt ≡ attempt }
        ensures created { result.state ≡ CriState.Created }
        ensures state { (h : List Tick) → ((t : ℕ) → Listed h attempt t → ⊥) → IsInstanceOf h result }
    {
        Instance {
            attempt,
            state: CriState::Created,
            code: None,
            start: None,
            exit: None,
        }
    }

    /// Whether a listing's state becomes its own: it has no exit, and the state is known.
    fn takes(&self, seen: Seen) -> bool
        ensures { IsTrue result ↔ ((self.now.exit ≡ None) × (seen.state ≢ CriState.Unknown)) }
    {
        self.exit.is_none() && seen.state.is_known()
    }

    /// Whether it starts by this listing.
    pub fn starts_by(&self, seen: Seen) -> bool
        ensures { IsTrue result ↔ ((self.now.start ≡ None) × (seen.state ≡ CriState.Running)) }
    {
        self.start.is_none() && seen.state.is_running()
    }

    /// Its code, if it exits by this listing.
    pub fn died_by(&self, seen: Seen) -> Option<(u32, i32)>
        ensures { (a : ℕ) (code : ℤ) → ((result ≡ Some (a, code))
            ↔ ((seen.attempt ≡ a) × (self.now.exit ≡ None) × (seen.code ≡ Some code))) }
    {
        match (self.exit, seen.code) {
            (None, Some(code)) => Some((seen.attempt, code)),
            _ => None,
        }
    }

    /// A tick lists it.
    pub fn list(&mut self, at: u64, seen: Seen)
        requires { seen.attempt ≡ self.old.attempt }
        ensures attempt { self.new.attempt ≡ self.old.attempt }
        ensures state { (h : List Tick) → IsInstanceOf h self.old
            → IsInstanceOf (h ++ tick at (Some seen) ∷ []) self.new }
        ensures effective { (h : List Tick)
            → IsInstanceOf h self.old
            → IsEffective h self.old.attempt self.old.state
            → rank self.old.state ≤ rank seen.state
            → IsEffective (h ++ tick at (Some seen) ∷ []) self.old.attempt self.new.state }
    {
        let runs = seen.state.is_running();
        let ends = seen.state.is_exited();
        let takes = self.takes(seen);
        self.start = self.start.or(runs.then_some(at));
        self.exit = self.exit.or(ends.then_some(at));
        if takes {
            self.state = seen.state;
            self.code = seen.code;
        }
    }

    /// A tick doesn't list it, though an earlier one did.
    pub fn unlist(&mut self, at: u64)
        ensures attempt { self.new.attempt ≡ self.old.attempt }
        ensures state { (h : List Tick) (seen : Option Seen) (t : ℕ)
            → Listed h self.old.attempt t
            → (IsSomeAnd seen (IsOf self.old.attempt) → ⊥)
            → IsInstanceOf h self.old
            → IsInstanceOf (h ++ tick at seen ∷ []) self.new }
    {
        if self.exit.is_none() {
            self.state = CriState::Exited;
            self.code = Some(KILLED);
            self.exit = Some(at);
        }
    }

    /// How long it ran, in seconds, once it has exited: from its start to its exit, and 0 without a
    /// start.
    pub fn run(&self) -> Option<u64>
        ensures none { (result ≡ None) ↔ (self.now.exit ≡ None) }
        ensures some { IfSome result (λ run.
            IsSomeAnd self.now.exit (λ exit. run ≡ exit - unwrap_or self.now.start exit)) }
    {
        let exit = self.exit?;
        Some(exit.saturating_sub(self.start.unwrap_or(exit)))
    }
}
