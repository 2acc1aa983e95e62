//! The newest instance of a container by the listings so far, and what each tick changes of it.

ghost use Rattle.std.specs.Prelude.{◌≡◌, ◌↔◌, ◌<◌, ◌≤◌, ◌-◌, ℕ, ℤ, List, [], ◌∷◌, ◌++◌, length, Option, Some, None};
ghost use Rattle.std.specs.Prelude.{IsSomeAnd, IsTrue, IsSome, IfSome, MatchOption};
ghost use Rattle.state_diff.specs.rule.Instances.{Tick, IsOf, seen_at, Listed, ListedAs, IsNewest, IsState, IsExit};
ghost use Rattle.state_diff.specs.state.Instances.{tick, IsAcceptable};
ghost use Rattle.state_diff.specs.rule.Instances.{IsExitCode, IsStart, Ends, IsSetUp, IsEffective};
ghost use Rattle.state_diff.specs.rule.Acceptable.{is_acceptable};
ghost use Rattle.histories.specs.rule.Histories.{IsFirstMoment, last_moment};
ghost use Rattle.state_diff.specs.rule.States.{rank};
ghost use Rattle.state_diff.specs.declared.seen.CriState.TheVariants.{Running};
ghost use Rattle.state_diff.specs.state.Instance.{IsInstanceOf};
ghost use Rattle.state_diff.specs.declared.instance.Instance.{Instance};
ghost use Rattle.state_diff.specs.state.Differ.{Accepts, IsBefore, IsNewestSeen, IsOfNewest, IsNewestRun, IsStateOf};
ghost use Rattle.state_diff.specs.state.Differ.{AreChanges, SetsUp, IsNewestOf, IsListedBy};

use crate::instance::Instance;
use crate::seen::Seen;

/// What a tick changes of a container's instances.
#[derive(Clone, Copy, Debug, PartialEq, Eq)]
pub struct Changes {
    /// The attempt that is no longer listed.
    pub removed: Option<u32>,
    /// Whether that attempt exits by it, with 137.
    pub removed_died: bool,
    /// The listed attempt, if it starts.
    pub started: Option<u32>,
    /// The listed attempt, if it exits, and its code.
    pub died: Option<(u32, i32)>,
}

/// Follows the listings of one container, of which each tick has at most one, the newest instance. It keeps the newest
/// instance by the listings so far, and the moment of the last tick, but none of the listings.
#[derive(Clone, Copy, Debug, PartialEq, Eq)]
pub struct Differ {
    newest: Option<Instance>,
    listed: bool,
    set_up: bool,
    last_at: Option<u64>,
}

impl Differ {
    /// A container that no tick has listed yet.
    pub fn new() -> Self
        ensures { IsStateOf [] result }
    {
        Differ {
            newest: None,
            listed: false,
            set_up: false,
            last_at: None,
        }
    }

    /// Whether the listing may come next: its attempt is not below one that was listed before; if
    /// it is the newest, the last tick listed it; and its state is not below the known one in the
    /// order created, running, exited. An unknown state always may, and so may no listing at all.
    pub fn accepts(&self, seen: Option<Seen>) -> bool
        ensures value { IsTrue result ↔ Accepts self.now seen }
        ensures acceptable { (h : List Tick) → IsStateOf h self.now → (IsTrue result ↔ IsAcceptable h seen) }
        ensures computed { (h : List Tick) → IsStateOf h self.now → result ≡ is_acceptable h seen }
    {
        self.follows(seen)
    }

    /// Whether the listing is of a later attempt, or goes on with the newest instance, if that was
    /// listed.
    fn follows(&self, seen: Option<Seen>) -> bool
        ensures { IsTrue result ↔ Accepts self.now seen }
    {
        let Some(seen) = seen else {
            return true;
        };
        match self.newest {
            None => true,
            Some(newest) => {
                newest.attempt < seen.attempt
                    || newest.attempt == seen.attempt
                        && self.listed
                        && newest.state.rank() <= seen.state.rank()
            }
        }
    }

    /// The newest instance ever listed, with its state and exit code: exited once it has an exit,
    /// with 137 if it went unlisted, and never unknown.
    pub fn newest(&self) -> Option<Seen>
        ensures { (h : List Tick) → IsStateOf h self.now → IsNewestSeen h result }
    {
        let newest = self.newest?;
        Some(Seen {
            attempt: newest.attempt,
            state: newest.state,
            code: newest.code,
        })
    }

    /// The moment at which the newest instance was first listed as running, in seconds.
    pub fn first_running(&self) -> Option<u64>
        ensures { (h : List Tick)
            → IsStateOf h self.now
            → IsOfNewest h (λ a. IsFirstMoment h (ListedAs h a Running)) result }
    {
        self.newest?.start
    }

    /// The moment at which the newest instance exited, in seconds.
    pub fn exited_at(&self) -> Option<u64>
        ensures { (h : List Tick) → IsStateOf h self.now → IsOfNewest h (λ a. IsFirstMoment h (Ends h a)) result }
    {
        self.newest?.exit
    }

    /// How long the newest instance ran, in seconds, once it has exited; 0 if it never started.
    pub fn run(&self) -> Option<u64>
        ensures { (h : List Tick) → IsStateOf h self.now → IsNewestRun h result }
    {
        self.newest?.run()
    }

    /// Whether the container was set up: some instance has started or exited. (Kubernetes, "Pod
    /// Lifecycle", "Pod phase".)
    pub fn set_up(&self) -> bool
        ensures { (h : List Tick) → IsStateOf h self.now → (IsTrue result ↔ IsSetUp h) }
    {
        self.set_up
    }

    /// The moment of the last tick, in seconds; none before the first.
    pub fn last_at(&self) -> Option<u64>
        ensures moment { (h : List Tick) → IsStateOf h self.now → result ≡ last_moment h }
        ensures before { (moment : ℕ) → (IfSome result (λ last. last < moment) ↔ IsBefore self.now moment) }
    {
        self.last_at
    }

    /// The instance of this listing so far: the newest one, or a later one that wasn't listed yet.
    fn instance(&self, seen: Seen) -> Instance
        requires { Accepts self.now (Some seen) }
        ensures attempt { result.attempt ≡ seen.attempt }
        ensures ranked { rank result.state ≤ rank seen.state }
        ensures state { (h : List Tick) → IsStateOf h self.now → IsInstanceOf h result }
        ensures effective { (h : List Tick) → IsStateOf h self.now → IsEffective h seen.attempt result.state }
    {
        match self.newest_of(seen.attempt) {
            Some(newest) => newest,
            None => Instance::new(seen.attempt),
        }
    }

    /// The newest instance, if it is of the attempt.
    fn newest_of(&self, attempt: u32) -> Option<Instance>
        ensures { (i : Instance) → ((result ≡ Some i)
            ↔ ((self.now.newest ≡ Some i) × (i.attempt ≡ attempt))) }
    {
        let newest = self.newest?;
        if newest.attempt == attempt {
            Some(newest)
        } else {
            None
        }
    }

    /// The newest instance after a tick.
    fn newest_after(&self, at: u64, seen: Option<Seen>) -> Option<Instance>
        requires { Accepts self.now seen }
        ensures attempt { IfSome seen (λ s. IsSomeAnd result (λ i. i.attempt ≡ s.attempt)) }
        ensures newest { (h : List Tick) → IsStateOf h self.now → IsNewestOf (h ++ tick at seen ∷ []) result }
        ensures effective { (h : List Tick)
            → IsStateOf h self.now
            → IfSome result (λ i. IsSome seen → IsEffective (h ++ tick at seen ∷ []) i.attempt i.state) }
    {
        match seen {
            Some(seen) => {
                let mut instance = self.instance(seen);
                instance.list(at, seen);
                Some(instance)
            }
            None => {
                let mut instance = self.newest?;
                instance.unlist(at);
                Some(instance)
            }
        }
    }

    /// The attempt that is no longer listed.
    fn removed(&self, seen: Option<Seen>) -> Option<u32>
        ensures { (a : ℕ) → ((result ≡ Some a)
            ↔ (IsListedBy self.now.newest self.now.listed a × (IsSomeAnd seen (IsOf a) → ⊥))) }
    {
        let newest = self.newest?;
        if self.listed && !is_of(newest.attempt, seen) {
            Some(newest.attempt)
        } else {
            None
        }
    }

    /// Whether the newest instance exits since it is no longer listed.
    fn removed_died(&self, seen: Option<Seen>) -> bool
        ensures { IsTrue result
            ↔ IsSomeAnd self.now.newest (λ i. (i.exit ≡ None) × (IsSomeAnd seen (IsOf i.attempt) → ⊥)) }
    {
        match self.newest {
            Some(newest) => newest.exit.is_none() && !is_of(newest.attempt, seen),
            None => false,
        }
    }

    /// What a tick changes.
    fn changes(&self, seen: Option<Seen>) -> Changes
        requires { Accepts self.now seen }
        ensures { (h : List Tick) (at : ℕ)
            → IsStateOf h self.now
            → AreChanges (h ++ tick at seen ∷ []) (length h) result }
    {
        let removed = self.removed(seen);
        let removed_died = self.removed_died(seen);
        match seen {
            Some(seen) => {
                let instance = self.instance(seen);
                Changes {
                    removed,
                    removed_died,
                    started: instance.starts_by(seen).then_some(seen.attempt),
                    died: instance.died_by(seen),
                }
            }
            None => Changes {
                removed,
                removed_died,
                started: None,
                died: None,
            },
        }
    }

    /// A tick comes, at the moment, in seconds, with what it lists of the container: a listing that
    /// `accepts` takes, at a moment later than `last_at`, if there is one.
    pub fn step(&mut self, at: u64, seen: Option<Seen>) -> Changes
        requires accepted { Accepts self.old seen }
        requires later { IsBefore self.old at }
        ensures state { (h : List Tick) → IsStateOf h self.old → IsStateOf (h ++ tick at seen ∷ []) self.new }
        ensures changes { (h : List Tick) → IsStateOf h self.old
            → AreChanges (h ++ tick at seen ∷ []) (length h) result }
    {
        let changes = self.changes(seen);
        self.newest = self.newest_after(at, seen);
        self.listed = seen.is_some();
        self.set_up |= changes.set_up();
        self.last_at = Some(at);
        changes
    }

    /// The instance tracker as a tick leaves it that it may follow, as `step` does.
    pub fn after(self, at: u64, seen: Option<Seen>) -> Differ
        requires accepted { Accepts self seen }
        requires later { IsBefore self at }
        ensures { (h : List Tick) → IsStateOf h self → IsStateOf (h ++ tick at seen ∷ []) result }
    {
        let mut next = self;
        next.step(at, seen);
        next
    }
}

impl Changes {
    /// Whether an instance starts or exits.
    fn set_up(&self) -> bool
        ensures { IsTrue result ↔ SetsUp self.now }
    {
        self.removed_died || self.started.is_some() || self.died.is_some()
    }
}

/// Whether the listing is of the attempt.
fn is_of(attempt: u32, seen: Option<Seen>) -> bool
    ensures { IsTrue result ↔ IsSomeAnd seen (IsOf attempt) }
{
    match seen {
        Some(seen) => seen.attempt == attempt,
        None => false,
    }
}
