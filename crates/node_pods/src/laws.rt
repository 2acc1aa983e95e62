//! What is true of the pods of every node. The functions do nothing; their contracts are the laws.

ghost use Rattle.node_pods.specs.state.Laws as laws;

/// All statuses of a candidate are one in what ranks it, and so there is one victim at most.
pub fn candidates_are_alike()
    ensures alike { laws.CandidatesAreAlike }
    ensures victim { laws.OneVictim }
{}

/// A candidate after a tick is a pod that the tick shows.
pub fn candidate_is_shown()
    ensures { laws.CandidateIsShown }
{}

/// The pod that was evicted is no candidate any more.
pub fn evicted_is_no_candidate()
    ensures { laws.EvictedIsNoCandidate }
{}

/// What the pods are after a tick, or an eviction, is determined by what they were before.
pub fn one_is_after()
    ensures tick { laws.OneIsAfter }
    ensures eviction { laws.OneIsEvicted }
{}
