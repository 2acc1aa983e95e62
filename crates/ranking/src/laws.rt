//! What is true of the order of eviction, of all pods. The functions do nothing; their contracts are
//! the laws.

ghost use Rattle.ranking.specs.state.Laws as laws;

/// The lesser of two keys belongs to the pod that is ranked before the other.
pub fn lesser_key_is_before()
    ensures { laws.LesserKeyIsBefore }
{}

/// Of two pods with different numbers exactly one is ranked before the other, and all pods are in one order.
pub fn order_is_total()
    ensures { laws.OrderIsTotal }
{}

/// Of finitely many pods one is ranked before all others, and only that one.
pub fn one_victim()
    ensures exists { laws.SomeVictim }
    ensures unique { laws.OneVictim }
{}

/// What is held after an update, or a removal, is determined by what was held before.
pub fn one_is_held_after()
    ensures update { laws.OneIsHeldAfter }
    ensures removal { laws.OneIsHeldWithout }
{}
