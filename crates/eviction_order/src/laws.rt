//! What is true of the order of all candidates. The functions do nothing; their contracts are the laws.
ghost use Rattle.eviction_order.specs.state.Laws as laws;

/// Pods that are held under their numbers stand in exactly one order.
pub fn one_order()
    ensures some { laws.SomeOrder }
    ensures one { laws.OneOrder }
{}

/// The first of the order is the victim; each pod has a place; an earlier place is that of a pod that is ranked before.
pub fn places()
    ensures first { laws.FirstIsVictim }
    ensures each { laws.EachIsRanked }
    ensures in_order { laws.StandInOrder }
{}

/// Of two pods, one of which is evicted before the other, exactly one criterion decides, and it decides so.
pub fn criterion()
    ensures some { laws.SomeCriterion }
    ensures one { laws.OneCriterion }
    ensures decides { laws.CriterionDecides }
{}
