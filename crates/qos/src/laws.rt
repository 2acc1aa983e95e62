//! What the definitions of classes and effective requests imply, for every pod. The functions do
//! nothing; their contracts are the laws.
ghost use Rattle.qos.specs.state.Laws as laws;

/// Every pod is of exactly one class.
pub fn one_class()
    ensures some { laws.SomeClass }
    ensures one { laws.OneClass }
{}

/// Every pod, with resources as a whole or without, is of exactly one class.
pub fn one_pod_class()
    ensures some { laws.SomePodClass }
    ensures one { laws.OnePodClass }
{}

/// A pod that has containers, none of them with a request or a limit of cpu or memory, is
/// BestEffort.
pub fn nothing_asked_for()
    ensures { laws.NothingAskedFor }
{}

/// An effective request is at least that of each container, whatever its role is.
pub fn effective_request_covers()
    ensures { laws.EffectiveRequestCovers }
{}
