//! What decides whether a restart follows an exit.

ghost use Rattle.std.specs.Prelude.{◌≡◌, option_map};
ghost use Rattle.restart_causes.specs.rule.Decisions.{first_match, own_decision, decision_by, decision_after};

use manifest::{OwnRestarts, Policy, RestartRule, Role};
use restarts::matches;

/// What decides whether a restart follows an exit. (Kubernetes, "Pod Lifecycle", "Individual container restart policy
/// and rules"; "Sidecar Containers".)
#[derive(Clone, Copy, Debug, PartialEq, Eq)]
pub enum Decider {
    /// That the container is a sidecar.
    Sidecar,
    /// The container's rule at this place, counted from 0: the first one that matches the exit code.
    Rule(usize),
    /// The container's own policy.
    Container,
    /// The pod's policy.
    Pod,
}

/// What decides, and the policy that it gives.
#[derive(Clone, Copy, Debug, PartialEq, Eq)]
pub struct Decision {
    pub by: Decider,
    pub policy: Policy,
}

/// What decides after an exit of a container of this role with this code, in a pod with this policy; `own` has the
/// container's own policy and rules.
pub fn decision_after(policy: Policy, own: Option<&OwnRestarts>, role: Role, code: i32) -> Decision
    ensures { result ≡ decision_after policy (option_map (λ o. o.now) own.entry) role code }
{
    match role {
        Role::Sidecar => Decision {
            by: Decider::Sidecar,
            policy: Policy::Always,
        },
        Role::Init | Role::App => decision_by(policy, own, code),
    }
}

/// The same of a container that is no sidecar.
fn decision_by(policy: Policy, own: Option<&OwnRestarts>, code: i32) -> Decision
    ensures { result ≡ decision_by policy (option_map (λ o. o.now) own.entry) code }
{
    match own {
        Some(own) => own_decision(own.policy, first_match(own.rules.as_slice(), code)),
        None => Decision {
            by: Decider::Pod,
            policy,
        },
    }
}

/// The same of a container with a policy of its own, where the rule at this place is the first that matches.
fn own_decision(policy: Policy, place: Option<usize>) -> Decision
    ensures { result ≡ own_decision policy place }
{
    match place {
        Some(place) => Decision {
            by: Decider::Rule(place),
            policy: Policy::Always,
        },
        None => Decision {
            by: Decider::Container,
            policy,
        },
    }
}

/// The place of the first rule that matches the code.
fn first_match(rules: &[RestartRule], code: i32) -> Option<usize>
    ensures { result ≡ first_match code rules.now }
{
    for (place, rule) in rules.iter().enumerate() {
        if matches(rule, code) {
            return Some(place);
        }
    }
    None
}
