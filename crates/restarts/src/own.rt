//! After which exits a container is started again that may have a restart policy and rules of its own.

ghost use Rattle.std.specs.Prelude.{◌≡◌, ◌↔◌, IsTrue, option_map};
ghost use Rattle.std.specs.List.{list_any};
ghost use Rattle.restarts.specs.rule.Own.{is_one_of, passes, matches, policy_after, WantsRestartBy};

use crate::wanted::wants_restart;
use manifest::{ExitCodeOperator, OwnRestarts, Policy, RestartRule, Role};

fn is_one_of(values: &[i32], code: i32) -> bool
    ensures { result ≡ is_one_of values.now code }
{
    values.iter().any(|value| *value == code)
}

fn passes(operator: ExitCodeOperator, values: &[i32], code: i32) -> bool
    ensures { result ≡ passes operator values.now code }
{
    match operator {
        ExitCodeOperator::In => is_one_of(values, code),
        ExitCodeOperator::NotIn => !is_one_of(values, code),
    }
}

/// Whether the rule matches the code. (Kubernetes, "Pod Lifecycle", "Individual container restart policy and rules".)
pub fn matches(rule: &RestartRule, code: i32) -> bool
    ensures { result ≡ matches code rule.now }
{
    passes(rule.operator, rule.values.as_slice(), code)
}

fn some_matches(rules: &[RestartRule], code: i32) -> bool
    ensures { result ≡ list_any (matches code) rules.now }
{
    rules.iter().any(|rule| matches(rule, code))
}

/// The policy that decides after an exit with this code, in a pod with this policy: `Always` if some rule of the
/// container matches the code, else the container's own policy, else the pod's. (Kubernetes, "Pod Lifecycle",
/// "Individual container restart policy and rules".)
pub fn policy_after(policy: Policy, own: Option<&OwnRestarts>, code: i32) -> Policy
    ensures { result ≡ policy_after policy (option_map (λ o. o.now) own.entry) code }
{
    match own {
        None => policy,
        Some(own) if some_matches(own.rules.as_slice(), code) => Policy::Always,
        Some(own) => own.policy,
    }
}

/// Whether a container of this role, in a pod with this policy, is to be started again after an exit with this code;
/// `own` has the container's own policy and rules. (Kubernetes, "Pod Lifecycle", "Container restart policy" and
/// "Individual container restart policy and rules".)
pub fn wants_restart_by(policy: Policy, own: Option<&OwnRestarts>, role: Role, code: i32) -> bool
    ensures { IsTrue result ↔ WantsRestartBy policy (option_map (λ o. o.now) own.entry) role code }
{
    wants_restart(policy_after(policy, own, code), role, code)
}
