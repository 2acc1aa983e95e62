//! The restart policy of a container's own, and its restart rules.

ghost use Rattle.std.specs.Prelude.{◌≡◌};

use crate::policy::Policy;
use std::marker::Model;

/// How a rule compares an exit code with its values. (Kubernetes API, `ContainerRestartRuleOnExitCodes`.)
#[derive(Clone, Copy, Debug, PartialEq, Eq)]
pub enum ExitCodeOperator {
    /// The code is one of the values.
    In,
    /// The code is none of the values.
    NotIn,
}

/// Exit codes. Contracts see a list of whole numbers.
#[derive(Drop)]
pub struct ExitCodes {
    codes: Vec<i32>,
}

impl Model for ExitCodes {
    ghost use Rattle.std.specs.Prelude.{ℤ, List};

    ghost Value = { List ℤ };

    ghost view = { λ c. c.codes.items };
}

impl ExitCodes {
    /// These codes, in their order. Doesn't allocate.
    pub fn new(codes: Vec<i32>) -> ExitCodes
        ensures { result ≡ codes.items }
    {
        ExitCodes { codes }
    }

    /// The codes, in their order.
    pub fn as_slice(&self) -> &[i32]
        ensures { result.now ≡ self.now }
    {
        self.codes.as_slice()
    }
}

/// A rule: the kubelet restarts the container after an exit with a code that the rule matches. (Kubernetes, "Pod
/// Lifecycle", "Individual container restart policy and rules".)
#[derive(Drop)]
pub struct RestartRule {
    pub operator: ExitCodeOperator,
    /// 1 to 255 codes.
    pub values: ExitCodes,
}

/// The restart rules of a container, at most 20. Contracts see them as a list.
#[derive(Drop)]
pub struct RestartRules {
    rules: Vec<RestartRule>,
}

impl Model for RestartRules {
    ghost use Rattle.std.specs.Prelude.{List};
    ghost use Rattle.manifest.specs.declared.own_restarts.RestartRule.{RestartRule};

    ghost Value = { List RestartRule };

    ghost view = { λ r. r.rules.items };
}

impl RestartRules {
    /// These rules, in their order. Doesn't allocate.
    pub fn new(rules: Vec<RestartRule>) -> RestartRules
        ensures { result ≡ rules.items }
    {
        RestartRules { rules }
    }

    /// The rules, in their order.
    pub fn as_slice(&self) -> &[RestartRule]
        ensures { result.now ≡ self.now }
    {
        self.rules.as_slice()
    }
}

/// What a container has of its own to decide on its restarts, in place of its pod's policy. (Kubernetes, "Pod
/// Lifecycle", "Individual container restart policy and rules"; read in this project's extended format alone.)
#[derive(Drop)]
pub struct OwnRestarts {
    /// The container's own `restartPolicy`, which decides if no rule matches the exit code.
    pub policy: Policy,
    /// Its `restartPolicyRules`; a rule that matches the exit code restarts the container.
    pub rules: RestartRules,
}
