//! Reading the restart policy and the restart rules of a container's own. (Kubernetes, "Pod Lifecycle", "Individual
//! container restart policy and rules".)

ghost use Rattle.std.specs.Prelude.{◌≡◌, ◌&&◌, not, nat_lt, length, map, option_map};
ghost use Rattle.serde_json.specs.View.{view};
ghost use Rattle.serde_json.specs.Find.{as_str};
ghost use Rattle.json_fields.specs.rule.Reading.{refused_if, each};
ghost use Rattle.json_fields.specs.state.Reading.{GivesExactly, GivesUnless, checked};
ghost use Rattle.manifest_fields.specs.declared.fault.ManifestFault.TheVariants.{Sidecar};
ghost use Rattle.manifest_fields.specs.state.Memory.{is_memory};
ghost use Rattle.manifest_reader.specs.rule.OwnRestarts.{at_most, action_of, operator_of, code_from, code_of};
ghost use Rattle.manifest_reader.specs.rule.OwnRestarts.{code_items_of, exit_codes_of, rule_of, rule_items_of};
ghost use Rattle.manifest_reader.specs.rule.OwnRestarts.{own_policy_of, init_with, role_with, may_have_rules, own_with};
ghost use Rattle.manifest_reader.specs.rule.OwnRestarts.{restarts_of};
ghost use Rattle.manifest_reader.specs.rule.Policies.{policy_from};

use json_fields::field;
use manifest::{
    ExitCodeOperator, ExitCodes, OwnRestarts, Place, Policy, RestartRule, RestartRules, Role,
};
use manifest_fields::{Field, ManifestFault, array, array_or_none, object, some_items};
use serde_json::Value;
use std::alloc::Global;

/// No container has more rules.
const MOST_RULES: usize = 20;

/// No rule has more exit codes.
const MOST_CODES: usize = 255;

const OTHER_KIND: ManifestFault = ManifestFault::WrongKind(Field::RestartRules);

const MISSING: ManifestFault = ManifestFault::Missing(Field::RestartRules);

/// The policy that a text names. `WrongKind` if it is another value, or another text.
pub(crate) fn policy_in(value: &Value) -> Result<Policy, ManifestFault>
    ensures { GivesExactly (λ p. p) result (policy_from (as_str (view value.now))) }
{
    match value.as_str() {
        Some("Always") => Ok(Policy::Always),
        Some("OnFailure") => Ok(Policy::OnFailure),
        Some("Never") => Ok(Policy::Never),
        _ => Err(ManifestFault::WrongKind(Field::RestartPolicy)),
    }
}

fn at_most(most: usize, items: &[Value]) -> Result<&[Value], ManifestFault>
    ensures { GivesExactly (λ v. map view v.now) result (at_most most (map view items.now)) }
{
    if items.len() > most {
        return Err(ManifestFault::TooMany);
    }
    Ok(items)
}

fn action_of(found: Option<&Value>) -> Result<(), ManifestFault>
    ensures { GivesExactly (λ t. t) result (action_of (option_map (λ v. view v.now) found.entry)) }
{
    let Some(value) = found else {
        return Err(MISSING);
    };
    match value.as_str() {
        Some("Restart") => Ok(()),
        _ => Err(OTHER_KIND),
    }
}

fn operator_of(found: Option<&Value>) -> Result<ExitCodeOperator, ManifestFault>
    ensures { GivesExactly (λ o. o) result (operator_of (option_map (λ v. view v.now) found.entry)) }
{
    let Some(value) = found else {
        return Err(MISSING);
    };
    match value.as_str() {
        Some("In") => Ok(ExitCodeOperator::In),
        Some("NotIn") => Ok(ExitCodeOperator::NotIn),
        _ => Err(OTHER_KIND),
    }
}

fn code_from(number: Option<i64>) -> Result<i32, ManifestFault>
    ensures { GivesExactly (λ n. n) result (code_from number) }
{
    i32::try_from(number.ok_or(OTHER_KIND)?).map_err(|_| OTHER_KIND)
}

fn code_of(value: &Value) -> Result<i32, ManifestFault>
    ensures { GivesExactly (λ n. n) result (code_of (view value.now)) }
{
    code_from(value.as_i64())
}

#[tactic(auto, unfolding(crate::specs::rule::OwnRestarts::code_items_of))]
fn code_items_of(found: Option<&Value>) -> Result<&[Value], ManifestFault>
    ensures { GivesExactly (λ v. map view v.now) result (code_items_of (option_map (λ v. view v.now) found.entry)) }
{
    let listed = array(Field::RestartRules, found)?;
    let some = some_items(Field::RestartRules, listed)?;
    at_most(MOST_CODES, some)
}

#[tactic(auto, unfolding(crate::specs::rule::OwnRestarts::exit_codes_of))]
fn exit_codes_of(value: &Value) -> Result<&Value, ManifestFault>
    ensures { GivesExactly (λ v. view v.now) result (exit_codes_of (view value.now)) }
{
    let rule = object(Field::RestartRules, Some(value))?;
    action_of(field(rule, "action"))?;
    object(Field::RestartRules, field(rule, "exitCodes"))
}

fn codes_of(alloc: Global, items: &[Value]) -> Result<Vec<i32>, ManifestFault>
    ensures { GivesUnless is_memory (λ c. c.items) result (each code_of (map view items.now)) }
{
    let mut codes = Vec::new(alloc);
    for item in items {
        let code = code_of(item)?;
        let Ok(()) = codes.push(code) else {
            return Err(ManifestFault::OutOfMemory);
        };
    }
    Ok(codes)
}

#[tactic(auto, unfolding(crate::specs::rule::OwnRestarts::rule_of))]
fn rule_of(alloc: Global, value: &Value) -> Result<RestartRule, ManifestFault>
    ensures { GivesUnless is_memory (λ r. r) result (rule_of (view value.now)) }
{
    let exit_codes = exit_codes_of(value)?;
    let operator = operator_of(field(exit_codes, "operator"))?;
    let items = code_items_of(field(exit_codes, "values"))?;
    let values = ExitCodes::new(codes_of(alloc, items)?);
    Ok(RestartRule { operator, values })
}

fn rules_of(alloc: Global, items: &[Value]) -> Result<Vec<RestartRule>, ManifestFault>
    ensures { GivesUnless is_memory (λ r. r.items) result (each rule_of (map view items.now)) }
{
    let mut rules = Vec::new(alloc);
    for item in items {
        let rule = rule_of(alloc, item)?;
        let Ok(()) = rules.push(rule) else {
            return Err(ManifestFault::OutOfMemory);
        };
    }
    Ok(rules)
}

#[tactic(auto, unfolding(crate::specs::rule::OwnRestarts::rule_items_of))]
fn rule_items_of(found: Option<&Value>) -> Result<&[Value], ManifestFault>
    ensures { GivesExactly (λ v. map view v.now) result (rule_items_of (option_map (λ v. view v.now) found.entry)) }
{
    let listed = array_or_none(Field::RestartRules, found)?;
    at_most(MOST_RULES, listed)
}

pub(crate) fn own_policy_of(found: Option<&Value>) -> Result<Option<Policy>, ManifestFault>
    ensures { GivesExactly (λ p. p) result (own_policy_of (option_map (λ v. view v.now) found.entry)) }
{
    match found {
        None => Ok(None),
        Some(value) => Ok(Some(policy_in(value)?)),
    }
}

fn init_with(policy: Option<Policy>) -> Role
    ensures { result ≡ init_with policy }
{
    match policy {
        Some(Policy::Always) => Role::Sidecar,
        _ => Role::Init,
    }
}

/// What a container with this policy of its own is to its pod.
pub(crate) fn role_with(place: Place, policy: Option<Policy>) -> Role
    ensures { result ≡ role_with place policy }
{
    match place {
        Place::InitContainers => init_with(policy),
        Place::Containers => Role::App,
    }
}

fn may_have_rules(role: Role, policy: Option<Policy>) -> bool
    ensures { result ≡ may_have_rules role policy }
{
    match role {
        Role::Sidecar => false,
        Role::Init | Role::App => policy.is_some(),
    }
}

fn own_with(role: Role, policy: Option<Policy>, rules: RestartRules) -> Option<OwnRestarts>
    ensures { result ≡ own_with role policy rules }
{
    match (role, policy) {
        (Role::Init | Role::App, Some(policy)) => Some(OwnRestarts { policy, rules }),
        _ => None,
    }
}

/// Whether a container of this role and with this policy of its own may have these rules.
fn allow_rules(role: Role, policy: Option<Policy>, items: &[Value]) -> Result<(), ManifestFault>
    ensures { GivesExactly (λ t. t) result
        (refused_if (nat_lt 0 (length (map view items.now)) && not (may_have_rules role policy)) Sidecar) }
{
    if !items.is_empty() && !may_have_rules(role, policy) {
        return Err(ManifestFault::Sidecar);
    }
    Ok(())
}

/// What a container of this role has of its own to decide on its restarts.
#[tactic(auto, unfolding(crate::specs::rule::OwnRestarts::restarts_of))]
pub(crate) fn restarts_of(
    alloc: Global,
    role: Role,
    container: &Value,
) -> Result<Option<OwnRestarts>, ManifestFault>
    ensures { GivesUnless is_memory (λ o. o) result (restarts_of role (view container.now)) }
{
    let policy = own_policy_of(field(container, "restartPolicy"))?;
    let items = rule_items_of(field(container, "restartPolicyRules"))?;
    let rules = RestartRules::new(rules_of(alloc, items)?);
    allow_rules(role, policy, items)?;
    Ok(own_with(role, policy, rules))
}

fn check_codes(items: &[Value]) -> Result<(), ManifestFault>
    ensures { result ≡ checked (each code_of (map view items.now)) }
{
    for item in items {
        code_of(item)?;
    }
    Ok(())
}

#[tactic(auto, unfolding(crate::specs::rule::OwnRestarts::rule_of))]
fn check_rule(value: &Value) -> Result<(), ManifestFault>
    ensures { result ≡ checked (rule_of (view value.now)) }
{
    let exit_codes = exit_codes_of(value)?;
    operator_of(field(exit_codes, "operator"))?;
    check_codes(code_items_of(field(exit_codes, "values"))?)
}

fn check_rules(items: &[Value]) -> Result<(), ManifestFault>
    ensures { result ≡ checked (each rule_of (map view items.now)) }
{
    for item in items {
        check_rule(item)?;
    }
    Ok(())
}

/// Whether `restarts_of` can be read, or its first fault. Doesn't allocate.
#[tactic(auto, unfolding(crate::specs::rule::OwnRestarts::restarts_of))]
pub(crate) fn check_restarts(role: Role, container: &Value) -> Result<(), ManifestFault>
    ensures { result ≡ checked (restarts_of role (view container.now)) }
{
    let policy = own_policy_of(field(container, "restartPolicy"))?;
    let items = rule_items_of(field(container, "restartPolicyRules"))?;
    check_rules(items)?;
    allow_rules(role, policy, items)
}
