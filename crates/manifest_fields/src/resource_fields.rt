//! Reading the resources of a container, field by field.

ghost use Rattle.std.specs.Prelude.{◌≡◌, false, option_map, OnOk};
ghost use Rattle.serde_json.specs.View.{view};
ghost use Rattle.json_fields.specs.state.Reading.{GivesExactly};
ghost use Rattle.manifest.specs.rule.Resources.{some_above};
ghost use Rattle.manifest_fields.specs.rule.ResourceFields.{quantity_at, amounts_in, amounts_of, none_above};
ghost use Rattle.manifest_fields.specs.rule.ResourceFields.{resources_in, resources_of, pod_amounts_in};
ghost use Rattle.manifest_fields.specs.rule.ResourceFields.{pod_amounts_of, pod_resources_in, pod_resources_of};

use crate::fault::{Field, ManifestFault};
use crate::fields::object;
use json_fields::{Json, field, quantity_in};
use manifest::{Amounts, Resources};
use quantity::Quantity;
use serde_json::Value;

fn quantity_at<V: Json>(found: Option<&V>) -> Result<Option<Quantity>, ManifestFault>
    ensures { GivesExactly (λ q. q) result (quantity_at (option_map (λ v. V.data v.now) found.entry)) }
{
    let Some(value) = found else {
        return Ok(None);
    };
    Ok(Some(quantity_in(value)?))
}

#[tactic(auto, unfolding(crate::specs::rule::ResourceFields::amounts_in))]
fn amounts_in<V: Json>(value: &V) -> Result<Amounts, ManifestFault>
    ensures { GivesExactly (λ a. a) result (amounts_in (V.data value.now)) }
{
    let amounts = object(Field::Resources, Some(value))?;
    Ok(Amounts {
        cpu: quantity_at(field(amounts, "cpu"))?,
        memory: quantity_at(field(amounts, "memory"))?,
        ephemeral_storage: quantity_at(field(amounts, "ephemeral-storage"))?,
    })
}

fn amounts_of<V: Json>(found: Option<&V>) -> Result<Amounts, ManifestFault>
    ensures { GivesExactly (λ a. a) result (amounts_of (option_map (λ v. V.data v.now) found.entry)) }
{
    match found {
        None => Ok(Amounts::nothing()),
        Some(value) => amounts_in(value),
    }
}

fn none_above(requests: &Amounts, limits: &Amounts) -> Result<(), ManifestFault>
    ensures gives { GivesExactly (λ t. t) result (none_above requests.now limits.now) }
    ensures within { OnOk result (some_above requests.now limits.now ≡ false) }
{
    if requests.some_above(limits) {
        return Err(ManifestFault::RequestAboveLimit);
    }
    Ok(())
}

#[tactic(auto, unfolding(crate::specs::rule::ResourceFields::resources_in))]
fn resources_in<V: Json>(value: &V) -> Result<Resources, ManifestFault>
    ensures { GivesExactly (λ r. r) result (resources_in (V.data value.now)) }
{
    let resources = object(Field::Resources, Some(value))?;
    let requests = amounts_of(field(resources, "requests"))?;
    let limits = amounts_of(field(resources, "limits"))?;
    none_above(&requests, &limits)?;
    Ok(Resources::new(requests, limits))
}

/// The resources of a container: its requests, then its limits, each quantity in its order, then that no request is
/// above its limit, else `RequestAboveLimit`; of whatever reader the value is. (Kubernetes, "Resource Management for
/// Pods and Containers".)
pub fn resources_of<V: Json>(found: Option<&V>) -> Result<Resources, ManifestFault>
    ensures { GivesExactly (λ r. r) result (resources_of (option_map (λ v. V.data v.now) found.entry)) }
{
    match found {
        None => Ok(Resources::none()),
        Some(value) => resources_in(value),
    }
}

#[tactic(auto, unfolding(crate::specs::rule::ResourceFields::pod_amounts_in))]
fn pod_amounts_in(value: &Value) -> Result<Amounts, ManifestFault>
    ensures { GivesExactly (λ a. a) result (pod_amounts_in (view value.now)) }
{
    let amounts = object(Field::Resources, Some(value))?;
    Ok(Amounts {
        cpu: quantity_at(field(amounts, "cpu"))?,
        memory: quantity_at(field(amounts, "memory"))?,
        ephemeral_storage: None,
    })
}

fn pod_amounts_of(found: Option<&Value>) -> Result<Amounts, ManifestFault>
    ensures { GivesExactly (λ a. a) result (pod_amounts_of (option_map (λ v. view v.now) found.entry)) }
{
    match found {
        None => Ok(Amounts::nothing()),
        Some(value) => pod_amounts_in(value),
    }
}

#[tactic(auto, unfolding(crate::specs::rule::ResourceFields::pod_resources_in))]
fn pod_resources_in(value: &Value) -> Result<Resources, ManifestFault>
    ensures { GivesExactly (λ r. r) result (pod_resources_in (view value.now)) }
{
    let resources = object(Field::Resources, Some(value))?;
    let requests = pod_amounts_of(field(resources, "requests"))?;
    let limits = pod_amounts_of(field(resources, "limits"))?;
    none_above(&requests, &limits)?;
    Ok(Resources::new(requests, limits))
}

/// The resources of a pod as a whole: as of a container, but of cpu and memory alone. Returns `RequestAboveLimit` if a
/// request is above its limit. (Kubernetes, "Resource Management for Pods and Containers", "Pod-level resource
/// specification".)
pub fn pod_resources_of(found: Option<&Value>) -> Result<Resources, ManifestFault>
    ensures { GivesExactly (λ r. r) result (pod_resources_of (option_map (λ v. view v.now) found.entry)) }
{
    match found {
        None => Ok(Resources::none()),
        Some(value) => pod_resources_in(value),
    }
}
