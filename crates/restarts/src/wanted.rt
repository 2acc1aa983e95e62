//! After which exits a container is started again.

ghost use Rattle.std.specs.Prelude.{◌↔◌, IsTrue};
ghost use Rattle.manifest.specs.rule.Policy.{WantsRestart};

use manifest::{Policy, Role};

/// Whether a container of this role, in a pod with this policy, is to be started again after an
/// exit with this code.
///
/// (Kubernetes, "Pod Lifecycle", "Container restart policy"; "Init Containers": init containers of
/// a pod with the policy `Always` are started again as with `OnFailure`; "Sidecar Containers": a
/// sidecar is started again after each exit.)
pub fn wants_restart(policy: Policy, role: Role, code: i32) -> bool
    ensures { IsTrue result ↔ WantsRestart policy role code }
{
    match (role, policy) {
        (Role::Sidecar, _) | (Role::App, Policy::Always) => true,
        (_, Policy::Never) => false,
        (Role::Init, Policy::Always) | (_, Policy::OnFailure) => code != 0,
    }
}
