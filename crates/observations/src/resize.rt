//! A container that was resized.

ghost use Rattle.std.specs.Prelude.{◌≡◌};
ghost use Rattle.observations.specs.rule.Resizes.{resized_to};

use manifest::Resources;

/// A resize of a container: the requests and limits that it has from a tick on, whatever it had before. (Kubernetes,
/// "Pod Lifecycle", "Pod resize"; that a trace can report it is this project's extended format.)
#[derive(Clone, Copy)]
pub struct Resize {
    /// The container's number.
    pub container: usize,
    /// Its requests and limits from then on.
    pub resources: Resources,
}

/// The requests and limits that the first resize of the container with the number gives it, if there is one.
pub fn resized_to(resizes: &[Resize], container: usize) -> Option<Resources>
    ensures { result ≡ resized_to resizes.now container }
{
    for resize in resizes {
        if resize.container == container {
            return Some(resize.resources);
        }
    }
    None
}
