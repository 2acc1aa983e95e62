//! How many results in a row have one outcome.

ghost use Rattle.std.specs.Prelude.{◌≡◌, ◌↔◌, List, ◌∷◌, [], ◌++◌, IsTrue};
ghost use Rattle.manifest.specs.declared.outcome.Outcome.{Outcome};
ghost use Rattle.probes.specs.state.Outcomes.{IsRunLength};

/// How many results at the end have one outcome, counted up to a limit, after one more result that
/// has it or not.
pub fn extend_run(length: u32, has: bool, limit: u32) -> u32
    ensures { (outcome next : Outcome) (results : List Outcome) → (IsTrue has ↔ (next ≡ outcome))
        → IsRunLength outcome limit results length → IsRunLength outcome limit (results ++ next ∷ []) result }
{
    if !has {
        0
    } else if length < limit {
        length + 1
    } else {
        length
    }
}
