//! The pods that are present at a moment: those that its tick shows.

ghost use Rattle.std.specs.Prelude.{◌≡◌, ◌↔◌, ℕ, Option, Some, IsTrue, IsOk, OnOk, OnErr};
ghost use Rattle.histories.specs.rule.Histories.{last_moment};
ghost use Rattle.pod_piece.specs.declared.status.PodStatus.{PodStatus as SomeStatus};
ghost use Rattle.pod_piece.specs.state.Status.{IsEvictableAt};
ghost use Rattle.ranking.specs.state.Index.{IsIndexOf, IsRanked};

use crate::index::RankIndex;
use pod_piece::PodPiece;
use std::alloc::AllocError;

/// Whether the pod has the tick of the moment, in seconds.
fn is_present(piece: &PodPiece, moment: u64) -> bool
    requires { piece.now.waiting ≡ 0 }
    ensures { IsTrue result ↔ (last_moment piece.now.handed ≡ Some moment) }
{
    piece.last_at() == Some(moment)
}

impl RankIndex {
    /// Gives the pod its present place, as [`RankIndex::update`] does, if the tick of the moment, in seconds, shows it;
    /// else it changes nothing. Returns `Err` if an allocation fails; the index is then as it was. It never fails for a
    /// pod that is gone, or for one that may not be evicted.
    pub fn rank(&mut self, piece: &PodPiece, moment: u64) -> Result<(), AllocError>
        requires { piece.now.waiting ≡ 0 }
        ensures signal { self.new.signal ≡ self.old.signal }
        ensures dedicated { self.new.has_dedicated_imagefs ≡ self.old.has_dedicated_imagefs }
        ensures held { OnOk result ((held : ℕ → Option SomeStatus) → IsIndexOf held self.old
            → (after : ℕ → Option SomeStatus) × IsIndexOf after self.new × IsRanked moment piece.now held after) }
        ensures out { ((last_moment piece.now.handed ≡ Some moment) × IsEvictableAt moment piece.now → ⊥)
            → IsOk result }
        ensures err { OnErr result (self.new ≡ self.old) }
    {
        if is_present(piece, moment) {
            self.update(piece.status(), moment)?;
        }
        Ok(())
    }
}
