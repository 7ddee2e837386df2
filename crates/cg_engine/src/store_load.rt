//! Opening a store for an engine.
ghost use Rattle.std.specs.Prelude.{◌≡◌, ◌≢◌, ℕ, true, IfErr, IfOk, MatchResult};
ghost use Rattle.cg_disk.specs.Disk.{Stays, present};
ghost use Rattle.cg_fold.specs.Durable.{State};
ghost use Rattle.cg_group_table.specs.Kept.{AreRecords};
ghost use Rattle.cg_store.specs.Carried.{Carries};
ghost use Rattle.cg_store.specs.Store.{disk_of};
ghost use Rattle.cg_engine.specs.Loads.{IsPassing, Tells};
ghost use Rattle.cg_engine.specs.Stored.{Stores};

use crate::fault::LoadFault;
use cg_disk::SectorDisk;
use cg_fold::Durable;
use cg_store::Store;
use std::alloc::Global;

/// Opens the store of a disk. Returns it with the number of its commands and the state after them.
pub fn opened<D: SectorDisk>(
    alloc: Global,
    disk: D,
) -> Result<(Store<D>, u64, Durable), (LoadFault, D)>
    ensures carried { D.is_honest disk ≡ true → (n : ℕ) (state : State) → Carries (present (D.history disk)).content (D.size disk) n state
        → MatchResult result (λ o. (o.1 ≡ n) × (o.2 ≡ state)) (λ refused. IsPassing refused.0) }
    ensures found { D.is_honest disk ≡ true → IfOk result (λ o. Carries (present (D.history disk)).content (D.size disk) o.1 o.2) }
    ensures records { IfOk result (λ o. AreRecords o.2) }
    ensures never { IfErr result (λ refused. refused.0 ≢ LoadFault.Loaded) }
    ensures stored { IfOk result (λ o. Stores D.is_honest D.history o.0 o.2) }
    ensures tells { D.is_honest disk ≡ true → IfErr result (λ refused. Tells (present (D.history disk)).content (D.size disk) refused.0) }
    ensures stays { D.is_honest disk ≡ true → MatchResult result (λ o. Stays (D.history disk) (D.history (disk_of o.0))) (λ refused. Stays (D.history disk) (D.history refused.1)) }
{
    match Store::open(alloc, disk) {
        Ok(found) => Ok(found),
        Err((fault, disk)) => Err((LoadFault::from(fault), disk)),
    }
}
