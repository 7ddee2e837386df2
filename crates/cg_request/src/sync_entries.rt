//! The entries of a SYNC.
use crate::request_fields::SyncEntry;
use cg_record::{Distinct, Keyed, MEMBERS_MAX};

/// The entries of a leader's SYNC: at most `MEMBERS_MAX`, all for different members, in request order. A member that does
/// not lead sends `SyncEntries::none`.
pub type SyncEntries = Distinct<SyncEntry, 0, MEMBERS_MAX>;

impl Keyed for SyncEntry {
    ghost use Rattle.cg_request.specs.SyncEntries.{share_member};

    ghost shares = { share_member };

    fn shares_key(&self, other: &Self) -> bool {
        self.member == other.member
    }
}
