//! Protocol lists that members of a group share. Members of one group nearly always send equal lists.
ghost use Rattle.std.specs.Prelude.{◌≡◌, ◌↔◌, IsTrue, IfSome};

use crate::checked_join::CheckedJoin;
use crate::member::Member;
use cg_request::{JoinRequest, Protocols};

fn are_same(a: &Protocols, b: &Protocols) -> bool
    ensures { IsTrue result ↔ (a.now ≡ b.now) }
{
    a.as_slice() == b.as_slice()
}

// Returns the member's own list, shared, if it equals this one.
fn shared_by(member: &Member, protocols: &Protocols) -> Option<Protocols>
    ensures { IfSome result (λ own. own ≡ protocols.now) }
{
    if !are_same(&member.protocols, protocols) {
        return None;
    }
    member.protocols.clone().ok()
}

/// Returns a list that equals this one and is stored once for the members that have it: that of the first member with
/// an equal list, or else the list itself. Linear in the members' protocols, without an allocation.
pub fn shared(members: &[Member], protocols: Protocols) -> Protocols
    ensures { result ≡ protocols }
{
    for member in members {
        if let Some(own) = shared_by(member, &protocols) {
            return own;
        }
    }
    protocols
}

/// Returns the member, which shares its protocol list with one of these members that has an equal one.
pub fn sharing(members: &[Member], member: Member) -> Member
    ensures { result ≡ member }
{
    let protocols = shared(members, member.protocols);
    Member {
        protocols,
        ..member
    }
}

/// Returns the JOIN, which shares its protocol list with one of these members that has an equal one.
pub fn sharing_join(members: &[Member], join: CheckedJoin) -> CheckedJoin
    ensures { result ≡ join }
{
    let CheckedJoin { request, session } = join;
    let protocols = shared(members, request.protocols);
    let request = JoinRequest {
        protocols,
        ..request
    };
    CheckedJoin { request, session }
}
