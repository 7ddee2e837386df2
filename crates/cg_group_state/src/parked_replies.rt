//! Replies to parked calls, all of a kind in one pass.
ghost use Rattle.std.specs.Prelude.{◌≡◌, ◌++◌, OnOk, IfOk};
ghost use Rattle.cg_group_state.specs.Staying.{remaining};
ghost use Rattle.cg_group_state.specs.Waiting.{answer, answers, refusing};

use crate::calls::Calls;
use crate::few::Few;
use crate::member::Member;
use crate::reply::Reply;
use crate::who_stays::Staying;
use cg_names::Code;
use cg_request::Ticket;
use std::alloc::AllocError;

/// A rule that gives the reply to a member's parked call.
pub trait Telling {
    ghost use Rattle.cg_group_state.specs.declared.member.Member.{Member};
    ghost use Rattle.cg_group_state.specs.declared.reply.Reply.{Reply};

    ghost tells: { Self → Member → Reply };

    fn tell(&self, member: &Member) -> Result<Reply, AllocError>
        ensures { IfOk result (λ reply. reply ≡ tells self.now member.now) };
}

/// The rule that refuses every call with this code.
#[derive(Drop)]
pub struct Refusing(pub Code);

impl Telling for Refusing {
    ghost use Rattle.cg_group_state.specs.Waiting.{refusing};

    ghost tells = { λ r m. refusing r.0 m };

    fn tell(&self, _member: &Member) -> Result<Reply, AllocError> {
        Ok(Reply::Refused(self.0))
    }
}

/// Appends the reply to the member's parked call, if that call is one of these.
pub fn answer_one<T: Telling>(
    which: Calls,
    teller: &T,
    member: &Member,
    replies: &mut Few<(Ticket, Reply)>,
) -> Result<(), AllocError>
    ensures { OnOk result (replies.new ≡ replies.old ++ answer which (T.tells teller.now) member.now) }
{
    if let Some(ticket) = which.called(member.waits) {
        replies.push((ticket, teller.tell(member)?))?;
    }
    Ok(())
}

/// Appends the replies to these parked calls of the members that stay, in joining order. Linear in the members.
#[tactic(auto, unfolding(crate::specs::Waiting::answers))]
pub fn answer_staying<T: Telling>(
    which: Calls,
    teller: &T,
    who: &Staying,
    members: &[Member],
    replies: &mut Few<(Ticket, Reply)>,
) -> Result<(), AllocError>
    ensures { OnOk result (replies.new ≡ replies.old ++ answers which (T.tells teller.now) (remaining who.now members.now)) }
{
    for member in members {
        if who.keeps(member) {
            answer_one(which, teller, member, replies)?;
        }
    }
    Ok(())
}

/// Appends the replies to these parked calls, in joining order. Linear in the members.
#[tactic(auto, using(crate::proofs::Remaining::all_stay))]
pub fn answer_all<T: Telling>(
    which: Calls,
    teller: &T,
    members: &[Member],
    replies: &mut Few<(Ticket, Reply)>,
) -> Result<(), AllocError>
    ensures { OnOk result (replies.new ≡ replies.old ++ answers which (T.tells teller.now) members.now) }
{
    answer_staying(which, teller, &Staying::All, members, replies)?;
    Ok(())
}
