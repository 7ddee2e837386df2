//! Closed sessions: only the groups that the session index has for the session are visited, and they change in place.
ghost use Rattle.std.specs.Prelude.{◌≡◌, ◌++◌, Some, None, true, false, IfOk, OnErr, OnOk};
ghost use Rattle.cg_group_table.specs.GroupTable.{InOrder, effects_of, find_group, groups_after};
ghost use Rattle.cg_group_table.specs.Kept.{Each};
ghost use Rattle.cg_group_table.specs.SessionIndex.{has_homes, is_home, is_noted, refusals};
ghost use Rattle.cg_group_state.specs.declared.calls.Calls.TheVariants.{OfSession};
ghost use Rattle.cg_group_state.specs.declared.group.Group.{Group};
ghost use Rattle.cg_group_rules.specs.Leave.{gone_in};
ghost use Rattle.cg_group_state.specs.Waiting.{answers, refusing};
ghost use Rattle.cg_names.specs.declared.code.Code.TheVariants.{CoordinatorNotAvailable};
ghost use Rattle.cg_group_rules.specs.TickDeadline.{gone_touches};

use crate::group_change::GroupChange;
use crate::group_table::GroupTable;
use crate::session_index::{Home, SessionIndex};
use cg_group_state::{Calls, Effects, Few, Group, Refusing, Reply, answer_all};
use cg_names::{Code, GroupId, Moment};
use cg_request::Ticket;
use std::alloc::AllocError;
use std::collections::BTreeMap;

// Appends the replies to the parked calls of the session in the group with this id, if it is loaded.
fn refuse_named(
    groups: &GroupTable,
    id: &GroupId,
    session: u64,
    replies: &mut Few<(Ticket, Reply)>,
) -> Result<(), AllocError>
    ensures there { OnOk result
        ((g : Group) → find_group id.now groups.now ≡ Some g → replies.new ≡ replies.old ++ answers (OfSession session) (refusing CoordinatorNotAvailable) g.members) }
    ensures absent { OnOk result (find_group id.now groups.now ≡ None → replies.new ≡ replies.old) }
    ensures in_order { InOrder groups.now }
{
    let Some(group) = groups.find(id) else {
        return Ok(());
    };
    let refusing = Refusing(Code::CoordinatorNotAvailable);
    answer_all(
        Calls::OfSession(session),
        &refusing,
        group.members.as_slice(),
        replies,
    )?;
    Ok(())
}

// Returns the replies to the parked calls of the session, all of which are in the groups with these ids.
fn refused_homes(
    groups: &GroupTable,
    ids: &BTreeMap<GroupId, Home>,
    session: u64,
) -> Result<Few<(Ticket, Reply)>, AllocError>
    requires { Each (λ g. is_noted g.id (Some ids.now) ≡ false → gone_touches session g ≡ false) groups.now }
    ensures { IfOk result (λ replies. replies ≡ refusals session groups.now) }
{
    let mut replies = Few::new(groups.allocator());
    for id in ids.keys() {
        refuse_named(groups, id, session, &mut replies)?;
    }
    Ok(replies)
}

/// The change of a group at the end of a session: the session's parked calls in it are cleared, and their members count as heard.
#[derive(Drop)]
struct Answering {
    session: u64,
    now: Moment,
}

impl GroupChange for Answering {
    ghost use Rattle.std.specs.Prelude.{◌≡◌};
    ghost use Rattle.cg_group_rules.specs.Leave.{gone_in};

    type Output = ();

    ghost Becomes = { λ a g after _. after ≡ (gone_in a.now a.session g).group };

    #[tactic(auto, unfolding(cg_group_rules::specs::Leave::gone_in))]
    fn change(self, group: &mut Group) {
        group
            .members
            .answer(Calls::OfSession(self.session), self.now);
    }
}

// Clears the parked calls of the session, all of which are in the groups with these ids.
fn answer_homes(held: &mut GroupTable, ids: &BTreeMap<GroupId, Home>, session: u64, now: Moment)
    requires { Each (λ g. is_noted g.id (Some ids.now) ≡ false → gone_touches session g ≡ false) held.old }
    ensures { held.new ≡ groups_after (gone_in now session) held.old }
{
    for id in ids.keys() {
        let _changed = held.change(id, Answering { session, now });
    }
}

/// Ends the session in the groups that the index has for it, in place: its parked calls get 15, and their members count as heard.
/// Costs four look-ups for each of these groups, and three passes over its members. Allocates only if the index has the session;
/// if an allocation fails, nothing changes.
pub fn end_session(
    held: &mut GroupTable,
    homes: &SessionIndex,
    session: u64,
    now: Moment,
) -> Result<Effects, AllocError>
    requires { Each (λ g. is_home homes.now session g.id ≡ false → gone_touches session g ≡ false) held.old }
    ensures groups { OnOk result (held.new ≡ groups_after (gone_in now session) held.old) }
    ensures effects { IfOk result (λ e. e ≡ effects_of (gone_in now session) held.old) }
    ensures err { OnErr result (held.new ≡ held.old) }
    ensures err_known { OnErr result (has_homes homes.now session ≡ true) }
{
    let alloc = held.allocator();
    let Some(ids) = homes.get(&session) else {
        return Ok(Effects {
            commands: Few::new(alloc),
            replies: Few::new(alloc),
        });
    };
    let replies = refused_homes(held, ids, session)?;
    answer_homes(held, ids, session, now);
    Ok(Effects {
        commands: Few::new(alloc),
        replies,
    })
}
