//! A change of a loaded group, in place.
use cg_group_state::Group;

/// A change of one loaded group, made in place, as a request, a closed session or a tick makes it.
pub trait GroupChange {
    ghost use Rattle.cg_group_state.specs.declared.group.Group.{Group};

    /// What the change returns. A change that can fail returns a `Result`.
    type Output;

    /// What has to hold of the group before the change.
    ghost Suits: { Self → Group → Type 0 } = { λ _ _. Unit {0} };

    /// What holds of the group before and after the change, and of what the change returns.
    ghost Becomes: { Self → Group → Group → Self.Output → Type 0 };

    /// Changes the group.
    fn change(self, group: &mut Group) -> Self::Output
        requires { Suits self group.old }
        ensures { Becomes self group.old group.new result };
}
