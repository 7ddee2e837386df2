//! The keys of a tree that are due.
ghost use Rattle.std.specs.Prelude.{◌≡◌, ◌≤◌, ◌++◌, length, OnErr, OnOk};
ghost use Rattle.cg_time.specs.Entries.{IsExact, due_keys};

use crate::tree::Tree;
use cg_names::Moment;
use std::alloc::AllocError;

impl<K: Ord + Clone> Tree<K> {
    /// Appends the keys that are due, in order. Visits a side of a branch only if a key below it is due.
    pub fn push_due(&self, now: Moment, keys: &mut Vec<K>) -> Result<(), AllocError>
        requires { IsExact K.is_clone }
        ensures ok { OnOk result (keys.new.items ≡ keys.old.items ++ due_keys now self.now) }
        ensures err { OnErr result (1 ≤ length (due_keys now self.now)) }
    {
        let Some(branch) = self.branch() else {
            return Ok(());
        };
        if now < branch.earliest {
            return Ok(());
        }
        branch.left.push_due(now, keys)?;
        if branch.entry.1 <= now {
            keys.push(branch.entry.0.clone()?)?;
        }
        branch.right.push_due(now, keys)
    }
}
