//! The commands of the durable state.
use crate::assigned::Assigned;
use crate::committed::Committed;
use crate::deleted::Deleted;
use crate::dropped::Dropped;
use crate::emptied::Emptied;
use crate::expired::Expired;
use crate::replaced::Replaced;

/// A change of the durable state.
#[derive(Debug, Drop)]
pub enum Command {
    Assigned(Assigned),
    Emptied(Emptied),
    Replaced(Replaced),
    Committed(Committed),
    Deleted(Deleted),
    Expired(Expired),
    Dropped(Dropped),
}
