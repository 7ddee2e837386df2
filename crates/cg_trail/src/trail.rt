//! A trail: what was loaded, and what was asked and replied since.
ghost use Rattle.std.specs.Prelude.{◌≡◌, ◌<◌, ◌≤◌, ◌-◌, ◌++◌, ◌∷◌, [], OnErr, OnOk};

use crate::trail_entry::TrailEntry;
use cg_group::Listed;
use cg_names::Moment;
use cg_record::Command;
use std::alloc::{AllocError, Global};
use std::marker::Model;

/// The commands of the state that a coordinator loaded, the moment of loading, and the events since with the replies
/// that they made. Contracts see these and the number of entries for which there is room.
#[derive(Debug, Drop)]
pub struct Trail {
    pub(crate) alloc: Global,
    pub(crate) loaded: Listed<Command>,
    pub(crate) moment: Moment,
    pub(crate) entries: Vec<TrailEntry>,
}

impl Model for Trail {
    ghost use Rattle.std.specs.Prelude.{◌-◌};
    ghost use Rattle.std.specs.Vec.{vec_len, vec_capacity};
    ghost use Rattle.cg_trail.specs.Trails.{TrailParts};

    ghost Value = { TrailParts };

    ghost view = { λ t. record { loaded = t.loaded; moment = t.moment; entries = t.entries.items; spare = vec_capacity t.entries - vec_len t.entries } };
}

impl Trail {
    /// Creates the trail of a coordinator that loaded the state of these commands, a snapshot, at this moment. Does not
    /// allocate.
    pub fn new(alloc: Global, loaded: Listed<Command>, moment: Moment) -> Self
        ensures loaded { result.loaded ≡ loaded }
        ensures moment { result.moment ≡ moment }
        ensures entries { result.entries ≡ [] }
    {
        Trail {
            alloc,
            loaded,
            moment,
            entries: Vec::new(alloc),
        }
    }

    /// Makes room for one more entry. Allocates only if there is none; if an allocation fails, nothing changes.
    pub fn reserve(&mut self) -> Result<(), AllocError>
        ensures kept { self.new ≡ record self.old { spare = self.new.spare } }
        ensures room { self.old.spare ≤ self.new.spare }
        ensures ok { OnOk result (0 < self.new.spare) }
        ensures err_without_room { OnErr result (self.old.spare ≡ 0) }
    {
        self.entries.reserve(1)?;
        Ok(())
    }

    /// Appends an entry, for which there is room. Does not allocate.
    pub fn push(&mut self, entry: TrailEntry)
        requires { 0 < self.old.spare }
        ensures { self.new ≡ record self.old { entries = self.old.entries ++ entry ∷ []; spare = self.old.spare - 1 } }
    {
        self.entries.push_reserved(entry);
    }

    /// Returns the commands of the state that was loaded.
    pub fn loaded(&self) -> &[Command]
        ensures { result.now ≡ self.now.loaded }
    {
        self.loaded.as_slice()
    }

    /// Returns the moment of loading.
    pub fn moment(&self) -> Moment
        ensures { result ≡ self.now.moment }
    {
        self.moment
    }

    /// Returns the entries, in the order of their events.
    pub fn entries(&self) -> &[TrailEntry]
        ensures { result.now ≡ self.now.entries }
    {
        self.entries.as_slice()
    }
}
