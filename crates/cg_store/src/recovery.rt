//! Recovery: the commands of a log are read back from the disk alone.
ghost use Rattle.std.specs.Prelude.{◌≡◌, ◌∷◌, [], ◌++◌, true, IfOk, IfErr, OnOk};
ghost use Rattle.cg_disk.specs.Disk.{Counts, Image, Stays};
ghost use Rattle.cg_log.specs.Openings.{HasRead as HasReadTo, disk_under, is_at_end};
ghost use Rattle.cg_log.specs.Segments.{Frames};
ghost use Rattle.cg_store.specs.Faults.{Tells};
ghost use Rattle.cg_store.specs.Loading.{Adds, HasRead, HasReadAll, IsRead, failed_loading};

use crate::fault::OpenFault;
use cg_disk::SectorDisk;
use cg_fold::Durable;
use cg_log::Opening;
use cg_record::{Decoder, ENTRIES_MAX, Metadata, RecordFault};
use std::alloc::{AllocError, Global};

/// The progress of a recovery, from the first frame on.
#[derive(Drop)]
pub(crate) struct Loading {
    /// Whether each payload so far decodes to as many commands as its frame counts.
    pub all_read: bool,
    /// State after the commands, as long as `all_read`.
    pub durable: Durable,
}

/// Returns memory for the metadata of the offsets that one commit replaces; if the allocation fails, none.
pub(crate) fn room_for_spent(alloc: Global) -> Vec<Metadata> {
    match Vec::with_capacity(alloc, ENTRIES_MAX) {
        Ok(room) => room,
        Err(_) => Vec::new(alloc),
    }
}

/// Applies the commands of a frame, one at a time. The metadata of replaced offsets go to `room`, and those of new ones
/// take their memory. Returns `false` if its payload has a fault, or another number of
/// commands than the frame counts: the state does not matter then.
pub(crate) fn add_commands(
    alloc: Global,
    durable: &mut Durable,
    room: &mut Vec<Metadata>,
    count: u64,
    payload: &[u8],
) -> Result<bool, AllocError>
    ensures { IfOk result (λ is. Adds is count payload.now durable.old durable.new) }
{
    let Ok(mut decoder) = Decoder::new(payload) else {
        return Ok(false);
    };
    let mut left = count;
    loop {
        match decoder.next_in(alloc, room) {
            Ok(Some(command)) if left > 0 => {
                durable.apply_owned_in(room, command)?;
                left -= 1;
            }
            Ok(Some(_)) => return Ok(false),
            Ok(None) => return Ok(left == 0),
            Err(RecordFault::Memory) => return Err(AllocError),
            Err(_) => return Ok(false),
        }
    }
}

// Applies the commands of a frame, unless an earlier payload could not be decoded: the state does not matter then.
fn go_on(
    alloc: Global,
    all_read: bool,
    durable: &mut Durable,
    room: &mut Vec<Metadata>,
    count: u64,
    payload: &[u8],
) -> Result<bool, AllocError>
    ensures { (frames : Frames) → IsRead all_read frames durable.old
        → IfOk result (λ is. IsRead is (frames ++ (count, payload.now) ∷ []) durable.new) }
{
    if !all_read {
        return Ok(false);
    }
    let is_text = add_commands(alloc, durable, room, count, payload)?;
    Ok(is_text)
}

impl Loading {
    fn new(alloc: Global) -> Self
        ensures { HasRead [] result }
    {
        Loading {
            all_read: true,
            durable: Durable::new(alloc),
        }
    }

    // Adds a frame. A payload that cannot be decoded is only noted, because a later frame may be bad and is reported
    // first.
    fn add(
        &mut self,
        alloc: Global,
        room: &mut Vec<Metadata>,
        count: u64,
        payload: &[u8],
    ) -> Result<(), AllocError>
        ensures { (frames : Frames) → HasRead frames self.old → OnOk result (HasRead (frames ++ (count, payload.now) ∷ []) self.new) }
    {
        self.all_read = go_on(
            alloc,
            self.all_read,
            &mut self.durable,
            room,
            count,
            payload,
        )?;
        Ok(())
    }
}

/// Reads each frame of an opening, to its end. Reports a bad payload only by `all_read`, after all frames are read.
pub(crate) fn read_frames<D: SectorDisk>(
    alloc: Global,
    opening: &mut Opening<D>,
) -> Result<Loading, OpenFault>
    // On an honest disk these are all frames of the log; on any other disk, some frames.
    ensures read { (image : Image) → HasReadTo D.is_honest D.history D.size opening.old image [] → IfOk result (λ loading.
        HasReadAll D.is_honest D.history D.size opening.new image loading) }
    ensures some { IfOk result (λ loading. (frames : Frames) × HasRead frames loading) }
    ensures tells { (image : Image) → HasReadTo D.is_honest D.history D.size opening.old image [] →
        IfErr result (Tells image (D.size (disk_under opening.old))) }
    ensures at_end { IfOk result (λ _. is_at_end opening.new ≡ true) }
    ensures time { D.is_honest (disk_under opening.old) ≡ true →
        Stays (D.history (disk_under opening.old)) (D.history (disk_under opening.new)) }
    ensures device { Counts (D.failures (disk_under opening.old)) (D.failures (disk_under opening.new)) (failed_loading result) }
    ensures same_size { D.size (disk_under opening.new) ≡ D.size (disk_under opening.old) }
    ensures same_honesty { D.is_honest (disk_under opening.new) ≡ D.is_honest (disk_under opening.old) }
{
    let mut loading = Loading::new(alloc);
    let mut spent = room_for_spent(alloc);
    while let Some(count) = opening.next()? {
        loading.add(alloc, &mut spent, count, opening.payload())?;
    }
    Ok(loading)
}
