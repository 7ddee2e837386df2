//! What holds of every image that carries a log.
ghost use Rattle.std.specs.Prelude.{◌≡◌, ◌≤◌, ℕ};
ghost use Rattle.cg_disk.specs.Disk.{Image, Moment};
ghost use Rattle.cg_root.specs.declared.root.Root.{Root};
ghost use Rattle.cg_log.specs.Carried.{AllCarry, Carries, Content, HoldsContent, tails};
ghost use Rattle.cg_log.specs.Faults.{HasBadFrame};
ghost use Rattle.cg_log.specs.Segments.{Frames, frames_of};
ghost use Rattle.cg_log.specs.declared.numbers.TheConstants.{COMMAND_NUMBER_MAX};

/// States that an image carries at most one number and one list of frames of base and tail, and none where a frame is
/// bad; and that every crash image carries what a log holds. It does nothing.
pub fn log_laws()
    ensures one_content { (image : Image) (sectors n m : ℕ) (base base' tail tail' : Frames) →
        Carries image sectors n base tail → Carries image sectors m base' tail' →
        (n ≡ m) × (base ≡ base') × (tail ≡ tail') }
    ensures good_or_bad { (image : Image) (sectors n : ℕ) (base tail : Frames) →
        Carries image sectors n base tail → ¬ HasBadFrame image sectors }
    ensures held_is_carried { (m : Moment) (sectors : ℕ) (root : Root) (end number : ℕ) (has : Content) →
        number ≤ COMMAND_NUMBER_MAX → HoldsContent m sectors root end number has →
        AllCarry m sectors number (frames_of has.base) (frames_of (tails has)) }
{}
