//! What holds of every root that counts.
ghost use Rattle.std.specs.Prelude.{◌≡◌, ℕ, ◌<◌};
ghost use Rattle.cg_disk.specs.Disk.{Image};
ghost use Rattle.cg_root.specs.Roots.{CountingRoot, HasNoRoot, HasBadRoot, IsNewest};
ghost use Rattle.cg_root.specs.Slots.{other_slot};
ghost use Rattle.cg_root.specs.declared.root.Root.{Root};

/// States that a disk has at most one counting root, and that of a counting root, no root and a bad root it has one
/// at most: so each answer of `read_root` comes exactly where its clause says. And that a root of a greater epoch in
/// the other slot is newest, which `publish` requires. It does nothing.
pub fn root_laws()
    ensures one_root { (image : Image) (sectors : ℕ) (a b : Root) →
        CountingRoot image sectors a → CountingRoot image sectors b → a ≡ b }
    ensures counting_or_none { (image : Image) (sectors : ℕ) (root : Root) →
        CountingRoot image sectors root → ¬ HasNoRoot image sectors }
    ensures counting_or_bad { (image : Image) (sectors : ℕ) (root : Root) →
        CountingRoot image sectors root → ¬ HasBadRoot image sectors }
    ensures none_or_bad { (image : Image) (sectors : ℕ) →
        HasNoRoot image sectors → ¬ HasBadRoot image sectors }
    ensures next_is_newest { (image : Image) (sectors : ℕ) (root next : Root) →
        CountingRoot image sectors root → next.slot ≡ other_slot root.slot → root.epoch < next.epoch →
        IsNewest image sectors next }
{}
