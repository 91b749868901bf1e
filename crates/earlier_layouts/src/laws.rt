//! What holds of all that a file keeps: each is a law, which proofs cite by a call, or by the lemma of the same name in specs/.
ghost use Rattle.std.specs.Prelude.{◌≡◌, ℕ, Option};
ghost use Rattle.sector_disk.specs.Disk.{Image};
ghost use Rattle.earlier_layouts.specs.Held.{Stores};
ghost use Rattle.game_file.specs.Kept.{Kept};

/// An image of the disk stores one table at most, in whatever number of pages.
pub fn an_image_stores_one_table()
    ensures { (m n : ℕ) (image : Image) (one other : Option Kept) → Stores m image one → Stores n image other → one ≡ other }
{}
