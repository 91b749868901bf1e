//! What holds of every table's disk: each function's contract is a law.
ghost use Rattle.std.specs.Prelude.{◌≡◌, ℕ, List};
ghost use Rattle.sector_disk.specs.Disk.{AllSynced, MayLeave, Image, Shown};
ghost use Rattle.root_pair.specs.Root.{HoldsRoot, IsAtRest, root_of};

/// A stop of a disk at rest leaves the root that reads give.
pub fn a_disk_at_rest_keeps_its_root()
    ensures { (shown : Shown) (image : Image) → IsAtRest shown → MayLeave shown image
        → HoldsRoot (root_of shown.contents) image }
{}

/// A disk with a root, all of it synced, is at rest: so it is after `create`, `open` and `publish` answered `Ok`.
pub fn a_synced_table_is_at_rest()
    ensures { (root : List ℕ) (shown : Shown) → HoldsRoot root shown.contents → AllSynced shown → IsAtRest shown }
{}

/// An image holds one root at most.
pub fn an_image_holds_one_root()
    ensures { (first second : List ℕ) (image : Image)
        → HoldsRoot first image → HoldsRoot second image → first ≡ second }
{}
