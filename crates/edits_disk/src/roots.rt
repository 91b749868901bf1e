//! The root that counts.
ghost use Rattle.std.specs.Prelude.{IfOk, IsTrue};
ghost use Rattle.root_pair.specs.Root.{HoldsRoot};

use root_pair::{Root, RootFault};
use sector_disk::SectorDisk;

/// `ok` of `root_pair::open`.
pub fn open<D: SectorDisk>(disk: &mut D) -> Result<Root, RootFault>
    ensures { IsTrue (D.disk disk.old).honest → IfOk result (λ root. HoldsRoot root.bytes (D.disk disk.new).now.contents) }
{
    root_pair::open(disk)
}
