//! A disk is made longer.
ghost use Rattle.std.specs.Prelude.{OnOk};
ghost use Rattle.sector_disk.specs.Disk.{HasCause, IsCounted};
ghost use Rattle.page_store.specs.lemmas.Disk.{HasSyncedSectors, IsMadeLonger};

use sector_disk::{DiskFault, SectorDisk};

/// Makes a disk longer where it has fewer than this many sectors, and syncs. A stop within it leaves what was synced.
pub fn make_room<D: SectorDisk>(disk: &mut D, sectors: u64) -> Result<(), DiskFault>
    ensures ok { OnOk result (HasSyncedSectors sectors (D.disk disk.old) (D.disk disk.new)) }
    ensures longer { IsMadeLonger (D.disk disk.old) (D.disk disk.new) }
    ensures counted { IsCounted (D.disk disk.old).failed_writes (D.disk disk.new).failed_writes result }
    ensures cause { HasCause (D.failures disk.old) (D.failures disk.new) result }
{
    if disk.sectors() < sectors {
        disk.extend(sectors)?;
    }
    disk.sync()
}
