//! A page that was changed is written, sector by sector.
ghost use Rattle.std.specs.Prelude.{◌≡◌, ◌≢◌, ◌+◌, ◌*◌, ◌<◌, ◌≤◌, OnOk, IsTrue};
ghost use Rattle.sector_disk.specs.Disk.{sector, size, Keeps, HasCause, IsCounted, Steps};
ghost use Rattle.sector_disk.specs.Pages.{eighth, HasSectors, IsPagePut};

use sector_disk::{DiskFault, SectorDisk};

/// One of the eight sectors of a page.
fn sector_of(page: &[u8; 4096], part: usize) -> &[u8; 512]
    requires { part < 8 }
    ensures { result.now ≡ eighth part page.now }
{
    let (_, from_there) = page.split_at(512 * part);
    from_there.first_chunk().unwrap()
}

/// Writes one of the eight sectors of a page, if it is not as it was.
fn put_part<D: SectorDisk>(
    disk: &mut D,
    number: u32,
    was: &[u8; 4096],
    is: &[u8; 4096],
    part: usize,
) -> Result<(), DiskFault>
    requires within { part < 8 }
    requires there { 8 * number + 8 ≤ size (D.disk disk.old) }
    ensures written { IsTrue (D.disk disk.old).honest → sector (D.disk disk.old).now.contents (8 * number + part) ≡ eighth part was.now
        → OnOk result (sector (D.disk disk.new).now.contents (8 * number + part) ≡ eighth part is.now) }
    ensures others { IsTrue (D.disk disk.old).honest → Keeps (λ k. k ≢ 8 * number + part) (D.disk disk.old).now (D.disk disk.new).now }
    ensures time { Steps (D.disk disk.old) (D.disk disk.new) }
    ensures counted { IsCounted (D.disk disk.old).failed_writes (D.disk disk.new).failed_writes result }
    ensures cause { HasCause (D.failures disk.old) (D.failures disk.new) result }
{
    let sector = sector_of(is, part);
    if sector_of(was, part) == sector {
        return Ok(());
    }
    disk.write(8 * u64::from(number) + part as u64, sector)
}

/// Writes those sectors of the page of this number that are not as they were. A stop within it leaves anything there, and elsewhere
/// what was synced.
pub fn put_changed<D: SectorDisk>(
    disk: &mut D,
    number: u32,
    was: &[u8; 4096],
    is: &[u8; 4096],
) -> Result<(), DiskFault>
    requires { 8 * number + 8 ≤ size (D.disk disk.old) }
    ensures written { IsTrue (D.disk disk.old).honest → HasSectors (D.disk disk.old).now.contents number was.now
        → OnOk result (HasSectors (D.disk disk.new).now.contents number is.now) }
    ensures put { IsPagePut number (D.disk disk.old) (D.disk disk.new) }
    ensures counted { IsCounted (D.disk disk.old).failed_writes (D.disk disk.new).failed_writes result }
    ensures cause { HasCause (D.failures disk.old) (D.failures disk.new) result }
{
    for part in 0..8usize {
        put_part(disk, number, was, is, part)?;
    }
    Ok(())
}
