//! Sectors that wait are laid over the page as the file has it.
ghost use Rattle.std.specs.Prelude.{◌≡◌, ◌≢◌, ◌*◌, ◌<◌, ℕ, true, length, Some};
ghost use Rattle.std.specs.Bool.{OnTrue};
ghost use Rattle.file_disk.specs.Bytes.{sector_of, LeavesOthers};
ghost use Rattle.file_disk.specs.WaitingSectors.{page_at, has_sector, slot_in, given};

use crate::waiting_page::is_whole;
use crate::waiting_writes::WaitingWrites;

/// Puts a sector over one of the eight parts of a page.
fn put_part(page: &mut [u8; 4096], part: usize, from: &[u8])
    requires part { part < 8 }
    requires long { length from.now ≡ 512 }
    ensures its { sector_of page.new part ≡ from.now }
    ensures others { LeavesOthers (512 * part) 512 page.old page.new }
{
    page[512 * part..512 * part + 512].copy_from_slice(from);
}

impl WaitingWrites {
    /// Whether all sectors of the page at a place wait.
    pub fn waits_whole(&self, place: usize) -> bool
        requires { place < self.now.count }
        ensures { OnTrue result ((s : ℕ) → s < 8 → has_sector (page_at self.now.pages.items place) s ≡ true) }
    {
        is_whole(self.pages[place].has)
    }

    /// Lays one of the eight sectors of the page at a place over it, if the sector waits.
    fn lay_part(&self, place: usize, part: usize, into: &mut [u8; 4096])
        requires there { place < self.now.count }
        requires part { part < 8 }
        ensures its { sector_of into.new part
            ≡ given self.now.bytes.items (sector_of into.old part) (slot_in self.now.pages.items part (Some place)) }
        ensures others { (s : ℕ) → s ≢ part → sector_of into.new s ≡ sector_of into.old s }
    {
        if self.pages[place].has[part] {
            let start = 512 * (8 * place + part);
            put_part(into, part, &self.bytes[start..start + 512]);
        }
    }

    /// Lays the sectors of the page at a place that wait over it.
    pub fn lay_over(&self, place: usize, into: &mut [u8; 4096])
        requires { place < self.now.count }
        ensures { (s : ℕ) → s < 8 → sector_of into.new s
            ≡ given self.now.bytes.items (sector_of into.old s) (slot_in self.now.pages.items s (Some place)) }
    {
        for part in 0..8usize {
            self.lay_part(place, part, into);
        }
    }
}
