//! The sectors that wait go to the file, by ascending page.
ghost use Rattle.std.specs.Prelude.{◌≡◌, ◌+◌, ◌*◌, ◌^◌, ◌-◌, ◌<◌, ◌≤◌, ℕ, Some, length, IsTrue, IfSome, IsSome, is_some};
ghost use Rattle.std.specs.Bool.{OnTrue, OnFalse};
ghost use Rattle.file_disk.specs.Bytes.{sector_of};
ghost use Rattle.file_disk.specs.Failures.{TellsFailure};
ghost use Rattle.file_disk.specs.Touched.{WritesOnly};
ghost use Rattle.file_disk.specs.WaitingSectors.{page_at, slot_of};
ghost use Rattle.file_disk.specs.lemmas.WaitingSectors.{AreInside, AreInFile, IsInFile, IsRun, Puts};

use crate::byte_file::ByteFile;
use crate::waiting_writes::WaitingWrites;

/// Writes this many sectors that wait side by side, by one call.
fn put_slots<F: ByteFile>(
    file: &mut F,
    waiting: &WaitingWrites,
    slot: usize,
    first: u64,
    sectors: usize,
) -> bool
    requires there { slot + sectors ≤ 8 * waiting.now.count }
    requires placed { 512 * first < 2 ^ 64 }
    requires inside { IsTrue (F.honest file.old) → 512 * (first + sectors) ≤ length (F.content file.old) }
    requires wait { (k : ℕ) → k < sectors → slot_of waiting.now.pages.items waiting.now.count (first + k) ≡ Some (slot + k) }
    ensures puts { IsTrue (F.honest file.old)
        → Puts waiting.now.pages.items waiting.now.count waiting.now.bytes.items (F.content file.old) (F.content file.new) result }
    ensures put { IsTrue (F.honest file.old) → OnTrue result ((k : ℕ) → k < sectors
        → sector_of (F.content file.new) (first + k) ≡ sector_of waiting.now.bytes.items (slot + k)) }
    ensures lasts { IsTrue (F.honest file.old) → F.durable file.new ≡ F.durable file.old }
    ensures touched { IsTrue (F.honest file.old)
        → WritesOnly waiting.now (F.events file.old) (F.events file.new) (F.content file.old) (F.content file.new) }
    ensures counted { IsTrue (F.honest file.old) → TellsFailure result (F.failures file.old) (F.failures file.new) }
    ensures same_honest { F.honest file.new ≡ F.honest file.old }
{
    let start = 512 * slot;
    file.write_at(512 * first, &waiting.bytes[start..start + 512 * sectors])
}

/// Writes one of the eight sectors of a page, if it waits.
fn put_one<F: ByteFile>(file: &mut F, waiting: &WaitingWrites, place: usize, sector: usize) -> bool
    requires there { place < waiting.now.count }
    requires sector { sector < 8 }
    requires inside { IsTrue (F.honest file.old) → AreInside waiting.now.pages.items waiting.now.count (length (F.content file.old)) }
    ensures puts { IsTrue (F.honest file.old)
        → Puts waiting.now.pages.items waiting.now.count waiting.now.bytes.items (F.content file.old) (F.content file.new) result }
    ensures put { IsTrue (F.honest file.old) → OnTrue result
        (IsInFile waiting.now.pages.items waiting.now.bytes.items (F.content file.new) place sector) }
    ensures lasts { IsTrue (F.honest file.old) → F.durable file.new ≡ F.durable file.old }
    ensures touched { IsTrue (F.honest file.old)
        → WritesOnly waiting.now (F.events file.old) (F.events file.new) (F.content file.old) (F.content file.new) }
    ensures counted { IsTrue (F.honest file.old) → TellsFailure result (F.failures file.old) (F.failures file.new) }
    ensures same_honest { F.honest file.new ≡ F.honest file.old }
{
    let page = waiting.pages[place];
    if !page.has[sector] {
        return true;
    }
    put_slots(
        file,
        waiting,
        8 * place + sector,
        8 * page.number + sector as u64,
        1,
    )
}

/// Writes the sectors of one page that wait.
fn put_page<F: ByteFile>(file: &mut F, waiting: &WaitingWrites, place: usize) -> bool
    requires there { place < waiting.now.count }
    requires inside { IsTrue (F.honest file.old) → AreInside waiting.now.pages.items waiting.now.count (length (F.content file.old)) }
    ensures puts { IsTrue (F.honest file.old)
        → Puts waiting.now.pages.items waiting.now.count waiting.now.bytes.items (F.content file.old) (F.content file.new) result }
    ensures put { IsTrue (F.honest file.old) → OnTrue result ((s : ℕ) → s < 8
        → IsInFile waiting.now.pages.items waiting.now.bytes.items (F.content file.new) place s) }
    ensures lasts { IsTrue (F.honest file.old) → F.durable file.new ≡ F.durable file.old }
    ensures touched { IsTrue (F.honest file.old)
        → WritesOnly waiting.now (F.events file.old) (F.events file.new) (F.content file.old) (F.content file.new) }
    ensures counted { IsTrue (F.honest file.old) → TellsFailure result (F.failures file.old) (F.failures file.new) }
    ensures same_honest { F.honest file.new ≡ F.honest file.old }
{
    for sector in 0..8 {
        if !put_one(file, waiting, place, sector) {
            return false;
        }
    }
    true
}

/// Writes this many whole pages that stand and lie side by side.
fn put_run<F: ByteFile>(file: &mut F, waiting: &WaitingWrites, place: usize, run: usize) -> bool
    requires some { 0 < run }
    requires run { IsRun waiting.now.pages.items waiting.now.count place run }
    requires inside { IsTrue (F.honest file.old) → AreInside waiting.now.pages.items waiting.now.count (length (F.content file.old)) }
    ensures puts { IsTrue (F.honest file.old)
        → Puts waiting.now.pages.items waiting.now.count waiting.now.bytes.items (F.content file.old) (F.content file.new) result }
    ensures put { IsTrue (F.honest file.old) → OnTrue result ((k s : ℕ) → k < run → s < 8
        → IsInFile waiting.now.pages.items waiting.now.bytes.items (F.content file.new) (place + k) s) }
    ensures lasts { IsTrue (F.honest file.old) → F.durable file.new ≡ F.durable file.old }
    ensures touched { IsTrue (F.honest file.old)
        → WritesOnly waiting.now (F.events file.old) (F.events file.new) (F.content file.old) (F.content file.new) }
    ensures counted { IsTrue (F.honest file.old) → TellsFailure result (F.failures file.old) (F.failures file.new) }
    ensures same_honest { F.honest file.new ≡ F.honest file.old }
{
    let number = waiting.pages[place].number;
    put_slots(file, waiting, 8 * place, 8 * number, 8 * run)
}

/// Writes the pages from this place on that can go by one call, and tells the number after them; none if that failed.
fn put_from<F: ByteFile>(file: &mut F, waiting: &WaitingWrites, place: usize) -> Option<u64>
    requires there { place < waiting.now.count }
    requires inside { IsTrue (F.honest file.old) → AreInside waiting.now.pages.items waiting.now.count (length (F.content file.old)) }
    ensures puts { IsTrue (F.honest file.old)
        → Puts waiting.now.pages.items waiting.now.count waiting.now.bytes.items (F.content file.old) (F.content file.new) (is_some result) }
    ensures put { IfSome result (λ next. IsTrue (F.honest file.old) → AreInFile waiting.now.pages.items waiting.now.count waiting.now.bytes.items
        (page_at waiting.now.pages.items place).number next (F.content file.new)) }
    ensures later { IfSome result (λ next. ((page_at waiting.now.pages.items place).number < next) × (next ≤ 2 ^ 64 - 1)) }
    ensures lasts { IsTrue (F.honest file.old) → F.durable file.new ≡ F.durable file.old }
    ensures touched { IsTrue (F.honest file.old)
        → WritesOnly waiting.now (F.events file.old) (F.events file.new) (F.content file.old) (F.content file.new) }
    ensures counted { IsTrue (F.honest file.old) → TellsFailure (is_some result) (F.failures file.old) (F.failures file.new) }
    ensures same_honest { F.honest file.new ≡ F.honest file.old }
{
    let first = waiting.pages[place].number;
    let run = waiting.run_at(place);
    if run == 0 {
        if !put_page(file, waiting, place) {
            return None;
        }
        return Some(first + 1);
    }
    if !put_run(file, waiting, place, run) {
        return None;
    }
    Some(first + run as u64)
}

/// Writes all that waits. It answers whether that was done.
pub fn put_all<F: ByteFile>(file: &mut F, waiting: &WaitingWrites) -> bool
    requires { IsTrue (F.honest file.old) → AreInside waiting.now.pages.items waiting.now.count (length (F.content file.old)) }
    ensures puts { IsTrue (F.honest file.old)
        → Puts waiting.now.pages.items waiting.now.count waiting.now.bytes.items (F.content file.old) (F.content file.new) result }
    ensures put { IsTrue (F.honest file.old) → OnTrue result ((p s : ℕ) → p < waiting.now.count → s < 8
        → IsInFile waiting.now.pages.items waiting.now.bytes.items (F.content file.new) p s) }
    ensures refused { OnFalse result (0 < waiting.now.count) }
    ensures lasts { IsTrue (F.honest file.old) → F.durable file.new ≡ F.durable file.old }
    ensures touched { IsTrue (F.honest file.old)
        → WritesOnly waiting.now (F.events file.old) (F.events file.new) (F.content file.old) (F.content file.new) }
    ensures counted { IsTrue (F.honest file.old) → TellsFailure result (F.failures file.old) (F.failures file.new) }
    ensures same_honest { F.honest file.new ≡ F.honest file.old }
{
    let mut next = 0;
    while let Some(place) = waiting.least_from(next) {
        let Some(behind) = put_from(file, waiting, place) else {
            return false;
        };
        next = behind;
    }
    true
}
