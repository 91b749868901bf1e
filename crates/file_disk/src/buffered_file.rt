//! A file of bytes by sectors, where what is written waits until the sync.
ghost use Rattle.std.specs.Prelude.{◌≡◌, ◌≢◌, ◌⊎◌, ◌+◌, ◌*◌, ◌/◌, ◌^◌, ◌<◌, ◌≤◌, ℕ, true, false, length, replicate, IsTrue, IfOk, IfErr, IfSome, Some};
ghost use Rattle.std.specs.Bool.{OnTrue, OnFalse};
ghost use Rattle.sector_disk.specs.Disk.{Grew};
ghost use Rattle.sector_disk.specs.Pages.{IsOutside};
ghost use Rattle.file_disk.specs.Bytes.{sector_of};
ghost use Rattle.file_disk.specs.Events.{LengthensOnly};
ghost use Rattle.file_disk.specs.Shown.{shown, Waits};
ghost use Rattle.file_disk.specs.Touched.{WritesOnly, WritesAndSyncs};
ghost use Rattle.file_disk.specs.WaitingSectors.{HasWaitingPlace, place_of, slot_of};
ghost use Rattle.file_disk.specs.lemmas.WaitingSectors.{AreAllInFile, AreInside, IsCopyOf};
ghost use Rattle.file_disk.specs.lemmas.WholePages.{IsEditPlace, IsEditedWaiting, ShowsPage};

use crate::byte_file::ByteFile;
use crate::flush::put_all;
use crate::read_page::ReadPage;
use crate::refused::FileRefused;
use crate::waiting_writes::WaitingWrites;
use sector_disk::{PageEdit, Span};
use std::alloc::Global;
use std::mem;

/// A file that nobody else writes, by sectors. What is written waits in memory until the sync, or until there is no more room, and its pages
/// stay there until others go the same way. A read takes it from there, and else from a page that is read by one call; it never writes. After a
/// sync of the file that failed, or a new length that it refused, every call fails.
#[derive(Drop)]
pub struct BufferedFile<F: ByteFile> {
    pub file: F,
    pub waiting: WaitingWrites,
    /// The pages that went to the file last, which has them so.
    pub written: WaitingWrites,
    page: ReadPage,
    pub sectors: u64,
    pub lost: bool,
    ghost room: { 0 < length waiting.pages.items },
    ghost placed: { 512 * sectors < 2 ^ 64 },
    ghost inside: { AreInside waiting.pages.items waiting.count (512 * sectors) },
    ghost long: { IsTrue (F.honest file) → lost ≡ false → 512 * sectors ≤ length (F.content file) },
    ghost ends: { IsTrue (F.honest file) → length (F.content file) < 512 * (sectors + 1) },
    ghost written_room: { 0 < length written.pages.items },
    ghost written_inside: { AreInside written.pages.items written.count (512 * sectors) },
    ghost in_file: { IsTrue (F.honest file) → AreAllInFile written.pages.items written.count written.bytes.items (F.content file) },
    ghost copied: { IsTrue (F.honest file) → IsCopyOf page.number page.bytes (F.content file) },
}

impl<F: ByteFile + Drop> BufferedFile<F> {
    /// Its sectors are the file's length divided by 512, rounded down. It has room for this many pages that wait, and as many that did, and
    /// takes no memory later.
    pub fn new(alloc: Global, file: F, room: usize) -> Result<Self, FileRefused>
        requires some { 0 < room }
        requires fits { 4096 * room < 2 ^ 63 }
        ensures sectors { IfOk result (λ f. IsTrue (F.honest f.file) → f.sectors ≡ length (F.content f.file) / 512) }
        ensures file { IfOk result (λ f. f.file ≡ file) }
        ensures cause { IsTrue (F.honest file) → IfErr result (λ fault. fault ≡ FileRefused.NoLength → F.tells_length file ≡ false) }
        ensures none { IfOk result (λ f. f.waiting.count ≡ 0) }
        ensures found { IfOk result (λ f. f.lost ≡ false) }
    {
        let Some(bytes) = file.len() else {
            return Err(FileRefused::NoLength);
        };
        let Ok(waiting) = WaitingWrites::new(alloc, room) else {
            return Err(FileRefused::OutOfMemory);
        };
        let Ok(written) = WaitingWrites::new(alloc, room) else {
            return Err(FileRefused::OutOfMemory);
        };
        Ok(BufferedFile {
            file,
            waiting,
            written,
            page: ReadPage::new(),
            sectors: bytes / 512,
            lost: false,
        })
    }

    /// Reads a sector.
    pub fn read(&mut self, at: u64, into: &mut [u8; 512]) -> bool
        requires { at < self.old.sectors }
        ensures bytes { IsTrue (F.honest self.old.file) → OnTrue result (into.new ≡ shown self.old.waiting (F.content self.old.file) at) }
        ensures unchanged { IsTrue (F.honest self.old.file) → F.content self.new.file ≡ F.content self.old.file }
        ensures waits { self.new.waiting ≡ self.old.waiting }
        ensures at_hand { (slot : ℕ) → slot_of self.old.waiting.pages.items self.old.waiting.count at ≡ Some slot
            → self.old.lost ≡ false → result ≡ true }
        ensures lasts { IsTrue (F.honest self.old.file) → F.durable self.new.file ≡ F.durable self.old.file }
        ensures touched { IsTrue (F.honest self.old.file) → F.events self.new.file ≡ F.events self.old.file }
        ensures cause { IsTrue (F.honest self.old.file)
            → OnFalse result ((self.old.lost ≡ true) ⊎ Grew (F.failures self.old.file) (F.failures self.new.file)) }
        ensures same_honest { F.honest self.new.file ≡ F.honest self.old.file }
        ensures sectors { self.new.sectors ≡ self.old.sectors }
        ensures refused { self.old.lost ≡ true → result ≡ false }
        ensures same_lost { self.new.lost ≡ self.old.lost }
    {
        if self.lost {
            return false;
        }
        self.waiting.give(at, into) || self.read_file(at, into)
    }

    /// Reads a page: by one call of the file where none of its sectors waits.
    pub fn read_page(&mut self, page: u64, into: &mut [u8; 4096]) -> bool
        requires { 8 * page + 8 ≤ self.old.sectors }
        ensures bytes { IsTrue (F.honest self.old.file) → OnTrue result ((k : ℕ) → k < 8
            → sector_of into.new k ≡ shown self.old.waiting (F.content self.old.file) (8 * page + k)) }
        ensures unchanged { IsTrue (F.honest self.old.file) → F.content self.new.file ≡ F.content self.old.file }
        ensures waits { self.new.waiting ≡ self.old.waiting }
        ensures lasts { IsTrue (F.honest self.old.file) → F.durable self.new.file ≡ F.durable self.old.file }
        ensures touched { IsTrue (F.honest self.old.file) → F.events self.new.file ≡ F.events self.old.file }
        ensures cause { IsTrue (F.honest self.old.file)
            → OnFalse result ((self.old.lost ≡ true) ⊎ Grew (F.failures self.old.file) (F.failures self.new.file)) }
        ensures same_honest { F.honest self.new.file ≡ F.honest self.old.file }
        ensures sectors { self.new.sectors ≡ self.old.sectors }
        ensures refused { self.old.lost ≡ true → result ≡ false }
        ensures same_lost { self.new.lost ≡ self.old.lost }
    {
        if self.lost {
            return false;
        }
        match self.waiting.place(page) {
            None => self.file.read_at(4096 * page, into),
            Some(place) => self.read_over(page, place, into),
        }
    }

    /// Reads a page that has a place: the file is asked where not all of its sectors wait, and those that do are laid over.
    fn read_over(&mut self, page: u64, place: usize, into: &mut [u8; 4096]) -> bool
        requires within { 8 * page + 8 ≤ self.old.sectors }
        requires there { place < self.old.waiting.count }
        requires its { place_of self.old.waiting.pages.items self.old.waiting.count page ≡ Some place }
        ensures bytes { IsTrue (F.honest self.old.file) → OnTrue result ((k : ℕ) → k < 8
            → sector_of into.new k ≡ shown self.old.waiting (F.content self.old.file) (8 * page + k)) }
        ensures unchanged { IsTrue (F.honest self.old.file) → F.content self.new.file ≡ F.content self.old.file }
        ensures waits { self.new.waiting ≡ self.old.waiting }
        ensures lasts { IsTrue (F.honest self.old.file) → F.durable self.new.file ≡ F.durable self.old.file }
        ensures touched { IsTrue (F.honest self.old.file) → F.events self.new.file ≡ F.events self.old.file }
        ensures cause { IsTrue (F.honest self.old.file) → OnFalse result (Grew (F.failures self.old.file) (F.failures self.new.file)) }
        ensures same_honest { F.honest self.new.file ≡ F.honest self.old.file }
        ensures sectors { self.new.sectors ≡ self.old.sectors }
        ensures same_lost { self.new.lost ≡ self.old.lost }
    {
        if self.waiting.waits_whole(place) {
            self.waiting.lay_over(place, into);
            return true;
        }
        let done = self.file.read_at(4096 * page, into);
        if !done {
            return false;
        }
        self.waiting.lay_over(place, into);
        true
    }

    /// Reads a sector as the file has it.
    fn read_file(&mut self, at: u64, into: &mut [u8; 512]) -> bool
        requires { at < self.old.sectors }
        ensures bytes { IsTrue (F.honest self.old.file) → OnTrue result (into.new ≡ sector_of (F.content self.old.file) at) }
        ensures unchanged { IsTrue (F.honest self.old.file) → F.content self.new.file ≡ F.content self.old.file }
        ensures waits { self.new.waiting ≡ self.old.waiting }
        ensures lasts { IsTrue (F.honest self.old.file) → F.durable self.new.file ≡ F.durable self.old.file }
        ensures touched { IsTrue (F.honest self.old.file) → F.events self.new.file ≡ F.events self.old.file }
        ensures cause { IsTrue (F.honest self.old.file) → OnFalse result (Grew (F.failures self.old.file) (F.failures self.new.file)) }
        ensures same_honest { F.honest self.new.file ≡ F.honest self.old.file }
        ensures sectors { self.new.sectors ≡ self.old.sectors }
        ensures same_lost { self.new.lost ≡ self.old.lost }
    {
        if self.page.give(at, into) {
            return true;
        }
        self.load_page(at / 8);
        if self.page.give(at, into) {
            return true;
        }
        self.file.read_at(512 * at, into)
    }

    /// Reads a page, where it is a whole one.
    fn load_page(&mut self, page: u64)
        ensures unchanged { IsTrue (F.honest self.old.file) → F.content self.new.file ≡ F.content self.old.file }
        ensures waits { self.new.waiting ≡ self.old.waiting }
        ensures lasts { IsTrue (F.honest self.old.file) → F.durable self.new.file ≡ F.durable self.old.file }
        ensures touched { IsTrue (F.honest self.old.file) → F.events self.new.file ≡ F.events self.old.file }
        ensures later { IsTrue (F.honest self.old.file) → F.failures self.old.file ≤ F.failures self.new.file }
        ensures same_honest { F.honest self.new.file ≡ F.honest self.old.file }
        ensures sectors { self.new.sectors ≡ self.old.sectors }
        ensures same_lost { self.new.lost ≡ self.old.lost }
    {
        if page < self.sectors / 8 {
            self.page.load(&mut self.file, page);
        }
    }

    /// Writes a sector, which then waits. What waits goes to the file first where there is no room.
    pub fn write(&mut self, at: u64, from: &[u8; 512]) -> bool
        requires { at < self.old.sectors }
        ensures written { IsTrue (F.honest self.old.file) → OnTrue result (shown self.new.waiting (F.content self.new.file) at ≡ from.now) }
        ensures others { IsTrue (F.honest self.old.file) → (k : ℕ) → k ≢ at
            → shown self.new.waiting (F.content self.new.file) k ≡ shown self.old.waiting (F.content self.old.file) k }
        ensures only { (k : ℕ) → Waits self.new.waiting k → (k ≡ at) ⊎ Waits self.old.waiting k }
        ensures waits { HasWaitingPlace self.old.waiting.pages.items self.old.waiting.count at → self.new.file ≡ self.old.file }
        ensures done { HasWaitingPlace self.old.waiting.pages.items self.old.waiting.count at → self.old.lost ≡ false → result ≡ true }
        ensures lasts { IsTrue (F.honest self.old.file) → F.durable self.new.file ≡ F.durable self.old.file }
        ensures touched { IsTrue (F.honest self.old.file) → WritesOnly self.old.waiting (F.events self.old.file) (F.events self.new.file)
            (F.content self.old.file) (F.content self.new.file) }
        ensures cause { IsTrue (F.honest self.old.file)
            → OnFalse result ((self.old.lost ≡ true) ⊎ Grew (F.failures self.old.file) (F.failures self.new.file)) }
        ensures told { IsTrue (F.honest self.old.file) → OnTrue result (F.failures self.new.file ≡ F.failures self.old.file) }
        ensures same_honest { F.honest self.new.file ≡ F.honest self.old.file }
        ensures sectors { self.new.sectors ≡ self.old.sectors }
        ensures refused { self.old.lost ≡ true → result ≡ false }
        ensures same_lost { self.new.lost ≡ self.old.lost }
    {
        if self.lost {
            return false;
        }
        if self.waiting.put(at, from) {
            return true;
        }
        self.flush() && self.waiting.put(at, from)
    }

    /// Writes a page, all of which then waits. What waits goes to the file first where there is no room.
    pub fn write_page(&mut self, page: u64, from: &[u8; 4096]) -> bool
        requires { 8 * page + 8 ≤ self.old.sectors }
        ensures written { IsTrue (F.honest self.old.file) → OnTrue result ((k : ℕ) → k < 8
            → shown self.new.waiting (F.content self.new.file) (8 * page + k) ≡ sector_of from.now k) }
        ensures others { IsTrue (F.honest self.old.file) → (k : ℕ) → IsOutside page k
            → shown self.new.waiting (F.content self.new.file) k ≡ shown self.old.waiting (F.content self.old.file) k }
        ensures only { (k : ℕ) → IsOutside page k → Waits self.new.waiting k → Waits self.old.waiting k }
        ensures lasts { IsTrue (F.honest self.old.file) → F.durable self.new.file ≡ F.durable self.old.file }
        ensures touched { IsTrue (F.honest self.old.file) → WritesOnly self.old.waiting (F.events self.old.file) (F.events self.new.file)
            (F.content self.old.file) (F.content self.new.file) }
        ensures cause { IsTrue (F.honest self.old.file)
            → OnFalse result ((self.old.lost ≡ true) ⊎ Grew (F.failures self.old.file) (F.failures self.new.file)) }
        ensures told { IsTrue (F.honest self.old.file) → OnTrue result (F.failures self.new.file ≡ F.failures self.old.file) }
        ensures same_honest { F.honest self.new.file ≡ F.honest self.old.file }
        ensures sectors { self.new.sectors ≡ self.old.sectors }
        ensures refused { self.old.lost ≡ true → result ≡ false }
        ensures same_lost { self.new.lost ≡ self.old.lost }
    {
        if self.lost {
            return false;
        }
        if self.waiting.put_page(page, from) {
            return true;
        }
        self.flush() && self.waiting.put_page(page, from)
    }

    /// The bytes of a page, if all of them stand in memory: all its sectors wait, or none does and they went to the file last.
    pub fn page_in_memory(&self, page: u64) -> Option<&[u8; 4096]>
        ensures { IsTrue (F.honest self.now.file)
            → IfSome result (λ bytes. ShowsPage self.now.waiting (F.content self.now.file) self.now.sectors page bytes.now) }
    {
        if let Some(bytes) = self.waiting.whole_page(page) {
            return Some(bytes);
        }
        match self.waiting.place(page) {
            Some(_) => None,
            None => self.written.whole_page(page),
        }
    }

    /// Edits a page where it stands.
    pub fn edit_at<E: PageEdit>(&mut self, page: u64, place: usize, edit: &E, span: Span)
        requires { IsEditPlace (E.fits edit.now span) page place self.old.waiting }
        ensures edited { IsEditedWaiting (E.edits edit.now) page self.old.waiting self.new.waiting }
        ensures file { self.new.file ≡ self.old.file }
        ensures sectors { self.new.sectors ≡ self.old.sectors }
    {
        self.waiting.edit_at(page, place, edit, span);
    }

    /// Writes all that waits to the file. Where that fails it still waits.
    pub fn flush(&mut self) -> bool
        ensures shown { IsTrue (F.honest self.old.file) → (k : ℕ)
            → shown self.new.waiting (F.content self.new.file) k ≡ shown self.old.waiting (F.content self.old.file) k }
        ensures in_file { IsTrue (F.honest self.old.file) → OnTrue result ((k : ℕ)
            → sector_of (F.content self.new.file) k ≡ shown self.old.waiting (F.content self.old.file) k) }
        ensures none { OnTrue result (self.new.waiting.count ≡ 0) }
        ensures still { OnFalse result (self.new.waiting ≡ self.old.waiting) }
        ensures why { OnFalse result ((0 < self.new.waiting.count) ⊎ (self.old.lost ≡ true)) }
        ensures lasts { IsTrue (F.honest self.old.file) → F.durable self.new.file ≡ F.durable self.old.file }
        ensures touched { IsTrue (F.honest self.old.file) → WritesOnly self.old.waiting (F.events self.old.file) (F.events self.new.file)
            (F.content self.old.file) (F.content self.new.file) }
        ensures cause { IsTrue (F.honest self.old.file)
            → OnFalse result ((self.old.lost ≡ true) ⊎ Grew (F.failures self.old.file) (F.failures self.new.file)) }
        ensures told { IsTrue (F.honest self.old.file) → OnTrue result (F.failures self.new.file ≡ F.failures self.old.file) }
        ensures same_honest { F.honest self.new.file ≡ F.honest self.old.file }
        ensures sectors { self.new.sectors ≡ self.old.sectors }
        ensures refused { self.old.lost ≡ true → result ≡ false }
        ensures same_lost { self.new.lost ≡ self.old.lost }
    {
        if self.lost {
            return false;
        }
        self.page.clear();
        self.written.clear();
        if !put_all(&mut self.file, &self.waiting) {
            return false;
        }
        mem::swap(&mut self.waiting, &mut self.written);
        true
    }

    /// Writes all that waits and makes it durable. Where the file cannot be synced the disk is lost.
    pub fn sync(&mut self) -> bool
        ensures all { IsTrue (F.honest self.old.file) → OnTrue result ((k : ℕ)
            → sector_of (F.durable self.new.file) k ≡ shown self.old.waiting (F.content self.old.file) k) }
        ensures durable { IsTrue (F.honest self.old.file) → OnTrue result (F.durable self.new.file ≡ F.content self.new.file) }
        ensures shown { IsTrue (F.honest self.old.file) → (k : ℕ)
            → shown self.new.waiting (F.content self.new.file) k ≡ shown self.old.waiting (F.content self.old.file) k }
        ensures none { OnTrue result (self.new.waiting.count ≡ 0) }
        ensures only { (k : ℕ) → Waits self.new.waiting k → Waits self.old.waiting k }
        ensures remembered { OnFalse result ((0 < self.new.waiting.count) ⊎ (self.new.lost ≡ true)) }
        ensures touched { IsTrue (F.honest self.old.file)
            → OnTrue result (WritesAndSyncs self.old.waiting (F.events self.old.file) (F.events self.new.file)
            (F.content self.old.file) (F.content self.new.file)) }
        ensures tried { IsTrue (F.honest self.old.file)
            → OnFalse result (WritesOnly self.old.waiting (F.events self.old.file) (F.events self.new.file)
            (F.content self.old.file) (F.content self.new.file)) }
        ensures cause { IsTrue (F.honest self.old.file)
            → OnFalse result ((self.old.lost ≡ true) ⊎ Grew (F.failures self.old.file) (F.failures self.new.file)) }
        ensures found { OnTrue result (self.new.lost ≡ false) }
        ensures still { OnFalse result (((self.new.waiting ≡ self.old.waiting) × (self.new.lost ≡ self.old.lost))
            ⊎ ((self.new.waiting.count ≡ 0) × (self.new.lost ≡ true))) }
        ensures told { IsTrue (F.honest self.old.file) → OnTrue result (F.failures self.new.file ≡ F.failures self.old.file) }
        ensures same_honest { F.honest self.new.file ≡ F.honest self.old.file }
        ensures sectors { self.new.sectors ≡ self.old.sectors }
        ensures refused { self.old.lost ≡ true → (result ≡ false) × (self.new.lost ≡ true) }
    {
        if !self.flush() {
            return false;
        }
        let done = self.file.sync();
        self.lost = !done;
        done
    }

    /// Makes it longer: this many sectors, and the new ones are zeros. A file that others have made longer is left alone. Where the file
    /// refuses the new length, its own may be any up to that, and the disk is lost.
    pub fn extend(&mut self, sectors: u64) -> bool
        requires { self.old.sectors ≤ sectors }
        ensures longer { OnTrue result (self.new.sectors ≡ sectors) }
        ensures same_sectors { OnFalse result ((self.new.sectors ≡ self.old.sectors)
            ⊎ ((self.new.sectors ≡ sectors) × (self.new.lost ≡ true))) }
        ensures zeros { IsTrue (F.honest self.old.file) → OnTrue result ((k : ℕ) → self.old.sectors ≤ k → k < sectors
            → shown self.new.waiting (F.content self.new.file) k ≡ replicate 512 0) }
        ensures kept { IsTrue (F.honest self.old.file) → (k : ℕ) → k < self.old.sectors
            → shown self.new.waiting (F.content self.new.file) k ≡ shown self.old.waiting (F.content self.old.file) k }
        ensures not_cut { IsTrue (F.honest self.old.file) → 512 * (self.old.sectors + 1) ≤ length (F.content self.old.file)
            → (result ≡ false) × (self.new.file ≡ self.old.file) }
        ensures waits { self.new.waiting ≡ self.old.waiting }
        ensures lasts { IsTrue (F.honest self.old.file) → F.durable self.new.file ≡ F.durable self.old.file }
        ensures touched { IsTrue (F.honest self.old.file)
            → LengthensOnly self.old.sectors sectors (F.events self.old.file) (F.events self.new.file)
            (F.content self.old.file) (F.content self.new.file) }
        ensures cause { IsTrue (F.honest self.old.file) → OnFalse result ((self.old.lost ≡ true) ⊎ (2 ^ 64 ≤ 512 * sectors)
            ⊎ (F.tells_length self.old.file ≡ false) ⊎ (length (F.content self.old.file) / 512 ≢ self.old.sectors)
            ⊎ Grew (F.failures self.old.file) (F.failures self.new.file)) }
        ensures told { IsTrue (F.honest self.old.file) → OnTrue result (F.failures self.new.file ≡ F.failures self.old.file) }
        ensures same_honest { F.honest self.new.file ≡ F.honest self.old.file }
        ensures refused { self.old.lost ≡ true → result ≡ false }
        ensures same_lost { OnTrue result (self.new.lost ≡ self.old.lost) }
        ensures still_lost { self.old.lost ≡ true → self.new ≡ self.old }
    {
        if self.lost || sectors > u64::MAX / 512 || !self.ends_here() {
            return false;
        }
        self.page.clear();
        self.written.clear();
        if !self.file.set_len(512 * self.sectors) {
            return false;
        }
        let longer = self.file.set_len(512 * sectors);
        self.sectors = sectors;
        self.lost = !longer;
        longer
    }

    /// Whether the file ends with its last sector, or after it before there is room for one more.
    fn ends_here(&self) -> bool
        ensures ends { IsTrue (F.honest self.now.file) → OnTrue result (length (F.content self.now.file) < 512 * (self.now.sectors + 1)) }
        ensures not { IsTrue (F.honest self.now.file) → OnFalse result
            ((F.tells_length self.now.file ≡ false) ⊎ (length (F.content self.now.file) / 512 ≢ self.now.sectors)) }
    {
        match self.file.len() {
            Some(bytes) => bytes / 512 == self.sectors,
            None => false,
        }
    }
}
