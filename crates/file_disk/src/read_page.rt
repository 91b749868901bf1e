//! The page of a file that was read last.
ghost use Rattle.std.specs.Prelude.{◌≡◌, ◌*◌, ◌/◌, ◌%◌, ◌^◌, ◌<◌, ◌≤◌, None, Some, IsTrue};
ghost use Rattle.std.specs.Bool.{OnTrue};
ghost use Rattle.file_disk.specs.Bytes.{sector_of};
ghost use Rattle.file_disk.specs.lemmas.WaitingSectors.{IsCopyOf};

use crate::byte_file::ByteFile;

/// The eight sectors of a page as they were read, or no page.
#[derive(Drop)]
pub struct ReadPage {
    pub number: Option<u64>,
    pub bytes: [u8; 4096],
}

impl ReadPage {
    /// No page.
    pub fn new() -> Self
        ensures { result.number ≡ None }
    {
        ReadPage {
            number: None,
            bytes: [0; 4096],
        }
    }

    /// Lets go of the page.
    pub fn clear(&mut self)
        ensures { self.new.number ≡ None }
    {
        self.number = None;
    }

    /// Copies a sector, if it is one of this page.
    pub fn give(&self, at: u64, into: &mut [u8; 512]) -> bool
        ensures its { OnTrue result (self.now.number ≡ Some (at / 8)) }
        ensures given { OnTrue result (into.new ≡ sector_of self.now.bytes (at % 8)) }
    {
        if self.number != Some(at / 8) {
            return false;
        }
        let start = 512 * (at % 8) as usize;
        into.copy_from_slice(&self.bytes[start..start + 512]);
        true
    }

    /// Reads a page by one call of the file, and has none where that fails.
    pub fn load<F: ByteFile>(&mut self, file: &mut F, page: u64)
        requires { 4096 * page < 2 ^ 64 }
        ensures copied { IsTrue (F.honest file.old) → IsCopyOf self.new.number self.new.bytes (F.content file.old) }
        ensures unchanged { IsTrue (F.honest file.old) → F.content file.new ≡ F.content file.old }
        ensures lasts { IsTrue (F.honest file.old) → F.durable file.new ≡ F.durable file.old }
        ensures touched { IsTrue (F.honest file.old) → F.events file.new ≡ F.events file.old }
        ensures later { IsTrue (F.honest file.old) → F.failures file.old ≤ F.failures file.new }
        ensures same_honest { F.honest file.new ≡ F.honest file.old }
    {
        self.number = None;
        let bytes = &mut self.bytes;
        if file.read_at(4096 * page, bytes) {
            self.number = Some(page);
        }
    }
}
