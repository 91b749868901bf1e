//! One of the eight parts of a page.
ghost use Rattle.std.specs.Prelude.{◌≡◌, ◌<◌};
ghost use Rattle.sector_disk.specs.Pages.{eighth};

/// One of the eight sectors of a page.
pub fn sector_of(page: &[u8; 4096], part: usize) -> &[u8; 512]
    requires { part < 8 }
    ensures { result.now ≡ eighth part page.now }
{
    let (_, from_there) = page.split_at(512 * part);
    from_there.first_chunk().unwrap()
}
