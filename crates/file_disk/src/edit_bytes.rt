//! A page is edited among other bytes.
ghost use Rattle.std.specs.Prelude.{◌≡◌, ◌+◌, ◌≤◌, length};
ghost use Rattle.file_disk.specs.Bytes.{bytes_at, LeavesOthers};

use sector_disk::{PageEdit, Span};

/// Edits these 4,096 bytes.
fn edit_part<E: PageEdit>(part: &mut [u8], edit: &E, span: Span)
    requires long { length part.old ≡ 4096 }
    requires fits { E.fits edit.now span part.old }
    ensures edited { E.edits edit.now part.old part.new }
    ensures long { length part.new ≡ 4096 }
{
    let Some(page) = part.as_mut_array() else {
        unreachable!()
    };
    edit.apply(page, span);
}

/// Edits the 4,096 bytes from this place on.
pub fn edit_bytes<E: PageEdit>(bytes: &mut Vec<u8>, at: usize, edit: &E, span: Span)
    requires within { at + 4096 ≤ length bytes.old.items }
    requires fits { E.fits edit.now span (bytes_at bytes.old.items at 4096) }
    ensures edited { E.edits edit.now (bytes_at bytes.old.items at 4096) (bytes_at bytes.new.items at 4096) }
    ensures others { LeavesOthers at 4096 bytes.old.items bytes.new.items }
{
    edit_part(&mut bytes[at..at + 4096], edit, span);
}
