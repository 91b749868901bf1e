//! Bytes are put over others.
ghost use Rattle.std.specs.Prelude.{◌≡◌, ◌+◌, ◌≤◌, length};
ghost use Rattle.file_disk.specs.Bytes.{bytes_at, LeavesOthers};

/// Puts these bytes over those from this place on.
pub fn put_bytes(bytes: &mut Vec<u8>, at: usize, from: &[u8])
    requires { at + length from.now ≤ length bytes.old.items }
    ensures written { bytes_at bytes.new.items at (length from.now) ≡ from.now }
    ensures others { LeavesOthers at (length from.now) bytes.old.items bytes.new.items }
{
    bytes[at..at + from.len()].copy_from_slice(from);
}
