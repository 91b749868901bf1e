//! The record that a table in a file keeps of a position, as bytes.
ghost use Rattle.std.specs.Prelude.{◌≡◌, length, IfSome};
ghost use Rattle.game_file.specs.Bytes.{IsRecord};

use retrograde::Record;

/// `some` of `read_record`.
pub fn read_record(bytes: &[u8]) -> Option<Record>
    requires { length bytes.now ≡ 16 }
    ensures { IfSome result (IsRecord bytes.now) }
{
    game_file::read_record(bytes)
}
