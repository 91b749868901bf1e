//! A version of a table, read while the file goes on.
ghost use Rattle.std.specs.Prelude.{ℕ, List, IfOk, IsTrue};
ghost use Rattle.retrograde.specs.Stored.{Stored, HasRecord};

use game_file::Versions;
use retrograde::Record;
use table::TableFault;

/// `record` of `Versions::record_of`.
pub fn record_of<F: Versions>(
    file: &mut F,
    version: &F::Version,
    number: u32,
) -> Result<Record, TableFault>
    ensures { IsTrue (F.state file.old).disk.honest → (table : Stored (List ℕ)) → F.is_version version.now table file.old
        → IfOk result (HasRecord table number) }
{
    file.record_of(version, number)
}
