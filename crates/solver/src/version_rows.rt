//! The rows of a version of a table.
ghost use Rattle.std.specs.Prelude.{◌≢◌, ◌+◌, ◌^◌, ◌<◌, ℕ, List, IfOk, IfErr, IsTrue, length};
ghost use Rattle.best_line.specs.Rows.{AreRows};
ghost use Rattle.retrograde.specs.Stored.{Stored, IsTable, view_of};
ghost use Rattle.solver.specs.Listings.{RowsCause};
ghost use Rattle.table.specs.declared.fault.TableFault.TheVariants.{Damaged};

use best_line::{Row, value_of};
use game_file::Versions;
use std::alloc::Global;
use table::TableFault;

/// The rows of a version from this number on, this many or up to the last; none where none is left. A value is by the record and the
/// counts of the version. A fault is the file's or want of memory. The file stays as it was.
pub fn version_rows<F: Versions>(
    alloc: Global,
    file: &mut F,
    version: &F::Version,
    from: u32,
    count: u32,
) -> Result<Vec<Row>, TableFault>
    ensures rows { IsTrue (F.state file.old).disk.honest → (table : Stored (List ℕ)) → IsTable table → F.is_version version.now table file.old
        → IfOk result (λ rows. AreRows (view_of table) from count rows.items) }
    ensures fits { IfOk result (λ rows. from + length rows.items < 2 ^ 32) }
    ensures stays { F.stays file.old file.new }
    ensures cause { F.is_whole file.old → IfErr result (RowsCause (F.state file.old) (F.state file.new)) }
    ensures there { IsTrue (F.state file.old).disk.honest → (table : Stored (List ℕ)) → F.is_version version.now table file.old
        → IfErr result (λ fault. fault ≢ Damaged) }
{
    let counts = file.counts_of(version);
    let end = from + count.min(counts.known.saturating_sub(from));
    let mut rows = Vec::new(alloc);
    for number in from..end {
        let kept = file.record_of(version, number)?;
        rows.push(Row {
            number,
            value: value_of(kept, counts),
        })?;
    }
    Ok(rows)
}
