//! Bytes become a table in memory.
ghost use Rattle.std.specs.Prelude.{◌≡◌, ◌+◌, ℕ, List, length, take, drop, IfOk, OnOk, Err};
ghost use Rattle.retrograde.specs.Stored.{Stored, IsTable};
ghost use Rattle.game_file.specs.Numbers.{AreWithinLimits};
ghost use Rattle.earlier_layouts.specs.Length.{bytes_in};
ghost use Rattle.earlier_layouts.specs.lemmas.ImageReads.{IsFirstEntry};
ghost use Rattle.earlier_layouts.specs.Spelled.{SpellsTable};
ghost use Rattle.earlier_layouts.specs.declared.image.fault.BytesFault.TheVariants.{Damaged};
ghost use Rattle.table.specs.InMemory.{stored_in};

use crate::image::BytesFault;
use crate::image::read_cells::{read_cells, read_first};
use crate::image::read_edges::{read_edges, read_order};
use game_file::{RECORD_BYTES, Sizes};
use std::alloc::Global;
use table::{MemTable, Table};

/// Reads the rest of a table that has the first position and its record.
fn read_into<T: Table>(table: &mut T, sizes: &Sizes, bytes: &[u8]) -> Result<(), BytesFault>
    requires honest { T.is_honest table.old }
    requires limits { AreWithinLimits sizes.now }
    requires long { length bytes.now ≡ bytes_in sizes.now }
    requires first { IsFirstEntry sizes.now.packed (take (sizes.now.packed + 16) (drop sizes.now.text bytes.now)) (T.stored table.old) }
    ensures spelled { OnOk result (SpellsTable sizes.now bytes.now (take sizes.now.text bytes.now) (T.stored table.new)) }
    ensures damaged { result ≡ Err Damaged → (text : List ℕ) (stored : Stored (List ℕ)) → IsTable stored
        → SpellsTable sizes.now bytes.now text stored → ⊥ }
{
    let packed = sizes.packed as usize;
    let (_, rest) = bytes.split_at(sizes.text as usize);
    let (cells, rest) = rest.split_at(sizes.counts.known as usize * (packed + RECORD_BYTES));
    let (edges, order) = rest.split_at(8 * (sizes.edges as usize));
    read_cells(table, packed, sizes.counts.known, cells)?;
    read_edges(table, sizes.edges as usize, edges)?;
    read_order(table, sizes.counts.settled, order)
}

/// The table that these bytes spell after the game's text. `Damaged` only where they spell none whose parts fit
/// together; not all of that is tested here.
pub fn read_table(alloc: Global, sizes: &Sizes, bytes: &[u8]) -> Result<MemTable, BytesFault>
    requires limits { AreWithinLimits sizes.now }
    requires long { length bytes.now ≡ bytes_in sizes.now }
    ensures spelled { IfOk result (λ table. SpellsTable sizes.now bytes.now (take sizes.now.text bytes.now)
        (stored_in table)) }
    ensures damaged { result ≡ Err Damaged → (text : List ℕ) (stored : Stored (List ℕ)) → IsTable stored
        → ¬ SpellsTable sizes.now bytes.now text stored }
{
    let packed = sizes.packed as usize;
    let (_, rest) = bytes.split_at(sizes.text as usize);
    let (cell, _) = rest.split_at(packed + RECORD_BYTES);
    let mut table = read_first(alloc, packed, cell)?;
    read_into(&mut table, sizes, bytes)?;
    Ok(table)
}
