//! Positions and their records are read.
ghost use Rattle.std.specs.Prelude.{◌≡◌, ◌+◌, ◌-◌, ◌*◌, ◌^◌, ◌≤◌, ◌<◌, ℕ, List, length, take, slice_get, IfOk, OnOk, Some, Err};
ghost use Rattle.retrograde.specs.declared.records.Record.{Record};
ghost use Rattle.retrograde.specs.Stored.{Stored, IsTable, loaded};
ghost use Rattle.game_file.specs.Bytes.{IsCell};
ghost use Rattle.earlier_layouts.specs.lemmas.ImageReads.{AreCells, KeepsRest, IsFirstEntry, AddsCell};
ghost use Rattle.earlier_layouts.specs.declared.image.fault.BytesFault.TheVariants.{Damaged};
ghost use Rattle.table.specs.InMemory.{stored_in};
ghost use Rattle.position_pack.specs.declared.limits.TheConstants.{MAX_PACKED};

use crate::image::BytesFault;
use game_file::{RECORD_BYTES, read_record};
use position_pack::Packed;
use std::alloc::Global;
use table::{MemTable, Table};

/// The position with these bytes.
fn position_of(bytes: &[u8]) -> Packed
    requires { length bytes.now ≤ MAX_PACKED }
    ensures { result.items ≡ bytes.now }
{
    let mut position = Packed::new();
    let _fits = position.try_extend_from_slice(bytes);
    position
}

/// Gives the first position the record of its cell.
fn read_first_record<T: Table>(table: &mut T, packed: usize, cell: &[u8]) -> Result<(), BytesFault>
    requires honest { T.is_honest table.old }
    requires long { length cell.now ≡ packed + 16 }
    requires first { T.stored table.old ≡ loaded (take packed cell.now) }
    ensures first { OnOk result (IsFirstEntry packed cell.now (T.stored table.new)) }
    ensures damaged { result ≡ Err Damaged → (x : List ℕ × Record) → IsCell packed cell.now x → ⊥ }
{
    let (_, kept) = cell.split_at(packed);
    let kept = read_record(kept).ok_or(BytesFault::Damaged)?;
    table.set_record(0, kept)?;
    Ok(())
}

/// The table that has the position and the record of one cell, and no more.
pub fn read_first(alloc: Global, packed: usize, cell: &[u8]) -> Result<MemTable, BytesFault>
    requires packed { packed ≤ MAX_PACKED }
    requires long { length cell.now ≡ packed + 16 }
    ensures first { IfOk result (λ table. IsFirstEntry packed cell.now (stored_in table)) }
    ensures damaged { result ≡ Err Damaged → (x : List ℕ × Record) → IsCell packed cell.now x → ⊥ }
{
    let mut table = MemTable::new(alloc, &position_of(&cell[..packed]))?;
    read_first_record(&mut table, packed, cell)?;
    Ok(table)
}

/// Adds the position and the record of one cell. `Damaged` where the bytes are no cell, or the position is known.
fn read_cell<T: Table>(table: &mut T, packed: usize, cell: &[u8]) -> Result<(), BytesFault>
    requires honest { T.is_honest table.old }
    requires packed { packed ≤ MAX_PACKED }
    requires long { length cell.now ≡ packed + 16 }
    requires room { length (T.stored table.old).positions < 2 ^ 24 }
    ensures honest { OnOk result (T.is_honest table.new) }
    ensures added { OnOk result (AddsCell packed cell.now (T.stored table.old) (T.stored table.new)) }
    ensures damaged { result ≡ Err Damaged → (x : List ℕ × Record) → IsCell packed cell.now x
        → (j : ℕ) × (slice_get (T.stored table.old).positions j ≡ Some x.0) }
{
    let (position, kept) = cell.split_at(packed);
    let kept = read_record(kept).ok_or(BytesFault::Damaged)?;
    let position = position_of(position);
    if table.number_of(&position)?.is_some() {
        return Err(BytesFault::Damaged);
    }
    let number = table.add(&position)?;
    table.set_record(number, kept)?;
    Ok(())
}

/// Adds the positions and records of the cells after the first, where that one is in the table.
pub fn read_cells<T: Table>(
    table: &mut T,
    packed: usize,
    known: u32,
    cells: &[u8],
) -> Result<(), BytesFault>
    requires honest { T.is_honest table.old }
    requires packed { packed ≤ MAX_PACKED }
    requires known { known ≤ 2 ^ 24 }
    requires started { 1 ≤ known }
    requires long { length cells.now ≡ known * (packed + 16) }
    requires first { AreCells packed (take (packed + 16) cells.now) (T.stored table.old) }
    requires one { length (T.stored table.old).positions ≡ 1 }
    ensures honest { OnOk result (T.is_honest table.new) }
    ensures cells { OnOk result (AreCells packed cells.now (T.stored table.new)) }
    ensures known { OnOk result (length (T.stored table.new).positions ≡ known) }
    ensures rest { OnOk result (KeepsRest (T.stored table.old) (T.stored table.new)) }
    ensures damaged { result ≡ Err Damaged → (all : Stored (List ℕ)) → IsTable all → length all.positions ≡ known
        → AreCells packed cells.now all → ⊥ }
{
    let (_, mut rest) = cells.split_at(packed + RECORD_BYTES);
    for _number in 1..known {
        let (cell, behind) = rest.split_at(packed + RECORD_BYTES);
        read_cell(table, packed, cell)?;
        rest = behind;
    }
    Ok(())
}
