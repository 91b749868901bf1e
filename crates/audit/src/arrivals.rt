//! How many edges to each number are moves.
ghost use Rattle.std.specs.Prelude.{◌≡◌, ◌≢◌, ◌<◌, ℕ, List, true, AllPairs, Contains, IfOk, OnOk, IfErr, length};
ghost use Rattle.retrograde.specs.View.{HasNumber};
ghost use Rattle.retrograde.specs.Stored.{IsTable, view_of, expanded_count};
ghost use Rattle.table.specs.Memory.{bytes_of_each};
ghost use Rattle.table.specs.Faults.{NeedsNoPage};
ghost use Rattle.audit.specs.Causes.{HasAuditCause, HasWide};
ghost use Rattle.audit.specs.lemmas.Edges.{CountsIf, IsMoveEdge, AreArrivals};
ghost use Rattle.table.specs.Frames.{IsRead};

use crate::edges::has_edge;
use crate::fault::AuditFault;
use legal_moves::MoveSource;
use position_pack::Packed;
use std::alloc::Global;
use table::{Table, TableFault};

/// Counts one more at the number of a position, if it is known and has an edge from the number given.
fn count_one<T: Table>(
    table: &mut T,
    from: u32,
    position: &Packed,
    arrivals: &mut Vec<u32>,
) -> Result<(), TableFault>
    requires { length arrivals.old.items ≡ (T.counted table.old).known }
    ensures counted { T.is_honest table.old → IsTable (T.stored table.old) → OnOk result ((i : ℕ) (x : List ℕ)
        → HasNumber (view_of (T.stored table.old)) i x
        → CountsIf ((x ≡ position.now.items) × ((T.stored table.old).has_edge i from ≡ true)) arrivals.old.items arrivals.new.items i) }
    ensures lengths { length arrivals.new.items ≡ length arrivals.old.items }
    ensures read { IsRead T.stored T.is_honest T.counted T.stays table.old table.new }
    ensures room { IfErr result NeedsNoPage }
    ensures fault { IfErr result (T.fails table.old table.new) }
{
    let Some(number) = table.number_of(position)? else {
        return Ok(());
    };
    if !has_edge(table, number, from)? {
        return Ok(());
    }
    let count = arrivals[number as usize];
    arrivals[number as usize] = count.saturating_add(1);
    Ok(())
}

/// Counts one more at the number of each of these positions that is known and has an edge from the number given.
fn count_each<T: Table>(
    table: &mut T,
    from: u32,
    positions: &[Packed],
    arrivals: &mut Vec<u32>,
) -> Result<(), TableFault>
    requires { length arrivals.old.items ≡ (T.counted table.old).known }
    ensures counted { T.is_honest table.old → IsTable (T.stored table.old) → AllPairs ◌≢◌ (bytes_of_each positions.now)
        → OnOk result ((i : ℕ) (x : List ℕ) → HasNumber (view_of (T.stored table.old)) i x
        → CountsIf (Contains (bytes_of_each positions.now) x × ((T.stored table.old).has_edge i from ≡ true))
        arrivals.old.items arrivals.new.items i) }
    ensures lengths { length arrivals.new.items ≡ length arrivals.old.items }
    ensures read { IsRead T.stored T.is_honest T.counted T.stays table.old table.new }
    ensures room { IfErr result NeedsNoPage }
    ensures fault { IfErr result (T.fails table.old table.new) }
{
    for position in positions {
        count_one(table, from, position, arrivals)?;
    }
    Ok(())
}

/// Counts one more at each number to which an edge that is a move leads from the number given.
fn count_moves<M: MoveSource, T: Table>(
    alloc: Global,
    source: &M,
    table: &mut T,
    from: u32,
    arrivals: &mut Vec<u32>,
) -> Result<(), AuditFault>
    requires source { M.is_sound source.now }
    requires known { from < (T.counted table.old).known }
    requires lengths { length arrivals.old.items ≡ (T.counted table.old).known }
    ensures counted { T.is_honest table.old → IsTable (T.stored table.old) → from < expanded_count (T.stored table.old)
        → OnOk result ((i : ℕ) (x : List ℕ) → HasNumber (view_of (T.stored table.old)) i x
        → CountsIf (IsMoveEdge (M.graph source.now) (T.stored table.old) i x from) arrivals.old.items arrivals.new.items i) }
    ensures lengths { length arrivals.new.items ≡ length arrivals.old.items }
    ensures read { IsRead T.stored T.is_honest T.counted T.stays table.old table.new }
    ensures err { IfErr result (HasAuditCause (T.is_honest table.old → from < expanded_count (T.stored table.old)
        → HasWide (M.is_wide source.now) (T.stored table.old)) (T.fails table.old table.new)) }
{
    let packed = table.packed(from)?;
    let found = source.successors(alloc, &packed)?;
    count_each(table, from, &found, arrivals)?;
    Ok(())
}

/// By number, how many edges to it are moves. The moves of each expanded position are searched once.
pub fn arrivals<M: MoveSource, T: Table>(
    alloc: Global,
    source: &M,
    table: &mut T,
) -> Result<Vec<u32>, AuditFault>
    requires source { M.is_sound source.now }
    ensures arrivals { T.is_honest table.old → IsTable (T.stored table.old) → IfOk result (λ arrivals.
        AreArrivals (M.graph source.now) (T.stored table.old) (expanded_count (T.stored table.old)) arrivals.items) }
    ensures lengths { IfOk result (λ arrivals. length arrivals.items ≡ (T.counted table.old).known) }
    ensures read { IsRead T.stored T.is_honest T.counted T.stays table.old table.new }
    ensures err { IfErr result (HasAuditCause
        (T.is_honest table.old → HasWide (M.is_wide source.now) (T.stored table.old)) (T.fails table.old table.new)) }
{
    let counts = table.counts();
    let mut arrivals = vec![in alloc; 0; counts.known as usize]?;
    for from in 0..counts.expanded.min(counts.known) {
        count_moves(alloc, source, table, from, &mut arrivals)?;
    }
    Ok(arrivals)
}
