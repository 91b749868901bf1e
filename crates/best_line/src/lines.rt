//! A best line: the winner wins as soon as he can, and the other side puts it off as long as it can.
ghost use Rattle.std.specs.Prelude.{◌≡◌, ◌<◌, IfOk, IfErr, Some, slice_get};
ghost use Rattle.retrograde.specs.Stored.{IsTable, view_of};
ghost use Rattle.retrograde.specs.Sound.{IsLocallySound};
ghost use Rattle.best_line.specs.Lines.{IsBestLine, IsBestPlay, IsToldLine};
ghost use Rattle.best_line.specs.Causes.{HasLineCause, HasNoLine, IsLineCause, LineStops};
ghost use Rattle.table.specs.Frames.{IsRead};

use crate::answers::Value;
use crate::fault::LineFault;
use crate::steps::next_on_line;
use crate::values::value;
use legal_moves::MoveSource;
use rbg_game::roles::Player;
use std::alloc::Global;
use table::Table;

/// The line from a position that this player wins in this distance.
fn follow<M: MoveSource, T: Table>(
    alloc: Global,
    source: &M,
    table: &mut T,
    number: u32,
    winner: Player,
    distance: u32,
) -> Result<Vec<u32>, LineFault>
    requires source { M.is_sound source.now }
    requires known { number < (T.counted table.old).known }
    ensures line { T.is_honest table.old → IsTable (T.stored table.old)
        → (view_of (T.stored table.old)).value number ≡ Some (winner, distance)
        → IfOk result (λ numbers. IsBestLine (M.graph source.now) (view_of (T.stored table.old)) winner distance numbers.items) }
    ensures begins { IfOk result (λ numbers. slice_get numbers.items 0 ≡ Some number) }
    ensures read { IsRead T.stored T.is_honest T.counted T.stays table.old table.new }
    ensures err { IfErr result (HasLineCause
        (λ fault. T.is_honest table.old
        → IsLocallySound (M.graph source.now) (M.is_wide source.now) (T.stored table.old)
        → (view_of (T.stored table.old)).value number ≡ Some (winner, distance)
        → IsLineCause (view_of (T.stored table.old)) number fault)
        (λ fault. T.is_honest table.old → IsTable (T.stored table.old)
        → (view_of (T.stored table.old)).value number ≡ Some (winner, distance)
        → LineStops (M.graph source.now) (M.is_wide source.now) (view_of (T.stored table.old)) number fault)
        (T.fails table.old table.new)) }
{
    let mut numbers = Vec::new(alloc);
    numbers.push(number)?;
    let mut at = number;
    for step in 0..distance {
        at = next_on_line(alloc, source, table, at, winner, distance - step - 1)?;
        numbers.push(at)?;
    }
    Ok(numbers)
}

/// The numbers of a best line: from the position with this number, which is below the count of known
/// positions, each next one is the first successor in the order of the bytes that the same player wins
/// in one fewer, and the last is won in 0.
///
/// `NotSettled` comes where the position has no winner. `Inconsistent` comes where the line breaks off, at a position from which
/// no move leads to where the same player wins in one fewer, and `TooWide` where it meets a position that is too wide: both only
/// where the table does not agree with itself. The table stays as it was.
pub fn line<M: MoveSource, T: Table>(
    alloc: Global,
    source: &M,
    table: &mut T,
    number: u32,
) -> Result<Vec<u32>, LineFault>
    requires source { M.is_sound source.now }
    requires known { number < (T.counted table.old).known }
    ensures line { T.is_honest table.old → IsLocallySound (M.graph source.now) (M.is_wide source.now) (T.stored table.old)
        → IfOk result (λ numbers. IsBestPlay (M.graph source.now) (view_of (T.stored table.old)) number numbers.items) }
    ensures told { T.is_honest table.old → IsTable (T.stored table.old)
        → IfOk result (λ numbers. IsToldLine (M.graph source.now) (view_of (T.stored table.old)) number numbers.items) }
    ensures begins { IfOk result (λ numbers. slice_get numbers.items 0 ≡ Some number) }
    ensures read { IsRead T.stored T.is_honest T.counted T.stays table.old table.new }
    ensures err { IfErr result (HasNoLine
        (λ fault. T.is_honest table.old → IsLocallySound (M.graph source.now) (M.is_wide source.now) (T.stored table.old)
        → IsLineCause (view_of (T.stored table.old)) number fault)
        (λ fault. T.is_honest table.old → IsTable (T.stored table.old)
        → LineStops (M.graph source.now) (M.is_wide source.now) (view_of (T.stored table.old)) number fault)
        (T.fails table.old table.new)) }
{
    match value(table, number)? {
        Value::Won(winner, distance) => follow(alloc, source, table, number, winner, distance),
        Value::Drawn | Value::Open => Err(LineFault::NotSettled),
    }
}
