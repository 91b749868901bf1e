//! The next position of a line.
ghost use Rattle.std.specs.Prelude.{◌≡◌, ◌<◌, ℕ, List, Contains, IfOk, IfErr, IfSome, IfNone, Some};
ghost use Rattle.table.specs.Memory.{bytes_of_each};
ghost use Rattle.retrograde.specs.View.{HasNumber, HasValue};
ghost use Rattle.retrograde.specs.Stored.{IsTable, view_of};
ghost use Rattle.best_line.specs.Lines.{IsBestStep, HasNoStep};
ghost use Rattle.best_line.specs.lemmas.Lines.{IsFirstWon};
ghost use Rattle.best_line.specs.Causes.{HasStepCause, IsOfReading};
ghost use Rattle.table.specs.Frames.{IsRead};

use crate::fault::LineFault;
use legal_moves::MoveSource;
use position_pack::Packed;
use rbg_game::roles::Player;
use std::alloc::Global;
use table::{Table, TableFault};

/// The number of a position, where it is known and this player wins it in this distance.
fn number_if_won<T: Table>(
    table: &mut T,
    position: &Packed,
    winner: Player,
    distance: u32,
) -> Result<Option<u32>, TableFault>
    ensures found { T.is_honest table.old → IfOk result (λ r. IfSome r (λ i.
        HasNumber (view_of (T.stored table.old)) i position.now.items
        × ((view_of (T.stored table.old)).value i ≡ Some (winner, distance)))) }
    ensures none { T.is_honest table.old → IsTable (T.stored table.old) → IfOk result (λ r. IfNone r
        (HasValue (view_of (T.stored table.old)) position.now.items winner distance → ⊥)) }
    ensures within { IfOk result (λ r. IfSome r (λ i. i < (T.counted table.old).known)) }
    ensures read { IsRead T.stored T.is_honest T.counted T.stays table.old table.new }
    ensures err { IfErr result (IsOfReading (T.fails table.old table.new)) }
{
    let Some(number) = table.number_of(position)? else {
        return Ok(None);
    };
    let kept = table.record(number)?;
    if kept.winner == Some(winner) && kept.distance == distance {
        Ok(Some(number))
    } else {
        Ok(None)
    }
}

/// The number of the first of these positions that this player wins in this distance.
fn first_won<T: Table>(
    table: &mut T,
    positions: &[Packed],
    winner: Player,
    distance: u32,
) -> Result<Option<u32>, TableFault>
    ensures found { T.is_honest table.old → IsTable (T.stored table.old) → IfOk result (λ r. IfSome r
        (IsFirstWon (view_of (T.stored table.old)) (bytes_of_each positions.now) winner distance)) }
    ensures none { T.is_honest table.old → IsTable (T.stored table.old) → IfOk result (λ r. IfNone r
        ((y : List ℕ) → Contains (bytes_of_each positions.now) y → HasValue (view_of (T.stored table.old)) y winner distance → ⊥)) }
    ensures within { IfOk result (λ r. IfSome r (λ i. i < (T.counted table.old).known)) }
    ensures read { IsRead T.stored T.is_honest T.counted T.stays table.old table.new }
    ensures err { IfErr result (IsOfReading (T.fails table.old table.new)) }
{
    for position in positions {
        let found = number_if_won(table, position, winner, distance)?;
        if found.is_some() {
            return Ok(found);
        }
    }
    Ok(None)
}

/// The number of the first successor, in the order of the bytes, that this player wins in this
/// distance. `Inconsistent` comes where there is none.
pub fn next_on_line<M: MoveSource, T: Table>(
    alloc: Global,
    source: &M,
    table: &mut T,
    number: u32,
    winner: Player,
    distance: u32,
) -> Result<u32, LineFault>
    requires source { M.is_sound source.now }
    requires known { number < (T.counted table.old).known }
    ensures step { T.is_honest table.old → IsTable (T.stored table.old)
        → IfOk result (IsBestStep (M.graph source.now) (view_of (T.stored table.old)) number winner distance) }
    ensures within { IfOk result (λ i. i < (T.counted table.old).known) }
    ensures read { IsRead T.stored T.is_honest T.counted T.stays table.old table.new }
    ensures err { IfErr result (HasStepCause
        (T.is_honest table.old → IsTable (T.stored table.old)
        → HasNoStep (M.graph source.now) (view_of (T.stored table.old)) number winner distance)
        (T.is_honest table.old
        → (x : List ℕ) × HasNumber (view_of (T.stored table.old)) number x × M.is_wide source.now x)
        (T.fails table.old table.new)) }
{
    let packed = table.packed(number)?;
    let found = source.successors(alloc, &packed)?;
    match first_won(table, &found, winner, distance)? {
        Some(next) => Ok(next),
        None => Err(LineFault::Inconsistent),
    }
}
