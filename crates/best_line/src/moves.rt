//! The moves of a known position, with what the table tells of where they lead.
ghost use Rattle.std.specs.Prelude.{◌≡◌, ◌<◌, ℕ, List, All, IfOk, IfErr, IfSome, length, slice_get};
ghost use Rattle.retrograde.specs.Stored.{IsTable, view_of};
ghost use Rattle.retrograde.specs.View.{HasNumber};
ghost use Rattle.table.specs.Faults.{NeedsNoPage};
ghost use Rattle.table.specs.Frames.{IsRead};
ghost use Rattle.legal_moves.specs.Compiled.{compiled_game, packing_kind, IsSoundCompiled};
ghost use Rattle.legal_moves.specs.Sources.{IsPositionBytes, IsWideAt};
ghost use Rattle.best_line.specs.KnownCauses.{FaultOfTable, HasNoMoves};
ghost use Rattle.best_line.specs.Moves.{AreKnownMoves};
ghost use Rattle.best_line.specs.lemmas.Found.{AreToldMoves, IsToldMove, LeadsToPosition};
ghost use Rattle.best_line.specs.declared.known_fault.KnownMovesFault.TheVariants.{Inconsistent, TooWide};

use crate::found::successor_of;
use crate::known::{KnownMove, KnownMoves};
use crate::known_fault::KnownMovesFault;
use crate::told::told_of;
use legal_moves::{Compiled, Moves};
use position_pack::show;
use std::alloc::Global;
use table::Table;

/// The move with this index, and what the table tells of the position that it leads to.
fn told_move<T: Table>(
    alloc: Global,
    compiled: &Compiled,
    table: &mut T,
    moves: &Moves,
    k: usize,
) -> Result<KnownMove, KnownMovesFault>
    requires compiled { IsSoundCompiled compiled.now }
    requires positions { All (LeadsToPosition (compiled_game compiled.now)) moves.now }
    requires index { k < length moves.now }
    ensures told { T.is_honest table.old → IsTable (T.stored table.old) → IfOk result (λ known. IfSome (slice_get moves.now k)
        (λ m. IsToldMove (packing_kind compiled.now) (compiled_game compiled.now) (view_of (T.stored table.old)) m known)) }
    ensures searched { IfErr result (λ fault. (¬ (fault ≡ Inconsistent)) × (¬ (fault ≡ TooWide))) }
    ensures read { IsRead T.stored T.is_honest T.counted T.stays table.old table.new }
    ensures room { IfErr result (FaultOfTable NeedsNoPage) }
    ensures fault { IfErr result (FaultOfTable (T.fails table.old table.new)) }
{
    let word = moves.word(alloc, k)?;
    let next = successor_of(compiled, moves, k);
    let text = show(alloc, compiled.game(), &next)?;
    let packed = compiled.packing().pack(&next);
    let told = told_of(table, &packed)?;
    Ok(KnownMove {
        word,
        packed,
        text,
        number: told.number,
        value: told.value,
    })
}

/// These moves in their order, with what the table tells of the positions that they lead to.
fn told_moves<T: Table>(
    alloc: Global,
    compiled: &Compiled,
    table: &mut T,
    moves: &Moves,
) -> Result<Vec<KnownMove>, KnownMovesFault>
    requires compiled { IsSoundCompiled compiled.now }
    requires positions { All (LeadsToPosition (compiled_game compiled.now)) moves.now }
    ensures told { T.is_honest table.old → IsTable (T.stored table.old) → IfOk result (λ known.
        AreToldMoves (packing_kind compiled.now) (compiled_game compiled.now) (view_of (T.stored table.old)) moves.now known.items) }
    ensures searched { IfErr result (λ fault. (¬ (fault ≡ Inconsistent)) × (¬ (fault ≡ TooWide))) }
    ensures read { IsRead T.stored T.is_honest T.counted T.stays table.old table.new }
    ensures room { IfErr result (FaultOfTable NeedsNoPage) }
    ensures fault { IfErr result (FaultOfTable (T.fails table.old table.new)) }
{
    let mut known = Vec::new(alloc);
    for k in 0..moves.len() {
        let one = told_move(alloc, compiled, table, moves, k)?;
        known.push(one)?;
    }
    Ok(known)
}

/// The moves of the position with this number, which is below the count of known positions: each successor once, by ascending bytes,
/// with a shortest word, its text, and the number and the value that the table has of it. The table stays as it was.
///
/// `Inconsistent` comes where the bytes that are stored are those of no position of the game, and `TooWide` where the position is
/// too wide. Any other fault is the table's or want of memory.
pub fn known_moves<T: Table>(
    alloc: Global,
    compiled: &Compiled,
    table: &mut T,
    number: u32,
) -> Result<KnownMoves, KnownMovesFault>
    requires compiled { IsSoundCompiled compiled.now }
    requires known { number < (T.counted table.old).known }
    ensures moves { T.is_honest table.old → IsTable (T.stored table.old) → IfOk result
        (AreKnownMoves (packing_kind compiled.now) (compiled_game compiled.now) (view_of (T.stored table.old)) number) }
    ensures read { IsRead T.stored T.is_honest T.counted T.stays table.old table.new }
    ensures err { IfErr result (HasNoMoves
        (T.is_honest table.old → (x : List ℕ) × HasNumber (view_of (T.stored table.old)) number x
        × (¬ IsPositionBytes (packing_kind compiled.now) (compiled_game compiled.now) x))
        (T.is_honest table.old → (x : List ℕ) × HasNumber (view_of (T.stored table.old)) number x
        × IsWideAt (packing_kind compiled.now) (compiled_game compiled.now) x)
        (T.fails table.old table.new)) }
{
    let packed = table.packed(number)?;
    let Some(at) = compiled.packing().unpack(&packed) else {
        return Err(KnownMovesFault::Inconsistent);
    };
    let found = compiled.moves(alloc, &at)?;
    let moves = told_moves(alloc, compiled, table, &found)?;
    Ok(KnownMoves {
        mover: at.state.mover,
        moves,
    })
}
