//! One position is expanded.
ghost use Rattle.std.specs.Prelude.{◌≡◌, ◌⊎◌, ◌^◌, ◌<◌, ◌≤◌, true, false};
ghost use Rattle.std.specs.Prelude.{map, vec_len, IsOk, IfOk, OnOk, IfErr, Err};
ghost use Rattle.rbg_game.specs.declared.roles.Role.{Role};
ghost use Rattle.legal_moves.specs.Listed.{ListsExactly};
ghost use Rattle.frontier.specs.Frames.{IsGrown};
ghost use Rattle.frontier.specs.Units.{HasWorked, HasExpanded, HasStopped};
ghost use Rattle.frontier.specs.declared.fault.StepFault.TheVariants.{TooWide, OutOfMemory};

use crate::fault::StepFault;
use crate::finish::finish;
use crate::note::note_all;
use crate::numbers::numbers_of;
use legal_moves::MoveSource;
use position_pack::Packed;
use rbg_game::roles::Role;
use std::alloc::Global;
use table::{MAX_POSITIONS, Table};

/// Where a move leads, in the order of the bytes.
fn successors_of<M: MoveSource>(
    alloc: Global,
    source: &M,
    at: &Packed,
) -> Result<Vec<Packed>, StepFault>
    requires { M.is_sound source.now }
    ensures exact { IfOk result (λ found. ListsExactly ((M.graph source.now).Successor at.now.items) (map (λ p. p.items) found.items)) }
    ensures few { IfOk result (λ found. vec_len found ≤ 65536) }
    ensures narrow { IsOk result → ¬ M.is_wide source.now at.now.items }
    ensures wide { result ≡ Err TooWide → M.is_wide source.now at.now.items }
    ensures others { IfErr result (λ fault. (fault ≡ TooWide) ⊎ (fault ≡ OutOfMemory)) }
{
    Ok(source.successors(alloc, at)?)
}

/// The keeper has the turn and more than one position to move to.
fn keeper_chooses(mover: Role, successors: usize) -> bool
    ensures chooses { result ≡ true → (mover ≡ Role.Keeper) × (1 < successors) }
    ensures forced { result ≡ false → mover ≡ Role.Keeper → successors ≤ 1 }
{
    match mover {
        Role::Keeper => successors > 1,
        Role::Player(_) => false,
    }
}

/// Expands the known position with the least number that is not expanded, and answers how many
/// positions became known by it.
///
/// It is asked only where fewer positions are expanded than known, of a table within the limit of
/// 16,777,216 positions. A fault of the search comes before `KeeperChooses`, which has the number of the
/// position, and that before `TooManyPositions`; none of these has changed the table. After another
/// error the caller gives the table up: want of memory may come at any point, and `Inconsistent`
/// only where the table did not agree with itself.
///
/// For each entry that it may write a unit takes `PAGES_PER_ENTRY` pages at most, and `TableFull` comes only where no
/// more than these were free.
pub fn expand_one<M: MoveSource, T: Table>(
    alloc: Global,
    source: &M,
    table: &mut T,
) -> Result<u32, StepFault>
    requires source { M.is_sound source.now }
    requires waiting { (T.counted table.old).expanded < (T.counted table.old).known }
    requires limit { (T.counted table.old).known ≤ 2 ^ 24 }
    ensures expanded { T.is_honest table.old → IfOk result
        (HasExpanded (M.graph source.now) (M.is_wide source.now) (T.stored table.old) (T.stored table.new)) }
    ensures worked { T.is_honest table.old → OnOk result (HasWorked (M.graph source.now) (M.is_wide source.now)
        (T.stored table.old) (T.stored table.new) (T.free table.old) (T.free table.new)) }
    ensures ok { OnOk result (IsGrown T.is_honest T.counted T.goes_on table.old table.new) }
    ensures err { IfErr result (HasStopped (M.graph source.now) (M.is_wide source.now) T.stored T.is_honest T.free
        T.goes_on T.fails table.old table.new) }
{
    let before = table.counts();
    let number = before.expanded;
    let packed = table.packed(number)?;
    let found = successors_of(alloc, source, &packed)?;
    if keeper_chooses(source.mover(&packed), found.len()) {
        return Err(StepFault::KeeperChooses(number));
    }
    let numbers = numbers_of(alloc, table, &found)?;
    if numbers.next > MAX_POSITIONS {
        return Err(StepFault::TooManyPositions);
    }
    note_all(table, number, &numbers.each, &found)?;
    finish(table, number, found.len() as u32, source.ahead(&packed))?;
    Ok(table.counts().known - before.known)
}
