//! What is asked of the ranks at one position, by the moves that lead from it.
ghost use Rattle.std.specs.Prelude.{◌≡◌, ◌↔◌, true, IfOk, IsOk, Some, Err};
ghost use Rattle.rbg_game.specs.declared.roles.Role.{Role};
ghost use Rattle.certificate.specs.Format.{Ascends};
ghost use Rattle.certificate.specs.Lists.{HasRankedLine, lines_in};
ghost use Rattle.certificate.specs.Strategies.{GoesDown, IsHeld, RanksBelow, RanksFrom};
ghost use Rattle.certificate.specs.lemmas.Found.{SomeOf, EachOf};

use crate::ranked::{Ranked, ranks_below, ranks_from};
use legal_moves::{MoveFault, MoveSource};
use position_pack::Packed;
use rbg_game::roles::{Player, Role};
use std::alloc::Global;

/// Whether the player has the turn.
fn has_turn(mover: Role, player: Player) -> bool
    ensures { (result ≡ true) ↔ (mover ≡ Role.Player player) }
{
    mover == Role::Player(player)
}

/// Whether the player is the one who is ahead.
fn is_ahead(ahead: Option<Player>, player: Player) -> bool
    ensures { (result ≡ true) ↔ (ahead ≡ Some player) }
{
    ahead == Some(player)
}

/// Whether some of these positions is found with a rank below this one.
fn some_below(list: &[Ranked], found: &[Packed], rank: u32) -> bool
    requires { Ascends (lines_in list.now) }
    ensures { (result ≡ true) ↔ SomeOf found.now (RanksBelow (HasRankedLine list.now) rank) }
{
    for next in found {
        if ranks_below(list, next, rank) {
            return true;
        }
    }
    false
}

/// Whether each of these positions is found with a rank below this one.
fn each_below(list: &[Ranked], found: &[Packed], rank: u32) -> bool
    requires { Ascends (lines_in list.now) }
    ensures { (result ≡ true) ↔ EachOf found.now (RanksBelow (HasRankedLine list.now) rank) }
{
    for next in found {
        if !ranks_below(list, next, rank) {
            return false;
        }
    }
    true
}

/// Whether some of these positions is found with this rank or a greater one.
fn some_from(list: &[Ranked], found: &[Packed], rank: u32) -> bool
    requires { Ascends (lines_in list.now) }
    ensures { (result ≡ true) ↔ SomeOf found.now (RanksFrom (HasRankedLine list.now) rank) }
{
    for next in found {
        if ranks_from(list, next, rank) {
            return true;
        }
    }
    false
}

/// Whether each of these positions is found with this rank or a greater one.
fn each_from(list: &[Ranked], found: &[Packed], rank: u32) -> bool
    requires { Ascends (lines_in list.now) }
    ensures { (result ≡ true) ↔ EachOf found.now (RanksFrom (HasRankedLine list.now) rank) }
{
    for next in found {
        if !ranks_from(list, next, rank) {
            return false;
        }
    }
    true
}

/// Whether the ranks of a list go down at this position from this rank. A fault is that of the search for the moves.
pub fn goes_down<M: MoveSource>(
    alloc: Global,
    source: &M,
    player: Player,
    list: &[Ranked],
    at: &Packed,
    rank: u32,
) -> Result<bool, MoveFault>
    requires sound { M.is_sound source.now }
    requires ascends { Ascends (lines_in list.now) }
    ensures is { IfOk result (λ is. (is ≡ true) ↔ GoesDown (M.graph source.now) player (HasRankedLine list.now) at.now.items rank) }
    ensures wide { result ≡ Err MoveFault.TooWide → M.is_wide source.now at.now.items }
    ensures narrow { IsOk result → ¬ M.is_wide source.now at.now.items }
{
    let found = source.successors(alloc, at)?;
    if found.is_empty() {
        return Ok(is_ahead(source.ahead(at), player));
    }
    if has_turn(source.mover(at), player) {
        return Ok(some_below(list, &found, rank));
    }
    Ok(each_below(list, &found, rank))
}

/// Whether the player is held at this position in what has this rank in a list or a greater one. A fault is that of the search for the moves.
pub fn is_held<M: MoveSource>(
    alloc: Global,
    source: &M,
    player: Player,
    list: &[Ranked],
    at: &Packed,
    rank: u32,
) -> Result<bool, MoveFault>
    requires sound { M.is_sound source.now }
    requires ascends { Ascends (lines_in list.now) }
    ensures is { IfOk result (λ is. (is ≡ true) ↔ IsHeld (M.graph source.now) player (RanksFrom (HasRankedLine list.now) rank) at.now.items) }
    ensures wide { result ≡ Err MoveFault.TooWide → M.is_wide source.now at.now.items }
    ensures narrow { IsOk result → ¬ M.is_wide source.now at.now.items }
{
    let found = source.successors(alloc, at)?;
    if found.is_empty() {
        return Ok(!is_ahead(source.ahead(at), player));
    }
    if has_turn(source.mover(at), player) {
        return Ok(each_from(list, &found, rank));
    }
    Ok(some_from(list, &found, rank))
}
