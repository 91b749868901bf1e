//! Whether the lines of a list follow from one another.
ghost use Rattle.std.specs.Prelude.{◌≡◌, ◌≢◌, ◌≤◌, ◌↔◌, All, Contains, length, true, IfOk, IsOk, Ok, Err, None, MatchOption};
ghost use Rattle.position_pack.specs.declared.limits.TheConstants.{MAX_PACKED};
ghost use Rattle.certificate.specs.Format.{Ascends, Line};
ghost use Rattle.certificate.specs.Lists.{HasRankedLine, line_of, lines_in};
ghost use Rattle.certificate.specs.Shown.{Follows, IsListNarrow, IsSearched};
ghost use Rattle.certificate.specs.Strategies.{IsHeldFor};
ghost use Rattle.certificate.specs.lemmas.Parts.{AllFit};

use crate::going::{goes_down, is_held};
use crate::manner::{Manner, NEVER};
use crate::ranked::{Ranked, packed_of};
use legal_moves::{MoveFault, MoveSource};
use position_pack::Packed;
use rbg_game::roles::Player;
use std::alloc::Global;

/// Whether a player is held at a position for as many moves as this rank.
fn is_held_for<M: MoveSource>(
    alloc: Global,
    source: &M,
    player: Player,
    list: &[Ranked],
    at: &Packed,
    rank: u32,
) -> Result<bool, MoveFault>
    requires sound { M.is_sound source.now }
    requires ascends { Ascends (lines_in list.now) }
    ensures is { IfOk result (λ is. (is ≡ true) ↔ IsHeldFor (M.graph source.now) player (HasRankedLine list.now) at.now.items rank) }
    ensures wide { result ≡ Err MoveFault.TooWide → (rank ≢ 0) × M.is_wide source.now at.now.items }
    ensures narrow { IsOk result → rank ≢ 0 → ¬ M.is_wide source.now at.now.items }
{
    if rank == 0 {
        return Ok(true);
    }
    is_held(alloc, source, player, list, at, rank - 1)
}

/// Whether a line of a list follows from the others.
fn follows<M: MoveSource>(
    alloc: Global,
    source: &M,
    manner: Manner,
    player: Player,
    list: &[Ranked],
    ranked: &Ranked,
) -> Result<bool, MoveFault>
    requires sound { M.is_sound source.now }
    requires ascends { Ascends (lines_in list.now) }
    requires fits { length ranked.now.at.items ≤ MAX_PACKED }
    ensures is { IfOk result (λ is. (is ≡ true) ↔ Follows (M.graph source.now) manner player (lines_in list.now) (line_of ranked.now)) }
    ensures wide { result ≡ Err MoveFault.TooWide → IsSearched manner (line_of ranked.now) × M.is_wide source.now ranked.now.at.items }
    ensures narrow { IsOk result → IsSearched manner (line_of ranked.now) → ¬ M.is_wide source.now ranked.now.at.items }
{
    let at = packed_of(&ranked.at);
    match manner {
        Manner::AtMost => goes_down(alloc, source, player, list, &at, ranked.rank),
        Manner::AtLeast => is_held_for(alloc, source, player, list, &at, ranked.rank),
        Manner::Never => is_held(alloc, source, player, list, &at, NEVER),
    }
}

/// The index of the first line of a list that does not follow from the others; none where each does.
pub fn first_not_following<M: MoveSource>(
    alloc: Global,
    source: &M,
    manner: Manner,
    player: Player,
    list: &[Ranked],
) -> Result<Option<usize>, MoveFault>
    requires sound { M.is_sound source.now }
    requires ascends { Ascends (lines_in list.now) }
    requires fit { AllFit list.now }
    ensures is { IfOk result (λ index. MatchOption index
        (All (Follows (M.graph source.now) manner player (lines_in list.now)) (lines_in list.now))
        (λ _. (line : Line) × Contains (lines_in list.now) line × ¬ Follows (M.graph source.now) manner player (lines_in list.now) line)) }
    ensures wide { result ≡ Err MoveFault.TooWide → (line : Line) × Contains (lines_in list.now) line
        × (IsSearched manner line × M.is_wide source.now line.at) }
    ensures narrow { result ≡ Ok None → IsListNarrow (M.is_wide source.now) manner (lines_in list.now) }
{
    for (index, ranked) in list.iter().enumerate() {
        if !follows(alloc, source, manner, player, list, ranked)? {
            return Ok(Some(index));
        }
    }
    Ok(None)
}
