//! Whether lists show a value.
ghost use Rattle.std.specs.Prelude.{◌≡◌, ◌↔◌, All, true, OnOk, IfErr};
ghost use Rattle.retrograde.specs.Values.{WonIn, Drawn};
ghost use Rattle.certificate.specs.Lists.{lines_in};
ghost use Rattle.certificate.specs.Right.{AreShown};
ghost use Rattle.certificate.specs.Shown.{AreNarrow, Follows, IsListNarrow, ShowsRank, IsUnfollowed, IsUnshown};
ghost use Rattle.certificate.specs.Format.{Ascends};
ghost use Rattle.certificate.specs.lemmas.Faults.{of_search};
ghost use Rattle.certificate.specs.lemmas.Parts.{AreAsked};
ghost use Rattle.certificate.specs.declared.fault.CertificateFault.TheVariants as fault;
ghost use Rattle.certificate.specs.declared.claim.Claimed.TheVariants as claimed;

use crate::fault::{CertificateFault, Refusal};
use crate::lists::Listed;
use crate::manner::{Manner, NEVER};
use crate::ranked::{Ranked, ranks_as, ranks_from};
use crate::whole::first_not_following;
use legal_moves::{MoveFault, MoveSource};
use position_pack::Packed;
use rbg_game::roles::Player;
use std::alloc::Global;

/// That the player wins this position in exactly so many moves: by a list that is a strategy of the player and has the position with that
/// rank, and one that is a delay and has it with that rank or a greater one.
pub fn show_win<M: MoveSource>(
    alloc: Global,
    source: &M,
    player: Player,
    at: &Packed,
    moves: u32,
    most: &Listed,
    least: &Listed,
) -> Result<(), Refusal>
    requires sound { M.is_sound source.now }
    requires most { AreAsked most.now.list.items }
    requires least { AreAsked least.now.list.items }
    ensures so { OnOk result (WonIn (M.graph source.now) player moves at.now.items) }
    ensures shown { OnOk result (AreShown (M.graph source.now) (claimed.Won player moves) at.now.items
        (lines_in most.now.list.items) (lines_in least.now.list.items)) }
    ensures narrow { OnOk result (AreNarrow (M.is_wide source.now) (claimed.Won player moves)
        (lines_in most.now.list.items) (lines_in least.now.list.items)) }
    ensures fault { IfErr result (λ refusal. IsUnshown (M.graph source.now) (M.is_wide source.now) (claimed.Won player moves) at.now.items
        (lines_in most.now.list.items) (lines_in least.now.list.items) refusal.fault) }
{
    all_follow(alloc, source, Manner::AtMost, player, most)?;
    all_follow(alloc, source, Manner::AtLeast, player, least)?;
    has_shown(Manner::AtMost, most, at, moves)?;
    has_shown(Manner::AtLeast, least, at, moves)
}

/// That nobody wins this position: by a list for each player that is safe from the player and has it.
pub fn show_draw<M: MoveSource>(
    alloc: Global,
    source: &M,
    at: &Packed,
    first: &Listed,
    second: &Listed,
) -> Result<(), Refusal>
    requires sound { M.is_sound source.now }
    requires first { AreAsked first.now.list.items }
    requires second { AreAsked second.now.list.items }
    ensures so { OnOk result (Drawn (M.graph source.now) at.now.items) }
    ensures shown { OnOk result (AreShown (M.graph source.now) claimed.Drawn at.now.items
        (lines_in first.now.list.items) (lines_in second.now.list.items)) }
    ensures narrow { OnOk result (AreNarrow (M.is_wide source.now) claimed.Drawn
        (lines_in first.now.list.items) (lines_in second.now.list.items)) }
    ensures fault { IfErr result (λ refusal. IsUnshown (M.graph source.now) (M.is_wide source.now) claimed.Drawn at.now.items
        (lines_in first.now.list.items) (lines_in second.now.list.items) refusal.fault) }
{
    all_follow(alloc, source, Manner::Never, Player::First, first)?;
    has_shown(Manner::Never, first, at, 0)?;
    all_follow(alloc, source, Manner::Never, Player::Second, second)?;
    has_shown(Manner::Never, second, at, 0)
}

/// That each line of a list follows from the others.
fn all_follow<M: MoveSource>(
    alloc: Global,
    source: &M,
    manner: Manner,
    player: Player,
    listed: &Listed,
) -> Result<(), Refusal>
    requires sound { M.is_sound source.now }
    requires asked { AreAsked listed.now.list.items }
    ensures so { OnOk result (All (Follows (M.graph source.now) manner player (lines_in listed.now.list.items)) (lines_in listed.now.list.items)) }
    ensures narrow { OnOk result (IsListNarrow (M.is_wide source.now) manner (lines_in listed.now.list.items)) }
    ensures fault { IfErr result (λ refusal. IsUnfollowed (M.graph source.now) (M.is_wide source.now) manner player
        (lines_in listed.now.list.items) refusal.fault) }
{
    match first_not_following(alloc, source, manner, player, &listed.list) {
        Ok(None) => Ok(()),
        Ok(Some(index)) => Err(not_followed(listed, index)),
        Err(fault) => Err(not_searched(listed, fault)),
    }
}

/// That a list has the position with such a rank.
fn has_shown(manner: Manner, listed: &Listed, at: &Packed, moves: u32) -> Result<(), Refusal>
    requires { AreAsked listed.now.list.items }
    ensures so { OnOk result (ShowsRank manner (lines_in listed.now.list.items) at.now.items moves) }
    ensures fault { IfErr result (λ refusal. refusal.fault ≡ fault.NotShown) }
    ensures not_there { IfErr result (λ _. ¬ ShowsRank manner (lines_in listed.now.list.items) at.now.items moves) }
{
    if shows(manner, &listed.list, at, moves) {
        Ok(())
    } else {
        Err(not_shown(listed))
    }
}

/// Whether a list has the position with such a rank.
fn shows(manner: Manner, list: &[Ranked], at: &[u8], moves: u32) -> bool
    requires { Ascends (lines_in list.now) }
    ensures { (result ≡ true) ↔ ShowsRank manner (lines_in list.now) at.now moves }
{
    match manner {
        Manner::AtMost => ranks_as(list, at, moves),
        Manner::AtLeast => ranks_from(list, at, moves),
        Manner::Never => ranks_from(list, at, NEVER),
    }
}

/// The refusal of the line of a list with this index.
fn not_followed(listed: &Listed, index: usize) -> Refusal
    ensures { result.fault ≡ fault.DoesNotFollow }
{
    Refusal {
        fault: CertificateFault::DoesNotFollow,
        left: listed.left,
        below: index,
    }
}

/// The refusal of a list at whose positions a search for moves gave no answer.
fn not_searched(listed: &Listed, fault: MoveFault) -> Refusal
    ensures { result.fault ≡ of_search fault }
{
    Refusal {
        fault: CertificateFault::from(fault),
        left: listed.left,
        below: 0,
    }
}

/// The refusal of a list that has not the position that it has to have, at the line above its first position.
fn not_shown(listed: &Listed) -> Refusal
    ensures { result.fault ≡ fault.NotShown }
{
    Refusal {
        fault: CertificateFault::NotShown,
        left: listed.left.saturating_add(1),
        below: 0,
    }
}
