//! Whether the lists of a certificate, as they are written, show a value.
ghost use Rattle.std.specs.Prelude.{◌≡◌, OnOk, IfOk, IfErr};
ghost use Rattle.position_pack.specs.declared.kind.PackingKind.TheVariants.{Bits};
ghost use Rattle.legal_moves.specs.Compiled.{IsSoundCompiled, compiled_game, compiled_goal, packing_kind};
ghost use Rattle.legal_moves.specs.Sources.{IsWideAt, graph_of};
ghost use Rattle.certificate.specs.Claims.{IsClaimSo};
ghost use Rattle.certificate.specs.Refusals.{AreUnread};
ghost use Rattle.certificate.specs.Right.{AreShown};
ghost use Rattle.certificate.specs.Shown.{AreNarrow, IsUnshown};
ghost use Rattle.certificate.specs.Lists.{lines_in};
ghost use Rattle.certificate.specs.lemmas.Parts.{AreAsked};
ghost use Rattle.certificate.specs.lemmas.Reasons.{AreReadLists, AreTheLists, IsNotShown};

use crate::claim::{Claimed, name_of};
use crate::fault::{CertificateFault, Refusal};
use crate::lists::{Listed, list_in};
use crate::values::{show_draw, show_win};
use legal_moves::Compiled;
use position_pack::Packed;
use std::alloc::Global;

/// The two lists of a claim, in the order in which they are written.
#[derive(Drop)]
struct Lists {
    first: Listed,
    second: Listed,
}

/// That the position has the value that is claimed, by the lists; and how many positions stand in them.
pub fn show_value(
    alloc: Global,
    compiled: &Compiled,
    at: &Packed,
    claimed: Claimed,
    behind: &[u8],
) -> Result<usize, Refusal>
    requires sound { IsSoundCompiled compiled.now }
    requires kind { packing_kind compiled.now ≡ Bits }
    ensures so { OnOk result (IsClaimSo (graph_of (packing_kind compiled.now) (compiled_goal compiled.now) (compiled_game compiled.now)) claimed at.now.items) }
    ensures shown { OnOk result (AreTheLists (compiled_game compiled.now) (compiled_goal compiled.now) claimed at.now.items behind.now) }
    ensures fault { IfErr result (λ refusal. IsNotShown (compiled_game compiled.now) (compiled_goal compiled.now) claimed at.now.items behind.now
        refusal.fault) }
{
    let lists = lists_in(alloc, compiled, claimed, behind)?;
    show_by(alloc, compiled, at, claimed, &lists)?;
    Ok(
        lists
            .first
            .list
            .len()
            .saturating_add(lists.second.list.len()),
    )
}

/// The two lists of a claim, behind which nothing stands.
fn lists_in(
    alloc: Global,
    compiled: &Compiled,
    claimed: Claimed,
    behind: &[u8],
) -> Result<Lists, Refusal>
    requires sound { IsSoundCompiled compiled.now }
    requires kind { packing_kind compiled.now ≡ Bits }
    ensures read { IfOk result (λ lists. AreReadLists (compiled_game compiled.now) claimed behind.now lists.first.list.items lists.second.list.items) }
    ensures fault { IfErr result (λ refusal. AreUnread (compiled_game compiled.now) claimed behind.now refusal.fault) }
{
    let packing = compiled.packing();
    let name = name_of(compiled.game(), claimed.first_player());
    let (first, rest) = list_in(alloc, packing, behind, claimed.first_manner(), name)?;
    let name = name_of(compiled.game(), claimed.second_player());
    let (second, rest) = list_in(alloc, packing, rest, claimed.second_manner(), name)?;
    if !rest.is_empty() {
        return Err(Refusal::at(CertificateFault::Malformed, rest));
    }
    Ok(Lists { first, second })
}

/// That the position has the value that is claimed, by lists that were read.
fn show_by(
    alloc: Global,
    compiled: &Compiled,
    at: &Packed,
    claimed: Claimed,
    lists: &Lists,
) -> Result<(), Refusal>
    requires sound { IsSoundCompiled compiled.now }
    requires first { AreAsked lists.now.first.list.items }
    requires second { AreAsked lists.now.second.list.items }
    ensures so { OnOk result (IsClaimSo (graph_of (packing_kind compiled.now) (compiled_goal compiled.now) (compiled_game compiled.now)) claimed at.now.items) }
    ensures shown { OnOk result (AreShown (graph_of (packing_kind compiled.now) (compiled_goal compiled.now) (compiled_game compiled.now)) claimed
        at.now.items (lines_in lists.now.first.list.items) (lines_in lists.now.second.list.items)) }
    ensures narrow { OnOk result (AreNarrow (IsWideAt (packing_kind compiled.now) (compiled_game compiled.now)) claimed
        (lines_in lists.now.first.list.items) (lines_in lists.now.second.list.items)) }
    ensures fault { IfErr result (λ refusal. IsUnshown (graph_of (packing_kind compiled.now) (compiled_goal compiled.now) (compiled_game compiled.now))
        (IsWideAt (packing_kind compiled.now) (compiled_game compiled.now)) claimed at.now.items
        (lines_in lists.now.first.list.items) (lines_in lists.now.second.list.items) refusal.fault) }
{
    match claimed {
        Claimed::Won(player, moves) => show_win(
            alloc,
            compiled,
            player,
            at,
            moves,
            &lists.first,
            &lists.second,
        ),
        Claimed::Drawn => show_draw(alloc, compiled, at, &lists.first, &lists.second),
    }
}
