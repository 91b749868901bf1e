//! The check of a certificate.
ghost use Rattle.std.specs.Prelude.{◌≡◌, ◌↔◌, true, IfOk, IfErr, OnOk, option_map};
ghost use Rattle.rbg_game.specs.Goals.{points_of};
ghost use Rattle.rbg_game.specs.Meaning.{game_of};
ghost use Rattle.rbg_game.specs.Names.{HasProperNames};
ghost use Rattle.rbg_game.specs.Sound.{IsSoundGame};
ghost use Rattle.position_pack.specs.Packings.{packed_by};
ghost use Rattle.position_pack.specs.Shape.{shape_of};
ghost use Rattle.position_pack.specs.Spelled.{IsSpelled};
ghost use Rattle.position_pack.specs.declared.kind.PackingKind.TheVariants.{Bits};
ghost use Rattle.rbg_read.specs.Reads.{Reads};
ghost use Rattle.legal_moves.specs.Sources.{graph_of};
ghost use Rattle.certificate.specs.Claims.{IsCertified, IsClaimSo, IsTheGiven, value_text};
ghost use Rattle.certificate.specs.Refusals.{IsClaimCounted, IsCertificateRefused, IsUnclaimed};
ghost use Rattle.certificate.specs.Right.{ShowsThis};
ghost use Rattle.certificate.specs.lemmas.Reasons.{AreTheLists, IsNoGame, IsNotShown};

use crate::claim::{Claimed, claimed_in};
use crate::fault::{CertificateFault, Refusal};
use crate::head::{Head, head_in};
use crate::limits::MAX_CERTIFICATE_BYTES;
use crate::shown::show_value;
use legal_moves::{Compiled, Goal};
use position_pack::{PackingKind, read_position};
use rbg_game::game::Game;
use rbg_game::position::Position;
use rbg_read::read::read_game;
use std::alloc::Global;

/// What a certificate has shown.
#[derive(Clone, Copy)]
pub struct Certified<'a> {
    /// The value, as `white in 10` or `drawn`.
    pub value: &'a [u8],
    /// The text of the position that has it.
    pub position: &'a [u8],
    /// The value as who wins, and in how many moves.
    pub claimed: Claimed,
    /// How many positions stand in the certificate's lists: the moves of each were looked at.
    pub looked: usize,
}

/// What a head claims of a position of a game.
#[derive(Drop)]
struct Claim {
    at: Position,
    claimed: Claimed,
}

/// Checks a certificate. If a text of a game is given beside it, that of the certificate has to be the same, byte for byte.
///
/// An answer means that the position has the value by the rules of the game that the text in the certificate reads to, and that the certificate
/// is accepted whenever it is checked, but for want of memory (`IsAcceptable`). A refusal has the cause that its fault says.
pub fn check<'a>(
    alloc: Global,
    certificate: &'a [u8],
    text: Option<&[u8]>,
) -> Result<Certified<'a>, Refusal>
    ensures shown { IfOk result (λ shown. IsCertified certificate.now (option_map (λ given. given.now) text.entry) shown.position.now
        shown.value.now) }
    ensures shows { IfOk result (λ shown. ShowsThis certificate.now (option_map (λ given. given.now) text.entry) shown.position.now
        shown.claimed) }
    ensures refused { IfErr result (λ refusal. IsCertificateRefused certificate.now (option_map (λ given. given.now) text.entry) refusal.fault) }
{
    if certificate.len() > MAX_CERTIFICATE_BYTES {
        return Err(Refusal::at(CertificateFault::Malformed, certificate));
    }
    let head = head_in(certificate)?;
    let game = game_in(alloc, &head)?;
    if !is_given(head.text, text) {
        return Err(Refusal::at(CertificateFault::OtherGame, head.from_text));
    }
    let claim = claim_in(&game, &head)?;
    let looked = show_claim(alloc, game, head.goal, &claim, head.lists)?;
    Ok(Certified {
        value: head.value,
        position: head.position,
        claimed: claim.claimed,
        looked,
    })
}

/// The game that the text in a certificate reads to.
fn game_in(alloc: Global, head: &Head<'_>) -> Result<Game, Refusal>
    ensures reads { IfOk result (λ game. Reads head.now.text.now (game_of game)) }
    ensures sound { IfOk result (λ game. IsSoundGame (game_of game)) }
    ensures names { IfOk result (λ game. HasProperNames (game_of game)) }
    ensures fault { IfErr result (λ refusal. IsNoGame head.now.text.now refusal.fault) }
{
    match read_game(alloc, head.text) {
        Ok(game) => Ok(game),
        Err(fault) => Err(Refusal::at(CertificateFault::from(fault), head.from_text)),
    }
}

/// Whether this is the text that was given, if one was.
fn is_given(mine: &[u8], text: Option<&[u8]>) -> bool
    ensures { (result ≡ true) ↔ IsTheGiven (option_map (λ given. given.now) text.entry) mine.now }
{
    match text {
        Some(text) => mine == text,
        None => true,
    }
}

/// What the head of a certificate claims of a position of this game.
fn claim_in(game: &Game, head: &Head<'_>) -> Result<Claim, Refusal>
    requires sound { IsSoundGame (game_of game.now) }
    requires names { HasProperNames (game_of game.now) }
    ensures spelled { IfOk result (λ claim. IsSpelled (game_of game.now) claim.at head.now.position.now) }
    ensures named { IfOk result (λ claim. head.now.value.now ≡ value_text (game_of game.now) claim.claimed) }
    ensures counted { IfOk result (λ claim. IsClaimCounted claim.claimed) }
    ensures fault { IfErr result (λ refusal. IsUnclaimed (game_of game.now) head.now.position.now head.now.value.now refusal.fault) }
{
    let Some(at) = read_position(game, head.position) else {
        return Err(Refusal::at(CertificateFault::NoPosition, head.from_position));
    };
    let Some(claimed) = claimed_in(game, head.value) else {
        return Err(Refusal::at(CertificateFault::Malformed, head.from_value));
    };
    Ok(Claim { at, claimed })
}

/// That what is claimed is so, by the lists of the certificate; and how many positions stand in them.
fn show_claim(
    alloc: Global,
    game: Game,
    goal: Option<Goal>,
    claim: &Claim,
    lists: &[u8],
) -> Result<usize, Refusal>
    requires { IsSoundGame (game_of game) }
    ensures so { OnOk result (IsClaimSo (graph_of Bits (points_of goal) (game_of game)) claim.now.claimed
        (packed_by Bits (shape_of (game_of game)) claim.now.at)) }
    ensures shown { OnOk result (AreTheLists (game_of game) (points_of goal) claim.now.claimed
        (packed_by Bits (shape_of (game_of game)) claim.now.at) lists.now) }
    ensures fault { IfErr result (λ refusal. IsNotShown (game_of game) (points_of goal) claim.now.claimed
        (packed_by Bits (shape_of (game_of game)) claim.now.at) lists.now refusal.fault) }
{
    let compiled = Compiled::new(alloc, game, PackingKind::Bits, goal)?;
    let at = compiled.packing().pack(&claim.at);
    show_value(alloc, &compiled, &at, claim.claimed, lists)
}
