//! What a certificate claims, as text.
ghost use Rattle.std.specs.Prelude.{◌≡◌, ◌≢◌, ◌<◌, ◌^◌, ◌++◌, ℕ, codes, IfOk, MatchOption};
ghost use Rattle.std.specs.Fmt.{decimal};
ghost use Rattle.rbg_game.specs.Goals.{points_of};
ghost use Rattle.rbg_game.specs.Meaning.{game_of};
ghost use Rattle.rbg_game.specs.Sound.{IsSoundGame};
ghost use Rattle.rbg_game.specs.declared.roles.Role.TheVariants as role;
ghost use Rattle.position_pack.specs.Texts.{role_text};
ghost use Rattle.certificate.specs.Claims.{goal_line, head_of, value_text};
ghost use Rattle.certificate.specs.Refusals.{IsClaimCounted};
ghost use Rattle.certificate.specs.declared.claim.Claimed.{Claimed as SpecClaimed};

use crate::lines::{after, number};
use crate::manner::Manner;
use rbg_game::game::Game;
use rbg_game::goal::Goal;
use rbg_game::roles::Player;
use std::alloc::{AllocError, Global};

/// The value of a position: who wins it, and in how many moves, or that nobody does.
#[derive(Clone, Copy, PartialEq, Eq, Debug, Drop)]
pub enum Claimed {
    Won(Player, u32),
    Drawn,
}

impl Claimed {
    ghost use Rattle.std.specs.Prelude.{◌≡◌};
    ghost use Rattle.certificate.specs.Format.{first_manner, first_player, second_manner, second_player};

    /// What the first of the two lists that show it says.
    pub fn first_manner(self) -> Manner
        ensures { result ≡ first_manner self }
    {
        match self {
            Claimed::Won(_, _) => Manner::AtMost,
            Claimed::Drawn => Manner::Never,
        }
    }

    /// What the second says.
    pub fn second_manner(self) -> Manner
        ensures { result ≡ second_manner self }
    {
        match self {
            Claimed::Won(_, _) => Manner::AtLeast,
            Claimed::Drawn => Manner::Never,
        }
    }

    /// Of whom the first is.
    pub fn first_player(self) -> Player
        ensures { result ≡ first_player self }
    {
        match self {
            Claimed::Won(player, _) => player,
            Claimed::Drawn => Player::First,
        }
    }

    /// Of whom the second is.
    pub fn second_player(self) -> Player
        ensures { result ≡ second_player self }
    {
        match self {
            Claimed::Won(player, _) => player,
            Claimed::Drawn => Player::Second,
        }
    }
}

/// The value that these bytes write.
pub(crate) fn claimed_in(game: &Game, value: &[u8]) -> Option<Claimed>
    requires { IsSoundGame (game_of game.now) }
    ensures { MatchOption result ((claimed : SpecClaimed) → IsClaimCounted claimed → value.now ≢ value_text (game_of game.now) claimed)
        (λ claimed. IsClaimCounted claimed × (value.now ≡ value_text (game_of game.now) claimed)) }
{
    if value == b"drawn".as_slice() {
        return Some(Claimed::Drawn);
    }
    match moves_of(value, name_of(game, Player::First)) {
        Some(moves) => Some(Claimed::Won(Player::First, moves)),
        None => match moves_of(value, name_of(game, Player::Second)) {
            Some(moves) => Some(Claimed::Won(Player::Second, moves)),
            None => None,
        },
    }
}

/// In how many moves the player with this name wins, as these bytes write it.
fn moves_of(value: &[u8], name: &[u8]) -> Option<u32>
    ensures { MatchOption result ((moves : ℕ) → moves < 2 ^ 32 → value.now ≢ name.now ++ codes " in " ++ decimal moves)
        (λ moves. (moves < 2 ^ 32) × (value.now ≡ name.now ++ codes " in " ++ decimal moves)) }
{
    let behind = after(value, name)?;
    let digits = after(behind, b" in ")?;
    number(digits)
}

/// The name of a player: the players are the first two variables.
pub fn name_of(game: &Game, player: Player) -> &[u8]
    requires { IsSoundGame (game_of game.now) }
    ensures { result.now ≡ role_text (game_of game.now) (role.Player player) }
{
    match player {
        Player::First => &game.variables[0].name.bytes,
        Player::Second => &game.variables[1].name.bytes,
    }
}

/// The text of a value, as `white in 3`, or `drawn`.
pub fn value_of(alloc: Global, game: &Game, claimed: Claimed) -> Result<Vec<u8>, AllocError>
    requires { IsSoundGame (game_of game.now) }
    ensures { IfOk result (λ text. text.items ≡ value_text (game_of game.now) claimed) }
{
    let mut text = Vec::new(alloc);
    match claimed {
        Claimed::Won(player, moves) => {
            text.extend_from_slice(name_of(game, player))?;
            text.extend_from_slice(b" in ")?;
            put_number(alloc, &mut text, moves)?;
        }
        Claimed::Drawn => text.extend_from_slice(b"drawn")?,
    }
    Ok(text)
}

/// Puts a number after a text.
fn put_number(alloc: Global, text: &mut Vec<u8>, number: u32) -> Result<(), AllocError>
    ensures { IfOk result (λ _. text.new.items ≡ text.old.items ++ decimal number) }
{
    let digits = number.to_string(alloc)?;
    text.extend_from_slice(digits.as_bytes())
}

/// Puts the line of a goal after a text, where there is one.
fn put_goal(alloc: Global, text: &mut Vec<u8>, goal: Option<Goal>) -> Result<(), AllocError>
    ensures { IfOk result (λ _. text.new.items ≡ text.old.items ++ goal_line (points_of goal)) }
{
    match goal {
        Some(goal) => {
            text.extend_from_slice(b"goal ")?;
            put_number(alloc, text, goal.points())?;
            text.extend_from_slice(b"\n")
        }
        None => Ok(()),
    }
}

/// How a certificate begins that claims this of the position with this text.
pub fn written_head(
    alloc: Global,
    goal: Option<Goal>,
    text: &[u8],
    position: &[u8],
    value: &[u8],
) -> Result<Vec<u8>, AllocError>
    ensures { IfOk result (λ head. head.items ≡ head_of (points_of goal) text.now position.now value.now) }
{
    let mut head = Vec::new(alloc);
    head.extend_from_slice(b"rbgsolve certificate 1\n")?;
    put_goal(alloc, &mut head, goal)?;
    head.extend_from_slice(b"text ")?;
    let length = text.len().to_string(alloc)?;
    head.extend_from_slice(length.as_bytes())?;
    head.push(b'\n')?;
    head.extend_from_slice(text)?;
    head.extend_from_slice(b"\nposition ")?;
    head.extend_from_slice(position)?;
    head.extend_from_slice(b"\nvalue ")?;
    head.extend_from_slice(value)?;
    head.push(b'\n')?;
    Ok(head)
}
