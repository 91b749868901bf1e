//! A game as a source of moves, worked out by hand.
ghost use Rattle.std.specs.Prelude.{IfOk};
ghost use Rattle.legal_moves.specs.Compiled.{IsSoundCompiled};

use legal_moves::{Compiled, MoveSource};
use position_pack::{Packed, PackingKind};
use rbg_game::roles::{Player, Role};
use rbg_read::read::read_game;
use std::alloc::Global;
use std::test::Fail;
use test_aids::expect;

/// A pattern that looks to the right.
const LOOK: &str =
    "#players = white(1), black(1) #pieces = e, x #board = a[e]{right: b} b[e]{} #rules = {? right [x] {x}} ->white";

/// The position that it leads to: white has the turn, and nobody is ahead.
const SEEN: [u8; 12] = [0, 0, 0, 0, 0, 0, 0, 0, 0, 1, 0, 2];

/// Black has the turn and is ahead.
const BLACK_AHEAD: [u8; 12] = [0, 0, 0, 0, 0, 0, 0, 1, 0, 2, 0, 2];

/// The two positions above by bits: a bit for each piece, each score and the vertex, two for the role and two for the place.
const SEEN_BY_BITS: [u8; 2] = [0x03, 0x00];

const BLACK_AHEAD_BY_BITS: [u8; 2] = [0x15, 0x00];

/// The game of a text, made ready for its moves.
fn game_of(alloc: Global, text: &str, kind: PackingKind) -> Result<Compiled, Fail>
    ensures { IfOk result IsSoundCompiled }
{
    let game = read_game(alloc, text.as_bytes())?;
    Ok(Compiled::new(alloc, game, kind, None)?)
}

/// Expects the bytes of the only successor of the start, by the bound alone.
fn expect_only<S: MoveSource>(alloc: Global, source: &S, want: &[u8]) -> Result<(), Fail>
    requires { S.is_sound source.now }
{
    let mut found = source.successors(alloc, &source.start())?;
    let only = found.pop().ok_or("no successor")?;
    expect(only.as_slice(), want, "the successor")?;
    expect(found.len(), 0, "further successors")
}

/// Expects that bytes that are no position have no successor.
fn expect_none<S: MoveSource>(alloc: Global, source: &S) -> Result<(), Fail>
    requires { S.is_sound source.now }
{
    let found = source.successors(alloc, &Packed::new())?;
    expect(found.len(), 0, "successors of no position")
}

fn packed(bytes: &[u8]) -> Result<Packed, Fail> {
    let mut packed = Packed::new();
    packed.try_extend_from_slice(bytes)?;
    Ok(packed)
}

/// Expects of these bytes that this player has the turn, and that this one is ahead.
fn expect_turn<S: MoveSource>(
    source: &S,
    bytes: &[u8],
    turn: Player,
    ahead: Option<Player>,
) -> Result<(), Fail>
    requires { S.is_sound source.now }
{
    let at = packed(bytes)?;
    expect(source.mover(&at), Role::Player(turn), "the turn")?;
    expect(source.ahead(&at), ahead, "who is ahead")
}

/// Expects of the game of `LOOK` what is told of it by the bound alone.
fn expect_look<S: MoveSource>(alloc: Global, source: &S) -> Result<(), Fail>
    requires { S.is_sound source.now }
{
    expect_only(alloc, source, &SEEN)?;
    expect_none(alloc, source)?;
    expect_turn(source, &SEEN, Player::First, None)?;
    expect_turn(source, &BLACK_AHEAD, Player::Second, Some(Player::Second))
}

#[test]
fn a_compiled_game_is_a_source_of_moves(rt: HostRuntime) -> Result<(), Fail> {
    let source = game_of(rt.alloc(), LOOK, PackingKind::Bytes)?;
    expect_look(rt.alloc(), &source)
}

/// Expects of the game of `LOOK` the same by bits, by the bound alone.
fn expect_look_by_bits<S: MoveSource>(alloc: Global, source: &S) -> Result<(), Fail>
    requires { S.is_sound source.now }
{
    expect_only(alloc, source, &SEEN_BY_BITS)?;
    expect_none(alloc, source)?;
    expect_turn(source, &SEEN_BY_BITS, Player::First, None)?;
    expect_turn(
        source,
        &BLACK_AHEAD_BY_BITS,
        Player::Second,
        Some(Player::Second),
    )
}

#[test]
fn successors_are_packed_as_the_source_is(rt: HostRuntime) -> Result<(), Fail> {
    let source = game_of(rt.alloc(), LOOK, PackingKind::Bits)?;
    expect_look_by_bits(rt.alloc(), &source)
}
