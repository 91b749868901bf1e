//! Positions as bytes and as text.
ghost use Rattle.std.specs.Prelude.{IfOk};
ghost use Rattle.rbg_game.specs.Meaning.{game_of};
ghost use Rattle.rbg_game.specs.Names.{HasProperNames};
ghost use Rattle.rbg_game.specs.Sound.{IsSoundGame};

use position_pack::{Packing, PackingKind, read_position};
use rbg_game::game::Game;
use rbg_game::position::Position;
use rbg_game::roles::{Player, Role};
use rbg_read::laws::what_is_read_has_proper_names;
use rbg_read::read::read_game;
use std::alloc::Global;
use std::test::Fail;
use test_aids::{TAKE, expect};

/// The game of a text.
fn game(alloc: Global, text: &str) -> Result<Game, Fail>
    ensures sound { IfOk result (λ game. IsSoundGame (game_of game)) }
    ensures names { IfOk result (λ game. HasProperNames (game_of game)) }
{
    let game = read_game(alloc, text.as_bytes())?;
    what_is_read_has_proper_names();
    Ok(game)
}

/// The position of the game with this text.
fn position(alloc: Global, game_text: &str, text: &[u8]) -> Result<Option<Position>, Fail> {
    let game = game(alloc, game_text)?;
    Ok(read_position(&game, text))
}

/// How the positions of takes are packed.
fn packing(alloc: Global, kind: PackingKind) -> Result<Packing, Fail> {
    let game = game(alloc, TAKE)?;
    Ok(Packing::new(&game, kind))
}

/// Expects of a position this role, place and values.
fn expect_fields(
    at: &Position,
    (mover, place, values): (Role, u16, &[u32]),
    text: &str,
) -> Result<(), Fail> {
    expect(at.state.mover, mover, text)?;
    expect(at.place, place, text)?;
    expect(at.state.values.as_slice(), values, text)
}

const WHITE: Role = Role::Player(Player::First);

const BLACK: Role = Role::Player(Player::Second);

/// Texts of positions of takes, with the role, the place and the values, and their bytes. There are eleven places.
const POSITIONS: [(&str, (Role, u16, &[u32]), [u8; 14]); 4] = [
    (
        ">> 2 v e 0,0,3",
        (Role::Keeper, 2, &[0, 0, 3]),
        [0, 0, 0, 0, 0, 0, 0, 0, 0, 3, 0, 0, 0, 2],
    ),
    (
        "white 2 v e 0,0,3",
        (WHITE, 2, &[0, 0, 3]),
        [0, 0, 0, 0, 0, 0, 0, 0, 0, 3, 0, 1, 0, 2],
    ),
    (
        "white 2 v e 0,1,0",
        (WHITE, 2, &[0, 1, 0]),
        [0, 0, 0, 0, 0, 0, 1, 0, 0, 0, 0, 1, 0, 2],
    ),
    (
        "white 11 v e 0,0,0",
        (WHITE, 11, &[0, 0, 0]),
        [0, 0, 0, 0, 0, 0, 0, 0, 0, 0, 0, 1, 0, 11],
    ),
];

/// Expects that a position has these bytes, and the bytes these fields.
fn expect_bytes(
    packing: &Packing,
    at: &Position,
    fields: (Role, u16, &[u32]),
    bytes: &[u8],
) -> Result<(), Fail> {
    expect(packing.pack(at).as_slice(), bytes, "the bytes")?;
    let again = packing.unpack(bytes).ok_or("no position")?;
    expect_fields(&again, fields, "the bytes")
}

/// Expects of the text of a position of takes these fields and these bytes.
fn expect_position(
    alloc: Global,
    packing: &Packing,
    text: &str,
    fields: (Role, u16, &[u32]),
    bytes: &[u8],
) -> Result<(), Fail> {
    let at = position(alloc, TAKE, text.as_bytes())?.ok_or("no position")?;
    expect_fields(&at, fields, text)?;
    expect_bytes(packing, &at, fields, bytes)
}

/// Expects of these texts of positions the fields and the bytes beside them.
fn expect_positions(
    alloc: Global,
    rows: &[(&str, (Role, u16, &[u32]), [u8; 14])],
) -> Result<(), Fail> {
    let packing = packing(alloc, PackingKind::Bytes)?;
    for (text, fields, bytes) in rows {
        expect_position(alloc, &packing, text, *fields, bytes)?;
    }
    Ok(())
}

#[test]
fn a_position_has_its_text_and_its_bytes(rt: HostRuntime) -> Result<(), Fail> {
    expect_positions(rt.alloc(), &POSITIONS)
}

/// Bytes of no position of takes, each with one field out of its range, and two of other lengths.
const NO_BYTES: [&[u8]; 8] = [
    &[1, 0, 0, 0, 0, 0, 0, 0, 0, 0, 0, 1, 0, 2],
    &[0, 0, 0, 2, 0, 0, 0, 0, 0, 0, 0, 1, 0, 2],
    &[0, 0, 0, 0, 0, 0, 0, 1, 0, 0, 0, 1, 0, 2],
    &[0, 0, 0, 0, 0, 0, 0, 0, 0, 0, 1, 1, 0, 2],
    &[0, 0, 0, 0, 0, 0, 0, 0, 0, 0, 0, 3, 0, 2],
    &[0, 0, 0, 0, 0, 0, 0, 0, 0, 0, 0, 1, 0, 12],
    &[0, 0, 0],
    &[0; 15],
];

#[test]
fn only_canonical_bytes_are_a_position(rt: HostRuntime) -> Result<(), Fail> {
    let packing = packing(rt.alloc(), PackingKind::Bytes)?;
    for bytes in &NO_BYTES {
        expect(
            packing.unpack(bytes).is_none(),
            true,
            "bytes of no position",
        )?;
    }
    Ok(())
}

/// Texts of positions of takes, with the role, the place and the values, and their bytes by bits.
const POSITIONS_BY_BITS: [(&str, (Role, u16, &[u32]), [u8; 2]); 5] = [
    (
        ">> 0 v e 0,0,0",
        (Role::Keeper, 0, &[0, 0, 0]),
        [0x00, 0x00],
    ),
    ("white 2 v e 0,0,3", (WHITE, 2, &[0, 0, 3]), [0x34, 0x80]),
    ("black 7 v e 1,0,2", (BLACK, 7, &[1, 0, 2]), [0xA9, 0xC0]),
    ("black 7 v e 1,0,0", (BLACK, 7, &[1, 0, 0]), [0x89, 0xC0]),
    ("white 2 v e 0,1,0", (WHITE, 2, &[0, 1, 0]), [0x44, 0x80]),
];

#[test]
fn a_position_has_its_bytes_by_bits(rt: HostRuntime) -> Result<(), Fail> {
    let packing = packing(rt.alloc(), PackingKind::Bits)?;
    for (text, fields, bytes) in &POSITIONS_BY_BITS {
        expect_position(rt.alloc(), &packing, text, *fields, bytes)?;
    }
    Ok(())
}

/// Bytes of no position of takes by bits: a bit after the last that is set, a role of 3, a place of 12, and other lengths.
const NO_BYTES_BY_BITS: [&[u8]; 7] = [
    &[0x34, 0x81],
    &[0x34, 0xA0],
    &[0x0C, 0x00],
    &[0x03, 0x00],
    &[0x34],
    &[0x34, 0x80, 0x00],
    &[],
];

#[test]
fn only_canonical_bits_are_a_position(rt: HostRuntime) -> Result<(), Fail> {
    let packing = packing(rt.alloc(), PackingKind::Bits)?;
    for bytes in &NO_BYTES_BY_BITS {
        expect(
            packing.unpack(bytes).is_none(),
            true,
            "bytes of no position",
        )?;
    }
    Ok(())
}

/// A walk between nine places, kept in a variable.
const FORK: &str = "#players = white(1), black(1)
#pieces = e
#variables = s(7)
#board = v[e]{}
#rules =
    [$white=1] ->white
    (
        ({$ s==0}([$s=1]+[$s=2]+[$s=3]) + {$ s==4}[$s=1] + {$ s==5}([$s=6]+[$s=7])) ->black
        ({$ s==2}[$s=4] + {$ s==3}[$s=5] + {$ s==6}[$s=4]) ->white
    )*
";

/// How many bytes a position of the game has, by bytes and by bits.
fn lengths(alloc: Global, game_text: &str) -> Result<(usize, usize), Fail> {
    let game = game(alloc, game_text)?;
    let by_bytes = Packing::new(&game, PackingKind::Bytes);
    let by_bits = Packing::new(&game, PackingKind::Bits);
    Ok((by_bytes.length(), by_bits.length()))
}

#[test]
fn bits_take_fewer_bytes(rt: HostRuntime) -> Result<(), Fail> {
    expect(lengths(rt.alloc(), TAKE)?, (14, 2), "takes")?;
    expect(lengths(rt.alloc(), FORK)?, (14, 2), "a fork")?;
    expect(lengths(rt.alloc(), MILLION)?, (14, 4), "a million")
}

/// The game of a bound of a million.
const MILLION: &str =
    "#players = white(1), black(1) #pieces = e #variables = n(1000000) #board = v[e]{} #rules = ->white";

/// Texts, and the last value of the position of takes with this text, if there is one. There is none with too few words
/// or values, with a number that is written otherwise, or with one over its bound.
const TAKE_VALUES: [(&str, Option<u32>); 18] = [
    ("", None),
    (">>", None),
    (">> 2 v e 0", None),
    (">> 2 v e 0,0", None),
    (">> 2 v e 0,0,\u{ff}", None),
    (">> 12 v e 0,0,3", None),
    (">> 2 v e 0,0,3", Some(3)),
    (">> 2 v e 0,1,2", Some(2)),
    (">> 2 v e", None),
    (">> 2 v e ", None),
    (">> 2 v e 0 0,3", None),
    (">> 2 v e 0,0,", None),
    (">> 2 v e 0,0,03", None),
    (">> 2 v e 0,0,00", None),
    (">> 2 v e 0,0,+3", None),
    (">> 2 v e 0,0,-0", None),
    (">> 2 v e 0,0,3 ", None),
    (">> 2 v e 0,0,4", None),
];

/// Texts of values in the game with a bound of a million, each with the value that it writes.
const MILLION_VALUES: [(&str, Option<u32>); 7] = [
    (">> 0 v e 0,0,0", Some(0)),
    (">> 0 v e 0,0,1000000", Some(1_000_000)),
    (">> 0 v e 0,0,1000001", None),
    (">> 0 v e 0,0,4294967295", None),
    (">> 0 v e 0,0,4294967296", None),
    (">> 0 v e 0,0,99999999999", None),
    (">> 0 v e 0,0,99999999999999999999999", None),
];

/// The last value of the position with this text.
fn last_value(alloc: Global, game_text: &str, text: &[u8]) -> Result<Option<u32>, Fail> {
    match position(alloc, game_text, text)? {
        Some(at) => Ok(at.state.values.last().copied()),
        None => Ok(None),
    }
}

/// Expects of each of these texts the value beside it.
fn expect_values(alloc: Global, game_text: &str, rows: &[(&str, Option<u32>)]) -> Result<(), Fail> {
    for (text, want) in rows {
        expect(last_value(alloc, game_text, text.as_bytes())?, *want, text)?;
    }
    Ok(())
}

#[test]
fn a_value_has_one_spelling(rt: HostRuntime) -> Result<(), Fail> {
    expect_values(rt.alloc(), TAKE, &TAKE_VALUES)?;
    expect_values(rt.alloc(), MILLION, &MILLION_VALUES)?;
    let no_text = last_value(rt.alloc(), TAKE, b">> 2 v e 0,0,\xff")?;
    expect(no_text, None, "a byte that begins no character")
}
