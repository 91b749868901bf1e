//! The lines of the replies in a session.

ghost use Rattle.std.specs.Prelude.{◌≡◌, ◌∷◌, [], ◌++◌, ℕ, List, codes, IfOk, OnOk, OnErr};
ghost use Rattle.std.specs.Io.KnownBytes.{Appends};
ghost use Rattle.std.specs.Fmt.{decimal};
ghost use Rattle.std.specs.List.{flat_map};
ghost use Rattle.rbg_game.specs.Meaning.{game_of};
ghost use Rattle.position_pack.specs.Texts.{variable_name, role_text};
ghost use Rattle.rbg_game.specs.declared.roles.Role.TheVariants as role;
ghost use Rattle.session_lines.specs.Replies.{value_text, row_line, spaced, line_line, pages_line};
ghost use Rattle.session_lines.specs.Counted.{counts_text, IsCountsLine, IsStatusLine, IsWorkLine};
ghost use Rattle.session_lines.specs.Parts.{AppendsPart};

use crate::puts::{put_bytes, put_decimal, put_line};
use best_line::{Row, Value};
use rbg_game::game::Game;
use rbg_game::roles::Player;
use retrograde::Counts;
use std::alloc::{AllocError, Global};
use std::io::{self, Write};

/// The name of a variable by its place; there is none for a place after the last.
fn name_of_variable(game: &Game, place: usize) -> &[u8]
    ensures { result.now ≡ variable_name (game_of game.now) place }
{
    match game.variables.get(place) {
        Some(variable) => &variable.name.bytes,
        None => &[],
    }
}

/// The name of a player: the players are the first two variables.
fn name_of_player(game: &Game, player: Player) -> &[u8]
    ensures { result.now ≡ role_text (game_of game.now) (role.Player player) }
{
    match player {
        Player::First => name_of_variable(game, 0),
        Player::Second => name_of_variable(game, 1),
    }
}

/// Puts a number after a line.
pub(crate) fn put_number(alloc: Global, line: &mut Vec<u8>, number: u32) -> Result<(), AllocError>
    ensures { IfOk result (λ _. line.new.items ≡ line.old.items ++ decimal number) }
{
    let number = number.to_string(alloc)?;
    line.extend_from_slice(number.as_bytes())
}

/// Puts the text of a value after a line.
pub(crate) fn put_value(
    alloc: Global,
    line: &mut Vec<u8>,
    game: &Game,
    value: Value,
) -> Result<(), AllocError>
    ensures { IfOk result (λ _. line.new.items ≡ line.old.items ++ value_text (game_of game.now) value) }
{
    match value {
        Value::Won(player, moves) => {
            line.extend_from_slice(name_of_player(game, player))?;
            line.extend_from_slice(b" in ")?;
            put_number(alloc, line, moves)
        }
        Value::Drawn => line.extend_from_slice(b"drawn"),
        Value::Open => line.extend_from_slice(b"open"),
    }
}

/// The line with a value.
pub fn value_line(alloc: Global, game: &Game, value: Value) -> Result<Vec<u8>, AllocError>
    ensures { IfOk result (λ line. line.items ≡ value_text (game_of game.now) value ++ 10 ∷ []) }
{
    let mut line = Vec::new(alloc);
    put_value(alloc, &mut line, game, value)?;
    line.push(b'\n')?;
    Ok(line)
}

/// Puts a line after the text: the number of a position and its value.
fn put_row(alloc: Global, text: &mut Vec<u8>, game: &Game, row: Row) -> Result<(), AllocError>
    ensures { IfOk result (λ _. text.new.items ≡ text.old.items ++ row_line (game_of game.now) row) }
{
    put_number(alloc, text, row.number)?;
    text.push(b' ')?;
    put_value(alloc, text, game, row.value)?;
    text.push(b'\n').map_err(AllocError::from)
}

/// The lines of a list, one for each position.
pub fn row_lines(alloc: Global, game: &Game, rows: &[Row]) -> Result<Vec<u8>, AllocError>
    ensures { IfOk result (λ text. text.items ≡ flat_map (row_line (game_of game.now)) rows.now) }
{
    let mut text = Vec::new(alloc);
    for row in rows {
        put_row(alloc, &mut text, game, *row)?;
    }
    Ok(text)
}

/// Puts a space and a number after a line.
fn put_spaced(alloc: Global, line: &mut Vec<u8>, number: u32) -> Result<(), AllocError>
    ensures { IfOk result (λ _. line.new.items ≡ line.old.items ++ spaced number) }
{
    line.push(b' ')?;
    put_number(alloc, line, number)
}

/// The line with the numbers of a play.
pub fn numbers_line(alloc: Global, numbers: &[u32]) -> Result<Vec<u8>, AllocError>
    ensures { IfOk result (λ line. line.items ≡ line_line numbers.now) }
{
    let mut line = Vec::new(alloc);
    line.extend_from_slice(b"line")?;
    for number in numbers {
        put_spaced(alloc, &mut line, *number)?;
    }
    line.push(b'\n')?;
    Ok(line)
}

/// The line with the number of a position that was found.
pub fn found_line(alloc: Global, number: u32) -> Result<Vec<u8>, AllocError>
    ensures { IfOk result (λ line. line.items ≡ codes "number " ++ decimal number ++ 10 ∷ []) }
{
    let mut line = Vec::new(alloc);
    line.extend_from_slice(b"number ")?;
    put_number(alloc, &mut line, number)?;
    line.push(b'\n')?;
    Ok(line)
}

/// Writes the line that tells what work was done, at once. It takes no memory.
pub fn put_work<W: Write>(out: &mut W, units: u32, counts: Counts) -> io::Result<()>
    ensures all { OnOk result ((line : List ℕ) × IsWorkLine units counts line × Appends (W.contents out.old) (W.contents out.new) line) }
    ensures part { OnErr result ((line : List ℕ) × IsWorkLine units counts line × AppendsPart (W.contents out.old) (W.contents out.new) line) }
{
    put_field(out, b"units ", units)?;
    put_bytes(out, b" ")?;
    put_counts(out, counts)
}

/// Writes the line that tells how far a table is, at once; `no game` where there is none. It takes no memory.
pub fn put_status<W: Write>(out: &mut W, counts: Option<Counts>) -> io::Result<()>
    ensures all { OnOk result ((line : List ℕ) × IsStatusLine counts line × Appends (W.contents out.old) (W.contents out.new) line) }
    ensures part { OnErr result ((line : List ℕ) × IsStatusLine counts line × AppendsPart (W.contents out.old) (W.contents out.new) line) }
{
    match counts {
        Some(counts) => put_counts(out, counts),
        None => put_line(out, b"no game\n"),
    }
}

/// Writes a number behind what it counts.
pub(crate) fn put_field<W: Write>(out: &mut W, name: &[u8], number: u32) -> io::Result<()>
    ensures all { OnOk result (Appends (W.contents out.old) (W.contents out.new) (name.now ++ decimal number)) }
    ensures part { OnErr result (AppendsPart (W.contents out.old) (W.contents out.new) (name.now ++ decimal number)) }
{
    put_bytes(out, name)?;
    put_decimal(out, number)
}

/// Writes the line that tells how full a table of this many pages is, of which so many are free. It takes no memory.
pub fn put_pages<W: Write>(out: &mut W, pages: u32, free: u32) -> io::Result<()>
    ensures all { OnOk result (Appends (W.contents out.old) (W.contents out.new) (pages_line pages free)) }
    ensures part { OnErr result (AppendsPart (W.contents out.old) (W.contents out.new) (pages_line pages free)) }
{
    put_field(out, b"pages ", pages)?;
    put_field(out, b" used ", pages.saturating_sub(free))?;
    put_field(out, b" free ", free)?;
    put_line(out, b"\n")
}

/// Writes how far a table is, as a line.
fn put_counts<W: Write>(out: &mut W, counts: Counts) -> io::Result<()>
    ensures all { OnOk result ((line : List ℕ) × IsCountsLine counts line × Appends (W.contents out.old) (W.contents out.new) line) }
    ensures part { OnErr result ((line : List ℕ) × IsCountsLine counts line × AppendsPart (W.contents out.old) (W.contents out.new) line) }
{
    put_fields(out, counts)?;
    if counts.expanded == counts.known && counts.processed == counts.settled {
        put_line(out, b" finished\n")
    } else {
        put_line(out, b" open\n")
    }
}

/// Writes the counts of a table, each behind its name.
fn put_fields<W: Write>(out: &mut W, counts: Counts) -> io::Result<()>
    ensures all { OnOk result (Appends (W.contents out.old) (W.contents out.new) (counts_text counts)) }
    ensures part { OnErr result (AppendsPart (W.contents out.old) (W.contents out.new) (counts_text counts)) }
{
    let Counts {
        known,
        expanded,
        settled,
        processed,
    } = counts;
    put_field(out, b"known ", known)?;
    put_field(out, b" expanded ", expanded)?;
    put_field(out, b" settled ", settled)?;
    put_field(out, b" processed ", processed)
}
