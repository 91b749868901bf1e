//! The list of a game's numbered actions.

ghost use Rattle.std.specs.Prelude.{◌≡◌, ◌≢◌, ◌<◌, ◌≤◌, ◌++◌, ℕ, List, All, map, length, IfOk, IfErr};
ghost use Rattle.rbg_game.specs.Games.{Game as TextbookGame};
ghost use Rattle.rbg_text.specs.Syntax.{Section};
ghost use Rattle.rbg_text.specs.Syntax as grammar;
ghost use Rattle.rbg_read.specs.Reads.{Reads, Fault, Parses};
ghost use Rattle.numbered_actions.specs.Listed.{ListsActions, AreActionLines, head_of};
ghost use Rattle.numbered_actions.specs.Placed.{Stand};
ghost use Rattle.numbered_actions.specs.Tokens.{tokens_of, cut_of};
ghost use Rattle.numbered_actions.specs.Written.{Spot, spots_of, cut_at};
ghost use Rattle.numbered_actions.specs.lemmas.Lines.{line_of, IsLineOfStretch};

use crate::lexemes::{Lexeme, lexemes};
use crate::lines::{LineColumn, line_column, put_tokens};
use crate::stretches::{Stretch, numbered_actions};
use rbg_game::game::Game;
use rbg_read::fault::GameFault;
use rbg_read::read::read_game;
use rbg_text::fault::ReadError;
use std::alloc::{AllocError, Global};

/// The numbered actions of the game that the text reads to, one a line: `NUMBER LINE:COLUMN TEXT`, where the action begins in the text,
/// and as it stands there. Or the first cause for which the text is no game.
pub fn action_lines(alloc: Global, text: &[u8]) -> Result<Vec<u8>, GameFault>
    ensures listed { IfOk result (λ lines. (game : TextbookGame) × Reads text.now game × ListsActions text.now game lines.items) }
    ensures fault { IfErr result (λ fault. fault ≢ GameFault.OutOfMemory → Fault text.now fault) }
    // A text that reads to a game is refused for want of memory alone.
    ensures only { (game : TextbookGame) → Reads text.now game → IfErr result (λ fault. fault ≡ GameFault.OutOfMemory) }
{
    expect_game(alloc, text)?;
    Ok(lines_of_actions(alloc, text)?)
}

/// The first cause for which the text is no game, if it is none.
fn expect_game(alloc: Global, text: &[u8]) -> Result<(), GameFault>
    ensures reads { IfOk result (λ _. (game : TextbookGame) × Reads text.now game) }
    ensures fault { IfErr result (λ fault. fault ≢ GameFault.OutOfMemory → Fault text.now fault) }
    ensures only { (game : TextbookGame) → Reads text.now game → IfErr result (λ fault. fault ≡ GameFault.OutOfMemory) }
{
    let game = read_game(alloc, text)?;
    let_go(game);
    Ok(())
}

/// Frees the memory of a game.
fn let_go(_game: Game) {}

/// The lines of the numbered actions of a text that is in the grammar.
fn lines_of_actions(alloc: Global, text: &[u8]) -> Result<Vec<u8>, ReadError>
    requires { (all : List Section) × Parses text.now (grammar.text all) all }
    ensures lines { IfOk result (λ lines. (all : List Section) → Parses text.now (grammar.text all) all
        → AreActionLines text.now (map cut_at (spots_of all)) 1 lines.items) }
    ensures memory { IfErr result (λ error. error ≡ ReadError.Memory) }
{
    let tokens = lexemes(alloc, text)?;
    Ok(lines_among(alloc, text, tokens.as_slice())?)
}

/// The lines of the numbered actions among the tokens of a text that is in the grammar.
fn lines_among(alloc: Global, text: &[u8], tokens: &[Lexeme<'_>]) -> Result<Vec<u8>, AllocError>
    requires placed { Stand text.now tokens.now text.now }
    requires spelled { (all : List Section) × (tokens_of tokens.now ≡ grammar.text all) }
    ensures { IfOk result (λ lines. (all : List Section) → tokens_of tokens.now ≡ grammar.text all
        → AreActionLines text.now (map cut_at (spots_of all)) 1 lines.items) }
{
    let actions = numbered_actions(alloc, tokens)?;
    lines_of(alloc, text, tokens, actions.as_slice())
}

/// The lines of the actions that these stretches of a text's tokens are.
fn lines_of(
    alloc: Global,
    text: &[u8],
    tokens: &[Lexeme<'_>],
    actions: &[Stretch],
) -> Result<Vec<u8>, AllocError>
    requires placed { Stand text.now tokens.now text.now }
    requires cut { (spots : List Spot) × (map (cut_of tokens.now) actions.now ≡ map cut_at spots) }
    requires within { All (λ stretch. stretch.to ≤ length tokens.now) actions.now }
    ensures { IfOk result (λ lines. AreActionLines text.now (map (cut_of tokens.now) actions.now) 1 lines.items) }
{
    let mut lines = Vec::new(alloc);
    for index in 0..actions.len() {
        put_action(alloc, &mut lines, text, index + 1, tokens, actions[index])?;
    }
    Ok(lines)
}

/// Puts the line of an action after the others.
fn put_action(
    alloc: Global,
    lines: &mut Vec<u8>,
    text: &[u8],
    number: usize,
    tokens: &[Lexeme<'_>],
    action: Stretch,
) -> Result<(), AllocError>
    requires some { action.from < action.to }
    requires within { action.to ≤ length tokens.now }
    ensures { IfOk result (λ _. (line : List ℕ) × IsLineOfStretch text.now tokens.now action number line × (lines.new.items ≡ lines.old.items ++ line)) }
{
    let first = &tokens[action.from];
    let more = &tokens[action.from + 1..action.to];
    put_line(alloc, lines, text, number, first, more)
}

/// Puts the line of the action with these tokens after the others.
fn put_line(
    alloc: Global,
    lines: &mut Vec<u8>,
    text: &[u8],
    number: usize,
    first: &Lexeme<'_>,
    more: &[Lexeme<'_>],
) -> Result<(), AllocError>
    ensures { IfOk result (λ _. lines.new.items ≡ lines.old.items ++ line_of text.now number first.now more.now) }
{
    put_head(alloc, lines, text, number, first.at)?;
    lines.extend_from_slice(first.bytes)?;
    put_tokens(lines, more)?;
    lines.push(b'\n')?;
    Ok(())
}

/// Puts what stands before an action that begins at a byte: its number, and the line and the column.
fn put_head(
    alloc: Global,
    lines: &mut Vec<u8>,
    text: &[u8],
    number: usize,
    at: usize,
) -> Result<(), AllocError>
    ensures { IfOk result (λ _. lines.new.items ≡ lines.old.items ++ head_of text.now number at) }
{
    let LineColumn { line, column } = line_column(text, at);
    let head = format!(in alloc; "{number} {line}:{column} ")?;
    lines.extend_from_slice(head.as_bytes())
}
