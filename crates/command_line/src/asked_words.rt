//! What the command that was given asks for, by what was found for each of its words.
ghost use Rattle.std.specs.Prelude.{◌≡◌, ◌↔◌, ℕ, IfOk, IsTrue, MatchOption, Option, Some, codes, option_map};
ghost use Rattle.std.specs.Prelude.{string_bytes};
ghost use Rattle.clap.specs.Words.{subcommand_rows_of};
ghost use Rattle.rbg_game.specs.declared.goal.Goal.{Goal};
ghost use Rattle.command_line.specs.Commands.{AsksIfAny, word_in};
ghost use Rattle.command_line.specs.Words.{ArePagesAsked, AsksBy, AsksIn, IsAskedGoal, IsPosition, commands};
ghost use Rattle.command_line.specs.Words.{actions, audit, certify, check, create, game};
ghost use Rattle.command_line.specs.Words.{grow, load, look, migrate, moves, session};

use crate::page_counts::pages_of;
use crate::words::Words;
use clap::ArgMatches;
use line_syntax::numbers::number;
use rbg_game::goal::Goal;
use std::alloc::{AllocError, Global};

/// What the command that was given asks for; nothing where what stands for a number is none.
pub fn asked_in(alloc: Global, matches: &ArgMatches<'_>) -> Result<Option<Words>, AllocError>
    ensures { IfOk result (AsksIfAny (AsksBy (subcommand_rows_of matches.now))) }
{
    match matches.subcommand() {
        Some((name, inner)) => asked_for(alloc, name, inner),
        None => Ok(None),
    }
}

/// What the command of this name asks for, with the words after it.
fn asked_for(alloc: Global, name: &str, inner: &ArgMatches<'_>) -> Result<Option<Words>, AllocError>
    ensures { IfOk result (AsksIfAny (AsksIn commands name.now (word_in inner.now))) }
{
    match name {
        "create" => create(alloc, inner),
        "load" => load(alloc, inner),
        "session" => session(alloc, inner),
        "look" => look(alloc, inner),
        "game" => game(alloc, inner),
        "audit" => audit(alloc, inner),
        "migrate" => migrate(alloc, inner),
        "grow" => grow(alloc, inner),
        "moves" => moves(alloc, inner),
        "actions" => actions(alloc, inner),
        "certify" => certify(alloc, inner),
        "check" => check(alloc, inner),
        _ => Ok(None),
    }
}

/// `create FILE --pages N [--reserve]`.
fn create(alloc: Global, inner: &ArgMatches<'_>) -> Result<Option<Words>, AllocError>
    ensures { IfOk result (AsksIfAny (create.asks (word_in inner.now))) }
{
    let Some(pages) = pages_in(inner) else {
        return Ok(None);
    };
    let Some(file) = owned(alloc, inner, "FILE")? else {
        return Ok(None);
    };
    let is_reserved = is_given(inner, "reserve");
    Ok(Some(Words::Create {
        file,
        pages,
        is_reserved,
    }))
}

/// `load FILE GAME [--goal K]`.
fn load(alloc: Global, inner: &ArgMatches<'_>) -> Result<Option<Words>, AllocError>
    ensures { IfOk result (AsksIfAny (load.asks (word_in inner.now))) }
{
    let Some(goal) = goal_in(inner) else {
        return Ok(None);
    };
    let Some(file) = owned(alloc, inner, "FILE")? else {
        return Ok(None);
    };
    let Some(game) = owned(alloc, inner, "GAME")? else {
        return Ok(None);
    };
    Ok(Some(Words::Load { file, game, goal }))
}

/// `session FILE [--quiet]`.
fn session(alloc: Global, inner: &ArgMatches<'_>) -> Result<Option<Words>, AllocError>
    ensures { IfOk result (AsksIfAny (session.asks (word_in inner.now))) }
{
    let Some(file) = owned(alloc, inner, "FILE")? else {
        return Ok(None);
    };
    let is_quiet = is_given(inner, "quiet");
    Ok(Some(Words::Session { file, is_quiet }))
}

/// `look FILE [--quiet]`.
fn look(alloc: Global, inner: &ArgMatches<'_>) -> Result<Option<Words>, AllocError>
    ensures { IfOk result (AsksIfAny (look.asks (word_in inner.now))) }
{
    let Some(file) = owned(alloc, inner, "FILE")? else {
        return Ok(None);
    };
    let is_quiet = is_given(inner, "quiet");
    Ok(Some(Words::Look { file, is_quiet }))
}

/// `game FILE`.
fn game(alloc: Global, inner: &ArgMatches<'_>) -> Result<Option<Words>, AllocError>
    ensures { IfOk result (AsksIfAny (game.asks (word_in inner.now))) }
{
    let Some(file) = owned(alloc, inner, "FILE")? else {
        return Ok(None);
    };
    Ok(Some(Words::Game { file }))
}

/// `audit FILE [--game GAME]`.
fn audit(alloc: Global, inner: &ArgMatches<'_>) -> Result<Option<Words>, AllocError>
    ensures { IfOk result (AsksIfAny (audit.asks (word_in inner.now))) }
{
    let Some(file) = owned(alloc, inner, "FILE")? else {
        return Ok(None);
    };
    let game = owned(alloc, inner, "game")?;
    Ok(Some(Words::Audit { file, game }))
}

/// `migrate FILE`.
fn migrate(alloc: Global, inner: &ArgMatches<'_>) -> Result<Option<Words>, AllocError>
    ensures { IfOk result (AsksIfAny (migrate.asks (word_in inner.now))) }
{
    let Some(file) = owned(alloc, inner, "FILE")? else {
        return Ok(None);
    };
    Ok(Some(Words::Migrate { file }))
}

/// `grow FILE --pages N [--reserve]`.
fn grow(alloc: Global, inner: &ArgMatches<'_>) -> Result<Option<Words>, AllocError>
    ensures { IfOk result (AsksIfAny (grow.asks (word_in inner.now))) }
{
    let Some(pages) = pages_in(inner) else {
        return Ok(None);
    };
    let Some(file) = owned(alloc, inner, "FILE")? else {
        return Ok(None);
    };
    let is_reserved = is_given(inner, "reserve");
    Ok(Some(Words::Grow {
        file,
        pages,
        is_reserved,
    }))
}

/// `moves GAME [--at POSITION]`.
fn moves(alloc: Global, inner: &ArgMatches<'_>) -> Result<Option<Words>, AllocError>
    ensures { IfOk result (AsksIfAny (moves.asks (word_in inner.now))) }
{
    let Some(game) = owned(alloc, inner, "GAME")? else {
        return Ok(None);
    };
    let at = owned(alloc, inner, "at")?;
    Ok(Some(Words::Moves { game, at }))
}

/// `actions GAME`.
fn actions(alloc: Global, inner: &ArgMatches<'_>) -> Result<Option<Words>, AllocError>
    ensures { IfOk result (AsksIfAny (actions.asks (word_in inner.now))) }
{
    let Some(game) = owned(alloc, inner, "GAME")? else {
        return Ok(None);
    };
    Ok(Some(Words::Actions { game }))
}

/// `certify FILE [NUMBER]`.
fn certify(alloc: Global, inner: &ArgMatches<'_>) -> Result<Option<Words>, AllocError>
    ensures { IfOk result (AsksIfAny (certify.asks (word_in inner.now))) }
{
    let Some(number) = position_in(inner) else {
        return Ok(None);
    };
    let Some(file) = owned(alloc, inner, "FILE")? else {
        return Ok(None);
    };
    Ok(Some(Words::Certify { file, number }))
}

/// `check CERTIFICATE [GAME]`.
fn check(alloc: Global, inner: &ArgMatches<'_>) -> Result<Option<Words>, AllocError>
    ensures { IfOk result (AsksIfAny (check.asks (word_in inner.now))) }
{
    let Some(certificate) = owned(alloc, inner, "CERTIFICATE")? else {
        return Ok(None);
    };
    let game = owned(alloc, inner, "GAME")?;
    Ok(Some(Words::Check { certificate, game }))
}

/// The pages that stand after `--pages`.
fn pages_in(matches: &ArgMatches<'_>) -> Option<u32>
    ensures { MatchOption result ((pages : ℕ) → ¬ ArePagesAsked (word_in matches.now (codes "pages")) pages)
        (ArePagesAsked (word_in matches.now (codes "pages"))) }
{
    pages_of(word(matches, "pages")?)
}

/// The number of a position that was given, 0 if none was.
fn position_in(matches: &ArgMatches<'_>) -> Option<u32>
    ensures { MatchOption result ((number : ℕ) → ¬ IsPosition (word_in matches.now (codes "NUMBER")) number)
        (IsPosition (word_in matches.now (codes "NUMBER"))) }
{
    match word(matches, "NUMBER") {
        Some(word) => number(word.as_bytes()),
        None => Some(0),
    }
}

/// The goal that was given, if one was; nothing where the word for it is none.
fn goal_in(matches: &ArgMatches<'_>) -> Option<Option<Goal>>
    ensures { MatchOption result ((goal : Option Goal) → ¬ IsAskedGoal (word_in matches.now (codes "goal")) goal)
        (IsAskedGoal (word_in matches.now (codes "goal"))) }
{
    let Some(word) = word(matches, "goal") else {
        return Some(None);
    };
    let points = number(word.as_bytes())?;
    let goal = Goal::new(points)?;
    Some(Some(goal))
}

/// Whether this option was given, which stands alone.
fn is_given(matches: &ArgMatches<'_>, id: &str) -> bool
    ensures { IsTrue result ↔ (word_in matches.now id.now ≡ Some (codes "true")) }
{
    match word(matches, id) {
        Some(word) => word == "true",
        None => false,
    }
}

/// The word that was given for this argument, if one was.
fn owned(alloc: Global, matches: &ArgMatches<'_>, id: &str) -> Result<Option<String>, AllocError>
    ensures { IfOk result (λ word. word_in matches.now id.now ≡ option_map string_bytes word) }
{
    match word(matches, id) {
        Some(word) => Ok(Some(String::from_str(alloc, word)?)),
        None => Ok(None),
    }
}

/// The word that was given for this argument, if one was, as a part of the command line.
fn word<'a>(matches: &ArgMatches<'a>, id: &str) -> Option<&'a str>
    ensures { option_map (λ s. s.now) result ≡ word_in matches.now id.now }
{
    matches.get_str(id)
}
