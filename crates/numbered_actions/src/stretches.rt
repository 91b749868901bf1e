//! Which tokens of a text are the actions that have numbers.

ghost use Rattle.std.specs.Prelude.{◌≡◌, ◌+◌, ◌<◌, ◌≤◌, ◌++◌, List, All, map, length, IfOk, IfSome};
ghost use Rattle.rbg_text.specs.View.{token_view};
ghost use Rattle.rbg_text.specs.Syntax.{Section};
ghost use Rattle.rbg_text.specs.Syntax as grammar;
ghost use Rattle.numbered_actions.specs.Tokens.{tokens_of, tokens_from, cut_of};
ghost use Rattle.numbered_actions.specs.Written.{spots_of, cut_at};
ghost use Rattle.numbered_actions.specs.lemmas.Walk as walk;
ghost use Rattle.numbered_actions.specs.lemmas.Walk.{CutsSo, LeadsWithin, within_at, depth_of, as_list};

use crate::lexemes::Lexeme;
use rbg_text::token::{Sign, Token};
use std::alloc::{AllocError, Global};

/// The tokens of an action: those from the index `from` on, up to the index `to`.
#[derive(Clone, Copy)]
pub struct Stretch {
    pub from: usize,
    pub to: usize,
}

/// In what a token stands. With an action that has begun goes the index of its first token.
#[derive(Clone, Copy)]
enum Within {
    /// In a section other than the rules.
    Elsewhere,
    /// After the `#` of a section.
    Hash,
    /// After the title of the rules.
    Title,
    /// In the rules, between two actions.
    Rules,
    /// After `->`.
    Arrow(usize),
    /// After `[`.
    Bracket(usize),
    /// After the piece in brackets.
    Piece(usize),
    /// In an assignment.
    Assignment(usize),
    /// In a brace, and in this many more braces within it.
    Braces(usize, usize),
}

/// The numbered actions among the tokens of a game's text, in the order of their numbers. Of a list of assignments each is one, without
/// the brackets and commas around it.
pub fn numbered_actions(alloc: Global, tokens: &[Lexeme<'_>]) -> Result<Vec<Stretch>, AllocError>
    ensures actions { IfOk result (λ found. (all : List Section) → tokens_of tokens.now ≡ grammar.text all
        → map (cut_of tokens.now) found.items ≡ map cut_at (spots_of all)) }
    ensures within { IfOk result (λ found. All (λ stretch. stretch.to ≤ length tokens.now) found.items) }
{
    let mut found = Vec::new(alloc);
    let mut within = Within::Elsewhere;
    for place in 0..tokens.len() {
        let token = tokens[place].token;
        put_ended(&mut found, ended(within, token, place))?;
        within = next(within, token, place);
    }
    Ok(found)
}

/// Puts the action that ended after the others, if one did.
fn put_ended(found: &mut Vec<Stretch>, action: Option<Stretch>) -> Result<(), AllocError>
    ensures { IfOk result (λ _. found.new.items ≡ found.old.items ++ as_list action) }
{
    if let Some(action) = action {
        found.push(action)?;
    }
    Ok(())
}

/// The action that ends with the token at this index, or right before it.
fn ended(within: Within, token: Token<'_>, place: usize) -> Option<Stretch>
    requires { place < usize.MAX }
    ensures ended { CutsSo result (λ ls. walk.ended (within_at ls within) (token_view token.entry) (tokens_from ls place) (tokens_from ls (place + 1))) }
    ensures within { IfSome result (λ stretch. stretch.to ≤ place + 1) }
{
    match within {
        Within::Elsewhere | Within::Hash | Within::Title | Within::Bracket(_) => None,
        Within::Rules => ended_in_rules(token, place),
        Within::Arrow(from) | Within::Piece(from) => Some(Stretch {
            from,
            to: place + 1,
        }),
        Within::Assignment(from) => ended_assignment(token, from, place),
        Within::Braces(from, depth) => ended_in_braces(token, from, depth, place),
    }
}

/// The action of one token.
fn ended_in_rules(token: Token<'_>, place: usize) -> Option<Stretch>
    requires { place < usize.MAX }
    ensures ended { CutsSo result (λ ls. walk.ended_in_rules (token_view token.entry) (tokens_from ls place) (tokens_from ls (place + 1))) }
    ensures within { IfSome result (λ stretch. stretch.to ≤ place + 1) }
{
    match token {
        Token::Name(_) | Token::Sign(Sign::DoubleArrow) => Some(Stretch {
            from: place,
            to: place + 1,
        }),
        _ => None,
    }
}

/// The assignment that ends right before the token at this index.
fn ended_assignment(token: Token<'_>, from: usize, place: usize) -> Option<Stretch>
    ensures ended { CutsSo result (λ ls. walk.ended_in_assignment (token_view token.entry) (tokens_from ls from) (tokens_from ls place)) }
    ensures within { IfSome result (λ stretch. stretch.to ≤ place) }
{
    match token {
        Token::Sign(Sign::Comma | Sign::CloseBracket) => Some(Stretch { from, to: place }),
        _ => None,
    }
}

/// The action in braces that ends with the token at this index, where no more braces are open within it.
fn ended_in_braces(token: Token<'_>, from: usize, depth: usize, place: usize) -> Option<Stretch>
    requires { place < usize.MAX }
    ensures ended { CutsSo result (λ ls. walk.ended_in_braces (token_view token.entry) (tokens_from ls from) depth (tokens_from ls (place + 1))) }
    ensures within { IfSome result (λ stretch. stretch.to ≤ place + 1) }
{
    match token {
        Token::Sign(Sign::CloseBrace) if depth == 0 => Some(Stretch {
            from,
            to: place + 1,
        }),
        _ => None,
    }
}

/// In what the token after the one at this index stands.
fn next(within: Within, token: Token<'_>, place: usize) -> Within
    requires place { place < usize.MAX }
    requires depth { depth_of within < usize.MAX }
    ensures place { LeadsWithin result (λ ls. walk.next (within_at ls within) (token_view token.entry) (tokens_from ls place) (tokens_from ls (place + 1))) }
    ensures depth { depth_of result ≤ depth_of within + 1 }
{
    match within {
        Within::Elsewhere => in_section(token),
        Within::Hash => behind_hash(token),
        Within::Title | Within::Arrow(_) | Within::Piece(_) => Within::Rules,
        Within::Rules => in_rules(token, place),
        Within::Bracket(from) => in_bracket(token, from, place + 1),
        Within::Assignment(from) => in_assignment(token, from, place + 1),
        Within::Braces(from, depth) => in_braces(token, from, depth),
    }
}

fn in_section(token: Token<'_>) -> Within
    ensures place { LeadsWithin result (λ _. walk.in_section (token_view token.entry)) }
    ensures depth { depth_of result ≡ 0 }
{
    match token {
        Token::Sign(Sign::Hash) => Within::Hash,
        _ => Within::Elsewhere,
    }
}

fn behind_hash(title: Token<'_>) -> Within
    ensures place { LeadsWithin result (λ _. walk.behind_hash (token_view title.entry)) }
    ensures depth { depth_of result ≡ 0 }
{
    match title {
        Token::Name(word) if word == b"rules".as_slice() => Within::Title,
        _ => Within::Elsewhere,
    }
}

fn in_rules(token: Token<'_>, place: usize) -> Within
    ensures place { LeadsWithin result (λ ls. walk.in_rules (token_view token.entry) (tokens_from ls place)) }
    ensures depth { depth_of result ≡ 0 }
{
    match token {
        Token::Sign(Sign::Hash) => Within::Hash,
        Token::Sign(Sign::Arrow) => Within::Arrow(place),
        Token::Sign(Sign::OpenBracket) => Within::Bracket(place),
        Token::Sign(Sign::OpenBrace) => Within::Braces(place, 0),
        _ => Within::Rules,
    }
}

fn in_bracket(token: Token<'_>, from: usize, behind: usize) -> Within
    ensures place { LeadsWithin result (λ ls. walk.in_bracket (token_view token.entry) (tokens_from ls from) (tokens_from ls behind)) }
    ensures depth { depth_of result ≡ 0 }
{
    match token {
        Token::Sign(Sign::Dollar) => Within::Assignment(behind),
        _ => Within::Piece(from),
    }
}

fn in_assignment(token: Token<'_>, from: usize, behind: usize) -> Within
    ensures place { LeadsWithin result (λ ls. walk.in_assignment (token_view token.entry) (tokens_from ls from) (tokens_from ls behind)) }
    ensures depth { depth_of result ≡ 0 }
{
    match token {
        Token::Sign(Sign::Comma) => Within::Assignment(behind),
        Token::Sign(Sign::CloseBracket) => Within::Rules,
        _ => Within::Assignment(from),
    }
}

fn in_braces(token: Token<'_>, from: usize, depth: usize) -> Within
    requires { depth < usize.MAX }
    ensures place { LeadsWithin result (λ ls. walk.in_braces (token_view token.entry) (tokens_from ls from) depth) }
    ensures depth { depth_of result ≤ depth + 1 }
{
    match token {
        Token::Sign(Sign::OpenBrace) => Within::Braces(from, depth + 1),
        Token::Sign(Sign::CloseBrace) if depth == 0 => Within::Rules,
        Token::Sign(Sign::CloseBrace) => Within::Braces(from, depth - 1),
        _ => Within::Braces(from, depth),
    }
}
