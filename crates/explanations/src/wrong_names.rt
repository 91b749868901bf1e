//! What is wrong with the names of a text that is no game.

use crate::explain::{Explanation, said, word_text};
use crate::mentions::{Kind, Mention, Placed, Walk, Within, mentions};
use std::alloc::{AllocError, Global};

/// Another number of players than two.
pub fn wrong_players(alloc: Global, tokens: &[Placed<'_>]) -> Result<Explanation, AllocError> {
    let (count, at) = count_players(alloc, tokens)?;
    let message = format!(in alloc; "the number of players is {count}, and has to be 2")?;
    Ok(Explanation { at, message })
}

/// How many names are players, and where the third of them is, or else the last.
fn count_players(alloc: Global, tokens: &[Placed<'_>]) -> Result<(usize, usize), AllocError> {
    let mut walk = Walk::new(alloc);
    let mut count = 0usize;
    let mut at = 0;
    for place in 0..tokens.len() {
        if let Some(mention) = walk.step(tokens, place)?
            && walk.section() == Within::Players
        {
            count = count.saturating_add(1);
            if count <= 3 {
                at = mention.at;
            }
        }
    }
    Ok((count, at))
}

fn kind_text(kind: Kind) -> &'static str {
    match kind {
        Kind::Player => "player",
        Kind::Variable => "variable",
        Kind::Piece => "piece",
        Kind::Vertex => "vertex",
        Kind::Label => "label",
    }
}

/// Whether the declared name serves where a name of the kind is used.
fn serves(declared: &Mention<'_>, used: &Mention<'_>) -> bool {
    let score = used.kind == Kind::Variable && declared.kind == Kind::Player;
    declared.declared && (score || declared.kind == used.kind) && declared.word == used.word
}

/// A name that is used, and declared nowhere.
pub fn unknown_name(alloc: Global, tokens: &[Placed<'_>]) -> Result<Explanation, AllocError> {
    let all = mentions(alloc, tokens)?;
    match first_unknown(&all) {
        Some(used) => no_such_name(alloc, used),
        None => said(alloc, 0, "a name is used that is not declared as such"),
    }
}

/// The first name that is used, and declared nowhere.
fn first_unknown<'a>(all: &[Mention<'a>]) -> Option<Mention<'a>> {
    for used in all {
        if !used.declared && !all.iter().any(|declared| serves(declared, used)) {
            return Some(*used);
        }
    }
    None
}

fn no_such_name(alloc: Global, used: Mention<'_>) -> Result<Explanation, AllocError> {
    let kind = kind_text(used.kind);
    let word = word_text(alloc, used.word)?;
    let message = format!(in alloc; "no {kind} is called `{word}`")?;
    Ok(Explanation {
        at: used.at,
        message,
    })
}

/// Whether both declare the same name, where it may be declared once.
fn repeats(first: &Mention<'_>, second: &Mention<'_>) -> bool {
    let same_kind = match (first.kind, second.kind) {
        (Kind::Player | Kind::Variable, Kind::Player | Kind::Variable) => true,
        (Kind::Label, Kind::Label) => first.vertex == second.vertex,
        (one, other) => one == other,
    };
    first.declared && same_kind && first.word == second.word
}

/// A name that is declared twice.
pub fn repeated_name(alloc: Global, tokens: &[Placed<'_>]) -> Result<Explanation, AllocError> {
    let all = mentions(alloc, tokens)?;
    match first_repeated(&all) {
        Some(second) => declared_twice(alloc, second),
        None => said(alloc, 0, "a name is declared twice"),
    }
}

/// The first name that is declared once more.
fn first_repeated<'a>(all: &[Mention<'a>]) -> Option<Mention<'a>> {
    for (index, second) in all.iter().enumerate() {
        if second.declared && all.iter().take(index).any(|first| repeats(first, second)) {
            return Some(*second);
        }
    }
    None
}

fn declared_twice(alloc: Global, second: Mention<'_>) -> Result<Explanation, AllocError> {
    let kind = kind_text(second.kind);
    let word = word_text(alloc, second.word)?;
    let message = format!(in alloc; "the {kind} `{word}` is declared twice")?;
    Ok(Explanation {
        at: second.at,
        message,
    })
}

/// One vertex, piece or variable too many, or one label or action.
pub fn too_many(alloc: Global, tokens: &[Placed<'_>]) -> Result<Explanation, AllocError> {
    let all = mentions(alloc, tokens)?;
    let limits = [
        (Kind::Vertex, 128, "vertices"),
        (Kind::Piece, 64, "pieces"),
        (Kind::Variable, 32, "variables"),
    ];
    for (kind, limit, plural) in limits {
        if let Some(at) = first_over(&all, kind, limit) {
            let message = format!(in alloc; "there are more than {limit} {plural}")?;
            return Ok(Explanation { at, message });
        }
    }
    said(
        alloc,
        0,
        "there are more than 64 labels or more than 4,096 actions",
    )
}

/// Where the first name is declared that is one too many of its kind.
fn first_over(all: &[Mention<'_>], kind: Kind, limit: usize) -> Option<usize> {
    let mut declared = all.iter().filter(|m| m.declared && m.kind == kind);
    declared.nth(limit).map(|m| m.at)
}
