//! The names in a game text, with what each stands for by where it stands.

use rbg_text::lexer::{Lexer, written_len};
use rbg_text::token::{Sign, Token};
use std::alloc::{AllocError, Global};

/// A token, and the byte that it begins with.
#[derive(Clone, Copy)]
pub struct Placed<'a> {
    pub token: Token<'a>,
    pub at: usize,
}

/// The tokens of a text up to the first byte that begins none, and where that byte is.
#[derive(Drop)]
pub struct Scanned<'a> {
    pub tokens: Vec<Placed<'a>>,
    pub stray: Option<usize>,
}

/// What a name stands for.
#[derive(Clone, Copy, PartialEq, Eq)]
pub enum Kind {
    Player,
    /// A variable, or where it is used a player's score too.
    Variable,
    Piece,
    Vertex,
    Label,
}

/// A name where it stands.
#[derive(Clone, Copy)]
pub struct Mention<'a> {
    pub word: &'a [u8],
    pub at: usize,
    pub kind: Kind,
    /// Whether it is declared there, or used.
    pub declared: bool,
    /// The number of the vertex in whose arrows it stands.
    pub vertex: usize,
}

/// The section, and within the board and the rules the brackets, in which a name stands.
#[derive(Clone, Copy, PartialEq, Eq)]
pub enum Within {
    Nothing,
    Players,
    Variables,
    Pieces,
    Board,
    Rules,
    /// In brackets that hold pieces.
    Set,
    /// In brackets that hold expressions.
    Value,
    Arrows,
    /// In the braces of a pattern.
    Pattern,
}

pub fn scan<'a>(alloc: Global, text: &'a [u8]) -> Result<Scanned<'a>, AllocError> {
    let mut tokens = Vec::new(alloc);
    let mut lexer = Lexer::new(text);
    for _turn in 0..text.len() {
        match lexer.next_token() {
            Ok(Some(token)) => {
                let end = text.len().saturating_sub(lexer.left());
                let at = end.saturating_sub(written_len(token));
                tokens.push(Placed { token, at })?;
            }
            Ok(None) => break,
            Err(_) => {
                let stray = Some(text.len().saturating_sub(lexer.left()));
                return Ok(Scanned { tokens, stray });
            }
        }
    }
    Ok(Scanned {
        tokens,
        stray: None,
    })
}

/// Whether the token at this place is the sign.
pub fn is_sign(tokens: &[Placed<'_>], place: usize, sign: Sign) -> bool {
    match tokens.get(place) {
        Some(placed) => matches!(placed.token, Token::Sign(found) if found == sign),
        None => false,
    }
}

/// The section that the word after a `#` begins.
fn section_of(word: &[u8]) -> Within {
    match word {
        b"players" => Within::Players,
        b"variables" => Within::Variables,
        b"pieces" => Within::Pieces,
        b"board" => Within::Board,
        b"rules" => Within::Rules,
        _ => Within::Nothing,
    }
}

/// What an opening bracket at this place holds.
fn opened(tokens: &[Placed<'_>], place: usize, outer: Within) -> Within {
    let next = place.saturating_add(1);
    if is_sign(tokens, place, Sign::OpenParen) {
        return outer;
    }
    if outer == Within::Board {
        return if is_sign(tokens, place, Sign::OpenBrace) {
            Within::Arrows
        } else {
            Within::Set
        };
    }
    if is_sign(tokens, next, Sign::Dollar) {
        Within::Value
    } else if is_sign(tokens, next, Sign::Question) || is_sign(tokens, next, Sign::Exclamation) {
        Within::Pattern
    } else {
        Within::Set
    }
}

/// What a name at this place stands for, and whether it is declared there.
fn kind_of(tokens: &[Placed<'_>], place: usize, within: Within) -> Option<(Kind, bool)> {
    let after_arrow = place > 0 && is_sign(tokens, place - 1, Sign::Arrow);
    let after_colon = place > 0 && is_sign(tokens, place - 1, Sign::Colon);
    match within {
        Within::Nothing => None,
        Within::Players => Some((Kind::Player, true)),
        Within::Variables => Some((Kind::Variable, true)),
        Within::Pieces => Some((Kind::Piece, true)),
        Within::Board => Some((Kind::Vertex, true)),
        Within::Arrows if after_colon => Some((Kind::Vertex, false)),
        Within::Arrows => Some((Kind::Label, true)),
        Within::Set => Some((Kind::Piece, false)),
        Within::Value => Some((Kind::Variable, false)),
        Within::Rules | Within::Pattern if after_arrow => Some((Kind::Player, false)),
        Within::Rules | Within::Pattern => Some((Kind::Label, false)),
    }
}

/// Walks over the tokens of a text, and knows in what the next one stands.
#[derive(Drop)]
pub struct Walk {
    section: Within,
    brackets: Vec<Within>,
    vertex: usize,
}

impl Walk {
    pub fn new(alloc: Global) -> Walk {
        Walk {
            section: Within::Nothing,
            brackets: Vec::new(alloc),
            vertex: 0,
        }
    }

    /// The section in which the walk is.
    pub fn section(&self) -> Within {
        self.section
    }

    /// Whether a pattern is open.
    pub fn in_pattern(&self) -> bool {
        self.brackets
            .iter()
            .any(|within| *within == Within::Pattern)
    }

    fn within(&self) -> Within {
        self.brackets.last().copied().unwrap_or(self.section)
    }

    /// Goes past the token at this place, and gives what it mentions.
    pub fn step<'a>(
        &mut self,
        tokens: &[Placed<'a>],
        place: usize,
    ) -> Result<Option<Mention<'a>>, AllocError> {
        let Some(placed) = tokens.get(place).copied() else {
            return Ok(None);
        };
        match placed.token {
            Token::Name(word) if place > 0 && is_sign(tokens, place - 1, Sign::Hash) => {
                self.section = section_of(word);
                self.brackets.clear();
                Ok(None)
            }
            Token::Name(word) => Ok(self.mention(tokens, place, word, placed.at)),
            Token::Number(_) => Ok(None),
            Token::Sign(sign) => {
                self.pass(tokens, place, sign)?;
                Ok(None)
            }
        }
    }

    fn mention<'a>(
        &mut self,
        tokens: &[Placed<'a>],
        place: usize,
        word: &'a [u8],
        at: usize,
    ) -> Option<Mention<'a>> {
        let (kind, declared) = kind_of(tokens, place, self.within())?;
        if kind == Kind::Vertex && declared {
            self.vertex = self.vertex.saturating_add(1);
        }
        Some(Mention {
            word,
            at,
            kind,
            declared,
            vertex: self.vertex,
        })
    }

    fn pass(&mut self, tokens: &[Placed<'_>], place: usize, sign: Sign) -> Result<(), AllocError> {
        match sign {
            Sign::OpenParen | Sign::OpenBracket | Sign::OpenBrace => {
                let inner = opened(tokens, place, self.within());
                self.brackets.push(inner)?;
            }
            Sign::CloseParen | Sign::CloseBracket | Sign::CloseBrace => {
                let _closed = self.brackets.pop();
            }
            _ => {}
        }
        Ok(())
    }
}

/// All names of a text that is in the grammar.
pub fn mentions<'a>(alloc: Global, tokens: &[Placed<'a>]) -> Result<Vec<Mention<'a>>, AllocError> {
    let mut walk = Walk::new(alloc);
    let mut found = Vec::new(alloc);
    for place in 0..tokens.len() {
        if let Some(mention) = walk.step(tokens, place)? {
            found.push(mention)?;
        }
    }
    Ok(found)
}
