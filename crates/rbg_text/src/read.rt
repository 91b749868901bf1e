//! Reads the tokens of a text.

ghost use Rattle.std.specs.Prelude.{◌≡◌, ◌≤◌, List, Err, IfOk, map, length};
ghost use Rattle.rbg_text.specs.Syntax as grammar;
ghost use Rattle.rbg_game.specs.declared.limits.TheConstants.{MAX_NESTING};
ghost use Rattle.rbg_text.specs.NestingCount.{nesting};
ghost use Rattle.rbg_text.specs.Said.{said_of, section_view};
ghost use Rattle.rbg_text.specs.View.{token_view};

use crate::fault::ReadError;
use crate::parser::Parser;
use crate::sections::Section;
use crate::token::Token;
use std::alloc::Global;

/// The sections that the tokens spell. Tokens that nest at most 64 deep are refused for their
/// syntax only where no sections spell them.
pub fn read_sections<'a>(alloc: Global, tokens: &[Token<'a>]) -> Result<Vec<Section<'a>>, ReadError>
    ensures found { IfOk result (λ sections. (all : List grammar.Section) × (map token_view tokens.now ≡ grammar.text all)
        × (map section_view sections.items ≡ map said_of all)) }
    ensures none { result ≡ Err ReadError.Syntax → nesting (map token_view tokens.now) ≤ MAX_NESTING
        → (all : List grammar.Section) → ¬ (map token_view tokens.now ≡ grammar.text all) }
{
    let mut parser = Parser::new(alloc, tokens);
    parser.sections(alloc)
}

/// How many of the tokens were read before the first that does not fit the grammar.
pub fn tokens_read(alloc: Global, tokens: &[Token<'_>]) -> usize
    ensures { result ≤ length tokens.now }
{
    let mut parser = Parser::new(alloc, tokens);
    let _sections = parser.sections(alloc);
    tokens.len().saturating_sub(parser.turns())
}
