//! Tokens and sections of a text.
ghost use Rattle.std.specs.Prelude.{◌≡◌, List, map, IfOk, IfErr};
ghost use Rattle.rbg_text.specs.Token as grammar;
ghost use Rattle.rbg_text.specs.Syntax as syntax;
ghost use Rattle.rbg_text.specs.Said.{said_of, section_view};
ghost use Rattle.rbg_text.specs.View.{token_view};

use rbg_text::fault::ReadError;
use rbg_text::lexer;
use rbg_text::lexer::Lexer;
use rbg_text::read::read_sections;
use rbg_text::sections::Section;
use rbg_text::token::Token;
use std::alloc::Global;

/// `split` of `tokens`.
pub fn tokens(alloc: Global, text: &[u8]) -> Result<Vec<Token<'_>>, ReadError>
    ensures { IfOk result (λ tokens. grammar.Splits text.now (map token_view tokens.items)) }
{
    lexer::tokens(alloc, text)
}

/// `stuck` of `Lexer::next_token`.
pub fn next_token<'a>(lexer: &mut Lexer<'a>) -> Result<Option<Token<'a>>, ReadError>
    ensures { IfErr result (λ _. grammar.Gap lexer.old lexer.new × grammar.IsStray lexer.new) }
{
    lexer.next_token()
}

/// `found` of `read_sections`.
pub fn sections<'a>(alloc: Global, tokens: &[Token<'a>]) -> Result<Vec<Section<'a>>, ReadError>
    ensures { IfOk result (λ sections. (all : List syntax.Section) × (map token_view tokens.now ≡ syntax.text all)
        × (map section_view sections.items ≡ map said_of all)) }
{
    read_sections(alloc, tokens)
}
