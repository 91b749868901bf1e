//! The grammar of the sections, over tokens.

ghost use Rattle.std.specs.Prelude.{◌≡◌, [], map, option_map};
ghost use Rattle.std.specs.Str.{bytes_eq};
ghost use Rattle.rbg_text.specs.lemmas.Parse.{ReadsAs, name, turns};
ghost use Rattle.rbg_text.specs.lemmas.Parse as parse;
ghost use Rattle.rbg_text.specs.lemmas.ParseSections as spec;
ghost use Rattle.rbg_text.specs.Token.{Text};
ghost use Rattle.rbg_text.specs.Syntax as syntax;
ghost use Rattle.rbg_text.specs.View.{token_view, step_view};
ghost use Rattle.rbg_text.specs.Said.{declaration_view, arrow_view, vertex_view, section_view};

use crate::fault::ReadError;
use crate::parser::{Parser, Step};
use crate::sections::{Arrow, Declaration, Section, Vertex};
use crate::token::{Sign, Token};
use std::alloc::Global;

/// How deep the rules are read; a text that nests deeper is refused before.
const DEPTH: usize = 65;

/// What lists are made of, with commas between.
trait Item<'a>: Drop {
    ghost Said: { Type 0 };

    /// The item without where its words lie in memory.
    ghost said: { Self → Said };

    /// How it is read.
    ghost grammar: { parse.Parser Said };

    fn parse(parser: &mut Parser<'_, 'a>) -> Result<Self, ReadError>
        ensures { ReadsAs said (grammar parser.old) result parser.new };
}

impl<'a> Item<'a> for &'a [u8] {
    ghost Said = { Text };

    ghost said = { λ w. w.now };

    ghost grammar = { name };

    fn parse(parser: &mut Parser<'_, 'a>) -> Result<&'a [u8], ReadError> {
        parser.name()
    }
}

impl<'a> Item<'a> for Declaration<'a> {
    ghost Said = { syntax.Declaration };

    ghost said = { declaration_view };

    ghost grammar = { spec.declaration };

    #[tactic(auto, unfolding(crate::specs::lemmas::ParseSections::declaration))]
    fn parse(parser: &mut Parser<'_, 'a>) -> Result<Declaration<'a>, ReadError> {
        let name = parser.name()?;
        parser.expect(Sign::OpenParen)?;
        let bound = parser.number()?;
        parser.expect(Sign::CloseParen)?;
        Ok(Declaration { name, bound })
    }
}

impl<'a> Item<'a> for Arrow<'a> {
    ghost Said = { syntax.WrittenArrow };

    ghost said = { arrow_view };

    ghost grammar = { spec.arrow };

    #[tactic(auto, unfolding(crate::specs::lemmas::ParseSections::arrow))]
    fn parse(parser: &mut Parser<'_, 'a>) -> Result<Arrow<'a>, ReadError> {
        let label = parser.name()?;
        parser.expect(Sign::Colon)?;
        let to = parser.name()?;
        Ok(Arrow { label, to })
    }
}

impl<'t, 'a> Parser<'t, 'a> {
    #[tactic(auto, unfolding(crate::specs::lemmas::ParseSections::number))]
    fn number(&mut self) -> Result<&'a [u8], ReadError>
        ensures { ReadsAs (λ w. w.now) (spec.number self.old) result self.new }
    {
        let Some(Token::Number(digits)) = self.peek() else {
            return Err(ReadError::Syntax);
        };
        self.advance();
        Ok(digits)
    }

    /// One item or more.
    #[tactic(auto, unfolding(crate::specs::lemmas::ParseSections::listed, crate::specs::lemmas::ParseSections::items))]
    fn listed<T: Item<'a>>(&mut self, alloc: Global) -> Result<Vec<T>, ReadError>
        ensures { ReadsAs (λ all. map T.said all.items) (spec.listed T.grammar self.old) result self.new }
    {
        let mut all = Vec::new(alloc);
        all.push(T::parse(self)?)?;
        for _turn in 0..self.turns() {
            if !self.eat(Sign::Comma) {
                return Ok(all);
            }
            all.push(T::parse(self)?)?;
        }
        Ok(all)
    }

    #[tactic(auto, unfolding(crate::specs::lemmas::ParseSections::arrows))]
    fn arrows(&mut self, alloc: Global) -> Result<Vec<Arrow<'a>>, ReadError>
        ensures { ReadsAs (λ all. map arrow_view all.items) (spec.arrows self.old) result self.new }
    {
        if self.sees(Sign::CloseBrace) {
            Ok(Vec::new(alloc))
        } else {
            self.listed(alloc)
        }
    }

    #[tactic(auto, unfolding(crate::specs::lemmas::ParseSections::vertex))]
    fn vertex(&mut self, alloc: Global) -> Result<Vertex<'a>, ReadError>
        ensures { ReadsAs vertex_view (spec.vertex self.old) result self.new }
    {
        let name = self.name()?;
        self.expect(Sign::OpenBracket)?;
        let piece = self.name()?;
        self.expect(Sign::CloseBracket)?;
        self.expect(Sign::OpenBrace)?;
        let arrows = self.arrows(alloc)?;
        self.expect(Sign::CloseBrace)?;
        Ok(Vertex {
            name,
            piece,
            arrows,
        })
    }

    #[tactic(auto, unfolding(crate::specs::lemmas::ParseSections::all_vertices, crate::specs::lemmas::ParseSections::vertices))]
    fn vertices(&mut self, alloc: Global) -> Result<Vec<Vertex<'a>>, ReadError>
        ensures { ReadsAs (λ all. map vertex_view all.items) (spec.all_vertices self.old) result self.new }
    {
        let mut all = Vec::new(alloc);
        all.push(self.vertex(alloc)?)?;
        for _turn in 0..self.turns() {
            let comma = self.eat(Sign::Comma);
            if !comma && !is_name(self.peek()) {
                return Ok(all);
            }
            all.push(self.vertex(alloc)?)?;
        }
        Ok(all)
    }

    #[tactic(auto, unfolding(crate::specs::lemmas::ParseSections::all_variables))]
    fn variables(&mut self, alloc: Global) -> Result<Vec<Declaration<'a>>, ReadError>
        ensures { ReadsAs (λ all. map declaration_view all.items) (spec.all_variables self.old) result self.new }
    {
        if is_name(self.peek()) {
            self.listed(alloc)
        } else {
            Ok(Vec::new(alloc))
        }
    }

    #[tactic(auto, unfolding(crate::specs::lemmas::ParseSections::all_rules))]
    fn steps(&mut self, alloc: Global) -> Result<Vec<Step<'a>>, ReadError>
        ensures { ReadsAs (λ all. map step_view all.items) (spec.all_rules self.old) result self.new }
    {
        self.rules(DEPTH)?;
        Ok(self.take_steps(alloc))
    }

    #[tactic(auto, unfolding(crate::specs::lemmas::ParseSections::section_by))]
    fn titled(&mut self, alloc: Global, title: &[u8]) -> Result<Section<'a>, ReadError>
        ensures { ReadsAs section_view (spec.section_by title.now self.old) result self.new }
    {
        if is_word(title, b"players") {
            Ok(Section::Players(self.listed(alloc)?))
        } else if is_word(title, b"pieces") {
            Ok(Section::Pieces(self.listed(alloc)?))
        } else if is_word(title, b"variables") {
            Ok(Section::Variables(self.variables(alloc)?))
        } else if is_word(title, b"board") {
            Ok(Section::Board(self.vertices(alloc)?))
        } else if is_word(title, b"rules") {
            Ok(Section::Rules(self.steps(alloc)?))
        } else {
            Err(ReadError::Syntax)
        }
    }

    #[tactic(auto, unfolding(crate::specs::lemmas::ParseSections::section))]
    fn section(&mut self, alloc: Global) -> Result<Section<'a>, ReadError>
        ensures { ReadsAs section_view (spec.section self.old) result self.new }
    {
        self.expect(Sign::Hash)?;
        let title = self.name()?;
        self.expect(Sign::Equal)?;
        self.titled(alloc, title)
    }

    /// All sections, up to the last token.
    #[tactic(auto, unfolding(crate::specs::lemmas::ParseSections::sections))]
    pub(crate) fn sections(&mut self, alloc: Global) -> Result<Vec<Section<'a>>, ReadError>
        ensures { ReadsAs (λ all. map section_view all.items)
            (spec.sections (turns self.old) [] self.old) result self.new }
    {
        let mut all = Vec::new(alloc);
        for _turn in 0..self.turns() {
            if self.is_done() {
                return Ok(all);
            }
            all.push(self.section(alloc)?)?;
        }
        if self.is_done() {
            Ok(all)
        } else {
            Err(ReadError::Syntax)
        }
    }
}

fn is_name(token: Option<Token<'_>>) -> bool
    ensures { result ≡ spec.is_name (option_map token_view token.entry) }
{
    matches!(token, Some(Token::Name(_)))
}

fn is_word(word: &[u8], other: &[u8]) -> bool
    ensures { result ≡ bytes_eq word.now other.now }
{
    word == other
}
