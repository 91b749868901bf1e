//! The grammar, over tokens.

ghost use Rattle.std.specs.Prelude.{◌≡◌, [], map, option_map};
ghost use Rattle.rbg_text.specs.lemmas.Parse as spec;
ghost use Rattle.rbg_text.specs.lemmas.Parse.{ReadsTokens, ReadsAs};
ghost use Rattle.rbg_text.specs.lemmas.ParseSections.{is_done};
ghost use Rattle.rbg_text.specs.View.{token_view, step_view};

use crate::fault::ReadError;
use crate::token::{Sign, Token};
use rbg_game::rules::Comparison;
use std::alloc::Global;
use std::marker::Model;
use std::mem;

/// A step of the rules in postfix order: an operator stands after its operands, a set before its
/// pieces.
#[derive(Clone, Copy)]
pub enum Step<'a> {
    Number(&'a [u8]),
    Variable(&'a [u8]),
    Negate,
    Add,
    Subtract,
    Multiply,
    Shift(&'a [u8]),
    On,
    Among(&'a [u8]),
    Off(&'a [u8]),
    Assign(&'a [u8]),
    Compare(Comparison),
    Switch(&'a [u8]),
    Keeper,
    SomeWord,
    NoWord,
    Join,
    Either,
    Star,
}

/// The tokens that are left, and the steps so far.
#[derive(Drop)]
pub(crate) struct Parser<'t, 'a> {
    tokens: &'t [Token<'a>],
    steps: Vec<Step<'a>>,
}

impl<'t, 'a> Model for Parser<'t, 'a> {
    ghost use Rattle.rbg_text.specs.Parse.{ParseState};

    ghost Value = { ParseState };

    ghost use Rattle.rbg_text.specs.View.{state_of};

    ghost view = { state_of };
}

#[tactic(auto, unfolding(crate::specs::lemmas::Parse::same_sign))]
fn same_sign(a: Sign, b: Sign) -> bool
    ensures { result ≡ spec.same_sign a b }
{
    a == b
}

impl<'t, 'a> Parser<'t, 'a> {
    pub(crate) fn new(alloc: Global, tokens: &'t [Token<'a>]) -> Parser<'t, 'a>
        ensures { result ≡ record { tokens = map token_view tokens.now; steps = [] } }
    {
        Parser {
            tokens,
            steps: Vec::new(alloc),
        }
    }

    pub(crate) fn peek(&self) -> Option<Token<'a>>
        ensures { option_map token_view result ≡ spec.first self.now.tokens }
    {
        self.tokens.first().copied()
    }

    pub(crate) fn turns(&self) -> usize
        ensures { result ≡ spec.turns self.now }
    {
        self.tokens.len()
    }

    #[tactic(auto, unfolding(crate::specs::lemmas::Parse::advance))]
    pub(crate) fn advance(&mut self)
        ensures { self.new ≡ spec.advance self.old }
    {
        if let [_, rest @ ..] = self.tokens {
            self.tokens = rest;
        }
    }

    #[tactic(auto, unfolding(crate::specs::lemmas::Parse::sees))]
    pub(crate) fn sees(&self, sign: Sign) -> bool
        ensures { result ≡ spec.sees sign self.now }
    {
        match self.peek() {
            Some(Token::Sign(next)) => same_sign(next, sign),
            _ => false,
        }
    }

    #[tactic(auto, unfolding(crate::specs::lemmas::Parse::after))]
    pub(crate) fn eat(&mut self, sign: Sign) -> bool
        ensures found { result ≡ spec.sees sign self.old }
        ensures after { self.new ≡ spec.after sign self.old }
    {
        let found = self.sees(sign);
        if found {
            self.advance();
        }
        found
    }

    #[tactic(auto, unfolding(crate::specs::lemmas::Parse::expect))]
    pub(crate) fn expect(&mut self, sign: Sign) -> Result<(), ReadError>
        ensures { ReadsTokens (spec.expect sign self.old) result self.new }
    {
        if !self.sees(sign) {
            return Err(ReadError::Syntax);
        }
        self.advance();
        Ok(())
    }

    pub(crate) fn is_done(&self) -> bool
        ensures { result ≡ is_done self.now.tokens }
    {
        self.tokens.is_empty()
    }

    /// The steps so far, which are taken out.
    pub(crate) fn take_steps(&mut self, alloc: Global) -> Vec<Step<'a>>
        ensures steps { map step_view result.items ≡ self.old.steps }
        ensures rest { self.new ≡ record self.old { steps = [] } }
    {
        mem::replace(&mut self.steps, Vec::new(alloc))
    }

    pub(crate) fn push(&mut self, step: Step<'a>) -> Result<(), ReadError>
        ensures { ReadsTokens (spec.push (step_view step.entry) self.old) result self.new }
    {
        self.steps.push(step)?;
        Ok(())
    }

    #[tactic(auto, unfolding(crate::specs::lemmas::Parse::name))]
    pub(crate) fn name(&mut self) -> Result<&'a [u8], ReadError>
        ensures { ReadsAs (λ w. w.now) (spec.name self.old) result self.new }
    {
        let Some(Token::Name(name)) = self.peek() else {
            return Err(ReadError::Syntax);
        };
        self.advance();
        Ok(name)
    }

    #[tactic(auto, unfolding(crate::specs::lemmas::Parse::comparison))]
    fn comparison(&mut self) -> Result<Comparison, ReadError>
        ensures { ReadsTokens (spec.comparison self.old) result self.new }
    {
        let Some(test) = test_of(self.peek()) else {
            return Err(ReadError::Syntax);
        };
        self.advance();
        Ok(test)
    }

    /// The further pieces of a set.
    #[tactic(auto, unfolding(crate::specs::lemmas::Parse::pieces))]
    fn pieces(&mut self) -> Result<(), ReadError>
        ensures { ReadsTokens (spec.pieces (spec.turns self.old) self.old) result self.new }
    {
        for _turn in 0..self.turns() {
            if !self.eat(Sign::Comma) {
                return Ok(());
            }
            let piece = self.name()?;
            self.push(Step::Among(piece))?;
        }
        Ok(())
    }

    #[tactic(auto, unfolding(crate::specs::lemmas::Parse::set))]
    fn set(&mut self) -> Result<(), ReadError>
        ensures { ReadsTokens (spec.set self.old) result self.new }
    {
        self.push(Step::On)?;
        if self.eat(Sign::CloseBrace) {
            return Ok(());
        }
        let piece = self.name()?;
        self.push(Step::Among(piece))?;
        self.pieces()?;
        self.expect(Sign::CloseBrace)
    }

    #[tactic(auto, unfolding(crate::specs::lemmas::Parse::compared))]
    fn compared(&mut self, depth: usize) -> Result<(), ReadError>
        ensures { ReadsTokens (spec.compared (spec.expr depth) self.old) result self.new }
    {
        self.expr(depth)?;
        let test = self.comparison()?;
        self.expr(depth)?;
        self.push(Step::Compare(test))?;
        self.expect(Sign::CloseBrace)
    }

    #[tactic(auto, unfolding(crate::specs::lemmas::Parse::assignment))]
    fn assignment(&mut self, depth: usize) -> Result<(), ReadError>
        ensures { ReadsTokens (spec.assignment (spec.expr depth) self.old) result self.new }
    {
        let target = self.name()?;
        self.expect(Sign::Equal)?;
        self.expr(depth)?;
        self.push(Step::Assign(target))
    }

    #[tactic(auto, unfolding(crate::specs::lemmas::Parse::assignments))]
    fn assignments(&mut self, depth: usize) -> Result<(), ReadError>
        ensures { ReadsTokens (spec.assignments (spec.expr depth) (spec.turns self.old) self.old) result self.new }
    {
        for _turn in 0..self.turns() {
            if !self.eat(Sign::Comma) {
                return Ok(());
            }
            self.assignment(depth)?;
            self.push(Step::Join)?;
        }
        Ok(())
    }

    #[tactic(auto, unfolding(crate::specs::lemmas::Parse::bracket))]
    fn bracket(&mut self, depth: usize) -> Result<(), ReadError>
        ensures { ReadsTokens (spec.bracket (spec.expr depth) self.old) result self.new }
    {
        if self.eat(Sign::Dollar) {
            self.assignment(depth)?;
            self.assignments(depth)?;
        } else {
            let piece = self.name()?;
            self.push(Step::Off(piece))?;
        }
        self.expect(Sign::CloseBracket)
    }

    #[cycle(rules)]
    #[tactic(auto, unfolding(crate::specs::lemmas::Parse::pattern))]
    fn pattern(&mut self, depth: usize, kind: Step<'a>) -> Result<(), ReadError>
        ensures { ReadsTokens (spec.pattern (spec.rules_to depth) (step_view kind.entry) self.old) result self.new }
    {
        self.rules(depth)?;
        self.push(kind)?;
        self.expect(Sign::CloseBrace)
    }

    #[cycle(rules)]
    #[tactic(auto, unfolding(crate::specs::lemmas::Parse::brace))]
    fn brace(&mut self, depth: usize) -> Result<(), ReadError>
        ensures { ReadsTokens (spec.brace (spec.rules_to depth) (spec.expr depth) self.old) result self.new }
    {
        if self.eat(Sign::Dollar) {
            self.compared(depth)
        } else if self.eat(Sign::Question) {
            self.pattern(depth, Step::SomeWord)
        } else if self.eat(Sign::Exclamation) {
            self.pattern(depth, Step::NoWord)
        } else {
            self.set()
        }
    }

    #[cycle(rules)]
    #[tactic(auto, unfolding(crate::specs::lemmas::Parse::base))]
    fn base(&mut self, depth: usize) -> Result<(), ReadError>
        ensures { ReadsTokens (spec.base (spec.rules_to depth) (spec.expr depth) self.old) result self.new }
    {
        match self.peek() {
            Some(Token::Name(label)) => {
                self.advance();
                self.push(Step::Shift(label))
            }
            Some(Token::Sign(Sign::OpenBrace)) => {
                self.advance();
                self.brace(depth)
            }
            Some(Token::Sign(Sign::OpenBracket)) => {
                self.advance();
                self.bracket(depth)
            }
            Some(Token::Sign(Sign::OpenParen)) => {
                self.advance();
                self.rules(depth)?;
                self.expect(Sign::CloseParen)
            }
            Some(Token::Sign(Sign::Arrow)) => {
                self.advance();
                let player = self.name()?;
                self.push(Step::Switch(player))
            }
            Some(Token::Sign(Sign::DoubleArrow)) => {
                self.advance();
                self.push(Step::Keeper)
            }
            _ => Err(ReadError::Syntax),
        }
    }

    #[cycle(rules)]
    #[tactic(auto, unfolding(crate::specs::lemmas::Parse::element))]
    fn element(&mut self, depth: usize) -> Result<(), ReadError>
        ensures { ReadsTokens (spec.element (spec.rules_to depth) (spec.expr depth) self.old) result self.new }
    {
        self.base(depth)?;
        if self.eat(Sign::Star) {
            self.push(Step::Star)?;
        }
        Ok(())
    }

    #[cycle(rules)]
    #[tactic(auto, unfolding(crate::specs::lemmas::Parse::concat, crate::specs::lemmas::Parse::elements))]
    fn concat(&mut self, depth: usize) -> Result<(), ReadError>
        ensures { ReadsTokens (spec.concat (spec.rules_to depth) (spec.expr depth) self.old) result self.new }
    {
        self.element(depth)?;
        for _turn in 0..self.turns() {
            if !begins_element(self.peek()) {
                return Ok(());
            }
            self.element(depth)?;
            self.push(Step::Join)?;
        }
        Ok(())
    }

    /// Rules that nest no deeper than `depth`.
    #[cycle(rules)]
    #[tactic(auto, unfolding(crate::specs::lemmas::Parse::rules_to, crate::specs::lemmas::Parse::choice, crate::specs::lemmas::Parse::branches))]
    pub(crate) fn rules(&mut self, depth: usize) -> Result<(), ReadError>
        ensures { ReadsTokens (spec.rules_to depth self.old) result self.new }
    {
        if depth == 0 {
            return Err(ReadError::Syntax);
        }
        self.concat(depth - 1)?;
        for _turn in 0..self.turns() {
            if !self.eat(Sign::Plus) {
                return Ok(());
            }
            self.concat(depth - 1)?;
            self.push(Step::Either)?;
        }
        Ok(())
    }
}

fn test_of(token: Option<Token<'_>>) -> Option<Comparison>
    ensures { result ≡ spec.test_of (option_map token_view token.entry) }
{
    match token {
        Some(Token::Sign(Sign::EqualEqual)) => Some(Comparison::Equal),
        Some(Token::Sign(Sign::NotEqual)) => Some(Comparison::NotEqual),
        Some(Token::Sign(Sign::Less)) => Some(Comparison::Less),
        Some(Token::Sign(Sign::LessEqual)) => Some(Comparison::LessEqual),
        Some(Token::Sign(Sign::Greater)) => Some(Comparison::Greater),
        Some(Token::Sign(Sign::GreaterEqual)) => Some(Comparison::GreaterEqual),
        _ => None,
    }
}

fn begins_element(token: Option<Token<'_>>) -> bool
    ensures { result ≡ spec.begins_element (option_map token_view token.entry) }
{
    match token {
        Some(Token::Name(_)) => true,
        Some(Token::Sign(sign)) => matches!(
            sign,
            Sign::OpenBrace | Sign::OpenBracket | Sign::OpenParen | Sign::Arrow | Sign::DoubleArrow
        ),
        _ => false,
    }
}
