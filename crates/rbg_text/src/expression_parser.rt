//! The grammar of expressions, over tokens.

ghost use Rattle.rbg_text.specs.lemmas.Parse as spec;
ghost use Rattle.rbg_text.specs.lemmas.Parse.{ReadsTokens};

use crate::fault::ReadError;
use crate::parser::{Parser, Step};
use crate::token::{Sign, Token};

impl<'t, 'a> Parser<'t, 'a> {
    #[cycle(expr)]
    #[tactic(auto, unfolding(crate::specs::lemmas::Parse::atom))]
    fn atom(&mut self, depth: usize) -> Result<(), ReadError>
        ensures { ReadsTokens (spec.atom (spec.expr depth) self.old) result self.new }
    {
        match self.peek() {
            Some(Token::Number(digits)) => {
                self.advance();
                self.push(Step::Number(digits))
            }
            Some(Token::Name(name)) => {
                self.advance();
                self.push(Step::Variable(name))
            }
            _ => {
                self.expect(Sign::OpenParen)?;
                self.expr(depth)?;
                self.expect(Sign::CloseParen)
            }
        }
    }

    #[cycle(expr)]
    #[tactic(auto, unfolding(crate::specs::lemmas::Parse::factor))]
    fn factor(&mut self, depth: usize) -> Result<(), ReadError>
        ensures { ReadsTokens (spec.factor (spec.expr depth) self.old) result self.new }
    {
        let is_negative = self.eat(Sign::Minus);
        self.atom(depth)?;
        if is_negative {
            self.push(Step::Negate)?;
        }
        Ok(())
    }

    #[cycle(expr)]
    #[tactic(auto, unfolding(crate::specs::lemmas::Parse::term, crate::specs::lemmas::Parse::factors))]
    fn term(&mut self, depth: usize) -> Result<(), ReadError>
        ensures { ReadsTokens (spec.term (spec.expr depth) self.old) result self.new }
    {
        self.factor(depth)?;
        for _turn in 0..self.turns() {
            if !self.eat(Sign::Star) {
                return Ok(());
            }
            self.factor(depth)?;
            self.push(Step::Multiply)?;
        }
        Ok(())
    }

    /// An expression that nests no deeper than `depth`.
    #[cycle(expr)]
    #[tactic(auto, unfolding(crate::specs::lemmas::Parse::expr, crate::specs::lemmas::Parse::sum, crate::specs::lemmas::Parse::terms))]
    pub(crate) fn expr(&mut self, depth: usize) -> Result<(), ReadError>
        ensures { ReadsTokens (spec.expr depth self.old) result self.new }
    {
        if depth == 0 {
            return Err(ReadError::Syntax);
        }
        self.term(depth - 1)?;
        for _turn in 0..self.turns() {
            let step = if self.eat(Sign::Plus) {
                Step::Add
            } else if self.eat(Sign::Minus) {
                Step::Subtract
            } else {
                return Ok(());
            };
            self.term(depth - 1)?;
            self.push(step)?;
        }
        Ok(())
    }
}
