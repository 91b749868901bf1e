//! Steps in postfix order to rules.

ghost use Rattle.std.specs.Prelude.{◌≡◌, ◌≤◌, map, false, IfOk};
ghost use Rattle.std.specs.List.{list_any};
ghost use Rattle.rbg_text.specs.View.{step_view};
ghost use Rattle.rbg_game.specs.Meaning.{expression_of, regex_of, action_of};
ghost use Rattle.rbg_game.specs.Rules.{Regex};
ghost use Rattle.rbg_game.specs.Expressions.{Expression};
ghost use Rattle.rbg_read.specs.lemmas.Resolve as spec;
ghost use Rattle.rbg_read.specs.lemmas.Resolve.{stack_of};
ghost use Rattle.rbg_read.specs.lemmas.Parts.{known_view, AreFew};
ghost use Rattle.rbg_game.specs.Depth.{rules_depth};
ghost use Rattle.rbg_read.specs.lemmas.Depths.{rules_depths, IsFlatAction};
ghost use Rattle.rbg_read.specs.lemmas.Flat.{is_large_number};

use crate::names::Names;
use crate::nodes::{self, FlatExpr, FlatRules};
use crate::numbers::number;
use rbg_game::roles::{Player, Role};
use rbg_game::rules::{Action, Comparison, Rules};
use rbg_text::parser::Step;
use std::alloc::{AllocError, Global};

/// The parts of the rules that wait for their operators. Steps of a syntax tree leave one part of the rules.
#[derive(Drop)]
pub struct Stack {
    alloc: Global,
    /// The set whose pieces come next.
    set: Option<Vec<u8>>,
    expressions: Vec<FlatExpr>,
    rules: Vec<FlatRules>,
}

impl Stack {
    fn new(alloc: Global) -> Stack
        ensures { stack_of result ≡ spec.empty_stack }
    {
        Stack {
            alloc,
            set: None,
            expressions: Vec::new(alloc),
            rules: Vec::new(alloc),
        }
    }

    fn push_expression(&mut self, expr: FlatExpr) -> Result<(), AllocError>
        ensures { IfOk result (λ _. stack_of self.new ≡ spec.push_expression (expression_of expr.expr) (stack_of self.old)) }
    {
        self.expressions.push(expr)?;
        Ok(())
    }

    /// The newest expression, or 0 where there is none.
    fn pop_expression(&mut self) -> FlatExpr
        ensures value { expression_of result.expr ≡ spec.first_expression (stack_of self.old).expressions }
        ensures after { stack_of self.new ≡ spec.pop_expression (stack_of self.old) }
    {
        self.expressions.pop().unwrap_or(nodes::number(0))
    }

    fn push_rules(&mut self, rules: FlatRules) -> Result<(), AllocError>
        ensures { IfOk result (λ _. stack_of self.new ≡ spec.push_rules (regex_of rules.rules) (stack_of self.old)) }
    {
        self.rules.push(rules)?;
        Ok(())
    }

    /// The newest part of the rules, or no action where there is none.
    fn pop_rules(&mut self) -> FlatRules
        ensures value { regex_of result.rules ≡ spec.first_rules (stack_of self.old).rules }
        ensures after { stack_of self.new ≡ spec.pop_rules (stack_of self.old) }
    {
        let nothing = nodes::nothing(self.alloc);
        self.rules.pop().unwrap_or(nothing)
    }

    fn push_action(&mut self, action: Action) -> Result<(), AllocError>
        requires { IsFlatAction action }
        ensures { IfOk result (λ _. stack_of self.new ≡ spec.push_action (action_of action) (stack_of self.old)) }
    {
        self.push_rules(nodes::action(action))
    }

    /// The set, where one was begun, is an action.
    fn finish_set(&mut self) -> Result<(), AllocError>
        ensures { IfOk result (λ _. stack_of self.new ≡ spec.finished (stack_of self.old)) }
    {
        match self.set.take() {
            Some(pieces) => self.push_action(Action::On(pieces)),
            None => Ok(()),
        }
    }

    fn negate(&mut self) -> Result<(), AllocError>
        ensures { IfOk result (λ _. stack_of self.new ≡ spec.negated (stack_of self.old)) }
    {
        let part = self.pop_expression();
        let negation = nodes::negation(self.alloc, part)?;
        self.push_expression(negation)
    }

    fn add(&mut self) -> Result<(), AllocError>
        ensures { IfOk result (λ _. stack_of self.new ≡ spec.binary_expression Expression.sum (stack_of self.old)) }
    {
        let right = self.pop_expression();
        let left = self.pop_expression();
        let sum = nodes::sum(self.alloc, left, right)?;
        self.push_expression(sum)
    }

    fn subtract(&mut self) -> Result<(), AllocError>
        ensures { IfOk result (λ _. stack_of self.new ≡ spec.binary_expression spec.difference (stack_of self.old)) }
    {
        let right = self.pop_expression();
        let left = self.pop_expression();
        let negation = nodes::negation(self.alloc, right)?;
        let difference = nodes::sum(self.alloc, left, negation)?;
        self.push_expression(difference)
    }

    fn multiply(&mut self) -> Result<(), AllocError>
        ensures { IfOk result (λ _. stack_of self.new ≡ spec.binary_expression Expression.product (stack_of self.old)) }
    {
        let right = self.pop_expression();
        let left = self.pop_expression();
        let product = nodes::product(self.alloc, left, right)?;
        self.push_expression(product)
    }

    fn assign(&mut self, variable: u8) -> Result<(), AllocError>
        ensures { IfOk result (λ _. stack_of self.new ≡ spec.assigned variable (stack_of self.old)) }
    {
        let value = self.pop_expression();
        self.push_action(Action::Assignment(variable, value.expr))
    }

    fn compare(&mut self, test: Comparison) -> Result<(), AllocError>
        ensures { IfOk result (λ _. stack_of self.new ≡ spec.compared test (stack_of self.old)) }
    {
        let right = self.pop_expression();
        let left = self.pop_expression();
        self.push_action(Action::Comparison(left.expr, test, right.expr))
    }

    fn pattern(&mut self, is_positive: bool) -> Result<(), AllocError>
        ensures { IfOk result (λ _. stack_of self.new ≡ spec.pattern_made is_positive (stack_of self.old)) }
    {
        let inner = self.pop_rules();
        let inner = Box::new(self.alloc, inner.rules)?;
        self.push_action(Action::Pattern(is_positive, inner))
    }

    fn join(&mut self) -> Result<(), AllocError>
        ensures { IfOk result (λ _. stack_of self.new ≡ spec.binary_rules Regex.cat (stack_of self.old)) }
    {
        let right = self.pop_rules();
        let left = self.pop_rules();
        let concat = nodes::concat(self.alloc, left, right)?;
        self.push_rules(concat)
    }

    fn either(&mut self) -> Result<(), AllocError>
        ensures { IfOk result (λ _. stack_of self.new ≡ spec.binary_rules Regex.alt (stack_of self.old)) }
    {
        let right = self.pop_rules();
        let left = self.pop_rules();
        let either = nodes::either(self.alloc, left, right)?;
        self.push_rules(either)
    }

    fn star(&mut self) -> Result<(), AllocError>
        ensures { IfOk result (λ _. stack_of self.new ≡ spec.starred (stack_of self.old)) }
    {
        let inner = self.pop_rules();
        let star = nodes::star(self.alloc, inner)?;
        self.push_rules(star)
    }

    fn begin_set(&mut self)
        ensures { stack_of self.new ≡ spec.begun_set (stack_of self.old) }
    {
        self.set = Some(Vec::new(self.alloc));
    }

    fn add_piece(&mut self, piece: u8) -> Result<(), AllocError>
        ensures { IfOk result (λ _. stack_of self.new ≡ spec.with_piece piece (stack_of self.old)) }
    {
        if let Some(pieces) = &mut self.set {
            pieces.push(piece)?;
        }
        Ok(())
    }

    /// A step that begins or ends an operand.
    fn perform(&mut self, names: &Names, step: Step<'_>) -> Result<(), AllocError>
        requires few { AreFew (known_view names.now) }
        requires within { is_large_number (step_view step) ≡ false }
        ensures { IfOk result (λ _. stack_of self.new ≡ spec.performed (known_view names.now) (step_view step.entry)
            (stack_of self.old)) }
    {
        match step {
            Step::Number(digits) => self.push_expression(nodes::number(number(digits))),
            Step::Variable(name) => self.push_expression(nodes::variable(names.value_place(name))),
            Step::Negate => self.negate(),
            Step::Add => self.add(),
            Step::Subtract => self.subtract(),
            Step::Multiply => self.multiply(),
            Step::Shift(label) => self.push_action(Action::Shift(names.label_place(label))),
            Step::On => {
                self.begin_set();
                Ok(())
            }
            Step::Among(_) => Ok(()),
            Step::Off(piece) => self.push_action(Action::Off(names.piece_place(piece))),
            Step::Assign(name) => self.assign(names.value_place(name)),
            Step::Compare(test) => self.compare(test),
            Step::Switch(player) => self.push_action(Action::Switch(role_at(names.player_place(
                player,
            )))),
            Step::Keeper => self.push_action(Action::Switch(Role::Keeper)),
            Step::SomeWord => self.pattern(true),
            Step::NoWord => self.pattern(false),
            Step::Join => self.join(),
            Step::Either => self.either(),
            Step::Star => self.star(),
        }
    }

    fn step(&mut self, names: &Names, step: Step<'_>) -> Result<(), AllocError>
        requires few { AreFew (known_view names.now) }
        requires within { is_large_number (step_view step) ≡ false }
        ensures { IfOk result (λ _. stack_of self.new ≡ spec.after_step (known_view names.now) (stack_of self.old)
            (step_view step.entry)) }
    {
        if let Step::Among(piece) = step {
            return self.add_piece(names.piece_place(piece));
        }
        self.finish_set()?;
        self.perform(names, step)
    }
}

/// The role of the player with this place.
fn role_at(place: u8) -> Role
    ensures { result ≡ spec.player_role place }
{
    if place == 0 {
        Role::Player(Player::First)
    } else {
        Role::Player(Player::Second)
    }
}

/// The rules that the steps of a syntax tree stand for.
pub fn resolve(alloc: Global, names: &Names, steps: &[Step]) -> Result<Rules, AllocError>
    requires few { AreFew (known_view names.now) }
    requires within { list_any is_large_number (map step_view steps.now) ≡ false }
    ensures means { IfOk result (λ r. regex_of r ≡ spec.resolved (known_view names.now) (map step_view steps.now)) }
    ensures shallow { IfOk result (λ r. rules_depth r ≤ (rules_depths (regex_of r)).whole) }
{
    let mut stack = Stack::new(alloc);
    for step in steps {
        stack.step(names, *step)?;
    }
    stack.finish_set()?;
    Ok(stack.pop_rules().rules)
}
