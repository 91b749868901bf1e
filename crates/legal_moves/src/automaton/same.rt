//! Which expressions are the same, part by part.
ghost use Rattle.std.specs.Prelude.{◌≡◌, map};
ghost use Rattle.std.specs.Bool.{OnTrue};
ghost use Rattle.rbg_game.specs.Meaning.{expression_of, action_of, regex_of};

use rbg_game::rules::{Action, Expr, Rules};

/// Whether the two are the same, part by part. Only `true` means anything.
#[cycle(same)]
pub fn are_same(left: &Rules, right: &Rules) -> bool
    ensures { OnTrue result (regex_of left.now ≡ regex_of right.now) }
{
    match (left, right) {
        (Rules::Action(left), Rules::Action(right)) => are_same_actions(left, right),
        (Rules::Concat(left), Rules::Concat(right)) => are_all_same(left, right),
        (Rules::Sum(left), Rules::Sum(right)) => are_all_same(left, right),
        (Rules::Star(left), Rules::Star(right)) => are_same(left, right),
        _ => false,
    }
}

/// Whether there are as many on both sides, each the same as the one at its place.
#[cycle(same)]
fn are_all_same(left: &[Rules], right: &[Rules]) -> bool
    ensures { OnTrue result (map regex_of left.now ≡ map regex_of right.now) }
{
    if left.len() != right.len() {
        return false;
    }
    for at in 0..left.len() {
        if !are_same(&left[at], &right[at]) {
            return false;
        }
    }
    true
}

#[cycle(same)]
fn are_same_actions(left: &Action, right: &Action) -> bool
    ensures { OnTrue result (action_of left.now ≡ action_of right.now) }
{
    match (left, right) {
        (Action::Shift(left), Action::Shift(right)) => left == right,
        (Action::On(left), Action::On(right)) => left.as_slice() == right.as_slice(),
        (Action::Off(left), Action::Off(right)) => left == right,
        (Action::Assignment(variable, left), Action::Assignment(other, right)) => {
            variable == other && are_same_numbers(left, right)
        }
        (
            Action::Comparison(left, comparison, right),
            Action::Comparison(other_left, other, other_right),
        ) => {
            comparison == other
                && are_same_numbers(left, other_left)
                && are_same_numbers(right, other_right)
        }
        (Action::Switch(left), Action::Switch(right)) => left == right,
        (Action::Pattern(positive, left), Action::Pattern(other, right)) => {
            positive == other && are_same(left, right)
        }
        _ => false,
    }
}

/// Whether the two expressions over numbers are the same, part by part.
#[cycle(numbers)]
fn are_same_numbers(left: &Expr, right: &Expr) -> bool
    ensures { OnTrue result (expression_of left.now ≡ expression_of right.now) }
{
    match (left, right) {
        (Expr::Number(left), Expr::Number(right)) => left == right,
        (Expr::Variable(left), Expr::Variable(right)) => left == right,
        (Expr::Negation(left), Expr::Negation(right)) => are_same_numbers(left, right),
        (Expr::Sum(left), Expr::Sum(right)) => are_all_same_numbers(left, right),
        (Expr::Product(left), Expr::Product(right)) => are_all_same_numbers(left, right),
        _ => false,
    }
}

/// Whether there are as many on both sides, each the same as the one at its place.
#[cycle(numbers)]
fn are_all_same_numbers(left: &[Expr], right: &[Expr]) -> bool
    ensures { OnTrue result (map expression_of left.now ≡ map expression_of right.now) }
{
    if left.len() != right.len() {
        return false;
    }
    for at in 0..left.len() {
        if !are_same_numbers(&left[at], &right[at]) {
            return false;
        }
    }
    true
}
