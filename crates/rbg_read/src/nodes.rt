//! Nodes of expressions and of rules, with their parts in flat lists.

ghost use Rattle.std.specs.Prelude.{◌≡◌, ◌<◌, ◌≤◌, length, map, IfOk};
ghost use Rattle.rbg_game.specs.Expressions.{Expression, sum_all, product_all};
ghost use Rattle.rbg_game.specs.Rules.{Regex, cat_all, alt_all};
ghost use Rattle.rbg_game.specs.Meaning.{expression_of, regex_of, action_of};
ghost use Rattle.rbg_game.specs.Depth.{deepest, expression_depth, rules_depth};
ghost use Rattle.rbg_read.specs.lemmas.Depths.{IsFlatExpression, AreFlatRules, depths_of_expression, depths_of_rules, IsFlatAction};

use rbg_game::rules::{Action, Expr, Rules};
use std::alloc::{AllocError, Global};

/// An expression whose sums and products are flat lists.
#[derive(Drop)]
pub struct FlatExpr {
    pub expr: Expr,
    pub ghost flat: { IsFlatExpression expr },
}

/// Rules whose sums and concatenations are flat lists.
#[derive(Drop)]
pub struct FlatRules {
    pub rules: Rules,
    pub ghost flat: { AreFlatRules rules },
}

/// A number as an expression.
pub fn number(number: u32) -> FlatExpr
    ensures { expression_of result.expr ≡ Expression.number number }
{
    FlatExpr {
        expr: Expr::Number(number),
    }
}

/// A variable as an expression.
pub fn variable(place: u8) -> FlatExpr
    ensures { expression_of result.expr ≡ Expression.variable place }
{
    FlatExpr {
        expr: Expr::Variable(place),
    }
}

/// The negation of an expression.
pub fn negation(alloc: Global, part: FlatExpr) -> Result<FlatExpr, AllocError>
    ensures { IfOk result (λ e. expression_of e.expr ≡ Expression.negation (expression_of part.expr)) }
{
    Ok(FlatExpr {
        expr: Expr::Negation(Box::new(alloc, part.expr)?),
    })
}

/// The terms of a sum; another expression is the only term.
fn terms_of(alloc: Global, expr: Expr) -> Result<Vec<Expr>, AllocError>
    ensures some { IfOk result (λ terms. 0 < length terms.items) }
    ensures same { IfOk result (λ terms. sum_all (map expression_of terms.items) ≡ expression_of expr) }
    ensures depth { IfOk result (λ terms. deepest (map expression_depth terms.items) ≤ (depths_of_expression expr).terms) }
{
    match expr {
        Expr::Sum(terms) => {
            if terms.is_empty() {
                Ok(vec![in alloc; Expr::Sum(terms)]?)
            } else {
                Ok(terms)
            }
        }
        only => Ok(vec![in alloc; only]?),
    }
}

/// The sum of two expressions.
pub fn sum(alloc: Global, left: FlatExpr, right: FlatExpr) -> Result<FlatExpr, AllocError>
    ensures { IfOk result (λ e. expression_of e.expr ≡ Expression.sum (expression_of left.expr) (expression_of right.expr)) }
{
    let mut terms = terms_of(alloc, left.expr)?;
    terms.push(right.expr)?;
    Ok(FlatExpr {
        expr: Expr::Sum(terms),
    })
}

/// The factors of a product; another expression is the only factor.
fn factors_of(alloc: Global, expr: Expr) -> Result<Vec<Expr>, AllocError>
    ensures some { IfOk result (λ factors. 0 < length factors.items) }
    ensures same { IfOk result (λ factors. product_all (map expression_of factors.items) ≡ expression_of expr) }
    ensures depth { IfOk result (λ factors. deepest (map expression_depth factors.items) ≤ (depths_of_expression expr).factors) }
{
    match expr {
        Expr::Product(factors) => {
            if factors.is_empty() {
                Ok(vec![in alloc; Expr::Product(factors)]?)
            } else {
                Ok(factors)
            }
        }
        only => Ok(vec![in alloc; only]?),
    }
}

/// The product of two expressions.
pub fn product(alloc: Global, left: FlatExpr, right: FlatExpr) -> Result<FlatExpr, AllocError>
    ensures { IfOk result (λ e. expression_of e.expr ≡ Expression.product (expression_of left.expr) (expression_of right.expr)) }
{
    let mut factors = factors_of(alloc, left.expr)?;
    factors.push(right.expr)?;
    Ok(FlatExpr {
        expr: Expr::Product(factors),
    })
}

/// The parts of a concatenation; other rules are the only part.
fn parts_of(alloc: Global, rules: Rules) -> Result<Vec<Rules>, AllocError>
    ensures some { IfOk result (λ parts. 0 < length parts.items) }
    ensures same { IfOk result (λ parts. cat_all (map regex_of parts.items) ≡ regex_of rules) }
    ensures depth { IfOk result (λ parts. deepest (map rules_depth parts.items) ≤ (depths_of_rules rules).factors) }
{
    match rules {
        Rules::Concat(parts) => {
            if parts.is_empty() {
                Ok(vec![in alloc; Rules::Concat(parts)]?)
            } else {
                Ok(parts)
            }
        }
        only => Ok(vec![in alloc; only]?),
    }
}

/// One after the other.
pub fn concat(alloc: Global, left: FlatRules, right: FlatRules) -> Result<FlatRules, AllocError>
    ensures { IfOk result (λ r. regex_of r.rules ≡ Regex.cat (regex_of left.rules) (regex_of right.rules)) }
{
    let mut parts = parts_of(alloc, left.rules)?;
    parts.push(right.rules)?;
    Ok(FlatRules {
        rules: Rules::Concat(parts),
    })
}

/// The branches of a sum; other rules are the only branch.
fn branches_of(alloc: Global, rules: Rules) -> Result<Vec<Rules>, AllocError>
    ensures some { IfOk result (λ branches. 0 < length branches.items) }
    ensures same { IfOk result (λ branches. alt_all (map regex_of branches.items) ≡ regex_of rules) }
    ensures depth { IfOk result (λ branches. deepest (map rules_depth branches.items) ≤ (depths_of_rules rules).terms) }
{
    match rules {
        Rules::Sum(branches) => {
            if branches.is_empty() {
                Ok(vec![in alloc; Rules::Sum(branches)]?)
            } else {
                Ok(branches)
            }
        }
        only => Ok(vec![in alloc; only]?),
    }
}

/// One or the other.
pub fn either(alloc: Global, left: FlatRules, right: FlatRules) -> Result<FlatRules, AllocError>
    ensures { IfOk result (λ r. regex_of r.rules ≡ Regex.alt (regex_of left.rules) (regex_of right.rules)) }
{
    let mut branches = branches_of(alloc, left.rules)?;
    branches.push(right.rules)?;
    Ok(FlatRules {
        rules: Rules::Sum(branches),
    })
}

/// Zero or more times.
pub fn star(alloc: Global, inner: FlatRules) -> Result<FlatRules, AllocError>
    ensures { IfOk result (λ r. regex_of r.rules ≡ Regex.star (regex_of inner.rules)) }
{
    Ok(FlatRules {
        rules: Rules::Star(Box::new(alloc, inner.rules)?),
    })
}

/// An action as rules.
pub fn action(action: Action) -> FlatRules
    requires { IsFlatAction action }
    ensures { regex_of result.rules ≡ Regex.one (action_of action) }
{
    FlatRules {
        rules: Rules::Action(action),
    }
}

/// No action.
pub fn nothing(alloc: Global) -> FlatRules
    ensures { regex_of result.rules ≡ Regex.empty }
{
    FlatRules {
        rules: Rules::Concat(Vec::new(alloc)),
    }
}
