//! The value of an expression.
ghost use Rattle.std.specs.Prelude.{◌≡◌, ℕ, ◌≤◌, List, slice_index, length};
ghost use Rattle.rbg_game.specs.Expressions.{value_of, HasSmallParts, NamesBelow};
ghost use Rattle.rbg_game.specs.Meaning.{expression_of};

use crate::rules::Expr;

/// Exact, since no part is too large.
pub fn value(expr: &Expr, values: &[u32]) -> i64
    requires names { NamesBelow (length values.now) (expression_of expr.now) }
    requires small { HasSmallParts values.now (expression_of expr.now) }
    ensures { result ≡ value_of values.now (expression_of expr.now) }
{
    match expr {
        Expr::Number(n) => i64::from(*n),
        Expr::Variable(v) => i64::from(values[usize::from(*v)]),
        Expr::Negation(part) => -value(part, values),
        Expr::Sum(terms) => {
            let mut total = 0;
            for term in terms {
                total += value(term, values);
            }
            total
        }
        Expr::Product(factors) => {
            let mut total = 1;
            for factor in factors {
                total *= value(factor, values);
            }
            total
        }
    }
}
