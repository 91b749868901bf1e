//! The value of an expression.
ghost use Rattle.std.specs.Prelude.{◌≡◌, length};
ghost use Rattle.rbg_game.specs.Expressions.{value_of, HasSmallParts, NamesBelow};
ghost use Rattle.rbg_game.specs.Meaning.{expression_of};

use rbg_game::rules::Expr;
use rbg_game::value;

/// The clause of `value`.
pub fn value(expr: &Expr, values: &[u32]) -> i64
    requires names { NamesBelow (length values.now) (expression_of expr.now) }
    requires small { HasSmallParts values.now (expression_of expr.now) }
    ensures { result ≡ value_of values.now (expression_of expr.now) }
{
    value::value(expr, values)
}
