//! How many numbered actions rules have.

ghost use Rattle.std.specs.Prelude.{◌≡◌, ◌≤◌};
ghost use Rattle.rbg_game.specs.Rules.{count};
ghost use Rattle.rbg_game.specs.Meaning.{regex_of};
ghost use Rattle.rbg_game.specs.declared.limits.TheConstants.{MAX_ACTIONS};

use crate::rules::Rules;

/// The number of the last action, where the first has 1. A pattern is one action, and those within
/// it have no number of these.
pub fn action_count(rules: &Rules) -> usize
    requires { count (regex_of rules.now) ≤ MAX_ACTIONS }
    ensures { result ≡ count (regex_of rules.now) }
{
    match rules {
        Rules::Action(_) => 1,
        Rules::Concat(parts) => {
            let mut total = 0;
            for part in parts {
                total += action_count(part);
            }
            total
        }
        Rules::Sum(branches) => {
            let mut total = 0;
            for branch in branches {
                total += action_count(branch);
            }
            total
        }
        Rules::Star(inner) => action_count(inner),
    }
}
