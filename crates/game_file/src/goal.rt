//! The numbers of the goals.
ghost use Rattle.std.specs.Prelude.{◌≡◌, ◌≤◌};
ghost use Rattle.rbg_game.specs.Goals.{points_of};
ghost use Rattle.rbg_game.specs.declared.limits.TheConstants.{MAX_POINTS};
ghost use Rattle.game_file.specs.Fields.{goal_numbered, number_of_goal};

use rbg_game::goal::Goal;

/// The number that a slot has for a goal: its points, 0 for none.
pub fn number_of_goal(goal: Option<Goal>) -> u32
    ensures is { result ≡ number_of_goal (points_of goal) }
    ensures back { goal_numbered result ≡ points_of goal }
    ensures few { result ≤ MAX_POINTS }
{
    match goal {
        None => 0,
        Some(goal) => goal.points(),
    }
}

/// The goal with this number, none for 0.
pub fn goal_numbered(number: u32) -> Option<Goal>
    requires few { number ≤ MAX_POINTS }
    ensures is { points_of result ≡ goal_numbered number }
{
    Goal::new(number)
}
