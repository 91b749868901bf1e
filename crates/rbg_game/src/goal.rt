//! The goal of a table: a number of points.
ghost use Rattle.std.specs.Prelude.{◌≤◌};
ghost use Rattle.rbg_game.specs.declared.limits.TheConstants.{MAX_POINTS};

use crate::limits::MAX_POINTS;

/// A number of points, 1 to 1,000,000. In a table with a goal a player is ahead who has at least this many points while the other has fewer.
#[derive(Clone, Copy, PartialEq, Eq, Debug, Drop)]
pub struct Goal {
    points: u32,
    ghost some: { 1 ≤ points },
    ghost few: { points ≤ MAX_POINTS },
}

impl Goal {
    ghost use Rattle.std.specs.Prelude.{◌≡◌, ◌≤◌, IfSome, IfNone};
    ghost use Rattle.rbg_game.specs.declared.limits.TheConstants.{MAX_POINTS};
    ghost use Rattle.rbg_game.specs.Goals.{CanBeGoal, points_in};

    /// The goal of this many points; none where that is not 1 to 1,000,000. It takes no memory.
    pub fn new(points: u32) -> Option<Goal>
        ensures points { IfSome result (λ goal. points_in goal ≡ points) }
        ensures some { IfSome result (λ goal. CanBeGoal points) }
        ensures none { IfNone result (¬ CanBeGoal points) }
    {
        if (1..=MAX_POINTS).contains(&points) {
            Some(Goal { points })
        } else {
            None
        }
    }

    /// How many points it is.
    pub fn points(self) -> u32
        ensures is { result ≡ points_in self }
        ensures some { 1 ≤ result }
        ensures few { result ≤ MAX_POINTS }
    {
        self.points
    }
}
