//! Who is ahead in a table with a goal.
ghost use Rattle.std.specs.Prelude.{◌≡◌, IfOk};
ghost use Rattle.rbg_game.specs.Goals.{points_of};
ghost use Rattle.rbg_game.specs.Meaning.{game_of};
ghost use Rattle.rbg_game.specs.Sound.{IsSoundGame};
ghost use Rattle.legal_moves.specs.Compiled.{compiled_goal};
ghost use Rattle.legal_moves.specs.Sources.{graph_of};

use legal_moves::{Compiled, Goal, MoveSource};
use position_pack::{Packed, PackingKind};
use rbg_game::game::Game;
use rbg_game::roles::Player;
use std::alloc::{AllocError, Global};

/// `goal` of `Compiled::new`.
pub fn compiled(
    alloc: Global,
    game: Game,
    kind: PackingKind,
    goal: Option<Goal>,
) -> Result<Compiled, AllocError>
    requires { IsSoundGame (game_of game) }
    ensures { IfOk result (λ c. compiled_goal c ≡ points_of goal) }
{
    Compiled::new(alloc, game, kind, goal)
}

/// The clause of `MoveSource::ahead`, of a game that `Compiled::new` made ready with this goal.
pub fn ahead_by_goal(
    alloc: Global,
    game: Game,
    kind: PackingKind,
    goal: Option<Goal>,
    at: &Packed,
) -> Result<Option<Player>, AllocError>
    requires { IsSoundGame (game_of game) }
    ensures { IfOk result (λ leader. leader ≡ (graph_of kind (points_of goal) (game_of game)).ahead at.now.items) }
{
    let source = Compiled::new(alloc, game, kind, goal)?;
    let leader = source.ahead(at);
    Ok(leader)
}
