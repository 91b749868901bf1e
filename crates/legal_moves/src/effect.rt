//! What an action does to a semi-state.
ghost use Rattle.std.specs.Prelude.{◌≡◌, ◌↔◌, ◌<◌, ◌==◌, IsTrue, option_map, find, length, ℕ, IfOk, IfSome};
ghost use Rattle.std.specs.Bool.{OnTrue, OnFalse};
ghost use Rattle.rbg_game.specs.Meaning.{game_of, action_of};
ghost use Rattle.rbg_game.specs.declared.position.SemiState.{SemiState};
ghost use Rattle.legal_moves.specs.Effects.{Compares, Effect};
ghost use Rattle.rbg_game.specs.Positions.{IsStateOf};
ghost use Rattle.legal_moves.specs.Plain.{IsPlain};
ghost use Rattle.legal_moves.specs.lemmas.VertexSearch.{at_vertex, GlanceTells};
ghost use Rattle.legal_moves.specs.lemmas.Seen.{state_seen};

use rbg_game::game::{Game, Vertex};
use rbg_game::position::SemiState;
use rbg_game::roles::Role;
use rbg_game::rules::{Action, Comparison};
use rbg_game::value::value;

/// A semi-state that is seen where it lies.
#[derive(Clone, Copy)]
pub(crate) struct Seen<'a> {
    pub mover: Role,
    pub pieces: &'a [u8],
    pub values: &'a [u32],
    pub vertex: u8,
}

/// What a glance at an action tells.
#[derive(Clone, Copy, PartialEq, Eq, Debug)]
pub enum Glance {
    /// It is not valid.
    Fails,
    /// It leads to this vertex, and changes nothing else.
    At(u8),
    /// It may change more than the vertex.
    Writes,
}

/// Whether the comparison holds of the two numbers.
pub fn compares(comparison: Comparison, left: i64, right: i64) -> bool
    ensures { IsTrue result ↔ Compares comparison left right }
{
    match comparison {
        Comparison::Equal => left == right,
        Comparison::NotEqual => left != right,
        Comparison::Less => left < right,
        Comparison::LessEqual => left <= right,
        Comparison::Greater => left > right,
        Comparison::GreaterEqual => left >= right,
    }
}

/// Where the label leads from the vertex.
#[inline(always)]
pub fn neighbour(vertex: &Vertex, label: u8) -> Option<u8>
    ensures { result ≡ option_map (λ a. a.to) (find (λ a. a.label == label) vertex.now.arrows.items) }
{
    vertex
        .arrows
        .iter()
        .find(|arrow| arrow.label == label)
        .map(|arrow| arrow.to)
}

/// Does what the action does, and says whether it was valid. Patterns are for the search.
pub fn act(game: &Game, action: &Action, state: &mut SemiState) -> bool
    requires state { IsStateOf (game_of game.now) state.old }
    requires plain { IsPlain state.old.values.items (action_of action.now) }
    ensures valid { OnTrue result (Effect (game_of game.now) (action_of action.now) state.old state.new) }
    ensures unchanged { OnFalse result (state.new ≡ state.old) }
    ensures refused { OnFalse result
        ((T : SemiState) → ¬ Effect (game_of game.now) (action_of action.now) state.old T) }
{
    match action {
        Action::Shift(label) => match neighbour(&game.vertices[usize::from(state.vertex)], *label) {
            Some(to) => {
                state.vertex = to;
                true
            }
            None => false,
        },
        Action::On(pieces) => pieces.contains(&state.pieces[usize::from(state.vertex)]),
        Action::Off(piece) => {
            state.pieces[usize::from(state.vertex)] = *piece;
            true
        }
        Action::Assignment(variable, right) => {
            let n = value(right, &state.values);
            let bound = game.variables[usize::from(*variable)].bound;
            if 0 <= n && n <= i64::from(bound) {
                state.values[usize::from(*variable)] = n as u32;
                true
            } else {
                false
            }
        }
        Action::Comparison(left, comparison, right) => {
            compares(
                *comparison,
                value(left, &state.values),
                value(right, &state.values),
            )
        }
        Action::Switch(role) => {
            state.mover = *role;
            true
        }
        Action::Pattern(_, _) => unreachable!(),
    }
}

/// What the action comes to at this vertex, where it can be said without a copy of the semi-state.
#[inline(always)]
pub fn at_a_glance(game: &Game, action: &Action, state: &SemiState, vertex: u8) -> Glance
    requires state { IsStateOf (game_of game.now) (at_vertex state.now vertex) }
    requires plain { IsPlain state.now.values.items (action_of action.now) }
    ensures { GlanceTells (game_of game.now) (action_of action.now) (at_vertex state.now vertex) result }
{
    glance_where_seen(
        game,
        action,
        Seen {
            mover: state.mover,
            pieces: &state.pieces,
            values: &state.values,
            vertex,
        },
    )
}

/// What an action comes to in a semi-state that is seen where it lies.
#[inline(always)]
pub(crate) fn glance_where_seen(game: &Game, action: &Action, here: Seen<'_>) -> Glance
    requires state { IsStateOf (game_of game.now) (state_seen here) }
    requires plain { IsPlain here.values.now (action_of action.now) }
    ensures { GlanceTells (game_of game.now) (action_of action.now) (state_seen here.entry) result }
{
    match action {
        Action::Shift(label) => match neighbour(&game.vertices[usize::from(here.vertex)], *label) {
            Some(to) => Glance::At(to),
            None => Glance::Fails,
        },
        Action::On(pieces) => {
            let stands = here.pieces[usize::from(here.vertex)];
            if pieces.iter().any(|piece| *piece == stands) {
                Glance::At(here.vertex)
            } else {
                Glance::Fails
            }
        }
        Action::Comparison(left, comparison, right) => {
            if compares(
                *comparison,
                value(left, here.values),
                value(right, here.values),
            ) {
                Glance::At(here.vertex)
            } else {
                Glance::Fails
            }
        }
        Action::Off(_) => Glance::Writes,
        Action::Assignment(_, _) => Glance::Writes,
        Action::Switch(_) => Glance::Writes,
        Action::Pattern(_, _) => unreachable!(),
    }
}

/// Whether the action writes what is there already, so that it leaves all as it is.
pub(crate) fn leaves(game: &Game, action: &Action, here: Seen<'_>) -> bool
    requires state { IsStateOf (game_of game.now) (state_seen here) }
    requires plain { IsPlain here.values.now (action_of action.now) }
    ensures { let S = state_seen here.entry in OnTrue result (Effect (game_of game.now) (action_of action.now) S S) }
{
    match action {
        Action::Off(piece) => here.pieces[usize::from(here.vertex)] == *piece,
        Action::Assignment(variable, right) => {
            value(right, here.values) == i64::from(here.values[usize::from(*variable)])
        }
        _ => false,
    }
}
