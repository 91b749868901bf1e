//! Kinds of actions.
ghost use Rattle.std.specs.Prelude.{◌≡◌, Some};
ghost use Rattle.rbg_game.specs.Rules.{is_switch, is_modifier};
ghost use Rattle.rbg_game.specs.Meaning.{action_of};
ghost use Rattle.legal_moves.specs.Jumps.{label_in};
ghost use Rattle.legal_moves.specs.lemmas.Narrow.{looks_alone};

use rbg_game::rules::Action;

/// A switch ends a move.
pub fn ends_move(action: &Action) -> bool
    ensures { result ≡ is_switch (Some (action_of action.now)) }
{
    match action {
        Action::Switch(_) => true,
        Action::Shift(_) => false,
        Action::On(_) => false,
        Action::Off(_) => false,
        Action::Assignment(_, _) => false,
        Action::Comparison(_, _, _) => false,
        Action::Pattern(_, _) => false,
    }
}

/// Whether a shown move names the action.
pub fn is_shown(action: &Action) -> bool
    ensures { result ≡ is_modifier (Some (action_of action.now)) }
{
    match action {
        Action::Off(_) => true,
        Action::Assignment(_, _) => true,
        Action::Switch(_) => true,
        Action::Shift(_) => false,
        Action::On(_) => false,
        Action::Comparison(_, _, _) => false,
        Action::Pattern(_, _) => false,
    }
}

/// Whether the action changes the vertex alone, and asks no pattern.
pub fn is_look(action: &Action) -> bool
    ensures { result ≡ looks_alone (action_of action.now) }
{
    match action {
        Action::Shift(_) => true,
        Action::On(_) => true,
        Action::Comparison(_, _, _) => true,
        Action::Off(_) => false,
        Action::Assignment(_, _) => false,
        Action::Switch(_) => false,
        Action::Pattern(_, _) => false,
    }
}

/// The label of a shift; none for another action.
pub fn label_of(action: &Action) -> Option<u8>
    ensures { result ≡ label_in (Some (action_of action.now)) }
{
    match action {
        Action::Shift(label) => Some(*label),
        Action::On(_) => None,
        Action::Off(_) => None,
        Action::Assignment(_, _) => None,
        Action::Comparison(_, _, _) => None,
        Action::Switch(_) => None,
        Action::Pattern(_, _) => None,
    }
}
