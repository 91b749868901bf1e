//! Whether a record fits what is known of its number.
ghost use Rattle.std.specs.Prelude.{◌≡◌, ◌↔◌, true};
ghost use Rattle.retrograde.specs.Stored.{FitsState, is_settled as settled_in};
ghost use Rattle.tree_file.specs.lemmas.Right.{FitsPlaced, has_place, has_done};

use crate::places::Placed;
use retrograde::{Counts, Record, State};

/// Whether a position in this state is settled.
fn is_settled(state: State) -> bool
    ensures { result ≡ settled_in state }
{
    match state {
        State::Known | State::Expanded => false,
        State::Settled | State::Processed => true,
    }
}

/// Whether a number has a place.
fn is_placed(placed: Placed) -> bool
    ensures { result ≡ has_place placed }
{
    match placed {
        Placed::Nowhere => false,
        Placed::Waiting | Placed::Processed => true,
    }
}

/// Whether it has one that is processed.
fn is_done(placed: Placed) -> bool
    ensures { result ≡ has_done placed }
{
    match placed {
        Placed::Nowhere | Placed::Waiting => false,
        Placed::Processed => true,
    }
}

/// Whether a record is possible for its state.
fn fits_state(kept: Record) -> bool
    ensures { (result ≡ true) ↔ FitsState kept.state kept }
{
    match kept.state {
        State::Known => {
            kept.winner.is_none() && kept.distance == 0 && kept.left == 0 && kept.successors == 0
        }
        State::Expanded => kept.winner.is_none() && kept.distance == 0,
        State::Settled | State::Processed => kept.winner.is_some(),
    }
}

/// Whether the record of a number is possible for its state, and its state agrees with what the settled order says of the number.
pub fn fits_placed(counts: Counts, number: u32, placed: Placed, kept: Record) -> bool
    ensures { (result ≡ true) ↔ FitsPlaced counts number placed kept }
{
    let is_early = number < counts.expanded;
    fits_state(kept)
        && kept.state.is_expanded() == is_early
        && is_settled(kept.state) == is_placed(placed)
        && kept.state.is_processed() == is_done(placed)
}
