//! Room that one search leaves to the next.
use crate::copies::empty_state;
use crate::search::found::Found;
use crate::search::looks::Looks;
use rbg_game::position::SemiState;
use std::alloc::Global;

/// Room that is free. Nothing is said of what it holds.
#[derive(Drop)]
pub struct Room {
    /// Of searches that only look, and are over.
    pub looks: Vec<Looks>,
    /// Of other searches that are over.
    pub founds: Vec<Found>,
    /// To carry out an action on.
    pub state: SemiState,
}

impl Room {
    /// No more than a semi-state.
    pub fn new(alloc: Global) -> Room {
        Room {
            looks: Vec::new(alloc),
            founds: Vec::new(alloc),
            state: empty_state(),
        }
    }

    /// Takes in the room of a search that is over. Where it cannot be kept it is given up.
    pub fn keep(&mut self, found: Found) {
        let _kept = self.founds.push(found);
    }
}
