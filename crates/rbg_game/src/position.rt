//! Semi-states and positions.
use crate::roles::Role;
use arrayvec::ArrayVec;

/// What the actions change. Pieces stand in the order of the vertices, values in that of the variables.
#[derive(Drop)]
pub struct SemiState {
    pub mover: Role,
    pub pieces: ArrayVec<u8, 128>,
    pub values: ArrayVec<u32, 34>,
    pub vertex: u8,
}

/// A semi-state with a place in the rules.
#[derive(Drop)]
pub struct Position {
    pub state: SemiState,
    pub place: u16,
}
