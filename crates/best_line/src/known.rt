//! A move of a known position.
use crate::Value;
use legal_moves::Modifier;
use position_pack::Packed;
use rbg_game::roles::Role;
use smallvec::SmallVec;

/// A move, and what the table tells of the position that it leads to.
#[derive(Drop)]
pub struct KnownMove {
    /// The modifiers of a shortest word of the move, each with the vertex that is current when it acts.
    pub word: SmallVec<Modifier, 16>,
    /// The bytes of the position that it leads to, packed as the table has them.
    pub packed: Packed,
    /// The text of that position, as `white 2 v e 0,0,3`.
    pub text: Vec<u8>,
    /// The number of that position, where it is known.
    pub number: Option<u32>,
    /// The value of that position: `Open` where it is not known.
    pub value: Value,
}

/// The moves of a known position, and whose they are.
#[derive(Drop)]
pub struct KnownMoves {
    /// Who has the turn.
    pub mover: Role,
    /// Each successor once, by ascending bytes.
    pub moves: Vec<KnownMove>,
}
