//! The boards of a search, one behind the other.
ghost use Rattle.std.specs.Prelude.{◌≡◌, ◌<◌, ◌↔◌, true, [], ◌∷◌, ◌++◌, length, IfOk, OnOk};
ghost use Rattle.rbg_game.specs.declared.position.SemiState.{SemiState};
ghost use Rattle.legal_moves.specs.lemmas.Seen.{state_seen};
ghost use Rattle.legal_moves.specs.lemmas.Boards.{at_turn, board_of, IsSameBoard};

use crate::copies::{copy_pieces, copy_values};
use crate::effect::Seen;
use rbg_game::position::SemiState;
use rbg_game::roles::Role;
use std::alloc::{AllocError, Global};

/// How many boards there is room for at first.
const ROOM: usize = 64;

/// Boards by their numbers: the pieces of each behind those of the one before, and so the values. Neither vertex nor turn is on a board.
#[derive(Drop)]
pub struct Boards {
    pub pieces: Vec<u8>,
    pub values: Vec<u32>,
    /// How many pieces each has.
    pub vertices: usize,
    /// How many values each has.
    pub variables: usize,
    pub count: usize,
}

impl Boards {
    ghost use Rattle.legal_moves.specs.lemmas.Boards.{boards_in, board_at, AreWhole, IsAsLarge};

    /// No boards, but room for some, each with as many pieces and values as the semi-state.
    pub fn new(alloc: Global, state: &SemiState) -> Result<Boards, AllocError>
        ensures none { IfOk result (λ boards. boards_in boards ≡ []) }
        ensures whole { IfOk result AreWhole }
        ensures large { IfOk result (λ boards. IsAsLarge boards state.now) }
        ensures few { IfOk result (λ boards. boards.count ≡ 0) }
    {
        let vertices = state.pieces.len();
        let variables = state.values.len();
        Ok(Boards {
            pieces: Vec::with_capacity(alloc, ROOM * vertices)?,
            values: Vec::with_capacity(alloc, ROOM * variables)?,
            vertices,
            variables,
            count: 0,
        })
    }

    /// No boards, in the same room, but of the size of this semi-state.
    pub fn emptied(self, state: &SemiState) -> Boards
        ensures none { boards_in result ≡ [] }
        ensures whole { AreWhole result }
        ensures large { IsAsLarge result state.now }
        ensures few { result.count ≡ 0 }
    {
        let Boards {
            mut pieces,
            mut values,
            vertices: _,
            variables: _,
            count: _,
        } = self;
        pieces.clear();
        values.clear();
        Boards {
            pieces,
            values,
            vertices: state.pieces.len(),
            variables: state.values.len(),
            count: 0,
        }
    }

    /// Adds a board with the pieces and values of the semi-state.
    #[inline(always)]
    pub fn push(&mut self, state: &SemiState) -> Result<(), AllocError>
        requires whole { AreWhole self.old }
        requires large { IsAsLarge self.old state.now }
        requires few { self.old.count < 18446744073709551615 }
        ensures pushed { OnOk result (boards_in self.new ≡ boards_in self.old ++ board_of state.now.pieces.items state.now.values.items ∷ []) }
        ensures whole { OnOk result (AreWhole self.new) }
    {
        self.pieces.extend_from_slice(&state.pieces)?;
        self.values.extend_from_slice(&state.values)?;
        self.count += 1;
        Ok(())
    }

    /// The pieces of the board.
    fn pieces_of(&self, board: usize) -> &[u8]
        requires whole { AreWhole self.now }
        requires board { board < self.now.count }
        ensures are { result.now ≡ (board_at (boards_in self.now) board).pieces.items }
        ensures many { length result.now ≡ self.now.vertices }
    {
        let from = board * self.vertices;
        &self.pieces[from..from + self.vertices]
    }

    /// The values of the board.
    fn values_of(&self, board: usize) -> &[u32]
        requires whole { AreWhole self.now }
        requires board { board < self.now.count }
        ensures are { result.now ≡ (board_at (boards_in self.now) board).values.items }
        ensures many { length result.now ≡ self.now.variables }
    {
        let from = board * self.variables;
        &self.values[from..from + self.variables]
    }

    /// Whether the board has the pieces and values of the semi-state.
    pub fn is_same(&self, board: usize, state: &SemiState) -> bool
        requires whole { AreWhole self.now }
        requires board { board < self.now.count }
        ensures { (result ≡ true) ↔ IsSameBoard (board_at (boards_in self.now) board) state.now }
    {
        self.pieces_of(board) == state.pieces.as_slice()
            && self.values_of(board) == state.values.as_slice()
    }

    /// The semi-state on the board with this turn and vertex, where it lies.
    pub(crate) fn seen(&self, board: usize, mover: Role, vertex: u8) -> Seen<'_>
        requires whole { AreWhole self.now }
        requires board { board < self.now.count }
        ensures { state_seen result ≡ at_turn (board_at (boards_in self.now) board) mover vertex }
    {
        Seen {
            mover,
            pieces: self.pieces_of(board),
            values: self.values_of(board),
            vertex,
        }
    }

    /// Makes the semi-state the one on the board with this turn and vertex.
    #[inline(always)]
    pub fn put(&self, board: usize, mover: Role, vertex: u8, state: &mut SemiState)
        requires whole { AreWhole self.now }
        requires board { board < self.now.count }
        ensures { state.new ≡ at_turn (board_at (boards_in self.now) board) mover vertex }
    {
        state.mover = mover;
        copy_pieces(self.pieces_of(board), &mut state.pieces);
        copy_values(self.values_of(board), &mut state.values);
        state.vertex = vertex;
    }
}
