//! The configurations that a search has found.
ghost use Rattle.std.specs.Prelude.{◌≡◌, ◌==◌, ℕ, ◌≤◌, ◌<◌, ◌↔◌, true, [], ◌∷◌, length, Some, slice_get, IfOk, OnOk, Err, IfSome};
ghost use Rattle.std.specs.Bool.{OnTrue, OnFalse};
ghost use Rattle.std.specs.List.{list_any};
ghost use Rattle.std.specs.Option.{IfNone};
ghost use Rattle.legal_moves.specs.lemmas.Configurations.{opening};
ghost use Rattle.legal_moves.specs.lemmas.Boards.{at_turn, board_at, boards_in, IsSameBoard, IsAsLarge};
ghost use Rattle.legal_moves.specs.lemmas.Buckets.{bucket_of_board};
ghost use Rattle.legal_moves.specs.lemmas.Progress.{state_at};
ghost use Rattle.legal_moves.specs.lemmas.Stands.{IsSameStand};

use crate::fault::MoveFault;
use crate::limits::WIDEST;
use crate::search::boards::Boards;
use crate::search::bucket::{board_bucket, stand_bucket};
use crate::search::chains::Chains;
use rbg_game::position::SemiState;
use rbg_game::roles::Role;
use std::alloc::{AllocError, Global};

/// How many configurations there is room for at first.
const ROOM: usize = 256;

/// A configuration: a board by its number, whose turn it is, a vertex and the number of the last action, with how the search came to it.
#[derive(Clone, Copy)]
pub struct Stand {
    /// The index of the board, which has the pieces and the values.
    pub board: usize,
    pub mover: Role,
    pub vertex: u8,
    /// The number of the last action; 0 at the opening.
    pub place: u16,
    /// The index of the configuration before the last action.
    pub parent: usize,
    /// Whether a shown move names the last action.
    pub shows: bool,
    /// Whether the last action is a switch, which ends a move.
    pub ends: bool,
}

/// A configuration that is worked on: its index, and its semi-state.
#[derive(Drop)]
pub struct Shown {
    pub at: usize,
    pub state: SemiState,
}

/// The configurations in the order in which they were found.
#[derive(Drop)]
pub struct Found {
    /// Boards that differ.
    pub boards: Boards,
    pub stands: Vec<Stand>,
    pub board_chains: Chains,
    pub stand_chains: Chains,
}

impl Found {
    ghost use Rattle.legal_moves.specs.lemmas.Stands.{configurations_of, AreKept, IsEmptied, ShowsOne, IsNewBoard, bucket_at, IsNewStand, IsStandAdded};

    /// The opening configuration alone, in the room of a search that is over, if there is one.
    pub fn begun(
        alloc: Global,
        spare: &mut Vec<Found>,
        state: &SemiState,
    ) -> Result<Found, AllocError>
        ensures opening { IfOk result (λ found. configurations_of found ≡ opening state.now ∷ []) }
        ensures kept { IfOk result AreKept }
    {
        let mut found = Found::room(alloc, spare, state)?;
        found.board_chains.push(board_bucket(state))?;
        found.boards.push(state)?;
        found.stand_chains.push(stand_bucket(0, state.vertex, 0))?;
        found.stands.push(Stand {
            board: 0,
            mover: state.mover,
            vertex: state.vertex,
            place: 0,
            parent: 0,
            shows: false,
            ends: false,
        })?;
        Ok(found)
    }

    /// Nothing found, in the room of a search that is over, if there is one.
    fn room(alloc: Global, spare: &mut Vec<Found>, state: &SemiState) -> Result<Found, AllocError>
        ensures { IfOk result (λ found. IsEmptied found state.now) }
    {
        if let Some(over) = spare.pop() {
            return over.emptied(state);
        }
        Found::new(alloc, state)
    }

    /// Nothing found, in new room: a function of its own, since a call pays for all the room that its
    /// function may need.
    #[inline(never)]
    fn new(alloc: Global, state: &SemiState) -> Result<Found, AllocError>
        ensures { IfOk result (λ found. IsEmptied found state.now) }
    {
        Ok(Found {
            boards: Boards::new(alloc, state)?,
            stands: Vec::with_capacity(alloc, ROOM)?,
            board_chains: Chains::new(alloc)?,
            stand_chains: Chains::new(alloc)?,
        })
    }

    /// Nothing found, in the same room.
    fn emptied(self, state: &SemiState) -> Result<Found, AllocError>
        ensures { IfOk result (λ found. IsEmptied found state.now) }
    {
        let Found {
            boards,
            mut stands,
            board_chains,
            stand_chains,
        } = self;
        stands.clear();
        Ok(Found {
            boards: boards.emptied(state),
            stands,
            board_chains: board_chains.emptied()?,
            stand_chains: stand_chains.emptied()?,
        })
    }

    /// Shows the configuration at the index in the place of the one that is shown.
    pub fn show(&self, at: usize, shown: &mut Shown)
        requires kept { AreKept self.now }
        requires at { at < length self.now.stands.items }
        requires shown { ShowsOne self.now shown.old }
        ensures at { shown.new.at ≡ at }
        ensures state { shown.new.state ≡ state_at (configurations_of self.now) at }
    {
        let Stand {
            board,
            mover,
            vertex,
            ..
        } = self.stands[at];
        let Stand { board: before, .. } = self.stands[shown.at];
        if before == board {
            shown.state.mover = mover;
            shown.state.vertex = vertex;
        } else {
            self.boards.put(board, mover, vertex, &mut shown.state);
        }
        shown.at = at;
    }

    /// The number of the board of this semi-state, which is added if there is none like it.
    pub fn number_of(&mut self, state: &SemiState) -> Result<usize, AllocError>
        requires kept { AreKept self.old }
        requires large { IsAsLarge self.old.boards state.now }
        ensures kept { OnOk result (AreKept self.new) }
        ensures same { OnOk result (configurations_of self.new ≡ configurations_of self.old) }
        ensures stands { self.new.stands ≡ self.old.stands }
        ensures number { IfOk result (λ number. (number < length (boards_in self.new.boards))
            × (at_turn (board_at (boards_in self.new.boards) number) state.now.mover state.now.vertex ≡ state.now)) }
    {
        let bucket = board_bucket(state);
        match self.like(bucket, state) {
            Some(number) => Ok(number),
            None => {
                let number = self.boards.count;
                self.board_chains.push(bucket)?;
                self.boards.push(state)?;
                Ok(number)
            }
        }
    }

    /// The number of the board that tells the same as this semi-state, but for the turn and the vertex.
    fn like(&self, bucket: usize, state: &SemiState) -> Option<usize>
        requires kept { AreKept self.now }
        requires bucket { bucket ≡ bucket_of_board state.now }
        requires small { bucket < 512 }
        ensures some { IfSome result (λ number. (number < length (boards_in self.now.boards))
            × IsSameBoard (board_at (boards_in self.now.boards) number) state.now) }
        ensures none { IfNone result (IsNewBoard (boards_in self.now.boards) state.now) }
    {
        let mut at = self.board_chains.latest(bucket);
        while at != 0 {
            if self.boards.is_same(at - 1, state) {
                return Some(at - 1);
            }
            at = self.board_chains.befores[at - 1] as usize;
        }
        None
    }

    /// Whether one with this board, turn, vertex and last action was found.
    fn has(&self, bucket: usize, stand: Stand) -> bool
        requires kept { AreKept self.now }
        requires bucket { bucket ≡ bucket_at stand }
        requires small { bucket < 512 }
        ensures there { OnTrue result ((i : ℕ) × (s : Stand) × (slice_get self.now.stands.items i ≡ Some s) × IsSameStand s stand) }
        ensures new { OnFalse result (IsNewStand self.now.stands.items stand) }
    {
        let mut at = self.stand_chains.latest(bucket);
        while at != 0 {
            if is_same_stand(self.stands[at - 1], stand) {
                return true;
            }
            at = self.stand_chains.befores[at - 1] as usize;
        }
        false
    }

    /// Adds a configuration if it is new.
    #[inline(always)]
    pub fn add(&mut self, stand: Stand) -> Result<(), MoveFault>
        requires kept { AreKept self.old }
        requires board { stand.board < length (boards_in self.old.boards) }
        ensures boards { self.new.boards ≡ self.old.boards }
        ensures kept { OnOk result (AreKept self.new) }
        ensures added { OnOk result (IsStandAdded self.old.stands.items stand self.new.stands.items) }
        ensures wide { result ≡ Err MoveFault.TooWide → WIDEST ≤ length self.old.stands.items × IsNewStand self.old.stands.items stand }
    {
        let bucket = stand_bucket(stand.board, stand.vertex, stand.place);
        if self.has(bucket, stand) {
            return Ok(());
        }
        if self.stands.len() >= WIDEST {
            return Err(MoveFault::TooWide);
        }
        self.stand_chains.push(bucket)?;
        self.stands.reserve(1)?;
        self.stands.push_reserved(stand);
        Ok(())
    }
}

/// Whether two configurations are one, however the search came to them.
fn is_same_stand(left: Stand, right: Stand) -> bool
    ensures { (result ≡ true) ↔ IsSameStand left right }
{
    left.board == right.board
        && left.vertex == right.vertex
        && left.place == right.place
        && left.mover == right.mover
}

/// Whether the last action of some configuration is one of those.
pub fn any_stands_last(stands: &[Stand], last: &[usize]) -> bool
    ensures { result ≡ list_any (λ s. list_any (λ k. k == s.place) last.now) stands.now }
{
    stands
        .iter()
        .any(|stand| last.contains(&usize::from(stand.place)))
}
