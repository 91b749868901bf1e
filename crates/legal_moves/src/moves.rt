//! The moves of one position.
ghost use Rattle.std.specs.Prelude.{◌≡◌, ◌<◌, length, IfOk, map, slice_get, Some, option_map};
ghost use Rattle.legal_moves.specs.Shown.{ComeFromBefore};
ghost use Rattle.legal_moves.specs.lemmas.Boards.{boards_in, AreWhole};
ghost use Rattle.legal_moves.specs.lemmas.Configurations.{AreEnds, AreEndsShown, HaveOwnBytes};
ghost use Rattle.legal_moves.specs.lemmas.Stands.{stood, configurations_of, AllStand, AreKept};

use crate::copies::empty_state;
use crate::search::boards::Boards;
use crate::search::found::{Found, Stand};
use crate::successor::Successor;
use position_pack::{Packed, pack_bytes_at};
use smallvec::SmallVec;
use std::alloc::{AllocError, Global};
use std::collections::BTreeMap;
use std::marker::Model;

/// A modifier of a move: the number of the action, and the vertex that was current.
#[derive(Clone, Copy, Debug, Default, PartialEq, Eq)]
pub struct Modifier {
    pub number: u16,
    pub vertex: u8,
}

/// The moves of a position, by ascending bytes of their successors.
#[derive(Drop)]
pub struct Moves {
    boards: Boards,
    stands: Vec<Stand>,
    successors: Vec<Successor>,
}

impl Model for Moves {
    ghost use Rattle.std.specs.Prelude.{◌<◌, List, All, map, length};
    ghost use Rattle.legal_moves.specs.Listed.{ShownMove};

    ghost Value = { List ShownMove };

    ghost use Rattle.legal_moves.specs.Shown.{shown_of, ComeFromBefore};
    ghost use Rattle.legal_moves.specs.lemmas.Boards.{boards_in};
    ghost use Rattle.legal_moves.specs.lemmas.Stands.{stood};

    ghost view = { λ m. map (shown_of (map (stood (boards_in m.boards)) m.stands.items)) m.successors.items };

    ghost invariant = { λ m. ComeFromBefore (map (stood (boards_in m.boards)) m.stands.items)
        × All (λ s. s.index < length m.stands.items) m.successors.items };
}

impl Moves {
    /// The moves to the configurations at which a search ended.
    pub fn of(alloc: Global, found: Found) -> Result<Moves, AllocError>
        requires before { ComeFromBefore (configurations_of found) }
        requires kept { AreKept found }
        requires apart { HaveOwnBytes (configurations_of found) }
        ensures { IfOk result (AreEndsShown (configurations_of found)) }
    {
        let ends = ends_by_bytes(alloc, &found.boards, &found.stands)?;
        let successors = successors_at(alloc, ends)?;
        Ok(Moves {
            boards: found.boards,
            stands: found.stands,
            successors,
        })
    }

    /// How many successors there are.
    pub fn len(&self) -> usize
        ensures { result ≡ length self.now }
    {
        self.successors.len()
    }

    /// The bytes of the successor.
    pub fn successor(&self, k: usize) -> &Packed
        requires { k < length self.now }
        ensures { option_map (λ m. m.next) (slice_get self.now k) ≡ Some result.now.items }
    {
        &self.successors[k].packed
    }

    /// The modifiers of a shortest word to the successor.
    pub fn word(&self, alloc: Global, k: usize) -> Result<SmallVec<Modifier, 16>, AllocError>
        requires { k < length self.now }
        ensures { IfOk result (λ w. option_map (λ m. m.shown) (slice_get self.now k) ≡ Some (map (λ m. (m.number, m.vertex)) w.items)) }
    {
        let mut word = SmallVec::new(alloc);
        let mut at = self.successors[k].index;
        while at != 0 {
            let Stand {
                parent,
                shows,
                place: number,
                ..
            } = self.stands[at];
            at = parent;
            if !shows {
                continue;
            }
            let vertex = self.stands[at].vertex;
            word.push(Modifier { number, vertex })?;
        }
        word.as_mut_slice().reverse();
        Ok(word)
    }
}

/// The index of each configuration at which a move ends, by its bytes.
fn ends_by_bytes(
    alloc: Global,
    boards: &Boards,
    stands: &[Stand],
) -> Result<BTreeMap<Packed, usize>, AllocError>
    requires whole { AreWhole boards.now }
    requires within { AllStand (boards_in boards.now) stands.now }
    requires apart { HaveOwnBytes (map (stood (boards_in boards.now)) stands.now) }
    ensures { IfOk result (AreEnds (map (stood (boards_in boards.now)) stands.now) (length stands.now)) }
{
    let mut state = empty_state();
    let mut ends = BTreeMap::new(alloc);
    for (index, stand) in stands.iter().enumerate() {
        if !stand.ends {
            continue;
        }
        boards.put(stand.board, stand.mover, stand.vertex, &mut state);
        ends.insert(pack_bytes_at(&state, stand.vertex, stand.place), index)?;
    }
    Ok(ends)
}

/// The successors with these bytes and indices, in the order of their bytes.
fn successors_at(alloc: Global, ends: BTreeMap<Packed, usize>) -> Result<Vec<Successor>, AllocError>
    ensures { IfOk result (λ successors. successors.items ≡ map (λ p. record { packed = p.0; index = p.1 }) ends.entries) }
{
    ends.into_iter()
        .map(|(packed, index)| Successor { packed, index })
        .collect(alloc)
}
