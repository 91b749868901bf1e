//! The configurations at which a move ends, as bytes.
ghost use Rattle.std.specs.Prelude.{◌≡◌, ◌<◌, IfOk, map, length};
ghost use Rattle.legal_moves.specs.lemmas.Boards.{boards_in, AreWhole};
ghost use Rattle.legal_moves.specs.lemmas.Ends.{ends_packed, AreAscendingEnds};
ghost use Rattle.legal_moves.specs.lemmas.Stands.{stood, configurations_of, AllStand, AreKept};

use crate::copies::empty_state;
use crate::search::boards::Boards;
use crate::search::found::{Found, Stand};
use position_pack::{Packed, Packing};
use rbg_game::position::Position;
use std::alloc::{AllocError, Global};

/// How many ends there is room for at first.
const ROOM: usize = 16;

/// The bytes of the configurations at which a move ends, in ascending order.
pub fn ascending_ends(
    alloc: Global,
    packing: &Packing,
    found: &Found,
) -> Result<Vec<Packed>, AllocError>
    requires { AreKept found.now }
    ensures { IfOk result (λ ends. AreAscendingEnds packing.now (configurations_of found.now) (map (λ p. p.items) ends.items)) }
{
    let mut ends = packed_ends(alloc, packing, &found.boards, &found.stands)?;
    ends.sort()?;
    Ok(ends)
}

/// The packed ends in the order in which they were found.
fn packed_ends(
    alloc: Global,
    packing: &Packing,
    boards: &Boards,
    stands: &[Stand],
) -> Result<Vec<Packed>, AllocError>
    requires whole { AreWhole boards.now }
    requires within { AllStand (boards_in boards.now) stands.now }
    ensures { IfOk result (λ ends. map (λ p. p.items) ends.items
        ≡ ends_packed packing.now (map (stood (boards_in boards.now)) stands.now)) }
{
    let mut at = Position {
        state: empty_state(),
        place: 0,
    };
    let mut ends = Vec::with_capacity(alloc, ROOM)?;
    for stand in stands {
        if !stand.ends {
            continue;
        }
        put_position(boards, *stand, &mut at);
        ends.reserve(1)?;
        ends.push_reserved(packing.pack(&at));
    }
    Ok(ends)
}

/// Makes the position that of the configuration.
fn put_position(boards: &Boards, stand: Stand, at: &mut Position)
    requires whole { AreWhole boards.now }
    requires board { stand.board < length (boards_in boards.now) }
    ensures { at.new ≡ (stood (boards_in boards.now) stand).at }
{
    boards.put(stand.board, stand.mover, stand.vertex, &mut at.state);
    at.place = stand.place;
}
