//! The value of a position, beside those of its successors and of the one before it in the settled order.
ghost use Rattle.std.specs.Prelude.{◌≡◌, ◌↔◌, ◌⊎◌, ◌<◌, ◌≤◌, ℕ, List, true, min, Some, None};
ghost use Rattle.rbg_game.specs.declared.roles.Player.{Player};
ghost use Rattle.retrograde.specs.Local.{end_value};
ghost use Rattle.retrograde.specs.Stored.{Stored, HasRecord, IsTable, expanded_count, value_of};
ghost use Rattle.retrograde.specs.Changes.{counts_of};
ghost use Rattle.audit.specs.lemmas.Conditions.{IsLowest, order_condition, waiting_condition, value_condition, IsFloor, AreItsRecords};
ghost use Rattle.audit.specs.lemmas.Records.{told, IsNearest, IsFarthest, IsDueByRecords, HasThis};

use crate::verdict::Reason;
use legal_moves::MoveSource;
use position_pack::Packed;
use rbg_game::roles::{Player, Role};
use retrograde::{Counts, Record};

/// Who wins a position, and in how many moves.
type Won = (Player, u32);

/// What a record says of a position: who wins it, in which distance.
fn won(kept: Record) -> Option<Won>
    ensures { result ≡ value_of kept }
{
    match kept.winner {
        Some(winner) => Some((winner, kept.distance)),
        None => None,
    }
}

/// What a record says of a position that is processed.
fn told(kept: Record) -> Option<Won>
    ensures { result ≡ told kept }
{
    if kept.state.is_processed() {
        won(kept)
    } else {
        None
    }
}

/// The least distance of what this player wins, after one more is looked at.
fn nearer(least: Option<u32>, won: Option<Won>, player: Player) -> Option<u32>
    ensures other { ((m : ℕ) → won ≡ Some (player, m) → ⊥) → result ≡ least }
    ensures first { (m : ℕ) → won ≡ Some (player, m) → least ≡ None → result ≡ Some m }
    ensures next { (m n : ℕ) → won ≡ Some (player, m) → least ≡ Some n → result ≡ Some (min n m) }
{
    match (won, least) {
        (Some((winner, distance)), Some(so_far)) if winner == player => {
            Some(so_far.min(distance))
        }
        (Some((winner, distance)), None) if winner == player => Some(distance),
        _ => least,
    }
}

/// The least distance of the processed ones that this player wins.
fn nearest(records: &[Record], player: Player) -> Option<u32>
    ensures { IsNearest records.now player result }
{
    let mut least: Option<u32> = None;
    for kept in records {
        least = nearer(least, told(*kept), player);
    }
    least
}

/// The farther of two.
fn farther(most: Option<Won>, won: Won) -> Won
    ensures first { most ≡ None → result ≡ won }
    ensures next { (value : Player × ℕ) → most ≡ Some value
        → ((result ≡ value) × (won.1 ≤ value.1)) ⊎ ((result ≡ won) × (value.1 ≤ won.1)) }
{
    match most {
        Some(value) if value.1 > won.1 => value,
        _ => won,
    }
}

/// The winner and the distance of one of the farthest, where all are processed.
fn farthest(records: &[Record]) -> Option<Won>
    ensures { IsFarthest records.now result }
{
    let mut most: Option<Won> = None;
    for kept in records {
        let Some(won) = told(*kept) else {
            return None;
        };
        most = Some(farther(most, won));
    }
    most
}

/// What the successors say of a position: who wins it, and at which distance the one is that it rests on.
fn due(mover: Role, records: &[Record]) -> Option<Won>
    ensures { IsDueByRecords mover records.now result }
{
    if let Role::Player(player) = mover
        && let Some(distance) = nearest(records, player)
    {
        return Some((player, distance));
    }
    farthest(records)
}

/// The record has this value, one move farther.
fn has_this(kept: Record, due: Option<Won>) -> bool
    ensures { (result ≡ true) ↔ HasThis kept due }
{
    match due {
        Some((winner, distance)) => {
            kept.winner == Some(winner) && kept.distance > distance && kept.distance - 1 == distance
        }
        None => kept.winner.is_none(),
    }
}

/// The record has the value of an ended position.
fn is_ended_so(kept: Record, ahead: Option<Player>) -> bool
    ensures { (result ≡ true) ↔ (value_of kept ≡ end_value ahead) }
{
    kept.winner == ahead && (ahead.is_none() || kept.distance == 0)
}

/// The lower of two conditions that fails: nothing is processed before all is expanded, and it is no nearer
/// than the one before it.
pub fn order_failing(kept: Record, counts: Counts, floor: u32) -> Option<Reason>
    ensures { (stored : Stored (List ℕ)) (i : ℕ) → IsTable stored → HasRecord stored i kept → counts ≡ counts_of stored
        → IsFloor stored i floor → IsLowest (order_condition stored i) result }
{
    if kept.state.is_processed() && counts.expanded != counts.known {
        return Some(Reason::A3);
    }
    if kept.winner.is_some() && kept.distance < floor {
        return Some(Reason::A4);
    }
    None
}

/// The lowest condition that fails at a position that is not expanded.
pub fn waiting_failing(kept: Record, counts: Counts, floor: u32) -> Option<Reason>
    ensures { (stored : Stored (List ℕ)) (i : ℕ) → IsTable stored → HasRecord stored i kept → counts ≡ counts_of stored
        → IsFloor stored i floor → expanded_count stored ≤ i → IsLowest (waiting_condition stored i) result }
{
    if let Some(reason) = order_failing(kept, counts, floor) {
        return Some(reason);
    }
    if kept.winner.is_some() {
        return Some(Reason::A7);
    }
    None
}

/// Which of two conditions fails at an expanded position: it has its value by the end of play, or by its
/// moves.
pub fn value_failing<M: MoveSource>(
    source: &M,
    at: &Packed,
    kept: Record,
    successors: &[Record],
) -> Option<Reason>
    requires { M.is_sound source.now }
    ensures { (stored : Stored (List ℕ)) (i : ℕ) → IsTable stored → HasRecord stored i kept → i < expanded_count stored
        → AreItsRecords (M.graph source.now) stored i at.now.items successors.now
        → IsLowest (value_condition (M.graph source.now) stored i at.now.items) result }
{
    if successors.is_empty() {
        if is_ended_so(kept, source.ahead(at)) {
            return None;
        }
        return Some(Reason::A5);
    }
    if has_this(kept, due(source.mover(at), successors)) {
        return None;
    }
    Some(Reason::A6)
}
