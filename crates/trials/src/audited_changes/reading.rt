//! The conditions of an audit, read once more: each looks at the whole lists for itself.
use crate::audited_changes::parts::{Edge, Parts, Place};
use audit::{Reason, Verdict};
use rbg_game::roles::{Player, Role};
use retrograde::{Record, State};

/// Who wins, and in how many moves.
type Value = Option<(Player, u32)>;

/// What a record says of who wins.
fn value_of(kept: &Record) -> Value {
    kept.winner.map(|winner| (winner, kept.distance))
}

/// Whether a number is known and more than known.
fn is_expanded(parts: &Parts, number: u32) -> bool {
    parts
        .record(number)
        .is_some_and(|kept| kept.state != State::Known)
}

/// Whether a number is processed.
fn is_processed(parts: &Parts, number: u32) -> bool {
    parts
        .record(number)
        .is_some_and(|kept| kept.state == State::Processed)
}

/// A1: number 0 is the start, which no change touches; any other has an edge from an expanded number below it.
fn is_reached(parts: &Parts, number: u32) -> bool {
    number == 0
        || parts.edges.iter().any(|edge| edge.to == number
            && edge.from < number
            && is_expanded(parts, edge.from))
}

/// A2, of the moves from a number: each has its edge, and they are counted.
fn moves_are_kept(parts: &Parts, number: u32, kept: &Record, place: &Place) -> bool {
    let all = place.successors.iter().all(|successor| {
        successor.is_some_and(|to| parts.edges.contains(&Edge { to, from: number }))
    });
    let left = place
        .successors
        .iter()
        .filter(|successor| !successor.is_some_and(|to| is_processed(parts, to)))
        .count();
    all && place.successors.len() == kept.successors as usize
        && left == kept.left as usize
        && (place.mover != Role::Keeper || place.successors.len() <= 1)
}

/// A2, of the edges to a number: each is a move of an expanded number.
fn edges_are_moves(parts: &Parts, places: &[Place], number: u32) -> bool {
    parts
        .edges
        .iter()
        .filter(|edge| edge.to == number)
        .all(|edge| {
            is_expanded(parts, edge.from)
                && places
                    .get(edge.from as usize)
                    .is_some_and(|from| from.successors.contains(&Some(number)))
        })
}

/// A3: it is not processed while some known number is not expanded.
fn waits_for_all(parts: &Parts, kept: &Record) -> bool {
    kept.state != State::Processed
        || parts
            .records
            .iter()
            .all(|other| other.state != State::Known)
}

/// How far a number is from its end; 0 if it is not known.
fn distance_of(parts: &Parts, number: u32) -> u32 {
    parts.record(number).map_or(0, |kept| kept.distance)
}

/// A4: what stands before it in the order is not farther.
fn is_in_order(parts: &Parts, number: u32) -> bool {
    parts.order.iter().zip(parts.order.iter().skip(1)).all(|(before, at)| {
        *at != number || distance_of(parts, *before) <= distance_of(parts, *at)
    })
}

/// How far a successor is from its end, if it is processed and this player wins it.
fn distance_won(parts: &Parts, successor: &Option<u32>, player: Player) -> Option<u32> {
    let kept = parts.record((*successor)?)?;
    let (winner, distance) = value_of(&kept)?;
    (kept.state == State::Processed && winner == player).then_some(distance)
}

/// The least distance of a processed successor that this player wins.
fn least_won(parts: &Parts, place: &Place, player: Player) -> Option<u32> {
    place
        .successors
        .iter()
        .filter_map(|successor| distance_won(parts, successor, player))
        .min()
}

/// The greatest distance of a processed successor that this player wins.
fn greatest_won(parts: &Parts, place: &Place, player: Player) -> Option<u32> {
    place
        .successors
        .iter()
        .filter_map(|successor| distance_won(parts, successor, player))
        .max()
}

/// The other player.
fn opponent(player: Player) -> Player {
    match player {
        Player::First => Player::Second,
        Player::Second => Player::First,
    }
}

/// Who wins a position with moves, by what is processed.
fn value_by_moves(parts: &Parts, place: &Place) -> Value {
    let all_processed = place.successors.iter().all(|successor| successor.is_some_and(
        |to| is_processed(parts, to),
    ));
    if let Role::Player(player) = place.mover {
        if let Some(least) = least_won(parts, place, player) {
            return Some((player, least.saturating_add(1)));
        }
        return match greatest_won(parts, place, opponent(player)) {
            Some(greatest) if all_processed => Some((opponent(player), greatest.saturating_add(1))),
            _ => None,
        };
    }
    if !all_processed {
        return None;
    }
    match greatest_won(parts, place, Player::First) {
        Some(greatest) => Some((Player::First, greatest.saturating_add(1))),
        None => greatest_won(parts, place, Player::Second).map(|greatest| (
            Player::Second,
            greatest.saturating_add(1),
        )),
    }
}

/// The lowest condition that a number fails.
fn reason_of(
    parts: &Parts,
    places: &[Place],
    number: u32,
    kept: &Record,
    place: &Place,
) -> Option<Reason> {
    let expanded = kept.state != State::Known;
    let ended = place.successors.is_empty();
    let value = value_of(kept);
    if !is_reached(parts, number) {
        return Some(Reason::A1);
    }
    if (expanded && !moves_are_kept(parts, number, kept, place))
        || !edges_are_moves(parts, places, number)
    {
        return Some(Reason::A2);
    }
    if !waits_for_all(parts, kept) {
        return Some(Reason::A3);
    }
    if !is_in_order(parts, number) {
        return Some(Reason::A4);
    }
    if expanded && ended && value != place.ahead.map(|player| (player, 0)) {
        return Some(Reason::A5);
    }
    if expanded && !ended && value != value_by_moves(parts, place) {
        return Some(Reason::A6);
    }
    if !expanded && value.is_some() {
        return Some(Reason::A7);
    }
    None
}

/// The verdict on a table: the lowest number that fails.
pub fn verdict_of(parts: &Parts, places: &[Place]) -> Verdict {
    for ((number, kept), place) in (0..=u32::MAX).zip(&parts.records).zip(places) {
        if let Some(reason) = reason_of(parts, places, number, kept, place) {
            return Verdict::Wrong(number, reason);
        }
    }
    Verdict::Right
}
