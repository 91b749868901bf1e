//! Who wins within this many moves, by the definition's recursion alone: plain, slow, and made of none of
//! what it is to be compared with but the moves.
ghost use Rattle.legal_moves.specs.Compiled.{IsSoundCompiled};

use legal_moves::{Compiled, MoveSource};
use position_pack::Packed;
use rbg_game::roles::{Player, Role};
use std::alloc::Global;
use std::test::Fail;

/// Who wins a position, and in how many moves: nobody in none.
pub type Outcome = (Option<Player>, u32);

/// A position: its bytes, who has the turn, who is ahead, where its moves lead, and what comes of it.
#[derive(Drop)]
pub struct Node {
    pub packed: Packed,
    mover: Role,
    ahead: Option<Player>,
    moves: Vec<usize>,
    pub outcome: Outcome,
}

/// The place of a position among those found.
fn place_of(found: &[Packed], packed: &Packed) -> Option<usize> {
    for place in 0..found.len() {
        if found[place].as_slice() == packed.as_slice() {
            return Some(place);
        }
    }
    None
}

/// The places of these positions, those that are not found yet last.
fn places(alloc: Global, found: &mut Vec<Packed>, moves: &[Packed]) -> Result<Vec<usize>, Fail> {
    let mut places = Vec::new(alloc);
    for packed in moves {
        let place = match place_of(found, packed) {
            Some(place) => place,
            None => {
                found.push(packed.clone()?)?;
                found.len() - 1
            }
        };
        places.push(place)?;
    }
    Ok(places)
}

/// A position with what the game says of it. Where its moves lead is found then.
fn node_of(
    alloc: Global,
    source: &Compiled,
    found: &mut Vec<Packed>,
    packed: Packed,
) -> Result<Node, Fail>
    requires { IsSoundCompiled source.now }
{
    let moves = source.successors(alloc, &packed)?;
    let moves = places(alloc, found, &moves)?;
    let mover = source.mover(&packed);
    let ahead = source.ahead(&packed);
    Ok(Node {
        packed,
        mover,
        ahead,
        moves,
        outcome: (None, 0),
    })
}

/// All positions that play can come to, no more than 1,000.
fn explore(alloc: Global, source: &Compiled) -> Result<Vec<Node>, Fail>
    requires { IsSoundCompiled source.now }
{
    let mut found = Vec::new(alloc);
    found.push(MoveSource::start(source))?;
    let mut nodes = Vec::new(alloc);
    for place in 0..1_000 {
        let Some(packed) = found.get(place) else {
            return Ok(nodes);
        };
        let packed = packed.clone()?;
        nodes.push(node_of(alloc, source, &mut found, packed)?)?;
    }
    Err("more than 1,000 positions".into())
}

/// Whether the position at a place is won at this level.
fn is_won(level: &[bool], place: usize) -> bool {
    level.get(place).copied().unwrap_or(false)
}

fn some_won(level: &[bool], moves: &[usize]) -> bool {
    for place in moves {
        if is_won(level, *place) {
            return true;
        }
    }
    false
}

fn all_won(level: &[bool], moves: &[usize]) -> bool {
    for place in moves {
        if !is_won(level, *place) {
            return false;
        }
    }
    true
}

/// Which positions the player wins within one move more than at this level; within none where there is
/// no level yet.
fn next_level(
    alloc: Global,
    nodes: &[Node],
    player: Player,
    level: Option<&[bool]>,
) -> Result<Vec<bool>, Fail> {
    let mut next = Vec::new(alloc);
    for node in nodes {
        let won = if node.moves.is_empty() {
            node.ahead == Some(player)
        } else {
            match level {
                None => false,
                Some(level) if node.mover == Role::Player(player) => some_won(level, &node.moves),
                Some(level) => all_won(level, &node.moves),
            }
        };
        next.push(won)?;
    }
    Ok(next)
}

/// Notes what the player wins at this level, where it is not noted yet. Not both players win a position.
fn note(nodes: &mut [Node], level: &[bool], player: Player, distance: u32) -> Result<(), Fail> {
    for (place, node) in nodes.iter_mut().enumerate() {
        if !is_won(level, place) {
            continue;
        }
        let (winner, _) = node.outcome;
        if winner.is_none() {
            node.outcome = (Some(player), distance);
        } else if winner != Some(player) {
            return Err("both players win".into());
        }
    }
    Ok(())
}

/// Notes in how many moves the player wins each position, where he does.
fn note_all(alloc: Global, nodes: &mut [Node], player: Player) -> Result<(), Fail> {
    let mut level = next_level(alloc, nodes, player, None)?;
    note(nodes, &level, player, 0)?;
    for distance in 1..1_000 {
        level = next_level(alloc, nodes, player, Some(&level))?;
        note(nodes, &level, player, distance)?;
    }
    Ok(())
}

/// All positions that play can come to, no more than 1,000, with the outcome of each.
pub fn solve(alloc: Global, source: &Compiled) -> Result<Vec<Node>, Fail>
    requires { IsSoundCompiled source.now }
{
    let mut nodes = explore(alloc, source)?;
    note_all(alloc, &mut nodes, Player::First)?;
    note_all(alloc, &mut nodes, Player::Second)?;
    Ok(nodes)
}
