//! Copies of what a game and its positions hold.
ghost use Rattle.std.specs.Prelude.{◌≡◌, ◌≤◌, IfOk, length, map};
ghost use Rattle.rbg_game.specs.Meaning.{expression_of};

use arrayvec::ArrayVec;
use rbg_game::position::SemiState;
use rbg_game::roles::Role;
use rbg_game::rules::Expr;
use std::alloc::{AllocError, Global};

pub fn copied_state(state: &SemiState) -> SemiState
    ensures { result ≡ state.now }
{
    let mut copy = empty_state();
    copy_state(state, &mut copy);
    copy
}

/// Makes one semi-state the same as the other.
pub fn copy_state(from: &SemiState, to: &mut SemiState)
    ensures { to.new ≡ from.now }
{
    to.mover = from.mover;
    copy_pieces(&from.pieces, &mut to.pieces);
    copy_values(&from.values, &mut to.values);
    to.vertex = from.vertex;
}

/// Puts these pieces in the place of the others. What is emptied is filled with zeros, so as many are written over.
pub fn copy_pieces(from: &[u8], to: &mut ArrayVec<u8, 128>)
    requires { length from.now ≤ 128 }
    ensures { to.new.items ≡ from.now }
{
    if to.len() == from.len() {
        to.as_mut_slice().copy_from_slice(from);
    } else {
        to.clear();
        let _room = to.try_extend_from_slice(from);
    }
}

/// Puts these values into an array in the place of what it had.
pub fn copy_values(from: &[u32], to: &mut ArrayVec<u32, 34>)
    requires { length from.now ≤ 34 }
    ensures { to.new.items ≡ from.now }
{
    if to.len() == from.len() {
        to.as_mut_slice().copy_from_slice(from);
    } else {
        to.clear();
        let _room = to.try_extend_from_slice(from);
    }
}

/// A semi-state without pieces and values.
pub fn empty_state() -> SemiState {
    SemiState {
        mover: Role::Keeper,
        pieces: ArrayVec::new(),
        values: ArrayVec::new(),
        vertex: 0,
    }
}

#[cycle(copies)]
pub fn copied_expression(alloc: Global, expr: &Expr) -> Result<Expr, AllocError>
    ensures { IfOk result (λ e. expression_of e ≡ expression_of expr.now) }
{
    match expr {
        Expr::Number(n) => Ok(Expr::Number(*n)),
        Expr::Variable(v) => Ok(Expr::Variable(*v)),
        Expr::Negation(part) => {
            let part = copied_expression(alloc, part)?;
            Ok(Expr::Negation(Box::new(alloc, part)?))
        }
        Expr::Sum(terms) => Ok(Expr::Sum(copied_expressions(alloc, terms)?)),
        Expr::Product(factors) => Ok(Expr::Product(copied_expressions(alloc, factors)?)),
    }
}

#[cycle(copies)]
fn copied_expressions(alloc: Global, exprs: &[Expr]) -> Result<Vec<Expr>, AllocError>
    ensures { IfOk result (λ es. map expression_of es.items ≡ map expression_of exprs.now) }
{
    let mut copies = Vec::new(alloc);
    for expr in exprs {
        copies.push(copied_expression(alloc, expr)?)?;
    }
    Ok(copies)
}
