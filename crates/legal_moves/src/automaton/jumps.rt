//! Shifts gone through beforehand: from each number and vertex the occurrences other than shifts that shifts alone lead to.
ghost use Rattle.std.specs.Prelude.{◌≡◌, ◌≤◌, ◌<◌, ◌==◌, ◌&&◌, ◌||◌, ℕ, length, Some, slice_get, IfOk, OnOk, IfSome};
ghost use Rattle.std.specs.List.{list_any};
ghost use Rattle.rbg_game.specs.Rules.{count};
ghost use Rattle.rbg_game.specs.Meaning.{game_of};
ghost use Rattle.rbg_game.specs.Sound.{IsSoundGame};
ghost use Rattle.legal_moves.specs.Configurations.{expressions_of};
ghost use Rattle.legal_moves.specs.Glushkov.{IsNextAt};
ghost use Rattle.legal_moves.specs.Tables.{AreTables};
ghost use Rattle.legal_moves.specs.Jumps.{Shifts, IsRow, AreJumpRows, AreNarrowRows, AreJumps};
ghost use Rattle.legal_moves.specs.lemmas.Configurations.{expression_at, IsReady};
ghost use Rattle.legal_moves.specs.lemmas.Walks.{IsMetWith, KeepsClosure, IsLed, HasNoted, IsGoneOn, StaysOnBoard, IsClosure};
ghost use Rattle.legal_moves.specs.declared.automaton.table.Table.{Table};

use crate::automaton::table::Table;
use crate::effect::neighbour;
use crate::limits::{MOST_JUMPS, MOST_MET};
use crate::marks::is_marked;
use rbg_game::game::Game;
use std::alloc::{AllocError, Global};

/// An occurrence, and the vertex at which it is met.
#[derive(Clone, Copy)]
pub struct Jump {
    pub number: u16,
    pub vertex: u8,
}

/// What shifts alone lead to from one number and vertex.
#[derive(Drop)]
pub struct JumpRow {
    /// The occurrences other than shifts.
    pub to: Vec<Jump>,
    /// Whether a word can end at one of those shifts.
    pub ends: bool,
    /// How many numbers and vertices shifts alone lead to, that where the row begins among them.
    pub met: usize,
}

/// The rows of a table, one for each number and vertex, or none.
#[derive(Drop)]
pub struct Jumps {
    pub rows: Vec<JumpRow>,
}

impl Jumps {
    ghost use Rattle.std.specs.Prelude.{◌≡◌, ◌+◌, ◌*◌, ◌≤◌, ◌<◌, length, Some, slice_get};
    ghost use Rattle.rbg_game.specs.Meaning.{game_of};

    /// The row of the number and the vertex.
    #[inline(always)]
    pub fn row(&self, game: &Game, number: u16, vertex: u8) -> &JumpRow
        requires few { length (game_of game.now).vertices ≤ 128 }
        requires inside { number * length (game_of game.now).vertices + vertex < length self.now.rows.items }
        ensures { slice_get self.now.rows.items (number * length (game_of game.now).vertices + vertex) ≡ Some result.now }
    {
        &self.rows[usize::from(number) * game.vertices.len() + usize::from(vertex)]
    }
}

/// A row that is made.
#[derive(Drop)]
pub struct ShiftClosure {
    /// Where it begins, and what shifts have led to.
    pub met: Vec<Jump>,
    /// The occurrences other than shifts.
    pub to: Vec<Jump>,
    /// Whether a word can end at one of those shifts.
    pub ends: bool,
}

/// The rows of the last table, which is that of the rules; none if there would be too many.
pub fn jumps_of_rules(alloc: Global, game: &Game, tables: &[Table]) -> Result<Jumps, AllocError>
    requires sound { IsSoundGame (game_of game.now) }
    requires tables { AreTables (expressions_of (game_of game.now)) tables.now }
    ensures { let game = game_of game.now in IfOk result (AreJumpRows game game.rules) }
{
    let mut left = MOST_JUMPS;
    rows_of(alloc, game, tables, tables.len() - 1, &mut left)
}

/// The jumps of each table.
pub fn all_jumps(alloc: Global, game: &Game, tables: &[Table]) -> Result<Vec<Jumps>, AllocError>
    requires sound { IsSoundGame (game_of game.now) }
    requires tables { AreTables (expressions_of (game_of game.now)) tables.now }
    ensures { IfOk result (λ all. AreJumps (game_of game.now) tables.now all.items) }
{
    let mut all = Vec::new(alloc);
    let mut left = MOST_JUMPS;
    for index in 0..tables.len() {
        let jumps = jumps_of(alloc, game, tables, index, &mut left)?;
        all.push(jumps)?;
    }
    Ok(all)
}

/// The rows of jumps of a table that is narrow; none if there would be too many.
fn jumps_of(
    alloc: Global,
    game: &Game,
    tables: &[Table],
    index: usize,
    left: &mut usize,
) -> Result<Jumps, AllocError>
    requires ready { IsReady (game_of game.now) tables.now index }
    ensures { let game = game_of game.now in IfOk result
        (λ jumps. (table : Table) → slice_get tables.now index ≡ Some table → AreNarrowRows game (expression_at game index) table jumps) }
{
    if !tables[index].narrow {
        return Ok(Jumps {
            rows: Vec::new(alloc),
        });
    }
    rows_of(alloc, game, tables, index, left)
}

/// The rows of jumps of a table; none if there would be too many.
pub fn rows_of(
    alloc: Global,
    game: &Game,
    tables: &[Table],
    index: usize,
    left: &mut usize,
) -> Result<Jumps, AllocError>
    requires ready { IsReady (game_of game.now) tables.now index }
    ensures { let game = game_of game.now in IfOk result (AreJumpRows game (expression_at game index)) }
{
    let table = &tables[index];
    let mut rows = Vec::new(alloc);
    let vertices = game.vertices.len();
    for at in 0..(table.steps.len() + 1) * vertices {
        let start = Jump {
            number: (at / vertices) as u16,
            vertex: (at % vertices) as u8,
        };
        let Some(row) = row_from(alloc, game, tables, index, start, left)? else {
            return Ok(Jumps {
                rows: Vec::new(alloc),
            });
        };
        rows.push(row)?;
    }
    Ok(Jumps { rows })
}

/// The row of one number and vertex; none where it would be too much.
fn row_from(
    alloc: Global,
    game: &Game,
    tables: &[Table],
    index: usize,
    start: Jump,
    left: &mut usize,
) -> Result<Option<JumpRow>, AllocError>
    requires ready { IsReady (game_of game.now) tables.now index }
    requires inside { start.vertex < length (game_of game.now).vertices }
    ensures { let game = game_of game.now in IfOk result
        (λ o. IfSome o (IsRow game (expression_at game index) start.number start.vertex)) }
{
    let Some(walk) = walk_from(alloc, game, tables, index, start)? else {
        return Ok(None);
    };
    let ShiftClosure { met, to, ends } = walk;
    let met = met.len();
    let much = met + to.len();
    if much > *left {
        return Ok(None);
    }
    *left -= much;
    Ok(Some(JumpRow { to, ends, met }))
}

/// Goes through all that shifts lead to; none where that is too much.
fn walk_from(
    alloc: Global,
    game: &Game,
    tables: &[Table],
    index: usize,
    start: Jump,
) -> Result<Option<ShiftClosure>, AllocError>
    requires ready { IsReady (game_of game.now) tables.now index }
    requires inside { start.vertex < length (game_of game.now).vertices }
    ensures { let game = game_of game.now in IfOk result
        (λ o. IfSome o (IsClosure game (expression_at game index) start.number start.vertex)) }
{
    let mut walk = ShiftClosure {
        met: Vec::new(alloc),
        to: Vec::new(alloc),
        ends: false,
    };
    walk.met.push(start)?;
    for at in 0..MOST_MET {
        if at >= walk.met.len() {
            return Ok(Some(walk));
        }
        go_on(game, tables, index, &mut walk, at)?;
    }
    Ok(None)
}

/// Notes all that can stand right after the one at the index.
fn go_on(
    game: &Game,
    tables: &[Table],
    index: usize,
    walk: &mut ShiftClosure,
    at: usize,
) -> Result<(), AllocError>
    requires ready { IsReady (game_of game.now) tables.now index }
    requires at { at < length walk.old.met.items }
    requires inside { StaysOnBoard (game_of game.now) walk.old }
    ensures kept { OnOk result (KeepsClosure walk.old walk.new) }
    ensures gone { let game = game_of game.now in OnOk result (IsGoneOn game (expression_at game index) walk.new at) }
    ensures led { let game = game_of game.now in let e = expression_at game index in
        (p v : ℕ) → IsLed game e p v walk.old → OnOk result (IsLed game e p v walk.new) }
{
    let here = walk.met[at];
    for next in tables[index].followers(here.number) {
        note(game, tables, index, walk, here.vertex, *next)?;
    }
    Ok(())
}

/// Notes one occurrence that can stand next at this vertex: where a shift leads, or the occurrence itself.
fn note(
    game: &Game,
    tables: &[Table],
    index: usize,
    walk: &mut ShiftClosure,
    vertex: u8,
    next: u16,
) -> Result<(), AllocError>
    requires ready { IsReady (game_of game.now) tables.now index }
    requires inside { vertex < length (game_of game.now).vertices }
    requires from { 1 ≤ next }
    requires upto { next ≤ count (expression_at (game_of game.now) index) }
    ensures kept { OnOk result (KeepsClosure walk.old walk.new) }
    ensures noted { let game = game_of game.now in OnOk result (HasNoted game (expression_at game index) walk.new vertex next) }
    ensures led { let game = game_of game.now in let e = expression_at game index in
        (p v q : ℕ) → IsLed game e p v walk.old → Shifts game e p v q vertex → IsNextAt e q next → OnOk result (IsLed game e p v walk.new) }
{
    let table = &tables[index];
    let Some(label) = table.step(next).label() else {
        walk.to.push(Jump {
            number: next,
            vertex,
        })?;
        return Ok(());
    };
    let Some(to) = neighbour(&game.vertices[usize::from(vertex)], label) else {
        return Ok(());
    };
    let ends = is_marked(&table.lasts, usize::from(next));
    come_to(walk, next, to, ends)
}

/// Adds where a shift leads, if that is new, and whether a word ends there.
fn come_to(walk: &mut ShiftClosure, number: u16, vertex: u8, ends: bool) -> Result<(), AllocError>
    ensures met { OnOk result (IsMetWith walk.old.met.items number vertex walk.new.met.items) }
    ensures to { OnOk result (walk.new.to.items ≡ walk.old.to.items) }
    ensures ends { OnOk result (walk.new.ends ≡ (walk.old.ends || ends)) }
{
    walk.ends = walk.ends || ends;
    if has(&walk.met, number, vertex) {
        return Ok(());
    }
    walk.met.push(Jump { number, vertex })?;
    Ok(())
}

/// Whether this number and vertex are among them.
fn has(jumps: &[Jump], number: u16, vertex: u8) -> bool
    ensures { result ≡ list_any (λ j. (j.number == number) && (j.vertex == vertex)) jumps.now }
{
    jumps
        .iter()
        .any(|jump| jump.number == number && jump.vertex == vertex)
}
