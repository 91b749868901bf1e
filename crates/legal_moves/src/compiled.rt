//! A game made ready for the search for moves.
ghost use Rattle.std.specs.Prelude.{◌≡◌, ◌≤◌, length, IfOk, IsOk, Err, All};
ghost use Rattle.rbg_game.specs.Meaning.{game_of};
ghost use Rattle.rbg_game.specs.Sound.{IsSoundGame};
ghost use Rattle.rbg_game.specs.Positions.{IsPositionOf};
ghost use Rattle.legal_moves.specs.Moves.{start_of};
ghost use Rattle.legal_moves.specs.Searches.{IsWide};
ghost use Rattle.legal_moves.specs.Listed.{AreMoves, IsShortestMove};
ghost use Rattle.legal_moves.specs.declared.limits.TheConstants.{WIDEST};

use crate::automaton::compile::add_table;
use crate::automaton::jumps::{Jumps, all_jumps, jumps_of_rules};
use crate::automaton::patterns::same_patterns;
use crate::automaton::table::Table;
use crate::ends::ascending_ends;
use crate::fault::MoveFault;
use crate::fields::{byte_at, leader_of, role_with, value_at};
use crate::moves::Moves;
use crate::search::found::Found;
use crate::search::hop::Hopper;
use crate::search::room::Room;
use crate::search::searcher::Searcher;
use crate::source::MoveSource;
use arrayvec::ArrayVec;
use position_pack::{Packed, Packing, PackingKind};
use rbg_game::game::Game;
use rbg_game::goal::Goal;
use rbg_game::position::{Position, SemiState};
use rbg_game::roles::{Player, Role};
use retrograde::GameGraph;
use std::alloc::{AllocError, Global};
use std::cell::Cell;
use std::marker::Model;

/// A game with a table for each expression that is searched.
#[derive(Drop)]
pub struct Compiled {
    game: Game,
    /// By which positions are asked of and answered.
    packing: Packing,
    /// One for each pattern, inner ones first, and that of the rules last.
    tables: Vec<Table>,
    /// For each pattern the number of the first that asks the same.
    same: Vec<usize>,
    /// The jumps of each table.
    jumps: Vec<Jumps>,
    /// The jumps of the rules.
    hops: Jumps,
    /// The goal of the table, if it has one.
    goal: Option<Goal>,
    /// Room that one search leaves to the next. Nothing is said of what it holds.
    room: Cell<Option<Box<Room>>>,
}

impl Model for Compiled {
    ghost use Rattle.legal_moves.specs.Made.{CompiledGame, compiled_code};

    ghost Value = { CompiledGame };

    ghost coded = { compiled_code };

    ghost use Rattle.legal_moves.specs.Compiled.{IsCompiled};
    ghost use Rattle.rbg_game.specs.Goals.{points_of};

    ghost view = { λ c. record { game = c.game; kind = c.packing.kind; goal = points_of c.goal } };

    ghost invariant = { IsCompiled };
}

impl Compiled {
    ghost use Rattle.std.specs.Prelude.{◌≡◌, ◌≤◌, length, IfOk, IsOk, Err, All};
    ghost use Rattle.rbg_game.specs.Meaning.{game_of};
    ghost use Rattle.rbg_game.specs.Sound.{IsSoundGame};
    ghost use Rattle.rbg_game.specs.Positions.{IsPositionOf};
    ghost use Rattle.legal_moves.specs.Moves.{start_of};
    ghost use Rattle.legal_moves.specs.Searches.{IsWide};
    ghost use Rattle.legal_moves.specs.Listed.{AreMoves, IsShortestMove};
    ghost use Rattle.legal_moves.specs.Compiled.{compiled_game, packing_kind, compiled_goal, IsSoundCompiled};
    ghost use Rattle.legal_moves.specs.lemmas.Configurations.{IsSearch};
    ghost use Rattle.legal_moves.specs.lemmas.Reached.{AreReached};
    ghost use Rattle.legal_moves.specs.lemmas.Stands.{configurations_of, AreKept};
    ghost use Rattle.rbg_game.specs.Goals.{points_of};
    ghost use Rattle.position_pack.specs.Packings.{form_of};

    /// Makes the tables of the rules and of the patterns in them. Bytes of positions are by the packing of this kind, and who is ahead
    /// goes by this goal, if there is one.
    pub fn new(
        alloc: Global,
        game: Game,
        kind: PackingKind,
        goal: Option<Goal>,
    ) -> Result<Compiled, AllocError>
        requires { IsSoundGame (game_of game) }
        ensures game { IfOk result (λ c. compiled_game c ≡ game_of game) }
        ensures kind { IfOk result (λ c. packing_kind c ≡ kind) }
        ensures goal { IfOk result (λ c. compiled_goal c ≡ points_of goal) }
        ensures sound { IfOk result IsSoundCompiled }
    {
        let mut tables = Vec::new(alloc);
        add_table(alloc, &mut tables, &game.rules)?;
        let same = same_patterns(alloc, &game.rules)?;
        let jumps = all_jumps(alloc, &game, &tables)?;
        let hops = jumps_of_rules(alloc, &game, &tables)?;
        let packing = Packing::new(&game, kind);
        Ok(Compiled {
            game,
            packing,
            tables,
            same,
            jumps,
            hops,
            goal,
            room: Cell::new(None),
        })
    }

    /// The game that was compiled.
    pub fn game(&self) -> &Game
        ensures { game_of result.now ≡ compiled_game self.now }
    {
        &self.game
    }

    /// How positions are packed.
    pub fn packing(&self) -> &Packing
        ensures { result.now ≡ form_of (packing_kind self.now) (compiled_game self.now) }
    {
        &self.packing
    }

    /// The keeper to move, all values 0, the pieces of the board, the first vertex, place 0.
    pub fn start(&self) -> Position
        ensures start { result ≡ start_of (compiled_game self.now) }
        ensures position { IsPositionOf (compiled_game self.now) result }
    {
        let mut pieces = ArrayVec::new();
        for vertex in &self.game.vertices {
            pieces.push(vertex.piece);
        }
        let mut values = ArrayVec::new();
        for _variable in &self.game.variables {
            values.push(0);
        }
        Position {
            state: SemiState {
                mover: Role::Keeper,
                pieces,
                values,
                vertex: 0,
            },
            place: 0,
        }
    }

    /// The moves of a position. Only for want of memory may the other error come.
    pub fn moves(&self, alloc: Global, at: &Position) -> Result<Moves, MoveFault>
        requires at { IsPositionOf (compiled_game self.now) at.now }
        ensures exact { IfOk result (λ moves. AreMoves (compiled_game self.now) at.now moves) }
        ensures shortest { IfOk result (λ moves. All (IsShortestMove (compiled_game self.now) at.now) moves) }
        ensures few { IfOk result (λ moves. length moves ≤ WIDEST) }
        ensures wide { result ≡ Err MoveFault.TooWide → IsWide (compiled_game self.now) at.now }
        ensures narrow { IsOk result → ¬ IsWide (compiled_game self.now) at.now }
    {
        let mut room = Room::new(alloc);
        let found = self.search(alloc, &mut room, at)?;
        let moves = Moves::of(alloc, found)?;
        Ok(moves)
    }

    /// The search for the moves of a position.
    fn search(&self, alloc: Global, room: &mut Room, at: &Position) -> Result<Found, MoveFault>
        requires at { IsPositionOf (compiled_game self.now) at.now }
        ensures found { let game = compiled_game self.now in IfOk result
            (λ found. IsSearch game game.rules at.now.place at.now.state (configurations_of found)) }
        ensures kept { IfOk result AreKept }
        ensures sound { IsSoundGame (compiled_game self.now) }
        ensures wide { result ≡ Err MoveFault.TooWide → IsWide (compiled_game self.now) at.now }
    {
        let searcher = Searcher {
            game: &self.game,
            tables: &self.tables,
            same: &self.same,
            jumps: &self.jumps,
            alloc,
        };
        let rules = self.tables.len() - 1;
        searcher.search(room, rules, at.place, &at.state)
    }

    /// The search for the ends of the moves of a position.
    fn ends(&self, alloc: Global, room: &mut Room, at: &Position) -> Result<Found, MoveFault>
        requires at { IsPositionOf (compiled_game self.now) at.now }
        ensures reached { let game = compiled_game self.now in IfOk result
            (λ found. AreReached game game.rules at.now.place at.now.state (configurations_of found)) }
        ensures kept { IfOk result AreKept }
        ensures wide { result ≡ Err MoveFault.TooWide → IsWide (compiled_game self.now) at.now }
    {
        let searcher = Searcher {
            game: &self.game,
            tables: &self.tables,
            same: &self.same,
            jumps: &self.jumps,
            alloc,
        };
        let hopper = Hopper {
            searcher,
            rows: &self.hops,
        };
        let rules = self.tables.len() - 1;
        hopper.ends(room, rules, at.place, &at.state)
    }

    /// The room that the search before this one has left, or new room.
    fn room(&self, alloc: Global) -> Result<Box<Room>, AllocError> {
        match self.room.take() {
            Some(room) => Ok(room),
            None => new_room(alloc),
        }
    }
}

/// New room: a function of its own, since a call pays for all the room that its function may need.
#[inline(never)]
fn new_room(alloc: Global) -> Result<Box<Room>, AllocError> {
    Ok(Box::new(alloc, Room::new(alloc))?)
}

impl GameGraph for Compiled {
    ghost use Rattle.legal_moves.specs.Compiled.{compiled_game, packing_kind, compiled_goal};
    ghost use Rattle.legal_moves.specs.Sources.{IsWideAt, graph_of};

    ghost graph = { λ c. graph_of (packing_kind c) (compiled_goal c) (compiled_game c) };

    ghost is_wide = { λ c. IsWideAt (packing_kind c) (compiled_game c) };
}

impl MoveSource for Compiled {
    ghost use Rattle.std.specs.Prelude.{refl};
    ghost use Rattle.legal_moves.specs.Moves.{start_of};
    ghost use Rattle.legal_moves.specs.Compiled.{compiled_game, packing_kind, IsSoundCompiled};
    ghost use Rattle.legal_moves.specs.Sources.{IsPositionBytes};

    ghost is_sound = { IsSoundCompiled };

    ghost is_position = { λ c. IsPositionBytes (packing_kind c) (compiled_game c) };

    ghost start_is_position = { λ c is. (start_of (compiled_game c), record { position_is = is.start_is; bytes_are = refl }) };

    ghost moves_are_between_positions = { λ c x y is (at, next, from, to, leads). ((at, from), (next, to)) };

    fn start(&self) -> Packed {
        let start = self.start();
        self.packing.pack(&start)
    }

    fn mover(&self, at: &Packed) -> Role {
        let vertices = self.game.vertices.len();
        let variables = self.game.variables.len();
        match self.packing.kind() {
            PackingKind::Bytes => role_with(u32::from(byte_at(at, vertices + 3 * variables + 1))),
            PackingKind::Bits => role_with(self.packing.field(vertices + variables + 1, at)),
        }
    }

    fn ahead(&self, at: &Packed) -> Option<Player> {
        let scores = self.game.vertices.len();
        match self.packing.kind() {
            PackingKind::Bytes => leader_of(
                self.goal,
                value_at(at, scores),
                value_at(at, scores + 3),
            ),
            PackingKind::Bits => leader_of(
                self.goal,
                self.packing.field(scores, at),
                self.packing.field(scores + 1, at),
            ),
        }
    }

    fn successors(&self, alloc: Global, at: &Packed) -> Result<Vec<Packed>, MoveFault> {
        let Some(position) = self.packing.unpack(at) else {
            return Ok(Vec::new(alloc));
        };
        let mut room = self.room(alloc)?;
        let found = self.ends(alloc, &mut room, &position)?;
        let successors = ascending_ends(alloc, &self.packing, &found)?;
        room.keep(found);
        self.room.set(Some(room));
        Ok(successors)
    }
}
