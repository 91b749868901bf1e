//! The actions of a search that change more than the vertex.
ghost use Rattle.std.specs.Prelude.{◌≡◌, ◌≤◌, ◌<◌, length, Err, OnOk};
ghost use Rattle.rbg_game.specs.Rules.{count, action_at};
ghost use Rattle.rbg_game.specs.Meaning.{game_of};
ghost use Rattle.rbg_game.specs.Positions.{IsStateOf};
ghost use Rattle.legal_moves.specs.lemmas.Configurations.{expression_at, IsReady};
ghost use Rattle.legal_moves.specs.lemmas.Progress.{state_at, IsTriedFrom, IsFullFrom};
ghost use Rattle.legal_moves.specs.lemmas.VertexSearch.{at_vertex, IsNoPattern};
ghost use Rattle.legal_moves.specs.lemmas.Stands.{configurations_of, AreKept};

use crate::automaton::table::Step;
use crate::effect::{act, leaves};
use crate::fault::MoveFault;
use crate::search::found::{Found, Stand};
use crate::search::room::Room;
use crate::search::searcher::Searcher;
use rbg_game::rules::Action;

impl Searcher<'_> {
    /// Adds what the occurrence with the number, which is no pattern, leads to from the configuration at the index, were it at this vertex.
    pub fn write(
        &self,
        room: &mut Room,
        index: usize,
        found: &mut Found,
        at: usize,
        vertex: u8,
        number: u16,
    ) -> Result<(), MoveFault>
        requires ready { IsReady (game_of self.now.game.now) self.now.tables.now index }
        requires at { at < length found.old.stands.items }
        requires kept { AreKept found.old }
        requires state { IsStateOf (game_of self.now.game.now) (at_vertex (state_at (configurations_of found.old) at) vertex) }
        requires from { 1 ≤ number }
        requires upto { number ≤ count (expression_at (game_of self.now.game.now) index) }
        requires writes { IsNoPattern (action_at (expression_at (game_of self.now.game.now) index) 1 number) }
        ensures kept { OnOk result (AreKept found.new) }
        ensures tried { let game = game_of self.now.game.now in let e = expression_at game index in let cs = configurations_of found.old in
            OnOk result (IsTriedFrom game e number (at_vertex (state_at cs at) vertex) at cs (configurations_of found.new)) }
        ensures wide { let game = game_of self.now.game.now in let e = expression_at game index in let cs = configurations_of found.old in
            result ≡ Err MoveFault.TooWide → IsFullFrom game e number (at_vertex (state_at cs at) vertex) at cs }
    {
        let Stand { board, mover, .. } = found.stands[at];
        let step = self.tables[index].step(number);
        let action = match step {
            Step::Act(action) => action,
            Step::Ask(_, _) => unreachable!(),
        };
        if let Action::Switch(role) = action {
            return found.add(Stand {
                board,
                mover: *role,
                vertex,
                place: number,
                parent: at,
                shows: step.is_modifier(),
                ends: step.is_switch(),
            });
        }
        if leaves(self.game, action, found.boards.seen(board, mover, vertex)) {
            return found.add(Stand {
                board,
                mover,
                vertex,
                place: number,
                parent: at,
                shows: step.is_modifier(),
                ends: step.is_switch(),
            });
        }
        self.write_anew(room, index, found, at, vertex, number)
    }

    /// Adds what the action makes of a copy of the board, seen from this vertex, where it changes anything.
    fn write_anew(
        &self,
        room: &mut Room,
        index: usize,
        found: &mut Found,
        at: usize,
        vertex: u8,
        number: u16,
    ) -> Result<(), MoveFault>
        requires ready { IsReady (game_of self.now.game.now) self.now.tables.now index }
        requires at { at < length found.old.stands.items }
        requires kept { AreKept found.old }
        requires state { IsStateOf (game_of self.now.game.now) (at_vertex (state_at (configurations_of found.old) at) vertex) }
        requires from { 1 ≤ number }
        requires upto { number ≤ count (expression_at (game_of self.now.game.now) index) }
        requires writes { IsNoPattern (action_at (expression_at (game_of self.now.game.now) index) 1 number) }
        ensures kept { OnOk result (AreKept found.new) }
        ensures tried { let game = game_of self.now.game.now in let e = expression_at game index in let cs = configurations_of found.old in
            OnOk result (IsTriedFrom game e number (at_vertex (state_at cs at) vertex) at cs (configurations_of found.new)) }
        ensures wide { let game = game_of self.now.game.now in let e = expression_at game index in let cs = configurations_of found.old in
            result ≡ Err MoveFault.TooWide → IsFullFrom game e number (at_vertex (state_at cs at) vertex) at cs }
    {
        let Stand { board, mover, .. } = found.stands[at];
        let step = self.tables[index].step(number);
        let action = match step {
            Step::Act(action) => action,
            Step::Ask(_, _) => unreachable!(),
        };
        let there = &mut room.state;
        found.boards.put(board, mover, vertex, there);
        if !act(self.game, action, there) {
            return Ok(());
        }
        let board = found.number_of(there)?;
        found.add(Stand {
            board,
            mover: there.mover,
            vertex: there.vertex,
            place: number,
            parent: at,
            shows: step.is_modifier(),
            ends: step.is_switch(),
        })
    }
}
