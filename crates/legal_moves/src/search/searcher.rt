//! The search for the configurations that valid actions lead to.
ghost use Rattle.std.specs.Prelude.{◌≡◌, ◌+◌, ◌≤◌, ◌<◌, ◌⊎◌, length, Err, IsOk, IfOk, OnOk};
ghost use Rattle.rbg_game.specs.Rules.{count};
ghost use Rattle.rbg_game.specs.Meaning.{game_of};
ghost use Rattle.rbg_game.specs.Positions.{IsStateOf};
ghost use Rattle.legal_moves.specs.Searches.{IsWideFrom};
ghost use Rattle.legal_moves.specs.lemmas.Configurations.{expression_at, IsReady, AsksTooMuch, IsSearch};
ghost use Rattle.legal_moves.specs.Tables.{inner_of, AreSame};
ghost use Rattle.legal_moves.specs.Jumps.{AreJumps};
ghost use Rattle.legal_moves.specs.lemmas.Answers.{IsAnswerAt};
ghost use Rattle.legal_moves.specs.lemmas.Progress.{began, state_at, IsGoing, IsTried, IsFull};
ghost use Rattle.legal_moves.specs.lemmas.VertexSearch.{TellsAt};
ghost use Rattle.legal_moves.specs.lemmas.Stands.{configurations_of, AreKept, ShowsOne};

use crate::automaton::jumps::Jumps;
use crate::automaton::table::{Step, Table};
use crate::copies::{copy_state, empty_state};
use crate::effect::{Glance, glance_where_seen};
use crate::fault::MoveFault;
use crate::search::answers::LastPattern;
use crate::search::found::{Found, Shown, Stand};
use crate::search::room::Room;
use rbg_game::game::Game;
use rbg_game::position::SemiState;
use std::alloc::Global;

/// What a search looks things up in.
#[derive(Clone, Copy)]
pub struct Searcher<'a> {
    pub game: &'a Game,
    pub tables: &'a [Table],
    /// For each pattern the number of the first that asks the same.
    pub same: &'a [usize],
    /// The jumps of each table.
    pub jumps: &'a [Jumps],
    pub alloc: Global,
}

impl Searcher<'_> {
    /// All configurations of an expression from a place and a semi-state.
    #[cycle(search)]
    pub fn search(
        &self,
        room: &mut Room,
        index: usize,
        place: u16,
        state: &SemiState,
    ) -> Result<Found, MoveFault>
        requires ready { IsReady (game_of self.now.game.now) self.now.tables.now index }
        requires same { AreSame (inner_of (game_of self.now.game.now).rules) self.now.same.now }
        requires jumps { AreJumps (game_of self.now.game.now) self.now.tables.now self.now.jumps.now }
        requires state { IsStateOf (game_of self.now.game.now) state.now }
        ensures found { let game = game_of self.now.game.now in let e = expression_at game index in IfOk result
            (λ f. IsSearch game e place state.now (configurations_of f)) }
        ensures kept { IfOk result AreKept }
        ensures wide { let game = game_of self.now.game.now in let e = expression_at game index in result ≡ Err MoveFault.TooWide
            → IsWideFrom game e place state.now }
    {
        let mut found = Found::begun(self.alloc, &mut room.founds, state)?;
        let mut here = Shown {
            at: 0,
            state: empty_state(),
        };
        copy_state(state, &mut here.state);
        let mut at = 0;
        while at < found.stands.len() {
            self.expand(room, index, place, &mut found, at, &mut here)?;
            at += 1;
        }
        Ok(found)
    }

    /// Adds what one action leads to from the configuration at the index.
    #[cycle(search)]
    fn expand(
        &self,
        room: &mut Room,
        index: usize,
        place: u16,
        found: &mut Found,
        at: usize,
        here: &mut Shown,
    ) -> Result<(), MoveFault>
        requires ready { IsReady (game_of self.now.game.now) self.now.tables.now index }
        requires same { AreSame (inner_of (game_of self.now.game.now).rules) self.now.same.now }
        requires jumps { AreJumps (game_of self.now.game.now) self.now.tables.now self.now.jumps.now }
        requires at { at < length found.old.stands.items }
        requires kept { AreKept found.old }
        requires shown { ShowsOne found.old here.old }
        requires going { let game = game_of self.now.game.now in let e = expression_at game index in IsGoing game e place
            (began (configurations_of found.old)) (configurations_of found.old) at }
        ensures kept { OnOk result (AreKept found.new) }
        ensures shown { OnOk result (ShowsOne found.new here.new) }
        ensures going { let game = game_of self.now.game.now in let e = expression_at game index in OnOk result
            (IsGoing game e place (began (configurations_of found.old)) (configurations_of found.new) (at + 1)) }
        ensures wide { let game = game_of self.now.game.now in let e = expression_at game index in result ≡ Err MoveFault.TooWide
            → IsWideFrom game e place (began (configurations_of found.old)) }
    {
        let Stand {
            place: last,
            ends,
            ..
        } = found.stands[at];
        if ends {
            return Ok(());
        }
        let from = if last == 0 { place } else { last };
        let followers = self.tables[index].followers(from);
        let mut known = None;
        for number in followers {
            self.attempt(room, index, found, at, here, *number, &mut known)?;
        }
        Ok(())
    }

    /// Adds what the occurrence with the number leads to from the configuration at the index, if it is valid there.
    #[cycle(search)]
    fn attempt(
        &self,
        room: &mut Room,
        index: usize,
        found: &mut Found,
        at: usize,
        here: &mut Shown,
        number: u16,
        known: &mut Option<LastPattern>,
    ) -> Result<(), MoveFault>
        requires ready { IsReady (game_of self.now.game.now) self.now.tables.now index }
        requires same { AreSame (inner_of (game_of self.now.game.now).rules) self.now.same.now }
        requires jumps { AreJumps (game_of self.now.game.now) self.now.tables.now self.now.jumps.now }
        requires at { at < length found.old.stands.items }
        requires kept { AreKept found.old }
        requires shown { ShowsOne found.old here.old }
        requires state { IsStateOf (game_of self.now.game.now) (state_at (configurations_of found.old) at) }
        requires from { 1 ≤ number }
        requires upto { number ≤ count (expression_at (game_of self.now.game.now) index) }
        requires known { IsAnswerAt (game_of self.now.game.now) (state_at (configurations_of found.old) at) known.old }
        ensures known { OnOk result (IsAnswerAt (game_of self.now.game.now) (state_at (configurations_of found.old) at) known.new) }
        ensures kept { OnOk result (AreKept found.new) }
        ensures shown { OnOk result (ShowsOne found.new here.new) }
        ensures tried { let game = game_of self.now.game.now in let e = expression_at game index in OnOk result
            (IsTried game e number at (configurations_of found.old) (configurations_of found.new)) }
        ensures narrow { let game = game_of self.now.game.now in let e = expression_at game index in IsOk result
            → ¬ AsksTooMuch game e number (state_at (configurations_of found.old) at) }
        ensures wide { let game = game_of self.now.game.now in let e = expression_at game index in result ≡ Err MoveFault.TooWide
            → AsksTooMuch game e number (state_at (configurations_of found.old) at)
            ⊎ IsFull game e number at (configurations_of found.old) }
    {
        match self.glance_from(room, index, found, at, here, number, known)? {
            Glance::Fails => Ok(()),
            Glance::At(vertex) => {
                let Stand { board, mover, .. } = found.stands[at];
                found.add(Stand {
                    board,
                    mover,
                    vertex,
                    place: number,
                    parent: at,
                    shows: false,
                    ends: false,
                })
            }
            Glance::Writes => {
                let Stand { vertex, .. } = found.stands[at];
                self.write(room, index, found, at, vertex, number)
            }
        }
    }

    /// What the occurrence with the number comes to in the configuration at the index. Only a pattern has it shown.
    #[cycle(search)]
    #[inline(always)]
    fn glance_from(
        &self,
        room: &mut Room,
        index: usize,
        found: &Found,
        at: usize,
        here: &mut Shown,
        number: u16,
        known: &mut Option<LastPattern>,
    ) -> Result<Glance, MoveFault>
        requires ready { IsReady (game_of self.now.game.now) self.now.tables.now index }
        requires same { AreSame (inner_of (game_of self.now.game.now).rules) self.now.same.now }
        requires jumps { AreJumps (game_of self.now.game.now) self.now.tables.now self.now.jumps.now }
        requires at { at < length found.now.stands.items }
        requires kept { AreKept found.now }
        requires shown { ShowsOne found.now here.old }
        requires state { IsStateOf (game_of self.now.game.now) (state_at (configurations_of found.now) at) }
        requires from { 1 ≤ number }
        requires upto { number ≤ count (expression_at (game_of self.now.game.now) index) }
        requires known { IsAnswerAt (game_of self.now.game.now) (state_at (configurations_of found.now) at) known.old }
        ensures known { OnOk result (IsAnswerAt (game_of self.now.game.now) (state_at (configurations_of found.now) at) known.new) }
        ensures shown { OnOk result (ShowsOne found.now here.new) }
        ensures tells { let game = game_of self.now.game.now in let e = expression_at game index in IfOk result
            (TellsAt game e number (state_at (configurations_of found.now) at)) }
        ensures narrow { let game = game_of self.now.game.now in let e = expression_at game index in IsOk result
            → ¬ AsksTooMuch game e number (state_at (configurations_of found.now) at) }
        ensures wide { let game = game_of self.now.game.now in let e = expression_at game index in result ≡ Err MoveFault.TooWide
            → AsksTooMuch game e number (state_at (configurations_of found.now) at) }
    {
        match self.tables[index].step(number) {
            Step::Act(action) => {
                let Stand {
                    board,
                    mover,
                    vertex,
                    ..
                } = found.stands[at];
                Ok(glance_where_seen(self.game, action, found.boards.seen(board, mover, vertex)))
            }
            Step::Ask(positive, inner) => {
                found.show(at, here);
                let holds = self.holds(room, *inner, &here.state, here.state.vertex, known)?;
                Ok(if holds == *positive {
                    Glance::At(here.state.vertex)
                } else {
                    Glance::Fails
                })
            }
        }
    }
}
