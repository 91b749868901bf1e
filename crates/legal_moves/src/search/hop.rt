//! A search for the ends of moves that goes from one action other than a shift to the next, by the jumps of the rules.
ghost use Rattle.std.specs.Prelude.{◌≡◌, ◌+◌, ◌≤◌, ◌<◌, false, length, Some, slice_get, Err, IsOk, IfOk, OnOk, IfSome};
ghost use Rattle.rbg_game.specs.Rules.{count, action_at, is_switch};
ghost use Rattle.rbg_game.specs.Games.{Game};
ghost use Rattle.rbg_game.specs.Meaning.{game_of};
ghost use Rattle.rbg_game.specs.Positions.{IsStateOf};
ghost use Rattle.rbg_game.specs.declared.position.SemiState.{SemiState};
ghost use Rattle.legal_moves.specs.Configurations.{Configuration};
ghost use Rattle.legal_moves.specs.Searches.{place_at, IsWideFrom};
ghost use Rattle.legal_moves.specs.Tables.{inner_of, AreSame};
ghost use Rattle.legal_moves.specs.Jumps.{AreJumpRows, AreJumps};
ghost use Rattle.legal_moves.specs.lemmas.Answers.{IsAnswerAt};
ghost use Rattle.legal_moves.specs.lemmas.Configurations.{expression_at, IsReady, AsksTooMuch};
ghost use Rattle.legal_moves.specs.lemmas.Hops.{IsHopping, AreStillThere, AreCounted};
ghost use Rattle.legal_moves.specs.lemmas.Progress.{began, state_at, IsTriedFrom};
ghost use Rattle.legal_moves.specs.lemmas.Reached.{AreReached};
ghost use Rattle.legal_moves.specs.lemmas.Stands.{configurations_of, AreKept, ShowsOne};
ghost use Rattle.legal_moves.specs.lemmas.VertexSearch.{at_vertex, TellsAt};

use crate::automaton::jumps::{Jump, Jumps};
use crate::automaton::table::Step;
use crate::copies::copied_state;
use crate::effect::{Glance, glance_where_seen};
use crate::fault::MoveFault;
use crate::limits::WIDEST;
use crate::search::answers::LastPattern;
use crate::search::found::{Found, Shown, Stand};
use crate::search::room::Room;
use crate::search::searcher::Searcher;
use rbg_game::position::SemiState;

/// A searcher with the rows of the expression that is searched.
#[derive(Clone, Copy)]
pub struct Hopper<'a> {
    pub searcher: Searcher<'a>,
    pub rows: &'a Jumps,
}

impl Hopper<'_> {
    /// The ends of moves, with more: by jumps, or by steps where those do not tell.
    pub fn ends(
        &self,
        room: &mut Room,
        index: usize,
        place: u16,
        state: &SemiState,
    ) -> Result<Found, MoveFault>
        requires ready { IsReady (game_of self.now.searcher.game.now) self.now.searcher.tables.now index }
        requires same { AreSame (inner_of (game_of self.now.searcher.game.now).rules) self.now.searcher.same.now }
        requires jumps { AreJumps (game_of self.now.searcher.game.now) self.now.searcher.tables.now self.now.searcher.jumps.now }
        requires rows { let game = game_of self.now.searcher.game.now in AreJumpRows game (expression_at game index) self.now.rows.now }
        requires state { IsStateOf (game_of self.now.searcher.game.now) state.now }
        requires place { place ≤ count (expression_at (game_of self.now.searcher.game.now) index) }
        ensures reached { let game = game_of self.now.searcher.game.now in let e = expression_at game index in IfOk result
            (λ found. AreReached game e place state.now (configurations_of found)) }
        ensures kept { IfOk result AreKept }
        ensures wide { let game = game_of self.now.searcher.game.now in let e = expression_at game index in
            result ≡ Err MoveFault.TooWide → IsWideFrom game e place state.now }
    {
        match self.hop(room, index, place, state) {
            Ok(Some(found)) => Ok(found),
            Err(MoveFault::OutOfMemory) => Err(MoveFault::OutOfMemory),
            Ok(None) | Err(MoveFault::TooWide) => self.searcher.search(room, index, place, state),
        }
    }

    /// The opening, and all that actions other than shifts lead to; none if there are no rows, or where the search may be too wide.
    fn hop(
        &self,
        room: &mut Room,
        index: usize,
        place: u16,
        state: &SemiState,
    ) -> Result<Option<Found>, MoveFault>
        requires ready { IsReady (game_of self.now.searcher.game.now) self.now.searcher.tables.now index }
        requires same { AreSame (inner_of (game_of self.now.searcher.game.now).rules) self.now.searcher.same.now }
        requires jumps { AreJumps (game_of self.now.searcher.game.now) self.now.searcher.tables.now self.now.searcher.jumps.now }
        requires rows { let game = game_of self.now.searcher.game.now in AreJumpRows game (expression_at game index) self.now.rows.now }
        requires state { IsStateOf (game_of self.now.searcher.game.now) state.now }
        requires place { place ≤ count (expression_at (game_of self.now.searcher.game.now) index) }
        ensures reached { let game = game_of self.now.searcher.game.now in let e = expression_at game index in IfOk result
            (λ o. IfSome o (λ f. AreReached game e place state.now (configurations_of f))) }
        ensures kept { IfOk result (λ o. IfSome o AreKept) }
    {
        if self.rows.rows.is_empty() {
            return Ok(None);
        }
        let mut found = Found::begun(self.searcher.alloc, &mut room.founds, state)?;
        let mut here = Shown {
            at: 0,
            state: copied_state(state),
        };
        let mut left = WIDEST - 1;
        let mut at = 0;
        while at < found.stands.len() {
            let met = self.hop_from(room, index, place, &mut found, at, &mut here)?;
            if met > left {
                room.keep(found);
                return Ok(None);
            }
            left -= met;
            at += 1;
        }
        Ok(Some(found))
    }

    /// Adds what the jumps from the configuration at the index lead to; how many numbers and vertices are met on the way.
    fn hop_from(
        &self,
        room: &mut Room,
        index: usize,
        place: u16,
        found: &mut Found,
        at: usize,
        here: &mut Shown,
    ) -> Result<usize, MoveFault>
        requires ready { IsReady (game_of self.now.searcher.game.now) self.now.searcher.tables.now index }
        requires same { AreSame (inner_of (game_of self.now.searcher.game.now).rules) self.now.searcher.same.now }
        requires jumps { AreJumps (game_of self.now.searcher.game.now) self.now.searcher.tables.now self.now.searcher.jumps.now }
        requires rows { let game = game_of self.now.searcher.game.now in AreJumpRows game (expression_at game index) self.now.rows.now }
        requires some { 0 < length self.now.rows.now.rows.items }
        requires place { place ≤ count (expression_at (game_of self.now.searcher.game.now) index) }
        requires at { at < length found.old.stands.items }
        requires kept { AreKept found.old }
        requires shown { ShowsOne found.old here.old }
        requires hopping { let game = game_of self.now.searcher.game.now in let cs = configurations_of found.old in
            IsHopping game (expression_at game index) place (began cs) cs at }
        ensures kept { OnOk result (AreKept found.new) }
        ensures shown { OnOk result (ShowsOne found.new here.new) }
        ensures still { OnOk result (AreStillThere (configurations_of found.old) (configurations_of found.new)) }
        ensures hopping { let game = game_of self.now.searcher.game.now in let cs = configurations_of found.old in OnOk result
            (IsHopping game (expression_at game index) place (began cs) (configurations_of found.new) (at + 1)) }
        ensures counted { let game = game_of self.now.searcher.game.now in let cs = configurations_of found.old in IfOk result
            (λ n. (c : Configuration) → slice_get cs at ≡ Some c → AreCounted game (expression_at game index) place c n) }
    {
        let Stand { ends, .. } = found.stands[at];
        if ends {
            return Ok(1);
        }
        self.hop_over(room, index, place, found, at, here)
    }

    /// Adds what the jumps of the row lead to from a configuration that ends no move. The number is that of `hop_from`.
    fn hop_over(
        &self,
        room: &mut Room,
        index: usize,
        place: u16,
        found: &mut Found,
        at: usize,
        here: &mut Shown,
    ) -> Result<usize, MoveFault>
        requires ready { IsReady (game_of self.now.searcher.game.now) self.now.searcher.tables.now index }
        requires same { AreSame (inner_of (game_of self.now.searcher.game.now).rules) self.now.searcher.same.now }
        requires jumps { AreJumps (game_of self.now.searcher.game.now) self.now.searcher.tables.now self.now.searcher.jumps.now }
        requires rows { let game = game_of self.now.searcher.game.now in AreJumpRows game (expression_at game index) self.now.rows.now }
        requires some { 0 < length self.now.rows.now.rows.items }
        requires place { place ≤ count (expression_at (game_of self.now.searcher.game.now) index) }
        requires at { at < length found.old.stands.items }
        requires kept { AreKept found.old }
        requires shown { ShowsOne found.old here.old }
        requires plain { let e = expression_at (game_of self.now.searcher.game.now) index in (c : Configuration)
            → slice_get (configurations_of found.old) at ≡ Some c → is_switch (action_at e 1 c.at.place) ≡ false }
        requires hopping { let game = game_of self.now.searcher.game.now in let cs = configurations_of found.old in
            IsHopping game (expression_at game index) place (began cs) cs at }
        ensures kept { OnOk result (AreKept found.new) }
        ensures shown { OnOk result (ShowsOne found.new here.new) }
        ensures still { OnOk result (AreStillThere (configurations_of found.old) (configurations_of found.new)) }
        ensures hopping { let game = game_of self.now.searcher.game.now in let cs = configurations_of found.old in OnOk result
            (IsHopping game (expression_at game index) place (began cs) (configurations_of found.new) (at + 1)) }
        ensures counted { let game = game_of self.now.searcher.game.now in let cs = configurations_of found.old in IfOk result
            (λ n. (c : Configuration) → slice_get cs at ≡ Some c → AreCounted game (expression_at game index) place c n) }
    {
        let Stand {
            vertex,
            place: last,
            ..
        } = found.stands[at];
        let row = self
            .rows
            .row(self.searcher.game, looked_up(place, last), vertex);
        let mut known = None;
        let mut asked = vertex;
        for jump in &row.to {
            ask_at(jump.vertex, &mut asked, &mut known);
            self.hop_on(room, index, found, at, here, *jump, &mut known)?;
        }
        Ok(row.met)
    }

    /// Adds what one jump leads to from the configuration at the index.
    fn hop_on(
        &self,
        room: &mut Room,
        index: usize,
        found: &mut Found,
        at: usize,
        here: &mut Shown,
        jump: Jump,
        known: &mut Option<LastPattern>,
    ) -> Result<(), MoveFault>
        requires ready { IsReady (game_of self.now.searcher.game.now) self.now.searcher.tables.now index }
        requires same { AreSame (inner_of (game_of self.now.searcher.game.now).rules) self.now.searcher.same.now }
        requires jumps { AreJumps (game_of self.now.searcher.game.now) self.now.searcher.tables.now self.now.searcher.jumps.now }
        requires at { at < length found.old.stands.items }
        requires kept { AreKept found.old }
        requires shown { ShowsOne found.old here.old }
        requires state { IsStateOf (game_of self.now.searcher.game.now) (at_vertex (state_at (configurations_of found.old) at) jump.vertex) }
        requires from { 1 ≤ jump.number }
        requires upto { jump.number ≤ count (expression_at (game_of self.now.searcher.game.now) index) }
        requires known { IsAnswerAt (game_of self.now.searcher.game.now) (at_vertex (state_at (configurations_of found.old) at) jump.vertex) known.old }
        ensures known { OnOk result
            (IsAnswerAt (game_of self.now.searcher.game.now) (at_vertex (state_at (configurations_of found.old) at) jump.vertex) known.new) }
        ensures kept { OnOk result (AreKept found.new) }
        ensures shown { OnOk result (ShowsOne found.new here.new) }
        ensures tried { let game = game_of self.now.searcher.game.now in let S = at_vertex (state_at (configurations_of found.old) at) jump.vertex in
            OnOk result (IsTriedFrom game (expression_at game index) jump.number S at (configurations_of found.old) (configurations_of found.new)) }
        ensures narrow { let game = game_of self.now.searcher.game.now in let S = at_vertex (state_at (configurations_of found.old) at) jump.vertex in
            IsOk result → ¬ AsksTooMuch game (expression_at game index) jump.number S }
    {
        let Jump { number, vertex } = jump;
        match self.glance_over(room, index, found, at, here, jump, known)? {
            Glance::Fails => Ok(()),
            Glance::At(vertex) => {
                let Stand { board, mover, .. } = found.stands[at];
                found.add(Stand {
                    board,
                    mover,
                    vertex,
                    place: number,
                    parent: at,
                    shows: false,
                    ends: false,
                })
            }
            Glance::Writes => self.searcher.write(room, index, found, at, vertex, number),
        }
    }

    /// What the jump's occurrence comes to in the configuration at the index, were it at the jump's vertex. Only a pattern has it shown.
    #[inline(always)]
    fn glance_over(
        &self,
        room: &mut Room,
        index: usize,
        found: &Found,
        at: usize,
        here: &mut Shown,
        jump: Jump,
        known: &mut Option<LastPattern>,
    ) -> Result<Glance, MoveFault>
        requires ready { IsReady (game_of self.now.searcher.game.now) self.now.searcher.tables.now index }
        requires same { AreSame (inner_of (game_of self.now.searcher.game.now).rules) self.now.searcher.same.now }
        requires jumps { AreJumps (game_of self.now.searcher.game.now) self.now.searcher.tables.now self.now.searcher.jumps.now }
        requires at { at < length found.now.stands.items }
        requires kept { AreKept found.now }
        requires shown { ShowsOne found.now here.old }
        requires state { IsStateOf (game_of self.now.searcher.game.now) (at_vertex (state_at (configurations_of found.now) at) jump.vertex) }
        requires from { 1 ≤ jump.number }
        requires upto { jump.number ≤ count (expression_at (game_of self.now.searcher.game.now) index) }
        requires known { IsAnswerAt (game_of self.now.searcher.game.now) (at_vertex (state_at (configurations_of found.now) at) jump.vertex) known.old }
        ensures known { OnOk result
            (IsAnswerAt (game_of self.now.searcher.game.now) (at_vertex (state_at (configurations_of found.now) at) jump.vertex) known.new) }
        ensures shown { OnOk result (ShowsOne found.now here.new) }
        ensures tells { let game = game_of self.now.searcher.game.now in IfOk result
            (TellsAt game (expression_at game index) jump.number (at_vertex (state_at (configurations_of found.now) at) jump.vertex)) }
        ensures narrow { let game = game_of self.now.searcher.game.now in IsOk result
            → ¬ AsksTooMuch game (expression_at game index) jump.number (at_vertex (state_at (configurations_of found.now) at) jump.vertex) }
    {
        let Jump { number, vertex } = jump;
        let table = &self.searcher.tables[index];
        let step = table.step(number);
        let Stand { board, mover, .. } = found.stands[at];
        let seen = found.boards.seen(board, mover, vertex);
        if !table.may_pass(number, seen.pieces[usize::from(vertex)]) {
            return Ok(Glance::Fails);
        }
        match step {
            Step::Act(action) => Ok(glance_where_seen(self.searcher.game, action, seen)),
            Step::Ask(_, _) => {
                found.show(at, here);
                self.searcher
                    .glance_at(room, index, &here.state, vertex, number, known)
            }
        }
    }
}

/// Where the numbers are looked up that can stand next: at the place of the start, or at the last action.
fn looked_up(place: u16, last: u16) -> u16
    ensures { result ≡ place_at place last }
{
    if last == 0 { place } else { last }
}

/// Forgets what a pattern has answered at another vertex.
fn ask_at(vertex: u8, asked: &mut u8, known: &mut Option<LastPattern>)
    ensures asked { asked.new ≡ vertex }
    ensures known { (game : Game) (S : SemiState) → IsAnswerAt game (at_vertex S asked.old) known.old
        → IsAnswerAt game (at_vertex S vertex) known.new }
{
    if *asked == vertex {
        return;
    }
    *asked = vertex;
    *known = None;
}
