//! What patterns answer where a search asks them.
ghost use Rattle.std.specs.Prelude.{◌≡◌, ◌+◌, ◌≤◌, ◌<◌, length, Err, IsOk, IfOk, OnOk, IfSome, MatchBool};
ghost use Rattle.std.specs.Bool.{OnTrue};
ghost use Rattle.rbg_game.specs.Rules.{count};
ghost use Rattle.rbg_game.specs.Meaning.{game_of};
ghost use Rattle.rbg_game.specs.Sound.{LacksSwitch};
ghost use Rattle.rbg_game.specs.Positions.{IsStateOf};
ghost use Rattle.legal_moves.specs.Searches.{IsWideFrom};
ghost use Rattle.legal_moves.specs.lemmas.Searches.{IsLegal};
ghost use Rattle.legal_moves.specs.lemmas.Configurations.{expression_at, IsReady, AsksTooMuch};
ghost use Rattle.legal_moves.specs.Tables.{inner_of, AreSame};
ghost use Rattle.legal_moves.specs.Jumps.{AreJumps};
ghost use Rattle.legal_moves.specs.lemmas.Answers.{IsAnswerAt};
ghost use Rattle.legal_moves.specs.lemmas.Progress.{began, IsGoing};
ghost use Rattle.legal_moves.specs.lemmas.VertexSearch.{at_vertex, seen_from, AreMarked, TellsAt};

use crate::automaton::table::Step;
use crate::copies::copied_state;
use crate::effect::{Glance, at_a_glance};
use crate::fault::MoveFault;
use crate::search::found::any_stands_last;
use crate::search::looks::{Look, Looks, any_looks_last, keep};
use crate::search::room::Room;
use crate::search::searcher::Searcher;
use rbg_game::position::SemiState;

/// What the pattern that was asked last has answered.
#[derive(Clone, Copy)]
pub struct LastPattern {
    /// The number of the first pattern that asks the same.
    pub pattern: usize,
    pub holds: bool,
}

impl Searcher<'_> {
    /// Whether the pattern holds here, which is not asked again if the last one asked the same.
    #[cycle(search)]
    pub fn holds(
        &self,
        room: &mut Room,
        index: usize,
        state: &SemiState,
        vertex: u8,
        known: &mut Option<LastPattern>,
    ) -> Result<bool, MoveFault>
        requires ready { IsReady (game_of self.now.game.now) self.now.tables.now index }
        requires same { AreSame (inner_of (game_of self.now.game.now).rules) self.now.same.now }
        requires jumps { AreJumps (game_of self.now.game.now) self.now.tables.now self.now.jumps.now }
        requires state { IsStateOf (game_of self.now.game.now) (at_vertex state.now vertex) }
        requires lacks { LacksSwitch (expression_at (game_of self.now.game.now) index) }
        requires pattern { index < length self.now.same.now }
        requires known { IsAnswerAt (game_of self.now.game.now) (at_vertex state.now vertex) known.old }
        ensures known { OnOk result (IsAnswerAt (game_of self.now.game.now) (at_vertex state.now vertex) known.new) }
        ensures answer { let game = game_of self.now.game.now in let e = expression_at game index in IfOk result
            (λ b. MatchBool b (IsLegal game e (at_vertex state.now vertex)) (¬ IsLegal game e (at_vertex state.now vertex))) }
        ensures narrow { let game = game_of self.now.game.now in let e = expression_at game index in IsOk result
            → ¬ IsWideFrom game e 0 (at_vertex state.now vertex) }
        ensures wide { let game = game_of self.now.game.now in let e = expression_at game index in result ≡ Err MoveFault.TooWide
            → IsWideFrom game e 0 (at_vertex state.now vertex) }
    {
        let pattern = self.same[index];
        if let Some(answer) = *known
            && answer.pattern == pattern
        {
            return Ok(answer.holds);
        }
        let holds = self.is_legal(room, index, state, vertex)?;
        *known = Some(LastPattern { pattern, holds });
        Ok(holds)
    }

    /// Whether some word of the expression is legal from here, at this vertex. A pattern with jumps is searched by them, and one that only
    /// looks by vertices alone.
    #[cycle(search)]
    #[inline(never)]
    fn is_legal(
        &self,
        room: &mut Room,
        index: usize,
        state: &SemiState,
        vertex: u8,
    ) -> Result<bool, MoveFault>
        requires ready { IsReady (game_of self.now.game.now) self.now.tables.now index }
        requires same { AreSame (inner_of (game_of self.now.game.now).rules) self.now.same.now }
        requires jumps { AreJumps (game_of self.now.game.now) self.now.tables.now self.now.jumps.now }
        requires state { IsStateOf (game_of self.now.game.now) (at_vertex state.now vertex) }
        requires lacks { LacksSwitch (expression_at (game_of self.now.game.now) index) }
        ensures answer { let game = game_of self.now.game.now in let e = expression_at game index in IfOk result
            (λ b. MatchBool b (IsLegal game e (at_vertex state.now vertex)) (¬ IsLegal game e (at_vertex state.now vertex))) }
        ensures narrow { let game = game_of self.now.game.now in let e = expression_at game index in IsOk result
            → ¬ IsWideFrom game e 0 (at_vertex state.now vertex) }
        ensures wide { let game = game_of self.now.game.now in let e = expression_at game index in result ≡ Err MoveFault.TooWide
            → IsWideFrom game e 0 (at_vertex state.now vertex) }
    {
        if let Some(holds) = self.leap(room, index, state, vertex)? {
            return Ok(holds);
        }
        if self.tables[index].looks
            && let Some(legal) = self.look(room, index, state, vertex)?
        {
            return Ok(legal);
        }
        self.is_legal_by_search(room, index, state, vertex)
    }

    /// Whether a pattern has a word, by a whole search: a function of its own, since a call pays for all the room that its function may need.
    #[cycle(search)]
    #[inline(never)]
    fn is_legal_by_search(
        &self,
        room: &mut Room,
        index: usize,
        state: &SemiState,
        vertex: u8,
    ) -> Result<bool, MoveFault>
        requires ready { IsReady (game_of self.now.game.now) self.now.tables.now index }
        requires same { AreSame (inner_of (game_of self.now.game.now).rules) self.now.same.now }
        requires jumps { AreJumps (game_of self.now.game.now) self.now.tables.now self.now.jumps.now }
        requires state { IsStateOf (game_of self.now.game.now) (at_vertex state.now vertex) }
        requires lacks { LacksSwitch (expression_at (game_of self.now.game.now) index) }
        ensures answer { let game = game_of self.now.game.now in let e = expression_at game index in IfOk result
            (λ b. MatchBool b (IsLegal game e (at_vertex state.now vertex)) (¬ IsLegal game e (at_vertex state.now vertex))) }
        ensures narrow { let game = game_of self.now.game.now in let e = expression_at game index in IsOk result
            → ¬ IsWideFrom game e 0 (at_vertex state.now vertex) }
        ensures wide { let game = game_of self.now.game.now in let e = expression_at game index in result ≡ Err MoveFault.TooWide
            → IsWideFrom game e 0 (at_vertex state.now vertex) }
    {
        let mut state = copied_state(state);
        state.vertex = vertex;
        let found = self.search(room, index, 0, &state)?;
        let ends = &self.tables[index].ends;
        let legal = ends.nullable || any_stands_last(&found.stands, &ends.last);
        room.keep(found);
        Ok(legal)
    }

    /// Whether some word of a pattern that only looks is legal from here; none if the search meets an action that writes. Where it cannot be
    /// too wide, it ends at the first yes.
    #[cycle(search)]
    fn look(
        &self,
        room: &mut Room,
        index: usize,
        state: &SemiState,
        vertex: u8,
    ) -> Result<Option<bool>, MoveFault>
        requires ready { IsReady (game_of self.now.game.now) self.now.tables.now index }
        requires same { AreSame (inner_of (game_of self.now.game.now).rules) self.now.same.now }
        requires jumps { AreJumps (game_of self.now.game.now) self.now.tables.now self.now.jumps.now }
        requires state { IsStateOf (game_of self.now.game.now) (at_vertex state.now vertex) }
        requires lacks { LacksSwitch (expression_at (game_of self.now.game.now) index) }
        ensures answer { let game = game_of self.now.game.now in let e = expression_at game index in IfOk result (λ o. IfSome o
            (λ b. MatchBool b (IsLegal game e (at_vertex state.now vertex)) (¬ IsLegal game e (at_vertex state.now vertex)))) }
        ensures narrow { let game = game_of self.now.game.now in let e = expression_at game index in IfOk result
            (λ o. IfSome o (λ b. ¬ IsWideFrom game e 0 (at_vertex state.now vertex))) }
        ensures wide { let game = game_of self.now.game.now in let e = expression_at game index in result ≡ Err MoveFault.TooWide
            → IsWideFrom game e 0 (at_vertex state.now vertex) }
    {
        let table = &self.tables[index];
        let numbers = table.steps.len() + 1;
        let mut looks = Looks::begun(
            self.alloc,
            &mut room.looks,
            self.game.vertices.len(),
            numbers,
            vertex,
        )?;
        let mut at = 0;
        while at < looks.looks.len() {
            let Look { place, .. } = looks.looks[at];
            if table.is_enough(place) {
                keep(&mut room.looks, looks);
                return Ok(Some(true));
            }
            if !self.look_on(room, index, state, &mut looks, at)? {
                return Ok(None);
            }
            at += 1;
        }
        let legal = table.ends.nullable || any_looks_last(&looks.looks, &table.lasts);
        keep(&mut room.looks, looks);
        Ok(Some(legal))
    }

    /// Adds what one action leads to from the look at the index; false if that action writes.
    #[cycle(search)]
    fn look_on(
        &self,
        room: &mut Room,
        index: usize,
        state: &SemiState,
        looks: &mut Looks,
        at: usize,
    ) -> Result<bool, MoveFault>
        requires ready { IsReady (game_of self.now.game.now) self.now.tables.now index }
        requires same { AreSame (inner_of (game_of self.now.game.now).rules) self.now.same.now }
        requires jumps { AreJumps (game_of self.now.game.now) self.now.tables.now self.now.jumps.now }
        requires lacks { LacksSwitch (expression_at (game_of self.now.game.now) index) }
        requires at { at < length looks.old.looks.items }
        requires marked { AreMarked (count (expression_at (game_of self.now.game.now) index) + 1) looks.old }
        requires going { let game = game_of self.now.game.now in let e = expression_at game index in let cs =
            seen_from state.now looks.old.looks.items in IsGoing game e 0 (began cs) cs at }
        ensures marked { OnOk result (AreMarked (count (expression_at (game_of self.now.game.now) index) + 1) looks.new) }
        ensures going { let game = game_of self.now.game.now in let e = expression_at game index in let cs =
            seen_from state.now looks.old.looks.items in IfOk result
            (λ b. OnTrue b (IsGoing game e 0 (began cs) (seen_from state.now looks.new.looks.items) (at + 1))) }
        ensures wide { let game = game_of self.now.game.now in let e = expression_at game index in let cs =
            seen_from state.now looks.old.looks.items in result ≡ Err MoveFault.TooWide → IsWideFrom game e 0 (began cs) }
    {
        let Look {
            vertex,
            place: from,
            ..
        } = looks.looks[at];
        let followers = self.tables[index].followers(from);
        let mut known = None;
        for number in followers {
            let place = *number;
            match self.glance_at(room, index, state, vertex, place, &mut known)? {
                Glance::Fails => {}
                Glance::At(vertex) => looks.add(Look {
                    vertex,
                    place,
                    parent: at,
                })?,
                Glance::Writes => return Ok(false),
            }
        }
        Ok(true)
    }

    /// What the occurrence with the number comes to at this vertex.
    #[cycle(search)]
    #[inline(always)]
    pub fn glance_at(
        &self,
        room: &mut Room,
        index: usize,
        state: &SemiState,
        vertex: u8,
        number: u16,
        known: &mut Option<LastPattern>,
    ) -> Result<Glance, MoveFault>
        requires ready { IsReady (game_of self.now.game.now) self.now.tables.now index }
        requires same { AreSame (inner_of (game_of self.now.game.now).rules) self.now.same.now }
        requires jumps { AreJumps (game_of self.now.game.now) self.now.tables.now self.now.jumps.now }
        requires state { IsStateOf (game_of self.now.game.now) (at_vertex state.now vertex) }
        requires from { 1 ≤ number }
        requires upto { number ≤ count (expression_at (game_of self.now.game.now) index) }
        requires known { IsAnswerAt (game_of self.now.game.now) (at_vertex state.now vertex) known.old }
        ensures known { OnOk result (IsAnswerAt (game_of self.now.game.now) (at_vertex state.now vertex) known.new) }
        ensures tells { let game = game_of self.now.game.now in let e = expression_at game index in IfOk result
            (TellsAt game e number (at_vertex state.now vertex)) }
        ensures narrow { let game = game_of self.now.game.now in let e = expression_at game index in IsOk result
            → ¬ AsksTooMuch game e number (at_vertex state.now vertex) }
        ensures wide { let game = game_of self.now.game.now in let e = expression_at game index in result ≡ Err MoveFault.TooWide
            → AsksTooMuch game e number (at_vertex state.now vertex) }
    {
        match self.tables[index].step(number) {
            Step::Act(action) => Ok(at_a_glance(self.game, action, state, vertex)),
            Step::Ask(positive, inner) => {
                let holds = self.holds(room, *inner, state, vertex, known)?;
                Ok(if holds == *positive {
                    Glance::At(vertex)
                } else {
                    Glance::Fails
                })
            }
        }
    }
}
