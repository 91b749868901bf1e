//! A search that goes from one set or comparison to the next, by the jumps of its table.
ghost use Rattle.std.specs.Prelude.{◌≡◌, ◌+◌, ◌≤◌, ◌<◌, false, length, Err, IfOk, OnOk, IfSome, MatchBool};
ghost use Rattle.std.specs.Option.{IfNone};
ghost use Rattle.rbg_game.specs.Rules.{count};
ghost use Rattle.rbg_game.specs.Meaning.{game_of};
ghost use Rattle.rbg_game.specs.Sound.{LacksSwitch};
ghost use Rattle.rbg_game.specs.Positions.{IsStateOf};
ghost use Rattle.rbg_game.specs.declared.position.SemiState.{SemiState};
ghost use Rattle.legal_moves.specs.Effects.{EffectAt};
ghost use Rattle.legal_moves.specs.Glushkov.{is_nullable};
ghost use Rattle.legal_moves.specs.Searches.{IsWideFrom};
ghost use Rattle.legal_moves.specs.Jumps.{IsRow, AreJumps};
ghost use Rattle.legal_moves.specs.lemmas.Configurations.{expression_at, IsReady};
ghost use Rattle.legal_moves.specs.lemmas.Leaps.{opened, IsMetBefore, AreStill, IsJumped, IsLeaping, HaveRows, IsNarrowTable};
ghost use Rattle.legal_moves.specs.lemmas.VertexSearch.{at_vertex, AreMarked};
ghost use Rattle.legal_moves.specs.lemmas.Searches.{IsLegal};

use crate::automaton::jumps::{Jump, JumpRow};
use crate::automaton::table::Step;
use crate::effect::{Glance, at_a_glance};
use crate::fault::MoveFault;
use crate::marks::is_marked;
use crate::search::looks::{Look, Looks, keep};
use crate::search::room::Room;
use crate::search::searcher::Searcher;
use rbg_game::position::SemiState;

impl Searcher<'_> {
    /// Whether some word of a pattern that looks alone is legal from here, by its jumps; none if it has no rows. It ends at the first yes.
    pub fn leap(
        &self,
        room: &mut Room,
        index: usize,
        state: &SemiState,
        vertex: u8,
    ) -> Result<Option<bool>, MoveFault>
        requires ready { IsReady (game_of self.now.game.now) self.now.tables.now index }
        requires jumps { AreJumps (game_of self.now.game.now) self.now.tables.now self.now.jumps.now }
        requires state { IsStateOf (game_of self.now.game.now) (at_vertex state.now vertex) }
        requires lacks { LacksSwitch (expression_at (game_of self.now.game.now) index) }
        ensures answer { let game = game_of self.now.game.now in let e = expression_at game index in IfOk result (λ o. IfSome o
            (λ b. MatchBool b (IsLegal game e (at_vertex state.now vertex)) (¬ IsLegal game e (at_vertex state.now vertex)))) }
        ensures narrow { let game = game_of self.now.game.now in let e = expression_at game index in IfOk result
            (λ o. IfSome o (λ b. ¬ IsWideFrom game e 0 (at_vertex state.now vertex))) }
        ensures wide { let game = game_of self.now.game.now in let e = expression_at game index in result ≡ Err MoveFault.TooWide
            → IsWideFrom game e 0 (at_vertex state.now vertex) }
    {
        if self.jumps[index].rows.is_empty() {
            return Ok(None);
        }
        let table = &self.tables[index];
        if table.ends.nullable {
            return Ok(Some(true));
        }
        if let Some(holds) = self.at_once(index, state, vertex) {
            return Ok(Some(holds));
        }
        let numbers = table.steps.len() + 1;
        let mut looks = Looks::begun(
            self.alloc,
            &mut room.looks,
            self.game.vertices.len(),
            numbers,
            vertex,
        )?;
        let mut at = 0;
        while at < looks.looks.len() {
            if self.leap_on(index, state, &mut looks, at)? {
                keep(&mut room.looks, looks);
                return Ok(Some(true));
            }
            at += 1;
        }
        keep(&mut room.looks, looks);
        Ok(Some(false))
    }

    /// Whether some word is legal from here, where the first jumps tell: by the one that can be taken first, or because none can be taken.
    fn at_once(&self, index: usize, state: &SemiState, vertex: u8) -> Option<bool>
        requires ready { IsReady (game_of self.now.game.now) self.now.tables.now index }
        requires jumps { AreJumps (game_of self.now.game.now) self.now.tables.now self.now.jumps.now }
        requires rows { HaveRows self.now.jumps.now index }
        requires narrow { IsNarrowTable self.now.tables.now index }
        requires state { IsStateOf (game_of self.now.game.now) (at_vertex state.now vertex) }
        requires lacks { LacksSwitch (expression_at (game_of self.now.game.now) index) }
        requires some { is_nullable (expression_at (game_of self.now.game.now) index) ≡ false }
        ensures { let game = game_of self.now.game.now in let e = expression_at game index in IfSome result
            (λ b. MatchBool b (IsLegal game e (at_vertex state.now vertex)) (¬ IsLegal game e (at_vertex state.now vertex))) }
    {
        let row = self.row(index, 0, vertex);
        if row.ends {
            return Some(true);
        }
        for jump in &row.to {
            let Some(_to) = self.leads_to(index, jump.number, state, jump.vertex) else {
                continue;
            };
            if is_marked(&self.tables[index].lasts, usize::from(jump.number)) {
                return Some(true);
            }
            return None;
        }
        Some(false)
    }

    /// Adds what the jumps from the look at the index lead to; true if a word can end on the way.
    fn leap_on(
        &self,
        index: usize,
        state: &SemiState,
        looks: &mut Looks,
        at: usize,
    ) -> Result<bool, MoveFault>
        requires ready { IsReady (game_of self.now.game.now) self.now.tables.now index }
        requires jumps { AreJumps (game_of self.now.game.now) self.now.tables.now self.now.jumps.now }
        requires rows { HaveRows self.now.jumps.now index }
        requires state { IsStateOf (game_of self.now.game.now) (at_vertex state.now (opened looks.old.looks.items)) }
        requires lacks { LacksSwitch (expression_at (game_of self.now.game.now) index) }
        requires at { at < length looks.old.looks.items }
        requires marked { AreMarked (count (expression_at (game_of self.now.game.now) index) + 1) looks.old }
        requires leaping { let S = at_vertex state.now (opened looks.old.looks.items) in let game = game_of self.now.game.now in
            IsLeaping game (expression_at game index) S looks.old.looks.items at }
        ensures marked { OnOk result (AreMarked (count (expression_at (game_of self.now.game.now) index) + 1) looks.new) }
        ensures leaping { let S = at_vertex state.now (opened looks.old.looks.items) in let game = game_of self.now.game.now in
            let e = expression_at game index in IfOk result
            (λ b. MatchBool b (IsLegal game e S) (IsLeaping game e S looks.new.looks.items (at + 1))) }
        ensures wide { let S = at_vertex state.now (opened looks.old.looks.items) in let game = game_of self.now.game.now in
            result ≡ Err MoveFault.TooWide → IsWideFrom game (expression_at game index) 0 S }
    {
        let Look { vertex, place, .. } = looks.looks[at];
        let row = self.row(index, place, vertex);
        if row.ends {
            return Ok(true);
        }
        for jump in &row.to {
            if self.jump_on(index, *jump, state, looks, at)? {
                return Ok(true);
            }
        }
        Ok(false)
    }

    /// The row of the number and the vertex.
    fn row(&self, index: usize, number: u16, vertex: u8) -> &JumpRow
        requires ready { IsReady (game_of self.now.game.now) self.now.tables.now index }
        requires jumps { AreJumps (game_of self.now.game.now) self.now.tables.now self.now.jumps.now }
        requires rows { HaveRows self.now.jumps.now index }
        requires number { number < count (expression_at (game_of self.now.game.now) index) + 1 }
        requires vertex { vertex < length (game_of self.now.game.now).vertices }
        ensures { let game = game_of self.now.game.now in IsRow game (expression_at game index) number vertex result.now }
    {
        self.jumps[index].row(self.game, number, vertex)
    }

    /// Adds what one jump leads to; true if a word can end there.
    #[inline(always)]
    fn jump_on(
        &self,
        index: usize,
        jump: Jump,
        state: &SemiState,
        looks: &mut Looks,
        at: usize,
    ) -> Result<bool, MoveFault>
        requires ready { IsReady (game_of self.now.game.now) self.now.tables.now index }
        requires narrow { IsNarrowTable self.now.tables.now index }
        requires inside { IsStateOf (game_of self.now.game.now) (at_vertex state.now jump.vertex) }
        requires lacks { LacksSwitch (expression_at (game_of self.now.game.now) index) }
        requires before { let S = at_vertex state.now (opened looks.old.looks.items) in let game = game_of self.now.game.now in
            IsMetBefore game (expression_at game index) S jump.number jump.vertex }
        requires marked { AreMarked (count (expression_at (game_of self.now.game.now) index) + 1) looks.old }
        requires leaping { let S = at_vertex state.now (opened looks.old.looks.items) in let game = game_of self.now.game.now in
            IsLeaping game (expression_at game index) S looks.old.looks.items at }
        ensures marked { OnOk result (AreMarked (count (expression_at (game_of self.now.game.now) index) + 1) looks.new) }
        ensures still { OnOk result (AreStill looks.old.looks.items looks.new.looks.items) }
        ensures leaping { let S = at_vertex state.now (opened looks.old.looks.items) in let game = game_of self.now.game.now in
            let e = expression_at game index in IfOk result (λ b. MatchBool b (IsLegal game e S)
            (IsLeaping game e S looks.new.looks.items at × IsJumped game e S looks.new.looks.items jump.number jump.vertex)) }
        ensures wide { let S = at_vertex state.now (opened looks.old.looks.items) in let game = game_of self.now.game.now in
            result ≡ Err MoveFault.TooWide → IsWideFrom game (expression_at game index) 0 S }
    {
        let Jump { number, vertex } = jump;
        let Some(vertex) = self.leads_to(index, number, state, vertex) else {
            return Ok(false);
        };
        if is_marked(&self.tables[index].lasts, usize::from(number)) {
            return Ok(true);
        }
        looks.add(Look {
            vertex,
            place: number,
            parent: at,
        })?;
        Ok(false)
    }

    /// Where the occurrence with the number leads from this vertex, if it is valid there.
    #[inline(always)]
    fn leads_to(&self, index: usize, number: u16, state: &SemiState, vertex: u8) -> Option<u8>
        requires ready { IsReady (game_of self.now.game.now) self.now.tables.now index }
        requires narrow { IsNarrowTable self.now.tables.now index }
        requires state { IsStateOf (game_of self.now.game.now) (at_vertex state.now vertex) }
        requires from { 1 ≤ number }
        requires upto { number ≤ count (expression_at (game_of self.now.game.now) index) }
        ensures some { let game = game_of self.now.game.now in IfSome result
            (λ to. EffectAt game (expression_at game index) 1 number (at_vertex state.now vertex) (at_vertex state.now to)) }
        ensures none { let game = game_of self.now.game.now in IfNone result
            ((T : SemiState) → ¬ EffectAt game (expression_at game index) 1 number (at_vertex state.now vertex) T) }
    {
        let table = &self.tables[index];
        let step = table.step(number);
        if !table.may_pass(number, state.pieces[usize::from(vertex)]) {
            return None;
        }
        match step {
            Step::Act(action) => match at_a_glance(self.game, action, state, vertex) {
                Glance::At(to) => Some(to),
                Glance::Fails => None,
                Glance::Writes => unreachable!(),
            },
            Step::Ask(_, _) => unreachable!(),
        }
    }
}
