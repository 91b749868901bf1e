//! Expressions made ready for a search: the steps by their numbers, and which can follow which.
ghost use Rattle.std.specs.Prelude.{◌≡◌, ◌-◌, ◌≤◌, ◌<◌, ℕ, length, ◌&&◌, ◌||◌, [], ◌∷◌, ◌++◌, if◌then◌else◌, IfOk, Some, slice_get, slice_index_or, true, false};
ghost use Rattle.std.specs.Bool.{OnTrue};
ghost use Rattle.std.specs.Int.{bit_at};
ghost use Rattle.legal_moves.specs.lemmas.Narrow.{AreFewLooks};
ghost use Rattle.legal_moves.specs.lemmas.Sets.{HasBits, AreSets};

use crate::automaton::actions::{ends_move, is_look, is_shown, label_of};
use crate::automaton::relation::{Followers, Relation};
use crate::marks::is_marked;
use rbg_game::rules::Action;
use std::alloc::{AllocError, Global};

/// What a search does at an occurrence of an action.
#[derive(Drop)]
pub enum Step {
    /// An action other than a pattern.
    Act(Action),
    /// A pattern: the answer that lets it pass, and the table of its expression.
    Ask(bool, usize),
}

impl Step {
    ghost use Rattle.std.specs.Prelude.{◌≡◌};
    ghost use Rattle.legal_moves.specs.lemmas.Tables.{switches, modifies};
    ghost use Rattle.legal_moves.specs.lemmas.Narrow.{step_looks};
    ghost use Rattle.legal_moves.specs.lemmas.Walks.{step_label};
    ghost use Rattle.legal_moves.specs.lemmas.Sets.{IsSetOf};

    pub fn is_switch(&self) -> bool
        ensures { result ≡ switches self.now }
    {
        match self {
            Step::Act(action) => ends_move(action),
            Step::Ask(_, _) => false,
        }
    }

    /// Whether it looks, and asks no pattern.
    pub fn looks_alone(&self) -> bool
        ensures { result ≡ step_looks self.now }
    {
        match self {
            Step::Act(action) => is_look(action),
            Step::Ask(_, _) => false,
        }
    }

    /// Whether it only looks, where these are the tables of patterns.
    pub fn is_look(&self, tables: &[Table]) -> bool {
        match self {
            Step::Act(action) => is_look(action),
            Step::Ask(_, inner) => tables.get(*inner).is_some_and(|table| table.looks),
        }
    }

    /// The label of a shift; none for another step.
    pub fn label(&self) -> Option<u8>
        ensures { result ≡ step_label self.now }
    {
        match self {
            Step::Act(action) => label_of(action),
            Step::Ask(_, _) => None,
        }
    }

    /// The bits of a set's pieces below 64; none for another step.
    pub fn set(&self) -> Option<u64>
        ensures { IsSetOf self.now result }
    {
        match self {
            Step::Act(Action::On(pieces)) => Some(bits_of(pieces)),
            _ => None,
        }
    }

    /// Whether a shown move names it.
    pub fn is_modifier(&self) -> bool
        ensures { result ≡ modifies self.now }
    {
        match self {
            Step::Act(action) => is_shown(action),
            Step::Ask(_, _) => false,
        }
    }
}

/// How the words of an expression begin and end.
#[derive(Drop)]
pub struct Ends {
    pub nullable: bool,
    pub first: Vec<usize>,
    pub last: Vec<usize>,
}

impl Ends {
    /// The ends of no word, or of the empty one alone.
    pub fn none(alloc: Global, nullable: bool) -> Ends
        ensures nullable { result.nullable ≡ nullable }
        ensures first { result.first.items ≡ [] }
        ensures last { result.last.items ≡ [] }
    {
        Ends {
            nullable,
            first: Vec::new(alloc),
            last: Vec::new(alloc),
        }
    }

    /// The ends of the word with this one number.
    pub fn one(alloc: Global, number: usize) -> Result<Ends, AllocError>
        ensures nullable { IfOk result (λ ends. ends.nullable ≡ false) }
        ensures first { IfOk result (λ ends. ends.first.items ≡ number ∷ []) }
        ensures last { IfOk result (λ ends. ends.last.items ≡ number ∷ []) }
    {
        let mut ends = Ends::none(alloc, false);
        ends.first.push(number)?;
        ends.last.push(number)?;
        Ok(ends)
    }

    /// The ends of words of this set, each followed by one of the next.
    pub fn then(self, next: Ends) -> Result<Ends, AllocError>
        ensures nullable { IfOk result (λ ends. ends.nullable ≡ self.nullable && next.nullable) }
        ensures first { IfOk result (λ ends. ends.first.items ≡
            (if self.nullable then self.first.items ++ next.first.items else self.first.items)) }
        ensures last { IfOk result (λ ends. ends.last.items ≡
            (if next.nullable then self.last.items ++ next.last.items else next.last.items)) }
    {
        let Ends {
            nullable,
            mut first,
            mut last,
        } = self;
        let Ends {
            nullable: next_nullable,
            first: next_first,
            last: next_last,
        } = next;
        if nullable {
            first.extend_from_slice(&next_first)?;
        }
        if next_nullable {
            last.extend_from_slice(&next_last)?;
        } else {
            last = next_last;
        }
        Ok(Ends {
            nullable: nullable && next_nullable,
            first,
            last,
        })
    }

    /// The ends of words of either set.
    pub fn or(self, next: &Ends) -> Result<Ends, AllocError>
        ensures nullable { IfOk result (λ ends. ends.nullable ≡ self.nullable || next.now.nullable) }
        ensures first { IfOk result (λ ends. ends.first.items ≡ self.first.items ++ next.now.first.items) }
        ensures last { IfOk result (λ ends. ends.last.items ≡ self.last.items ++ next.now.last.items) }
    {
        let Ends {
            nullable,
            mut first,
            mut last,
        } = self;
        first.extend_from_slice(&next.first)?;
        last.extend_from_slice(&next.last)?;
        Ok(Ends {
            nullable: nullable || next.nullable,
            first,
            last,
        })
    }
}

/// The occurrences of an expression, with numbers from 1.
#[derive(Drop)]
pub struct Table {
    pub steps: Vec<Step>,
    /// For each number those that can stand right after it; for 0 those that can stand first.
    pub follows: Vec<Followers>,
    pub ends: Ends,
    /// For each number whether words can end there.
    pub lasts: Vec<bool>,
    /// Whether all steps only look, so that a search that writes nothing is tried first. It may be false needlessly.
    pub looks: bool,
    /// No search of it can be too wide, so that one which only has to tell yes or no may stop at the first yes. It may be false needlessly.
    pub narrow: bool,
    /// For each step that is a set of pieces the bits of those below 64.
    pub sets: Vec<Option<u64>>,
    ghost few: { narrow ≡ true → AreFewLooks steps.items },
    ghost sets_are: { AreSets steps.items sets.items },
}

impl Table {
    ghost use Rattle.std.specs.Bool.{OnFalse};
    ghost use Rattle.legal_moves.specs.NumberLists.{list_at};
    ghost use Rattle.legal_moves.specs.lemmas.Sets.{Refuses};
    ghost use Rattle.legal_moves.specs.declared.automaton.table.Step.{Step};

    /// Whether the step with this number may be valid where this piece stands: false only for a set without it.
    #[inline(always)]
    pub fn may_pass(&self, number: u16, piece: u8) -> bool
        requires from { 1 ≤ number }
        requires upto { number ≤ length self.now.steps.items }
        ensures { OnFalse result ((s : Step) → slice_get self.now.steps.items (number - 1) ≡ Some s → Refuses s piece) }
    {
        match self.sets[usize::from(number) - 1] {
            Some(set) if piece < 64 => (set >> piece) % 2 == 1,
            _ => true,
        }
    }

    /// Whether a search that only has to tell whether a word is legal may end where this is the last action.
    pub fn is_enough(&self, number: u16) -> bool
        ensures few { OnTrue result (AreFewLooks self.now.steps.items) }
        ensures last { OnTrue result (slice_index_or self.now.lasts.items number false ≡ true) }
    {
        self.narrow && is_marked(&self.lasts, usize::from(number))
    }

    /// The step with this number.
    pub fn step(&self, number: u16) -> &Step
        requires from { 1 ≤ number }
        requires upto { number ≤ length self.now.steps.items }
        ensures { slice_get self.now.steps.items (number - 1) ≡ Some result.now }
    {
        &self.steps[usize::from(number) - 1]
    }

    /// The numbers that can stand right after this one, in ascending order.
    pub fn followers(&self, number: u16) -> &[u16]
        ensures { result.now ≡ list_at self.now.follows.items number }
    {
        match self.follows.get(usize::from(number)) {
            Some(list) => list.as_slice(),
            None => &[],
        }
    }
}

/// The part of a table that is made from left to right.
#[derive(Drop)]
pub struct Draft {
    pub steps: Vec<Step>,
    pub follows: Relation,
}

/// The bits of the pieces below 64.
fn bits_of(pieces: &[u8]) -> u64
    ensures { HasBits pieces.now result }
{
    let mut bits = 0;
    for piece in pieces {
        bits = with_bit(bits, *piece);
    }
    bits
}

/// The bits with that of the piece, if it is below 64.
fn with_bit(bits: u64, piece: u8) -> u64
    ensures kept { (k : ℕ) → bit_at bits k ≡ 1 → bit_at result k ≡ 1 }
    ensures set { piece < 64 → bit_at result piece ≡ 1 }
{
    if piece < 64 {
        bits | (1 << piece)
    } else {
        bits
    }
}

/// For each step that is a set the bits of its pieces below 64.
pub fn sets_of(alloc: Global, steps: &[Step]) -> Result<Vec<Option<u64>>, AllocError>
    ensures { IfOk result (λ sets. AreSets steps.now sets.items) }
{
    let mut sets = Vec::new(alloc);
    for step in steps {
        sets.push(step.set())?;
    }
    Ok(sets)
}
