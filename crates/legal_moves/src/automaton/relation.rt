//! A relation on small numbers.
ghost use Rattle.std.specs.Prelude.{IfOk};
ghost use Rattle.legal_moves.specs.lemmas.Marks.{IsMarkSet};
ghost use Rattle.legal_moves.specs.NumberLists.{AreListed};

use crate::marks::mark;
use smallvec::SmallVec;
use std::alloc::{AllocError, Global};

/// Numbers in ascending order.
pub type Followers = SmallVec<u16, 8>;

/// For each number on the left a row of marks, at the numbers that are related to it.
#[derive(Drop)]
pub struct Relation {
    rows: Vec<Vec<bool>>,
}

impl Relation {
    ghost use Rattle.std.specs.Prelude.{◌≡◌, ℕ, ◌<◌, ◌⊎◌, ◌↔◌, length, IfOk, OnOk, Contains};
    ghost use Rattle.legal_moves.specs.lemmas.Relations.{IsRelated, row_of};
    ghost use Rattle.legal_moves.specs.NumberLists.{list_at, AreListed};

    pub fn new(alloc: Global) -> Relation
        ensures { (i j : ℕ) → ¬ IsRelated result i j }
    {
        Relation {
            rows: Vec::new(alloc),
        }
    }

    /// The marks of the numbers that are related to this one.
    pub fn row(&self, left: usize) -> &[bool]
        ensures { result.now ≡ row_of self.now left }
    {
        match self.rows.get(left) {
            Some(row) => row.as_slice(),
            None => &[],
        }
    }

    pub fn relate(&mut self, alloc: Global, left: usize, right: usize) -> Result<(), AllocError>
        ensures { OnOk result ((i j : ℕ) → IsRelated self.new i j ↔ (IsRelated self.old i j ⊎ (i ≡ left) × (j ≡ right))) }
    {
        self.grow(alloc, left)?;
        mark(&mut self.rows[left], right)
    }

    /// Makes rows up to this one.
    fn grow(&mut self, alloc: Global, left: usize) -> Result<(), AllocError>
        ensures has { OnOk result (left < length self.new.rows.items) }
        ensures same { OnOk result ((i : ℕ) → row_of self.new i ≡ row_of self.old i) }
    {
        while self.rows.len() <= left {
            self.rows.push(Vec::new(alloc))?;
        }
        Ok(())
    }

    /// Relates each of the numbers on the left to each on the right.
    pub fn relate_all(
        &mut self,
        alloc: Global,
        lefts: &[usize],
        rights: &[usize],
    ) -> Result<(), AllocError>
        ensures { OnOk result ((i j : ℕ) → IsRelated self.new i j
            ↔ (IsRelated self.old i j ⊎ Contains lefts.now i × Contains rights.now j)) }
    {
        for left in lefts {
            self.relate_each(alloc, *left, rights)?;
        }
        Ok(())
    }

    fn relate_each(
        &mut self,
        alloc: Global,
        left: usize,
        rights: &[usize],
    ) -> Result<(), AllocError>
        ensures { OnOk result ((i j : ℕ) → IsRelated self.new i j ↔ (IsRelated self.old i j ⊎ (i ≡ left) × Contains rights.now j)) }
    {
        for right in rights {
            self.relate(alloc, left, *right)?;
        }
        Ok(())
    }

    /// For each number on the left the numbers that are related to it.
    pub fn lists(&self, alloc: Global) -> Result<Vec<Followers>, AllocError>
        ensures { IfOk result (λ lists. (i : ℕ) → AreListed (IsRelated self.now i) (list_at lists.items i)) }
    {
        let mut lists = Vec::new(alloc);
        for row in &self.rows {
            lists.push(listed(alloc, row)?)?;
        }
        Ok(lists)
    }
}

/// The numbers that are marked in a row. There is no list of numbers beyond 65,535, which no game within its limits has.
fn listed(alloc: Global, row: &[bool]) -> Result<Followers, AllocError>
    ensures { IfOk result (λ list. AreListed (IsMarkSet row.now) list.items) }
{
    let mut list = Followers::new(alloc);
    for (number, is_marked) in row.iter().enumerate() {
        if *is_marked {
            let Ok(number) = u16::try_from(number) else {
                return Err(AllocError);
            };
            list.push(number)?;
        }
    }
    Ok(list)
}
