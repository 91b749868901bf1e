//! Positions by their numbers, with ranks, while they are found.
ghost use Rattle.certificate_writer.specs.Packers.{IsProper};

use crate::packer::Packer;
use solver::{KnownMove, SolverFault};
use std::alloc::Global;
use std::collections::BTreeMap;

/// The rank of a position that a player is never to win.
pub const NEVER: u32 = u32::MAX;

/// A position with its rank.
#[derive(Drop)]
pub struct Ranked {
    pub rank: u32,
    pub bits: Vec<u8>,
}

/// The positions that were found, and those of them whose moves are still to be looked at.
#[derive(Drop)]
pub struct Ranks {
    alloc: Global,
    found: BTreeMap<u32, Ranked>,
    todo: Vec<u32>,
}

impl Ranks {
    ghost use Rattle.certificate_writer.specs.Packers.{IsProper};

    /// None.
    pub fn new(alloc: Global) -> Ranks {
        Ranks {
            alloc,
            found: BTreeMap::new(alloc),
            todo: Vec::new(alloc),
        }
    }

    /// The rank of a position, if it was found.
    pub fn rank(&self, number: u32) -> Option<u32> {
        match self.found.get(&number) {
            Some(ranked) => Some(ranked.rank),
            None => None,
        }
    }

    /// Takes out a position whose moves are still to be looked at.
    pub fn next(&mut self) -> Option<u32> {
        self.todo.pop()
    }

    /// Gives a position a rank, unless it has as great a one. Its moves are then to be looked at.
    pub fn raise(
        &mut self,
        packer: &Packer,
        number: u32,
        text: &[u8],
        rank: u32,
    ) -> Result<(), SolverFault>
        requires { IsProper packer.now }
    {
        if let Some(old) = self.rank(number)
            && old >= rank
        {
            return Ok(());
        }
        let Some(packed) = packer.pack(text) else {
            return Err(SolverFault::Inconsistent);
        };
        let Ok(bits) = packed.to_vec(self.alloc) else {
            return Err(SolverFault::OutOfMemory);
        };
        if self.found.insert(number, Ranked { rank, bits }).is_err()
            || self.todo.push(number).is_err()
        {
            return Err(SolverFault::OutOfMemory);
        }
        Ok(())
    }

    /// Raises the rank of the position that a move leads to. One that the table does not know has no number, and is left out.
    pub fn raise_next(
        &mut self,
        packer: &Packer,
        next: &KnownMove,
        rank: u32,
    ) -> Result<(), SolverFault>
        requires { IsProper packer.now }
    {
        match next.number {
            Some(number) => self.raise(packer, number, &next.text, rank),
            None => Ok(()),
        }
    }

    /// All that were found.
    pub fn into_found(self) -> BTreeMap<u32, Ranked> {
        let Ranks { found, .. } = self;
        found
    }
}
