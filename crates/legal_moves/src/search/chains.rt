//! Chains of what has the same bucket, from the latest down, to find again what was kept.
ghost use Rattle.std.specs.Prelude.{◌≡◌, ◌<◌, length, [], ◌∷◌, ◌++◌, List, ℕ, IfOk, OnOk, slice_index};

use std::alloc::{AllocError, Global};

/// How many chains there are.
pub const BUCKETS: usize = 512;

/// How many indices there is room for at first.
const ROOM: usize = 256;

/// The indices that were given out so far, chained by their buckets. 0 ends a chain, and one more than an index stands for the index.
#[derive(Drop)]
pub struct Chains {
    /// For each bucket the latest index that has it.
    pub heads: Vec<u32>,
    /// For each index the latest one before it with the same bucket.
    pub befores: Vec<u32>,
    ghost all_buckets: { length heads.items ≡ 512 },
}

impl Chains {
    ghost use Rattle.legal_moves.specs.lemmas.Chains.{AreChained};

    /// Chains of nothing.
    pub fn new(alloc: Global) -> Result<Chains, AllocError>
        ensures { IfOk result (AreChained []) }
    {
        Ok(Chains {
            heads: vec![in alloc; 0; BUCKETS]?,
            befores: Vec::with_capacity(alloc, ROOM)?,
        })
    }

    /// Chains of nothing, in the same room.
    pub fn emptied(self) -> Result<Chains, AllocError>
        ensures { IfOk result (AreChained []) }
    {
        let Chains {
            mut heads,
            mut befores,
        } = self;
        heads.clear();
        heads.resize(BUCKETS, 0)?;
        befores.clear();
        Ok(Chains { heads, befores })
    }

    /// The latest index that has the bucket.
    pub fn latest(&self, bucket: usize) -> usize
        requires { bucket < 512 }
        ensures { result ≡ slice_index self.now.heads.items bucket }
    {
        self.heads[bucket] as usize
    }

    /// Puts the next index to the front of the chain of its bucket. An index over 32 bits, which no search comes to, is answered as out of memory.
    pub fn push(&mut self, bucket: usize) -> Result<(), AllocError>
        requires { bucket < 512 }
        ensures { (buckets : List ℕ) → AreChained buckets self.old → OnOk result (AreChained (buckets ++ bucket ∷ []) self.new) }
    {
        let before = self.heads[bucket];
        self.befores.reserve(1)?;
        self.befores.push_reserved(before);
        let Ok(latest) = u32::try_from(self.befores.len()) else {
            return Err(AllocError);
        };
        self.heads[bucket] = latest;
        Ok(())
    }
}
