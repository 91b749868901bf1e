//! Positions with ranks.
ghost use Rattle.std.specs.Prelude.{◌≡◌, ◌≤◌, ◌↔◌, ℕ, length, true, Some};
ghost use Rattle.std.specs.Cmp.Lexicographic.{slice_cmp};
ghost use Rattle.std.specs.Ordering.{is_lt, nat_cmp};
ghost use Rattle.position_pack.specs.declared.limits.TheConstants.{MAX_PACKED};
ghost use Rattle.certificate.specs.Format.{Ascends};
ghost use Rattle.certificate.specs.Lists.{HasRankedLine, lines_in};
ghost use Rattle.certificate.specs.Strategies.{RanksBelow, RanksFrom};

use position_pack::Packed;

/// A position by its bits, and its rank in a list: in at most, or in at least how many moves a player wins it.
#[derive(Drop)]
pub struct Ranked {
    pub at: Vec<u8>,
    pub rank: u32,
}

/// Whether a position comes before these bytes in the order of its own.
pub fn is_before(ranked: &Ranked, at: &[u8]) -> bool
    ensures { result ≡ is_lt (slice_cmp nat_cmp ranked.now.at.items at.now) }
{
    ranked.at.as_slice() < at
}

/// The rank of a position. It is looked for by halves, and found since the list ascends.
fn rank_of(list: &[Ranked], at: &[u8]) -> Option<u32>
    requires { Ascends (lines_in list.now) }
    ensures { (n : ℕ) → (result ≡ Some n) ↔ HasRankedLine list.now at.now n }
{
    let place = list.partition_point(|ranked| is_before(ranked, at));
    if place >= list.len() {
        return None;
    }
    let found = &list[place];
    if found.at.as_slice() == at {
        Some(found.rank)
    } else {
        None
    }
}

/// Whether a position is found with this rank.
pub fn ranks_as(list: &[Ranked], at: &[u8], rank: u32) -> bool
    requires { Ascends (lines_in list.now) }
    ensures { (result ≡ true) ↔ HasRankedLine list.now at.now rank }
{
    match rank_of(list, at) {
        Some(found) => found == rank,
        None => false,
    }
}

/// Whether a position is found with a rank below this one.
pub fn ranks_below(list: &[Ranked], at: &[u8], rank: u32) -> bool
    requires { Ascends (lines_in list.now) }
    ensures { (result ≡ true) ↔ RanksBelow (HasRankedLine list.now) rank at.now }
{
    match rank_of(list, at) {
        Some(found) => found < rank,
        None => false,
    }
}

/// Whether a position is found with this rank or a greater one; where this one is 0, nothing is looked for.
pub fn ranks_from(list: &[Ranked], at: &[u8], rank: u32) -> bool
    requires { Ascends (lines_in list.now) }
    ensures { (result ≡ true) ↔ RanksFrom (HasRankedLine list.now) rank at.now }
{
    if rank == 0 {
        return true;
    }
    match rank_of(list, at) {
        Some(found) => found >= rank,
        None => false,
    }
}

/// A copy of the bytes of a position.
pub fn packed_of(bytes: &[u8]) -> Packed
    requires { length bytes.now ≤ MAX_PACKED }
    ensures { result.items ≡ bytes.now }
{
    let mut packed = Packed::new();
    let _fits = packed.try_extend_from_slice(bytes);
    packed
}
