//! Successors become known, and get their edges.
ghost use Rattle.std.specs.Prelude.{◌≡◌, ◌+◌, ◌*◌, ◌^◌, ◌<◌, ◌≤◌, ℕ, All, OnOk, IfErr, Err, length};
ghost use Rattle.std.specs.Prelude.{slice_get, Some};
ghost use Rattle.std.specs.List.Sorted.{IsStrictlySortedBy};
ghost use Rattle.table.specs.Memory.{bytes_of_each};
ghost use Rattle.table.specs.declared.limits.TheConstants.{PAGES_PER_ENTRY};
ghost use Rattle.retrograde.specs.Changes.{with_position, with_edge};
ghost use Rattle.retrograde.specs.lemmas.Expansion.{AreNoted};
ghost use Rattle.retrograde.specs.Successors.{packed_cmp};
ghost use Rattle.frontier.specs.Frames.{IsGrown, IsGivenUp};
ghost use Rattle.frontier.specs.declared.fault.StepFault.TheVariants.{Inconsistent};
ghost use Rattle.frontier.specs.lemmas.GivenNumbers.{AreNumbersOf};

use crate::fault::StepFault;
use position_pack::Packed;
use table::Table;

/// Gives a successor the next number if it has none, and its edge.
fn note<T: Table>(
    table: &mut T,
    predecessor: u32,
    number: u32,
    successor: &Packed,
) -> Result<(), StepFault>
    requires predecessor { predecessor < (T.counted table.old).known }
    requires limit { number < 2 ^ 24 }
    requires unknown { T.is_honest table.old → (T.counted table.old).known ≤ number
        → (j : ℕ) → slice_get (T.stored table.old).positions j ≡ Some successor.now.items → ⊥ }
    ensures noted { T.is_honest table.old → OnOk result
        ((number < (T.counted table.old).known
        → T.stored table.new ≡ with_edge (T.stored table.old) number predecessor)
        × ((T.counted table.old).known ≤ number
        → T.stored table.new ≡ with_edge (with_position (T.stored table.old) successor.now.items)
        (T.counted table.old).known predecessor)) }
    ensures consistent { result ≡ Err Inconsistent → ⊥ }
    ensures ok { OnOk result (IsGrown T.is_honest T.counted T.goes_on table.old table.new) }
    ensures err { IfErr result (IsGivenUp T.goes_on T.fails table.old table.new) }
    ensures takes { T.free table.old ≤ T.free table.new + PAGES_PER_ENTRY * 3 }
{
    let mut noted = number;
    if number >= table.counts().known {
        noted = table.add(successor)?;
    }
    table.add_edge(noted, predecessor)?;
    Ok(())
}

/// Gives each successor its number, and an edge from the one given. They differ, and ascend.
pub fn note_all<T: Table>(
    table: &mut T,
    predecessor: u32,
    numbers: &[u32],
    successors: &[Packed],
) -> Result<(), StepFault>
    requires predecessor { predecessor < (T.counted table.old).known }
    requires lengths { length numbers.now ≡ length successors.now }
    requires limit { All (λ i. i < 2 ^ 24) numbers.now }
    requires numbers { T.is_honest table.old → (n : ℕ)
        × AreNumbersOf (T.stored table.old).positions (length (T.stored table.old).positions) (bytes_of_each successors.now) numbers.now n }
    requires ascending { IsStrictlySortedBy packed_cmp (bytes_of_each successors.now) }
    ensures noted { T.is_honest table.old → OnOk result
        (AreNoted predecessor (bytes_of_each successors.now) (T.stored table.old) (T.stored table.new)) }
    ensures consistent { result ≡ Err Inconsistent → ⊥ }
    ensures ok { OnOk result (IsGrown T.is_honest T.counted T.goes_on table.old table.new) }
    ensures err { IfErr result (IsGivenUp T.goes_on T.fails table.old table.new) }
    ensures takes { T.free table.old ≤ T.free table.new + PAGES_PER_ENTRY * (3 * length numbers.now) }
{
    for i in 0..successors.len() {
        note(table, predecessor, numbers[i], &successors[i])?;
    }
    Ok(())
}
