//! The numbers of the successors.
ghost use Rattle.std.specs.Prelude.{◌≡◌, ◌^◌, ◌<◌, ◌≤◌, ◌⊎◌, ℕ, IfOk, IfErr, Err};
ghost use Rattle.std.specs.Prelude.{length, slice_get, Some};
ghost use Rattle.table.specs.Frames.{IsRead};
ghost use Rattle.table.specs.Memory.{bytes_of_each};
ghost use Rattle.frontier.specs.Frames.{IsGivenUp};
ghost use Rattle.frontier.specs.declared.fault.StepFault.TheVariants.{Inconsistent};
ghost use Rattle.frontier.specs.lemmas.GivenNumbers.{AreGiven, AreNumbersOf};

use crate::fault::StepFault;
use position_pack::Packed;
use std::alloc::Global;
use table::Table;

/// The numbers of some positions: each has its own, or gets the next one where it is not known.
#[derive(Debug, Drop)]
pub struct Numbers {
    pub each: Vec<u32>,
    /// The first number that is not given.
    pub next: u32,
}

/// The number that a position has, or the next one where it is not known.
fn number_or_next<T: Table>(table: &mut T, position: &Packed, next: u32) -> Result<u32, StepFault>
    requires { (T.counted table.old).known ≤ next }
    ensures number { T.is_honest table.old → IfOk result (λ i.
        ((i < length (T.stored table.old).positions) × (slice_get (T.stored table.old).positions i ≡ Some position.now.items))
        ⊎ ((i ≡ next) × ((j : ℕ) → slice_get (T.stored table.old).positions j ≡ Some position.now.items → ⊥))) }
    ensures within { IfOk result (λ i. i ≤ next) }
    ensures consistent { result ≡ Err Inconsistent → ⊥ }
    ensures read { IsRead T.stored T.is_honest T.counted T.stays table.old table.new }
    ensures err { IfErr result (IsGivenUp T.goes_on T.fails table.old table.new) }
{
    Ok(table.number_of(position)?.unwrap_or(next))
}

/// The numbers of the positions, which differ. The table stays as it is.
pub fn numbers_of<T: Table>(
    alloc: Global,
    table: &mut T,
    positions: &[Packed],
) -> Result<Numbers, StepFault>
    requires few { length positions.now ≤ 65536 }
    requires limit { (T.counted table.old).known ≤ 2 ^ 24 }
    ensures numbers { T.is_honest table.old → IfOk result (λ numbers.
        AreNumbersOf (T.stored table.old).positions (length (T.stored table.old).positions) (bytes_of_each positions.now)
        numbers.each.items numbers.next) }
    ensures given { IfOk result (λ numbers.
        AreGiven (length positions.now) (T.counted table.old).known numbers.each.items numbers.next) }
    ensures consistent { result ≡ Err Inconsistent → ⊥ }
    ensures read { IsRead T.stored T.is_honest T.counted T.stays table.old table.new }
    ensures err { IfErr result (IsGivenUp T.goes_on T.fails table.old table.new) }
{
    let mut next = table.counts().known;
    let mut each = Vec::new(alloc);
    for position in positions {
        let number = number_or_next(table, position, next)?;
        if each.push(number).is_err() {
            return Err(StepFault::OutOfMemory);
        }
        next = next.max(number + 1);
    }
    Ok(Numbers { each, next })
}
