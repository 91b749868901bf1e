//! The conditions at one number.
ghost use Rattle.std.specs.Prelude.{◌≡◌, ◌↔◌, ◌⊎◌, ◌<◌, ℕ, List, true, false, IfOk, IfErr, Ok, Some, None};
ghost use Rattle.retrograde.specs.View.{HasNumber};
ghost use Rattle.retrograde.specs.Stored.{HasRecord, IsTable, view_of, expanded_count};
ghost use Rattle.retrograde.specs.Audit.{IsReached};
ghost use Rattle.retrograde.specs.Verdicts.{condition_of};
ghost use Rattle.table.specs.Faults.{NeedsNoPage};
ghost use Rattle.audit.specs.Causes.{HasAuditCause, HasWide};
ghost use Rattle.audit.specs.lemmas.Conditions.{IsLowest, own_condition, IsFloor};
ghost use Rattle.audit.specs.lemmas.Edges.{IsArriving};
ghost use Rattle.table.specs.Frames.{IsRead};
ghost use Rattle.audit.specs.declared.verdict.Reason.TheVariants.{A1, A2};

use crate::edges::count_edges;
use crate::fault::AuditFault;
use crate::moves::successors_of;
use crate::values::{order_failing, value_failing, waiting_failing};
use crate::verdict::Reason;
use legal_moves::MoveSource;
use position_pack::Packed;
use retrograde::Record;
use std::alloc::Global;
use table::{Table, TableFault};

/// A number is 0, and its position the start; or an edge leads to it from an expanded position with a smaller
/// number.
fn is_reached<M: MoveSource, T: Table>(
    source: &M,
    table: &mut T,
    number: u32,
    at: &Packed,
) -> Result<bool, TableFault>
    requires source { M.is_sound source.now }
    ensures reached { T.is_honest table.old → IfOk result (λ is.
        (is ≡ true) ↔ IsReached (M.graph source.now) (T.stored table.old) number at.now.items) }
    ensures read { IsRead T.stored T.is_honest T.counted T.stays table.old table.new }
    ensures room { IfErr result NeedsNoPage }
    ensures fault { IfErr result (T.fails table.old table.new) }
{
    if number == 0 {
        return Ok(source.start().as_slice() == at.as_slice());
    }
    let Some(from) = table.next_edge(number, None)? else {
        return Ok(false);
    };
    Ok(from < number && from < table.counts().expanded)
}

/// The lowest of the conditions A2 to A7 that fails at a number, without what they ask of the edges that lead to it.
fn later_failing<M: MoveSource, T: Table>(
    alloc: Global,
    source: &M,
    table: &mut T,
    number: u32,
    at: &Packed,
    kept: Record,
    floor: u32,
) -> Result<Option<Reason>, AuditFault>
    requires source { M.is_sound source.now }
    ensures lowest { T.is_honest table.old → IsTable (T.stored table.old) → HasRecord (T.stored table.old) number kept
        → IsFloor (T.stored table.old) number floor → IsReached (M.graph source.now) (T.stored table.old) number at.now.items
        → IfOk result (IsLowest (own_condition (M.graph source.now) (T.stored table.old) number at.now.items)) }
    ensures narrow { T.is_honest table.old → result ≡ Ok None → number < expanded_count (T.stored table.old)
        → ¬ M.is_wide source.now at.now.items }
    ensures read { IsRead T.stored T.is_honest T.counted T.stays table.old table.new }
    ensures err { IfErr result (HasAuditCause
        (T.is_honest table.old → (number < expanded_count (T.stored table.old)) × M.is_wide source.now at.now.items)
        (T.fails table.old table.new)) }
{
    let counts = table.counts();
    if number >= counts.expanded {
        return Ok(waiting_failing(kept, counts, floor));
    }
    let Some(successors) = successors_of(alloc, source, table, number, at, kept)? else {
        return Ok(Some(Reason::A2));
    };
    if let Some(reason) = order_failing(kept, counts, floor) {
        return Ok(Some(reason));
    }
    Ok(value_failing(source, at, kept, &successors))
}

/// The lowest condition that fails at a number, where nothing is asked of the edges that lead to it.
pub fn own_failing<M: MoveSource, T: Table>(
    alloc: Global,
    source: &M,
    table: &mut T,
    number: u32,
    floor: u32,
) -> Result<Option<Reason>, AuditFault>
    requires source { M.is_sound source.now }
    requires known { number < (T.counted table.old).known }
    ensures lowest { T.is_honest table.old → IsTable (T.stored table.old) → IsFloor (T.stored table.old) number floor
        → (x : List ℕ) → HasNumber (view_of (T.stored table.old)) number x
        → IfOk result (IsLowest (own_condition (M.graph source.now) (T.stored table.old) number x)) }
    ensures narrow { T.is_honest table.old → result ≡ Ok None → (x : List ℕ) → HasNumber (view_of (T.stored table.old)) number x
        → number < expanded_count (T.stored table.old) → ¬ M.is_wide source.now x }
    ensures read { IsRead T.stored T.is_honest T.counted T.stays table.old table.new }
    ensures err { IfErr result (HasAuditCause
        (T.is_honest table.old → HasWide (M.is_wide source.now) (T.stored table.old)) (T.fails table.old table.new)) }
{
    let at = table.packed(number)?;
    let kept = table.record(number)?;
    if !is_reached(source, table, number, &at)? {
        return Ok(Some(Reason::A1));
    }
    let reason = later_failing(alloc, source, table, number, &at, kept, floor)?;
    Ok(reason)
}

/// A reason that the edges that lead to a number do not lower.
fn is_lower(reason: Option<Reason>) -> bool
    ensures lower { result ≡ true → (reason ≡ Some A1) ⊎ (reason ≡ Some A2) }
    ensures other { result ≡ false → ¬ (reason ≡ Some A1) × ¬ (reason ≡ Some A2) }
{
    matches!(reason, Some(Reason::A1 | Reason::A2))
}

/// The lowest condition that fails at a number to which this many edges that are moves lead.
pub fn failing<M: MoveSource, T: Table>(
    alloc: Global,
    source: &M,
    table: &mut T,
    number: u32,
    floor: u32,
    arriving: u32,
) -> Result<Option<Reason>, AuditFault>
    requires source { M.is_sound source.now }
    requires known { number < (T.counted table.old).known }
    ensures lowest { T.is_honest table.old → IsTable (T.stored table.old) → IsFloor (T.stored table.old) number floor
        → (x : List ℕ) → HasNumber (view_of (T.stored table.old)) number x
        → IsArriving (M.graph source.now) (T.stored table.old) number x (expanded_count (T.stored table.old)) arriving
        → IfOk result (IsLowest (condition_of (M.graph source.now) (T.stored table.old) number x)) }
    ensures narrow { T.is_honest table.old → result ≡ Ok None → (x : List ℕ) → HasNumber (view_of (T.stored table.old)) number x
        → number < expanded_count (T.stored table.old) → ¬ M.is_wide source.now x }
    ensures read { IsRead T.stored T.is_honest T.counted T.stays table.old table.new }
    ensures err { IfErr result (HasAuditCause
        (T.is_honest table.old → HasWide (M.is_wide source.now) (T.stored table.old)) (T.fails table.old table.new)) }
{
    let own = own_failing(alloc, source, table, number, floor)?;
    if is_lower(own) {
        return Ok(own);
    }
    if count_edges(table, number)? != arriving {
        return Ok(Some(Reason::A2));
    }
    Ok(own)
}
