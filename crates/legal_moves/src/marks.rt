//! Rows of marks.
ghost use Rattle.std.specs.Prelude.{◌≡◌, ◌==◌, ℕ, ◌⊎◌, ◌↔◌, IfOk, OnOk, false, slice_index_or};
ghost use Rattle.std.specs.List.{list_any};
ghost use Rattle.legal_moves.specs.lemmas.Marks.{IsMarkSet};

use std::alloc::{AllocError, Global};

/// Marks one place of a row, which grows to have it.
pub fn mark(row: &mut Vec<bool>, at: usize) -> Result<(), AllocError>
    ensures { OnOk result ((j : ℕ) → IsMarkSet row.new.items j ↔ (IsMarkSet row.old.items j ⊎ (j ≡ at))) }
{
    while row.len() <= at {
        row.push(false)?;
    }
    row[at] = true;
    Ok(())
}

/// A row in which these places are marked, and no others.
pub fn marks_of(alloc: Global, places: &[usize]) -> Result<Vec<bool>, AllocError>
    ensures { IfOk result (λ row. (k : ℕ) → slice_index_or row.items k false ≡ list_any (λ j. j == k) places.now) }
{
    let mut row = Vec::new(alloc);
    for place in places {
        mark(&mut row, *place)?;
    }
    Ok(row)
}

/// Whether the place of a row is marked.
pub fn is_marked(row: &[bool], at: usize) -> bool
    ensures { result ≡ slice_index_or row.now at false }
{
    row.get(at).copied().unwrap_or(false)
}
