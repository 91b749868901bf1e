//! How large expressions can become.

ghost use Rattle.std.specs.Prelude.{◌≡◌, map, reverse, drop, slice_index, false, IfOk, if◌then◌else◌};
ghost use Rattle.std.specs.List.{list_any};
ghost use Rattle.rbg_text.specs.View.{step_view};
ghost use Rattle.rbg_read.specs.lemmas.Parts.{known_view, AreFew};
ghost use Rattle.rbg_read.specs.lemmas.Flat.{is_large_number};
ghost use Rattle.rbg_read.specs.lemmas.Sizes as spec;
ghost use Rattle.rbg_read.specs.lemmas.Sizes.{sizes_made};

use crate::names::Names;
use crate::numbers::number;
use rbg_text::parser::Step;
use std::alloc::{AllocError, Global};

/// The greatest size of an expression, 2^62.
const MAX_SIZE: u64 = 1 << 62;

/// The newest size, which is taken off, or 0 where there is none.
fn pop(sizes: &mut Vec<u64>) -> u64
    ensures value { result ≡ spec.first_size (reverse sizes.old.items) }
    ensures after { reverse sizes.new.items ≡ drop 1 (reverse sizes.old.items) }
{
    sizes.pop().unwrap_or(0)
}

fn bound_at(bounds: &[u32], at: usize) -> u64
    ensures { result ≡ slice_index bounds.now at }
{
    if at < bounds.len() {
        u64::from(bounds[at])
    } else {
        0
    }
}

/// Takes off what the step needs, and gives the size of what it makes, if it makes an expression. A
/// size over 2^62 is given as some number over it.
fn size_after(names: &Names, bounds: &[u32], step: Step<'_>, sizes: &mut Vec<u64>) -> Option<u64>
    requires few { AreFew (known_view names.now) }
    requires within { is_large_number (step_view step) ≡ false }
    ensures { spec.sizes_after (known_view names.now).values bounds.now (step_view step.entry) (reverse sizes.old.items)
        ≡ sizes_made result (reverse sizes.new.items) }
{
    match step {
        Step::Number(digits) => Some(u64::from(number(digits))),
        Step::Variable(name) => Some(bound_at(bounds, usize::from(names.value_place(name)))),
        Step::Add | Step::Subtract => {
            let right = pop(sizes);
            let left = pop(sizes);
            Some(left.saturating_add(right))
        }
        Step::Multiply => {
            let right = pop(sizes);
            let left = pop(sizes);
            Some(left.saturating_mul(right))
        }
        Step::Assign(_) => {
            pop(sizes);
            None
        }
        Step::Compare(_) => {
            pop(sizes);
            pop(sizes);
            None
        }
        _ => None,
    }
}

/// Goes on by one step, and answers whether it makes an expression whose size is over the limit.
fn step_on(
    names: &Names,
    bounds: &[u32],
    step: Step<'_>,
    sizes: &mut Vec<u64>,
) -> Result<bool, AllocError>
    requires few { AreFew (known_view names.now) }
    requires within { is_large_number (step_view step) ≡ false }
    ensures { IfOk result (λ found. spec.sizes_after (known_view names.now).values bounds.now (step_view step.entry)
        (reverse sizes.old.items)
        ≡ (if found then None else Some (reverse sizes.new.items))) }
{
    if let Some(size) = size_after(names, bounds, step, sizes) {
        if size > MAX_SIZE {
            return Ok(true);
        }
        sizes.push(size)?;
    }
    Ok(false)
}

/// Whether an expression, a part of it or a beginning of a sum or a product in it is over the limit.
pub fn has_large_size(
    alloc: Global,
    names: &Names,
    bounds: &[u32],
    steps: &[Step],
) -> Result<bool, AllocError>
    requires few { AreFew (known_view names.now) }
    requires within { list_any is_large_number (map step_view steps.now) ≡ false }
    ensures { IfOk result (λ found. found ≡ spec.has_large_size (known_view names.now).values bounds.now (map step_view steps.now)) }
{
    let mut sizes = Vec::new(alloc);
    for step in steps {
        if step_on(names, bounds, *step, &mut sizes)? {
            return Ok(true);
        }
    }
    Ok(false)
}
