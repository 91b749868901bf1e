//! Limits on numbers, bounds and the parts of a game.

ghost use Rattle.std.specs.Prelude.{◌≡◌, ◌++◌, map, false, count_by, IfOk};
ghost use Rattle.std.specs.List.{list_any};
ghost use Rattle.rbg_text.specs.View.{step_view};
ghost use Rattle.rbg_text.specs.Said.{declaration_view};
ghost use Rattle.rbg_read.specs.Means.{decimal};
ghost use Rattle.rbg_read.specs.lemmas.Flat as spec;
ghost use Rattle.rbg_read.specs.lemmas.Parts.{known_view, parts_view};

use crate::names::Names;
use crate::numbers::{is_too_large, number};
use crate::parts::Parts;
use rbg_game::limits::{MAX_ACTIONS, MAX_LABELS, MAX_PIECES, MAX_VARIABLES, MAX_VERTICES};
use rbg_text::parser::Step;
use rbg_text::sections::Declaration;
use std::alloc::{AllocError, Global};

fn has_large_bound(declarations: &[Declaration]) -> bool
    ensures { result ≡ list_any (λ d. spec.has_large_bound (declaration_view d)) declarations.now }
{
    declarations
        .iter()
        .any(|declaration| is_too_large(declaration.bound))
}

fn is_large_number(step: Step<'_>) -> bool
    ensures { result ≡ spec.is_large_number (step_view step.entry) }
{
    match step {
        Step::Number(digits) => is_too_large(digits),
        _ => false,
    }
}

fn has_large_number(steps: &[Step]) -> bool
    ensures { result ≡ list_any (λ s. spec.is_large_number (step_view s)) steps.now }
{
    steps.iter().any(|step| is_large_number(*step))
}

/// Whether a bound or a number is over the limit.
#[tactic(auto, using(crate::proofs::Lists::any_map))]
pub fn has_large(parts: &Parts) -> bool
    ensures { result ≡ spec.has_large (parts_view parts.now) }
{
    has_large_bound(parts.players.as_slice())
        || has_large_bound(parts.variables.as_slice())
        || has_large_number(parts.steps.as_slice())
}

fn is_action(step: Step<'_>) -> bool
    ensures { result ≡ spec.is_action (step_view step.entry) }
{
    matches!(
        step,
        Step::Shift(_)
            | Step::On
            | Step::Off(_)
            | Step::Assign(_)
            | Step::Compare(_)
            | Step::Switch(_)
            | Step::Keeper
            | Step::SomeWord
            | Step::NoWord
    )
}

fn action_count(steps: &[Step]) -> usize
    ensures { result ≡ count_by spec.is_action (map step_view steps.now) }
{
    steps.iter().filter(|step| is_action(**step)).count()
}

/// Whether there is more of something than a game may have.
pub fn is_past_a_limit(names: &Names, parts: &Parts) -> bool
    ensures { result ≡ spec.is_past_a_limit (known_view names.now) (parts_view parts.now) }
{
    names.vertices.len() > MAX_VERTICES
        || names.labels.len() > MAX_LABELS
        || names.pieces.len() > MAX_PIECES
        || parts.variables.len() > MAX_VARIABLES
        || action_count(parts.steps.as_slice()) > MAX_ACTIONS
}

/// The bounds, after others.
fn add_bounds(bounds: &mut Vec<u32>, declarations: &[Declaration]) -> Result<(), AllocError>
    requires { list_any (λ d. spec.has_large_bound (declaration_view d)) declarations.now ≡ false }
    ensures { IfOk result (λ _. bounds.new.items ≡ bounds.old.items ++ map (λ d. decimal d.bound.now) declarations.now) }
{
    for declaration in declarations {
        bounds.push(number(declaration.bound))?;
    }
    Ok(())
}

/// The bounds of the players and the variables.
pub fn bounds_of(alloc: Global, parts: &Parts) -> Result<Vec<u32>, AllocError>
    requires { spec.has_large (parts_view parts.now) ≡ false }
    ensures { IfOk result (λ bounds. bounds.items ≡ spec.bounds (parts_view parts.now)) }
{
    let mut bounds = Vec::new(alloc);
    add_bounds(&mut bounds, parts.players.as_slice())?;
    add_bounds(&mut bounds, parts.variables.as_slice())?;
    Ok(bounds)
}
