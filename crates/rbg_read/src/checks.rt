//! The causes for which parts are no game, in their order.

ghost use Rattle.std.specs.Prelude.{◌≡◌, ◌≢◌, MatchResult};
ghost use Rattle.rbg_read.specs.lemmas.Flat as spec;
ghost use Rattle.rbg_read.specs.lemmas.Parts.{known_of, known_view, parts_view};

use crate::fault::GameFault;
use crate::limits::{bounds_of, has_large, is_past_a_limit};
use crate::names::Names;
use crate::parts::Parts;
use crate::repeats::repeats_name;
use crate::sizes::has_large_size;
use crate::switches::has_inner_switch;
use crate::uses::uses_unknown;
use std::alloc::Global;

/// The first cause, by the order of the codes, for which the parts are no game.
pub fn check(alloc: Global, names: &Names, parts: &Parts) -> Result<(), GameFault>
    requires { known_view names.now ≡ known_of (parts_view parts.now) }
    ensures { MatchResult result
        (λ _. spec.flat_cause (known_view names.now) (parts_view parts.now) ≡ None)
        (λ fault. fault ≢ GameFault.OutOfMemory → spec.flat_cause (known_view names.now) (parts_view parts.now) ≡ Some fault) }
{
    if parts.players.len() != 2 {
        return Err(GameFault::NotTwoPlayers);
    }
    if uses_unknown(names, parts) {
        return Err(GameFault::UnknownName);
    }
    if repeats_name(names, parts) {
        return Err(GameFault::RepeatedName);
    }
    if has_large(parts) {
        return Err(GameFault::BoundTooLarge);
    }
    if is_past_a_limit(names, parts) {
        return Err(GameFault::TooLarge);
    }
    let bounds = bounds_of(alloc, parts)?;
    if has_large_size(alloc, names, bounds.as_slice(), parts.steps.as_slice())? {
        return Err(GameFault::ExpressionTooLarge);
    }
    if has_inner_switch(alloc, parts.steps.as_slice())? {
        return Err(GameFault::SwitchInPattern);
    }
    Ok(())
}
