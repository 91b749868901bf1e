//! Which patterns ask the same as an earlier one.
ghost use Rattle.std.specs.Prelude.{◌≡◌, ◌<◌, ◌++◌, length, map, flat_map, slice_get, IfOk, OnOk};
ghost use Rattle.rbg_game.specs.Meaning.{regex_of};
ghost use Rattle.legal_moves.specs.Tables.{inner_of, AreSame};

use crate::automaton::same::are_same;
use rbg_game::rules::{Action, Rules};
use std::alloc::{AllocError, Global};

/// For each pattern in the rules, in the order of their tables, the number of the first that asks the same.
pub fn same_patterns(alloc: Global, rules: &Rules) -> Result<Vec<usize>, AllocError>
    ensures { IfOk result (λ same. AreSame (inner_of (regex_of rules.now)) same.items) }
{
    let mut patterns = Vec::new(alloc);
    list_patterns(rules, &mut patterns)?;
    let mut same = Vec::new(alloc);
    for number in 0..patterns.len() {
        same.push(first_same(&patterns, number))?;
    }
    Ok(same)
}

/// The number of the first pattern that is the same as the one with the number.
fn first_same(patterns: &[&Rules], number: usize) -> usize
    requires { number < length patterns.now }
    ensures { slice_get (map (λ r. regex_of r.now) patterns.now) result ≡ slice_get (map (λ r. regex_of r.now) patterns.now) number }
{
    for at in 0..number {
        if are_same(patterns[at], patterns[number]) {
            return at;
        }
    }
    number
}

/// Lists the expressions of the patterns in the rules, each after those inside of it.
#[cycle(patterns)]
fn list_patterns<'a>(rules: &'a Rules, list: &mut Vec<&'a Rules>) -> Result<(), AllocError>
    ensures { OnOk result (map (λ r. regex_of r.now) list.new.items ≡ map (λ r. regex_of r.now) list.old.items
        ++ inner_of (regex_of rules.now)) }
{
    match rules {
        Rules::Action(Action::Pattern(_, inner)) => {
            list_patterns(inner, list)?;
            list.push(inner)?;
            Ok(())
        }
        Rules::Action(_) => Ok(()),
        Rules::Concat(parts) => list_patterns_of(parts, list),
        Rules::Sum(branches) => list_patterns_of(branches, list),
        Rules::Star(part) => list_patterns(part, list),
    }
}

/// Lists the patterns of some rules, one after another.
#[cycle(patterns)]
fn list_patterns_of<'a>(parts: &'a [Rules], list: &mut Vec<&'a Rules>) -> Result<(), AllocError>
    ensures { OnOk result (map (λ r. regex_of r.now) list.new.items ≡ map (λ r. regex_of r.now) list.old.items
        ++ flat_map inner_of (map regex_of parts.now)) }
{
    for part in parts {
        list_patterns(part, list)?;
    }
    Ok(())
}
