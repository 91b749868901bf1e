//! Switches in patterns.

ghost use Rattle.std.specs.Prelude.{◌≡◌, map, reverse, drop, IfOk, if◌then◌else◌};
ghost use Rattle.rbg_text.specs.View.{step_view};
ghost use Rattle.rbg_read.specs.lemmas.Switches as spec;
ghost use Rattle.rbg_read.specs.lemmas.Switches.{flags_made};

use rbg_text::parser::Step;
use std::alloc::{AllocError, Global};

/// The newest flag, which is taken off, or false where there is none.
fn pop(flags: &mut Vec<bool>) -> bool
    ensures value { result ≡ spec.first_flag (reverse flags.old.items) }
    ensures after { reverse flags.new.items ≡ drop 1 (reverse flags.old.items) }
{
    flags.pop().unwrap_or(false)
}

/// What a step makes of the newest parts of the rules.
enum Made {
    /// A part, and whether it has a switch in it.
    Part(bool),
    /// The part stays as it is.
    Same,
    /// A pattern with a switch in it.
    BadPattern,
}

/// Takes off what the step needs.
fn made_by(step: Step<'_>, flags: &mut Vec<bool>) -> Made
    ensures { spec.flags_after (step_view step.entry) (reverse flags.old.items) ≡ flags_made result (reverse flags.new.items) }
{
    match step {
        Step::Switch(_) | Step::Keeper => Made::Part(true),
        Step::Shift(_) | Step::On | Step::Off(_) | Step::Assign(_) | Step::Compare(_) => Made::Part(
            false,
        ),
        Step::Join | Step::Either => {
            let right = pop(flags);
            let left = pop(flags);
            Made::Part(left || right)
        }
        Step::SomeWord | Step::NoWord => {
            if pop(flags) {
                Made::BadPattern
            } else {
                Made::Part(false)
            }
        }
        _ => Made::Same,
    }
}

/// Goes on by one step, and answers whether it makes a pattern with a switch in it.
fn step_on(step: Step<'_>, flags: &mut Vec<bool>) -> Result<bool, AllocError>
    ensures { IfOk result (λ found. spec.flags_after (step_view step.entry) (reverse flags.old.items)
        ≡ (if found then None else Some (reverse flags.new.items))) }
{
    match made_by(step, flags) {
        Made::Part(has_switch) => {
            flags.push(has_switch)?;
            Ok(false)
        }
        Made::Same => Ok(false),
        Made::BadPattern => Ok(true),
    }
}

/// Whether a pattern has a switch in it, at any depth.
pub fn has_inner_switch(alloc: Global, steps: &[Step]) -> Result<bool, AllocError>
    ensures { IfOk result (λ found. found ≡ spec.has_inner_switch (map step_view steps.now)) }
{
    let mut flags = Vec::new(alloc);
    for step in steps {
        if step_on(*step, &mut flags)? {
            return Ok(true);
        }
    }
    Ok(false)
}
