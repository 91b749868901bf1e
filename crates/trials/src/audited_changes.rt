//! Changes one thing after the other in tables of small games, and compares what the audit answers with a second reading of its
//! conditions.

mod changes;
mod compare;
mod parts;
mod reading;
mod stored;

use crate::audited_changes::compare::compare;
use crate::games::text_of;

/// How the trial is called.
pub(crate) const USAGE: &str = "usage: trials audited_changes STEP GAME..";

/// Does what these words say, game by game, up to the first verdict that is not that of the second reading. Answers whether there was
/// none.
pub(crate) fn run(rt: &HostRuntime, words: &[String]) -> anyhow::Result<bool> {
    let [step, games @ ..] = words else {
        rt.eprintln(USAGE)?;
        return Ok(false);
    };
    let step = step.parse::<usize>().unwrap_or(1).max(1);
    for game in games {
        if !is_as_read(rt, game, step)? {
            return Ok(false);
        }
    }
    Ok(true)
}

/// Tries one in `step` of the changes to the tables of a game, and prints its name if each verdict was that of the second reading.
/// Answers whether it was.
pub(crate) fn is_as_read(rt: &HostRuntime, game: &str, step: usize) -> anyhow::Result<bool> {
    let alloc = rt.alloc();
    let text = text_of(rt, alloc, game)?;
    if !compare(rt, alloc, &text, step)? {
        return Ok(false);
    }
    println!(rt; "as read {game}")?;
    Ok(true)
}
