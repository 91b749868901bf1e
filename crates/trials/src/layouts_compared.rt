//! Asks the solver over layout 2, over layout 3 with 64 pages in memory and with fewer, and over what was brought from the layouts 1 and 2,
//! the same of games, and compares what they answer.

mod compare;
mod layout;
mod sitting;

use crate::games::text_of;
use crate::layouts_compared::compare::{Outcome, compare};

/// How the trial is called.
pub(crate) const USAGE: &str = "usage: trials layouts_compared UNITS PAGES GAME..";

/// Does what these words say, game by game, up to the first difference. Answers whether there was none.
pub(crate) fn run(rt: &HostRuntime, words: &[String]) -> anyhow::Result<bool> {
    let [units, pages, games @ ..] = words else {
        rt.eprintln(USAGE)?;
        return Ok(false);
    };
    let most = units.parse::<u32>().unwrap_or(0);
    let pages = pages.parse::<usize>().unwrap_or(0);
    for name in games {
        if !is_equal(rt, name, most, pages)? {
            return Ok(false);
        }
    }
    Ok(true)
}

/// Compares what the tables of a game answer, with this many units of work at most and one table with this many pages in memory, and
/// prints a line. Answers whether there was no difference.
pub(crate) fn is_equal(
    rt: &HostRuntime,
    name: &str,
    most: u32,
    pages: usize,
) -> anyhow::Result<bool> {
    let alloc = rt.alloc();
    let text = text_of(rt, alloc, name)?;
    let outcome = compare(alloc, &text, most, pages)?;
    match &outcome {
        Outcome::Equal(known) => println!(rt; "equal {name} known {known}")?,
        Outcome::Differs(difference) => println!(rt; "{name} differs: {difference}")?,
        Outcome::OtherFiles => println!(rt; "{name}: the files differ")?,
        Outcome::NotRight => println!(rt; "{name}: a table is not right")?,
    }
    Ok(matches!(outcome, Outcome::Equal(_)))
}
