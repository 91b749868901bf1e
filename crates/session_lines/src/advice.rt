//! What is said to people of a refusal: what is wrong, and what to do.

use page_store::MAX_PAGES;
use solver::SolverFault;
use std::io::Write;

/// What is said first where no page is free.
const NO_PAGE: &str =
    "no page is free: the table stays as it was, and a command of fewer units may still fit (the line `pages` says how many are free); else";

/// What to do after a refusal.
pub fn advice(fault: SolverFault) -> &'static str {
    match fault {
        SolverFault::Disk =>
            "see that the file can be read and written and that its disk has room, and start again",
        SolverFault::NotATable =>
            "`rbgsolve create` makes one; if a table's file was cut short, go back to a copy",
        SolverFault::AlreadyATable => "it stays as it is, so give the name of another file",
        SolverFault::Damaged => "go back to a copy of the file, or begin with a new one",
        SolverFault::OldLayout =>
            "`rbgsolve migrate` brings it into today's, with all that is known",
        SolverFault::TooSmall => "give `--pages` 16 or more",
        SolverFault::TableFull =>
            "the table stays as it was, and a command of fewer units may still fit; else give it twice as many pages (`rbgsolve grow FILE --pages N`)",
        SolverFault::OutOfMemory => "the table stays as it was, so try again with more memory free",
        SolverFault::Closed => "start a session again",
        SolverFault::Game(_) => "mend the text, and load it again",
        SolverFault::NoGame => "`rbgsolve load` loads one",
        SolverFault::GameAlready => "it stays, so load another game into a new table",
        SolverFault::KeeperChooses(_) =>
            "write rules by which the keeper has one move at most; to see it, give `work 1` until that is refused, then `show`",
        SolverFault::TooWide => "write rules with fewer ways through them",
        SolverFault::TooManyPositions => "write a smaller game",
        SolverFault::Inconsistent => "it is not of this program's making, so begin with a new one",
        SolverFault::NoSuchPosition => "`status` says how many are known, and `work` may find more",
        SolverFault::NotSettled => "`value` says whether it is drawn, or still open",
        SolverFault::ListingsUsedUp => "end one of them first",
        SolverFault::BadPosition => "write it as `show` does",
    }
}

/// Says that no page of a table with this many pages is free, and how it gets twice as many, or the most that there may be.
pub fn tell_full<E: Write>(told: &mut E, pages: u32) {
    let more = pages.saturating_mul(2).min(MAX_PAGES);
    let _told = if pages < MAX_PAGES {
        writeln!(
            told,
            "{NO_PAGE} give it more pages: `rbgsolve grow FILE --pages {more}`"
        )
    } else {
        writeln!(
            told,
            "{NO_PAGE} write a smaller game, for no table has more pages"
        )
    };
}

/// Says in a sentence what is wrong and what to do, whether or not it arrives.
pub fn tell_fault<E: Write>(told: &mut E, fault: SolverFault) {
    let advice = advice(fault);
    let _told = writeln!(told, "{fault}: {advice}");
}

/// Says that a look takes no such line, and what does, whether or not it arrives.
pub fn tell_look<E: Write>(told: &mut E) {
    let _told = writeln!(
        told,
        "a look only asks: give `work`, `begin`, `next` and `end` to `rbgsolve session FILE`"
    );
}
