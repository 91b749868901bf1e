//! Gives the solver files and texts of any content, and refuses it memory: changes each byte of a table; with `--fuzz` many things at
//! random; and with `--memory` makes each call on the table of a file again where memory was refused.

mod asking;
mod fuzz;
mod memory;
mod sweep;
mod tables;

use crate::any_bytes::fuzz::fuzz;
use crate::any_bytes::memory::ask_again;
use crate::any_bytes::sweep::sweep;
use crate::games::{text_of, texts_of};

/// How the trial is called.
pub(crate) const USAGE: &str =
    "usage: trials any_bytes TAKE | trials any_bytes TAKE --memory FILE | trials any_bytes GAME.. --fuzz SEED ROUNDS";

/// Does what these words say. Answers whether all was as it had to be.
pub(crate) fn run(rt: &HostRuntime, words: &[String]) -> anyhow::Result<bool> {
    let alloc = rt.alloc();
    match words {
        [take] => is_always_answered(rt, take),
        [take, option, file] if option.as_str() == "--memory" => {
            ask_again(rt, alloc, &text_of(rt, alloc, take)?, file)
        }
        [games @ .., option, seed, rounds] if option.as_str() == "--fuzz" => {
            let texts = texts_of(rt, alloc, games)?;
            let seed = seed.parse::<u64>().unwrap_or(0);
            let rounds = rounds.parse::<u64>().unwrap_or(0);
            fuzz(rt, alloc, &texts, seed, rounds)
        }
        _ => {
            rt.eprintln(USAGE)?;
            Ok(false)
        }
    }
}

/// Changes each byte of a table of the game of takes. Answers whether each changed table was refused, or opened and answered.
pub(crate) fn is_always_answered(rt: &HostRuntime, take: &str) -> anyhow::Result<bool> {
    let alloc = rt.alloc();
    sweep(rt, alloc, &text_of(rt, alloc, take)?)
}
