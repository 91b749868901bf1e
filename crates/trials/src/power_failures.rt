//! Stops the power while tables are made and worked on, and looks at what is left: at each disk call of a few commands, and with `--soak`
//! at random ones.

mod deeds;
mod growing;
mod growth;
mod listed;
mod named;
mod soak;
mod standing;
mod sweep;
mod watch;
mod watched;

use crate::games::{text_of, texts_of};
use crate::power_failures::growing::growing;
use crate::power_failures::soak::soak;
use crate::power_failures::sweep::sweep;
use crate::power_failures::watch::watch;

/// How the trial is called.
pub(crate) const USAGE: &str =
    "usage: trials power_failures TAKE | trials power_failures GAME.. --soak SEED ROUNDS";

/// Does what these words say. Answers whether each table was as it had to be.
pub(crate) fn run(rt: &HostRuntime, words: &[String]) -> anyhow::Result<bool> {
    match words {
        [take] => is_always_kept(rt, take),
        [games @ .., option, seed, rounds] if option.as_str() == "--soak" => {
            let texts = texts_of(rt, rt.alloc(), games)?;
            let seed = seed.parse::<u64>().unwrap_or(0);
            let rounds = rounds.parse::<u64>().unwrap_or(0);
            soak(rt, rt.alloc(), &texts, seed, rounds)
        }
        _ => {
            rt.eprintln(USAGE)?;
            Ok(false)
        }
    }
}

/// Stops the power at each disk call of a few commands on the game of takes. Answers whether each table was as it had to be.
pub(crate) fn is_always_kept(rt: &HostRuntime, take: &str) -> anyhow::Result<bool> {
    let alloc = rt.alloc();
    let text = text_of(rt, alloc, take)?;
    Ok(sweep(rt, alloc, &text)? && growing(rt, alloc)? && watch(rt, alloc, &text)?)
}
