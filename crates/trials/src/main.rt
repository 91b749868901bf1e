//! Tries the solver: where the power fails, on files of any bytes, on tables with one thing changed, and with layouts beside one another.
//! `trials NAME ..` runs the trial of this name, and `trials each TAKE FORK` each of the four once, as the gate does.
#![tactic(auto)]

mod any_bytes;
mod audited_changes;
mod games;
mod layouts_compared;
mod power_failures;
mod random;
mod sectors;

use std::process::ExitCode;

/// How all four are called at once.
const EACH: &str = "usage: trials each TAKE FORK";

fn main(rt: HostRuntime) -> ExitCode {
    match run(&rt) {
        Ok(true) => ExitCode::SUCCESS,
        Ok(false) => ExitCode::FAILURE,
        Err(error) => {
            let _told = eprintln!(rt; "{error}");
            ExitCode::FAILURE
        }
    }
}

/// Does what the words of the command line say. Answers whether all was as it had to be.
fn run(rt: &HostRuntime) -> anyhow::Result<bool> {
    let words: Vec<String> = std::env::args(rt)?.collect(rt.alloc())?;
    let [_, trial, words @ ..] = words.as_slice() else {
        return usage(rt);
    };
    match trial.as_str() {
        "power_failures" => power_failures::run(rt, words),
        "any_bytes" => any_bytes::run(rt, words),
        "audited_changes" => audited_changes::run(rt, words),
        "layouts_compared" => layouts_compared::run(rt, words),
        "each" => each(rt, words),
        _ => usage(rt),
    }
}

/// Runs each trial once, on the game of takes; the last also on the game of a fork.
fn each(rt: &HostRuntime, words: &[String]) -> anyhow::Result<bool> {
    let [take, fork] = words else {
        return usage(rt);
    };
    Ok(
        power_failures::is_always_kept(rt, take)?
            && any_bytes::is_always_answered(rt, take)?
            && audited_changes::is_as_read(rt, take, 1)?
            && layouts_compared::is_equal(rt, take, 256, 1)?
            && layouts_compared::is_equal(rt, fork, 256, 1)?,
    )
}

/// Tells how each trial is called.
fn usage(rt: &HostRuntime) -> anyhow::Result<bool> {
    rt.eprintln(power_failures::USAGE)?;
    rt.eprintln(any_bytes::USAGE)?;
    rt.eprintln(audited_changes::USAGE)?;
    rt.eprintln(layouts_compared::USAGE)?;
    rt.eprintln(EACH)?;
    Ok(false)
}
