//! Works parts of the solver by themselves, for `tools/bench` to time: the moves, trees of pages, and the store.
//! `bench NAME ..` works one of them, and `bench each GAME UNITS KEYS` the two that need no file, as the gate does.
#![tactic(auto)]

mod files;
mod speed;
mod store;
mod tree;

use std::process::ExitCode;

/// How the two that need no file are called at once.
const EACH: &str = "usage: bench each GAME UNITS KEYS";

fn main(rt: HostRuntime) -> ExitCode {
    match run(&rt) {
        Ok(true) => ExitCode::SUCCESS,
        Ok(false) => ExitCode::FAILURE,
        Err(error) => {
            let _told = eprintln!(rt; "{error}");
            ExitCode::FAILURE
        }
    }
}

/// Does what the words of the command line say. Answers whether it could be done.
fn run(rt: &HostRuntime) -> anyhow::Result<bool> {
    let words: Vec<String> = std::env::args(rt)?.collect(rt.alloc())?;
    let [_, part, words @ ..] = words.as_slice() else {
        return usage(rt);
    };
    match part.as_str() {
        "speed" => speed::run(rt, words),
        "tree" => tree::run(rt, words),
        "store" => store::run(rt, words),
        "each" if words.len() == 3 => {
            Ok(speed::run(rt, &words[..2])? && tree::run(rt, &words[2..])?)
        }
        _ => usage(rt),
    }
}

/// Tells how each part is called.
fn usage(rt: &HostRuntime) -> anyhow::Result<bool> {
    rt.eprintln(speed::USAGE)?;
    rt.eprintln(tree::USAGE)?;
    rt.eprintln(store::USAGE)?;
    rt.eprintln(EACH)?;
    Ok(false)
}
