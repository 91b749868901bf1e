//! `rbgsolve`: solves small two-player board games. All that it does is in the crate `session`.
#![tactic(auto)]

use std::process::ExitCode;

fn main(rt: HostRuntime) -> ExitCode {
    ExitCode::from(session::run(&rt))
}
