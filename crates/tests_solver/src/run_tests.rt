//! A list of commands in one call.

use crate::deeds::{InMemory, empty_table, is_right, opened, unfailing};
use game_file::GameFile;
use retrograde::Counts;
use solver::{Command, Reply, SolverFault, Units};
use std::alloc::Global;
use std::test::Fail;
use test_aids::{TAKE, expect};

/// To load the game of takes, or to work this many units.
#[derive(Clone, Copy)]
enum Step {
    Load,
    Work(u32),
}

fn commands(alloc: Global, steps: &[Step]) -> Result<Vec<Command>, Fail> {
    let mut commands = Vec::new(alloc);
    for step in steps {
        let command = match step {
            Step::Load => Command::Load(TAKE.as_bytes().to_vec(alloc)?, None),
            Step::Work(count) => Command::Work(Units::new(*count).ok_or(
                "that many units are no command",
            )?),
        };
        commands.push(command)?;
    }
    Ok(commands)
}

/// Opens the table, runs the commands and puts their replies after those that are there; the disk.
fn run_on<F: GameFile>(
    alloc: Global,
    disk: F::Device,
    commands: &[Command],
    replies: &mut Vec<Reply>,
) -> Result<F::Device, Fail>
where
    F::Device: Drop,
{
    let mut solver = opened::<F>(alloc, disk)?;
    let run = solver.run(commands, replies);
    let disk = solver.close();
    run?;
    Ok(disk)
}

/// The reply to this many units, after which seven positions are known and expanded.
fn worked(units: u32, settled: u32, processed: u32) -> Reply {
    let counts = Counts {
        known: 7,
        expanded: 7,
        settled,
        processed,
    };
    Reply::Worked(units, counts)
}

#[test]
fn a_run_answers_each_command(rt: HostRuntime) -> Result<(), Fail> {
    let alloc = rt.alloc();
    let mut replies = Vec::new(alloc);
    let disk = unfailing(empty_table(alloc)?);
    let disk = run_on::<InMemory>(alloc, disk, &[], &mut replies)?;
    expect(replies.len(), 0, "no commands")?;
    replies.push(Reply::Loaded)?;
    let commands = commands(
        alloc,
        &[Step::Load, Step::Work(7), Step::Load, Step::Work(256)],
    )?;
    let disk = run_on::<InMemory>(alloc, disk, &commands, &mut replies)?;
    let wanted = [
        Reply::Loaded,
        Reply::Loaded,
        worked(7, 2, 0),
        Reply::Refused(SolverFault::GameAlready),
        worked(7, 7, 7),
    ];
    expect(replies.as_slice(), wanted.as_slice(), "the replies")?;
    expect(is_right(alloc, disk.into_inner())?, true, "the table")
}
