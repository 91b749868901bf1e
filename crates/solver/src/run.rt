//! Many commands at once.
ghost use Rattle.std.specs.Prelude.{◌≡◌, ◌+◌, ◌++◌, true, false, List, length, map, IsTrue, OnOk};
ghost use Rattle.solver.specs.Frames.{IsLeft, IsNotRun};
ghost use Rattle.solver.specs.Headline.{LeavesAPrefix};
ghost use Rattle.solver.specs.Held.{IsSound};
ghost use Rattle.solver.specs.Machine.{IsCommandShort};
ghost use Rattle.solver.specs.Runs.{command_of, IsTurnWithCause, IsRun};
ghost use Rattle.game_file.specs.State.{GoesAhead};
ghost use Rattle.solver.specs.Solvers.{state, IsReady};

use crate::{Command, FileSolver, Reply, SolverFault, Worked};
use game_file::GameFile;

impl<F: GameFile> FileSolver<F> {
    /// The reply to one command, which is done as `load` and `work` do it.
    pub fn answer(&mut self, command: &Command) -> Reply
        ensures turn { IsReady self.old
            → IsTurnWithCause F.stores (command_of command.now) result (state self.old) (state self.new) }
        ensures closed { (state self.old).closed ≡ true → (result ≡ Reply.Refused SolverFault.Closed) × (self.new ≡ self.old) }
        ensures full { IsReady self.old → IsTrue (state self.old).disk.honest → result ≡ Reply.Refused SolverFault.TableFull
            → IsCommandShort (command_of command.now) (F.free self.old.file) (state self.old).kept }
        ensures left { IsLeft self.old self.new GoesAhead }
    {
        match command {
            Command::Load(text, goal) => match self.load(text, *goal) {
                Ok(()) => Reply::Loaded,
                Err(fault) => Reply::Refused(fault),
            },
            Command::Work(units) => match self.work(*units) {
                Ok(Worked { units, counts }) => Reply::Worked(units, counts),
                Err(fault) => Reply::Refused(fault),
            },
        }
    }

    /// Does these commands one after another, each as `load` and `work` do, and puts a reply for each after those that are
    /// there. Room for all replies is asked for first: where it is refused, nothing is done (E8). No commands are done at once.
    pub fn run(&mut self, commands: &[Command], replies: &mut Vec<Reply>) -> Result<(), SolverFault>
        ensures run { IsReady self.old
            → OnOk result (IsRun F.stores commands.now replies.old.items replies.new.items (state self.old)
            (state self.new)) }
        ensures stopped { IsReady self.old → IsSound (state self.old).kept
            → (state self.old).closed ≡ false
            → IsTrue (state self.old).disk.honest
            → OnOk result ((added : List Reply) × (replies.new.items ≡ replies.old.items ++ added)
            × LeavesAPrefix F.stores (map command_of commands.now) added (state self.old) (state self.new)) }
        ensures each { OnOk result (length replies.new.items ≡ length replies.old.items + length commands.now) }
        ensures left { IsLeft self.old self.new GoesAhead }
        ensures err { IsNotRun self.old self.new commands.now replies.old.items replies.new.items result }
    {
        if commands.is_empty() {
            return Ok(());
        }
        replies.reserve(commands.len())?;
        for command in commands {
            let reply = self.answer(command);
            replies.push(reply)?;
        }
        Ok(())
    }
}
