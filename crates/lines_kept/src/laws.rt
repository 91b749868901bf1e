//! What holds of a file that sessions of lines have used, whatever stops came.
ghost use Rattle.std.specs.Prelude.{◌≡◌, ◌≢◌, ◌⊎◌, IsTrue, ℕ, ◌≤◌, List, [], ◌∷◌, ◌++◌, Option};
ghost use Rattle.sector_disk.specs.Disk.{Disk, Image, Shown, MayLeave};
ghost use Rattle.solver.specs.Histories.{IsFound};
ghost use Rattle.solver.specs.Machine.{Command};
ghost use Rattle.solver.specs.declared.replies.Reply.{Reply};
ghost use Rattle.session.specs.Commands.{Came, IsDoneOnFile, made};
ghost use Rattle.session.specs.Seen.{Moment, Seen};
ghost use Rattle.session.specs.declared.commands.FileCommand.{FileCommand};
ghost use Rattle.session.specs.declared.commands.FileCommand.TheVariants.{Create};
ghost use Rattle.session.specs.Sessions.{IsSessionOver};
ghost use Rattle.session.specs.declared.line_by_line.Lines.{Lines};
ghost use Rattle.lines_kept.specs.Told.{command_done, commands_over, told_by};
ghost use Rattle.lines_kept.specs.Uses.{HeadlineHolds, Uses};

use file_disk::FileDisk;
use game_file::{GameFile, Versions};
use recover::TableFile;
use solver::laws::the_headline;

/// Whatever was done with the file of one table, by sessions of lines and by commands, each stopped at any moment: of
/// whatever the last stop leaves the headline holds, with sittings in which just those commands were answered whose
/// replies had begun, each with its reply. So each command of whose reply a byte was printed is in the table that is
/// opened again, and of each session at most one command more.
pub fn what_lines_told_is_kept<F: Versions>()
    ensures { (told : List (List (Command × Reply))) (left : Shown) (image : Image)
        → Uses F.stores F.state F.is_version F.are_two F.is_used_up F.lasts told left → MayLeave left image
        → HeadlineHolds F.stores told image }
{
    the_headline::<F>()
}

/// What lines told is kept, for the files that this program makes.
pub fn what_our_lines_told_is_kept()
    ensures { (told : List (List (Command × Reply))) (left : Shown) (image : Image)
        → Uses ⟦<TableFile<FileDisk> as GameFile>⟧.stores ⟦<TableFile<FileDisk> as GameFile>⟧.state
        ⟦<TableFile<FileDisk> as Versions>⟧.is_version ⟦<TableFile<FileDisk> as Versions>⟧.are_two
        ⟦<TableFile<FileDisk> as Versions>⟧.is_used_up ⟦<TableFile<FileDisk> as GameFile>⟧.lasts told left
        → MayLeave left image → HeadlineHolds ⟦<TableFile<FileDisk> as GameFile>⟧.stores told image }
{
    what_lines_told_is_kept::<TableFile<FileDisk>>()
}

/// A session that is over, as `session_over` and `look_over` promise it, was a use of the file that it found, up to
/// each moment of its disk. It told its commands so far; while it opened the table, nothing.
pub fn a_session_is_a_use<F: Versions>()
    ensures { (which : Lines) (disk back : Disk) (count now : ℕ) (bytes : List ℕ) (left : Option (List ℕ))
        (before after : Seen) (status : ℕ) (told : List (List (Command × Reply))) (shown : Shown) (stop : ℕ)
        → Uses F.stores F.state F.is_version F.are_two F.is_used_up F.lasts told shown → IsFound F.stores shown disk
        → (over : IsSessionOver F.stores F.state F.is_version F.are_two F.is_used_up F.lasts which disk count bytes left
        before after status back now) → disk.clock ≤ stop → stop ≤ back.clock → (more : List (List (Command × Reply)))
        × ((more ≡ []) ⊎ (more ≡ told_by stop
        (commands_over F.stores F.state F.is_version F.are_two F.is_used_up F.lasts over) ∷ []))
        × Uses F.stores F.state F.is_version F.are_two F.is_used_up F.lasts (told ++ more) (back.was stop) }
{}

/// A command on the file, as `command_on` promises it, was such a use too, up to each moment of its disk; its line began at
/// this moment, with the disk as it gave it back. `create` begins: of a table that is there it answers E3, and leaves it.
pub fn a_command_is_a_use<F: Versions>()
    ensures made { (disk back : Disk) (count now : ℕ) → IsTrue disk.honest → IsDoneOnFile F.stores Create disk count made back now
        → Uses F.stores F.state F.is_version F.are_two F.is_used_up F.lasts [] back.now }
    ensures goes_on { (command : FileCommand) (disk back : Disk) (count now : ℕ) (came : Came) (moment : Moment)
        (told : List (List (Command × Reply))) (shown : Shown) (stop : ℕ) → command ≢ Create
        → Uses F.stores F.state F.is_version F.are_two F.is_used_up F.lasts told shown → IsFound F.stores shown disk
        → IsDoneOnFile F.stores command disk count came back now → moment.disk ≡ back → disk.clock ≤ stop → stop ≤ back.clock
        → (more : List (List (Command × Reply)))
        × ((more ≡ []) ⊎ (more ≡ told_by stop (command_done command came moment) ∷ []))
        × Uses F.stores F.state F.is_version F.are_two F.is_used_up F.lasts (told ++ more) (back.was stop) }
{}
