//! What lines of words ask for that are written out.
ghost use Rattle.command_line.specs.Lines.{ChecksAsk, GamesAsk, MovesAsk, SittingsAsk, TablesAsk};

/// Each command asks for what its help says, whatever words stand for its files and its position, as long as none of
/// them begins with `-`. The first word is the program's name.
pub fn commands_ask()
    ensures tables { TablesAsk }
    ensures games { GamesAsk }
    ensures sittings { SittingsAsk }
    ensures moves { MovesAsk }
    ensures checks { ChecksAsk }
{}
