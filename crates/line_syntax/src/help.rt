//! The help about lines.

/// The lines of a session, as its help shows them. The first part, the lines that ask, is what a look takes too.
pub const LINES: &str = concat!(
    "Lines that ask:\n",
    "  status         says how far the table is\n",
    "  pages          how many pages the table has, how many of them are used, and how many free\n",
    "  moves N        the moves of position N, the best first, one a line: NUMBER VALUE MOVE => POSITION\n",
    "  value N        who wins position N and in how many moves, or `drawn`, or `open`\n",
    "  value-of TEXT  the same of the position with this text\n",
    "  line N         the numbers of the positions along a shortest win from N\n",
    "  list A B       the values of B positions, 1 to 256, from A on, one a line\n",
    "  show N         the text of position N\n",
    "  find TEXT      the number of the position with this text\n",
    "  game           the text of the game, as the table has it\n",
    "  help           shows these lines on standard error\n",
    "  quit           ends it, as the end of the input does\n",
    "\n",
    "Lines of a session alone, which a look answers by `usage`:\n",
    "  work U         does U units of work, 1 to 256, or fewer where the table is finished then\n",
    "  begin          begins a listing of the table as it is now\n",
    "  next M         its next M rows, 1 to 256, whatever is worked meanwhile, or `done`\n",
    "  end            ends the listing that was begun last\n",
    "\n",
    "Any other line is answered by `usage`, and so is `help`.",
);
