//! What lines of a session leave of the listings that are open.
ghost use Rattle.std.specs.Prelude.{OnOk, IsTrue};
ghost use Rattle.session_lines.specs.Listed.{AllLast};
ghost use Rattle.solver.specs.Solvers.{state, IsReady};

use game_file::Versions;
use session_lines::input::{Asked, ListingLine};
use session_lines::listings::put_listing;
use session_lines::moments::Moments;
use session_lines::questions::put_answer;
use solver::{FileSolver, Listing};
use std::alloc::Global;
use std::io::{self, Write};

/// `lasts` of `put_answer`, beside the listings that are open.
pub fn answer_beside<F: Versions, W: Write, E: Write>(
    alloc: Global,
    solver: &mut FileSolver<F>,
    listings: &mut Vec<Listing<F::Version>>,
    asked: Asked<'_>,
    out: &mut W,
    told: &mut E,
) -> io::Result<u8>
    ensures { F.lasts solver.old.file solver.new.file }
{
    let _open = listings.len();
    put_answer(alloc, solver, asked, out, told, &mut Moments::new())
}

/// `replied` of `put_listing`, of a line `begin`, and of that what becomes of the listings that are open.
pub fn begin<F: Versions, W: Write, E: Write>(
    alloc: Global,
    solver: &mut FileSolver<F>,
    listings: &mut Vec<Listing<F::Version>>,
    out: &mut W,
    told: &mut E,
) -> io::Result<u8>
    ensures { IsReady solver.old → IsTrue (state solver.old).disk.honest → OnOk result (AllLast F.is_version solver.old.file solver.new.file) }
{
    let moments = &mut Moments::new();
    put_listing(
        alloc,
        solver,
        listings,
        ListingLine::Begin,
        out,
        told,
        moments,
    )
}
