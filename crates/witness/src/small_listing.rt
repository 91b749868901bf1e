//! What a session prints of a listing of the small game, on a disk in memory.
ghost use Rattle.std.specs.Prelude.{◌≡◌, ◌∷◌, [], ◌++◌, codes, true, None, IfSome, IsTrue};
ghost use Rattle.solver.specs.Solvers.{state, IsReady};

use crate::printed::printed_as_it_began;
use crate::stop::SECTORS;
use game_file::Versions;
use recover::TableFile;
use sector_disk::MemDisk;
use solver::{FileSolver, Listing};
use std::alloc::Global;

/// More pages than the file was made with.
const PAGES: u32 = 64;

/// Makes a table on a disk in memory, and has the lines of `printed_as_it_began` answered there. Where they all are,
/// this is what the lines `next` of the first listing have printed: that the start is open, as it was when that was
/// begun, and that no row is left.
pub fn printed_of_the_small_game(alloc: Global) -> Option<Vec<u8>>
    ensures { IfSome result (λ text. text.items ≡ codes "0 open" ++ 10 ∷ codes "done" ++ 10 ∷ []) }
{
    let disk = MemDisk::new(alloc, SECTORS).ok()?;
    let mut solver = match FileSolver::<TableFile<MemDisk>>::create(alloc, disk) {
        Ok(solver) => solver,
        Err(_) => return None,
    };
    let text = printed_on(alloc, &mut solver);
    let _disk = solver.close();
    text
}

/// What a listing beside work prints on an empty table.
fn printed_on<F: Versions>(alloc: Global, solver: &mut FileSolver<F>) -> Option<Vec<u8>>
    ensures { IsReady solver.old → IsTrue (state solver.old).disk.honest → (state solver.old).kept ≡ None
        → IfSome result (λ text. text.items ≡ codes "0 open" ++ 10 ∷ codes "done" ++ 10 ∷ []) }
{
    let mut listings = Vec::new(alloc);
    let mut out = Vec::new(alloc);
    let mut beside = Vec::new(alloc);
    let mut told = Vec::new(alloc);
    let done = printed_as_it_began(
        alloc,
        solver,
        &mut listings,
        PAGES,
        &mut out,
        &mut beside,
        &mut told,
    );
    end_all(solver, listings);
    match done {
        Ok(true) => Some(out),
        _ => None,
    }
}

/// Ends all listings that are open.
fn end_all<F: Versions>(solver: &mut FileSolver<F>, open: Vec<Listing<F::Version>>) {
    let mut listings = open;
    while let Some(listing) = listings.pop() {
        solver.list_end(listing);
    }
    listings.destroy_empty();
}
