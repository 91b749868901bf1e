//! A listing to the printed line: its rows are those of the table as it was when it began, whatever lines come between.
ghost use Rattle.std.specs.Prelude.{◌≡◌, ◌∷◌, [], ◌++◌, ℕ, List, codes, true, None, Some, IfOk, OnOk, IsSome, IsTrue};
ghost use Rattle.std.specs.Io.KnownBytes.{Appends};
ghost use Rattle.game_file.specs.Kept.{Kept};
ghost use Rattle.retrograde.specs.Stored.{Stored, IsTable};
ghost use Rattle.solver.specs.Solvers.{state, IsReady};
ghost use Rattle.solver.specs.Units.{units_in};
ghost use Rattle.solver.specs.declared.listing.Listing.{Listing};
ghost use Rattle.witness.specs.Printed.{IsPrintedInTwo};
ghost use Rattle.witness.specs.lemmas.Listings.{AllGoOn, StandsLast, IsBegunOf, HasPrinted, IsEndedOf};

use crate::sittings::{text, units};
use game_file::Versions;
use session_lines::input::{Asked, ListingLine};
use session_lines::listing_laws::a_listing_is_printed_as_it_was;
use session_lines::listings::put_listing;
use session_lines::moments::Moments;
use session_lines::questions::put_answer;
use solver::{FileSolver, Listing, Units};
use std::alloc::Global;
use std::io::{self, Write};

/// Loads the small game into the empty table, and begins a listing of its one position, which is open. Then come the
/// lines that `printed_beside_work` has: work to the end, more pages, and a second listing, which is ended. Where all
/// are answered, the lines `next` of the first listing print that the start is open, and then that no row is left,
/// whatever the work has settled meanwhile.
pub fn printed_as_it_began<F: Versions, W: Write, E: Write>(
    alloc: Global,
    solver: &mut FileSolver<F>,
    listings: &mut Vec<Listing<F::Version>>,
    pages: u32,
    out: &mut W,
    beside: &mut W,
    told: &mut E,
) -> io::Result<bool>
    ensures { IsReady solver.old → IsTrue (state solver.old).disk.honest → (state solver.old).kept ≡ None
        → IfOk result (λ done. done ≡ true → Appends (W.contents out.old) (W.contents out.new)
        (codes "0 open" ++ 10 ∷ codes "done" ++ 10 ∷ [])) }
{
    match solver.load(text(), None) {
        Ok(()) => printed_beside_work(alloc, solver, listings, pages, out, beside, told),
        Err(_) => Ok(false),
    }
}

/// Begins a listing and prints its first row. Then it works, gives the file more pages, begins a second listing, prints
/// that and ends it; and prints the rows of the first that are left. What the lines `next` of the first listing print
/// goes to `out`, all else to `beside`. Where all are answered, these are the rows of the table of the commit at which
/// that listing began.
pub fn printed_beside_work<F: Versions, W: Write, E: Write>(
    alloc: Global,
    solver: &mut FileSolver<F>,
    listings: &mut Vec<Listing<F::Version>>,
    pages: u32,
    out: &mut W,
    beside: &mut W,
    told: &mut E,
) -> io::Result<bool>
    ensures { IsReady solver.old → IsTrue (state solver.old).disk.honest
        → (kept : Kept) → (state solver.old).kept ≡ Some kept
        → IfOk result (λ done. done ≡ true → (text : List ℕ) × IsPrintedInTwo kept.table 1 256 text
        × Appends (W.contents out.old) (W.contents out.new) text) }
{
    a_listing_is_printed_as_it_was::<F>();
    let begun = begin(alloc, solver, listings, beside, told)?;
    if !begun {
        return Ok(false);
    }
    let printed = print_next(alloc, solver, listings, units(1), out, told)?;
    if !printed {
        return Ok(false);
    }
    let between = lines_between(alloc, solver, listings, pages, beside, told)?;
    if !between {
        return Ok(false);
    }
    print_next(alloc, solver, listings, units(256), out, told)
}

/// The line `begin`: whether it is answered `listing`.
fn begin<F: Versions, W: Write, E: Write>(
    alloc: Global,
    solver: &mut FileSolver<F>,
    listings: &mut Vec<Listing<F::Version>>,
    out: &mut W,
    told: &mut E,
) -> io::Result<bool>
    ensures ready { IsReady solver.old → IsReady solver.new }
    ensures begun { IsReady solver.old → IsTrue (state solver.old).disk.honest
        → (kept : Kept) → (state solver.old).kept ≡ Some kept
        → IfOk result (λ done. done ≡ true → IsBegunOf F.state F.is_version F.are_two kept solver.old.file
        solver.new.file listings.old.items listings.new.items) }
{
    let status = put_listing(
        alloc,
        solver,
        listings,
        ListingLine::Begin,
        out,
        told,
        &mut Moments::new(),
    )?;
    Ok(status == 0)
}

/// The line `next`, of the listing that was begun last: whether it is answered by rows or `done`.
fn print_next<F: Versions, W: Write, E: Write>(
    alloc: Global,
    solver: &mut FileSolver<F>,
    listings: &mut Vec<Listing<F::Version>>,
    count: Units,
    out: &mut W,
    told: &mut E,
) -> io::Result<bool>
    ensures ready { IsReady solver.old → IsReady solver.new }
    ensures printed { IsReady solver.old → IsTrue (state solver.old).disk.honest → IsSome (state solver.old).kept
        → (table : Stored (List ℕ)) (before : List (Listing F.Version)) (version : F.Version) (place : ℕ)
        → IsTable table
        → StandsLast F.state F.is_version table before version place solver.old.file listings.old.items
        → IfOk result (λ done. done ≡ true → (text : List ℕ)
        × HasPrinted F.state F.is_version table before version place (units_in count) solver.old.file solver.new.file
        listings.new.items text
        × Appends (W.contents out.old) (W.contents out.new) text) }
{
    a_listing_is_printed_as_it_was::<F>();
    let status = put_listing(
        alloc,
        solver,
        listings,
        ListingLine::Next(count),
        out,
        told,
        &mut Moments::new(),
    )?;
    Ok(status == 0)
}

/// A line that works, a growth of the file, and a listing that is begun, printed and ended: whether that was begun.
fn lines_between<F: Versions, W: Write, E: Write>(
    alloc: Global,
    solver: &mut FileSolver<F>,
    listings: &mut Vec<Listing<F::Version>>,
    pages: u32,
    out: &mut W,
    told: &mut E,
) -> io::Result<bool>
    ensures ready { IsReady solver.old → IsReady solver.new }
    ensures go_on { IsReady solver.old → IsTrue (state solver.old).disk.honest → IsSome (state solver.old).kept
        → IfOk result (λ done. done ≡ true → AllGoOn F.state F.is_version solver.old.file solver.new.file
        × (listings.new.items ≡ listings.old.items)) }
{
    work_and_grow(alloc, solver, pages, out, told)?;
    let begun = begin(alloc, solver, listings, out, told)?;
    if !begun {
        return Ok(false);
    }
    print_and_end(alloc, solver, listings, out, told)?;
    Ok(true)
}

/// A line that works to the end, and a growth of the file, whatever they answer.
fn work_and_grow<F: Versions, W: Write, E: Write>(
    alloc: Global,
    solver: &mut FileSolver<F>,
    pages: u32,
    out: &mut W,
    told: &mut E,
) -> io::Result<()>
    ensures ready { IsReady solver.old → IsReady solver.new }
    ensures go_on { IsReady solver.old → IsTrue (state solver.old).disk.honest
        → OnOk result (AllGoOn F.state F.is_version solver.old.file solver.new.file) }
{
    let _status = put_answer(
        alloc,
        solver,
        Asked::Work(units(256)),
        out,
        told,
        &mut Moments::new(),
    )?;
    let _grown = solver.grow(pages);
    Ok(())
}

/// The lines `next` and `end`, of the listing that was begun last.
fn print_and_end<F: Versions, W: Write, E: Write>(
    alloc: Global,
    solver: &mut FileSolver<F>,
    listings: &mut Vec<Listing<F::Version>>,
    out: &mut W,
    told: &mut E,
) -> io::Result<()>
    ensures ready { IsReady solver.old → IsReady solver.new }
    ensures ended { IsReady solver.old → IsTrue (state solver.old).disk.honest → IsSome (state solver.old).kept
        → (table : Stored (List ℕ)) (before : List (Listing F.Version)) (version : F.Version) (place : ℕ)
        → StandsLast F.state F.is_version table before version place solver.old.file listings.old.items
        → OnOk result (IsEndedOf F.state F.is_version F.are_two before version solver.old.file solver.new.file
        listings.new.items) }
{
    let _next = put_listing(
        alloc,
        solver,
        listings,
        ListingLine::Next(units(256)),
        out,
        told,
        &mut Moments::new(),
    )?;
    let _end = put_listing(
        alloc,
        solver,
        listings,
        ListingLine::End,
        out,
        told,
        &mut Moments::new(),
    )?;
    Ok(())
}
