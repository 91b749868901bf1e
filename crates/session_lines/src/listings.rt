//! What a session replies to the lines about listings. They act on the listing that was begun last.

ghost use Rattle.std.specs.Prelude.{◌≡◌, ◌⊎◌, ◌∷◌, [], ◌++◌, ℕ, List, IfOk, IfErr, OnOk, OnErr, IsSome, IsTrue, Some, true, false};
ghost use Rattle.std.specs.Io.KnownBytes.{Appends};
ghost use Rattle.game_file.specs.Calls.{IsAsked};
ghost use Rattle.game_file.specs.Kept.{Kept};
ghost use Rattle.retrograde.specs.Stored.{Stored, IsTable};
ghost use Rattle.solver.specs.Frames.{IsOnlyAsked, IsSameFor};
ghost use Rattle.solver.specs.Listings.{BeginCause, NextCause};
ghost use Rattle.solver.specs.Solvers.{state, IsReady};
ghost use Rattle.solver.specs.Units.{units_in};
ghost use Rattle.solver.specs.declared.listing.Listing.{Listing};
ghost use Rattle.solver.specs.declared.fault.SolverFault.{SolverFault};
ghost use Rattle.session_lines.specs.Listed.{IsNextText, IsNextTold, IsNoneOpen, IsNext, IsListingReplied, AllLast};
ghost use Rattle.session_lines.specs.Moments.{noted_in};
ghost use Rattle.session_lines.specs.Parts.{AppendsPart};

use crate::input::ListingLine;
use crate::moments::Moments;
use crate::questions::{put_done, put_fault, put_text};
use crate::replies::row_lines;
use game_file::Versions;
use solver::{FileSolver, Listing, SolverFault, Units};
use std::alloc::{AllocFailed, Global};
use std::io::{self, Write};

/// Writes the reply to a line about listings at once, and gives the exit status that belongs to it. `begin` puts a listing after
/// those that are open; `next` and `end` act on the last one, and where none is open they are answered `usage`. The moment at which the
/// reply begins is noted.
pub fn put_listing<F: Versions, W: Write, E: Write>(
    alloc: Global,
    solver: &mut FileSolver<F>,
    listings: &mut Vec<Listing<F::Version>>,
    line: ListingLine,
    out: &mut W,
    told: &mut E,
    moments: &mut Moments<FileSolver<F>, W>,
) -> io::Result<u8>
    ensures ready { IsReady solver.old → IsReady solver.new }
    ensures asked { IsReady solver.old → IsTrue (state solver.old).disk.honest → IsAsked F.stores (state solver.old) (state solver.new) }
    ensures replied { IsReady solver.old → IsTrue (state solver.old).disk.honest → IfOk result (λ status. (text : List ℕ)
        × IsListingReplied F.state F.is_version F.are_two line (F.is_used_up solver.old.file) solver.old.file solver.new.file
        listings.old.items listings.new.items status text
        × Appends (W.contents out.old) (W.contents out.new) text) }
    ensures untold { IsReady solver.old → IsTrue (state solver.old).disk.honest → OnErr result ((status : ℕ) × (text : List ℕ)
        × IsListingReplied F.state F.is_version F.are_two line (F.is_used_up solver.old.file) solver.old.file solver.new.file
        listings.old.items listings.new.items status text
        × AppendsPart (W.contents out.old) (W.contents out.new) text) }
    ensures noted { noted_in moments.new ≡ noted_in moments.old ++ (solver.new, out.old) ∷ [] }
{
    match line {
        ListingLine::Begin => {
            let begun = begin(solver, listings);
            moments.note(solver, out);
            match begun {
                Ok(()) => put_done(out, b"listing\n"),
                Err(fault) => put_fault(fault, out, told),
            }
        }
        ListingLine::Next(count) => {
            put_next_of_last(alloc, solver, listings, count, out, told, moments)
        }
        ListingLine::End => {
            let ended = end(solver, listings);
            moments.note(solver, out);
            if ended {
                put_done(out, b"ended\n")
            } else {
                put_done(out, b"usage\n")
            }
        }
    }
}

/// Ends the listing that was begun last, and answers whether one was open.
fn end<F: Versions>(solver: &mut FileSolver<F>, listings: &mut Vec<Listing<F::Version>>) -> bool
    ensures same { IsSameFor solver.old solver.new }
    ensures ended { result ≡ true → ((listing : Listing F.Version) × (listings.old.items ≡ listings.new.items ++ listing ∷ [])
        × ((table : Stored (List ℕ)) → ¬ F.is_version listing.version table solver.new.file)
        × ((other : F.Version) (table : Stored (List ℕ)) → F.are_two other listing.version → F.is_version other table solver.old.file
        → F.is_version other table solver.new.file)) }
    ensures none { result ≡ false → (listings.old.items ≡ []) × (listings.new.items ≡ []) × (solver.new ≡ solver.old) }
{
    match listings.pop() {
        Some(listing) => {
            solver.list_end(listing);
            true
        }
        None => false,
    }
}

/// Begins a listing, and puts it after those that are open: E9, S1, S9. Where there is no room for it, it is ended, and E8 answered.
fn begin<F: Versions>(
    solver: &mut FileSolver<F>,
    listings: &mut Vec<Listing<F::Version>>,
) -> Result<(), SolverFault>
    ensures same { IsSameFor solver.old solver.new }
    ensures begun { OnOk result ((listing : Listing F.Version) × (listings.new.items ≡ listings.old.items ++ listing ∷ [])
        × (listing.next ≡ 0)
        × (IsReady solver.old → IsTrue (state solver.old).disk.honest → (kept : Kept) → (state solver.old).kept ≡ Some kept
        → F.is_version listing.version kept.table solver.new.file × IsTable kept.table)
        × ((other : F.Version) (table : Stored (List ℕ)) → F.is_version other table solver.old.file → F.are_two other listing.version)) }
    ensures all { AllLast F.is_version solver.old.file solver.new.file }
    ensures refused { OnErr result (listings.new.items ≡ listings.old.items) }
    ensures cause { IfErr result (λ why. BeginCause (state solver.old) (F.is_used_up solver.old.file) why ⊎ (why ≡ SolverFault.OutOfMemory)) }
{
    let listing = solver.list_begin()?;
    match listings.push(listing) {
        Ok(()) => Ok(()),
        Err(AllocFailed { value }) => {
            solver.list_end(value);
            Err(SolverFault::OutOfMemory)
        }
    }
}

/// The lines of the next rows of a listing, or `done` where none is left: E9, E1, E8. Where there are rows and no room for their lines,
/// E8 is answered after them.
fn next_text<F: Versions>(
    alloc: Global,
    solver: &mut FileSolver<F>,
    listing: &mut Listing<F::Version>,
    count: Units,
) -> Result<Vec<u8>, SolverFault>
    ensures left { IsOnlyAsked solver.old solver.new }
    ensures same { listing.new.version ≡ listing.old.version }
    ensures text { IsReady solver.old → IsTrue (state solver.old).disk.honest → (table : Stored (List ℕ)) → IsTable table
        → F.is_version listing.old.version table solver.old.file
        → IfOk result (λ text. IsNextText table listing.old.next listing.new.next (units_in count) text.items (state solver.old).kept) }
    ensures cause { (table : Stored (List ℕ)) → IsReady solver.old → IsSome (state solver.old).kept
        → F.is_version listing.old.version table solver.old.file → IfErr result (NextCause (state solver.old) (state solver.new)) }
{
    let rows = solver.list_next(listing, count)?;
    if rows.is_empty() {
        return Ok(b"done\n".to_vec(alloc)?);
    }
    Ok(row_lines(alloc, solver.needs_game()?, &rows)?)
}

/// Writes the lines of the next rows, or `done`, or the refusal.
fn put_next<F: Versions, W: Write, E: Write>(
    alloc: Global,
    solver: &mut FileSolver<F>,
    listing: &mut Listing<F::Version>,
    count: Units,
    out: &mut W,
    told: &mut E,
    moments: &mut Moments<FileSolver<F>, W>,
) -> io::Result<u8>
    ensures left { IsOnlyAsked solver.old solver.new }
    ensures same { listing.new.version ≡ listing.old.version }
    ensures replied { IsReady solver.old → IsTrue (state solver.old).disk.honest → IfOk result (λ status. (line : List ℕ)
        × (IsSome (state solver.old).kept → (table : Stored (List ℕ)) → IsTable table → F.is_version listing.old.version table solver.old.file
        → IsNextTold F.state F.is_version F.are_two (units_in count) solver.old.file solver.new.file table listing.old.next listing.new.next status line)
        × Appends (W.contents out.old) (W.contents out.new) line) }
    ensures untold { IsReady solver.old → IsTrue (state solver.old).disk.honest → OnErr result ((status : ℕ) × (line : List ℕ)
        × (IsSome (state solver.old).kept → (table : Stored (List ℕ)) → IsTable table → F.is_version listing.old.version table solver.old.file
        → IsNextTold F.state F.is_version F.are_two (units_in count) solver.old.file solver.new.file table listing.old.next listing.new.next status line)
        × AppendsPart (W.contents out.old) (W.contents out.new) line) }
    ensures noted { noted_in moments.new ≡ noted_in moments.old ++ (solver.new, out.old) ∷ [] }
{
    let answered = next_text(alloc, solver, listing, count);
    moments.note(solver, out);
    put_text(answered, out, told)
}

/// Writes the lines of the next rows of the listing that was begun last, or the refusal; `usage` where none is open.
fn put_next_of_last<F: Versions, W: Write, E: Write>(
    alloc: Global,
    solver: &mut FileSolver<F>,
    listings: &mut Vec<Listing<F::Version>>,
    count: Units,
    out: &mut W,
    told: &mut E,
    moments: &mut Moments<FileSolver<F>, W>,
) -> io::Result<u8>
    ensures ready { IsReady solver.old → IsReady solver.new }
    ensures asked { IsReady solver.old → IsAsked F.stores (state solver.old) (state solver.new) }
    ensures replied { IsReady solver.old → IsTrue (state solver.old).disk.honest → IfOk result (λ status. (text : List ℕ)
        × ((IsNoneOpen listings.old.items listings.new.items status text × AllLast F.is_version solver.old.file solver.new.file)
        ⊎ IsNext F.state F.is_version F.are_two (units_in count) solver.old.file solver.new.file listings.old.items listings.new.items status text)
        × Appends (W.contents out.old) (W.contents out.new) text) }
    ensures untold { IsReady solver.old → IsTrue (state solver.old).disk.honest → OnErr result ((status : ℕ) × (text : List ℕ)
        × ((IsNoneOpen listings.old.items listings.new.items status text × AllLast F.is_version solver.old.file solver.new.file)
        ⊎ IsNext F.state F.is_version F.are_two (units_in count) solver.old.file solver.new.file listings.old.items listings.new.items status text)
        × AppendsPart (W.contents out.old) (W.contents out.new) text) }
    ensures noted { noted_in moments.new ≡ noted_in moments.old ++ (solver.new, out.old) ∷ [] }
{
    let Some(mut listing) = listings.pop() else {
        moments.note(solver, out);
        return put_done(out, b"usage\n");
    };
    let written = put_next(alloc, solver, &mut listing, count, out, told, moments);
    listings.push_reserved(listing);
    written
}
