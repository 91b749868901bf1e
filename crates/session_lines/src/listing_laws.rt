//! What a session prints of a listing: each is a law, which proofs cite by a call.
ghost use Rattle.std.specs.Prelude.{ℕ, List, Option, IsTrue};
ghost use Rattle.best_line.specs.Rows.{AreRows};
ghost use Rattle.best_line.specs.declared.answers.Row.{Row};
ghost use Rattle.game_file.specs.Kept.{Kept};
ghost use Rattle.retrograde.specs.Stored.{Stored, view_of};
ghost use Rattle.sector_disk.specs.Disk.{GoesOn};
ghost use Rattle.session_lines.specs.Listed.{IsNextText, AllLast};
ghost use Rattle.session_lines.specs.Printed.{IsNextPrinted, ArePrinted};
ghost use Rattle.solver.specs.Listings.{IsKeptOver};

use game_file::Versions;

/// A listing is a snapshot, to the printed line: whatever lines come between, the rows that its lines `next` print, one behind the other, are the
/// rows of the table of the commit at which it began, from the first on, as many as were asked for or up to the last.
pub fn a_listing_is_printed_as_it_was<F: Versions>()
    ensures told { (table : Stored (List ℕ)) (place next count : ℕ) (text : List ℕ) (kept : Option Kept) → IsNextText table place next count text kept
        → (rows : List Row) × IsNextPrinted table place next count text rows kept }
    ensures answered { (version : F.Version) (old new : F) → GoesOn (F.state old).disk (F.state new).disk → F.lasts old new
        → IsKeptOver F.state F.is_version version old new }
    ensures about_others { (version : F.Version) (old new : F) → GoesOn (F.state old).disk (F.state new).disk → AllLast F.is_version old new
        → IsKeptOver F.state F.is_version version old new }
    ensures rows { (version : F.Version) (begun : F) (table : Stored (List ℕ)) (asked : ℕ) (rows : List Row) → IsTrue (F.state begun).disk.honest
        → F.is_version version table begun → ArePrinted F.state F.is_version version table begun 0 asked rows
        → AreRows (view_of table) 0 asked rows }
{}
