//! What holds of every listing: each is a law, which proofs cite by a call.
ghost use Rattle.std.specs.Prelude.{◌≡◌, ◌≤◌, ℕ, List, IsTrue, length};
ghost use Rattle.best_line.specs.Rows.{AreRows};
ghost use Rattle.sector_disk.specs.Disk.{GoesOn};
ghost use Rattle.retrograde.specs.Stored.{Stored, IsTable, view_of};
ghost use Rattle.solver.specs.Listings.{IsKeptOver, Given, IsListed, asked_in, rows_in};

use game_file::Versions;

/// An open listing lasts over every call that is not about listings, whether it was answered or refused: each says `lasts`. Over
/// `list_begin` and `list_end` of another one it lasts by their own clauses.
pub fn a_listing_lasts<F: Versions>()
    ensures { (version : F.Version) (old new : F) → GoesOn (F.state old).disk (F.state new).disk → F.lasts old new
        → IsKeptOver F.state F.is_version version old new }
{}

/// What a listing has given so far, whatever was asked of the solver meanwhile, is the list of the table of its beginning from number
/// 0 on, as many rows as were asked for in all: each row once and in order, with the values of that table. Where at least as many were
/// asked for as it has positions, those are all its rows.
pub fn a_listing_gives_each_row_once<F: Versions>()
    ensures { (version : F.Version) (begun : F) (table : Stored (List ℕ)) (given : List (Given F)) → IsTrue (F.state begun).disk.honest
        → IsTable table → F.is_version version table begun → IsListed F.state F.is_version version begun 0 given
        → AreRows (view_of table) 0 (asked_in given) (rows_in given)
        × (length table.positions ≤ asked_in given → length (rows_in given) ≡ length table.positions) }
{}
