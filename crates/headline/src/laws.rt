//! What holds of the tables that this program makes.
ghost use Rattle.std.specs.Prelude.{◌≡◌, ℕ, List, [], Option, IsTrue};
ghost use Rattle.sector_disk.specs.Disk.{Image, Shown, Disk, MayLeave};
ghost use Rattle.solver.specs.Headline.{Headline, HeadlineFrom};
ghost use Rattle.solver.specs.Held.{IsSound};
ghost use Rattle.solver.specs.Histories.{Sitting, History, HistoryFrom};
ghost use Rattle.tree_table.specs.Held.{StoresTrees};
ghost use Rattle.game_file.specs.Kept.{Kept, in_any};
ghost use Rattle.recover.specs.Migrations.{AreMigrations, EitherLayout, IsCurrent, IsFoundThen, IsMigrated};
ghost use Rattle.earlier_layouts.specs.Held.{Stores};

use recover::TableFile;
use sector_disk::MemDisk;
use solver::laws::{the_headline, the_headline_from};
use tree_table::laws::an_image_says_how_many_pages;

/// The headline of the tables that this program makes, on whichever disk, with what an image of their file holds: the gate's bit, the
/// slot, the text's chain and the trees.
pub fn the_headline_of_our_tables()
    ensures { (sittings : List Sitting) (left : Shown) (image : Image) → History (StoresTrees 3) sittings left → MayLeave left image
        → Headline (StoresTrees 3) sittings image }
{
    the_headline::<TableFile<MemDisk>>()
}

/// What the headline says holds of each table that is locally sound as it begins, of whatever origin.
pub fn the_headline_of_found_tables()
    ensures { (begins : Option Kept) (sittings : List Sitting) (left : Shown) (image : Image) → IsSound begins
        → HistoryFrom (StoresTrees 3) begins sittings left → MayLeave left image → HeadlineFrom (StoresTrees 3) begins sittings image }
{
    the_headline_from::<TableFile<MemDisk>>()
}

/// A table that was brought from an earlier layout begins a history.
pub fn a_migrated_table_goes_on()
    ensures { (disk back : Disk) (count now : ℕ) (done : IsMigrated (EitherLayout Stores (StoresTrees 2)) (StoresTrees 3) disk count back now)
        → IsTrue disk.honest → HistoryFrom (StoresTrees 3) done.kept [] back.now }
{}

/// An image stores one table at most, whichever of the three layouts it has.
pub fn an_image_stores_one_table_of_all_layouts()
    ensures { (m n : ℕ) (image : Image) (one other : Option Kept)
        → EitherLayout (EitherLayout Stores (StoresTrees 2)) (StoresTrees 3) m image one
        → EitherLayout (EitherLayout Stores (StoresTrees 2)) (StoresTrees 3) n image other → one ≡ other }
{}

/// However often a migration was stopped or refused, and begun again with what was left, each stop leaves the table
/// that the first of them found, in its layout or in today's; and once one is answered, a history of that table goes
/// on.
pub fn stopped_migrations_go_on()
    ensures leaves { (kept : Option Kept) (left : Shown) (image : Image)
        → AreMigrations (EitherLayout Stores (StoresTrees 2)) (StoresTrees 3) kept left → MayLeave left image
        → in_any (EitherLayout (EitherLayout Stores (StoresTrees 2)) (StoresTrees 3)) image kept }
    ensures migrated { (kept : Option Kept) (before : Shown) (disk back : Disk) (count now : ℕ)
        → AreMigrations (EitherLayout Stores (StoresTrees 2)) (StoresTrees 3) kept before → IsFoundThen before disk
        → IsMigrated (EitherLayout Stores (StoresTrees 2)) (StoresTrees 3) disk count back now
        → HistoryFrom (StoresTrees 3) kept [] back.now }
    ensures current { (kept : Option Kept) (before : Shown) (disk back : Disk) (count now : ℕ)
        → AreMigrations (EitherLayout Stores (StoresTrees 2)) (StoresTrees 3) kept before → IsFoundThen before disk
        → IsCurrent (EitherLayout Stores (StoresTrees 2)) (StoresTrees 3) disk count back now
        → HistoryFrom (StoresTrees 3) kept [] back.now }
{}

/// An image stores a table of this program in one number of pages, which its root says.
pub fn our_tables_say_how_many_pages()
    ensures { (m n : ℕ) (image : Image) (one other : Option Kept) → StoresTrees 3 m image one → StoresTrees 3 n image other → m ≡ n }
{
    an_image_says_how_many_pages()
}
