//! What holds of every file on trees between commands: each function's contract is a law.
ghost use Rattle.std.specs.Prelude.{◌≡◌, ℕ, false, length, Some, IsTrue};
ghost use Rattle.page_store.specs.Store.{IsSoundStore};
ghost use Rattle.retrograde.specs.Stored.{IsTable};
ghost use Rattle.game_file.specs.Calls.{IsAsked};
ghost use Rattle.game_file.specs.Kept.{Kept};
ghost use Rattle.game_file.specs.Stops.{LeavesNow};
ghost use Rattle.tree_table.specs.Held.{StoresTrees};
ghost use Rattle.tree_table.specs.WorkTable.{IsHonestWork, table_now};
ghost use Rattle.tree_file.specs.Calls.{FileStays};
ghost use Rattle.tree_file.specs.File.{File, IsWholeFile, kept_of, state_of};

/// A stop of the power leaves what is kept.
pub fn a_stop_leaves_what_is_kept()
    ensures { (layout : ℕ) (file : File) → IsWholeFile layout file → IsTrue file.work.store.disk.honest → file.work.store.closed ≡ false
        → LeavesNow (StoresTrees layout (length file.work.store.marks)) file.work.store.disk (kept_of file) }
{}

/// The table is the one that is kept, and its parts fit together.
pub fn the_table_is_what_is_kept()
    ensures { (layout : ℕ) (file : File) (kept : Kept) → IsWholeFile layout file → IsTrue file.work.store.disk.honest → kept_of file ≡ Some kept
        → IsHonestWork file.work × (table_now file.work ≡ kept.table) × IsTable kept.table }
{}

/// A question changes nothing that is kept, and a stop since it was asked leaves it.
pub fn a_question_leaves_all_as_it_is()
    ensures { (layout : ℕ) (old new : File) → IsSoundStore new.work.store → IsWholeFile layout old → FileStays old new
        → IsWholeFile layout new × IsAsked (StoresTrees layout) (state_of old) (state_of new) }
{}
