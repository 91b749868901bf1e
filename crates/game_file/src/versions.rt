//! What a file promises of the table of an earlier commit, for whoever reads it still.
ghost use Rattle.std.specs.Prelude.{◌≡◌, ◌<◌, ◌⊎◌, ℕ, List, length, Some, None, IfOk, IfErr, IfSome, IfNone, IsTrue};
ghost use Rattle.retrograde.specs.Changes.{counts_of};
ghost use Rattle.retrograde.specs.Stored.{Stored, HasRecord};
ghost use Rattle.game_file.specs.Causes.{FileReadFault, FileVersionCause};
ghost use Rattle.game_file.specs.Kept.{Kept, text_kept, packing_kept, goal_kept};

use crate::GameFile;
use retrograde::{Counts, Record};
use table::TableFault;

/// A file that can keep the table of a commit, whatever is committed later: a version of it. Four are kept at a time at most. A version
/// cannot be dropped: `give_back` alone ends it. What later calls leave of it is said by `GameFile::lasts`.
pub trait Versions: GameFile {
    /// What is handed out for a version.
    type Version;

    /// This version is kept, and it is this table.
    ghost is_version: { Self.Version → Stored (List ℕ) → Self → Type 0 };

    /// These are two versions, and not one.
    ghost are_two: { Self.Version → Self.Version → Type 0 };

    /// As many versions are kept as there can be.
    ghost is_used_up: { Self → Type 0 };

    /// Keeps the table of the last commit until it is given back; none where no game is loaded, or four are kept. It takes no memory.
    fn keep(&mut self) -> Option<Self::Version>
        ensures whole { Self.is_whole self.old → Self.is_whole self.new }
        ensures state { IsTrue (Self.state self.old).disk.honest → Self.is_whole self.old → Self.state self.new ≡ Self.state self.old }
        ensures text { Self.is_whole self.old → text_kept (Self.state self.new).kept ≡ text_kept (Self.state self.old).kept }
        ensures packing { Self.is_whole self.old → packing_kept (Self.state self.new).kept ≡ packing_kept (Self.state self.old).kept }
        ensures goal { Self.is_whole self.old → goal_kept (Self.state self.new).kept ≡ goal_kept (Self.state self.old).kept }
        ensures kept { IsTrue (Self.state self.old).disk.honest → Self.is_whole self.old → (kept : Kept) → (Self.state self.old).kept ≡ Some kept
            → IfSome result (λ version. is_version version kept.table self.new) }
        ensures others { (version : Self.Version) (table : Stored (List ℕ)) → is_version version table self.old
            → IfSome result (λ new. are_two version new × is_version version table self.new) }
        ensures free { IfSome result (λ version. ¬ is_used_up self.old) }
        ensures none { IfNone result (((Self.state self.old).kept ≡ None) ⊎ is_used_up self.old) }
        ensures refused { IfNone result (Self.state self.new ≡ Self.state self.old) }
        ensures left { (version : Self.Version) (table : Stored (List ℕ)) → is_version version table self.old
            → IfNone result (is_version version table self.new) };

    /// How much is in a version. It takes no memory and always answers.
    fn counts_of(&self, version: &Self::Version) -> Counts
        ensures { (table : Stored (List ℕ)) → is_version version.now table self.now → result ≡ counts_of table };

    /// The record of a number in a version. `Damaged` of a number that is not known there.
    fn record_of(&mut self, version: &Self::Version, number: u32) -> Result<Record, TableFault>
        ensures record { IsTrue (Self.state self.old).disk.honest → (table : Stored (List ℕ)) → is_version version.now table self.old
            → IfOk result (HasRecord table number) }
        ensures stays { Self.stays self.old self.new }
        ensures cause { (table : Stored (List ℕ)) → is_version version.now table self.old → number < length table.positions
            → IfErr result (FileVersionCause (Self.state self.old) (Self.state self.new)) }
        ensures fault { IfErr result (FileReadFault (Self.state self.old) (Self.state self.new)) };

    /// Ends a version. It takes no memory and always answers, of a closed file too.
    fn give_back(&mut self, version: Self::Version)
        ensures whole { Self.is_whole self.old → Self.is_whole self.new }
        ensures state { IsTrue (Self.state self.old).disk.honest → Self.is_whole self.old → Self.state self.new ≡ Self.state self.old }
        ensures text { Self.is_whole self.old → text_kept (Self.state self.new).kept ≡ text_kept (Self.state self.old).kept }
        ensures packing { Self.is_whole self.old → packing_kept (Self.state self.new).kept ≡ packing_kept (Self.state self.old).kept }
        ensures goal { Self.is_whole self.old → goal_kept (Self.state self.new).kept ≡ goal_kept (Self.state self.old).kept }
        ensures others { (other : Self.Version) (table : Stored (List ℕ)) → are_two other version → is_version other table self.old
            → is_version other table self.new }
        ensures ended { (table : Stored (List ℕ)) → ¬ is_version version table self.new };

    /// A version that is kept lasts over each call that promises so.
    ghost version_lasts: { (version : Self.Version) (table : Stored (List ℕ)) (old new : Self) → IsTrue (Self.state old).disk.honest
        → Self.lasts old new → is_version version table old → is_version version table new };
}
