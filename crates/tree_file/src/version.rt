//! A table that is kept as it was committed, whatever is committed later.
ghost use Rattle.std.specs.Prelude.{◌≢◌, true};
ghost use Rattle.page_store.specs.Holds.{needed_by};
ghost use Rattle.page_store.specs.declared.holds.HoldPlace.{HoldPlace};
ghost use Rattle.tree_table.specs.lemmas.Versions.{version_kept};
ghost use Rattle.tree_file.specs.Versions.{IsVersion};

use crate::file::TreeFile;
use crate::kept::Kept;
use crate::on_disk::PagesOnDisk;
use game_file::Versions;
use retrograde::{Counts, Record};
use table::TableFault;

impl<P: PagesOnDisk, const LAYOUT: u32> Versions for TreeFile<P, LAYOUT> {
    ghost use Rattle.std.specs.Prelude.{◌≡◌};
    ghost use Rattle.tree_file.specs.InFile.{file_in};

    type Version = Kept;

    ghost is_version = { λ version table t. IsVersion version table (file_in t) };

    ghost are_two = { λ one other. one.hold.place ≢ other.hold.place };

    ghost is_used_up = { λ t. (place : HoldPlace) → needed_by (file_in t).work.store.holds.taken place ≡ true };

    ghost version_lasts = { λ version table old new honest keeps it.
        version_kept version.hold.place version.slot table (file_in old).work.store (file_in new).work.store honest keeps it };

    fn keep(&mut self) -> Option<Kept> {
        let Some(slot) = self.game else {
            return None;
        };
        match self.table.hold() {
            Some(hold) => Some(Kept { hold, slot }),
            None => None,
        }
    }

    fn counts_of(&self, version: &Kept) -> Counts {
        version.slot.sizes.counts
    }

    fn record_of(&mut self, version: &Kept, number: u32) -> Result<Record, TableFault> {
        if number >= version.slot.sizes.counts.known {
            return Err(TableFault::Damaged);
        }
        self.table.kept_record(&version.slot, number)
    }

    fn give_back(&mut self, version: Kept) {
        let Kept { hold, slot: _ } = version;
        self.table.let_go(hold);
    }
}
