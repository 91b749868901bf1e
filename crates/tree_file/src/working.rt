//! The table that a command has come to, in a file.
ghost use Rattle.page_store.specs.Marks.{free_count};
ghost use Rattle.tree_table.specs.WorkTable.{IsHonestWork, table_now};
ghost use Rattle.tree_table.specs.lemmas.Frames as work;
ghost use Rattle.tree_file.specs.Calls.{FileStays, FileGoesOn, FileFails};
ghost use Rattle.tree_file.specs.lemmas.Frames as frames;
ghost use Rattle.tree_file.specs.InFile.{file_in};

use crate::file::TreeFile;
use crate::on_disk::PagesOnDisk;
use position_pack::Packed;
use retrograde::{Counts, Record};
use table::{Table, TableFault};

impl<P: PagesOnDisk, const LAYOUT: u32> Table for TreeFile<P, LAYOUT> {
    ghost stored = { λ t. table_now (file_in t).work };

    ghost is_honest = { λ t. IsHonestWork (file_in t).work };

    ghost counted = { λ t. t.table.slot.sizes.counts };

    ghost free = { λ t. free_count (file_in t).work.store.marks };

    ghost stays = { λ was is. FileStays (file_in was) (file_in is) };

    ghost goes_on = { λ was is. FileGoesOn (file_in was) (file_in is) };

    ghost fails = { λ was is fault. FileFails (file_in was) (file_in is) fault };

    ghost counts_are = { λ t honest. work.counts_are (file_in t).work (t.table.holds honest) };

    ghost stays_here = { λ t. frames.stays_here (file_in t) };

    ghost stays_free = { λ a b it. work.stays_free it.work };

    ghost full_free = { λ a b it. work.full_free it.work };

    ghost stays_then = { λ a b c first second. frames.stays_then first second };

    ghost stays_goes_on = { λ a b it. frames.stays_goes_on it };

    ghost goes_on_then = { λ a b c first second. frames.goes_on_then first second };

    ghost fails_since = { λ a b c fault first it. frames.fails_since fault first it };

    ghost memory_fails = { λ a b ahead. frames.memory_fails ahead };

    fn counts(&self) -> Counts {
        self.table.counts()
    }

    fn number_of(&mut self, packed: &Packed) -> Result<Option<u32>, TableFault> {
        self.table.number_of(packed)
    }

    fn packed(&mut self, number: u32) -> Result<Packed, TableFault> {
        self.table.packed(number)
    }

    fn record(&mut self, number: u32) -> Result<Record, TableFault> {
        self.table.record(number)
    }

    fn add(&mut self, packed: &Packed) -> Result<u32, TableFault> {
        self.table.add(packed)
    }

    fn set_record(&mut self, number: u32, kept: Record) -> Result<(), TableFault> {
        self.table.set_record(number, kept)
    }

    fn add_edge(&mut self, successor: u32, predecessor: u32) -> Result<(), TableFault> {
        self.table.add_edge(successor, predecessor)
    }

    fn next_edge(&mut self, successor: u32, after: Option<u32>) -> Result<Option<u32>, TableFault> {
        self.table.next_edge(successor, after)
    }

    fn push_settled(&mut self, number: u32) -> Result<(), TableFault> {
        self.table.push_settled(number)
    }

    fn settled_at(&mut self, place: u32) -> Result<u32, TableFault> {
        self.table.settled_at(place)
    }
}
