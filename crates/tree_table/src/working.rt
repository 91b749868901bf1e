//! A game's table on trees of pages.
ghost use Rattle.std.specs.Prelude.{◌≡◌, ◌↔◌, ◌≤◌, ◌^◌, [], false, length, IfSome, IsTrue};
ghost use Rattle.page_store.specs.Marks.{free_count};
ghost use Rattle.tree_table.specs.WorkTable.{HoldsWork, IsHonestWork, bare_slot as bare, table_now, work_of};
ghost use Rattle.tree_table.specs.Last.{IsLastSeen};
ghost use Rattle.tree_table.specs.lemmas.Last.{long_prop, last_prop};
ghost use Rattle.tree_table.specs.Readers.{IsNear};
ghost use Rattle.tree_table.specs.lemmas.Readers.{near_prop};
ghost use Rattle.table.specs.Records.{nothing};
ghost use Rattle.tree_table.specs.WorkTable as work;
ghost use Rattle.tree_table.specs.lemmas.Frames as frames;
ghost use Rattle.position_pack.specs.declared.limits.TheConstants.{MAX_PACKED};
ghost use Rattle.rbg_game.specs.declared.limits.TheConstants.{MAX_POINTS};

use crate::bytes::position_of;
use crate::change::{add_edge, add_position, push_settled};
use crate::keeping::bare_slot;
use crate::last::{Seen, forget};
use crate::read::{edge_after, number_of, settled_at};
use crate::slot::TreeSlot;
use btree::find::Reader;
use page_store::Pages;
use position_pack::Packed;
use retrograde::{Counts, Record};
use std::alloc::Global;
use table::{Table, TableFault};

/// A game's table on trees of pages. Where the disk is honest and no call that writes has stopped half way, the pages that
/// its slot names hold it.
#[derive(Drop)]
pub struct TreeTable<P: Pages> {
    pub store: P,
    /// Which pages there are, and how much of each is in the table.
    pub slot: TreeSlot,
    /// The text of the game.
    pub text: Vec<u8>,
    /// A call that writes has stopped half way.
    pub torn: bool,
    /// The cell that was looked at or written last, so that it need not be looked for again.
    pub seen: Option<Seen>,
    /// Nothing was written since that cell was looked at.
    pub in_row: bool,
    /// A reader of the records, if cells were looked at one after another.
    pub near: Option<Reader>,
    ghost some: { 1 ≤ slot.sizes.packed },
    ghost short: { slot.sizes.packed ≤ MAX_PACKED },
    ghost few: { slot.sizes.counts.known ≤ 2 ^ 24 },
    ghost points: { slot.goal ≤ MAX_POINTS },
    ghost holds: { IsHonestWork (work_of slot text.items torn (P.store store))
        → ∥ HoldsWork (work_of slot text.items torn (P.store store)) ∥₁ },
    ghost long: { IfSome seen (λ s. length s.cell.position.items ≡ slot.sizes.packed) } by { long_prop seen slot.sizes.packed },
    ghost last: { IsLastSeen (work_of slot text.items torn (P.store store)) seen } by { last_prop seen (work_of slot text.items torn (P.store store)) },
    ghost reads: { IsNear slot (P.store store) near } by { near_prop slot (P.store store) near },
}

impl<P: Pages> TreeTable<P> {
    ghost use Rattle.tree_table.specs.InTrees.{work_in};

    /// The table of no game in this store, for positions of this many bytes.
    pub fn empty(alloc: Global, store: P, packed: u32) -> Self
        requires some { 1 ≤ packed }
        requires short { packed ≤ MAX_PACKED }
        ensures nothing { IsTrue (P.store store).disk.honest → table_now (work_in result) ≡ nothing }
        ensures honest { IsTrue (P.store store).disk.honest ↔ IsHonestWork (work_in result) }
        ensures work { work_in result ≡ work_of (bare packed) [] false (P.store store) }
    {
        TreeTable {
            store,
            slot: bare_slot(packed),
            text: Vec::new(alloc),
            torn: false,
            seen: None,
            in_row: false,
            near: None,
        }
    }
}

impl<P: Pages> Table for TreeTable<P> {
    ghost use Rattle.tree_table.specs.InTrees.{work_in};

    ghost stored = { λ t. table_now (work_in t) };

    ghost is_honest = { λ t. IsHonestWork (work_in t) };

    ghost counted = { λ t. t.slot.sizes.counts };

    ghost free = { λ t. free_count (work_in t).store.marks };

    ghost stays = { λ was is. work.WorkStays (work_in was) (work_in is) };

    ghost goes_on = { λ was is. work.WorkGoesOn (work_in was) (work_in is) };

    ghost fails = { λ was is fault. work.WorkFails (work_in was) (work_in is) fault };

    ghost counts_are = { λ t honest. frames.counts_are (work_in t) (t.holds honest) };

    ghost stays_here = { λ t. frames.stays_here (work_in t) };

    ghost stays_free = { λ a b it. frames.stays_free it };

    ghost full_free = { λ a b it. frames.full_free it };

    ghost stays_then = { λ a b c first second. frames.stays_then first second };

    ghost stays_goes_on = { λ a b it. frames.stays_goes_on it };

    ghost goes_on_then = { λ a b c first second. frames.goes_on_then first second };

    ghost fails_since = { λ a b c fault first it. frames.fails_since fault first it };

    ghost memory_fails = { λ a b ahead. frames.memory_fails ahead };

    fn counts(&self) -> Counts {
        self.slot.sizes.counts
    }

    fn number_of(&mut self, packed: &Packed) -> Result<Option<u32>, TableFault> {
        number_of(&mut self.store, &self.slot, packed)
    }

    fn packed(&mut self, number: u32) -> Result<Packed, TableFault> {
        self.see(number)?;
        match &self.seen {
            Some(seen) => Ok(position_of(&seen.cell.position)),
            None => unreachable!(),
        }
    }

    fn record(&mut self, number: u32) -> Result<Record, TableFault> {
        self.see(number)?;
        match &self.seen {
            Some(seen) => Ok(seen.cell.kept),
            None => unreachable!(),
        }
    }

    fn add(&mut self, packed: &Packed) -> Result<u32, TableFault> {
        // keys have one length; no game has a position of another
        if packed.len() != self.slot.sizes.packed as usize {
            return Err(TableFault::OutOfMemory);
        }
        let number = self.slot.sizes.counts.known;
        let torn = self.torn;
        self.torn = true;
        self.in_row = false;
        forget(&mut self.near);
        self.slot = add_position(&mut self.store, self.slot, packed)?;
        self.torn = torn;
        Ok(number)
    }

    fn set_record(&mut self, number: u32, kept: Record) -> Result<(), TableFault> {
        self.see(number)?;
        self.set_seen(number, kept)
    }

    fn add_edge(&mut self, successor: u32, predecessor: u32) -> Result<(), TableFault> {
        let torn = self.torn;
        self.torn = true;
        self.in_row = false;
        forget(&mut self.near);
        self.slot = add_edge(&mut self.store, self.slot, successor, predecessor)?;
        self.torn = torn;
        Ok(())
    }

    fn next_edge(&mut self, successor: u32, after: Option<u32>) -> Result<Option<u32>, TableFault> {
        edge_after(&mut self.store, &self.slot, successor, after)
    }

    fn push_settled(&mut self, number: u32) -> Result<(), TableFault> {
        let torn = self.torn;
        self.torn = true;
        self.in_row = false;
        forget(&mut self.near);
        self.slot = push_settled(&mut self.store, self.slot, number)?;
        self.torn = torn;
        Ok(())
    }

    fn settled_at(&mut self, place: u32) -> Result<u32, TableFault> {
        settled_at(&mut self.store, &self.slot, place)
    }
}
