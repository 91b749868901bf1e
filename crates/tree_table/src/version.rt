//! A table as it was committed, which a hold keeps.
ghost use Rattle.std.specs.Prelude.{◌≡◌, ◌≤◌, ◌<◌, ℕ, List, true, IfOk, IfErr, IfSome, IfNone, IsTrue};
ghost use Rattle.page_store.specs.Holds.{needed_by};
ghost use Rattle.page_store.specs.Store.{IsHoldTaken, IsLetGo};
ghost use Rattle.page_store.specs.declared.holds.HoldPlace.{HoldPlace};
ghost use Rattle.position_pack.specs.declared.limits.TheConstants.{MAX_PACKED};
ghost use Rattle.retrograde.specs.Stored.{Stored, HasRecord};
ghost use Rattle.tree_table.specs.Causes.{IsNoTable, ReadCause};
ghost use Rattle.tree_table.specs.Versions.{StandsInVersion};
ghost use Rattle.tree_table.specs.WorkTable.{WorkStays};

use crate::bytes::no_cell;
use crate::read::cell_into;
use crate::slot::TreeSlot;
use crate::working::TreeTable;
use page_store::{Hold, Pages};
use retrograde::Record;
use table::TableFault;

impl<P: Pages> TreeTable<P> {
    ghost use Rattle.tree_table.specs.InTrees.{work_in};

    /// Takes a hold on the committed root; none where four are taken. The table at work stays as it is.
    pub fn hold(&mut self) -> Option<Hold>
        ensures some { IfSome result (λ hold. IsHoldTaken hold.place (work_in self.old).store (work_in self.new).store) }
        ensures none { IfNone result ((work_in self.new ≡ work_in self.old)
            × ((place : HoldPlace) → needed_by (work_in self.old).store.holds.taken place ≡ true)) }
        ensures slot { (work_in self.new).slot ≡ (work_in self.old).slot }
        ensures text { (work_in self.new).text ≡ (work_in self.old).text }
        ensures torn { (work_in self.new).torn ≡ (work_in self.old).torn }
    {
        self.seen = None;
        self.in_row = false;
        self.near = None;
        self.store.hold()
    }

    /// Lets a hold go. The table at work stays as it is.
    pub fn let_go(&mut self, hold: Hold)
        ensures gone { IsLetGo hold.place (work_in self.old).store (work_in self.new).store }
        ensures slot { (work_in self.new).slot ≡ (work_in self.old).slot }
        ensures text { (work_in self.new).text ≡ (work_in self.old).text }
        ensures torn { (work_in self.new).torn ≡ (work_in self.old).torn }
    {
        self.seen = None;
        self.in_row = false;
        self.near = None;
        self.store.let_go(hold);
    }

    /// The record of a number in the table that a hold keeps, whose slot this is.
    pub fn kept_record(&mut self, slot: &TreeSlot, number: u32) -> Result<Record, TableFault>
        requires some { 1 ≤ slot.now.sizes.packed }
        requires short { slot.now.sizes.packed ≤ MAX_PACKED }
        requires known { number < slot.now.sizes.counts.known }
        ensures record { IsTrue (work_in self.old).store.disk.honest → (place : HoldPlace) (table : Stored (List ℕ))
            → StandsInVersion place slot.now table (work_in self.old).store → IfOk result (λ kept. HasRecord table number kept) }
        ensures stays { WorkStays (work_in self.old) (work_in self.new) }
        ensures cause { IfErr result (ReadCause IsNoTable slot.now (work_in self.old).store (work_in self.new).store) }
    {
        let mut cell = no_cell();
        cell_into(&mut self.store, slot, number, &mut cell)?;
        Ok(cell.kept)
    }
}
