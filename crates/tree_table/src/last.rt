//! The cell that was looked at or written last stays in memory: a unit of work asks for the same one several times.
ghost use Rattle.std.specs.Prelude.{◌≡◌, ◌+◌, ◌≤◌, ◌<◌, None, OnOk, OnErr, IfErr, IsTrue};
ghost use Rattle.page_store.specs.Marks.{free_count};
ghost use Rattle.page_store.specs.Frames.{PagesRead};
ghost use Rattle.position_pack.specs.declared.limits.TheConstants.{MAX_PACKED};
ghost use Rattle.retrograde.specs.Changes.{with_record};
ghost use Rattle.table.specs.Faults.{NeedsNoPage};
ghost use Rattle.table.specs.Frames.{IsWritten};
ghost use Rattle.table.specs.declared.limits.TheConstants.{PAGES_PER_ENTRY};
ghost use Rattle.tree_table.specs.Causes.{IsNoTable, ReadCause};
ghost use Rattle.tree_table.specs.Frames.{IsCellSeen};
ghost use Rattle.tree_table.specs.Last.{HasSeen};
ghost use Rattle.tree_table.specs.Readers.{IsNear};
ghost use Rattle.tree_table.specs.WorkTable.{table_now, IsHonestWork, WorkStays, WorkGoesOn, WorkFails};

use crate::bytes::{Cell, no_cell};
use crate::change::set_record;
use crate::read::cell_near;
use crate::slot::TreeSlot;
use crate::working::TreeTable;
use btree::find::Reader;
use page_store::Pages;
use retrograde::Record;
use table::TableFault;

/// A cell with its number.
#[derive(Drop)]
pub struct Seen {
    pub number: u32,
    pub cell: Cell,
}

/// No reader is kept from now on; where none was, nothing is written.
pub fn forget(near: &mut Option<Reader>)
    ensures { near.new ≡ None }
{
    if near.is_some() {
        *near = None;
    }
}

/// Looks at the cell of a number, where the cell that was seen last stands; where the number follows the one before, by a reader.
fn see_near<P: Pages>(
    store: &mut P,
    slot: &TreeSlot,
    near: &mut Option<Reader>,
    follows: bool,
    number: u32,
    seen: &mut Option<Seen>,
) -> Result<(), TableFault>
    requires some { 1 ≤ slot.now.sizes.packed }
    requires short { slot.now.sizes.packed ≤ MAX_PACKED }
    requires known { number < slot.now.sizes.counts.known }
    requires near { IsNear slot.now (P.store store.old) near.old }
    ensures near { IsNear slot.now (P.store store.new) near.new }
    ensures seen { OnOk result (IsCellSeen slot.now (P.store store.old) number seen.new) }
    ensures same { OnErr result (seen.new ≡ seen.old) }
    ensures read { PagesRead (P.store store.old) (P.store store.new) }
    ensures cause { IfErr result (ReadCause IsNoTable slot.now (P.store store.old) (P.store store.new)) }
{
    if let Some(last) = seen {
        cell_near(store, slot, near, follows, number, &mut last.cell)?;
        last.number = number;
        return Ok(());
    }
    let mut cell = no_cell();
    cell_near(store, slot, near, follows, number, &mut cell)?;
    *seen = Some(Seen { number, cell });
    Ok(())
}

impl<P: Pages> TreeTable<P> {
    ghost use Rattle.tree_table.specs.InTrees.{work_in};

    /// Whether the cell that was seen last is the one of this number.
    fn has_seen(&self, number: u32) -> bool
        ensures { IsTrue result → HasSeen self.now.seen number }
    {
        match &self.seen {
            Some(seen) => seen.number == number,
            None => false,
        }
    }

    /// Looks at the cell of a number, if it is not the one that was seen last.
    pub(crate) fn see(&mut self, number: u32) -> Result<(), TableFault>
        requires known { number < (work_in self.old).slot.sizes.counts.known }
        ensures seen { OnOk result (HasSeen self.new.seen number) }
        ensures stays { WorkStays (work_in self.old) (work_in self.new) }
        ensures room { IfErr result NeedsNoPage }
        ensures fault { IfErr result (WorkFails (work_in self.old) (work_in self.new)) }
    {
        if self.has_seen(number) {
            return Ok(());
        }
        let follows = self.in_row && self.has_seen(number.wrapping_sub(1));
        see_near(
            &mut self.store,
            &self.slot,
            &mut self.near,
            follows,
            number,
            &mut self.seen,
        )?;
        self.in_row = true;
        Ok(())
    }

    /// Writes the record of the number whose cell was seen last.
    pub(crate) fn set_seen(&mut self, number: u32, kept: Record) -> Result<(), TableFault>
        requires known { number < (work_in self.old).slot.sizes.counts.known }
        requires seen { HasSeen self.old.seen number }
        ensures set { IsHonestWork (work_in self.old)
            → OnOk result (table_now (work_in self.new) ≡ with_record (table_now (work_in self.old)) number kept) }
        ensures wrote { OnOk result
            (IsWritten IsHonestWork (λ work. work.slot.sizes.counts) WorkGoesOn (work_in self.old) (work_in self.new)) }
        ensures fault { IfErr result (WorkFails (work_in self.old) (work_in self.new)) }
        ensures takes { free_count (work_in self.old).store.marks
            ≤ free_count (work_in self.new).store.marks + PAGES_PER_ENTRY }
    {
        let torn = self.torn;
        self.torn = true;
        self.in_row = false;
        forget(&mut self.near);
        match &mut self.seen {
            Some(seen) => {
                match set_record(&mut self.store, self.slot, number, &seen.cell, kept) {
                    Ok(slot) => {
                        seen.number = number;
                        seen.cell.kept = kept;
                        self.slot = slot;
                    }
                    Err(fault) => {
                        self.seen = None;
                        return Err(fault);
                    }
                }
            }
            None => unreachable!(),
        }
        self.torn = torn;
        Ok(())
    }
}
