//! A text and a table are written on free pages.
ghost use Rattle.std.specs.Prelude.{◌≡◌, ◌^◌, ◌≤◌, false, length, OnOk, IfOk, IfErr, IsTrue};
ghost use Rattle.page_chain.specs.Chain.{first_of};
ghost use Rattle.page_store.specs.Store.{StoreWorks};
ghost use Rattle.position_pack.specs.declared.limits.TheConstants.{MAX_PACKED};
ghost use Rattle.rbg_game.specs.declared.limits.TheConstants.{MAX_TEXT_BYTES};
ghost use Rattle.retrograde.specs.Stored.{IsTable};
ghost use Rattle.table.specs.InMemory.{stored_in, counted_in};
ghost use Rattle.table.specs.Records.{nothing};
ghost use Rattle.tree_table.specs.InTrees.{work_in};
ghost use Rattle.tree_table.specs.KeptTrees.{IsSizedSlot};
ghost use Rattle.tree_table.specs.WorkTable.{HoldsTable, table_now, text_slot, work_of};
ghost use Rattle.earlier_layouts.specs.lemmas.MovingSteps.{HasFrameOf, StepCause, of_copy};

use crate::{CopyFault, copy_table};
use game_file::FileFault;
use page_chain::write_chain;
use page_store::Pages;
use position_pack::PackingKind;
use std::alloc::Global;
use table::MemTable;
use tree_table::{TreeSlot, TreeTable, bare_slot};

/// A store of pages that comes back, with what was answered.
#[derive(Drop)]
pub struct Attempt<P: Pages, T: Drop> {
    pub store: P,
    pub result: Result<T, FileFault>,
}

/// What a fault in copying a table is told as.
fn fault_of(fault: CopyFault) -> FileFault
    ensures { result ≡ of_copy fault }
{
    match fault {
        CopyFault::From(fault) => fault.into(),
        CopyFault::To(fault) => fault.into(),
        CopyFault::Inconsistent => FileFault::Inconsistent,
    }
}

/// The first of these pages, 0 where there is none.
fn first_page(pages: &[u32]) -> u32
    ensures { result ≡ first_of pages.now }
{
    pages.first().copied().unwrap_or(0)
}

/// The slot of a text of this many bytes, from this page on, and of no position; there is no goal.
fn slot_of(packing: PackingKind, first: u32, text: u32, packed: u32) -> TreeSlot
    ensures { result ≡ text_slot packing 0 first text packed }
{
    let mut slot = bare_slot(packed);
    slot.packing = packing;
    slot.first = first;
    slot.sizes.text = text;
    slot
}

/// Writes the text of a game on free pages. Answers the slot that names it, and no position.
pub fn write_text<P: Pages>(
    alloc: Global,
    store: &mut P,
    text: &[u8],
    packing: PackingKind,
    packed: u32,
) -> Result<TreeSlot, FileFault>
    requires some { 1 ≤ packed }
    requires short { packed ≤ MAX_PACKED }
    requires text { length text.now ≤ MAX_TEXT_BYTES }
    ensures slot { IfOk result (λ slot. slot ≡ text_slot packing 0 slot.first (length text.now) packed) }
    ensures holds { IsTrue (P.store store.old).disk.honest → IfOk result (λ slot. HoldsTable slot text.now nothing (P.store store.new)) }
    ensures works { StoreWorks (P.store store.old) (P.store store.new) }
    ensures still { OnOk result ((P.store store.new).closed ≡ (P.store store.old).closed) }
    ensures cause { IfErr result (StepCause (P.store store.old) (P.store store.new)) }
{
    let pages = write_chain(alloc, store, text)?;
    let first = first_page(&pages);
    Ok(slot_of(packing, first, text.len() as u32, packed))
}

/// The table of this slot, which has no position yet.
fn table_on<P: Pages>(store: P, slot: TreeSlot, text: Vec<u8>) -> TreeTable<P>
    requires sized { IsSizedSlot slot }
    requires holds { IsTrue (P.store store).disk.honest → HoldsTable slot text.items nothing (P.store store) }
    ensures work { work_in result ≡ work_of slot text.items false (P.store store) }
    ensures nothing { IsTrue (P.store store).disk.honest → table_now (work_in result) ≡ nothing }
{
    TreeTable {
        store,
        slot,
        text,
        torn: false,
        seen: None,
        in_row: false,
        near: None,
    }
}

/// Writes a table on free pages, beside the text that this slot names. Answers the slot that names both.
pub fn copy_on<P: Pages>(
    store: P,
    slot: TreeSlot,
    text: Vec<u8>,
    table: MemTable,
) -> Attempt<P, TreeSlot>
    requires sized { IsSizedSlot slot }
    requires none { slot.sizes.counts.known ≡ 0 }
    requires holds { IsTrue (P.store store).disk.honest → HoldsTable slot text.items nothing (P.store store) }
    requires few { (counted_in table).known ≤ 2 ^ 24 }
    requires table { IsTable (stored_in table) }
    ensures works { StoreWorks (P.store store) (P.store result.store) }
    ensures still { OnOk result.result ((P.store result.store).closed ≡ (P.store store).closed) }
    ensures holds { IsTrue (P.store store).disk.honest
        → IfOk result.result (λ is. HoldsTable is text.items (stored_in table) (P.store result.store)) }
    ensures frame { IfOk result.result (λ is. HasFrameOf is slot) }
    ensures sized { IfOk result.result IsSizedSlot }
    ensures cause { IfErr result.result (StepCause (P.store store) (P.store result.store)) }
{
    let mut table = table;
    let mut tree = table_on(store, slot, text);
    match copy_table(&mut table, &mut tree) {
        Ok(()) => {
            let TreeTable { store, slot, .. } = tree;
            Attempt {
                store,
                result: Ok(slot),
            }
        }
        Err(fault) => {
            let TreeTable { store, .. } = tree;
            Attempt {
                store,
                result: Err(fault_of(fault)),
            }
        }
    }
}
