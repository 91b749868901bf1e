//! The first table of a game is put into a store that has none.
ghost use Rattle.std.specs.Prelude.{◌≡◌, ◌≤◌, length, IfOk, IfErr};
ghost use Rattle.tree_table.specs.WorkTable.{text_slot};
ghost use Rattle.tree_table.specs.lemmas.FirstTable.{IsFirstTable, IsNoFirstTable};
ghost use Rattle.page_chain.specs.Chain.{first_of};
ghost use Rattle.rbg_game.specs.Goals.{points_of};
ghost use Rattle.rbg_game.specs.declared.limits.TheConstants.{MAX_TEXT_BYTES};

use crate::change::add_position;
use crate::fault::table_fault;
use crate::keeping::bare_slot;
use crate::slot::TreeSlot;
use game_file::number_of_goal;
use page_chain::write_chain;
use page_store::Pages;
use position_pack::{Packed, PackingKind};
use rbg_game::goal::Goal;
use std::alloc::Global;
use table::TableFault;

/// The slot of a text of this many bytes, from this page on, and of no position.
fn text_slot(packing: PackingKind, goal: u32, first: u32, text: u32, packed: u32) -> TreeSlot
    ensures { result ≡ text_slot packing goal first text packed }
{
    let mut slot = bare_slot(packed);
    slot.packing = packing;
    slot.goal = goal;
    slot.first = first;
    slot.sizes.text = text;
    slot
}

/// The first of these pages, 0 where there is none.
fn first_page(pages: &[u32]) -> u32
    ensures { result ≡ first_of pages.now }
{
    pages.first().copied().unwrap_or(0)
}

/// Writes the text of a game, and its start as the one position of a table, on free pages.
pub fn first_table<P: Pages>(
    alloc: Global,
    store: &mut P,
    text: &[u8],
    packing: PackingKind,
    goal: Option<Goal>,
    start: &Packed,
) -> Result<TreeSlot, TableFault>
    requires some { 1 ≤ length start.now.items }
    requires text { length text.now ≤ MAX_TEXT_BYTES }
    ensures ok { IfOk result (IsFirstTable text.now packing (points_of goal) start.now.items (P.store store.old) (P.store store.new)) }
    ensures err { IfErr result (IsNoFirstTable (length text.now) (P.store store.old) (P.store store.new)) }
{
    let pages = match write_chain(alloc, store, text) {
        Ok(pages) => pages,
        Err(fault) => return Err(table_fault(fault)),
    };
    let slot = text_slot(
        packing,
        number_of_goal(goal),
        first_page(&pages),
        text.len() as u32,
        start.len() as u32,
    );
    add_position(store, slot, start)
}
