//! A table at work is committed, given up, or begun anew.
ghost use Rattle.std.specs.Prelude.{◌≡◌, ◌≤◌, ℕ, length, Option, None, Some, false, OnOk, IfErr, IsTrue};
ghost use Rattle.page_store.specs.declared.marks.Mark.TheVariants.{Waiting};
ghost use Rattle.page_store.specs.Marks.{mark as mark_of};
ghost use Rattle.page_store.specs.Spelled.{IsCalm};
ghost use Rattle.page_store.specs.Store.{Store};
ghost use Rattle.retrograde.specs.Stored.{loaded};
ghost use Rattle.game_file.specs.Kept.{Kept, kept_as};
ghost use Rattle.game_file.specs.Stops.{LeavesEither};
ghost use Rattle.game_file.specs.Fields.{layout_in, number_of_goal, HasPlaceFor};
ghost use Rattle.tree_table.specs.Commits.{OnlyPages, StoreAdvances, IsSaved, IsNotSaved, IsStarted, IsNotStarted, IsRestored};
ghost use Rattle.tree_table.specs.Held.{StoresTrees};
ghost use Rattle.tree_table.specs.KeptTrees.{IsVacant, IsWorkedOn, StandsFor, AreSized, slot_or_bare as slot_of};
ghost use Rattle.tree_table.specs.WorkTable.{bare_slot as bare, work_of};
ghost use Rattle.rbg_game.specs.Goals.{points_of};
ghost use Rattle.rbg_game.specs.declared.limits.TheConstants.{MAX_TEXT_BYTES};

use crate::begin::first_table;
use crate::fault::table_fault;
use crate::slot::{TreeSlot, game_slot};
use crate::tree::Roots;
use crate::working::TreeTable;
use game_file::{Sizes, word_at};
use page_store::{PageFault, Pages};
use position_pack::{Packed, PackingKind};
use rbg_game::goal::Goal;
use retrograde::Counts;
use std::alloc::Global;
use std::mem;
use table::TableFault;

/// The slot that names no page, for positions of this many bytes.
pub fn bare_slot(packed: u32) -> TreeSlot
    ensures { result ≡ bare packed }
{
    let counts = Counts {
        known: 0,
        expanded: 0,
        settled: 0,
        processed: 0,
    };
    let sizes = Sizes {
        text: 0,
        packed,
        counts,
        edges: 0,
    };
    let roots = Roots {
        positions: 0,
        records: 0,
        edges: 0,
        order: 0,
    };
    TreeSlot {
        packing: PackingKind::Bytes,
        goal: 0,
        first: 0,
        sizes,
        roots,
    }
}

/// The slot of the game that is loaded, or the one that names no page.
fn slot_or_bare(game: &Option<TreeSlot>) -> TreeSlot
    ensures { result ≡ slot_of game.now }
{
    match game {
        Some(slot) => *slot,
        None => bare_slot(1),
    }
}

impl<P: Pages> TreeTable<P> {
    ghost use Rattle.tree_table.specs.InTrees.{work_in};

    /// The table that this slot of the committed root names, or none where no game is loaded, with the text of the game. Nothing is
    /// handed out or released in this store.
    pub fn standing(store: P, game: &Option<TreeSlot>, text: Vec<u8>) -> Self
        requires sized { AreSized game.now }
        requires calm { IsCalm (P.store store) }
        requires stands { IsTrue (P.store store).disk.honest → ∥ StandsFor game.now text.items (P.store store) ∥₁ }
        ensures work { work_in result ≡ work_of (slot_of game.now) text.items false (P.store store) }
    {
        TreeTable {
            store,
            slot: slot_or_bare(game),
            text,
            torn: false,
            seen: None,
            in_row: false,
            near: None,
        }
    }

    /// Gives up what was done since the last commit: the table is again the one that this slot of the committed root names, or
    /// none where no game is loaded. It takes no memory and always answers, of a closed store too.
    pub fn restore(&mut self, game: &Option<TreeSlot>)
        requires sized { AreSized game.now }
        requires sealed { (p : ℕ) → mark_of (work_in self.old).store.marks p ≡ Waiting → ⊥ }
        requires stands { IsTrue (work_in self.old).store.disk.honest
            → ∥ StandsFor game.now (work_in self.old).text (work_in self.old).store ∥₁ }
        ensures { IsRestored game.now (work_in self.old) (work_in self.new) }
    {
        self.torn = true;
        self.seen = None;
        self.in_row = false;
        self.near = None;
        self.store.discard();
        self.slot = slot_or_bare(game);
        self.torn = false;
    }

    /// Commits the table that a command has come to in the place of the one that the committed root names. The new root has the layout of the
    /// old one, and tells this count of commits. A stop of the power since the work began leaves the old table or the new one; after `Ok` the
    /// new is kept, and after a refusal that leaves the store open the old.
    pub fn save(&mut self, commits: u64) -> Result<(), PageFault>
        ensures same { OnlyPages (work_in self.old) (work_in self.new) }
        ensures ok { OnOk result (IsSaved commits (work_in self.old) (work_in self.new)) }
        ensures err { IfErr result (IsNotSaved (work_in self.old) (work_in self.new)) }
        ensures stop { (begun : Store) (was : Option Kept) (is : Kept)
            → IsWorkedOn (work_in self.old).slot begun (work_in self.old).store was is
            → LeavesEither (StoresTrees (layout_in begun.root) (length begun.marks)) begun.disk (work_in self.new).store.disk was (Some is) }
        ensures advances { StoreAdvances (work_in self.old).store (work_in self.new).store }
    {
        self.seen = None;
        self.in_row = false;
        self.near = None;
        let torn = self.torn;
        self.torn = true;
        let layout = word_at(&self.store.root().bytes, 0);
        let root = game_slot(layout, self.store.capacity(), commits, &self.slot);
        let result = self.store.commit(&root);
        self.torn = torn;
        result
    }

    /// Puts a game with this text, packing, goal and start in the place of none, and commits: the new root has the layout of the old one, and
    /// tells this count of commits. A stop of the power leaves no game or this one. After a refusal the table has stopped half way, and goes
    /// back by `restore`.
    pub fn start(
        &mut self,
        alloc: Global,
        commits: u64,
        text: Vec<u8>,
        packing: PackingKind,
        goal: Option<Goal>,
        start: &Packed,
    ) -> Result<(), TableFault>
        requires some { 1 ≤ length start.now.items }
        requires text { length text.items ≤ MAX_TEXT_BYTES }
        requires place { HasPlaceFor (layout_in (work_in self.old).store.root) (number_of_goal (points_of goal)) }
        ensures ok { OnOk result (IsStarted commits text.items packing (points_of goal) start.now.items (work_in self.old) (work_in self.new)) }
        ensures err { IfErr result (IsNotStarted (length text.items) (work_in self.old) (work_in self.new)) }
        ensures stop { IsVacant (work_in self.old).store
            → LeavesEither (StoresTrees (layout_in (work_in self.old).store.root) (length (work_in self.old).store.marks))
            (work_in self.old).store.disk (work_in self.new).store.disk None
            (Some (kept_as text.items packing (points_of goal) (loaded start.now.items))) }
        ensures advances { StoreAdvances (work_in self.old).store (work_in self.new).store }
    {
        self.torn = true;
        self.in_row = false;
        self.near = None;
        let slot = first_table(alloc, &mut self.store, &text, packing, goal, start)?;
        let before = mem::replace(&mut self.text, text);
        self.seen = None;
        self.slot = slot;
        self.torn = false;
        match self.save(commits) {
            Ok(()) => Ok(()),
            Err(fault) => {
                self.torn = true;
                self.text = before;
                Err(table_fault(fault))
            }
        }
    }
}
