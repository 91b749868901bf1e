//! A table on trees in a file of one layout.
ghost use Rattle.std.specs.Prelude.{◌≡◌, ◌↔◌, ◌⊎◌, ◌≤◌, ◌<◌, ◌/◌, ℕ, true, None, min, IfOk, IfErr, IsTrue};
ghost use Rattle.tree_file.specs.lemmas.MadeTable.{of_new};
ghost use Rattle.page_store.specs.declared.limits.TheConstants.{MAX_PAGES};
ghost use Rattle.game_file.specs.Kept.{in_any};
ghost use Rattle.game_file.specs.Fields.{commits_in, layout_in};
ghost use Rattle.game_file.specs.Calls.{IsOpenedFile, IsNotOpened};
ghost use Rattle.game_file.specs.Causes.{FileOpenCause};
ghost use Rattle.tree_table.specs.Held.{StoresTrees};
ghost use Rattle.tree_table.specs.InTrees.{work_in};
ghost use Rattle.tree_table.specs.lemmas.OneTable.{an_image_stores_one_tree_table};
ghost use Rattle.tree_table.specs.KeptTrees.{AreSized, StandsFor};
ghost use Rattle.tree_file.specs.File.{IsWholeFile, UsesNoOther, state_of};
ghost use Rattle.tree_file.specs.lemmas.Backed.{are_sized_prop};
ghost use Rattle.tree_file.specs.lemmas.Opened.{IsFileRead, IsTurnedBack};
ghost use Rattle.page_store.specs.declared.marks.Mark.TheVariants.{Waiting};
ghost use Rattle.page_store.specs.Marks.{mark};
ghost use Rattle.tree_file.specs.Older.{IsOlderTable};
ghost use Rattle.tree_table.specs.Versions.{KeepsHolds};
ghost use Rattle.tree_table.specs.lemmas.Versions.{keeps_holds_then, works_keep_holds};
ghost use Rattle.tree_file.specs.lemmas.Whole.{whole_counts, whole_leaves, whole_stored, whole_stays, works_ahead, fails_for, older_none};
ghost use Rattle.tree_file.specs.lemmas.Free.{whole_free, empty_free};

use crate::naming::slot_naming;
use crate::on_disk::PagesOnDisk;
use crate::open::{read_all, read_root};
use game_file::{FileFault, GameFile, Refused, goal_numbered};
use page_store::{MAX_PAGES, MOST_CACHED};
use position_pack::{Packed, PackingKind};
use rbg_game::goal::Goal;
use root_pair::create;
use sector_disk::SectorDisk;
use std::alloc::Global;
use tree_table::{FIRST_WITH_GOALS, TreeSlot, TreeTable, empty_slot};

/// As many pages as this many sectors have room for, 1,048,576 at most.
fn room_for(sectors: u64) -> u32
    ensures { result ≡ min (sectors / 8) MAX_PAGES }
{
    (sectors / 8).min(u64::from(MAX_PAGES)) as u32
}

/// Whether the slot of a layout has a place for this goal: those of earlier layouts have none for any.
fn has_place(layout: u32, goal: Option<Goal>) -> bool
    ensures { (result ≡ true) ↔ ((3 ≤ layout) ⊎ (goal ≡ None)) }
{
    layout >= FIRST_WITH_GOALS || goal.is_none()
}

/// The fault that is told where a table that was just created does not open: a disk that gives another layout than was written is damaged.
fn of_new(fault: FileFault) -> FileFault
    ensures { result ≡ of_new fault }
{
    match fault {
        FileFault::OldLayout => FileFault::Damaged,
        other => other,
    }
}

/// A game's table in a file of this layout: 3, which the program writes, or 2, the one before. A command works on the trees themselves:
/// it writes pages that the last commit does not need, and to give the command up these pages are free again.
#[derive(Drop)]
pub struct TreeFile<P: PagesOnDisk, const LAYOUT: u32> {
    pub(crate) alloc: Global,
    /// The table that a command has come to.
    pub(crate) table: TreeTable<P>,
    /// Commits since the file was made, as the committed root tells them.
    pub(crate) commits: u64,
    /// The slot of the committed root, where a game is loaded.
    pub(crate) game: Option<TreeSlot>,
    ghost counted: { commits ≡ commits_in (work_in table).store.root },
    ghost sized: { AreSized game } by { are_sized_prop game },
    ghost sealed: { (p : ℕ) → mark (work_in table).store.marks p ≡ Waiting → ⊥ },
    ghost of_layout: { layout_in (work_in table).store.root ≡ LAYOUT },
    ghost stands: { IsTrue (work_in table).store.disk.honest → ∥ StandsFor game (work_in table).text (work_in table).store ∥₁ },
}

impl<P: PagesOnDisk, const LAYOUT: u32> TreeFile<P, LAYOUT> {
    ghost use Rattle.tree_file.specs.InFile.{file_in};

    /// The file, if it has this many pages, as it was made: a disk that gives another count than was written is damaged.
    fn with_pages(self, pages: u32) -> Result<Self, Refused<P::Device>>
        ensures file { IfOk result (λ t. file_in t ≡ file_in self) }
        ensures pages { IfOk result (λ t. (state_of (file_in t)).capacity ≡ pages) }
        ensures err { IfErr result (λ back. IsTurnedBack pages (file_in self) (P.Device.disk back.disk) (P.Device.failures back.disk) back.fault) }
    {
        if self.table.store.capacity() == pages {
            return Ok(self);
        }
        Err(Refused {
            disk: self.table.store.give_back(),
            fault: FileFault::Damaged,
        })
    }

    /// Opens the table that this disk stores, after a sync, with this many pages in memory: E1, E2, E4, E5, E8.
    fn read(alloc: Global, disk: P::Device, pages: usize) -> Result<Self, Refused<P::Device>>
        requires { pages ≤ 64 }
        ensures ok { IfOk result (λ t. IsFileRead LAYOUT (P.Device.disk disk) (P.Device.failures disk) (file_in t)) }
        ensures refused { IfErr result (λ back. IsNotOpened (P.Device.disk disk) (P.Device.failures disk)
            (P.Device.disk back.disk) (P.Device.failures back.disk)) }
        ensures cause { IfErr result (λ back. FileOpenCause (in_any (StoresTrees LAYOUT)) (IsOlderTable LAYOUT) (P.Device.disk disk) (P.Device.failures disk)
            (P.Device.failures back.disk) back.fault) }
    {
        let mut store = match P::find(alloc, disk, pages) {
            Ok(store) => store,
            Err(refused) => {
                return Err(Refused {
                    disk: refused.disk,
                    fault: refused.fault.into(),
                });
            }
        };
        let slot = match read_root(&mut store, LAYOUT) {
            Ok(slot) => slot,
            Err(fault) => {
                return Err(Refused {
                    disk: store.give_back(),
                    fault,
                });
            }
        };
        match read_all(alloc, &mut store, &slot) {
            Ok(text) => Ok(TreeFile {
                alloc,
                table: TreeTable::standing(store, &slot.game, text),
                commits: slot.commits,
                game: slot.game,
            }),
            Err(fault) => Err(Refused {
                disk: store.give_back(),
                fault,
            }),
        }
    }
}

impl<P: PagesOnDisk, const LAYOUT: u32> GameFile for TreeFile<P, LAYOUT> {
    ghost use Rattle.tree_file.specs.InFile.{file_in};

    type Device = P::Device;

    ghost stores = { StoresTrees LAYOUT };

    ghost is_older = { IsOlderTable LAYOUT };

    ghost state = { λ t. state_of (file_in t) };

    ghost is_whole = { λ t. IsWholeFile LAYOUT (file_in t) };

    ghost stores_one = { λ m n image one other first second.
        (an_image_stores_one_tree_table LAYOUT LAYOUT m n image one other first second).1 };

    ghost older_stores_none = { λ pages image kept older it. older_none LAYOUT pages image kept older it };

    ghost stores_begins = { λ pages image kept it. it.holds.table };

    ghost whole_leaves = { λ t whole honest is_open. whole_leaves LAYOUT (file_in t) whole honest is_open };

    ghost whole_stored = { λ t kept whole honest is. whole_stored LAYOUT (file_in t) kept whole honest is };

    ghost whole_counts = { λ t whole. whole_counts LAYOUT (file_in t) whole };

    ghost whole_stays = { λ old new whole stays. whole_stays LAYOUT (file_in old) (file_in new) (P.sound new.table.store) whole stays };

    ghost goes_ahead = { λ old new goes_on. works_ahead (file_in old) (file_in new) goes_on.work.works };

    ghost fails_ahead = { λ old new fault cause. works_ahead (file_in old) (file_in new) cause.work.works };

    ghost fails_for = { λ old new fault whole cause. fails_for LAYOUT (file_in old) (file_in new) fault old.table.holds whole cause };

    ghost lasts = { λ old new. KeepsHolds (file_in old).work.store (file_in new).work.store };

    ghost lasts_then = { λ a b c first second. keeps_holds_then (file_in a).work.store (file_in b).work.store (file_in c).work.store first second };

    ghost goes_on_lasts = { λ old new it. works_keep_holds (file_in old).work.store (file_in new).work.store it.work.works };

    ghost fails_lasts = { λ old new fault it. works_keep_holds (file_in old).work.store (file_in new).work.store it.work.works };

    ghost whole_free = { λ t whole. whole_free LAYOUT (file_in t) whole };

    ghost empty_free = { λ t whole is_open none. empty_free LAYOUT (file_in t) whole none };

    ghost few = { λ t. t.table.few };

    fn create(alloc: Global, disk: P::Device) -> Result<Self, Refused<P::Device>> {
        let mut disk = disk;
        let pages = room_for(disk.sectors());
        match create(&mut disk, &empty_slot(LAYOUT, pages)) {
            Ok(()) => match TreeFile::read(alloc, disk, MOST_CACHED) {
                Ok(file) => file.with_pages(pages),
                Err(refused) => Err(Refused {
                    disk: refused.disk,
                    fault: of_new(refused.fault),
                }),
            },
            Err(fault) => Err(Refused {
                disk,
                fault: fault.into(),
            }),
        }
    }

    /// As the trait says, and each page that the committed root does not name is free.
    fn open_with_cache(
        alloc: Global,
        disk: P::Device,
        pages: usize,
    ) -> Result<Self, Refused<P::Device>>
        requires { pages ≤ 64 }
        ensures whole { IfOk result (λ t. IsWholeFile LAYOUT (file_in t)) }
        ensures ok { IfOk result (λ t. IsOpenedFile (StoresTrees LAYOUT) (P.Device.disk disk) (P.Device.failures disk) (state_of (file_in t))) }
        ensures alone { IfOk result (λ t. UsesNoOther (file_in t)) }
        ensures refused { IfErr result (λ back. IsNotOpened (P.Device.disk disk) (P.Device.failures disk)
            (P.Device.disk back.disk) (P.Device.failures back.disk)) }
        ensures cause { IfErr result (λ back. FileOpenCause (in_any (StoresTrees LAYOUT)) (IsOlderTable LAYOUT) (P.Device.disk disk) (P.Device.failures disk)
            (P.Device.failures back.disk) back.fault) }
    {
        TreeFile::read(alloc, disk, pages)
    }

    fn text(&self) -> Option<&[u8]> {
        match &self.game {
            Some(_) => Some(&self.table.text),
            None => None,
        }
    }

    fn packing(&self) -> Option<PackingKind> {
        match &self.game {
            Some(slot) => Some(slot.packing),
            None => None,
        }
    }

    fn goal(&self) -> Option<Goal> {
        match &self.game {
            Some(slot) => goal_numbered(slot.goal),
            None => None,
        }
    }

    fn is_closed(&self) -> bool {
        self.table.store.is_closed()
    }

    fn load(
        &mut self,
        text: &[u8],
        packing: PackingKind,
        goal: Option<Goal>,
        start: &Packed,
    ) -> Result<(), FileFault> {
        if self.game.is_some() {
            return Err(FileFault::Inconsistent);
        }
        if start.is_empty() {
            return Err(FileFault::Inconsistent);
        }
        if !has_place(LAYOUT, goal) {
            return Err(FileFault::OutOfMemory);
        }
        let text = text.to_vec(self.alloc)?;
        let commits = self.commits.wrapping_add(1);
        match self
            .table
            .start(self.alloc, commits, text, packing, goal, start)
        {
            Ok(()) => {
                self.commits = commits;
                self.game = Some(self.table.slot);
                Ok(())
            }
            Err(fault) => {
                self.table.restore(&None);
                Err(fault.into())
            }
        }
    }

    fn commit(&mut self) -> Result<(), FileFault> {
        if self.game.is_none() {
            return Err(FileFault::Inconsistent);
        }
        if self.table.torn {
            return Err(FileFault::Inconsistent);
        }
        let commits = self.commits.wrapping_add(1);
        match self.table.save(commits) {
            Ok(()) => {
                self.commits = commits;
                self.game = Some(self.table.slot);
                Ok(())
            }
            Err(fault) => {
                self.table.restore(&self.game);
                Err(fault.into())
            }
        }
    }

    fn discard(&mut self) {
        self.table.restore(&self.game);
    }

    fn capacity(&self) -> u32 {
        self.table.store.capacity()
    }

    fn free_pages(&self) -> u32 {
        self.table.store.free_pages()
    }

    fn grow(&mut self, pages: u32) -> Result<(), FileFault> {
        if self.table.store.is_closed() {
            return Err(FileFault::Closed);
        }
        let room = self.table.store.capacity();
        if pages <= room || pages > MAX_PAGES {
            return Err(FileFault::TooSmall);
        }
        if LAYOUT < FIRST_WITH_GOALS || room == 0 {
            return Err(FileFault::OutOfMemory);
        }
        self.table.restore(&self.game);
        let commits = self.commits.wrapping_add(1);
        let root = slot_naming(LAYOUT, pages, commits, &self.game);
        match self.table.grow(self.alloc, pages, &root) {
            Ok(()) => {
                self.commits = commits;
                Ok(())
            }
            Err(fault) => Err(fault.into()),
        }
    }

    fn into_disk(self) -> P::Device {
        let TreeFile { table, .. } = self;
        let TreeTable { store, .. } = table;
        store.give_back()
    }
}
