//! What a game's table in a file promises.
ghost use Rattle.std.specs.Prelude.{◌≡◌, ◌≢◌, ◌⊎◌, ◌+◌, ◌≤◌, ◌<◌, ◌^◌, ℕ, true, false, Option, None, Some, length, OnOk, OnErr, IfOk, IfErr};
ghost use Rattle.std.specs.Prelude.{IsErrOf, IfSome, IfNone, IsTrue, option_map};
ghost use Rattle.sector_disk.specs.Disk.{Image};
ghost use Rattle.root_pair.specs.Root.{IsTableImage};
ghost use Rattle.retrograde.specs.Stored.{IsTable, loaded};
ghost use Rattle.table.specs.declared.fault.TableFault.{TableFault};
ghost use Rattle.game_file.specs.Kept.{Kept, Layout, Older, goal_kept, in_any, kept_as, packing_kept, text_kept};
ghost use Rattle.game_file.specs.State.{State, GoesAhead};
ghost use Rattle.game_file.specs.Growth.{GrowsAhead, IsNoGrowth, IsGrownFile, IsNotGrown, FileGrowCause};
ghost use Rattle.game_file.specs.Stops.{LeavesNow};
ghost use Rattle.game_file.specs.Calls.{IsOpenedFile, IsNotOpened, IsCreatedFile, IsNotCreated, IsPut, IsNotPut, IsNothingPut, IsAsked};
ghost use Rattle.game_file.specs.Causes.{FileOpenCause, FileCreateCause, FileLoadCause, FileCommitCause, FileTableCause};
ghost use Rattle.rbg_game.specs.Goals.{points_of};
ghost use Rattle.rbg_game.specs.declared.limits.TheConstants.{MAX_TEXT_BYTES};

use crate::{FileFault, Refused};
use page_store::MOST_CACHED;
use position_pack::{Packed, PackingKind};
use rbg_game::goal::Goal;
use sector_disk::SectorDisk;
use std::alloc::Global;
use table::Table;

/// A game's table in a file. As a `Table` it is the one that a command has come to, at first that of the last commit. A command
/// works on it and then commits it, or gives it up; what a power failure leaves is the table of the last commit until then.
///
/// What a call says of what is kept it says of a file that is whole, as `create` and `open` give it and every call leaves it but
/// those that write to the table: after these it is whole again once it is committed or given up.
pub trait GameFile: Table {
    /// The disk that it is on.
    type Device: SectorDisk;

    /// Which images of the disk store which table in this many pages: the layout of the file.
    ghost stores: { ℕ → Layout };

    /// Which images of the disk hold a table of an earlier layout, which is not opened.
    ghost is_older: { Older };

    /// Its disk, and what the last commit keeps.
    ghost state: { Self → State };

    /// What the last commit keeps is what the disk stores, and no command is going on.
    ghost is_whole: { Self → Type 0 };

    /// What is kept of an earlier commit, for whoever reads it still, is kept in the later state of the file.
    ghost lasts: { Self → Self → Type 0 };

    /// Makes the empty table on this disk, and opens it: E1, E3 and then E6, E8.
    fn create(alloc: Global, disk: Self::Device) -> Result<Self, Refused<Self::Device>>
        ensures whole { IfOk result is_whole }
        ensures ok { IfOk result (λ file. IsCreatedFile stores (Self.Device.disk disk) (Self.Device.failures disk) (state file)) }
        ensures refused { IfErr result (λ back. IsNotCreated stores (Self.Device.disk disk) (Self.Device.failures disk)
            (Self.Device.disk back.disk) (Self.Device.failures back.disk)) }
        ensures cause { IfErr result (λ back. FileCreateCause (Self.Device.disk disk) (Self.Device.failures disk)
            (Self.Device.failures back.disk) back.fault) };

    /// Opens the table that this disk stores, after a sync: E1, E2, E4, E5, E8. Of its pages this many, 64 at most, are kept in memory once
    /// they were read or written, 0 for none.
    fn open_with_cache(
        alloc: Global,
        disk: Self::Device,
        pages: usize,
    ) -> Result<Self, Refused<Self::Device>>
        requires { pages ≤ 64 }
        ensures whole { IfOk result is_whole }
        ensures ok { IfOk result (λ file. IsOpenedFile stores (Self.Device.disk disk) (Self.Device.failures disk) (state file)) }
        ensures refused { IfErr result (λ back. IsNotOpened (Self.Device.disk disk) (Self.Device.failures disk)
            (Self.Device.disk back.disk) (Self.Device.failures back.disk)) }
        ensures cause { IfErr result (λ back. FileOpenCause (in_any stores) is_older (Self.Device.disk disk) (Self.Device.failures disk)
            (Self.Device.failures back.disk) back.fault) };

    /// Opens the table on a disk as `open_with_cache` does, with 64 pages kept in memory.
    fn open(alloc: Global, disk: Self::Device) -> Result<Self, Refused<Self::Device>>
        ensures whole { IfOk result is_whole }
        ensures ok { IfOk result (λ file. IsOpenedFile stores (Self.Device.disk disk) (Self.Device.failures disk) (state file)) }
        ensures refused { IfErr result (λ back. IsNotOpened (Self.Device.disk disk) (Self.Device.failures disk)
            (Self.Device.disk back.disk) (Self.Device.failures back.disk)) }
        ensures cause { IfErr result (λ back. FileOpenCause (in_any stores) is_older (Self.Device.disk disk) (Self.Device.failures disk)
            (Self.Device.failures back.disk) back.fault) }
    {
        Self::open_with_cache(alloc, disk, MOST_CACHED)
    }

    /// The text of the game, if one is loaded. It takes no memory and always answers.
    fn text(&self) -> Option<&[u8]>
        ensures some { IfSome result (λ text. text_kept (state self.now).kept ≡ Some text.now) }
        ensures none { IfNone result ((state self.now).kept ≡ None) };

    /// How the positions are packed, if a game is loaded. It takes no memory and always answers.
    fn packing(&self) -> Option<PackingKind>
        ensures some { IfSome result (λ packing. packing_kept (state self.now).kept ≡ Some packing) }
        ensures none { IfNone result ((state self.now).kept ≡ None) };

    /// The goal, if a game is loaded and has one. It takes no memory and always answers.
    fn goal(&self) -> Option<Goal>
        ensures { points_of result ≡ goal_kept (state self.now).kept };

    /// Whether a write or a sync has failed; the file has then to be opened again. It takes no memory and always answers.
    fn is_closed(&self) -> bool
        ensures { result ≡ (state self.now).closed };

    /// How many pages there are. It takes no memory and always answers.
    fn capacity(&self) -> u32
        ensures { result ≡ (state self.now).capacity };

    /// How many of them are free, and may be taken before E7: not those that the last commit keeps, nor those that
    /// were used since, nor those that are kept for whoever reads an earlier commit still. It takes no memory and
    /// always answers.
    fn free_pages(&self) -> u32
        ensures { result ≡ Self.free self.now };

    /// Commits the table of a game that is loaded now, its start and no more, where none was, with this packing and goal: S6 if the start
    /// has no bytes, and E9, E1, E7, E8. After a refusal there is still none, but that after E1 in a write or a sync the file is closed,
    /// and the disk has the one or the other. A layout that has no place for a goal answers E8 where one is asked for.
    fn load(
        &mut self,
        text: &[u8],
        packing: PackingKind,
        goal: Option<Goal>,
        start: &Packed,
    ) -> Result<(), FileFault>
        requires { length text.now ≤ MAX_TEXT_BYTES }
        ensures ahead { GoesAhead (state self.old) (state self.new) }
        ensures lasts { lasts self.old self.new }
        ensures whole { is_whole self.old → is_whole self.new }
        ensures ok { is_whole self.old → (state self.old).kept ≡ None
            → OnOk result (IsPut stores (kept_as text.now packing (points_of goal) (loaded start.now.items)) (state self.old)
            (state self.new)) }
        ensures err { is_whole self.old → (state self.old).kept ≡ None
            → OnErr result (IsNotPut stores (kept_as text.now packing (points_of goal) (loaded start.now.items)) (state self.old)
            (state self.new)) }
        ensures cause { is_whole self.old → (state self.old).kept ≡ None → (state self.old).closed ≡ false
            → IfErr result (FileLoadCause start.now.items (state self.old) (state self.new)) }
        ensures still { IfErr result (λ fault. fault ≢ FileFault.Disk → (state self.new).closed ≡ (state self.old).closed) };

    /// Commits the table that a command has come to since the file was whole: S6 if its parts do not fit together,
    /// and E9, E1. It takes neither a page nor memory, and answers neither E7 nor E8. A refusal gives the command up,
    /// but that after E1 in a write or a sync the file is closed, and the disk has the table of the last commit or
    /// this one.
    fn commit(&mut self) -> Result<(), FileFault>
        ensures ahead { GoesAhead (state self.old) (state self.new) }
        ensures lasts { lasts self.old self.new }
        ensures ok { (was : Self) (kept : Kept) → is_whole was → (state was).kept ≡ Some kept → Self.goes_on was self.old
            → (IsTrue (state was).disk.honest → IsTable (Self.stored self.old))
            → OnOk result (is_whole self.new × IsPut stores (kept_as kept.text kept.packing kept.goal (Self.stored self.old))
            (state was) (state self.new)) }
        ensures err { (was : Self) (kept : Kept) → is_whole was → (state was).kept ≡ Some kept → Self.goes_on was self.old
            → (IsTrue (state was).disk.honest → IsTable (Self.stored self.old))
            → OnErr result (is_whole self.new × IsNotPut stores (kept_as kept.text kept.packing kept.goal (Self.stored self.old))
            (state was) (state self.new)) }
        ensures cause { (was : Self) (kept : Kept) → is_whole was → (state was).kept ≡ Some kept → Self.goes_on was self.old
            → IfErr result (FileCommitCause kept.table (Self.stored self.old) (state was) (state self.new)) }
        ensures still { (was : Self) → Self.goes_on was self.old
            → IfErr result (λ fault. fault ≢ FileFault.Disk → (state self.new).closed ≡ (state was).closed) };

    /// Gives a command up: the table is that of the last commit again, and the pages that the command took are free again. It takes no
    /// memory and always answers.
    fn discard(&mut self)
        ensures ahead { GoesAhead (state self.old) (state self.new) }
        ensures lasts { lasts self.old self.new }
        ensures back { (was : Self) → is_whole was → Self.goes_on was self.old
            → is_whole self.new × IsNothingPut stores (state was) (state self.new) × ((state self.new).closed ≡ (state was).closed) }
        ensures freed { (was : Self) → is_whole was → (Self.goes_on was self.old ⊎ ((fault : TableFault) × Self.fails was self.old fault))
            → Self.free self.new ≡ Self.free was }
        ensures failed { (was : Self) (fault : TableFault) → is_whole was → Self.fails was self.old fault
            → is_whole self.new × IsNothingPut stores (state was) (state self.new) × FileTableCause (state was) (state self.new) fault }
        ensures still { (was : Self) (fault : TableFault) → is_whole was → Self.fails was self.old fault → fault ≢ TableFault.Disk
            → (state self.new).closed ≡ (state was).closed };

    /// Makes the file one of this many pages, by one commit that keeps what is kept: E9, then E6 unless that is more than there are and at
    /// most 1,048,576, and then E1, E8. The new pages are there from the commit on, and free. A command that is going on is given up.
    /// After a refusal the disk may be longer, which does no harm. A layout that does not say how many pages there are answers E8.
    fn grow(&mut self, pages: u32) -> Result<(), FileFault>
        ensures ahead { GrowsAhead (state self.old) (state self.new) }
        ensures lasts { lasts self.old self.new }
        ensures whole { is_whole self.old → is_whole self.new }
        ensures ok { is_whole self.old → OnOk result (IsGrownFile stores pages (state self.old) (state self.new)) }
        ensures err { is_whole self.old → OnErr result (IsNotGrown stores pages (state self.old) (state self.new)) }
        ensures cause { IfErr result (FileGrowCause pages (state self.old) (state self.new)) }
        ensures closed { (state self.old).closed ≡ true → IsErrOf result FileFault.Closed × (self.new ≡ self.old) }
        ensures small { (state self.old).closed ≡ false → IsNoGrowth pages (state self.old).capacity
            → IsErrOf result FileFault.TooSmall × (self.new ≡ self.old) }
        ensures still { IfErr result (λ fault. fault ≢ FileFault.Disk → (state self.new).closed ≡ (state self.old).closed) };

    /// The disk, as it is. It always answers.
    fn into_disk(self) -> Self::Device
        ensures disk { Self.Device.disk result ≡ (state self).disk }
        ensures failures { Self.Device.failures result ≡ (state self).failures };

    /// An image stores one table at most, in whatever number of pages.
    ghost stores_one: { (m n : ℕ) (image : Image) (one other : Option Kept) → stores m image one → stores n image other
        → one ≡ other };

    /// An image that holds a table of an earlier layout stores none.
    ghost older_stores_none: { (pages : ℕ) (image : Image) (kept : Option Kept) → is_older image → stores pages image kept → ⊥ };

    /// An image that stores a table begins as each table does.
    ghost stores_begins: { (pages : ℕ) (image : Image) (kept : Option Kept) → stores pages image kept → IsTableImage image };

    /// A stop of a file that is whole and open leaves what it keeps.
    ghost whole_leaves: { (file : Self) → is_whole file → IsTrue (state file).disk.honest → (state file).closed ≡ false
        → LeavesNow (stores (state file).capacity) (state file).disk (state file).kept };

    /// The table of a file that is whole is what it keeps.
    ghost whole_stored: { (file : Self) (kept : Kept) → is_whole file → IsTrue (state file).disk.honest → (state file).kept ≡ Some kept
        → Self.is_honest file × (Self.stored file ≡ kept.table) × IsTable kept.table };

    /// What a file that is whole tells of its counts are those of the table.
    ghost whole_counts: { (file : Self) → is_whole file
        → (state file).counts ≡ option_map (λ kept. Self.counted file) (state file).kept };

    /// A question leaves a file whole.
    ghost whole_stays: { (old new : Self) → is_whole old → Self.stays old new → is_whole new × IsAsked stores (state old) (state new) };

    /// What the table's calls leave is a later state of the same file.
    ghost goes_ahead: { (old new : Self) → Self.goes_on old new → GoesAhead (state old) (state new) };

    /// What is left after a fault is a later state of the same file, too.
    ghost fails_ahead: { (old new : Self) (fault : TableFault) → Self.fails old new fault → GoesAhead (state old) (state new) };

    /// A fault of the table has its cause.
    ghost fails_for: { (old new : Self) (fault : TableFault) → is_whole old → Self.fails old new fault
        → FileTableCause (state old) (state new) fault };

    /// What is kept over one call and then over others is kept over all.
    ghost lasts_then: { (a b c : Self) → lasts a b → lasts b c → lasts a c };

    /// The table's calls keep what is kept of an earlier commit.
    ghost goes_on_lasts: { (old new : Self) → Self.goes_on old new → lasts old new };

    /// A call of the table that is not answered keeps what is kept of an earlier commit.
    ghost fails_lasts: { (old new : Self) (fault : TableFault) → Self.fails old new fault → lasts old new };

    /// The page of the root is never free.
    ghost whole_free: { (file : Self) → is_whole file → Self.free file < (state file).capacity };

    /// Each other page of an open file that keeps no game is.
    ghost empty_free: { (file : Self) → is_whole file → (state file).closed ≡ false → (state file).kept ≡ None
        → (state file).capacity ≡ Self.free file + 1 };

    /// No file has more than 16,777,216 positions.
    ghost few: { (file : Self) → (Self.counted file).known ≤ 2 ^ 24 };
}
