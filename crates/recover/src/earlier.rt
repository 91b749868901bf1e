//! Files of earlier layouts, whose tables come into the layout that the program writes.
ghost use Rattle.std.specs.Prelude.{◌≡◌, ℕ, false, IfOk, IfErr};
ghost use Rattle.earlier_layouts.specs.Held.{Stores, IsOlder as IsBeforeFirst};
ghost use Rattle.game_file.specs.Kept.{Layout, Older};
ghost use Rattle.recover.specs.Moves.{IsMovedFrom, IsNotMovedFrom, MoveOnCause};
ghost use Rattle.tree_file.specs.MoveCauses.{IsMoved, IsNotMoved};

use crate::first::opened_first;
use earlier_layouts::{FlatTable, rebuild};
use game_file::GameFile;
use page_store::PageStore;
use sector_disk::SectorDisk;
use solver::{FileSolver, Refused};
use std::alloc::Global;
use tree_file::{PagesOnDisk, TreeFile};

/// A file of an earlier layout, whose table comes into a file of today's.
pub trait EarlierFile<Today: GameFile> {
    /// The disk that it is on.
    type Device: SectorDisk;

    /// Which images of the disk store which table in this many pages: the layout of the file.
    ghost stores: { ℕ → Layout };

    /// Which images of the disk hold a table of a layout before this one, which is not opened.
    ghost is_older: { Older };

    /// Its table is copied to free pages. Else it moves by a new root alone.
    ghost copies: { Type 0 };

    /// Opens the table of this disk in its layout, with all checks of opening, those by the game too, and writes what it keeps as a table of
    /// today's layout, by one commit: E1, E2, E4, E5, E8, and where the table is copied E7 and S6. The disk comes back. After a refusal the
    /// table is there as it was, but that after E1 in a write or a sync it is there in the one layout or the other.
    fn bring(alloc: Global, disk: Self::Device) -> Result<Self::Device, Refused<Self::Device>>
        ensures moved { IfOk result (λ back. IsMovedFrom stores Today.stores copies is_older (Self.Device.disk disk) (Self.Device.failures disk)
            (Self.Device.disk back) (Self.Device.failures back)) }
        ensures refused { IfErr result (λ back. IsNotMovedFrom stores Today.stores copies is_older (Self.Device.disk disk)
            (Self.Device.failures disk) (Self.Device.disk back.disk) (Self.Device.failures back.disk) back.fault) };
}

/// A file of an earlier layout that is a `GameFile` too, and whose table moves to today's layout by a new root alone.
pub trait RenewedFile<Today: GameFile>: GameFile {
    /// Makes it a file of today's layout, by one commit that writes a root slot and the gate, and gives the disk back: E1. After a refusal the
    /// table is there as it was, but that after E1 in a write or a sync it is there in the one layout or the other.
    fn renewed(self) -> Result<Self::Device, game_file::Refused<Self::Device>>
        requires whole { Self.is_whole self }
        requires open { (Self.state self).closed ≡ false }
        ensures moved { IfOk result (λ disk. IsMoved Self.stores Today.stores (Self.state self) (Self.Device.disk disk) (Self.Device.failures disk)) }
        ensures left { IfErr result (λ back. IsNotMoved Self.stores Today.stores (Self.state self)
            (Self.Device.disk back.disk) (Self.Device.failures back.disk) back.fault) }
        ensures cause { IfErr result (λ back. MoveOnCause ⊥ (Self.state self) (Self.Device.failures back.disk) back.fault) };
}

impl<P: PagesOnDisk> RenewedFile<TreeFile<P, 3>> for TreeFile<P, 2> {
    fn renewed(self) -> Result<P::Device, game_file::Refused<P::Device>> {
        self.renew()
    }
}

impl<Today: GameFile, F: RenewedFile<Today>> EarlierFile<Today> for F {
    type Device = F::Device;

    ghost stores = { F.stores };

    ghost is_older = { F.is_older };

    ghost copies = { ⊥ };

    fn bring(alloc: Global, disk: F::Device) -> Result<F::Device, Refused<F::Device>> {
        let file = FileSolver::<F>::open(alloc, disk)?.into_file();
        match file.renewed() {
            Ok(disk) => Ok(disk),
            Err(refused) => Err(Refused {
                disk: refused.disk,
                fault: refused.fault.into(),
            }),
        }
    }
}

impl<D: SectorDisk> EarlierFile<TreeFile<PageStore<D>, 3>> for FlatTable<D> {
    type Device = D;

    ghost stores = { Stores };

    ghost is_older = { IsBeforeFirst };

    ghost copies = { Unit {0} };

    fn bring(alloc: Global, disk: D) -> Result<D, Refused<D>> {
        let file = opened_first(alloc, disk)?;
        match rebuild(alloc, file) {
            Ok(disk) => Ok(disk),
            Err(refused) => Err(Refused {
                disk: refused.disk,
                fault: refused.fault.into(),
            }),
        }
    }
}
