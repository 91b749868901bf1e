//! A table of an earlier layout comes into the layout that the program writes.
ghost use Rattle.std.specs.Prelude.{◌≡◌, ◌≢◌, ◌↔◌, ℕ, true, Option, IfOk, IfErr, IsTrue};
ghost use Rattle.game_file.specs.Kept.{Kept, in_any};
ghost use Rattle.recover.specs.Migrations.{AreLayouts, EitherLayout, IsCurrent, IsMigrated, IsNotMigrated, MigrateCause};
ghost use Rattle.recover.specs.lemmas.Steps.{IsReadSince};
ghost use Rattle.sector_disk.specs.Disk.{Disk};

use crate::EarlierFile;
use game_file::GameFile;
use sector_disk::SectorDisk;
use solver::{FileSolver, Refused, SolverFault};
use std::alloc::Global;

/// Which layout a table had as it was to come into today's.
#[derive(Clone, Copy, PartialEq, Eq, Debug, Drop)]
pub enum Migration {
    /// An earlier one; now it has today's.
    Migrated,
    /// Today's; nothing was written.
    Current,
}

/// Whether a refusal says that the layout is an earlier one.
fn is_older(fault: SolverFault) -> bool
    ensures { (result ≡ true) ↔ (fault ≡ SolverFault.OldLayout) }
{
    matches!(fault, SolverFault::OldLayout)
}

/// What a refusal to open a file of the first layout is told as: before that there was none.
fn of_first(fault: SolverFault) -> SolverFault
    ensures older { fault ≡ SolverFault.OldLayout → result ≡ SolverFault.Damaged }
    ensures other { fault ≢ SolverFault.OldLayout → result ≡ fault }
{
    if is_older(fault) {
        return SolverFault::Damaged;
    }
    fault
}

/// Moves the table of this disk, which is of no file of today's layout, from the second layout or from the first.
fn migrate_earlier<D, Today, Second, First>(alloc: Global, disk: D) -> Result<D, Refused<D>>
where
    D: SectorDisk,
    Today: GameFile<Device = D>,
    Second: EarlierFile<Today, Device = D>,
    First: EarlierFile<Today, Device = D>,
    requires { AreLayouts First.stores Second.stores First.is_older Second.is_older Today.is_older Second.copies }
    ensures migrated { (first : Disk) (count : ℕ) → IsReadSince first count (D.disk disk) (D.failures disk)
        → IfOk result (λ back. IsMigrated (EitherLayout First.stores Second.stores) Today.stores first count (D.disk back) (D.failures back)) }
    ensures refused { (first : Disk) (count : ℕ) → IsReadSince first count (D.disk disk) (D.failures disk)
        → IfErr result (λ back. IsNotMigrated (EitherLayout First.stores Second.stores) Today.stores first count
        (D.disk back.disk) (D.failures back.disk) back.fault) }
    ensures cause { (first : Disk) (count : ℕ) → IsReadSince first count (D.disk disk) (D.failures disk)
        → (IsTrue first.honest → (kept : Option Kept) → ¬ in_any Today.stores first.now.contents kept)
        → IfErr result (λ back. MigrateCause First.stores Second.stores Today.stores first count (D.failures back.disk) back.fault) }
{
    let refused = match Second::bring(alloc, disk) {
        Ok(disk) => return Ok(disk),
        Err(refused) => refused,
    };
    if !is_older(refused.fault) {
        return Err(refused);
    }
    let refused = match First::bring(alloc, refused.disk) {
        Ok(disk) => return Ok(disk),
        Err(refused) => refused,
    };
    Err(Refused {
        disk: refused.disk,
        fault: of_first(refused.fault),
    })
}

/// Brings the table of this disk into today's layout and gives the disk back: E1, E2, E4, E8, and of a table of the first layout E7 and S6.
/// The table is opened in the layout that it has, with every check of opening, those by the game too. Where that is an earlier one, the same
/// text, packing, positions, records, edges and settled order are written in today's by one commit, for as many pages and with no goal. From
/// the second layout a root slot and the gate alone are written. From the first all is copied to free pages: that takes memory for the whole
/// table, and its old pages are free afterwards.
///
/// After a stop meanwhile, and after any refusal, the disk has the table in the one layout or in the other; where no write and no sync has
/// failed, a refusal leaves it in the old one. So whoever calls again, until it is answered, has it in today's.
pub fn migrate<D, Today, Second, First>(
    alloc: Global,
    disk: D,
) -> Result<(D, Migration), Refused<D>>
where
    D: SectorDisk,
    Today: GameFile<Device = D>,
    Second: EarlierFile<Today, Device = D>,
    First: EarlierFile<Today, Device = D>,
    requires { AreLayouts First.stores Second.stores First.is_older Second.is_older Today.is_older Second.copies }
    ensures migrated { IfOk result (λ done. done.1 ≡ Migration.Migrated → IsMigrated (EitherLayout First.stores Second.stores) Today.stores
        (D.disk disk) (D.failures disk) (D.disk done.0) (D.failures done.0)) }
    ensures current { IfOk result (λ done. done.1 ≡ Migration.Current → IsCurrent (EitherLayout First.stores Second.stores) Today.stores
        (D.disk disk) (D.failures disk) (D.disk done.0) (D.failures done.0)) }
    ensures refused { IfErr result (λ back. IsNotMigrated (EitherLayout First.stores Second.stores) Today.stores
        (D.disk disk) (D.failures disk) (D.disk back.disk) (D.failures back.disk) back.fault) }
    ensures cause { IfErr result (λ back. MigrateCause First.stores Second.stores Today.stores
        (D.disk disk) (D.failures disk) (D.failures back.disk) back.fault) }
{
    let mut disk = disk;
    if disk.sync().is_err() {
        return Err(Refused {
            disk,
            fault: SolverFault::Disk,
        });
    }
    let refused = match FileSolver::<Today>::open(alloc, disk) {
        Ok(solver) => return Ok((solver.close(), Migration::Current)),
        Err(refused) => refused,
    };
    if !is_older(refused.fault) {
        return Err(refused);
    }
    match migrate_earlier::<D, Today, Second, First>(alloc, refused.disk) {
        Ok(disk) => Ok((disk, Migration::Migrated)),
        Err(refused) => Err(refused),
    }
}
