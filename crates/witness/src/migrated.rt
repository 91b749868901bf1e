//! A table of the layout before today's, whose migration is stopped, begun again, stopped again, and done.
ghost use Rattle.std.specs.Prelude.{◌≡◌, IfOk, IfErr};
ghost use Rattle.best_line.specs.declared.answers.Value.TheVariants.{Won};
ghost use Rattle.rbg_game.specs.declared.roles.Player.TheVariants.{First};
ghost use Rattle.sector_disk.specs.Disk.{IsFresh, Grew};
ghost use Rattle.sector_disk.specs.InMemory.{disk_in};
ghost use Rattle.witness.specs.Sittings.{IsWantOfRoom, HasFailed};
ghost use Rattle.recover.specs.Migrations.{AreLayouts, EitherLayout};
ghost use Rattle.witness.specs.lemmas.Migrations.{IsLeftFinished, IsInMigrations, WasBegun, GoesOnFinished};

use crate::sittings::{finish, value_of_finished};
use crate::stop::SECTORS;
use crate::stopping_disk::StoppingDisk;
use crate::unanswered::Unanswered;
use best_line::Value;
use game_file::GameFile;
use headline::laws::{
    an_image_stores_one_table_of_all_layouts, stopped_migrations_go_on,
    the_headline_of_found_tables,
};
use recover::{EarlierFile, FirstFile, SecondFile, TableFile, migrate};
use sector_disk::{FuseDisk, MemDisk, SectorDisk};
use solver::{FileSolver, Refused};
use std::alloc::{AllocError, Global};

/// A stop of the power: after so many calls to the disk, and of what was written and not synced the digits of `pick`
/// say what is left.
#[derive(Clone, Copy, Drop)]
pub struct Stop {
    pub calls: u64,
    pub pick: u64,
}

/// Makes a table in the layout before today's on a disk in memory, loads the small game, works to the end, and closes
/// it. Begins to bring it into today's layout, and the power stops; begins again with what is left, and the power stops
/// again; begins with what is left then, and no stop comes. Opens the table, and asks who wins the start. Whenever the
/// stops come, and whatever they leave, it is the table that was made: white wins it in two moves, though no work was
/// done since. No other answer is given, and it is refused for want of room alone.
pub fn value_after_stopped_migrations(
    alloc: Global,
    first: Stop,
    second: Stop,
) -> Result<Value, Unanswered>
    ensures value { IfOk result (λ value. value ≡ Won First 2) }
    ensures fault { IfErr result (λ back. IsWantOfRoom (HasFailed back.disk) back.fault) }
{
    let Ok(disk) = MemDisk::new(alloc, SECTORS) else {
        return Err(Unanswered::without_disk());
    };
    let made = match make_finished::<SecondFile<MemDisk>>(alloc, disk) {
        Ok(made) => made,
        Err(refused) => return Err(Unanswered::on_disk(refused)),
    };
    let Ok(once) = stopped(alloc, made, first) else {
        return Err(Unanswered::without_disk());
    };
    let Ok(twice) = stopped(alloc, once, second) else {
        return Err(Unanswered::without_disk());
    };
    match value_once_migrated(alloc, twice) {
        Ok(value) => Ok(value),
        Err(refused) => Err(Unanswered::on_disk(refused)),
    }
}

/// Makes a table on a new disk, loads the small game, works to its end, and closes it.
fn make_finished<F: GameFile>(
    alloc: Global,
    disk: F::Device,
) -> Result<F::Device, Refused<F::Device>>
    requires { IsFresh 256 (F.Device.disk disk) }
    ensures made { IfOk result (λ made. IsLeftFinished F.stores (F.Device.disk made)) }
    ensures fault { IfErr result (λ back.
        IsWantOfRoom (Grew (F.Device.failures disk) (F.Device.failures back.disk)) back.fault) }
{
    match FileSolver::<F>::create(alloc, disk) {
        Ok(mut solver) => {
            let finished = finish(&mut solver);
            let disk = solver.close();
            match finished {
                Ok(()) => Ok(disk),
                Err(fault) => Err(Refused { disk, fault }),
            }
        }
        Err(refused) => Err(refused),
    }
}

/// Begins to bring the table of this disk into today's layout, and the power stops: what is found then.
fn stopped(alloc: Global, disk: MemDisk, stop: Stop) -> Result<MemDisk, AllocError>
    requires { IsInMigrations (disk_in disk) }
    ensures { IfOk result (λ found. IsInMigrations (disk_in found)) }
{
    let fuse = FuseDisk::new(disk, stop.calls);
    let left = begin_migration::<
        StoppingDisk,
        TableFile<StoppingDisk>,
        SecondFile<StoppingDisk>,
        FirstFile<StoppingDisk>,
    >(alloc, StoppingDisk { fuse });
    let StoppingDisk { fuse } = left;
    fuse.into_inner().after_stop(alloc, stop.pick)
}

/// Begins to bring the table of this disk into today's layout, whatever is answered; the disk as it is then.
fn begin_migration<D, Today, Second, First>(alloc: Global, disk: D) -> D
where
    D: SectorDisk,
    Today: GameFile<Device = D>,
    Second: EarlierFile<Today, Device = D>,
    First: EarlierFile<Today, Device = D>,
    requires { AreLayouts First.stores Second.stores First.is_older Second.is_older Today.is_older Second.copies }
    ensures { WasBegun (EitherLayout First.stores Second.stores) Today.stores (D.disk disk) (D.failures disk)
        (D.disk result) (D.failures result) }
{
    match migrate::<D, Today, Second, First>(alloc, disk) {
        Ok((disk, _which)) => disk,
        Err(refused) => refused.disk,
    }
}

/// Brings the table of this disk into today's layout, opens it, and asks who wins the start.
fn value_once_migrated(alloc: Global, disk: MemDisk) -> Result<Value, Refused<MemDisk>>
    requires { IsInMigrations (disk_in disk) }
    ensures value { IfOk result (λ value. value ≡ Won First 2) }
    ensures fault { IfErr result (λ back. IsWantOfRoom (Grew 0 back.disk.failures) back.fault) }
{
    let migrated = end_migration(alloc, disk)?;
    value_in_today(alloc, migrated)
}

/// Brings the table of this disk into today's layout.
fn end_migration(alloc: Global, disk: MemDisk) -> Result<MemDisk, Refused<MemDisk>>
    requires { IsInMigrations (disk_in disk) }
    ensures goes_on { IfOk result (λ back. GoesOnFinished (disk_in back)) }
    ensures fault { IfErr result (λ back. IsWantOfRoom (Grew disk.failures back.disk.failures) back.fault) }
{
    an_image_stores_one_table_of_all_layouts();
    stopped_migrations_go_on();
    match migrate::<MemDisk, TableFile<MemDisk>, SecondFile<MemDisk>, FirstFile<MemDisk>>(
        alloc, disk,
    ) {
        Ok((disk, _which)) => Ok(disk),
        Err(refused) => Err(refused),
    }
}

/// Opens the finished table of this disk, and asks who wins the start.
fn value_in_today(alloc: Global, disk: MemDisk) -> Result<Value, Refused<MemDisk>>
    requires { GoesOnFinished (disk_in disk) }
    ensures value { IfOk result (λ value. value ≡ Won First 2) }
    ensures fault { IfErr result (λ back. IsWantOfRoom (Grew disk.failures back.disk.failures) back.fault) }
{
    the_headline_of_found_tables();
    match FileSolver::<TableFile<MemDisk>>::open(alloc, disk) {
        Ok(mut solver) => {
            let value = value_of_finished(&mut solver);
            let disk = solver.close();
            match value {
                Ok(value) => Ok(value),
                Err(fault) => Err(Refused { disk, fault }),
            }
        }
        Err(refused) => Err(refused),
    }
}
