//! The command that brings a table into today's layout.
ghost use Rattle.std.specs.Prelude.{◌≡◌, ◌∷◌, ◌++◌, []};
ghost use Rattle.recover.specs.Migrations.{AreLayouts};
ghost use Rattle.session_lines.specs.Moments.{noted_in};
ghost use Rattle.session.specs.Commands.{Came, came_of, IsBrought, IsPrinted, refusal_of};

use crate::told::{Outcome, Told, said};
use game_file::GameFile;
use recover::{EarlierFile, migrate};
use sector_disk::SectorDisk;
use session_lines::moments::Moments;
use std::alloc::Global;
use std::io::Write;

/// Brings the table of this disk into today's layout, and writes one line: `migrated`, `current`, or `refused` and a code. Gives what came of
/// it, and the disk. The moment at which the line begins is noted: the table is in its layout then, and closed.
pub fn migrate_on<D, Today, Second, First, W>(
    alloc: Global,
    disk: D,
    out: &mut W,
    moments: &mut Moments<D, W>,
) -> (Outcome, D)
where
    D: SectorDisk,
    Today: GameFile<Device = D>,
    Second: EarlierFile<Today, Device = D>,
    First: EarlierFile<Today, Device = D>,
    W: Write,
    requires { AreLayouts First.stores Second.stores First.is_older Second.is_older Today.is_older Second.copies }
    ensures done { (came : Came) × IsBrought First.stores Second.stores Today.stores (D.disk disk) (D.failures disk) came
        (D.disk result.1) (D.failures result.1) × (result.0.refused ≡ refusal_of came)
        × IsPrinted (W.contents out.old) (W.contents out.new) came result.0.status }
    ensures noted { noted_in moments.new ≡ noted_in moments.old ++ (result.1, out.old) ∷ [] }
{
    let (told, disk) = brought::<D, Today, Second, First>(alloc, disk);
    moments.note(&disk, out);
    (said(out, told), disk)
}

/// Brings the table into today's layout. Gives what is to be told of it, and the disk.
fn brought<D, Today, Second, First>(alloc: Global, disk: D) -> (Told, D)
where
    D: SectorDisk,
    Today: GameFile<Device = D>,
    Second: EarlierFile<Today, Device = D>,
    First: EarlierFile<Today, Device = D>,
    requires { AreLayouts First.stores Second.stores First.is_older Second.is_older Today.is_older Second.copies }
    ensures { IsBrought First.stores Second.stores Today.stores (D.disk disk) (D.failures disk) (came_of result.0) (D.disk result.1)
        (D.failures result.1) }
{
    match migrate::<D, Today, Second, First>(alloc, disk) {
        Ok((disk, which)) => (Told::Brought(which), disk),
        Err(refused) => (Told::Refused(refused.fault), refused.disk),
    }
}
