//! A table that is stopped, opened again and worked to the end.
ghost use Rattle.std.specs.Prelude.{◌≡◌, IfOk, IfErr};
ghost use Rattle.best_line.specs.declared.answers.Value.TheVariants.{Won};
ghost use Rattle.rbg_game.specs.declared.roles.Player.TheVariants.{First};
ghost use Rattle.witness.specs.Sittings.{IsWantOfRoom, HasFailed};

use crate::sittings::{make, use_table, value_of};
use crate::unanswered::Unanswered;
use best_line::Value;
use recover::TableFile;
use sector_disk::{FuseDisk, MemDisk};
use std::alloc::Global;

/// The sectors of 32 pages.
pub const SECTORS: u64 = 256;

/// Makes a table on a disk in memory, opens it, loads the small game and works on it until this many calls to the disk
/// were done; then the power stops, and of what was written and not synced the digits of `pick` say what is left. Opens
/// what is left, loads the game if it is not there, works to the end, and asks who wins the start. Whenever the stop
/// comes, and whatever it leaves, white wins it in two moves: no other answer is given, and it is refused for want of
/// room alone.
pub fn value_after_a_stop(alloc: Global, calls: u64, pick: u64) -> Result<Value, Unanswered>
    ensures value { IfOk result (λ value. value ≡ Won First 2) }
    ensures fault { IfErr result (λ back. IsWantOfRoom (HasFailed back.disk) back.fault) }
{
    let Ok(disk) = MemDisk::new(alloc, SECTORS) else {
        return Err(Unanswered::without_disk());
    };
    let made = match make::<TableFile<MemDisk>>(alloc, disk) {
        Ok(made) => made,
        Err(refused) => return Err(Unanswered::on_disk(refused)),
    };
    let fuse = FuseDisk::new(made, calls);
    let Ok(used) = use_table::<TableFile<FuseDisk<MemDisk>>>(alloc, fuse) else {
        return Err(Unanswered::without_disk());
    };
    let Ok(found) = used.into_inner().after_stop(alloc, pick) else {
        return Err(Unanswered::without_disk());
    };
    match value_of::<TableFile<MemDisk>>(alloc, found) {
        Ok(value) => Ok(value),
        Err(refused) => Err(Unanswered::on_disk(refused)),
    }
}
