//! A game's table in a file is made and opened.
ghost use Rattle.std.specs.Prelude.{◌≡◌, ◌≤◌, IfErr, IfOk, None, OnOk, length};
ghost use Rattle.retrograde.specs.Stored.{loaded};
ghost use Rattle.game_file.specs.Calls.{IsCreatedFile, IsOpenedFile, IsPut};
ghost use Rattle.game_file.specs.Causes.{FileCreateCause, FileOpenCause};
ghost use Rattle.game_file.specs.Kept.{goal_kept, in_any, kept_as};
ghost use Rattle.rbg_game.specs.Goals.{points_of};
ghost use Rattle.rbg_game.specs.declared.limits.TheConstants.{MAX_TEXT_BYTES};

use game_file::{FileFault, GameFile, Refused};
use position_pack::{Packed, PackingKind};
use rbg_game::goal::Goal;
use sector_disk::SectorDisk;
use std::alloc::Global;

/// `ok` of `GameFile::create`.
pub fn create<F: GameFile>(alloc: Global, disk: F::Device) -> Result<F, Refused<F::Device>>
    ensures { IfOk result (λ file. IsCreatedFile F.stores (F.Device.disk disk) (F.Device.failures disk) (F.state file)) }
{
    F::create(alloc, disk)
}

/// `cause` of `GameFile::create`.
pub fn refused_creation<F: GameFile>(alloc: Global, to: F::Device) -> Result<F, Refused<F::Device>>
    ensures { IfErr result (λ back. FileCreateCause (F.Device.disk to) (F.Device.failures to) (F.Device.failures back.disk) back.fault) }
{
    F::create(alloc, to)
}

/// `ok` of `GameFile::open_with_cache`.
pub fn open<F: GameFile>(
    alloc: Global,
    disk: F::Device,
    pages: usize,
) -> Result<F, Refused<F::Device>>
    requires { pages ≤ 64 }
    ensures { IfOk result (λ file. IsOpenedFile F.stores (F.Device.disk disk) (F.Device.failures disk) (F.state file)) }
{
    F::open_with_cache(alloc, disk, pages)
}

/// `cause` of `GameFile::open_with_cache`.
pub fn refused_opening<F: GameFile>(
    alloc: Global,
    from: F::Device,
    pages: usize,
) -> Result<F, Refused<F::Device>>
    requires { pages ≤ 64 }
    ensures { IfErr result (λ back. FileOpenCause (in_any F.stores) F.is_older (F.Device.disk from) (F.Device.failures from)
        (F.Device.failures back.disk) back.fault) }
{
    F::open_with_cache(alloc, from, pages)
}

/// `ok` of `GameFile::load`.
pub fn load<F: GameFile>(
    file: &mut F,
    text: &[u8],
    packing: PackingKind,
    goal: Option<Goal>,
    start: &Packed,
) -> Result<(), FileFault>
    requires { length text.now ≤ MAX_TEXT_BYTES }
    ensures { F.is_whole file.old → (F.state file.old).kept ≡ None
        → OnOk result (IsPut F.stores (kept_as text.now packing (points_of goal) (loaded start.now.items)) (F.state file.old)
        (F.state file.new)) }
{
    file.load(text, packing, goal, start)
}

/// What `GameFile::goal` answers.
pub fn goal<F: GameFile>(file: &F) -> Option<Goal>
    ensures { points_of result ≡ goal_kept (F.state file.now).kept }
{
    file.goal()
}
