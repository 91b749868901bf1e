//! One unit of work of either kind.
ghost use Rattle.std.specs.Prelude.{◌≡◌, ◌<◌, ◌≤◌, ◌^◌, IfErr, OnOk};
ghost use Rattle.retrograde.specs.Sound.{IsLocallySound};
ghost use Rattle.frontier.specs.Causes.{HasUnitCause};
ghost use Rattle.frontier.specs.Done.{IsUnitDone};

use frontier::StepFault;
use legal_moves::MoveSource;
use position_pack::Packed;
use rbg_game::roles::Role;
use retrograde::{Record, State};
use std::alloc::Global;
use table::Table;

/// `done` of `worked`, of `expand_one`.
pub fn expand<M: MoveSource, T: Table>(
    alloc: Global,
    source: &M,
    table: &mut T,
) -> Result<u32, StepFault>
    requires source { M.is_sound source.now }
    requires waiting { (T.counted table.old).expanded < (T.counted table.old).known }
    requires limit { (T.counted table.old).known ≤ 2 ^ 24 }
    requires honest { T.is_honest table.old }
    requires sound { IsLocallySound (M.graph source.now) (M.is_wide source.now) (T.stored table.old) }
    ensures { OnOk result (IsUnitDone (M.graph source.now) (M.is_wide source.now) (T.stored table.old) (T.stored table.new)) }
{
    frontier::expand_one(alloc, source, table)
}

/// `cause` of `err`, of `expand_one`.
pub fn refused_expansion<M: MoveSource, T: Table>(
    alloc: Global,
    source: &M,
    asked: &mut T,
) -> Result<u32, StepFault>
    requires source { M.is_sound source.now }
    requires waiting { (T.counted asked.old).expanded < (T.counted asked.old).known }
    requires limit { (T.counted asked.old).known ≤ 2 ^ 24 }
    requires honest { T.is_honest asked.old }
    ensures { IfErr result (HasUnitCause (M.graph source.now) (M.is_wide source.now) (T.stored asked.old)) }
{
    frontier::expand_one(alloc, source, asked)
}

/// `done` of `worked`, of `settle_one`.
#[tactic(auto, using(crate::proofs::Written::written_back))]
pub fn process<M: MoveSource, T: Table>(source: &M, table: &mut T) -> Result<u32, StepFault>
    requires source { M.is_sound source.now }
    requires expanded { (T.counted table.old).expanded ≡ (T.counted table.old).known }
    requires waiting { (T.counted table.old).processed < (T.counted table.old).settled }
    requires limit { (T.counted table.old).known ≤ 2 ^ 24 }
    requires honest { T.is_honest table.old }
    requires sound { IsLocallySound (M.graph source.now) (M.is_wide source.now) (T.stored table.old) }
    ensures { OnOk result (IsUnitDone (M.graph source.now) (M.is_wide source.now) (T.stored table.old) (T.stored table.new)) }
{
    settle::settle_one(source, table)
}
