//! Units of work, one after another.
ghost use Rattle.std.specs.Prelude.{◌≡◌, ◌^◌, ◌<◌, ◌≤◌, false, IfOk, OnOk, IfErr, OnErr};
ghost use Rattle.retrograde.specs.View.{IsFinished};
ghost use Rattle.retrograde.specs.Stored.{IsTable, view_of};
ghost use Rattle.frontier.specs.Frames.{IsGrown};
ghost use Rattle.frontier.specs.Units.{HasStopped};
ghost use Rattle.game_table.specs.Stops.{AreWorked, AreStopped};
ghost use Rattle.game_table.specs.lemmas.TriedUnit.{HasTried};

use frontier::{StepFault, expand_one};
use legal_moves::MoveSource;
use settle::settle_one;
use std::alloc::Global;
use table::Table;

/// Does one unit of work and answers that it did, or that the table is finished.
fn unit<M: MoveSource, T: Table>(
    alloc: Global,
    source: &M,
    table: &mut T,
) -> Result<bool, StepFault>
    requires source { M.is_sound source.now }
    requires limit { (T.counted table.old).known ≤ 2 ^ 24 }
    ensures idle { IfOk result (λ done. done ≡ false → table.new ≡ table.old) }
    ensures tried { T.is_honest table.old → IfOk result (HasTried (M.graph source.now) (M.is_wide source.now)
        (T.stored table.old) (T.stored table.new) (T.free table.old) (T.free table.new)) }
    ensures unfinished { T.is_honest table.old → IsTable (T.stored table.old)
        → OnErr result (¬ IsFinished (view_of (T.stored table.old))) }
    ensures ok { OnOk result (IsGrown T.is_honest T.counted T.goes_on table.old table.new) }
    ensures err { IfErr result (HasStopped (M.graph source.now) (M.is_wide source.now) T.stored T.is_honest T.free
        T.goes_on T.fails table.old table.new) }
{
    let counts = table.counts();
    if counts.expanded < counts.known {
        expand_one(alloc, source, table)?;
        return Ok(true);
    }
    if counts.expanded > counts.known {
        return Err(StepFault::Inconsistent);
    }
    if counts.processed < counts.settled {
        settle_one(source, table)?;
        return Ok(true);
    }
    Ok(false)
}

/// Does this many units of work, or fewer where the table is finished by then, and answers how many.
///
/// It is asked of a table within the limit of 16,777,216 positions. After an error the caller gives the
/// table up: the cause is that of the unit that failed, after those before it. `Inconsistent` comes
/// only where the table did not agree with itself, and want of memory at any point. A finished table is refused nothing.
pub fn work<M: MoveSource, T: Table>(
    alloc: Global,
    source: &M,
    table: &mut T,
    units: u32,
) -> Result<u32, StepFault>
    requires source { M.is_sound source.now }
    requires limit { (T.counted table.old).known ≤ 2 ^ 24 }
    ensures idle { IfOk result (λ done. done ≡ 0 → table.new ≡ table.old) }
    ensures worked { T.is_honest table.old → IfOk result (AreWorked (M.graph source.now) (M.is_wide source.now) units
        (T.stored table.old) (T.stored table.new) (T.free table.old) (T.free table.new)) }
    ensures ok { OnOk result (IsGrown T.is_honest T.counted T.goes_on table.old table.new) }
    ensures err { IfErr result (AreStopped (M.graph source.now) (M.is_wide source.now) units T.stored T.is_honest
        T.free T.goes_on T.fails table.old table.new) }
{
    for done in 0..units {
        if !unit(alloc, source, table)? {
            return Ok(done);
        }
    }
    Ok(units)
}
