//! The first look at a table, for which the moves of each position are searched once.
ghost use Rattle.std.specs.Prelude.{◌≡◌, ◌<◌, true, IfOk, IfErr, IfSome, Ok, length};
ghost use Rattle.retrograde.specs.Stored.{IsTable};
ghost use Rattle.audit.specs.Answers.{IsAnswer};
ghost use Rattle.audit.specs.Causes.{HasAuditCause, HasWide};
ghost use Rattle.audit.specs.lemmas.Conditions.{AreFloors};
ghost use Rattle.audit.specs.lemmas.Tallies.{IsTallied};
ghost use Rattle.table.specs.Frames.{IsRead};
ghost use Rattle.audit.specs.declared.verdict.Verdict.TheVariants.{Right};

use crate::edges::count_edges;
use crate::fault::AuditFault;
use crate::number::own_failing;
use legal_moves::MoveSource;
use std::alloc::Global;
use table::Table;

/// How many moves lead from a number, and how many edges to it.
#[derive(Clone, Copy, Debug, Drop)]
struct Tally {
    moves: u32,
    edges: u32,
}

/// The tally of a number, if no condition fails there, where nothing is asked of the edges that lead to it. It is counted first, while the
/// number's own cell and edges are in memory: the conditions then ask for them again.
fn tally_of<M: MoveSource, T: Table>(
    alloc: Global,
    source: &M,
    table: &mut T,
    number: u32,
    floor: u32,
) -> Result<Option<Tally>, AuditFault>
    requires source { M.is_sound source.now }
    requires known { number < (T.counted table.old).known }
    ensures tally { T.is_honest table.old → IfOk result (λ r. IfSome r (λ tally.
        IsTallied (M.graph source.now) (M.is_wide source.now) (T.stored table.old) number floor
        tally.moves tally.edges)) }
    ensures read { IsRead T.stored T.is_honest T.counted T.stays table.old table.new }
    ensures err { IfErr result (HasAuditCause
        (T.is_honest table.old → HasWide (M.is_wide source.now) (T.stored table.old)) (T.fails table.old table.new)) }
{
    let edges = count_edges(table, number)?;
    let moves = table.record(number)?.successors;
    if own_failing(alloc, source, table, number, floor)?.is_some() {
        return Ok(None);
    }
    Ok(Some(Tally { moves, edges }))
}

/// No condition fails at any number, where nothing is asked of the edges that lead to it, and there are as many
/// edges as moves. Then each edge is a move, since each move has its edge.
pub fn adds_up<M: MoveSource, T: Table>(
    alloc: Global,
    source: &M,
    table: &mut T,
    floors: &[u32],
) -> Result<bool, AuditFault>
    requires source { M.is_sound source.now }
    requires lengths { length floors.now ≡ (T.counted table.old).known }
    ensures right { T.is_honest table.old → IsTable (T.stored table.old)
        → AreFloors (T.stored table.old) (length (T.stored table.old).order) floors.now → result ≡ Ok true
        → IsAnswer (M.graph source.now) (M.is_wide source.now) (T.stored table.old) Right }
    ensures read { IsRead T.stored T.is_honest T.counted T.stays table.old table.new }
    ensures err { IfErr result (HasAuditCause
        (T.is_honest table.old → HasWide (M.is_wide source.now) (T.stored table.old)) (T.fails table.old table.new)) }
{
    let mut moves: u64 = 0;
    let mut edges: u64 = 0;
    for number in 0..table.counts().known {
        let floor = floors[number as usize];
        let Some(tally) = tally_of(alloc, source, table, number, floor)? else {
            return Ok(false);
        };
        moves += u64::from(tally.moves);
        edges += u64::from(tally.edges);
    }
    Ok(moves == edges)
}
