//! What is asked of a table of a game.
ghost use Rattle.std.specs.Prelude.{◌<◌, ◌≤◌, IfOk};
ghost use Rattle.retrograde.specs.Stored.{IsTable, view_of};
ghost use Rattle.retrograde.specs.Sound.{IsLocallySound};
ghost use Rattle.best_line.specs.Lines.{IsBestPlay};
ghost use Rattle.best_line.specs.Rows.{AreRows};
ghost use Rattle.best_line.specs.Values.{IsValue};

use best_line::{LineFault, Row, Value};
use legal_moves::MoveSource;
use std::alloc::Global;
use table::{Table, TableFault};

/// `value` of `value`.
pub fn value<T: Table>(table: &mut T, number: u32) -> Result<Value, TableFault>
    requires known { number < (T.counted table.old).known }
    requires honest { T.is_honest table.old }
    requires parts { IsTable (T.stored table.old) }
    ensures { IfOk result (λ value. IsValue (view_of (T.stored table.old)) number value) }
{
    best_line::value(table, number)
}

/// `line` of `line`.
pub fn line<M: MoveSource, T: Table>(
    alloc: Global,
    source: &M,
    table: &mut T,
    number: u32,
) -> Result<Vec<u32>, LineFault>
    requires source { M.is_sound source.now }
    requires known { number < (T.counted table.old).known }
    requires honest { T.is_honest table.old }
    requires sound { IsLocallySound (M.graph source.now) (M.is_wide source.now) (T.stored table.old) }
    ensures { IfOk result (λ numbers. IsBestPlay (M.graph source.now) (view_of (T.stored table.old)) number numbers.items) }
{
    best_line::line(alloc, source, table, number)
}

/// `rows` of `list`.
pub fn list<T: Table>(
    alloc: Global,
    table: &mut T,
    from: u32,
    count: u32,
) -> Result<Vec<Row>, TableFault>
    requires from { from < (T.counted table.old).known }
    requires some { 1 ≤ count }
    requires few { count ≤ 256 }
    requires honest { T.is_honest table.old }
    requires parts { IsTable (T.stored table.old) }
    ensures { IfOk result (λ rows. AreRows (view_of (T.stored table.old)) from count rows.items) }
{
    best_line::list(alloc, table, from, count)
}
