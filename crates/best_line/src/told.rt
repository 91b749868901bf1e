//! What a table tells of a position by its bytes.
ghost use Rattle.std.specs.Prelude.{IfOk, IfErr};
ghost use Rattle.retrograde.specs.Stored.{IsTable, view_of};
ghost use Rattle.table.specs.Faults.{NeedsNoPage};
ghost use Rattle.table.specs.Frames.{IsRead};
ghost use Rattle.best_line.specs.Moves.{IsKnownAs};

use crate::{Value, value};
use position_pack::Packed;
use table::{Table, TableFault};

/// What a table tells of a position.
#[derive(Clone, Copy, Drop)]
pub struct Told {
    /// Its number, where it is known.
    pub number: Option<u32>,
    /// Its value: `Open` where it is not known.
    pub value: Value,
}

/// What a table tells of the position with these bytes. The table stays as it was.
pub fn told_of<T: Table>(table: &mut T, packed: &Packed) -> Result<Told, TableFault>
    ensures told { T.is_honest table.old → IsTable (T.stored table.old)
        → IfOk result (λ told. IsKnownAs (view_of (T.stored table.old)) packed.now.items told.number told.value) }
    ensures read { IsRead T.stored T.is_honest T.counted T.stays table.old table.new }
    ensures room { IfErr result NeedsNoPage }
    ensures fault { IfErr result (T.fails table.old table.new) }
{
    let Some(number) = table.number_of(packed)? else {
        return Ok(Told {
            number: None,
            value: Value::Open,
        });
    };
    let value = value(table, number)?;
    Ok(Told {
        number: Some(number),
        value,
    })
}
