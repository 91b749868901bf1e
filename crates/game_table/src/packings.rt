//! Whether what a table stores are positions.
ghost use Rattle.std.specs.Prelude.{◌≡◌, ◌↔◌, true, IfOk, IfErr};
ghost use Rattle.game_table.specs.lemmas.Tables.{IsPackedBytes, ArePacked};
ghost use Rattle.table.specs.Faults.{NeedsNoPage};
ghost use Rattle.table.specs.Frames.{IsRead};

use position_pack::{Packed, Packing};
use table::{Table, TableFault};

/// Whether each position of a table is one of this packing. The table stays as it was.
pub fn are_packed<T: Table>(packing: &Packing, table: &mut T) -> Result<bool, TableFault>
    ensures are { T.is_honest table.old → IfOk result (λ are. (are ≡ true) ↔ ArePacked packing.now (T.stored table.old).positions) }
    ensures read { IsRead T.stored T.is_honest T.counted T.stays table.old table.new }
    ensures room { IfErr result NeedsNoPage }
    ensures fault { IfErr result (T.fails table.old table.new) }
{
    for number in 0..table.counts().known {
        let position = table.packed(number)?;
        if !is_packed(packing, &position) {
            return Ok(false);
        }
    }
    Ok(true)
}

/// Whether this is a position of this packing.
fn is_packed(packing: &Packing, position: &Packed) -> bool
    ensures { (result ≡ true) ↔ IsPackedBytes packing.now position.now.items }
{
    packing.unpack(position).is_some()
}
