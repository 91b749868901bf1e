//! What is handed out for a version of a table.
ghost use Rattle.std.specs.Prelude.{◌≤◌, ◌^◌};
ghost use Rattle.position_pack.specs.declared.limits.TheConstants.{MAX_PACKED};

use page_store::Hold;
use tree_table::TreeSlot;

/// A version of a table: what was committed as it was asked for. It is given back by `give_back`, and cannot be dropped.
pub struct Kept {
    pub(crate) hold: Hold,
    pub(crate) slot: TreeSlot,
    ghost some: { 1 ≤ slot.sizes.packed },
    ghost short: { slot.sizes.packed ≤ MAX_PACKED },
    ghost few: { slot.sizes.counts.known ≤ 2 ^ 24 },
}
