//! What a fault of the store is here.
ghost use Rattle.std.specs.Prelude.{◌≡◌};
ghost use Rattle.tree_table.specs.lemmas.Faults.{fault_of};

use page_store::PageFault;
use table::TableFault;

/// What a fault of the store is here.
pub fn table_fault(fault: PageFault) -> TableFault
    ensures { result ≡ fault_of fault }
{
    match fault {
        PageFault::Disk => TableFault::Disk,
        PageFault::NotATable | PageFault::Damaged => TableFault::Damaged,
        PageFault::TableFull => TableFault::TableFull,
        PageFault::OutOfMemory => TableFault::OutOfMemory,
        PageFault::Closed => TableFault::Closed,
    }
}
