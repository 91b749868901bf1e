//! A file of layout 2 becomes one of layout 3.
ghost use Rattle.std.specs.Prelude.{◌≡◌, ◌≢◌, IfOk, IfErr, None};
ghost use Rattle.game_file.specs.Kept.{goal_kept};
ghost use Rattle.tree_table.specs.Held.{StoresTrees};
ghost use Rattle.tree_file.specs.File.{IsWholeFile, kept_of, state_of};
ghost use Rattle.tree_file.specs.MoveCauses.{IsMoved, IsNotMoved, LeavesPages, RenewCause};

use crate::file::TreeFile;
use crate::naming::slot_naming;
use crate::on_disk::PagesOnDisk;
use game_file::{FileFault, Refused};
use tree_table::TreeTable;

/// The layout that a file of layout 2 is brought to.
const RENEWED: u32 = 3;

impl<P: PagesOnDisk> TreeFile<P, 2> {
    ghost use Rattle.tree_file.specs.InFile.{file_in};

    /// Makes it a file of layout 3, by one commit that writes a root slot and the gate, and gives the disk back: E9, E1. No page is handed out
    /// or written. After a refusal the table is there as it was, but that after E1 in a write or a sync the disk has it in the one layout or
    /// the other.
    pub fn renew(self) -> Result<P::Device, Refused<P::Device>>
        requires { IsWholeFile 2 (file_in self) }
        ensures moved { IfOk result (λ disk. IsMoved (StoresTrees 2) (StoresTrees 3) (state_of (file_in self))
            (P.Device.disk disk) (P.Device.failures disk)) }
        ensures goal { goal_kept (kept_of (file_in self)) ≡ None }
        ensures pages { IfOk result (λ disk. LeavesPages (state_of (file_in self)).disk (P.Device.disk disk)) }
        ensures refused { IfErr result (λ back. IsNotMoved (StoresTrees 2) (StoresTrees 3) (state_of (file_in self))
            (P.Device.disk back.disk) (P.Device.failures back.disk) back.fault) }
        ensures untouched { IfErr result (λ back. back.fault ≢ FileFault.Disk → P.Device.disk back.disk ≡ (state_of (file_in self)).disk) }
        ensures cause { IfErr result (λ back. RenewCause (state_of (file_in self)) (P.Device.failures back.disk) back.fault) }
    {
        let TreeFile {
            table,
            commits,
            game,
            ..
        } = self;
        let TreeTable { mut store, .. } = table;
        let commits = commits.wrapping_add(1);
        let root = slot_naming(RENEWED, store.capacity(), commits, &game);
        match store.commit(&root) {
            Ok(()) => Ok(store.give_back()),
            Err(fault) => Err(Refused {
                disk: store.give_back(),
                fault: fault.into(),
            }),
        }
    }
}
