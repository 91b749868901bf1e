//! The store of a table at work gets more pages.
ghost use Rattle.std.specs.Prelude.{◌≤◌, ◌<◌, length, OnOk, IfErr};
ghost use Rattle.page_store.specs.declared.limits.TheConstants.{MAX_PAGES};
ghost use Rattle.page_store.specs.Spelled.{IsCalm};
ghost use Rattle.page_store.specs.Store.{StoreGrows, IsStoreGrown};
ghost use Rattle.tree_table.specs.Commits.{OnlyPages, HasNotGrown};

use crate::working::TreeTable;
use page_store::{PageFault, Pages};
use std::alloc::Global;

impl<P: Pages> TreeTable<P> {
    ghost use Rattle.tree_table.specs.InTrees.{work_in};

    /// Makes room for this many pages, more than there are, by one commit of this root, between commands: the table stays as it is.
    pub fn grow(&mut self, alloc: Global, pages: u32, root: &[u8; 512]) -> Result<(), PageFault>
        requires calm { IsCalm (work_in self.old).store }
        requires some { 1 ≤ length (work_in self.old).store.marks }
        requires more { length (work_in self.old).store.marks < pages }
        requires few { pages ≤ MAX_PAGES }
        ensures same { OnlyPages (work_in self.old) (work_in self.new) }
        ensures grows { StoreGrows root.now pages (work_in self.old).store (work_in self.new).store }
        ensures ok { OnOk result (IsStoreGrown root.now pages (work_in self.old).store (work_in self.new).store) }
        ensures calm { IsCalm (work_in self.new).store }
        ensures err { IfErr result (HasNotGrown (work_in self.old).store (work_in self.new).store) }
    {
        self.seen = None;
        self.in_row = false;
        self.near = None;
        let torn = self.torn;
        self.torn = true;
        let result = self.store.grow(alloc, pages, root);
        self.torn = torn;
        result
    }
}
