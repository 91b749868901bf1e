//! A page is edited where it stands in memory: on the disk, where it waits to be written, or in the cache.
ghost use Rattle.std.specs.Prelude.{◌≡◌, false, true, Ok, IsTrue};
ghost use Rattle.page_store.specs.declared.marks.Mark.TheVariants.{Fresh};
ghost use Rattle.page_store.specs.Marks.{mark as mark_of};
ghost use Rattle.page_store.specs.lemmas.Edits.{EditsPage};

use crate::PageFault;
use crate::page::put_changed;
use crate::store::PageStore;
use sector_disk::{PageEdit, SectorDisk};

impl<D: SectorDisk> PageStore<D> {
    ghost use Rattle.page_store.specs.InStore.{store_in};

    /// Edits a page that was handed out since the last commit, where all of it waits on the disk to be written. Answers whether it did; if
    /// not, all is as it was.
    pub(crate) fn edit_waiting<E: PageEdit>(&mut self, page: u32, edit: &E) -> bool
        requires fresh { mark_of (store_in self.old).marks page ≡ Fresh }
        requires open { (store_in self.old).closed ≡ false }
        ensures edited { IsTrue result → EditsPage (E.edits edit.now) page (store_in self.old) (store_in self.new) (Ok true) }
        ensures same { result ≡ false → store_in self.new ≡ store_in self.old }
    {
        if !self.disk.edit_page(page, edit) {
            return false;
        }
        self.cache.forget(page);
        true
    }

    /// Edits a page that was handed out since the last commit, where it stands in the cache, and writes what changed. Answers whether it did: not
    /// where it does not stand there, or is not one that the edit is for; then all is as it was.
    pub(crate) fn edit_cached<E: PageEdit>(
        &mut self,
        page: u32,
        edit: &E,
    ) -> Result<bool, PageFault>
        requires fresh { mark_of (store_in self.old).marks page ≡ Fresh }
        requires open { (store_in self.old).closed ≡ false }
        ensures { EditsPage (E.edits edit.now) page (store_in self.old) (store_in self.new) result }
    {
        let mut was = [0; 4096];
        let Some(place) = self.cache.edit(page, edit, &mut was) else {
            return Ok(false);
        };
        let done = put_changed(&mut self.disk, page, &was, self.cache.bytes_at(place));
        self.closed = done.is_err();
        match done {
            Ok(()) => Ok(true),
            Err(fault) => {
                self.cache.forget(page);
                Err(fault.into())
            }
        }
    }
}
