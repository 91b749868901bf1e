//! A page of which all sectors wait: it is looked at, put and edited where it stands.
ghost use Rattle.std.specs.Prelude.{◌≡◌, ◌+◌, ◌*◌, ◌^◌, ◌<◌, ◌≤◌, ℕ, Some, IfSome, length, true, false};
ghost use Rattle.std.specs.Bool.{OnTrue, OnFalse};
ghost use Rattle.file_disk.specs.Bytes.{bytes_at};
ghost use Rattle.file_disk.specs.WaitingSectors.{page_at, has_sector, place_of};
ghost use Rattle.file_disk.specs.lemmas.WaitingSectors.{AreInside};
ghost use Rattle.file_disk.specs.lemmas.WholePages.{WaitsWhole, KeepsOthers, IsEditPlace, IsEditedWaiting};

use crate::edit_bytes::edit_bytes;
use crate::put_bytes::put_bytes;
use crate::waiting_page::{WaitingPage, is_whole};
use crate::waiting_writes::WaitingWrites;
use sector_disk::{PageEdit, Span};

impl WaitingWrites {
    /// The place of a page, if all its sectors wait.
    fn whole_place(&self, page: u64) -> Option<usize>
        ensures found { IfSome result (λ p. place_of self.now.pages.items self.now.count page ≡ Some p) }
        ensures there { IfSome result (λ p. p < self.now.count) }
        ensures whole { IfSome result (λ p. (s : ℕ) → s < 8 → has_sector (page_at self.now.pages.items p) s ≡ true) }
    {
        let Some(place) = self.place(page) else {
            return None;
        };
        if self.waits_whole(place) {
            Some(place)
        } else {
            None
        }
    }

    /// The bytes of a place.
    fn bytes_of_place(&self, place: usize) -> &[u8; 4096]
        requires { place < self.now.count }
        ensures { result.now ≡ bytes_at self.now.bytes.items (4096 * place) 4096 }
    {
        let (_, from_there) = self.bytes.split_at(4096 * place);
        from_there.first_chunk().unwrap()
    }

    /// The bytes of a page, if all its sectors wait.
    pub fn whole_page(&self, page: u64) -> Option<&[u8; 4096]>
        ensures { IfSome result (λ bytes. WaitsWhole self.now.pages.items self.now.count self.now.bytes.items page bytes.now) }
    {
        let Some(place) = self.whole_place(page) else {
            return None;
        };
        Some(self.bytes_of_place(place))
    }

    /// Where a page is to be edited, if all its sectors wait and it is one that the edit is for: its place, and where in it.
    pub fn find_edit<E: PageEdit>(&self, page: u64, edit: &E) -> Option<(usize, Span)>
        ensures { IfSome result (λ found. IsEditPlace (E.fits edit.now found.1) page found.0 self.now) }
    {
        let Some(place) = self.whole_place(page) else {
            return None;
        };
        match edit.find(self.bytes_of_place(place)) {
            Some(span) => Some((place, span)),
            None => None,
        }
    }

    /// Edits a page where it stands.
    pub fn edit_at<E: PageEdit>(&mut self, page: u64, place: usize, edit: &E, span: Span)
        requires { IsEditPlace (E.fits edit.now span) page place self.old }
        ensures edited { IsEditedWaiting (E.edits edit.now) page self.old self.new }
        ensures pages { self.new.pages ≡ self.old.pages }
        ensures count { self.new.count ≡ self.old.count }
    {
        edit_bytes(&mut self.bytes, 4096 * place, edit, span);
    }

    /// Puts all sectors of a page into its place.
    fn fill_page(&mut self, place: usize, page: u64, from: &[u8; 4096])
        requires there { place < self.old.count }
        requires its { (page_at self.old.pages.items place).number ≡ page }
        ensures put { WaitsWhole self.new.pages.items self.new.count self.new.bytes.items page from.now }
        ensures others { KeepsOthers page self.old self.new }
        ensures inside { (end : ℕ) → 4096 * page + 4096 ≤ end → AreInside self.old.pages.items self.old.count end
            → AreInside self.new.pages.items self.new.count end }
        ensures room { length self.new.pages.items ≡ length self.old.pages.items }
    {
        put_bytes(&mut self.bytes, 4096 * place, from);
        self.pages[place] = WaitingPage {
            number: page,
            has: [true; 8],
        };
    }

    /// Puts all sectors of a page, which must have a place or get one. It answers whether there was room.
    pub fn put_page(&mut self, page: u64, from: &[u8; 4096]) -> bool
        requires { 4096 * page < 2 ^ 64 }
        ensures put { OnTrue result (WaitsWhole self.new.pages.items self.new.count self.new.bytes.items page from.now) }
        ensures others { KeepsOthers page self.old self.new }
        ensures inside { (end : ℕ) → 4096 * page + 4096 ≤ end → AreInside self.old.pages.items self.old.count end
            → AreInside self.new.pages.items self.new.count end }
        ensures refused { OnFalse result (self.new ≡ self.old) }
        ensures full { OnFalse result (length self.old.pages.items ≤ self.old.count) }
        ensures room { length self.new.pages.items ≡ length self.old.pages.items }
    {
        let Some(place) = self.place_for(page) else {
            return false;
        };
        self.fill_page(place, page, from);
        true
    }
}
